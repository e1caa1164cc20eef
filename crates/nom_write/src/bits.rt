//! Bit fields, and parsers of bits among parsers of bytes.
ghost use Rattle.std.specs.Prelude.{◌≡◌, ◌<◌, ◌≤◌, ◌-◌, ◌^◌, ◌⊎◌, ◌∷◌, ◌++◌, [], Bool, List, false, length, replicate, refl, take};
ghost use Rattle.nom_internal.specs.Prelude.{byte_bits, low_bits};
ghost use Rattle.nom_sink.specs.declared.error.WriteError.{WriteError};
ghost use Rattle.nom_sink.specs.Written.{LacksRoom, Written};
ghost use Rattle.nom_write.specs.BitForms.{AreBitsOf, FieldFails, GroupFails, InWholeBytes, InWholeBytesFails, IsPadded, of_group};
ghost use Rattle.nom_write.specs.laws.BitReads.{bit_code, bits_are_low, bits_reads, bool_reads};
ghost use Rattle.nom_write.specs.laws.BitReads.{tag_bits_reads, tag_bits_reads_some, tag_bits_starts, take_bits_reads};
ghost use Rattle.nom_write.specs.FirstSets.{whole_first};
ghost use Rattle.nom_write.specs.laws.FirstSetLaws.{fixed_begins, no_first};

use crate::writer::{Constant, Writer};
use nom_bits::{BitUint, Bits, Bool, ErrorConvert, Tag, Take};
use nom_error::value::ParseError;
use nom_sink::error::WriteError;
use nom_sink::sink::{Sink, slice_sink};
use nom_traits::input::Input;

/// Returns the lowest `count` bits of a number, most significant bit first, and other bits after them.
#[inline(always)]
fn number_bits(number: u128, count: usize) -> [bool; 128]
    requires { count ≤ 128 }
    ensures { take count result ≡ low_bits count number }
{
    let mut bits = [false; 128];
    let mut done = 0;
    while done < count {
        bits[done] = (number >> (count - 1 - done)) % 2 == 1;
        done += 1;
    }
    bits
}

/// Adds a number in `count` bits, most significant bit first. On an error, `out` is as it was.
#[inline(always)]
fn add_field<S: Sink<bool>>(
    number: u128,
    count: usize,
    width: usize,
    out: &mut S,
) -> Result<(), WriteError>
    requires { width ≤ 128 }
    ensures written { Written (AreBitsOf count number) (FieldFails width count number) S.model out.old out.new result }
    ensures room { S.model.room out.old ≤ S.model.room out.new }
    ensures loan { S.model.loan out.new ≡ S.model.loan out.old }
{
    if count > width {
        return Err(WriteError::Mismatch(out.len()));
    }
    if count < 128 && number >> count > 0 {
        return Err(WriteError::TooLong(out.len()));
    }
    out.add(&number_bits(number, count)[..count])
}

/// Writes the number in as many bits as the parser takes, most significant bit first.
///
/// A number that needs more bits is `TooLong`. If the type has fewer bits, any number is a mismatch.
impl<I: Input<Item = u8>, O: BitUint + Copy, E: ParseError<(I, usize)>> Writer<(I, usize)>
    for Take<I, O, E> {
    ghost Form = { λ p v. AreBitsOf p.count (O.bits v) };

    ghost Fails = { λ p v. FieldFails O.WIDTH p.count (O.bits v) };

    #[inline]
    fn write<S: Sink<bool>>(&self, value: &O, out: &mut S) -> Result<(), WriteError> {
        add_field((*value).to_bits(), self.count, O::WIDTH, out)
    }

    ghost reads = { λ p k c. take_bits_reads I.model E.errors O.of_bits O.bits O.exact O.WIDTH p.count };

    ghost begins = { λ p. no_first };
}

/// Writes the expected number, if the value is that number. Any other value is a mismatch.
impl<I: Input<Item = u8>, O: BitUint + Copy, E: ParseError<(I, usize)>> Writer<(I, usize)>
    for Tag<I, O, E> {
    ghost Form = { λ p v bits. (O.bits v ≡ p.pattern) × AreBitsOf p.count p.pattern bits };

    ghost Fails = { λ p v s e. ((O.bits v ≡ p.pattern → ⊥) × (e ≡ WriteError.Mismatch s.start)) ⊎ FieldFails O.WIDTH p.count p.pattern s e };

    ghost First = { λ p. whole_first bit_code (low_bits p.count p.pattern) };

    #[inline]
    fn write<S: Sink<bool>>(&self, value: &O, out: &mut S) -> Result<(), WriteError> {
        if (*value).to_bits() == self.pattern {
            add_field(self.pattern, self.count, O::WIDTH, out)
        } else {
            Err(WriteError::Mismatch(out.len()))
        }
    }

    ghost reads = { λ p k c. tag_bits_reads I.model E.errors O.of_bits O.bits O.exact O.WIDTH p.pattern p.count };

    ghost begins = { λ p. fixed_begins bit_code (low_bits p.count p.pattern) (λ v bs f. bits_are_low p.pattern p.count bs f.1)
        (tag_bits_starts I.model E.errors O.WIDTH p.pattern p.count) };
}

impl<I: Input<Item = u8>, O: BitUint + Copy, E: ParseError<(I, usize)>> Constant<(I, usize)>
    for Tag<I, O, E> {
    ghost items = { λ p. low_bits p.count p.pattern };

    ghost Start = { λ p. whole_first bit_code (low_bits p.count p.pattern) };

    ghost Fits = { λ p. (p.count ≤ O.WIDTH) × (p.pattern < 2 ^ p.count) };

    #[inline(always)]
    fn write_constant<S: Sink<bool>>(&self, out: &mut S) -> Result<(), WriteError> {
        out.add(&number_bits(self.pattern, self.count)[..self.count])
    }

    ghost accepts = { λ p k c. tag_bits_reads_some I.model E.errors O.of_bits O.bits O.exact O.WIDTH p.pattern p.count c.1 };

    ghost others = { λ p. tag_bits_starts I.model E.errors O.WIDTH p.pattern p.count };
}

/// Writes the bit.
impl<I: Input<Item = u8>, E: ParseError<(I, usize)>> Writer<(I, usize)> for Bool<I, E> {
    ghost Form = { λ p v bits. bits ≡ v ∷ [] };

    ghost Fails = { λ p v. LacksRoom 1 };

    #[inline(always)]
    fn write<S: Sink<bool>>(&self, value: &bool, out: &mut S) -> Result<(), WriteError> {
        out.add(&[*value])
    }

    ghost reads = { λ p k c. bool_reads I.model E.errors };

    ghost begins = { λ p. no_first };
}

/// Returns the byte of up to eight bits, with zeros after them.
#[inline(always)]
fn padded_byte(bits: &[bool]) -> u8
    requires some { 0 < length bits.now }
    requires count { length bits.now ≤ 8 }
    ensures { byte_bits result ≡ bits.now ++ replicate (8 - length bits.now) false }
{
    let mut value = 0u8;
    for bit in bits {
        value = 2 * value + *bit as u8;
    }
    value << (8 - bits.len())
}

/// Adds bits in whole bytes, with zeros after them. More than 256 bits are `TooLong`. On an error, `out` is as it was.
#[inline(always)]
fn add_group<S: Sink<u8>>(bits: &[bool], out: &mut S) -> Result<(), WriteError>
    ensures written { Written (IsPadded bits.now) (GroupFails (length bits.now)) S.model out.old out.new result }
    ensures room { S.model.room out.old ≤ S.model.room out.new }
    ensures loan { S.model.loan out.new ≡ S.model.loan out.old }
{
    if bits.len() > 256 {
        return Err(WriteError::TooLong(out.len()));
    }
    let mut bytes = [0u8; 32];
    let mut count = 0;
    while 8 * count < bits.len() {
        let start = 8 * count;
        let end = (start + 8).min(bits.len());
        bytes[count] = padded_byte(&bits[start..end]);
        count += 1;
    }
    out.add(&bytes[..count])
}

/// Returns the error of a part of a group of bits, as one of the whole group.
#[inline]
fn of_group(error: WriteError, place: usize) -> WriteError
    ensures { result ≡ of_group place error }
{
    match error {
        WriteError::OutOfMemory => WriteError::OutOfMemory,
        WriteError::Full => WriteError::TooLong(place),
        WriteError::TooLong(_) => WriteError::TooLong(place),
        WriteError::Mismatch(_) => WriteError::Mismatch(place),
    }
}

/// Writes a group of bits in whole bytes. The rest of the last byte is zeros.
///
/// A group of more than 256 bits is `TooLong`. The place of an error is that where the group begins. Anything may follow the parts.
impl<I: Input<Item = u8>, P: Writer<(I, usize)> + Drop, E: ParseError<I>> Writer<I> for Bits<P, E>
where
    P::Error: ErrorConvert<E>,
{
    ghost Form = { λ p v. InWholeBytes (P.Form p.parser v) };

    ghost Fails = { λ p v. InWholeBytesFails (P.Form p.parser v) (P.Fails p.parser v) };

    ghost CanWrite = { λ p. P.CanWrite p.parser × ((rest : List Bool) → P.Follow p.parser rest) };

    #[inline]
    fn write<S: Sink<u8>>(&self, value: &P::Output, out: &mut S) -> Result<(), WriteError> {
        let mut buffer = [false; 256];
        let mut bits = slice_sink(&mut buffer);
        match self.parser.write(value, &mut bits) {
            Ok(()) => add_group(bits.written(), out),
            Err(error) => Err(of_group(error, out.len())),
        }
    }

    ghost reads = { λ p k c. bits_reads I.model P.Error.converts c.1 (P.reads p.parser k c.0) };

    ghost begins = { λ p. no_first };
}
