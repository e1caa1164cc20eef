//! Binary integers.
ghost use Rattle.std.specs.Prelude.{◌≡◌, ◌⊎◌, ◌∷◌, [], length};
ghost use Rattle.nom_number.specs.Numbers.{binary_number};
ghost use Rattle.nom_sink.specs.Digits.{AreBytesOf};
ghost use Rattle.nom_sink.specs.Written.{LacksRoom};
ghost use Rattle.nom_write.specs.laws.FirstSetLaws.{no_first};
ghost use Rattle.nom_write.specs.laws.LeafReads.{byte_reads, binary_reads};

use crate::writer::Writer;
use nom_error::value::ParseError;
use nom_number::{BeU8, Binary};
pub use nom_sink::bits::ToBits;
use nom_sink::bits::add_bits;
use nom_sink::error::WriteError;
use nom_sink::sink::Sink;
use nom_traits::input::Input;

/// Writes the byte.
impl<I: Input<Item = u8>, E: ParseError<I>> Writer<I> for BeU8<I, E> {
    ghost Form = { λ p v xs. (xs ≡ v ∷ []) };

    ghost Fails = { λ p v. LacksRoom 1 };

    #[inline(always)]
    fn write<S: Sink<u8>>(&self, value: &u8, out: &mut S) -> Result<(), WriteError> {
        out.add(&[*value])
    }

    ghost reads = { λ p k c. byte_reads I.model E.errors };

    ghost begins = { λ p. no_first };
}

/// Writes the bytes of a number, in the parser's order. A number that needs more bytes is `TooLong`.
impl<F: ToBits, I: Input<Item = u8>, E: ParseError<I>> Writer<I> for Binary<F, I, E> {
    ghost use Rattle.nom_sink.specs.declared.error.WriteError.{WriteError};

    ghost Form = { λ p v xs. (length xs ≡ F.BYTES) × (F.of_bits (binary_number p.endian xs) ≡ v) };

    ghost Fails = { λ p v s e. LacksRoom F.BYTES s e ⊎ (F.Exceeds v × (e ≡ WriteError.TooLong s.start)) };

    #[inline(always)]
    fn write<S: Sink<u8>>(&self, value: &F::Number, out: &mut S) -> Result<(), WriteError> {
        match F::to_bits(value) {
            Some(bits) => add_bits(bits, F::BYTES, self.endian, out),
            None => Err(WriteError::TooLong(out.len())),
        }
    }

    ghost reads = { λ p k c. binary_reads I.model E.errors F.of_bits p.endian F.BYTES };

    ghost begins = { λ p. no_first };
}
