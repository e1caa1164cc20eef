//! Binary integers of any width.
ghost use Rattle.std.specs.Prelude.{◌≡◌, ◌<◌, ◌*◌, ◌^◌, length};
ghost use Rattle.nom_internal.specs.Prelude.{Built, Slice, IsFirst, IsCount, value_pinned, valued};
ghost use Rattle.nom_internal.specs.laws.CaseLaws.{labelled_lawful, labelled_steady};
ghost use Rattle.nom_bytes.specs.laws.TakeLaws.{take_lawful, take_steady};
ghost use Rattle.nom_number.specs.declared.order.Endianness.{Endianness};
ghost use Rattle.nom_number.specs.Numbers.{bytes_lack, number_meaning, binary_number};
ghost use Rattle.nom_number.specs.Words as Words;

use crate::layout::Layout;
use crate::order::Endianness;
use nom_error::answer::{Err, Needed, PResult};
use nom_error::kind::ErrorKind;
use nom_error::mode::{IsStreaming, Mode, OutputMode};
use nom_error::value::{ParseError, refusal};
use nom_internal::parser::{Parser, StreamParser};
use nom_traits::input::Input;
use std::marker::PhantomData;

/// Converts a byte to a wide number.
#[inline(always)]
fn widened(byte: u8) -> u128
    ensures value { result ≡ byte }
    ensures range { byte < 256 }
{
    byte as u128
}

/// Returns the number that the bytes of an input write in big-endian order.
#[inline(always)]
fn big_number<I: Input<Item = u8>>(bytes: I) -> u128
    requires { length (I.model.elements bytes) < 17 }
    ensures value { result ≡ binary_number Endianness.Big (I.model.elements bytes) }
    ensures bits { result < 2 ^ (8 * length (I.model.elements bytes)) }
{
    let mut value = 0u128;
    for byte in bytes.iter_elements() {
        let low = widened(byte);
        value = 256 * value + low;
    }
    value
}

/// Returns the value of a byte at a place of a number. The lowest place is 0.
#[inline(always)]
fn at_place(byte: u8, place: usize) -> u128
    requires { place < 16 }
    ensures value { result ≡ byte * 2 ^ (8 * place) }
    ensures range { byte < 256 }
{
    widened(byte) << (8 * place)
}

/// Returns the number that the bytes of an input write in little-endian order.
#[inline(always)]
fn little_number<I: Input<Item = u8>>(bytes: I) -> u128
    requires { length (I.model.elements bytes) < 17 }
    ensures value { result ≡ binary_number Endianness.Little (I.model.elements bytes) }
    ensures bits { result < 2 ^ (8 * length (I.model.elements bytes)) }
{
    let mut value = 0u128;
    let mut place = 0;
    for byte in bytes.iter_elements() {
        value = value + at_place(byte, place);
        place = place + 1;
    }
    value
}

/// Returns the number that the bytes of an input write in the order `endian`.
#[inline(always)]
fn number<I: Input<Item = u8>>(bytes: I, endian: Endianness) -> u128
    requires { length (I.model.elements bytes) < 17 }
    ensures value { result ≡ binary_number endian (I.model.elements bytes) }
    ensures bits { result < 2 ^ (8 * length (I.model.elements bytes)) }
{
    if endian.is_big() {
        big_number(bytes)
    } else {
        little_number(bytes)
    }
}

/// Returns the number in the first bytes, of length `n`, if outputs are built.
#[inline(always)]
fn first_number<M: Mode, F: Layout, I: Input<Item = u8>>(
    input: I,
    n: usize,
    endian: Endianness,
) -> Option<F::Number>
    requires { IsCount I.model input F.BYTES n }
    ensures { (t : Slice I.model) → IsFirst I.model input n t → Built M.BUILDS (λ v. v ≡ F.of_bits (binary_number endian t.items)) result }
{
    if M::BUILDS {
        Some(F::from_bits(number(input.take(n), endian)))
    } else {
        None
    }
}

/// A parser of a number in `F::BYTES` bytes, in one byte order.
#[derive(Drop)]
pub struct Binary<F, I, E> {
    /// The order of the bytes.
    pub endian: Endianness,
    /// The layout of the number, and the types of the input and of the error.
    pub types: PhantomData<(F, I, E)>,
}

impl<F: Layout, I: Input<Item = u8>, E: ParseError<I>> Parser<I> for Binary<F, I, E> {
    type Output = F::Number;

    type Error = E;

    ghost State = { Endianness };

    ghost state = { λ p. p.endian };

    ghost Tree = { F.Number };

    ghost grammar = { λ endian. valued (number_meaning I.model E.errors (λ bytes. F.of_bits (binary_number endian bytes)) F.BYTES) };

    ghost word = { λ endian. Words.number_of I.model E.errors F.of_bits endian F.BYTES };

    ghost worded = { λ endian. Words.number_worded I.model E.errors F.of_bits endian F.BYTES };

    #[inline(always)]
    fn process<OM: OutputMode>(&mut self, input: I) -> PResult<I, F::Number, E> {
        match input.slice_index(F::BYTES) {
            Ok(n) => Ok((
                input.take_from(n),
                first_number::<OM::Output, F, I>(input, n, self.endian),
            )),
            Err(_) if OM::Incomplete::STREAMING => {
                let lack = F::BYTES.saturating_sub(input.input_len());
                Err(Err::Incomplete(Needed::new(lack)))
            }
            Err(_) => Err(refusal::<OM::Error, I, E>(input, ErrorKind::Eof)),
        }
    }

    #[inline(always)]
    fn width(&self) -> usize {
        F::BYTES
    }

    ghost lawful = { λ endian k. labelled_lawful (take_lawful I.model E.errors (bytes_lack I.model) F.BYTES) };
}

impl<F: Layout, I: Input<Item = u8>, E: ParseError<I>> StreamParser<I> for Binary<F, I, E> {
    ghost pinned = { λ p k h. value_pinned };

    ghost steady = { λ endian k. labelled_steady (take_steady I.model E.errors (bytes_lack I.model) F.BYTES) };
}
