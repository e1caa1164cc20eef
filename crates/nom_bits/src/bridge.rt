//! Parsers of bits among parsers of bytes, and the reverse.
ghost use Rattle.std.specs.Prelude.{◌≡◌, true};
ghost use Rattle.nom_internal.specs.Prelude.{size_of, bits_model, with_streaming, IsSuffixOf, ConvertsSome};
ghost use Rattle.nom_bits.specs.BitRests.{bits_ahead};
ghost use Rattle.nom_bits.specs.Bridges.{bytes_needed, InBytes, InBits, IsNeed, IsTooLargeAt, BitsSideCondition, BytesSideCondition, bits_of, bytes_of};
ghost use Rattle.nom_bits.specs.laws.BridgeLaws.{bits_of_lawful, bits_of_steady, bytes_of_lawful, bytes_of_steady};
ghost use Rattle.nom_bits.specs.Words as Words;

use crate::convert::ErrorConvert;
use crate::field::skipped;
use nom_error::answer::{Err, Needed, PResult};
use nom_error::kind::ErrorKind;
use nom_error::mode::{OutputM, OutputMode, Streaming};
use nom_error::value::ParseError;
use nom_internal::parser::{Parser, StreamParser};
use nom_traits::input::Input;
use std::marker::PhantomData;

/// Returns the bytes from the next whole byte on, or the end if there is none.
#[inline(always)]
fn whole_byte<I: Input<Item = u8>>(input: (I, usize)) -> I
    ensures { IsSuffixOf (bits_model I.model) input (bits_ahead I.model input) (result, 0) }
{
    let (bytes, position) = input;
    bytes.known();
    match skipped(bytes, position / 8 + (position % 8 + 7) / 8) {
        Some(rest) => rest,
        None => bytes.take_from(bytes.input_len()),
    }
}

/// Converts a needed number of bits to a number of bytes.
#[inline(always)]
fn needed_bytes(needed: Needed) -> Needed
    ensures { size_of result ≡ bytes_needed (size_of needed) }
{
    match needed {
        Needed::Unknown => Needed::Unknown,
        Needed::Size(bits) => Needed::new(bits.get() / 8 + 1),
    }
}

/// Converts a needed number of bytes to a number of bits. Returns `None` if that doesn't fit.
#[inline(always)]
fn needed_bits(needed: Needed) -> Option<Needed>
    ensures { IsNeed needed result }
{
    match needed {
        Needed::Unknown => Some(Needed::Unknown),
        Needed::Size(bytes) => match bytes.get().checked_mul(8) {
            Some(bits) => Some(Needed::new(bits)),
            None => None,
        },
    }
}

/// Converts the error, if there is one.
#[inline(always)]
fn converted<F, E: ErrorConvert<F> + Drop>(error: Option<E>) -> Option<F>
    ensures { ConvertsSome E.converts error result }
{
    match error {
        Some(error) => Some(error.convert()),
        None => None,
    }
}

/// Converts an answer of a parser of bits that isn't an acceptance to an answer of a parser of bytes.
#[inline(always)]
fn in_bytes<F, E: ErrorConvert<F> + Drop>(answer: Err<E, Option<E>>) -> Err<F, Option<F>>
    ensures { InBytes E.converts answer result }
{
    match answer {
        Err::Incomplete(needed) => Err::Incomplete(needed_bytes(needed)),
        Err::Error(error) => Err::Error(converted::<F, E>(error)),
        Err::Failure(error) => Err::Failure(error.convert()),
        Err::OutOfMemory => Err::OutOfMemory,
    }
}

/// Returns the failure for a parser of bytes that needs too many bits.
#[inline(always)]
fn too_large<I: Drop, F: ParseError<I>>(input: I) -> Err<F, Option<F>>
    ensures { IsTooLargeAt F.errors input result }
{
    match F::from_error_kind(input, ErrorKind::TooLarge) {
        Ok(error) => Err::Failure(error),
        Err(_) => Err::OutOfMemory,
    }
}

/// Converts an answer of a parser of bytes that isn't an acceptance to an answer of a parser of bits.
#[inline(always)]
fn in_bits<I: Drop, F: ParseError<I>, E: ErrorConvert<F> + Drop>(
    input: I,
    answer: Err<E, Option<E>>,
) -> Err<F, Option<F>>
    ensures { InBits E.converts F.errors input answer result }
{
    match answer {
        Err::Incomplete(needed) => match needed_bits(needed) {
            Some(bits) => Err::Incomplete(bits),
            None => too_large::<I, F>(input),
        },
        Err::Error(error) => Err::Error(converted::<F, E>(error)),
        Err::Failure(error) => Err::Failure(error.convert()),
        Err::OutOfMemory => Err::OutOfMemory,
    }
}

/// The parser that `bits` returns: a parser of bits among parsers of bytes. `E` is the type of its errors.
#[derive(Drop)]
pub struct Bits<P, E> {
    pub parser: P,
    pub error: PhantomData<E>,
}

impl<I: Input<Item = u8>, P: Parser<(I, usize)> + Drop, E: ParseError<I>> Parser<I> for Bits<P, E>
where
    P::Error: ErrorConvert<E>,
{
    type Output = P::Output;

    type Error = E;

    ghost State = { P.State };

    ghost state = { λ p. P.state p.parser };

    ghost Tree = { P.Tree };

    ghost grammar = { λ s. bits_of I.model P.Error.converts (P.grammar s) };

    ghost word = { λ s. Words.bits_of I.model P.Error.converts (P.word s) };

    ghost worded = { λ s. Words.bits_worded I.model P.Error.converts (P.worded s) };

    ghost SideCondition = { λ mode old new i. BitsSideCondition I.model (P.SideCondition (with_streaming true mode) old.parser new.parser (i, 0)) };

    #[inline(always)]
    fn process<OM: OutputMode>(&mut self, input: I) -> PResult<I, P::Output, E> {
        input.known();
        match self
            .parser
            .process::<OutputM<OM::Output, OM::Error, Streaming>>((input, 0))
        {
            Ok(accepted) => {
                let (rest, output) = accepted;
                Ok((whole_byte(rest), output))
            }
            Err(answer) => Err(in_bytes::<E, P::Error>(answer)),
        }
    }

    ghost lawful = { λ s k. bits_of_lawful I.lawful P.Error.converts (P.lawful s k) };
}

impl<I: Input<Item = u8>, P: StreamParser<(I, usize)> + Drop, E: ParseError<I>> StreamParser<I>
    for Bits<P, E>
where
    P::Error: ErrorConvert<E>,
{
    ghost Pins = { λ p. P.Pins p.parser };

    ghost pinned = { λ p. P.pinned p.parser };

    ghost steady = { λ s k. bits_of_steady I.lawful P.Error.converts (P.steady s k) };
}

/// The parser that `bytes` returns: a parser of bytes among parsers of bits. `E` is the type of its errors.
#[derive(Drop)]
pub struct Bytes<P, E> {
    pub parser: P,
    pub error: PhantomData<E>,
}

impl<I: Input<Item = u8>, P: Parser<I> + Drop, E: ParseError<(I, usize)>> Parser<(I, usize)>
    for Bytes<P, E>
where
    P::Error: ErrorConvert<E>,
{
    type Output = P::Output;

    type Error = E;

    ghost State = { P.State };

    ghost state = { λ p. P.state p.parser };

    ghost Tree = { P.Tree };

    /// The rest begins at a whole byte.
    ghost SideCondition = { λ mode old new. BytesSideCondition I.model (P.SideCondition (with_streaming true mode) old.parser new.parser) };

    ghost grammar = { λ s. bytes_of I.model E.errors P.Error.converts (P.grammar s) };

    ghost word = { λ s. Words.bytes_of I.model E.errors P.Error.converts (P.word s) };

    ghost worded = { λ s. Words.bytes_worded I.model E.errors P.Error.converts (P.worded s) };

    #[inline(always)]
    fn process<OM: OutputMode>(&mut self, input: (I, usize)) -> PResult<(I, usize), P::Output, E> {
        match self
            .parser
            .process::<OutputM<OM::Output, OM::Error, Streaming>>(whole_byte(input))
        {
            Ok(accepted) => {
                let (rest, output) = accepted;
                Ok(((rest, 0), output))
            }
            Err(answer) => Err(in_bits::<(I, usize), E, P::Error>(input, answer)),
        }
    }

    ghost lawful = { λ s k. bytes_of_lawful I.lawful I.values E.errors P.Error.converts (P.lawful s k) };
}

impl<I: Input<Item = u8>, P: StreamParser<I> + Drop, E: ParseError<(I, usize)>> StreamParser<
    (I, usize),
> for Bytes<P, E>
where
    P::Error: ErrorConvert<E>,
{
    ghost Pins = { λ p. P.Pins p.parser };

    ghost pinned = { λ p. P.pinned p.parser };

    ghost steady = { λ s k. bytes_of_steady I.lawful I.values E.errors P.Error.converts (P.steady s k) };
}
