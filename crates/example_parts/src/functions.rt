//! Functions of a user's own as parsers, and as stream parsers of inputs that grow.
ghost use Rattle.std.specs.Prelude.{◌≡◌, Ok, length};
ghost use Rattle.std.specs.Prelude as Std;
ghost use Rattle.nom_error.specs.declared.answer.Err.TheVariants as Answer;
ghost use Rattle.nom_internal.specs.Prelude.{bytes_model, itself};
ghost use Rattle.nom_calls.specs.Func.{TellsItems};
ghost use Rattle.nom_calls.specs.Growing.{AreCuts};
ghost use Rattle.example_parts.specs.Firsts.{first_outcome, small_outcome};

use nom::combinator::verify;
use nom::error::{Error, ErrorKind, ParseError};
use nom::number::be_u8;
use nom::promises::has_one_outcome;
use nom::{
    CutRest, Err, Func, Grown, IResult, Input, Items, Needed, Parser, StreamFunc, Viewed, func,
    parse_growing, stream_func,
};
use std::cell::Cell;

type Fail<'a> = Error<&'a [u8]>;

/// The first byte; more is needed where there is none.
pub fn first(input: &[u8]) -> IResult<&[u8], u8>
    ensures { TellsItems bytes_model itself first_outcome input.entry result }
{
    input.known();
    match input.split_first() {
        Some((byte, after)) => Ok((after, *byte)),
        None => Err(Err::Incomplete(Needed::Unknown)),
    }
}

/// The first byte, below 128; one from 128 on is a failure, and no byte is refused.
pub fn small(input: &[u8]) -> IResult<&[u8], u8>
    ensures { TellsItems bytes_model itself small_outcome input.entry result }
{
    input.known();
    match input.split_first() {
        Some((byte, after)) => {
            if *byte < 128 {
                Ok((after, *byte))
            } else {
                Err(Err::Failure(Error {
                    input,
                    code: ErrorKind::Verify,
                }))
            }
        }
        None => Err(Err::Error(Error {
            input,
            code: ErrorKind::Eof,
        })),
    }
}

/// Memory that runs out at every input.
pub fn starved(_input: &[u8]) -> IResult<&[u8], u8>
    ensures { result ≡ Std.Err Answer.OutOfMemory }
{
    Err(Err::OutOfMemory)
}

/// Nothing, with a 0.
pub fn nothing(input: &[u8]) -> IResult<&[u8], usize>
    ensures { result ≡ Ok (input.entry, 0) }
{
    Ok((input, 0))
}

/// Nothing, with the length of what is left: on a longer input that is more.
pub fn length_left(input: &[u8]) -> IResult<&[u8], usize>
    ensures { result ≡ Ok (input.entry, length input.entry.now) }
{
    Ok((input, input.len()))
}

/// What a function parses of an input that grows. The functions below are handed to this one, so that each of
/// their proofs is of the function alone.
pub fn grown<
    I: Input + CutRest,
    O: Viewed + Drop,
    E: ParseError<I>,
    F: Fn(I) -> IResult<I, O, E> + Drop,
>(f: F, input: I, cuts: &[usize]) -> Grown<I, O, E>
    requires runs { (⟦<StreamFunc<F, I, O, E> as Parser<I>>⟧.grammar f).meaning.Runs }
    requires sound { (⟦<StreamFunc<F, I, O, E> as Parser<I>>⟧.grammar f).meaning.IsSound }
    requires cuts { AreCuts I.model input cuts.now }
{
    parse_growing(stream_func(f), input, cuts)
}

/// Nothing of an input that grows.
pub fn grown_nothing<'a>(input: &'a [u8], cuts: &[usize]) -> Grown<&'a [u8], usize, Fail<'a>>
    requires { AreCuts bytes_model input cuts.now }
{
    grown(nothing, input, cuts)
}

/// What a function parses of an input that is complete.
fn complete<
    I: Input + CutRest,
    O: Viewed + Drop,
    E: ParseError<I>,
    F: Fn(I) -> IResult<I, O, E> + Drop,
>(f: F, input: I) -> IResult<I, O, E>
    requires runs { (⟦<Func<F, I, O, E> as Parser<I>>⟧.grammar f).meaning.Runs }
    requires sound { (⟦<Func<F, I, O, E> as Parser<I>>⟧.grammar f).meaning.IsSound }
{
    let mut parser = func(f);
    parser.parse_complete(input)
}

/// The length of what is left of an input that is complete.
pub fn measured(input: &[u8]) -> IResult<&[u8], usize> {
    complete(length_left, input)
}

/// The first byte of an input that grows.
pub fn grown_byte<'a>(input: &'a [u8], cuts: &[usize]) -> Grown<&'a [u8], u8, Fail<'a>>
    requires { AreCuts bytes_model input cuts.now }
{
    grown(first, input, cuts)
}

/// The first byte, where it is even; an odd one is refused, with `Verify`. Each input has one outcome.
pub fn even(input: &[u8]) -> IResult<&[u8], u8> {
    let mut even = verify(be_u8::<_, Fail>(), |byte: &u8| *byte % 2 == 0);
    has_one_outcome(&even);
    even.parse(input)
}

/// The first byte, by a closure that counts how often it is asked, and accepts the first time alone.
///
/// Proved is that the call is safe: the closure takes each byte, and that is all that a call asks. Nothing is said of the answer.
/// The closure answers one byte in two ways, so no law holds of this parser: `has_one_outcome(&once)` would be refused, and so
/// would `parse_growing`, which both ask for one outcome. The edit `counts_its_calls` shows that of `even`.
pub fn at_first(input: &[u8]) -> IResult<&[u8], u8> {
    let calls = Cell::new(0u8);
    let mut once = verify(be_u8::<_, Fail>(), |_: &u8| {
        calls.set(calls.get().saturating_add(1));
        calls.get() < 2
    });
    once.parse(input)
}
