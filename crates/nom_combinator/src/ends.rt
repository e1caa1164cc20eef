//! Parsers that consume nothing, or everything that is left.
ghost use Rattle.std.specs.Prelude.{◌≡◌, false};
ghost use Rattle.nom_internal.specs.Prelude.{IsModelledBy, itself};
ghost use Rattle.nom_calls.specs.Func.{AnswersBy};
ghost use Rattle.nom_combinator.specs.Ends.{eof_meaning, rest_meaning, rest_len_meaning};

use crate::consuming::AllConsuming;
use crate::fixed::{Fail, Success};
use crate::left::{Eof, Rest, RestLen};
use nom_error::answer::IResult;
use nom_error::value::ParseError;
use nom_internal::parser::Parser;
use nom_traits::input::Input;
use std::marker::PhantomData;

/// Accepts at once, consumes nothing, and returns a clone of the value.
#[inline(always)]
pub fn success<I, O, E>(value: O) -> Success<O, I, E>
    ensures { result.value ≡ value }
{
    Success {
        value,
        of: PhantomData,
    }
}

/// Refuses every input, with the kind `Fail`.
#[inline(always)]
pub fn fail<I, O, E>() -> Fail<O, I, E> {
    Fail { of: PhantomData }
}

/// Runs `parser`, and requires that nothing is left after it.
///
/// A nonempty rest is refused with `Eof`, at its start. `all_consuming(tag("ab"))` on `"abc"` refuses with
/// `Eof` at `"c"`.
#[inline(always)]
pub fn all_consuming<F>(parser: F) -> AllConsuming<F>
    ensures { result.parser ≡ parser }
{
    AllConsuming { parser }
}

/// Matches the end of the input.
///
/// It returns an empty input, and refuses any other with `Eof`, in both modes.
#[inline(always)]
pub fn eof<I: Input, E: ParseError<I>>(input: I) -> IResult<I, I, E>
    ensures { AnswersBy I.model I.view (IsModelledBy I.model) (eof_meaning I.model E.errors) false input result }
{
    let mut parser = Eof::<I, E>::new();
    parser.parse_complete(input)
}

/// Returns all the remaining input, in both modes. Nothing is left after it.
#[inline(always)]
pub fn rest<I: Input, E: ParseError<I>>(input: I) -> IResult<I, I, E>
    ensures { AnswersBy I.model I.view (IsModelledBy I.model) (rest_meaning I.model) false input result }
{
    let mut parser = Rest::<I, E>::new();
    parser.parse_complete(input)
}

/// Returns the length of the remaining input, in both modes. Nothing is consumed.
#[inline(always)]
pub fn rest_len<I: Input, E: ParseError<I>>(input: I) -> IResult<I, usize, E>
    ensures { AnswersBy I.model itself (λ t n. n ≡ t) (rest_len_meaning I.model) false input result }
{
    let mut parser = RestLen::<I, E>::new();
    parser.parse_complete(input)
}
