//! Functions as parsers.
ghost use Rattle.nom_calls.specs.Func.{viewed_pinned, AcceptsCut, IsNoRestAt, IsParser, IsStreamParser, PassesOn, func_of};
ghost use Rattle.nom_calls.specs.laws.FuncLaws.{func_lawful, stream_func_lawful, stream_func_steady};
ghost use Rattle.nom_calls.specs.Words as Words;

use nom_error::answer::{Err, IResult, PResult};
use nom_error::kind::ErrorKind;
use nom_error::mode::{Mode, OutputMode};
use nom_error::value::ParseError;
use nom_internal::built::built;
use nom_internal::parser::{Parser, StreamParser};
use nom_traits::rests::CutRest;
use nom_traits::view::Viewed;
use std::marker::PhantomData;

/// The parser that `func` returns. It may be copied if its function may.
#[derive(Drop)]
#[derive_where(Clone, Copy; F)]
pub struct Func<F, I, O, E> {
    pub f: F,
    pub of: PhantomData<(I, O, E)>,
}

/// Returns the failure of a function whose rest has a length that no rest of the input has.
#[cold]
fn no_rest<I: Drop, E: ParseError<I>>(input: I) -> Err<E, Option<E>>
    ensures { IsNoRestAt E.errors input result }
{
    match E::from_error_kind(input, ErrorKind::Fail) {
        Ok(error) => Err::Failure(error),
        Err(_) => Err::OutOfMemory,
    }
}

/// Returns the answer for an acceptance that left an input. The rest is cut from the input again.
#[inline(always)]
fn accepted<M: Mode, I: CutRest, O: Drop, E: ParseError<I>>(
    input: I,
    left: I,
    value: O,
) -> PResult<I, O, E>
    ensures { AcceptsCut I.model E.errors M.BUILDS input left value result }
{
    match input.cut_rest(left) {
        Some(rest) => Ok((rest, built::<M, O>(value))),
        None => Err(no_rest(input)),
    }
}

/// Returns what a parser answers in the mode `OM` for the answer of its function.
#[inline(always)]
pub(crate) fn passed_on<OM: OutputMode, I: CutRest, O: Drop, E: ParseError<I>>(
    input: I,
    answer: IResult<I, O, E>,
) -> PResult<I, O, E>
    ensures { PassesOn I.model E.errors OM.Output.BUILDS OM.Error.BUILDS input answer result }
{
    match answer {
        Ok((left, value)) => accepted::<OM::Output, I, O, E>(input, left, value),
        Err(Err::Incomplete(needed)) => Err(Err::Incomplete(needed)),
        Err(Err::Error(error)) => Err(Err::Error(built::<OM::Error, E>(error))),
        Err(Err::Failure(error)) => Err(Err::Failure(error)),
        Err(Err::OutOfMemory) => Err(Err::OutOfMemory),
    }
}

impl<I: CutRest, O: Viewed + Drop, E: ParseError<I>, F: Fn(I) -> IResult<I, O, E>> Parser<I>
    for Func<F, I, O, E> {
    type Output = O;

    type Error = E;

    ghost State = { F };

    ghost state = { λ p. p.f };

    ghost Tree = { O.view.Value };

    ghost grammar = { λ f. func_of I.model O.view E.errors (F.post f) (F.pre f) (IsParser I.model O.view (F.post f)) };

    ghost word = { λ f. Words.given_of I.model E.errors O.view (F.pre f) (F.post f) };

    ghost worded = { λ f. Words.given_worded I.model E.errors O.view (F.pre f) (F.post f) };

    #[inline(always)]
    fn process<OM: OutputMode>(&mut self, input: I) -> PResult<I, O, E> {
        input.known();
        let answer = (self.f)(input);
        passed_on::<OM, I, O, E>(input, answer)
    }

    ghost lawful = { λ f. func_lawful I.model O.view (F.post f) E.errors (F.pre f) };
}

/// The stream parser that `stream_func` returns. It may be copied if its function may.
#[derive(Drop)]
#[derive_where(Clone, Copy; F)]
pub struct StreamFunc<F, I, O, E> {
    pub func: Func<F, I, O, E>,
}

impl<I: CutRest, O: Viewed + Drop, E: ParseError<I>, F: Fn(I) -> IResult<I, O, E>> Parser<I>
    for StreamFunc<F, I, O, E> {
    type Output = O;

    type Error = E;

    ghost State = { F };

    ghost state = { λ p. p.func.f };

    ghost Tree = { O.view.Value };

    ghost grammar = { λ f. func_of I.model O.view E.errors (F.post f) (F.pre f) (IsStreamParser I.model O.view (F.post f)) };

    ghost word = { λ f. Words.stream_given_of I.model E.errors O.view (F.pre f) (F.post f) };

    ghost worded = { λ f. Words.stream_given_worded I.model E.errors O.view (F.pre f) (F.post f) };

    #[inline(always)]
    fn process<OM: OutputMode>(&mut self, input: I) -> PResult<I, O, E> {
        self.func.process::<OM>(input)
    }

    ghost lawful = { λ f. stream_func_lawful I.model O.view (F.post f) E.errors (F.pre f) };
}

impl<I: CutRest, O: Viewed + Drop, E: ParseError<I>, F: Fn(I) -> IResult<I, O, E>> StreamParser<I>
    for StreamFunc<F, I, O, E> {
    ghost pinned = { λ p k h. viewed_pinned };

    ghost steady = { λ f. stream_func_steady I.model O.view (F.post f) E.errors (F.pre f) };
}
