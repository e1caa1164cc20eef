//! Functions that allocate as parsers.
ghost use Rattle.nom_calls.specs.Func.{viewed_pinned, IsParser, IsStreamParser, func_of};
ghost use Rattle.nom_calls.specs.laws.FuncLaws.{func_lawful, stream_func_lawful, stream_func_steady};
ghost use Rattle.nom_calls.specs.Words as Words;

use crate::func::passed_on;
use nom_error::answer::{IResult, PResult};
use nom_error::mode::OutputMode;
use nom_error::value::ParseError;
use nom_internal::parser::{Parser, StreamParser};
use nom_traits::rests::CutRest;
use nom_traits::view::Viewed;
use std::marker::PhantomData;

/// The parser that `func_in` returns. It may be copied if its function may.
#[derive(Drop)]
#[derive_where(Clone, Copy; A, F)]
pub struct FuncIn<A, F, I, O, E> {
    pub alloc: A,
    pub f: F,
    pub of: PhantomData<(I, O, E)>,
}

impl<
    A: Copy,
    I: CutRest,
    O: Viewed + Drop,
    E: ParseError<I>,
    F: Fn(A, I) -> IResult<I, O, E>,
> Parser<I> for FuncIn<A, F, I, O, E> {
    type Output = O;

    type Error = E;

    ghost State = { A × F };

    ghost state = { λ p. (p.alloc, p.f) };

    ghost Tree = { O.view.Value };

    ghost grammar = { λ s. func_of I.model O.view E.errors (F.post s.1 s.0) (F.pre s.1 s.0) (IsParser I.model O.view (F.post s.1 s.0)) };

    ghost word = { λ s. Words.given_of I.model E.errors O.view (F.pre s.1 s.0) (F.post s.1 s.0) };

    ghost worded = { λ s. Words.given_worded I.model E.errors O.view (F.pre s.1 s.0) (F.post s.1 s.0) };

    #[inline(always)]
    fn process<OM: OutputMode>(&mut self, input: I) -> PResult<I, O, E> {
        input.known();
        let answer = (self.f)(self.alloc, input);
        passed_on::<OM, I, O, E>(input, answer)
    }

    ghost lawful = { λ s. func_lawful I.model O.view (F.post s.1 s.0) E.errors (F.pre s.1 s.0) };
}

/// The stream parser that `stream_func_in` returns. It may be copied if its function may.
#[derive(Drop)]
#[derive_where(Clone, Copy; A, F)]
pub struct StreamFuncIn<A, F, I, O, E> {
    pub func: FuncIn<A, F, I, O, E>,
}

impl<
    A: Copy,
    I: CutRest,
    O: Viewed + Drop,
    E: ParseError<I>,
    F: Fn(A, I) -> IResult<I, O, E>,
> Parser<I> for StreamFuncIn<A, F, I, O, E> {
    type Output = O;

    type Error = E;

    ghost State = { A × F };

    ghost state = { λ p. (p.func.alloc, p.func.f) };

    ghost Tree = { O.view.Value };

    ghost grammar = { λ s. func_of I.model O.view E.errors (F.post s.1 s.0) (F.pre s.1 s.0) (IsStreamParser I.model O.view (F.post s.1 s.0)) };

    ghost word = { λ s. Words.stream_given_of I.model E.errors O.view (F.pre s.1 s.0) (F.post s.1 s.0) };

    ghost worded = { λ s. Words.stream_given_worded I.model E.errors O.view (F.pre s.1 s.0) (F.post s.1 s.0) };

    #[inline(always)]
    fn process<OM: OutputMode>(&mut self, input: I) -> PResult<I, O, E> {
        self.func.process::<OM>(input)
    }

    ghost lawful = { λ s. stream_func_lawful I.model O.view (F.post s.1 s.0) E.errors (F.pre s.1 s.0) };
}

impl<
    A: Copy,
    I: CutRest,
    O: Viewed + Drop,
    E: ParseError<I>,
    F: Fn(A, I) -> IResult<I, O, E>,
> StreamParser<I> for StreamFuncIn<A, F, I, O, E> {
    ghost pinned = { λ p k h. viewed_pinned };

    ghost steady = { λ s. stream_func_steady I.model O.view (F.post s.1 s.0) E.errors (F.pre s.1 s.0) };
}
