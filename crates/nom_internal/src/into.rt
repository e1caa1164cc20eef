//! A parser whose outputs and errors are converted.
ghost use Rattle.nom_internal.specs.Closures.{SeesConsistently};
ghost use Rattle.nom_internal.specs.Mapped.{into_by, ConvertsSome, ConvertsResult};
ghost use Rattle.nom_internal.specs.laws.MappedLaws.{given_pinned, renamed_lawful, renamed_steady};
ghost use Rattle.nom_internal.specs.Words as Words;

use crate::parser::{Parser, StreamParser};
use nom_error::answer::{Err, PResult};
use nom_error::mode::OutputMode;
use nom_error::value::ParseError;
use nom_traits::input::Items;
use nom_traits::view::Viewed;
use std::marker::PhantomData;

/// The parser that `into` returns. It converts outputs to `O` and errors to `E`, each by `From`.
///
/// An output is converted only if outputs are built, and the error of a refusal only if errors are built.
#[derive(Drop)]
pub struct Into<F, O, E> {
    pub parser: F,
    pub of: PhantomData<(O, E)>,
}

/// Converts a value if it is built.
#[inline(always)]
fn converted<T: Drop, U: From<T>>(value: Option<T>) -> Option<U>
    ensures { ConvertsSome U.from_gives value result }
{
    match value {
        Some(value) => Some(U::from(value)),
        None => None,
    }
}

/// Converts the output and the error of an answer.
#[inline(always)]
fn converted_answer<I, T: Drop, U: From<T>, E: Drop, F: From<E>>(
    answer: PResult<I, T, E>,
) -> PResult<I, U, F>
    ensures { ConvertsResult U.from_gives F.from_gives answer result }
{
    match answer {
        Ok(accepted) => {
            let (rest, output) = accepted;
            Ok((rest, converted::<T, U>(output)))
        }
        Err(Err::Incomplete(needed)) => Err(Err::Incomplete(needed)),
        Err(Err::Error(error)) => Err(Err::Error(converted::<E, F>(error))),
        Err(Err::Failure(error)) => Err(Err::Failure(F::from(error))),
        Err(Err::OutOfMemory) => Err(Err::OutOfMemory),
    }
}

impl<
    I: Items,
    F: Parser<I> + Drop,
    O: From<F::Output> + Drop,
    E: From<F::Error> + ParseError<I>,
> Parser<I> for Into<F, O, E> {
    type Output = O;

    type Error = E;

    ghost State = { F.State };

    ghost state = { λ p. F.state p.parser };

    ghost Tree = { F.Tree };

    ghost grammar = { λ s. into_by O.from_gives E.from_gives (F.grammar s) };

    ghost word = { λ s. Words.into_of O.from_gives E.from_gives (F.word s) };

    ghost worded = { λ s. Words.into_worded O.from_gives E.from_gives (F.worded s) };

    ghost SideCondition = { λ mode old new. F.SideCondition mode old.parser new.parser };

    #[inline(always)]
    fn process<OM: OutputMode>(&mut self, input: I) -> PResult<I, O, E> {
        converted_answer(self.parser.process::<OM>(input))
    }

    ghost lawful = { λ s k. renamed_lawful (F.lawful s k) };
}

impl<
    I: Items,
    F: StreamParser<I> + Drop,
    O: From<F::Output> + Viewed + Drop,
    E: From<F::Error> + ParseError<I>,
> StreamParser<I> for Into<F, O, E> {
    ghost Pins = { λ p. F.Pins p.parser × SeesConsistently F.Output.view O.view O.from_gives };

    ghost pinned = { λ p k h. given_pinned (F.pinned p.parser k h.0) h.1 };

    ghost steady = { λ s k. renamed_steady (F.steady s k) };
}
