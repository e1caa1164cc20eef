//! A parser that replaces the errors of its part by errors of one kind.
ghost use Rattle.nom_error.specs.declared.kind.ErrorKind.TheVariants as Kind;
ghost use Rattle.nom_combinator.specs.Contexts.{IsRenamed};
ghost use Rattle.nom_number_text.specs.Exceptions.{as_float_of};
ghost use Rattle.nom_internal.specs.laws.MappedLaws.{renamed_lawful, renamed_steady};
ghost use Rattle.nom_number_text.specs.Words as Words;

use nom_error::answer::{Err, PResult};
use nom_error::kind::ErrorKind;
use nom_error::mode::OutputMode;
use nom_error::value::ParseError;
use nom_internal::parser::{Parser, StreamParser};
use nom_traits::input::Items;

/// Replaces the error of an answer, if it has one, by an error of kind `Float`.
#[inline(always)]
fn of_float<I: Drop, E: ParseError<I>>(input: I, answer: Err<E, Option<E>>) -> Err<E, Option<E>>
    ensures { IsRenamed (λ _. E.errors.of_kind input Kind.Float) E.errors.grows answer result }
{
    match answer {
        Err::Incomplete(needed) => Err::Incomplete(needed),
        Err::Error(Some(_)) => match E::from_error_kind(input, ErrorKind::Float) {
            Ok(error) => Err::Error(Some(error)),
            Err(_) => Err::OutOfMemory,
        },
        Err::Error(None) => Err::Error(None),
        Err::Failure(_) => match E::from_error_kind(input, ErrorKind::Float) {
            Ok(error) => Err::Failure(error),
            Err(_) => Err::OutOfMemory,
        },
        Err::OutOfMemory => Err::OutOfMemory,
    }
}

/// A parser that replaces the errors of its part by errors of kind `Float` at the start.
#[derive(Drop)]
pub struct AsFloat<F> {
    pub parser: F,
}

impl<I: Items, F: Parser<I> + Drop> Parser<I> for AsFloat<F> {
    type Output = F::Output;

    type Error = F::Error;

    ghost State = { F.State };

    ghost state = { λ p. F.state p.parser };

    ghost Tree = { F.Tree };

    ghost grammar = { λ s. as_float_of F.Error.errors (F.grammar s) };

    ghost word = { λ s. Words.as_float_of F.Error.errors (F.word s) };

    ghost worded = { λ s. Words.as_float_worded F.Error.errors (F.worded s) };

    #[inline(always)]
    fn process<OM: OutputMode>(&mut self, input: I) -> PResult<I, Self::Output, Self::Error> {
        match self.parser.process::<OM>(input) {
            Ok(accepted) => Ok(accepted),
            Err(answer) => Err(of_float::<I, F::Error>(input, answer)),
        }
    }

    ghost lawful = { λ s k. renamed_lawful (F.lawful s k) };
}

impl<I: Items, F: StreamParser<I> + Drop> StreamParser<I> for AsFloat<F> {
    ghost Pins = { λ p. F.Pins p.parser };

    ghost pinned = { λ p. F.pinned p.parser };

    ghost steady = { λ s k. renamed_steady (F.steady s k) };
}
