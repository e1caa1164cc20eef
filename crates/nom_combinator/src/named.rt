//! A part whose errors receive a name.
ghost use Rattle.std.specs.Prelude.{ℕ, List};
ghost use Rattle.nom_internal.specs.laws.MappedLaws.{renamed_lawful, renamed_steady};
ghost use Rattle.nom_combinator.specs.Contexts.{IsRenamed, context_of};
ghost use Rattle.nom_combinator.specs.Words as Words;

use nom_error::answer::{Err, PResult};
use nom_error::mode::OutputMode;
use nom_error::outside::ContextError;
use nom_internal::parser::{Parser, StreamParser};
use nom_traits::input::Items;

/// Adds a name to the error of an answer, if it holds one.
#[inline(always)]
fn named<I: Drop, E: ContextError<I> + Drop>(
    input: I,
    context: &'static str,
    answer: Err<E, Option<E>>,
) -> Err<E, Option<E>>
    ensures { IsRenamed (E.contexts.named input context.now) E.contexts.grows answer result }
{
    match answer {
        Err::Incomplete(needed) => Err::Incomplete(needed),
        Err::Error(Some(error)) => match E::add_context(input, context, error) {
            Ok(error) => Err::Error(Some(error)),
            Err(_) => Err::OutOfMemory,
        },
        Err::Error(None) => Err::Error(None),
        Err::Failure(error) => match E::add_context(input, context, error) {
            Ok(error) => Err::Failure(error),
            Err(_) => Err::OutOfMemory,
        },
        Err::OutOfMemory => Err::OutOfMemory,
    }
}

/// The parser that `context` returns. It adds a name to the errors of its part.
#[derive(Drop)]
pub struct Context<F, C = &'static str> {
    pub context: C,
    pub parser: F,
}

impl<I: Items, F: Parser<I> + Drop> Parser<I> for Context<F>
where
    F::Error: ContextError<I>,
{
    type Output = F::Output;

    type Error = F::Error;

    ghost State = { List ℕ × F.State };

    ghost state = { λ p. (p.context.now, F.state p.parser) };

    ghost Tree = { F.Tree };

    ghost grammar = { λ s. context_of F.Error.contexts s.0 (F.grammar s.1) };

    ghost word = { λ s. Words.context_of F.Error.contexts s.0 (F.word s.1) };

    ghost worded = { λ s. Words.context_worded F.Error.contexts s.0 (F.worded s.1) };

    ghost SideCondition = { λ mode old new. F.SideCondition mode old.parser new.parser };

    #[inline(always)]
    fn process<OM: OutputMode>(&mut self, input: I) -> PResult<I, Self::Output, Self::Error> {
        match self.parser.process::<OM>(input) {
            Ok(accepted) => Ok(accepted),
            Err(answer) => Err(named::<I, F::Error>(input, self.context, answer)),
        }
    }

    ghost lawful = { λ s k. renamed_lawful (F.lawful s.1 k) };
}

impl<I: Items, F: StreamParser<I> + Drop> StreamParser<I> for Context<F>
where
    F::Error: ContextError<I>,
{
    ghost Pins = { λ p. F.Pins p.parser };

    ghost pinned = { λ p k h. F.pinned p.parser k h };

    ghost steady = { λ s k. renamed_steady (F.steady s.1 k) };
}
