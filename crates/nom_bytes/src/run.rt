//! Runs that may be empty.
ghost use Rattle.std.specs.Prelude.{◌≡◌, None};
ghost use Rattle.nom_internal.specs.Prelude.{Slice, slice_pinned, sliced, premised, premised_lawful, premised_steady};
ghost use Rattle.nom_bytes.specs.ParsedRuns.{run_meaning};
ghost use Rattle.nom_bytes.specs.laws.RunLaws.{run_lawful, run_steady};
ghost use Rattle.nom_bytes.specs.Words as Words;

use crate::predicate::{Predicate, Unless, Where};
use nom_error::answer::PResult;
use nom_error::mode::OutputMode;
use nom_error::value::ParseError;
use nom_internal::parser::{Parser, StreamParser};
use nom_traits::input::Input;
use std::marker::PhantomData;

/// The parser that `take_while` and `take_till` return.
#[derive(Drop)]
pub struct SplitPosition<P, I, E> {
    pub predicate: P,
    pub error: PhantomData<(I, E)>,
}

impl<I: Input, P: Predicate<I::Item>, E: ParseError<I>> Parser<I> for SplitPosition<P, I, E> {
    type Output = I;

    type Error = E;

    ghost State = { P.State };

    ghost state = { λ p. P.state p.predicate };

    ghost Tree = { Slice I.model };

    ghost grammar = { λ s. sliced I.model (premised (P.Runs s) (P.IsSound s) (run_meaning I.model (P.answers s))) };

    ghost word = { λ s. Words.run_of I.model (P.word s) };

    ghost worded = { λ s. Words.run_worded I.model (P.worded s) };

    #[inline(always)]
    fn process<OM: OutputMode>(&mut self, input: I) -> PResult<I, I, E> {
        let predicate = &self.predicate;
        input.split_at_position_mode::<OM, _, E>(|item| !predicate.meets(item))
    }

    ghost lawful = { λ s k. premised_lawful (run_lawful I.model I.Item.IsValue I.values (P.answers s) (P.fixed s k) None 0 (λ _ _. ⊥) ⊥) };
}

impl<I: Input, P: Predicate<I::Item>, E: ParseError<I>> StreamParser<I> for SplitPosition<P, I, E> {
    ghost pinned = { λ p k h. slice_pinned I.views };

    ghost steady = { λ s k. premised_steady (run_steady I.model I.Item.IsValue I.values (P.answers s) (P.fixed s k) None 0 {E = E} (λ _ _. ⊥) ⊥) };
}

/// Accepts the longest run of items that meet the test. The run may be empty.
///
/// If all items meet the test, streaming needs 1 more, and complete accepts the whole input.
#[inline(always)]
pub fn take_while<F, I, E>(test: F) -> SplitPosition<Where<F>, I, E>
    ensures { result.predicate.test ≡ test }
{
    SplitPosition {
        predicate: Where { test },
        error: PhantomData,
    }
}

/// Accepts the items before the first one that meets the test. There may be none.
///
/// If no item meets the test, streaming needs 1 more, and complete accepts the whole input.
#[inline(always)]
pub fn take_till<F, I, E>(test: F) -> SplitPosition<Unless<F>, I, E>
    ensures { result.predicate.test ≡ test }
{
    SplitPosition {
        predicate: Unless { test },
        error: PhantomData,
    }
}
