//! One of two parsers.
ghost use Rattle.std.specs.Prelude.{◌⊎◌};
ghost use Rattle.nom_internal.specs.Choice.{either_of};
ghost use Rattle.nom_internal.specs.Results.{OrSideCondition};
ghost use Rattle.nom_internal.specs.Words as Words;

use crate::choice::next_branch;
use crate::parser::{Parser, StreamParser};
use nom_error::answer::PResult;
use nom_error::mode::OutputMode;
use nom_traits::input::Items;

/// The parser that `or` returns. It runs the second parser if the first refuses.
///
/// If both refuse, their errors are joined by `or`.
#[derive(Drop)]
pub struct Or<F, G> {
    pub first: F,
    pub second: G,
}

impl<
    I: Items,
    F: Parser<I> + Drop,
    G: Parser<I, Output = F::Output, Error = F::Error> + Drop,
> Parser<I> for Or<F, G> {
    ghost use Rattle.nom_internal.specs.laws.ChoiceLaws.{either_lawful};

    type Output = F::Output;

    type Error = F::Error;

    ghost State = { F.State × G.State };

    ghost state = { λ p. (F.state p.first, G.state p.second) };

    // The parser that decides, and its tree.
    ghost Tree = { F.Tree ⊎ G.Tree };

    ghost grammar = { λ s. either_of F.Error.errors.joined F.Error.errors.grows (F.grammar s.0) (G.grammar s.1) };

    ghost word = { λ s. Words.either_of F.Error.errors.joined F.Error.errors.grows (F.word s.0) (G.word s.1) };

    ghost worded = { λ s. Words.either_worded F.Error.errors.joined F.Error.errors.grows (F.worded s.0) (G.worded s.1) };

    ghost SideCondition = { λ mode old new i. OrSideCondition (F.SideCondition mode old.first new.first i) (G.SideCondition mode old.second new.second i) };

    #[inline(always)]
    fn process<OM: OutputMode>(&mut self, input: I) -> PResult<I, Self::Output, Self::Error> {
        let answer = self.first.process::<OM>(input);
        next_branch::<I, G, OM>(answer, &mut self.second, input)
    }

    ghost lawful = { λ s k. either_lawful (F.lawful s.0 k.0) (G.lawful s.1 k.1) };
}

impl<
    I: Items,
    F: StreamParser<I> + Drop,
    G: StreamParser<I, Output = F::Output, Error = F::Error> + Drop,
> StreamParser<I> for Or<F, G> {
    ghost use Rattle.nom_internal.specs.laws.ChoiceLaws.{either_steady};
    ghost use Rattle.nom_internal.specs.Pinned.{either_pinned};

    ghost Pins = { λ p. F.Pins p.first × G.Pins p.second };

    ghost pinned = { λ p k h. either_pinned (F.pinned p.first k.0 h.0) (G.pinned p.second k.1 h.1) };

    ghost steady = { λ s k. either_steady (F.steady s.0 k.0) (G.steady s.1 k.1) };
}
