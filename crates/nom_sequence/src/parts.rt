//! The parsers that run two parts in sequence.
ghost use Rattle.std.specs.Prelude.{false};
ghost use Rattle.nom_internal.specs.Prelude.{with_outputs, ThenSideCondition};
ghost use Rattle.nom_sequence.specs.Sequences.{preceded_of, terminated_of};
ghost use Rattle.nom_sequence.specs.laws.SequenceLaws.{preceded_lawful, preceded_steady, terminated_lawful, terminated_steady};
ghost use Rattle.nom_sequence.specs.Words as Words;

use nom_error::answer::PResult;
use nom_error::mode::{Check, OutputM, OutputMode};
use nom_internal::parser::{Parser, StreamParser};
use nom_traits::input::Items;

/// The parser that `preceded` returns.
#[derive(Drop)]
pub struct Preceded<F, G> {
    pub first: F,
    pub second: G,
}

impl<I: Items, F: Parser<I> + Drop, G: Parser<I, Error = F::Error> + Drop> Parser<I>
    for Preceded<F, G> {
    type Output = G::Output;

    type Error = F::Error;

    ghost State = { F.State × G.State };

    ghost state = { λ p. (F.state p.first, G.state p.second) };

    ghost Tree = { G.Tree };

    ghost grammar = { λ s. preceded_of I.model (F.grammar s.0) (G.grammar s.1) };

    ghost word = { λ s. Words.preceded_of I.model (F.word s.0) (G.word s.1) };

    ghost worded = { λ s. Words.preceded_worded I.model (F.worded s.0) (G.worded s.1) };

    ghost SideCondition = { λ mode old new i. ThenSideCondition (F.SideCondition (with_outputs false mode) old.first new.first i) (G.SideCondition mode
        old.second new.second) };

    #[inline(always)]
    fn process<OM: OutputMode>(&mut self, input: I) -> PResult<I, Self::Output, Self::Error> {
        let (rest, _) = self
            .first
            .process::<OutputM<Check, OM::Error, OM::Incomplete>>(input)?;
        self.second.process::<OM>(rest)
    }

    ghost lawful = { λ s k. preceded_lawful I.lawful (F.lawful s.0 k.0) (G.lawful s.1 k.1) };
}

impl<I: Items, F: StreamParser<I> + Drop, G: StreamParser<I, Error = F::Error> + Drop> StreamParser<
    I,
> for Preceded<F, G> {
    ghost Pins = { λ p. G.Pins p.second };

    ghost pinned = { λ p k h. G.pinned p.second k.1 h };

    ghost steady = { λ s k. preceded_steady I.lawful (F.steady s.0 k.0) (G.steady s.1 k.1) };
}

/// The parser that `terminated` returns.
#[derive(Drop)]
pub struct Terminated<F, G> {
    pub first: F,
    pub second: G,
}

impl<I: Items, F: Parser<I> + Drop, G: Parser<I, Error = F::Error> + Drop> Parser<I>
    for Terminated<F, G> {
    type Output = F::Output;

    type Error = F::Error;

    ghost State = { F.State × G.State };

    ghost state = { λ p. (F.state p.first, G.state p.second) };

    ghost Tree = { F.Tree };

    ghost grammar = { λ s. terminated_of I.model (F.grammar s.0) (G.grammar s.1) };

    ghost word = { λ s. Words.terminated_of I.model (F.word s.0) (G.word s.1) };

    ghost worded = { λ s. Words.terminated_worded I.model (F.worded s.0) (G.worded s.1) };

    ghost SideCondition = { λ mode old new i. ThenSideCondition (F.SideCondition mode old.first new.first i) (G.SideCondition (with_outputs false mode)
        old.second new.second) };

    #[inline(always)]
    fn process<OM: OutputMode>(&mut self, input: I) -> PResult<I, Self::Output, Self::Error> {
        let (rest, first) = self.first.process::<OM>(input)?;
        let (rest, _) = self
            .second
            .process::<OutputM<Check, OM::Error, OM::Incomplete>>(rest)?;
        Ok((rest, first))
    }

    ghost lawful = { λ s k. terminated_lawful I.lawful (F.lawful s.0 k.0) (G.lawful s.1 k.1) };
}

impl<I: Items, F: StreamParser<I> + Drop, G: StreamParser<I, Error = F::Error> + Drop> StreamParser<
    I,
> for Terminated<F, G> {
    ghost Pins = { λ p. F.Pins p.first };

    ghost pinned = { λ p k h. F.pinned p.first k.0 h };

    ghost steady = { λ s k. terminated_steady I.lawful (F.steady s.0 k.0) (G.steady s.1 k.1) };
}
