//! A parser on the output of another one.
ghost use Rattle.std.specs.Prelude.{true};
ghost use Rattle.nom_error.specs.Modes.{with_outputs};
ghost use Rattle.nom_internal.specs.Bounded.{and_then_of};
ghost use Rattle.nom_internal.specs.Grammar.{GivesAt};
ghost use Rattle.nom_internal.specs.Pinned.{IsPinned};
ghost use Rattle.nom_internal.specs.Results.{BoundSideCondition};
ghost use Rattle.nom_internal.specs.Words as Words;

use crate::parser::{Parser, StreamParser};
use nom_error::answer::PResult;
use nom_error::mode::{Emit, OutputM, OutputMode};
use nom_traits::input::Items;
use nom_traits::view::Viewed;

/// The parser that `and_then` returns. It runs the second parser on the output of the first alone.
///
/// The rest of the second is dropped. The second may be any parser. It sees all of its input, whatever
/// follows.
#[derive(Drop)]
pub struct AndThen<F, G> {
    pub first: F,
    pub second: G,
}

impl<
    I: Items,
    F: Parser<I, Output: Items> + Drop,
    G: Parser<F::Output, Error = F::Error> + Drop,
> Parser<I> for AndThen<F, G> {
    ghost use Rattle.nom_internal.specs.laws.BoundedLaws.{and_then_lawful};

    type Output = G::Output;

    type Error = F::Error;

    ghost State = { F.State × G.State };

    ghost state = { λ p. (F.state p.first, G.state p.second) };

    ghost Tree = { G.Tree };

    ghost grammar = { λ s. and_then_of I.model F.Output.model (F.grammar s.0) (G.grammar s.1) };

    ghost word = { λ s. Words.and_then_of I.model F.Output.model (F.word s.0) (G.word s.1) };

    ghost worded = { λ s. Words.and_then_worded I.model F.Output.model (F.worded s.0) (G.worded s.1) };

    ghost SideCondition = { λ mode old new i. BoundSideCondition (F.SideCondition (with_outputs true mode) old.first new.first i)
        (GivesAt (F.grammar (F.state old.first)) mode.streaming i) (G.SideCondition mode old.second new.second) };

    // The second needn't be a stream parser, which alone has a law of what it pins.

    #[inline(always)]
    fn process<OM: OutputMode>(&mut self, input: I) -> PResult<I, G::Output, F::Error> {
        let (rest, output) = self
            .first
            .process::<OutputM<Emit, OM::Error, OM::Incomplete>>(input)?;
        let bound = match output {
            Some(output) => output,
            None => unreachable!(),
        };
        bound.known();
        let (_, output) = self.second.process::<OM>(bound)?;
        Ok((rest, output))
    }

    ghost lawful = { λ s k. and_then_lawful k.1.1 (G.lawful s.1 k.1.0) I.lawful (F.lawful s.0 k.0) };
}

impl<
    I: Items,
    F: StreamParser<I, Output: Items> + Drop,
    G: Parser<F::Output, Output: Viewed, Error = F::Error> + Drop,
> StreamParser<I> for AndThen<F, G> {
    ghost use Rattle.nom_internal.specs.laws.BoundedLaws.{and_then_steady};

    ghost Pins = { λ p. IsPinned G.Output.view (G.grammar (G.state p.second)).IsOutput };

    ghost pinned = { λ p k h. h };

    ghost steady = { λ s k. and_then_steady k.1.1 (G.lawful s.1 k.1.0) I.lawful (F.steady s.0 k.0) };
}
