//! Parsers that closures return.
ghost use Rattle.std.specs.Prelude.{true};
ghost use Rattle.nom_error.specs.Modes.{with_outputs};
ghost use Rattle.nom_internal.specs.FlatMap.{maker, OfEachGiven, flat_map_by};
ghost use Rattle.nom_internal.specs.Grammar.{GivesAt};
ghost use Rattle.nom_internal.specs.Results.{MadeSideCondition, ThenSideCondition};
ghost use Rattle.nom_internal.specs.Word.{keyed};
ghost use Rattle.nom_internal.specs.Words as Words;

use crate::parser::{Parser, StreamParser};
use nom_error::answer::PResult;
use nom_error::mode::{Emit, OutputM, OutputMode};
use nom_traits::input::Items;

/// The parser that `flat_map` returns. On the rest it runs the parser that a closure returns for the output.
#[derive(Drop)]
pub struct FlatMap<F, G> {
    pub first: F,
    pub make: G,
}

impl<
    I: Items,
    F: Parser<I> + Drop,
    H: Parser<I, Error = F::Error> + Drop,
    G: Fn(F::Output) -> H + Drop,
> Parser<I> for FlatMap<F, G> {
    ghost use Rattle.nom_internal.specs.laws.FlatMapLaws.{flat_map_lawful};

    type Output = H::Output;

    type Error = F::Error;

    ghost State = { F.State × G };

    ghost state = { λ p. (F.state p.first, p.make) };

    // The state of the parser that is given, and its tree.
    ghost Tree = { H.State × H.Tree };

    ghost grammar = { λ s. flat_map_by I.model (maker (G.pre s.1) (G.post s.1) H.state) (F.grammar s.0) H.grammar };

    ghost word = { λ s. Words.flat_map_of I.model (maker (G.pre s.1) (G.post s.1) H.state) (keyed H.grammar) (F.word s.0) };

    ghost worded = { λ s. Words.flat_map_worded I.model (maker (G.pre s.1) (G.post s.1) H.state) (keyed H.grammar) (F.worded s.0) };

    ghost SideCondition = { λ mode old new i. ThenSideCondition (F.SideCondition (with_outputs true mode) old.first new.first i)
        (MadeSideCondition (GivesAt (F.grammar (F.state old.first)) mode.streaming i) (G.post old.make) (H.SideCondition mode)) };

    #[inline(always)]
    fn process<OM: OutputMode>(&mut self, input: I) -> PResult<I, H::Output, F::Error> {
        let (rest, output) = self
            .first
            .process::<OutputM<Emit, OM::Error, OM::Incomplete>>(input)?;
        let value = match output {
            Some(output) => output,
            None => unreachable!(),
        };
        let mut next = (self.make)(value);
        next.process::<OM>(rest)
    }

    ghost lawful = { λ s k. flat_map_lawful k.1 H.lawful I.lawful (F.lawful s.0 k.0) };
}

impl<
    I: Items,
    F: StreamParser<I> + Drop,
    H: StreamParser<I, Error = F::Error> + Drop,
    G: Fn(F::Output) -> H + Drop,
> StreamParser<I> for FlatMap<F, G> {
    ghost use Rattle.nom_internal.specs.laws.FlatMapLaws.{flat_map_steady, given_pinned};

    ghost Pins = { λ p. OfEachGiven (F.grammar (F.state p.first)).IsOutput (maker (G.pre p.make) (G.post p.make) H.state) H.Pins };

    ghost pinned = { λ p k h. given_pinned k.1 h H.pinned };

    ghost steady = { λ s k. flat_map_steady k.1 H.steady I.lawful (F.steady s.0 k.0) };
}
