//! Parsers in one mode.
ghost use Rattle.nom_error.specs.Modes.{with_streaming};
ghost use Rattle.nom_internal.specs.Cases.{fixed_of};
ghost use Rattle.nom_internal.specs.laws.CaseLaws.{fixed_lawful, fixed_steady};
ghost use Rattle.nom_internal.specs.Words as Words;

use crate::parser::{Parser, StreamParser};
use nom_error::answer::PResult;
use nom_error::mode::{IsStreaming, OutputM, OutputMode, Streaming};
use nom_traits::input::Items;
use std::marker::PhantomData;

/// A parser that always runs in the mode `S`, whatever mode is requested.
#[derive(Drop)]
pub struct Fixed<P, S> {
    pub parser: P,
    pub mode: PhantomData<S>,
}

impl<I: Items, P: Parser<I> + Drop, S: IsStreaming> Parser<I> for Fixed<P, S> {
    type Output = P::Output;

    type Error = P::Error;

    ghost State = { P.State };

    ghost state = { λ p. P.state p.parser };

    ghost Tree = { P.Tree };

    ghost grammar = { λ s. fixed_of S.STREAMING (P.grammar s) };

    ghost word = { λ s. Words.fixed_of S.STREAMING (P.word s) };

    ghost worded = { λ s. Words.fixed_worded S.STREAMING (P.worded s) };

    ghost SideCondition = { λ mode old new. P.SideCondition (with_streaming S.STREAMING mode) old.parser new.parser };

    #[inline(always)]
    fn process<OM: OutputMode>(&mut self, input: I) -> PResult<I, P::Output, P::Error> {
        self.parser
            .process::<OutputM<OM::Output, OM::Error, S>>(input)
    }

    #[inline(always)]
    fn width(&self) -> usize {
        self.parser.width()
    }

    ghost lawful = { λ s k. fixed_lawful (P.lawful s k) };
}

impl<I: Items, P: StreamParser<I> + Drop> StreamParser<I> for Fixed<P, Streaming> {
    ghost Pins = { λ p. P.Pins p.parser };

    ghost pinned = { λ p. P.pinned p.parser };

    ghost steady = { λ s k. fixed_steady (P.steady s k) };
}
