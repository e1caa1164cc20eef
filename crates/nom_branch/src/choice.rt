//! Choices among parsers, and the choice of one.

use nom_error::answer::PResult;
use nom_error::mode::OutputMode;
use nom_internal::parser::{Parser, StreamParser};
use nom_traits::input::Items;

/// The parser that `alt` returns: a choice among several parsers.
///
/// The list is a tuple of one to eight parsers, or an array or a slice of parsers of one type.
#[derive(Drop)]
pub struct Choice<List> {
    pub parsers: List,
}

/// A choice of one parser is that parser: its errors aren't closed.
impl<I: Items, A: Parser<I>> Parser<I> for Choice<(A,)> {
    type Output = A::Output;

    type Error = A::Error;

    ghost State = { A.State };

    ghost state = { λ p. A.state p.parsers.0 };

    ghost Tree = { A.Tree };

    ghost grammar = { A.grammar };

    ghost word = { A.word };

    ghost worded = { A.worded };

    ghost SideCondition = { λ mode old new. A.SideCondition mode old.parsers.0 new.parsers.0 };

    #[inline(always)]
    fn process<OM: OutputMode>(&mut self, input: I) -> PResult<I, Self::Output, Self::Error> {
        self.parsers.0.process::<OM>(input)
    }

    ghost lawful = { A.lawful };
}

impl<I: Items, A: StreamParser<I>> StreamParser<I> for Choice<(A,)> {
    ghost Pins = { λ p. A.Pins p.parsers.0 };

    ghost pinned = { λ p. A.pinned p.parsers.0 };

    ghost steady = { A.steady };
}
