//! Choices among parsers of one type, in an array or a slice.
ghost use Rattle.std.specs.Prelude.{ℕ, List, map};
ghost use Rattle.nom_choose.specs.Lists.{Each, list_of};
ghost use Rattle.nom_internal.specs.Word.{keyed};
ghost use Rattle.nom_branch.specs.Words as Words;

use crate::choice::Choice;
use nom_choose::choose::choose;
use nom_error::answer::PResult;
use nom_error::mode::OutputMode;
use nom_internal::parser::{Parser, StreamParser};
use nom_traits::input::Items;

impl<I: Items, A: Parser<I>> Parser<I> for Choice<&mut [A]> {
    ghost use Rattle.nom_branch.specs.laws.ListLaws.{list_lawful};

    type Output = A::Output;

    type Error = A::Error;

    ghost State = { List A.State };

    ghost state = { λ p. map A.state p.parsers.now };

    // The place of the branch that is taken, and its tree.
    ghost Tree = { ℕ × A.Tree };

    ghost grammar = { list_of A.Error.errors A.grammar };

    ghost word = { λ s. Words.list_of A.Error.errors (keyed A.grammar) s };

    ghost worded = { λ s. Words.list_worded A.Error.errors (keyed A.grammar) s };

    #[inline(always)]
    fn process<OM: OutputMode>(&mut self, input: I) -> PResult<I, Self::Output, Self::Error> {
        let branches = &mut *self.parsers;
        choose::<I, A, OM>(branches, input)
    }

    ghost lawful = { list_lawful I.model A.Error.errors (λ s. (A.grammar s).meaning) A.lawful };
}

impl<I: Items, A: StreamParser<I>> StreamParser<I> for Choice<&mut [A]> {
    ghost use Rattle.nom_branch.specs.laws.ListLaws.{list_pinned, list_steady};

    ghost Pins = { λ p. Each A.Pins p.parsers.now };

    ghost pinned = { λ p. list_pinned A.Error.errors (λ s. (A.grammar s).meaning) A.state (λ s. (A.grammar s).IsOutput) A.Pins A.pinned p.parsers.now };

    ghost steady = { list_steady I.model A.Error.errors (λ s. (A.grammar s).meaning) A.steady };
}

impl<I: Items, A: Parser<I>, const N: usize> Parser<I> for Choice<[A; N]> {
    ghost use Rattle.nom_branch.specs.laws.ListLaws.{list_lawful};

    type Output = A::Output;

    type Error = A::Error;

    ghost State = { List A.State };

    ghost state = { λ p. map A.state p.parsers };

    ghost Tree = { ℕ × A.Tree };

    ghost grammar = { list_of A.Error.errors A.grammar };

    ghost word = { λ s. Words.list_of A.Error.errors (keyed A.grammar) s };

    ghost worded = { λ s. Words.list_worded A.Error.errors (keyed A.grammar) s };

    #[inline(always)]
    fn process<OM: OutputMode>(&mut self, input: I) -> PResult<I, Self::Output, Self::Error> {
        choose::<I, A, OM>(&mut self.parsers, input)
    }

    ghost lawful = { list_lawful I.model A.Error.errors (λ s. (A.grammar s).meaning) A.lawful };
}

impl<I: Items, A: StreamParser<I>, const N: usize> StreamParser<I> for Choice<[A; N]> {
    ghost use Rattle.nom_branch.specs.laws.ListLaws.{list_pinned, list_steady};

    ghost Pins = { λ p. Each A.Pins p.parsers };

    ghost pinned = { λ p. list_pinned A.Error.errors (λ s. (A.grammar s).meaning) A.state (λ s. (A.grammar s).IsOutput) A.Pins A.pinned p.parsers };

    ghost steady = { list_steady I.model A.Error.errors (λ s. (A.grammar s).meaning) A.steady };
}
