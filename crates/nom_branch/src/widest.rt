//! The choice among eight parsers, of any types.
ghost use Rattle.std.specs.Prelude.{◌⊎◌};
ghost use Rattle.nom_branch.specs.Alternatives.{alt_of, or_of};
ghost use Rattle.nom_internal.specs.Prelude.{OrSideCondition};
ghost use Rattle.nom_branch.specs.Words as Words;

use crate::choice::Choice;
use nom_error::answer::PResult;
use nom_error::kind::ErrorKind;
use nom_error::mode::OutputMode;
use nom_internal::choice::{close, next_branch};
use nom_internal::parser::{Parser, StreamParser};
use nom_traits::input::Items;

impl<
    I: Items,
    A: Parser<I>,
    B: Parser<I, Error = A::Error, Output = A::Output>,
    C: Parser<I, Error = A::Error, Output = A::Output>,
    D: Parser<I, Error = A::Error, Output = A::Output>,
    E: Parser<I, Error = A::Error, Output = A::Output>,
    F: Parser<I, Error = A::Error, Output = A::Output>,
    G: Parser<I, Error = A::Error, Output = A::Output>,
    H: Parser<I, Error = A::Error, Output = A::Output>,
> Parser<I> for Choice<(A, B, C, D, E, F, G, H)> {
    ghost use Rattle.nom_branch.specs.laws.AlternativeLaws.{next_lawful, choice_lawful};

    type Output = A::Output;

    type Error = A::Error;

    ghost State = { A.State × B.State × C.State × D.State × E.State × F.State × G.State × H.State };

    ghost state = { λ p. (
      A.state p.parsers.0,
      B.state p.parsers.1,
      C.state p.parsers.2,
      D.state p.parsers.3,
      E.state p.parsers.4,
      F.state p.parsers.5,
      G.state p.parsers.6,
      H.state p.parsers.7,
    ) };

    // The branch that is taken, and its tree.
    ghost Tree = { ((((((A.Tree ⊎ B.Tree) ⊎ C.Tree) ⊎ D.Tree) ⊎ E.Tree) ⊎ F.Tree) ⊎ G.Tree) ⊎ H.Tree };

    ghost grammar = { λ s. alt_of A.Error.errors (or_of A.Error.errors (or_of A.Error.errors (or_of A.Error.errors (or_of A.Error.errors
        (or_of A.Error.errors (or_of A.Error.errors (or_of A.Error.errors (A.grammar s.0) (B.grammar s.1)) (C.grammar s.2)) (D.grammar s.3))
        (E.grammar s.4)) (F.grammar s.5)) (G.grammar s.6)) (H.grammar s.7)) };

    ghost word = { λ s. Words.alt_of A.Error.errors (Words.or_of A.Error.errors (Words.or_of A.Error.errors (Words.or_of A.Error.errors
        (Words.or_of A.Error.errors (Words.or_of A.Error.errors (Words.or_of A.Error.errors (Words.or_of A.Error.errors (A.word s.0) (B.word s.1))
        (C.word s.2)) (D.word s.3)) (E.word s.4)) (F.word s.5)) (G.word s.6)) (H.word s.7)) };

    ghost worded = { λ s. Words.alt_worded A.Error.errors (Words.or_worded A.Error.errors (Words.or_worded A.Error.errors
        (Words.or_worded A.Error.errors (Words.or_worded A.Error.errors (Words.or_worded A.Error.errors (Words.or_worded A.Error.errors
        (Words.or_worded A.Error.errors (A.worded s.0) (B.worded s.1)) (C.worded s.2)) (D.worded s.3)) (E.worded s.4)) (F.worded s.5)) (G.worded s.6))
        (H.worded s.7)) };

    ghost SideCondition = { λ mode old new i. OrSideCondition (OrSideCondition (OrSideCondition (OrSideCondition (OrSideCondition (OrSideCondition
        (OrSideCondition
        (A.SideCondition mode old.parsers.0 new.parsers.0 i) (B.SideCondition mode old.parsers.1 new.parsers.1 i))
        (C.SideCondition mode old.parsers.2 new.parsers.2 i)) (D.SideCondition mode old.parsers.3 new.parsers.3 i))
        (E.SideCondition mode old.parsers.4 new.parsers.4 i)) (F.SideCondition mode old.parsers.5 new.parsers.5 i))
        (G.SideCondition mode old.parsers.6 new.parsers.6 i)) (H.SideCondition mode old.parsers.7 new.parsers.7 i) };

    #[inline(always)]
    fn process<OM: OutputMode>(&mut self, input: I) -> PResult<I, Self::Output, Self::Error> {
        let answer = self.parsers.0.process::<OM>(input);
        let answer = next_branch::<I, B, OM>(answer, &mut self.parsers.1, input);
        let answer = next_branch::<I, C, OM>(answer, &mut self.parsers.2, input);
        let answer = next_branch::<I, D, OM>(answer, &mut self.parsers.3, input);
        let answer = next_branch::<I, E, OM>(answer, &mut self.parsers.4, input);
        let answer = next_branch::<I, F, OM>(answer, &mut self.parsers.5, input);
        let answer = next_branch::<I, G, OM>(answer, &mut self.parsers.6, input);
        let answer = next_branch::<I, H, OM>(answer, &mut self.parsers.7, input);
        close(answer, input, ErrorKind::Alt)
    }

    ghost lawful = { λ s k. choice_lawful A.Error.errors (next_lawful A.Error.errors (next_lawful A.Error.errors (next_lawful A.Error.errors
        (next_lawful A.Error.errors (next_lawful A.Error.errors (next_lawful A.Error.errors (next_lawful A.Error.errors
        (A.lawful s.0 k.0.0.0.0.0.0.0) (B.lawful s.1 k.0.0.0.0.0.0.1)) (C.lawful s.2 k.0.0.0.0.0.1)) (D.lawful s.3 k.0.0.0.0.1))
        (E.lawful s.4 k.0.0.0.1)) (F.lawful s.5 k.0.0.1)) (G.lawful s.6 k.0.1)) (H.lawful s.7 k.1)) };
}

impl<
    I: Items,
    A: StreamParser<I>,
    B: StreamParser<I, Error = A::Error, Output = A::Output>,
    C: StreamParser<I, Error = A::Error, Output = A::Output>,
    D: StreamParser<I, Error = A::Error, Output = A::Output>,
    E: StreamParser<I, Error = A::Error, Output = A::Output>,
    F: StreamParser<I, Error = A::Error, Output = A::Output>,
    G: StreamParser<I, Error = A::Error, Output = A::Output>,
    H: StreamParser<I, Error = A::Error, Output = A::Output>,
> StreamParser<I> for Choice<(A, B, C, D, E, F, G, H)> {
    ghost use Rattle.nom_branch.specs.laws.AlternativeLaws.{next_steady, choice_steady};
    ghost use Rattle.nom_internal.specs.Pinned.{either_pinned};

    ghost Pins = { λ p. A.Pins p.parsers.0 × B.Pins p.parsers.1 × C.Pins p.parsers.2 × D.Pins p.parsers.3 × E.Pins p.parsers.4 × F.Pins p.parsers.5
        × G.Pins p.parsers.6 × H.Pins p.parsers.7 };

    ghost pinned = { λ p k h. either_pinned (either_pinned (either_pinned (either_pinned (either_pinned (either_pinned (either_pinned
        (A.pinned p.parsers.0 k.0.0.0.0.0.0.0 h.0) (B.pinned p.parsers.1 k.0.0.0.0.0.0.1 h.1)) (C.pinned p.parsers.2 k.0.0.0.0.0.1 h.2))
        (D.pinned p.parsers.3 k.0.0.0.0.1 h.3)) (E.pinned p.parsers.4 k.0.0.0.1 h.4)) (F.pinned p.parsers.5 k.0.0.1 h.5))
        (G.pinned p.parsers.6 k.0.1 h.6)) (H.pinned p.parsers.7 k.1 h.7) };

    ghost steady = { λ s k. choice_steady A.Error.errors (next_steady A.Error.errors (next_steady A.Error.errors (next_steady A.Error.errors
        (next_steady A.Error.errors (next_steady A.Error.errors (next_steady A.Error.errors (next_steady A.Error.errors
        (A.steady s.0 k.0.0.0.0.0.0.0) (B.steady s.1 k.0.0.0.0.0.0.1)) (C.steady s.2 k.0.0.0.0.0.1)) (D.steady s.3 k.0.0.0.0.1))
        (E.steady s.4 k.0.0.0.1)) (F.steady s.5 k.0.0.1)) (G.steady s.6 k.0.1)) (H.steady s.7 k.1)) };
}
