//! Tuples of five to eight parsers.
ghost use Rattle.std.specs.Prelude.{true};
ghost use Rattle.std.proofs.Common.{refl};
ghost use Rattle.nom_error.specs.Modes.{with_outputs};
ghost use Rattle.nom_internal.specs.Results.{ThenSideCondition};
ghost use Rattle.nom_internal.specs.Sequence.{pair_of};
ghost use Rattle.nom_internal.specs.Tuples.{tuple_of};
ghost use Rattle.nom_internal.specs.Pinned.{pair_pinned};
ghost use Rattle.nom_internal.specs.laws.TupleLaws.{built_lawful, pair_lawful, built_steady, pair_steady, flat_pinned};
ghost use Rattle.nom_internal.specs.TupleWords as Words;
ghost use Rattle.nom_internal.specs.Words.{pair_worded, tuple_worded};

use crate::built::built;
use crate::parser::{Parser, StreamParser};
use crate::tuple::member;
use crate::width::both_widths;
use nom_error::answer::PResult;
use nom_error::mode::OutputMode;
use nom_traits::input::Items;

impl<
    I: Items,
    A: Parser<I>,
    B: Parser<I, Error = A::Error>,
    C: Parser<I, Error = A::Error>,
    D: Parser<I, Error = A::Error>,
    E: Parser<I, Error = A::Error>,
> Parser<I> for (A, B, C, D, E) {
    type Output = (A::Output, B::Output, C::Output, D::Output, E::Output);

    type Error = A::Error;

    ghost State = { A.State × B.State × C.State × D.State × E.State };

    ghost state = { λ p. (A.state p.0, B.state p.1, C.state p.2, D.state p.3, E.state p.4) };

    ghost Tree = { A.Tree × (B.Tree × (C.Tree × (D.Tree × E.Tree))) };

    ghost grammar = { λ s. tuple_of (λ o. (o.0, (o.1, (o.2, (o.3, o.4))))) (pair_of I.model (A.grammar s.0) (pair_of I.model (B.grammar s.1) (pair_of
        I.model (C.grammar s.2) (pair_of I.model (D.grammar s.3) (E.grammar s.4))))) };

    ghost word = { λ s. Words.tuple_of_five I.model (A.word s.0) (B.word s.1) (C.word s.2) (D.word s.3) (E.word s.4) };

    ghost worded = { λ s. tuple_worded (λ o. (o.0, (o.1, (o.2, (o.3, o.4))))) (pair_worded I.model (A.worded s.0) (pair_worded I.model (B.worded s.1)
        (pair_worded I.model (C.worded s.2) (pair_worded I.model (D.worded s.3) (E.worded s.4))))) };

    ghost SideCondition = { λ mode old new i. ThenSideCondition (A.SideCondition (with_outputs true mode) old.0 new.0 i) (λ j. ThenSideCondition
        (B.SideCondition (with_outputs
        true mode) old.1 new.1 j) (λ k. ThenSideCondition (C.SideCondition (with_outputs true mode) old.2 new.2 k) (λ l. ThenSideCondition (D.SideCondition
        (with_outputs
        true mode) old.3 new.3 l) (E.SideCondition (with_outputs true mode) old.4 new.4)))) };

    #[inline(always)]
    fn process<OM: OutputMode>(&mut self, input: I) -> PResult<I, Self::Output, Self::Error> {
        let (rest, a) = member::<I, A, OM>(&mut self.0, input)?;
        let (rest, b) = member::<I, B, OM>(&mut self.1, rest)?;
        let (rest, c) = member::<I, C, OM>(&mut self.2, rest)?;
        let (rest, d) = member::<I, D, OM>(&mut self.3, rest)?;
        let (rest, e) = member::<I, E, OM>(&mut self.4, rest)?;
        Ok((rest, built::<OM::Output, _>((a, b, c, d, e))))
    }

    #[inline(always)]
    fn width(&self) -> usize {
        let a = self.0.width();
        let b = self.1.width();
        let c = self.2.width();
        let d = self.3.width();
        let e = self.4.width();
        let d_on = both_widths(d, e);
        let c_on = both_widths(c, d_on);
        let b_on = both_widths(b, c_on);
        both_widths(a, b_on)
    }

    ghost lawful = { λ s k. built_lawful (pair_lawful I.lawful (A.lawful s.0 k.0) (pair_lawful I.lawful (B.lawful s.1 k.1.0) (pair_lawful I.lawful
        (C.lawful s.2 k.1.1.0) (pair_lawful I.lawful (D.lawful s.3 k.1.1.1.0) (E.lawful s.4 k.1.1.1.1))))) };
}

impl<
    I: Items,
    A: StreamParser<I>,
    B: StreamParser<I, Error = A::Error>,
    C: StreamParser<I, Error = A::Error>,
    D: StreamParser<I, Error = A::Error>,
    E: StreamParser<I, Error = A::Error>,
> StreamParser<I> for (A, B, C, D, E) {
    ghost Pins = { λ p. A.Pins p.0 × B.Pins p.1 × C.Pins p.2 × D.Pins p.3 × E.Pins p.4 };

    ghost pinned = { λ p k h. flat_pinned (λ v. (v.0, v.1.0, v.1.1.0, v.1.1.1.0, v.1.1.1.1)) (λ o. (o.0, (o.1, (o.2, (o.3, o.4))))) (λ _. refl)
        (pair_pinned (A.pinned p.0 k.0 h.0) (pair_pinned (B.pinned p.1 k.1.0 h.1) (pair_pinned (C.pinned p.2 k.1.1.0 h.2) (pair_pinned (D.pinned p.3
        k.1.1.1.0 h.3) (E.pinned p.4 k.1.1.1.1 h.4))))) };

    ghost steady = { λ s k. built_steady (pair_steady I.lawful (A.steady s.0 k.0) (pair_steady I.lawful (B.steady s.1 k.1.0) (pair_steady I.lawful
        (C.steady s.2 k.1.1.0) (pair_steady I.lawful (D.steady s.3 k.1.1.1.0) (E.steady s.4 k.1.1.1.1))))) };
}

impl<
    I: Items,
    A: Parser<I>,
    B: Parser<I, Error = A::Error>,
    C: Parser<I, Error = A::Error>,
    D: Parser<I, Error = A::Error>,
    E: Parser<I, Error = A::Error>,
    F: Parser<I, Error = A::Error>,
> Parser<I> for (A, B, C, D, E, F) {
    type Output = (
        A::Output,
        B::Output,
        C::Output,
        D::Output,
        E::Output,
        F::Output,
    );

    type Error = A::Error;

    ghost State = { A.State × B.State × C.State × D.State × E.State × F.State };

    ghost state = { λ p. (A.state p.0, B.state p.1, C.state p.2, D.state p.3, E.state p.4, F.state p.5) };

    ghost Tree = { A.Tree × (B.Tree × (C.Tree × (D.Tree × (E.Tree × F.Tree)))) };

    ghost grammar = { λ s. tuple_of (λ o. (o.0, (o.1, (o.2, (o.3, (o.4, o.5)))))) (pair_of I.model (A.grammar s.0) (pair_of I.model (B.grammar s.1)
        (pair_of I.model (C.grammar s.2) (pair_of I.model (D.grammar s.3) (pair_of I.model (E.grammar s.4) (F.grammar s.5)))))) };

    ghost word = { λ s. Words.tuple_of_six I.model (A.word s.0) (B.word s.1) (C.word s.2) (D.word s.3) (E.word s.4) (F.word s.5) };

    ghost worded = { λ s. tuple_worded (λ o. (o.0, (o.1, (o.2, (o.3, (o.4, o.5)))))) (pair_worded I.model (A.worded s.0) (pair_worded I.model
        (B.worded s.1) (pair_worded I.model (C.worded s.2) (pair_worded I.model (D.worded s.3) (pair_worded I.model (E.worded s.4)
        (F.worded s.5)))))) };

    ghost SideCondition = { λ mode old new i. ThenSideCondition (A.SideCondition (with_outputs true mode) old.0 new.0 i) (λ j. ThenSideCondition
        (B.SideCondition (with_outputs
        true mode) old.1 new.1 j) (λ k. ThenSideCondition (C.SideCondition (with_outputs true mode) old.2 new.2 k) (λ l. ThenSideCondition (D.SideCondition
        (with_outputs
        true mode) old.3 new.3 l) (λ m. ThenSideCondition (E.SideCondition (with_outputs true mode) old.4 new.4 m) (F.SideCondition (with_outputs true
        mode) old.5
        new.5))))) };

    #[inline(always)]
    fn process<OM: OutputMode>(&mut self, input: I) -> PResult<I, Self::Output, Self::Error> {
        let (rest, a) = member::<I, A, OM>(&mut self.0, input)?;
        let (rest, b) = member::<I, B, OM>(&mut self.1, rest)?;
        let (rest, c) = member::<I, C, OM>(&mut self.2, rest)?;
        let (rest, d) = member::<I, D, OM>(&mut self.3, rest)?;
        let (rest, e) = member::<I, E, OM>(&mut self.4, rest)?;
        let (rest, f) = member::<I, F, OM>(&mut self.5, rest)?;
        Ok((rest, built::<OM::Output, _>((a, b, c, d, e, f))))
    }

    #[inline(always)]
    fn width(&self) -> usize {
        let a = self.0.width();
        let b = self.1.width();
        let c = self.2.width();
        let d = self.3.width();
        let e = self.4.width();
        let f = self.5.width();
        let e_on = both_widths(e, f);
        let d_on = both_widths(d, e_on);
        let c_on = both_widths(c, d_on);
        let b_on = both_widths(b, c_on);
        both_widths(a, b_on)
    }

    ghost lawful = { λ s k. built_lawful (pair_lawful I.lawful (A.lawful s.0 k.0) (pair_lawful I.lawful (B.lawful s.1 k.1.0) (pair_lawful I.lawful
        (C.lawful s.2 k.1.1.0) (pair_lawful I.lawful (D.lawful s.3 k.1.1.1.0) (pair_lawful I.lawful (E.lawful s.4 k.1.1.1.1.0) (F.lawful s.5
        k.1.1.1.1.1)))))) };
}

impl<
    I: Items,
    A: StreamParser<I>,
    B: StreamParser<I, Error = A::Error>,
    C: StreamParser<I, Error = A::Error>,
    D: StreamParser<I, Error = A::Error>,
    E: StreamParser<I, Error = A::Error>,
    F: StreamParser<I, Error = A::Error>,
> StreamParser<I> for (A, B, C, D, E, F) {
    ghost Pins = { λ p. A.Pins p.0 × B.Pins p.1 × C.Pins p.2 × D.Pins p.3 × E.Pins p.4 × F.Pins p.5 };

    ghost pinned = { λ p k h. flat_pinned (λ v. (v.0, v.1.0, v.1.1.0, v.1.1.1.0, v.1.1.1.1.0, v.1.1.1.1.1)) (λ o. (
      o.0,
      (
        o.1,
        (
          o.2,
          (
            o.3,
            (
              o.4,
              o.5,
            ),
          ),
        ),
      ),
    )) (λ _. refl) (pair_pinned (A.pinned p.0 k.0 h.0) (pair_pinned (B.pinned p.1 k.1.0 h.1) (pair_pinned (C.pinned p.2 k.1.1.0 h.2)
        (pair_pinned (D.pinned p.3 k.1.1.1.0 h.3) (pair_pinned (E.pinned p.4 k.1.1.1.1.0 h.4) (F.pinned p.5 k.1.1.1.1.1 h.5)))))) };

    ghost steady = { λ s k. built_steady (pair_steady I.lawful (A.steady s.0 k.0) (pair_steady I.lawful (B.steady s.1 k.1.0) (pair_steady I.lawful
        (C.steady s.2 k.1.1.0) (pair_steady I.lawful (D.steady s.3 k.1.1.1.0) (pair_steady I.lawful (E.steady s.4 k.1.1.1.1.0) (F.steady s.5
        k.1.1.1.1.1)))))) };
}

impl<
    I: Items,
    A: Parser<I>,
    B: Parser<I, Error = A::Error>,
    C: Parser<I, Error = A::Error>,
    D: Parser<I, Error = A::Error>,
    E: Parser<I, Error = A::Error>,
    F: Parser<I, Error = A::Error>,
    G: Parser<I, Error = A::Error>,
> Parser<I> for (A, B, C, D, E, F, G) {
    type Output = (
        A::Output,
        B::Output,
        C::Output,
        D::Output,
        E::Output,
        F::Output,
        G::Output,
    );

    type Error = A::Error;

    ghost State = { A.State × B.State × C.State × D.State × E.State × F.State × G.State };

    ghost state = { λ p. (A.state p.0, B.state p.1, C.state p.2, D.state p.3, E.state p.4, F.state p.5, G.state p.6) };

    ghost Tree = { A.Tree × (B.Tree × (C.Tree × (D.Tree × (E.Tree × (F.Tree × G.Tree))))) };

    ghost grammar = { λ s. tuple_of (λ o. (o.0, (o.1, (o.2, (o.3, (o.4, (o.5, o.6))))))) (pair_of I.model (A.grammar s.0) (pair_of I.model (B.grammar
        s.1) (pair_of I.model (C.grammar s.2) (pair_of I.model (D.grammar s.3) (pair_of I.model (E.grammar s.4) (pair_of I.model (F.grammar s.5)
        (G.grammar s.6))))))) };

    ghost word = { λ s. Words.tuple_of_seven I.model (A.word s.0) (B.word s.1) (C.word s.2) (D.word s.3) (E.word s.4) (F.word s.5) (G.word s.6) };

    ghost worded = { λ s. tuple_worded (λ o. (o.0, (o.1, (o.2, (o.3, (o.4, (o.5, o.6))))))) (pair_worded I.model (A.worded s.0) (pair_worded I.model
        (B.worded s.1) (pair_worded I.model (C.worded s.2) (pair_worded I.model (D.worded s.3) (pair_worded I.model (E.worded s.4)
        (pair_worded I.model (F.worded s.5) (G.worded s.6))))))) };

    ghost SideCondition = { λ mode old new i. ThenSideCondition (A.SideCondition (with_outputs true mode) old.0 new.0 i) (λ j. ThenSideCondition
        (B.SideCondition (with_outputs
        true mode) old.1 new.1 j) (λ k. ThenSideCondition (C.SideCondition (with_outputs true mode) old.2 new.2 k) (λ l. ThenSideCondition (D.SideCondition
        (with_outputs
        true mode) old.3 new.3 l) (λ m. ThenSideCondition (E.SideCondition (with_outputs true mode) old.4 new.4 m) (λ n. ThenSideCondition (F.SideCondition
        (with_outputs
        true mode) old.5 new.5 n) (G.SideCondition (with_outputs true mode) old.6 new.6)))))) };

    #[inline(always)]
    fn process<OM: OutputMode>(&mut self, input: I) -> PResult<I, Self::Output, Self::Error> {
        let (rest, a) = member::<I, A, OM>(&mut self.0, input)?;
        let (rest, b) = member::<I, B, OM>(&mut self.1, rest)?;
        let (rest, c) = member::<I, C, OM>(&mut self.2, rest)?;
        let (rest, d) = member::<I, D, OM>(&mut self.3, rest)?;
        let (rest, e) = member::<I, E, OM>(&mut self.4, rest)?;
        let (rest, f) = member::<I, F, OM>(&mut self.5, rest)?;
        let (rest, g) = member::<I, G, OM>(&mut self.6, rest)?;
        Ok((rest, built::<OM::Output, _>((a, b, c, d, e, f, g))))
    }

    #[inline(always)]
    fn width(&self) -> usize {
        let a = self.0.width();
        let b = self.1.width();
        let c = self.2.width();
        let d = self.3.width();
        let e = self.4.width();
        let f = self.5.width();
        let g = self.6.width();
        let f_on = both_widths(f, g);
        let e_on = both_widths(e, f_on);
        let d_on = both_widths(d, e_on);
        let c_on = both_widths(c, d_on);
        let b_on = both_widths(b, c_on);
        both_widths(a, b_on)
    }

    ghost lawful = { λ s k. built_lawful (pair_lawful I.lawful (A.lawful s.0 k.0) (pair_lawful I.lawful (B.lawful s.1 k.1.0) (pair_lawful I.lawful
        (C.lawful s.2 k.1.1.0) (pair_lawful I.lawful (D.lawful s.3 k.1.1.1.0) (pair_lawful I.lawful (E.lawful s.4 k.1.1.1.1.0) (pair_lawful I.lawful
        (F.lawful s.5 k.1.1.1.1.1.0) (G.lawful s.6 k.1.1.1.1.1.1))))))) };
}

impl<
    I: Items,
    A: StreamParser<I>,
    B: StreamParser<I, Error = A::Error>,
    C: StreamParser<I, Error = A::Error>,
    D: StreamParser<I, Error = A::Error>,
    E: StreamParser<I, Error = A::Error>,
    F: StreamParser<I, Error = A::Error>,
    G: StreamParser<I, Error = A::Error>,
> StreamParser<I> for (A, B, C, D, E, F, G) {
    ghost Pins = { λ p. A.Pins p.0 × B.Pins p.1 × C.Pins p.2 × D.Pins p.3 × E.Pins p.4 × F.Pins p.5 × G.Pins p.6 };

    ghost pinned = { λ p k h. flat_pinned (λ v. (v.0, v.1.0, v.1.1.0, v.1.1.1.0, v.1.1.1.1.0, v.1.1.1.1.1.0, v.1.1.1.1.1.1)) (λ o. (
      o.0,
      (
        o.1,
        (
          o.2,
          (o.3, (o.4, (o.5, o.6))),
        ),
      ),
    )) (λ _. refl) (pair_pinned (A.pinned p.0 k.0 h.0) (pair_pinned (B.pinned p.1 k.1.0 h.1) (pair_pinned (C.pinned p.2
        k.1.1.0 h.2) (pair_pinned (D.pinned p.3 k.1.1.1.0 h.3) (pair_pinned (E.pinned p.4 k.1.1.1.1.0 h.4) (pair_pinned (F.pinned p.5 k.1.1.1.1.1.0
        h.5) (G.pinned p.6 k.1.1.1.1.1.1 h.6))))))) };

    ghost steady = { λ s k. built_steady (pair_steady I.lawful (A.steady s.0 k.0) (pair_steady I.lawful (B.steady s.1 k.1.0) (pair_steady I.lawful
        (C.steady s.2 k.1.1.0) (pair_steady I.lawful (D.steady s.3 k.1.1.1.0) (pair_steady I.lawful (E.steady s.4 k.1.1.1.1.0) (pair_steady I.lawful
        (F.steady s.5 k.1.1.1.1.1.0) (G.steady s.6 k.1.1.1.1.1.1))))))) };
}

impl<
    I: Items,
    A: Parser<I>,
    B: Parser<I, Error = A::Error>,
    C: Parser<I, Error = A::Error>,
    D: Parser<I, Error = A::Error>,
    E: Parser<I, Error = A::Error>,
    F: Parser<I, Error = A::Error>,
    G: Parser<I, Error = A::Error>,
    H: Parser<I, Error = A::Error>,
> Parser<I> for (A, B, C, D, E, F, G, H) {
    type Output = (
        A::Output,
        B::Output,
        C::Output,
        D::Output,
        E::Output,
        F::Output,
        G::Output,
        H::Output,
    );

    type Error = A::Error;

    ghost State = { A.State × B.State × C.State × D.State × E.State × F.State × G.State × H.State };

    ghost state = { λ p. (A.state p.0, B.state p.1, C.state p.2, D.state p.3, E.state p.4, F.state p.5, G.state p.6, H.state p.7) };

    ghost Tree = { A.Tree × (B.Tree × (C.Tree × (D.Tree × (E.Tree × (F.Tree × (G.Tree × H.Tree)))))) };

    ghost grammar = { λ s. tuple_of (λ o. (o.0, (o.1, (o.2, (o.3, (o.4, (o.5, (o.6, o.7)))))))) (pair_of I.model (A.grammar s.0) (pair_of I.model
        (B.grammar s.1) (pair_of I.model (C.grammar s.2) (pair_of I.model (D.grammar s.3) (pair_of I.model (E.grammar s.4) (pair_of I.model
        (F.grammar s.5) (pair_of I.model (G.grammar s.6) (H.grammar s.7)))))))) };

    ghost word = { λ s. Words.tuple_of_eight I.model (A.word s.0) (B.word s.1) (C.word s.2) (D.word s.3) (E.word s.4) (F.word s.5) (G.word s.6)
        (H.word s.7) };

    ghost worded = { λ s. tuple_worded (λ o. (o.0, (o.1, (o.2, (o.3, (o.4, (o.5, (o.6, o.7)))))))) (pair_worded I.model (A.worded s.0)
        (pair_worded I.model (B.worded s.1) (pair_worded I.model (C.worded s.2) (pair_worded I.model (D.worded s.3) (pair_worded I.model
        (E.worded s.4) (pair_worded I.model (F.worded s.5) (pair_worded I.model (G.worded s.6) (H.worded s.7)))))))) };

    ghost SideCondition = { λ mode old new i. ThenSideCondition (A.SideCondition (with_outputs true mode) old.0 new.0 i) (λ j. ThenSideCondition
        (B.SideCondition (with_outputs
        true mode) old.1 new.1 j) (λ k. ThenSideCondition (C.SideCondition (with_outputs true mode) old.2 new.2 k) (λ l. ThenSideCondition (D.SideCondition
        (with_outputs
        true mode) old.3 new.3 l) (λ m. ThenSideCondition (E.SideCondition (with_outputs true mode) old.4 new.4 m) (λ n. ThenSideCondition (F.SideCondition
        (with_outputs
        true mode) old.5 new.5 n) (λ o. ThenSideCondition (G.SideCondition (with_outputs true mode) old.6 new.6 o) (H.SideCondition (with_outputs true
        mode) old.7
        new.7))))))) };

    #[inline(always)]
    fn process<OM: OutputMode>(&mut self, input: I) -> PResult<I, Self::Output, Self::Error> {
        let (rest, a) = member::<I, A, OM>(&mut self.0, input)?;
        let (rest, b) = member::<I, B, OM>(&mut self.1, rest)?;
        let (rest, c) = member::<I, C, OM>(&mut self.2, rest)?;
        let (rest, d) = member::<I, D, OM>(&mut self.3, rest)?;
        let (rest, e) = member::<I, E, OM>(&mut self.4, rest)?;
        let (rest, f) = member::<I, F, OM>(&mut self.5, rest)?;
        let (rest, g) = member::<I, G, OM>(&mut self.6, rest)?;
        let (rest, h) = member::<I, H, OM>(&mut self.7, rest)?;
        Ok((rest, built::<OM::Output, _>((a, b, c, d, e, f, g, h))))
    }

    #[inline(always)]
    fn width(&self) -> usize {
        let a = self.0.width();
        let b = self.1.width();
        let c = self.2.width();
        let d = self.3.width();
        let e = self.4.width();
        let f = self.5.width();
        let g = self.6.width();
        let h = self.7.width();
        let g_on = both_widths(g, h);
        let f_on = both_widths(f, g_on);
        let e_on = both_widths(e, f_on);
        let d_on = both_widths(d, e_on);
        let c_on = both_widths(c, d_on);
        let b_on = both_widths(b, c_on);
        both_widths(a, b_on)
    }

    ghost lawful = { λ s k. built_lawful (pair_lawful I.lawful (A.lawful s.0 k.0) (pair_lawful I.lawful (B.lawful s.1 k.1.0) (pair_lawful I.lawful
        (C.lawful s.2 k.1.1.0) (pair_lawful I.lawful (D.lawful s.3 k.1.1.1.0) (pair_lawful I.lawful (E.lawful s.4 k.1.1.1.1.0) (pair_lawful I.lawful
        (F.lawful s.5 k.1.1.1.1.1.0) (pair_lawful I.lawful (G.lawful s.6 k.1.1.1.1.1.1.0) (H.lawful s.7 k.1.1.1.1.1.1.1)))))))) };
}

impl<
    I: Items,
    A: StreamParser<I>,
    B: StreamParser<I, Error = A::Error>,
    C: StreamParser<I, Error = A::Error>,
    D: StreamParser<I, Error = A::Error>,
    E: StreamParser<I, Error = A::Error>,
    F: StreamParser<I, Error = A::Error>,
    G: StreamParser<I, Error = A::Error>,
    H: StreamParser<I, Error = A::Error>,
> StreamParser<I> for (A, B, C, D, E, F, G, H) {
    ghost Pins = { λ p. A.Pins p.0 × B.Pins p.1 × C.Pins p.2 × D.Pins p.3 × E.Pins p.4 × F.Pins p.5 × G.Pins p.6 × H.Pins p.7 };

    ghost pinned = { λ p k h. flat_pinned (λ v. (v.0, v.1.0, v.1.1.0, v.1.1.1.0, v.1.1.1.1.0, v.1.1.1.1.1.0, v.1.1.1.1.1.1.0, v.1.1.1.1.1.1.1)) (λ o.
        (o.0, (o.1, (o.2, (o.3, (o.4, (o.5, (o.6, o.7)))))))) (λ _. refl) (pair_pinned (A.pinned p.0 k.0 h.0) (pair_pinned (B.pinned p.1 k.1.0 h.1)
        (pair_pinned (C.pinned p.2 k.1.1.0 h.2) (pair_pinned (D.pinned p.3 k.1.1.1.0 h.3) (pair_pinned (E.pinned p.4 k.1.1.1.1.0 h.4) (pair_pinned
        (F.pinned p.5 k.1.1.1.1.1.0 h.5) (pair_pinned (G.pinned p.6 k.1.1.1.1.1.1.0 h.6) (H.pinned p.7 k.1.1.1.1.1.1.1 h.7)))))))) };

    ghost steady = { λ s k. built_steady (pair_steady I.lawful (A.steady s.0 k.0) (pair_steady I.lawful (B.steady s.1 k.1.0) (pair_steady I.lawful
        (C.steady s.2 k.1.1.0) (pair_steady I.lawful (D.steady s.3 k.1.1.1.0) (pair_steady I.lawful (E.steady s.4 k.1.1.1.1.0) (pair_steady I.lawful
        (F.steady s.5 k.1.1.1.1.1.0) (pair_steady I.lawful (G.steady s.6 k.1.1.1.1.1.1.0) (H.steady s.7 k.1.1.1.1.1.1.1)))))))) };
}
