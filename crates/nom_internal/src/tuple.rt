//! Tuples of up to four parsers, and the step that runs a member of a tuple of any width.
//!
//! The members run in sequence. As in nom, a member builds its output in every mode. The tuple drops the
//! outputs that aren't required.
ghost use Rattle.std.specs.Prelude.{◌≡◌, true};
ghost use Rattle.std.proofs.Common.{refl};
ghost use Rattle.nom_error.specs.Modes.{modes, with_outputs};
ghost use Rattle.nom_internal.specs.Meaning.{ShowsMeaning};
ghost use Rattle.nom_internal.specs.Sequence.{pair_of};
ghost use Rattle.nom_internal.specs.Results.{rest_of, with_output, ThenSideCondition};
ghost use Rattle.nom_internal.specs.Tuples.{tuple_of};
ghost use Rattle.nom_internal.specs.Pinned.{pair_pinned};
ghost use Rattle.nom_internal.specs.laws.TupleLaws.{built_lawful, pair_lawful, built_steady, pair_steady, flat_pinned, single_pinned};
ghost use Rattle.nom_internal.specs.TupleWords as Words;
ghost use Rattle.nom_internal.specs.Words.{pair_worded, tuple_worded};
ghost use Rattle.nom_internal.specs.Words as Plain;

use crate::built::built;
use crate::parser::{Parser, StreamParser};
use crate::width::both_widths;
use nom_error::answer::{Err, PResult};
use nom_error::mode::{Emit, OutputM, OutputMode};
use nom_traits::input::Items;

/// Runs a member. Its output is built in every mode.
#[inline(always)]
pub fn member<I: Items, P: Parser<I>, OM: OutputMode>(
    part: &mut P,
    input: I,
) -> Result<(I, P::Output), Err<P::Error, Option<P::Error>>>
    requires { (P.grammar (P.state part.old)).meaning.Runs }
    ensures shown { ShowsMeaning I.model (P.grammar (P.state part.old)).IsOutput (P.grammar (P.state part.old)).meaning
        (modes true OM.Error.BUILDS OM.Incomplete.STREAMING) input (with_output result) }
    ensures kept { P.state part.new ≡ P.state part.old }
    ensures side_condition { P.SideCondition (modes true OM.Error.BUILDS OM.Incomplete.STREAMING) part.old part.new input (rest_of result) }
{
    let (rest, output) = part.process::<OutputM<Emit, OM::Error, OM::Incomplete>>(input)?;
    match output {
        Some(output) => Ok((rest, output)),
        None => unreachable!(),
    }
}

impl<I: Items, A: Parser<I>> Parser<I> for (A,) {
    type Output = (A::Output,);

    type Error = A::Error;

    ghost State = { A.State };

    ghost state = { λ p. A.state p.0 };

    ghost Tree = { A.Tree };

    ghost grammar = { λ s. tuple_of (λ o. o.0) (A.grammar s) };

    ghost word = { λ s. Plain.tuple_of (λ o. o.0) (A.word s) };

    ghost worded = { λ s. tuple_worded (λ o. o.0) (A.worded s) };

    ghost SideCondition = { λ mode old new i. A.SideCondition (with_outputs true mode) old.0 new.0 i };

    #[inline(always)]
    fn process<OM: OutputMode>(&mut self, input: I) -> PResult<I, Self::Output, Self::Error> {
        let (rest, a) = member::<I, A, OM>(&mut self.0, input)?;
        Ok((rest, built::<OM::Output, _>((a,))))
    }

    ghost lawful = { λ s k. built_lawful (A.lawful s k) };
}

impl<I: Items, A: StreamParser<I>> StreamParser<I> for (A,) {
    ghost Pins = { λ p. A.Pins p.0 };

    ghost pinned = { λ p k h. single_pinned (A.pinned p.0 k h) };

    ghost steady = { λ s k. built_steady (A.steady s k) };
}

impl<I: Items, A: Parser<I>, B: Parser<I, Error = A::Error>> Parser<I> for (A, B) {
    type Output = (A::Output, B::Output);

    type Error = A::Error;

    ghost State = { A.State × B.State };

    ghost state = { λ p. (A.state p.0, B.state p.1) };

    ghost Tree = { A.Tree × B.Tree };

    ghost grammar = { λ s. tuple_of (λ o. (o.0, o.1)) (pair_of I.model (A.grammar s.0) (B.grammar s.1)) };

    ghost word = { λ s. Words.tuple_of_two I.model (A.word s.0) (B.word s.1) };

    ghost worded = { λ s. tuple_worded (λ o. (o.0, o.1)) (pair_worded I.model (A.worded s.0) (B.worded s.1)) };

    ghost SideCondition = { λ mode old new i. ThenSideCondition (A.SideCondition (with_outputs true mode) old.0 new.0 i) (B.SideCondition (with_outputs
        true mode) old.1
        new.1) };

    #[inline(always)]
    fn process<OM: OutputMode>(&mut self, input: I) -> PResult<I, Self::Output, Self::Error> {
        let (rest, a) = member::<I, A, OM>(&mut self.0, input)?;
        let (rest, b) = member::<I, B, OM>(&mut self.1, rest)?;
        Ok((rest, built::<OM::Output, _>((a, b))))
    }

    #[inline(always)]
    fn width(&self) -> usize {
        let a = self.0.width();
        let b = self.1.width();
        both_widths(a, b)
    }

    ghost lawful = { λ s k. built_lawful (pair_lawful I.lawful (A.lawful s.0 k.0) (B.lawful s.1 k.1)) };
}

impl<I: Items, A: StreamParser<I>, B: StreamParser<I, Error = A::Error>> StreamParser<I>
    for (A, B) {
    ghost Pins = { λ p. A.Pins p.0 × B.Pins p.1 };

    ghost pinned = { λ p k h. flat_pinned (λ v. v) (λ o. (o.0, o.1)) (λ _. refl) (pair_pinned (A.pinned p.0 k.0 h.0) (B.pinned p.1 k.1 h.1)) };

    ghost steady = { λ s k. built_steady (pair_steady I.lawful (A.steady s.0 k.0) (B.steady s.1 k.1)) };
}

impl<I: Items, A: Parser<I>, B: Parser<I, Error = A::Error>, C: Parser<I, Error = A::Error>> Parser<
    I,
> for (A, B, C) {
    type Output = (A::Output, B::Output, C::Output);

    type Error = A::Error;

    ghost State = { A.State × B.State × C.State };

    ghost state = { λ p. (A.state p.0, B.state p.1, C.state p.2) };

    ghost Tree = { A.Tree × (B.Tree × C.Tree) };

    ghost grammar = { λ s. tuple_of (λ o. (o.0, (o.1, o.2))) (pair_of I.model (A.grammar s.0) (pair_of I.model (B.grammar s.1) (C.grammar s.2))) };

    ghost word = { λ s. Words.tuple_of_three I.model (A.word s.0) (B.word s.1) (C.word s.2) };

    ghost worded = { λ s. tuple_worded (λ o. (o.0, (o.1, o.2))) (pair_worded I.model (A.worded s.0) (pair_worded I.model (B.worded s.1) (C.worded s.2))) };

    ghost SideCondition = { λ mode old new i. ThenSideCondition (A.SideCondition (with_outputs true mode) old.0 new.0 i) (λ j. ThenSideCondition
        (B.SideCondition (with_outputs
        true mode) old.1 new.1 j) (C.SideCondition (with_outputs true mode) old.2 new.2)) };

    #[inline(always)]
    fn process<OM: OutputMode>(&mut self, input: I) -> PResult<I, Self::Output, Self::Error> {
        let (rest, a) = member::<I, A, OM>(&mut self.0, input)?;
        let (rest, b) = member::<I, B, OM>(&mut self.1, rest)?;
        let (rest, c) = member::<I, C, OM>(&mut self.2, rest)?;
        Ok((rest, built::<OM::Output, _>((a, b, c))))
    }

    #[inline(always)]
    fn width(&self) -> usize {
        let a = self.0.width();
        let b = self.1.width();
        let c = self.2.width();
        let b_on = both_widths(b, c);
        both_widths(a, b_on)
    }

    ghost lawful = { λ s k. built_lawful (pair_lawful I.lawful (A.lawful s.0 k.0) (pair_lawful I.lawful (B.lawful s.1 k.1.0) (C.lawful s.2 k.1.1))) };
}

impl<
    I: Items,
    A: StreamParser<I>,
    B: StreamParser<I, Error = A::Error>,
    C: StreamParser<I, Error = A::Error>,
> StreamParser<I> for (A, B, C) {
    ghost Pins = { λ p. A.Pins p.0 × B.Pins p.1 × C.Pins p.2 };

    ghost pinned = { λ p k h. flat_pinned (λ v. (v.0, v.1.0, v.1.1)) (λ o. (o.0, (o.1, o.2))) (λ _. refl) (pair_pinned (A.pinned p.0 k.0 h.0)
        (pair_pinned (B.pinned p.1 k.1.0 h.1) (C.pinned p.2 k.1.1 h.2))) };

    ghost steady = { λ s k. built_steady (pair_steady I.lawful (A.steady s.0 k.0) (pair_steady I.lawful (B.steady s.1 k.1.0) (C.steady s.2 k.1.1))) };
}

impl<
    I: Items,
    A: Parser<I>,
    B: Parser<I, Error = A::Error>,
    C: Parser<I, Error = A::Error>,
    D: Parser<I, Error = A::Error>,
> Parser<I> for (A, B, C, D) {
    type Output = (A::Output, B::Output, C::Output, D::Output);

    type Error = A::Error;

    ghost State = { A.State × B.State × C.State × D.State };

    ghost state = { λ p. (A.state p.0, B.state p.1, C.state p.2, D.state p.3) };

    ghost Tree = { A.Tree × (B.Tree × (C.Tree × D.Tree)) };

    ghost grammar = { λ s. tuple_of (λ o. (o.0, (o.1, (o.2, o.3)))) (pair_of I.model (A.grammar s.0) (pair_of I.model (B.grammar s.1) (pair_of
        I.model (C.grammar s.2) (D.grammar s.3)))) };

    ghost word = { λ s. Words.tuple_of_four I.model (A.word s.0) (B.word s.1) (C.word s.2) (D.word s.3) };

    ghost worded = { λ s. tuple_worded (λ o. (o.0, (o.1, (o.2, o.3)))) (pair_worded I.model (A.worded s.0) (pair_worded I.model (B.worded s.1)
        (pair_worded I.model (C.worded s.2) (D.worded s.3)))) };

    ghost SideCondition = { λ mode old new i. ThenSideCondition (A.SideCondition (with_outputs true mode) old.0 new.0 i) (λ j. ThenSideCondition
        (B.SideCondition (with_outputs
        true mode) old.1 new.1 j) (λ k. ThenSideCondition (C.SideCondition (with_outputs true mode) old.2 new.2 k) (D.SideCondition (with_outputs true
        mode) old.3
        new.3))) };

    #[inline(always)]
    fn process<OM: OutputMode>(&mut self, input: I) -> PResult<I, Self::Output, Self::Error> {
        let (rest, a) = member::<I, A, OM>(&mut self.0, input)?;
        let (rest, b) = member::<I, B, OM>(&mut self.1, rest)?;
        let (rest, c) = member::<I, C, OM>(&mut self.2, rest)?;
        let (rest, d) = member::<I, D, OM>(&mut self.3, rest)?;
        Ok((rest, built::<OM::Output, _>((a, b, c, d))))
    }

    #[inline(always)]
    fn width(&self) -> usize {
        let a = self.0.width();
        let b = self.1.width();
        let c = self.2.width();
        let d = self.3.width();
        let c_on = both_widths(c, d);
        let b_on = both_widths(b, c_on);
        both_widths(a, b_on)
    }

    ghost lawful = { λ s k. built_lawful (pair_lawful I.lawful (A.lawful s.0 k.0) (pair_lawful I.lawful (B.lawful s.1 k.1.0) (pair_lawful I.lawful
        (C.lawful s.2 k.1.1.0) (D.lawful s.3 k.1.1.1)))) };
}

impl<
    I: Items,
    A: StreamParser<I>,
    B: StreamParser<I, Error = A::Error>,
    C: StreamParser<I, Error = A::Error>,
    D: StreamParser<I, Error = A::Error>,
> StreamParser<I> for (A, B, C, D) {
    ghost Pins = { λ p. A.Pins p.0 × B.Pins p.1 × C.Pins p.2 × D.Pins p.3 };

    ghost pinned = { λ p k h. flat_pinned (λ v. (v.0, v.1.0, v.1.1.0, v.1.1.1)) (λ o. (o.0, (o.1, (o.2, o.3)))) (λ _. refl) (pair_pinned (A.pinned
        p.0 k.0 h.0) (pair_pinned (B.pinned p.1 k.1.0 h.1) (pair_pinned (C.pinned p.2 k.1.1.0 h.2) (D.pinned p.3 k.1.1.1 h.3)))) };

    ghost steady = { λ s k. built_steady (pair_steady I.lawful (A.steady s.0 k.0) (pair_steady I.lawful (B.steady s.1 k.1.0) (pair_steady I.lawful
        (C.steady s.2 k.1.1.0) (D.steady s.3 k.1.1.1)))) };
}
