//! Permutations of two to five parsers.
ghost use Rattle.std.proofs.Common.{refl};
ghost use Rattle.nom_branch.specs.Permutation.{once_each_of};
ghost use Rattle.nom_branch.specs.PermutationWords as Words;

use crate::members::Nested;
use crate::nest::{Five, Four, Three, Two};
use crate::permutations::OnceEach;
use crate::rounds::rounds;
use nom_error::answer::PResult;
use nom_error::mode::OutputMode;
use nom_internal::parser::{Parser, StreamParser};
use nom_traits::input::Items;

impl<I: Items, A: Parser<I>, B: Parser<I, Error = A::Error>> Parser<I> for OnceEach<Two<A, B>> {
    ghost use Rattle.nom_branch.specs.laws.NestedLaws.{one_good, more_good};
    ghost use Rattle.nom_branch.specs.laws.PermutationLaws.{once_each_lawful};

    type Output = (A::Output, B::Output);

    type Error = A::Error;

    ghost State = { ⟦<Two<A, B> as Nested<I>>⟧.State };

    ghost state = { λ p. ⟦<Two<A, B> as Nested<I>>⟧.state p.members };

    // The members' trees.
    ghost Tree = { ⟦<Two<A, B> as Nested<I>>⟧.Tree };

    ghost grammar = { λ s. once_each_of I.model A.Error.errors (⟦<Two<A, B> as Nested<I>>⟧.members s)
        ⟦<Two<A, B> as Nested<I>>⟧.none (⟦<Two<A, B> as Nested<I>>⟧.AreOutputs s)
        (λ o. (record { member = o.0 }, o.1)) };

    ghost word = { λ s. Words.permutation_of I.model A.Error.errors (λ o. (record { member = o.0 }, o.1))
        (⟦<Two<A, B> as Nested<I>>⟧.word s) };

    ghost worded = { λ s. Words.permutation_worded I.model A.Error.errors (λ o. (record { member = o.0 }, o.1))
        (⟦<Two<A, B> as Nested<I>>⟧.worded s) };

    #[inline(always)]
    fn process<OM: OutputMode>(&mut self, input: I) -> PResult<I, Self::Output, Self::Error> {
        rounds::<I, Two<A, B>, OM>(&mut self.members, input)
    }

    ghost lawful = { λ s k. once_each_lawful I.lawful A.Error.errors (⟦<Two<A, B> as Nested<I>>⟧.members s)
        ((more_good _ (one_good _ (A.lawful s.0)) (B.lawful s.1)).lawful k)
        ⟦<Two<A, B> as Nested<I>>⟧.none };
}

impl<I: Items, A: StreamParser<I>, B: StreamParser<I, Error = A::Error>> StreamParser<I>
    for OnceEach<Two<A, B>> {
    ghost use Rattle.nom_branch.specs.laws.NestedLaws.{flat_members_pinned, one_pinned, more_pinned, one_stream, more_stream};
    ghost use Rattle.nom_branch.specs.laws.PermutationLaws.{once_each_steady};

    ghost Pins = { λ p. let m = p.members in
        A.Pins m.others.member × B.Pins m.member };

    ghost pinned = { λ p k h. let m = p.members in (flat_members_pinned
        (more_pinned (B.grammar (B.state m.member)).meaning _
        (one_pinned (A.grammar (A.state m.others.member)).meaning _ (A.pinned m.others.member)) (B.pinned m.member))
        (λ v. v)
        (λ o. (record { member = o.0 }, o.1)) (λ _. refl)).pinned k h };

    ghost steady = { λ s k. once_each_steady I.lawful A.Error.errors (⟦<Two<A, B> as Nested<I>>⟧.members s)
        ((more_stream _ (one_stream _ (A.steady s.0)) (B.steady s.1)).steady k)
        ⟦<Two<A, B> as Nested<I>>⟧.none };
}

impl<I: Items, A: Parser<I>, B: Parser<I, Error = A::Error>, C: Parser<I, Error = A::Error>> Parser<
    I,
> for OnceEach<Three<A, B, C>> {
    ghost use Rattle.nom_branch.specs.laws.NestedLaws.{one_good, more_good};
    ghost use Rattle.nom_branch.specs.laws.PermutationLaws.{once_each_lawful};

    type Output = (A::Output, B::Output, C::Output);

    type Error = A::Error;

    ghost State = { ⟦<Three<A, B, C> as Nested<I>>⟧.State };

    ghost state = { λ p. ⟦<Three<A, B, C> as Nested<I>>⟧.state p.members };

    // The members' trees.
    ghost Tree = { ⟦<Three<A, B, C> as Nested<I>>⟧.Tree };

    ghost grammar = { λ s. once_each_of I.model A.Error.errors (⟦<Three<A, B, C> as Nested<I>>⟧.members s)
        ⟦<Three<A, B, C> as Nested<I>>⟧.none (⟦<Three<A, B, C> as Nested<I>>⟧.AreOutputs s)
        (λ o. ((record { member = o.0 }, o.1), o.2)) };

    ghost word = { λ s. Words.permutation_of I.model A.Error.errors (λ o. ((record { member = o.0 }, o.1), o.2))
        (⟦<Three<A, B, C> as Nested<I>>⟧.word s) };

    ghost worded = { λ s. Words.permutation_worded I.model A.Error.errors (λ o. ((record { member = o.0 }, o.1), o.2))
        (⟦<Three<A, B, C> as Nested<I>>⟧.worded s) };

    #[inline(always)]
    fn process<OM: OutputMode>(&mut self, input: I) -> PResult<I, Self::Output, Self::Error> {
        rounds::<I, Three<A, B, C>, OM>(&mut self.members, input)
    }

    ghost lawful = { λ s k. once_each_lawful I.lawful A.Error.errors (⟦<Three<A, B, C> as Nested<I>>⟧.members s)
        ((more_good _ (more_good _ (one_good _ (A.lawful s.0.0)) (B.lawful s.0.1)) (C.lawful s.1)).lawful k)
        ⟦<Three<A, B, C> as Nested<I>>⟧.none };
}

impl<
    I: Items,
    A: StreamParser<I>,
    B: StreamParser<I, Error = A::Error>,
    C: StreamParser<I, Error = A::Error>,
> StreamParser<I> for OnceEach<Three<A, B, C>> {
    ghost use Rattle.nom_branch.specs.laws.NestedLaws.{flat_members_pinned, one_pinned, more_pinned, one_stream, more_stream};
    ghost use Rattle.nom_branch.specs.laws.PermutationLaws.{once_each_steady};

    ghost Pins = { λ p. let m = p.members in
        (A.Pins m.others.others.member × B.Pins m.others.member) × C.Pins m.member };

    ghost pinned = { λ p k h. let m = p.members in (flat_members_pinned
        (more_pinned (C.grammar (C.state m.member)).meaning _
        (more_pinned (B.grammar (B.state m.others.member)).meaning _
        (one_pinned (A.grammar (A.state m.others.others.member)).meaning _ (A.pinned m.others.others.member)) (B.pinned m.others.member))
        (C.pinned m.member))
        (λ v. (v.0.0, v.0.1, v.1))
        (λ o. ((record { member = o.0 }, o.1), o.2)) (λ _. refl)).pinned k h };

    ghost steady = { λ s k. once_each_steady I.lawful A.Error.errors (⟦<Three<A, B, C> as Nested<I>>⟧.members s)
        ((more_stream _ (more_stream _ (one_stream _ (A.steady s.0.0)) (B.steady s.0.1)) (C.steady s.1)).steady k)
        ⟦<Three<A, B, C> as Nested<I>>⟧.none };
}

impl<
    I: Items,
    A: Parser<I>,
    B: Parser<I, Error = A::Error>,
    C: Parser<I, Error = A::Error>,
    D: Parser<I, Error = A::Error>,
> Parser<I> for OnceEach<Four<A, B, C, D>> {
    ghost use Rattle.nom_branch.specs.laws.NestedLaws.{one_good, more_good};
    ghost use Rattle.nom_branch.specs.laws.PermutationLaws.{once_each_lawful};

    type Output = (A::Output, B::Output, C::Output, D::Output);

    type Error = A::Error;

    ghost State = { ⟦<Four<A, B, C, D> as Nested<I>>⟧.State };

    ghost state = { λ p. ⟦<Four<A, B, C, D> as Nested<I>>⟧.state p.members };

    // The members' trees.
    ghost Tree = { ⟦<Four<A, B, C, D> as Nested<I>>⟧.Tree };

    ghost grammar = { λ s. once_each_of I.model A.Error.errors (⟦<Four<A, B, C, D> as Nested<I>>⟧.members s)
        ⟦<Four<A, B, C, D> as Nested<I>>⟧.none (⟦<Four<A, B, C, D> as Nested<I>>⟧.AreOutputs s)
        (λ o. (((record { member = o.0 }, o.1), o.2), o.3)) };

    ghost word = { λ s. Words.permutation_of I.model A.Error.errors (λ o. (((record { member = o.0 }, o.1), o.2), o.3))
        (⟦<Four<A, B, C, D> as Nested<I>>⟧.word s) };

    ghost worded = { λ s. Words.permutation_worded I.model A.Error.errors (λ o. (((record { member = o.0 }, o.1), o.2), o.3))
        (⟦<Four<A, B, C, D> as Nested<I>>⟧.worded s) };

    #[inline(always)]
    fn process<OM: OutputMode>(&mut self, input: I) -> PResult<I, Self::Output, Self::Error> {
        rounds::<I, Four<A, B, C, D>, OM>(&mut self.members, input)
    }

    ghost lawful = { λ s k. once_each_lawful I.lawful A.Error.errors (⟦<Four<A, B, C, D> as Nested<I>>⟧.members s)
        ((more_good _ (more_good _ (more_good _ (one_good _ (A.lawful s.0.0.0)) (B.lawful s.0.0.1)) (C.lawful s.0.1)) (D.lawful s.1)).lawful k)
        ⟦<Four<A, B, C, D> as Nested<I>>⟧.none };
}

impl<
    I: Items,
    A: StreamParser<I>,
    B: StreamParser<I, Error = A::Error>,
    C: StreamParser<I, Error = A::Error>,
    D: StreamParser<I, Error = A::Error>,
> StreamParser<I> for OnceEach<Four<A, B, C, D>> {
    ghost use Rattle.nom_branch.specs.laws.NestedLaws.{flat_members_pinned, one_pinned, more_pinned, one_stream, more_stream};
    ghost use Rattle.nom_branch.specs.laws.PermutationLaws.{once_each_steady};

    ghost Pins = { λ p. let m = p.members in
        ((A.Pins m.others.others.others.member × B.Pins m.others.others.member) × C.Pins m.others.member) × D.Pins m.member };

    ghost pinned = { λ p k h. let m = p.members in (flat_members_pinned
        (more_pinned (D.grammar (D.state m.member)).meaning _
        (more_pinned (C.grammar (C.state m.others.member)).meaning _
        (more_pinned (B.grammar (B.state m.others.others.member)).meaning _
        (one_pinned (A.grammar (A.state m.others.others.others.member)).meaning _ (A.pinned m.others.others.others.member))
        (B.pinned m.others.others.member)) (C.pinned m.others.member)) (D.pinned m.member))
        (λ v. (v.0.0.0, v.0.0.1, v.0.1, v.1))
        (λ o. (((record { member = o.0 }, o.1), o.2), o.3)) (λ _. refl)).pinned k h };

    ghost steady = { λ s k. once_each_steady I.lawful A.Error.errors (⟦<Four<A, B, C, D> as Nested<I>>⟧.members s)
        ((more_stream _ (more_stream _ (more_stream _ (one_stream _ (A.steady s.0.0.0)) (B.steady s.0.0.1)) (C.steady s.0.1)) (D.steady s.1)).steady k)
        ⟦<Four<A, B, C, D> as Nested<I>>⟧.none };
}

impl<
    I: Items,
    A: Parser<I>,
    B: Parser<I, Error = A::Error>,
    C: Parser<I, Error = A::Error>,
    D: Parser<I, Error = A::Error>,
    E: Parser<I, Error = A::Error>,
> Parser<I> for OnceEach<Five<A, B, C, D, E>> {
    ghost use Rattle.nom_branch.specs.laws.NestedLaws.{one_good, more_good};
    ghost use Rattle.nom_branch.specs.laws.PermutationLaws.{once_each_lawful};

    type Output = (A::Output, B::Output, C::Output, D::Output, E::Output);

    type Error = A::Error;

    ghost State = { ⟦<Five<A, B, C, D, E> as Nested<I>>⟧.State };

    ghost state = { λ p. ⟦<Five<A, B, C, D, E> as Nested<I>>⟧.state p.members };

    // The members' trees.
    ghost Tree = { ⟦<Five<A, B, C, D, E> as Nested<I>>⟧.Tree };

    ghost grammar = { λ s. once_each_of I.model A.Error.errors (⟦<Five<A, B, C, D, E> as Nested<I>>⟧.members s)
        ⟦<Five<A, B, C, D, E> as Nested<I>>⟧.none (⟦<Five<A, B, C, D, E> as Nested<I>>⟧.AreOutputs s)
        (λ o. ((((record { member = o.0 }, o.1), o.2), o.3), o.4)) };

    ghost word = { λ s. Words.permutation_of I.model A.Error.errors (λ o. ((((record { member = o.0 }, o.1), o.2), o.3), o.4))
        (⟦<Five<A, B, C, D, E> as Nested<I>>⟧.word s) };

    ghost worded = { λ s. Words.permutation_worded I.model A.Error.errors (λ o. ((((record { member = o.0 }, o.1), o.2), o.3), o.4))
        (⟦<Five<A, B, C, D, E> as Nested<I>>⟧.worded s) };

    #[inline(always)]
    fn process<OM: OutputMode>(&mut self, input: I) -> PResult<I, Self::Output, Self::Error> {
        rounds::<I, Five<A, B, C, D, E>, OM>(&mut self.members, input)
    }

    ghost lawful = { λ s k. once_each_lawful I.lawful A.Error.errors (⟦<Five<A, B, C, D, E> as Nested<I>>⟧.members s)
        ((more_good _ (more_good _ (more_good _ (more_good _ (one_good _ (A.lawful s.0.0.0.0)) (B.lawful s.0.0.0.1)) (C.lawful s.0.0.1))
        (D.lawful s.0.1)) (E.lawful s.1)).lawful k)
        ⟦<Five<A, B, C, D, E> as Nested<I>>⟧.none };
}

impl<
    I: Items,
    A: StreamParser<I>,
    B: StreamParser<I, Error = A::Error>,
    C: StreamParser<I, Error = A::Error>,
    D: StreamParser<I, Error = A::Error>,
    E: StreamParser<I, Error = A::Error>,
> StreamParser<I> for OnceEach<Five<A, B, C, D, E>> {
    ghost use Rattle.nom_branch.specs.laws.NestedLaws.{flat_members_pinned, one_pinned, more_pinned, one_stream, more_stream};
    ghost use Rattle.nom_branch.specs.laws.PermutationLaws.{once_each_steady};

    ghost Pins = { λ p. let m = p.members in
        (((A.Pins m.others.others.others.others.member × B.Pins m.others.others.others.member) × C.Pins m.others.others.member) × D.Pins m.others.member)
        × E.Pins m.member };

    ghost pinned = { λ p k h. let m = p.members in (flat_members_pinned
        (more_pinned (E.grammar (E.state m.member)).meaning _
        (more_pinned (D.grammar (D.state m.others.member)).meaning _
        (more_pinned (C.grammar (C.state m.others.others.member)).meaning _
        (more_pinned (B.grammar (B.state m.others.others.others.member)).meaning _
        (one_pinned (A.grammar (A.state m.others.others.others.others.member)).meaning _ (A.pinned m.others.others.others.others.member))
        (B.pinned m.others.others.others.member)) (C.pinned m.others.others.member)) (D.pinned m.others.member)) (E.pinned m.member))
        (λ v. (v.0.0.0.0, v.0.0.0.1, v.0.0.1, v.0.1, v.1))
        (λ o. ((((record { member = o.0 }, o.1), o.2), o.3), o.4)) (λ _. refl)).pinned k h };

    ghost steady = { λ s k. once_each_steady I.lawful A.Error.errors (⟦<Five<A, B, C, D, E> as Nested<I>>⟧.members s)
        ((more_stream _ (more_stream _ (more_stream _ (more_stream _ (one_stream _ (A.steady s.0.0.0.0)) (B.steady s.0.0.0.1)) (C.steady s.0.0.1))
        (D.steady s.0.1)) (E.steady s.1)).steady k)
        ⟦<Five<A, B, C, D, E> as Nested<I>>⟧.none };
}
