//! Permutations of six to eight parsers.
ghost use Rattle.std.proofs.Common.{refl};
ghost use Rattle.nom_branch.specs.Permutation.{once_each_of};
ghost use Rattle.nom_branch.specs.PermutationWords as Words;

use crate::members::Nested;
use crate::nest::{Eight, Seven, Six};
use crate::permutations::OnceEach;
use crate::rounds::rounds;
use nom_error::answer::PResult;
use nom_error::mode::OutputMode;
use nom_internal::parser::{Parser, StreamParser};
use nom_traits::input::Items;

impl<
    I: Items,
    A: Parser<I>,
    B: Parser<I, Error = A::Error>,
    C: Parser<I, Error = A::Error>,
    D: Parser<I, Error = A::Error>,
    E: Parser<I, Error = A::Error>,
    F: Parser<I, Error = A::Error>,
> Parser<I> for OnceEach<Six<A, B, C, D, E, F>> {
    ghost use Rattle.nom_branch.specs.laws.NestedLaws.{one_good, more_good};
    ghost use Rattle.nom_branch.specs.laws.PermutationLaws.{once_each_lawful};

    type Output = (
        A::Output,
        B::Output,
        C::Output,
        D::Output,
        E::Output,
        F::Output,
    );

    type Error = A::Error;

    ghost State = { ⟦<Six<A, B, C, D, E, F> as Nested<I>>⟧.State };

    ghost state = { λ p. ⟦<Six<A, B, C, D, E, F> as Nested<I>>⟧.state p.members };

    // The members' trees.
    ghost Tree = { ⟦<Six<A, B, C, D, E, F> as Nested<I>>⟧.Tree };

    ghost grammar = { λ s. once_each_of I.model A.Error.errors (⟦<Six<A, B, C, D, E, F> as Nested<I>>⟧.members s)
        ⟦<Six<A, B, C, D, E, F> as Nested<I>>⟧.none (⟦<Six<A, B, C, D, E, F> as Nested<I>>⟧.AreOutputs s)
        (λ o. (((((record { member = o.0 }, o.1), o.2), o.3), o.4), o.5)) };

    ghost word = { λ s. Words.permutation_of I.model A.Error.errors (λ o. (((((record { member = o.0 }, o.1), o.2), o.3), o.4), o.5))
        (⟦<Six<A, B, C, D, E, F> as Nested<I>>⟧.word s) };

    ghost worded = { λ s. Words.permutation_worded I.model A.Error.errors (λ o. (((((record { member = o.0 }, o.1), o.2), o.3), o.4), o.5))
        (⟦<Six<A, B, C, D, E, F> as Nested<I>>⟧.worded s) };

    #[inline(always)]
    fn process<OM: OutputMode>(&mut self, input: I) -> PResult<I, Self::Output, Self::Error> {
        rounds::<I, Six<A, B, C, D, E, F>, OM>(&mut self.members, input)
    }

    ghost lawful = { λ s k. once_each_lawful I.lawful A.Error.errors (⟦<Six<A, B, C, D, E, F> as Nested<I>>⟧.members s)
        ((more_good _ (more_good _ (more_good _ (more_good _ (more_good _ (one_good _ (A.lawful s.0.0.0.0.0)) (B.lawful s.0.0.0.0.1))
        (C.lawful s.0.0.0.1)) (D.lawful s.0.0.1)) (E.lawful s.0.1)) (F.lawful s.1)).lawful k)
        ⟦<Six<A, B, C, D, E, F> as Nested<I>>⟧.none };
}

impl<
    I: Items,
    A: StreamParser<I>,
    B: StreamParser<I, Error = A::Error>,
    C: StreamParser<I, Error = A::Error>,
    D: StreamParser<I, Error = A::Error>,
    E: StreamParser<I, Error = A::Error>,
    F: StreamParser<I, Error = A::Error>,
> StreamParser<I> for OnceEach<Six<A, B, C, D, E, F>> {
    ghost use Rattle.nom_branch.specs.laws.NestedLaws.{flat_members_pinned, one_pinned, more_pinned, one_stream, more_stream};
    ghost use Rattle.nom_branch.specs.laws.PermutationLaws.{once_each_steady};

    ghost Pins = { λ p. let m = p.members in
        ((((A.Pins m.others.others.others.others.others.member × B.Pins m.others.others.others.others.member) × C.Pins m.others.others.others.member)
        × D.Pins m.others.others.member) × E.Pins m.others.member) × F.Pins m.member };

    ghost pinned = { λ p k h. let m = p.members in (flat_members_pinned
        (more_pinned (F.grammar (F.state m.member)).meaning _
        (more_pinned (E.grammar (E.state m.others.member)).meaning _
        (more_pinned (D.grammar (D.state m.others.others.member)).meaning _
        (more_pinned (C.grammar (C.state m.others.others.others.member)).meaning _
        (more_pinned (B.grammar (B.state m.others.others.others.others.member)).meaning _
        (one_pinned (A.grammar (A.state m.others.others.others.others.others.member)).meaning _ (A.pinned m.others.others.others.others.others.member))
        (B.pinned m.others.others.others.others.member)) (C.pinned m.others.others.others.member)) (D.pinned m.others.others.member))
        (E.pinned m.others.member)) (F.pinned m.member))
        (λ v. (v.0.0.0.0.0, v.0.0.0.0.1, v.0.0.0.1, v.0.0.1, v.0.1, v.1))
        (λ o. (((((record { member = o.0 }, o.1), o.2), o.3), o.4), o.5)) (λ _. refl)).pinned k h };

    ghost steady = { λ s k. once_each_steady I.lawful A.Error.errors (⟦<Six<A, B, C, D, E, F> as Nested<I>>⟧.members s)
        ((more_stream _ (more_stream _ (more_stream _ (more_stream _ (more_stream _ (one_stream _ (A.steady s.0.0.0.0.0)) (B.steady s.0.0.0.0.1))
        (C.steady s.0.0.0.1)) (D.steady s.0.0.1)) (E.steady s.0.1)) (F.steady s.1)).steady k)
        ⟦<Six<A, B, C, D, E, F> as Nested<I>>⟧.none };
}

impl<
    I: Items,
    A: Parser<I>,
    B: Parser<I, Error = A::Error>,
    C: Parser<I, Error = A::Error>,
    D: Parser<I, Error = A::Error>,
    E: Parser<I, Error = A::Error>,
    F: Parser<I, Error = A::Error>,
    G: Parser<I, Error = A::Error>,
> Parser<I> for OnceEach<Seven<A, B, C, D, E, F, G>> {
    ghost use Rattle.nom_branch.specs.laws.NestedLaws.{one_good, more_good};
    ghost use Rattle.nom_branch.specs.laws.PermutationLaws.{once_each_lawful};

    type Output = (
        A::Output,
        B::Output,
        C::Output,
        D::Output,
        E::Output,
        F::Output,
        G::Output,
    );

    type Error = A::Error;

    ghost State = { ⟦<Seven<A, B, C, D, E, F, G> as Nested<I>>⟧.State };

    ghost state = { λ p. ⟦<Seven<A, B, C, D, E, F, G> as Nested<I>>⟧.state p.members };

    // The members' trees.
    ghost Tree = { ⟦<Seven<A, B, C, D, E, F, G> as Nested<I>>⟧.Tree };

    ghost grammar = { λ s. once_each_of I.model A.Error.errors (⟦<Seven<A, B, C, D, E, F, G> as Nested<I>>⟧.members s)
        ⟦<Seven<A, B, C, D, E, F, G> as Nested<I>>⟧.none (⟦<Seven<A, B, C, D, E, F, G> as Nested<I>>⟧.AreOutputs s)
        (λ o. ((((((record { member = o.0 }, o.1), o.2), o.3), o.4), o.5), o.6)) };

    ghost word = { λ s. Words.permutation_of I.model A.Error.errors (λ o. ((((((record { member = o.0 }, o.1), o.2), o.3), o.4), o.5), o.6))
        (⟦<Seven<A, B, C, D, E, F, G> as Nested<I>>⟧.word s) };

    ghost worded = { λ s. Words.permutation_worded I.model A.Error.errors (λ o. ((((((record { member = o.0 }, o.1), o.2), o.3), o.4), o.5), o.6))
        (⟦<Seven<A, B, C, D, E, F, G> as Nested<I>>⟧.worded s) };

    #[inline(always)]
    fn process<OM: OutputMode>(&mut self, input: I) -> PResult<I, Self::Output, Self::Error> {
        rounds::<I, Seven<A, B, C, D, E, F, G>, OM>(&mut self.members, input)
    }

    ghost lawful = { λ s k. once_each_lawful I.lawful A.Error.errors (⟦<Seven<A, B, C, D, E, F, G> as Nested<I>>⟧.members s)
        ((more_good _ (more_good _ (more_good _ (more_good _ (more_good _ (more_good _ (one_good _ (A.lawful s.0.0.0.0.0.0)) (B.lawful s.0.0.0.0.0.1))
        (C.lawful s.0.0.0.0.1)) (D.lawful s.0.0.0.1)) (E.lawful s.0.0.1)) (F.lawful s.0.1)) (G.lawful s.1)).lawful k)
        ⟦<Seven<A, B, C, D, E, F, G> as Nested<I>>⟧.none };
}

impl<
    I: Items,
    A: StreamParser<I>,
    B: StreamParser<I, Error = A::Error>,
    C: StreamParser<I, Error = A::Error>,
    D: StreamParser<I, Error = A::Error>,
    E: StreamParser<I, Error = A::Error>,
    F: StreamParser<I, Error = A::Error>,
    G: StreamParser<I, Error = A::Error>,
> StreamParser<I> for OnceEach<Seven<A, B, C, D, E, F, G>> {
    ghost use Rattle.nom_branch.specs.laws.NestedLaws.{flat_members_pinned, one_pinned, more_pinned, one_stream, more_stream};
    ghost use Rattle.nom_branch.specs.laws.PermutationLaws.{once_each_steady};

    ghost Pins = { λ p. let m = p.members in
        (((((A.Pins m.others.others.others.others.others.others.member × B.Pins m.others.others.others.others.others.member)
        × C.Pins m.others.others.others.others.member) × D.Pins m.others.others.others.member) × E.Pins m.others.others.member) × F.Pins m.others.member)
        × G.Pins m.member };

    ghost pinned = { λ p k h. let m = p.members in (flat_members_pinned
        (more_pinned (G.grammar (G.state m.member)).meaning _
        (more_pinned (F.grammar (F.state m.others.member)).meaning _
        (more_pinned (E.grammar (E.state m.others.others.member)).meaning _
        (more_pinned (D.grammar (D.state m.others.others.others.member)).meaning _
        (more_pinned (C.grammar (C.state m.others.others.others.others.member)).meaning _
        (more_pinned (B.grammar (B.state m.others.others.others.others.others.member)).meaning _
        (one_pinned (A.grammar (A.state m.others.others.others.others.others.others.member)).meaning _
        (A.pinned m.others.others.others.others.others.others.member)) (B.pinned m.others.others.others.others.others.member))
        (C.pinned m.others.others.others.others.member)) (D.pinned m.others.others.others.member)) (E.pinned m.others.others.member))
        (F.pinned m.others.member)) (G.pinned m.member))
        (λ v. (v.0.0.0.0.0.0, v.0.0.0.0.0.1, v.0.0.0.0.1, v.0.0.0.1, v.0.0.1, v.0.1, v.1))
        (λ o. ((((((record { member = o.0 }, o.1), o.2), o.3), o.4), o.5), o.6)) (λ _. refl)).pinned k h };

    ghost steady = { λ s k. once_each_steady I.lawful A.Error.errors (⟦<Seven<A, B, C, D, E, F, G> as Nested<I>>⟧.members s)
        ((more_stream _ (more_stream _ (more_stream _ (more_stream _ (more_stream _ (more_stream _ (one_stream _ (A.steady s.0.0.0.0.0.0))
        (B.steady s.0.0.0.0.0.1)) (C.steady s.0.0.0.0.1)) (D.steady s.0.0.0.1)) (E.steady s.0.0.1)) (F.steady s.0.1)) (G.steady s.1)).steady k)
        ⟦<Seven<A, B, C, D, E, F, G> as Nested<I>>⟧.none };
}

impl<
    I: Items,
    A: Parser<I>,
    B: Parser<I, Error = A::Error>,
    C: Parser<I, Error = A::Error>,
    D: Parser<I, Error = A::Error>,
    E: Parser<I, Error = A::Error>,
    F: Parser<I, Error = A::Error>,
    G: Parser<I, Error = A::Error>,
    H: Parser<I, Error = A::Error>,
> Parser<I> for OnceEach<Eight<A, B, C, D, E, F, G, H>> {
    ghost use Rattle.nom_branch.specs.laws.NestedLaws.{one_good, more_good};
    ghost use Rattle.nom_branch.specs.laws.PermutationLaws.{once_each_lawful};

    type Output = (
        A::Output,
        B::Output,
        C::Output,
        D::Output,
        E::Output,
        F::Output,
        G::Output,
        H::Output,
    );

    type Error = A::Error;

    ghost State = { ⟦<Eight<A, B, C, D, E, F, G, H> as Nested<I>>⟧.State };

    ghost state = { λ p. ⟦<Eight<A, B, C, D, E, F, G, H> as Nested<I>>⟧.state p.members };

    // The members' trees.
    ghost Tree = { ⟦<Eight<A, B, C, D, E, F, G, H> as Nested<I>>⟧.Tree };

    ghost grammar = { λ s. once_each_of I.model A.Error.errors (⟦<Eight<A, B, C, D, E, F, G, H> as Nested<I>>⟧.members s)
        ⟦<Eight<A, B, C, D, E, F, G, H> as Nested<I>>⟧.none (⟦<Eight<A, B, C, D, E, F, G, H> as Nested<I>>⟧.AreOutputs s)
        (λ o. (((((((record { member = o.0 }, o.1), o.2), o.3), o.4), o.5), o.6), o.7)) };

    ghost word = { λ s. Words.permutation_of I.model A.Error.errors (λ o. (((((((record { member = o.0 }, o.1), o.2), o.3), o.4), o.5), o.6), o.7))
        (⟦<Eight<A, B, C, D, E, F, G, H> as Nested<I>>⟧.word s) };

    ghost worded = { λ s. Words.permutation_worded I.model A.Error.errors (λ o. (((((((record { member = o.0 }, o.1), o.2), o.3), o.4), o.5), o.6), o.7))
        (⟦<Eight<A, B, C, D, E, F, G, H> as Nested<I>>⟧.worded s) };

    #[inline(always)]
    fn process<OM: OutputMode>(&mut self, input: I) -> PResult<I, Self::Output, Self::Error> {
        rounds::<I, Eight<A, B, C, D, E, F, G, H>, OM>(&mut self.members, input)
    }

    ghost lawful = { λ s k. once_each_lawful I.lawful A.Error.errors (⟦<Eight<A, B, C, D, E, F, G, H> as Nested<I>>⟧.members s)
        ((more_good _ (more_good _ (more_good _ (more_good _ (more_good _ (more_good _ (more_good _ (one_good _ (A.lawful s.0.0.0.0.0.0.0))
        (B.lawful s.0.0.0.0.0.0.1)) (C.lawful s.0.0.0.0.0.1)) (D.lawful s.0.0.0.0.1)) (E.lawful s.0.0.0.1)) (F.lawful s.0.0.1)) (G.lawful s.0.1))
        (H.lawful s.1)).lawful k)
        ⟦<Eight<A, B, C, D, E, F, G, H> as Nested<I>>⟧.none };
}

impl<
    I: Items,
    A: StreamParser<I>,
    B: StreamParser<I, Error = A::Error>,
    C: StreamParser<I, Error = A::Error>,
    D: StreamParser<I, Error = A::Error>,
    E: StreamParser<I, Error = A::Error>,
    F: StreamParser<I, Error = A::Error>,
    G: StreamParser<I, Error = A::Error>,
    H: StreamParser<I, Error = A::Error>,
> StreamParser<I> for OnceEach<Eight<A, B, C, D, E, F, G, H>> {
    ghost use Rattle.nom_branch.specs.laws.NestedLaws.{flat_members_pinned, one_pinned, more_pinned, one_stream, more_stream};
    ghost use Rattle.nom_branch.specs.laws.PermutationLaws.{once_each_steady};

    ghost Pins = { λ p. let m = p.members in
        ((((((A.Pins m.others.others.others.others.others.others.others.member × B.Pins m.others.others.others.others.others.others.member)
        × C.Pins m.others.others.others.others.others.member) × D.Pins m.others.others.others.others.member) × E.Pins m.others.others.others.member)
        × F.Pins m.others.others.member) × G.Pins m.others.member) × H.Pins m.member };

    ghost pinned = { λ p k h. let m = p.members in (flat_members_pinned
        (more_pinned (H.grammar (H.state m.member)).meaning _
        (more_pinned (G.grammar (G.state m.others.member)).meaning _
        (more_pinned (F.grammar (F.state m.others.others.member)).meaning _
        (more_pinned (E.grammar (E.state m.others.others.others.member)).meaning _
        (more_pinned (D.grammar (D.state m.others.others.others.others.member)).meaning _
        (more_pinned (C.grammar (C.state m.others.others.others.others.others.member)).meaning _
        (more_pinned (B.grammar (B.state m.others.others.others.others.others.others.member)).meaning _
        (one_pinned (A.grammar (A.state m.others.others.others.others.others.others.others.member)).meaning _
        (A.pinned m.others.others.others.others.others.others.others.member)) (B.pinned m.others.others.others.others.others.others.member))
        (C.pinned m.others.others.others.others.others.member)) (D.pinned m.others.others.others.others.member))
        (E.pinned m.others.others.others.member)) (F.pinned m.others.others.member)) (G.pinned m.others.member)) (H.pinned m.member))
        (λ v. (v.0.0.0.0.0.0.0, v.0.0.0.0.0.0.1, v.0.0.0.0.0.1, v.0.0.0.0.1, v.0.0.0.1, v.0.0.1, v.0.1, v.1))
        (λ o. (((((((record { member = o.0 }, o.1), o.2), o.3), o.4), o.5), o.6), o.7)) (λ _. refl)).pinned k h };

    ghost steady = { λ s k. once_each_steady I.lawful A.Error.errors (⟦<Eight<A, B, C, D, E, F, G, H> as Nested<I>>⟧.members s)
        ((more_stream _ (more_stream _ (more_stream _ (more_stream _ (more_stream _ (more_stream _ (more_stream _ (one_stream _ (A.steady s.0.0.0.0.0.0.0))
        (B.steady s.0.0.0.0.0.0.1)) (C.steady s.0.0.0.0.0.1)) (D.steady s.0.0.0.0.1)) (E.steady s.0.0.0.1)) (F.steady s.0.0.1)) (G.steady s.0.1))
        (H.steady s.1)).steady k)
        ⟦<Eight<A, B, C, D, E, F, G, H> as Nested<I>>⟧.none };
}
