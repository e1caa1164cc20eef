//! The nested members of a permutation: a first one, or several and one more after them.
ghost use Rattle.std.specs.Prelude.{◌≡◌, ◌+◌, ◌∷◌, [], ℕ, Bool, List, Option, Some, None, length};
ghost use Rattle.nom_internal.specs.Prelude.{Built, modes};
ghost use Rattle.nom_branch.specs.Members.{Member, AllRun, IsOver, member, tried, with_last};
ghost use Rattle.nom_branch.specs.PermutationWords as Words;
ghost use Rattle.nom_branch.specs.PermutationWords.{Several};
ghost use Rattle.nom_branch.specs.laws.NestedLaws.{AreGood};
ghost use Rattle.nom_branch.specs.Rounds.{HasTried, SlotHolds, IsApplied, applies, waits};

use crate::nest::More;
use nom_choose::slots::{Round, Slot, taken, try_slot};
use nom_error::mode::OutputMode;
use nom_error::value::ParseError;
use nom_internal::flat::One;
use nom_internal::parser::Parser;
use nom_traits::input::Items;

/// Nested members, and the steps of a round on them.
pub trait Nested<I: Items>: Sized {
    /// The members' places.
    type Slots;

    type Outputs;

    type Error: ParseError<I>;

    /// The part of the members on which their meaning depends.
    ghost State: { Type 0 };

    ghost state: { Self → State };

    /// The trees of the applied members.
    ghost Tree: { Type 0 };

    /// The tree in which no member is applied.
    ghost none: { Tree };

    ghost members: { State → List (Member I Tree Self.Error) };

    /// The places hold the outputs of the trees, if outputs are built.
    ghost AreHeld: { Bool → State → Tree → Self.Slots → Type 0 };

    /// The number of places that wait.
    ghost waiting: { Self.Slots → ℕ };

    ghost AreOutputs: { State → Tree → Self.Outputs → Type 0 };

    /// The word of the members. `Parser.word` of a permutation is built of it.
    ghost word: { State → Several I Self.Outputs Self.Error };

    ghost worded: { (s : State) → word s ≡ record { Tree = Tree; none = none; members = members s; AreOutputs = AreOutputs s } };

    /// Returns places that all wait.
    fn slots() -> Self::Slots
        ensures held { (outputs : Bool) (s : State) → AreHeld outputs s none result }
        ensures all { (s : State) → waiting result ≡ length (members s) };

    /// Runs the first member that isn't applied and doesn't refuse. Returns `None` if all are applied.
    fn round<OM: OutputMode>(
        &mut self,
        slots: &mut Self::Slots,
        input: I,
    ) -> Option<Round<I, Self::Error>>
        requires { AllRun (members (state self.old)) }
        ensures shown { (t : Tree) → AreHeld OM.Output.BUILDS (state self.old) t slots.old →
            HasTried I.model (modes OM.Output.BUILDS OM.Error.BUILDS OM.Incomplete.STREAMING) input
            (λ u. AreHeld OM.Output.BUILDS (state self.old) u slots.new) t
            (tried Self.Error.errors.joined Self.Error.errors.grows (members (state self.old)) t) result }
        ensures counted { waiting slots.new + applies result ≡ waiting slots.old }
        ensures kept { state self.new ≡ state self.old };

    /// Combines the outputs.
    fn outputs(slots: Self::Slots) -> Option<Self::Outputs>
        ensures { (outputs : Bool) (s : State) (t : Tree) → AreHeld outputs s t slots →
            IsOver (tried Self.Error.errors.joined Self.Error.errors.grows (members s) t) → Built outputs (AreOutputs s t) result };

    /// Drops the places.
    fn discard(slots: Self::Slots);

    /// If no place waits, no member is tried.
    ghost over: { (outputs : Bool) (s : State) (t : Tree) (slots : Self.Slots) → AreHeld outputs s t slots → waiting slots ≡ 0 →
        IsOver (tried Self.Error.errors.joined Self.Error.errors.grows (members s) t) };

    /// The members are lawful. `none` applies no member, and each application leaves one fewer unapplied
    /// member.
    ghost good: { (s : State) → AreGood I.model (members s) none };
}

impl<I: Items, A: Parser<I>> Nested<I> for One<A> {
    ghost use Rattle.nom_branch.specs.laws.NestedLaws.{one_good};
    ghost use Rattle.nom_branch.specs.laws.RoundLaws.{first_over};

    type Slots = Slot<A::Output>;

    type Outputs = One<A::Output>;

    type Error = A::Error;

    ghost State = { A.State };

    ghost state = { λ p. A.state p.member };

    ghost Tree = { Option A.Tree };

    ghost none = { None };

    ghost members = { λ s. member (A.grammar s).meaning (λ t. t) (λ _ v. Some v) ∷ [] };

    ghost AreHeld = { λ outputs s t slot. SlotHolds outputs (A.grammar s).IsOutput t slot };

    ghost waiting = { waits };

    ghost AreOutputs = { λ s t o. IsApplied (A.grammar s).IsOutput t o.member };

    ghost word = { λ s. Words.first_of (A.word s) };

    ghost worded = { λ s. Words.first_worded (A.worded s) };

    #[inline(always)]
    fn slots() -> Self::Slots {
        Slot::Waiting
    }

    #[inline(always)]
    fn round<OM: OutputMode>(
        &mut self,
        slots: &mut Self::Slots,
        input: I,
    ) -> Option<Round<I, Self::Error>> {
        try_slot::<I, A, OM>(None, slots, &mut self.member, input)
    }

    #[inline(always)]
    fn outputs(slots: Self::Slots) -> Option<Self::Outputs> {
        match taken(slots) {
            Some(member) => Some(One { member }),
            None => None,
        }
    }

    #[inline(always)]
    fn discard(_slots: Self::Slots) {}

    ghost over = { λ outputs s t slot h z. first_over A.Error.errors.joined A.Error.errors.grows (A.grammar s).meaning (λ v. Some v) outputs
        (A.grammar s).IsOutput
        t slot h z };

    ghost good = { λ s. one_good (A.grammar s).meaning (A.lawful s) };
}

impl<I: Items, M: Nested<I>, A: Parser<I, Error = M::Error>> Nested<I> for More<M, A> {
    ghost use Rattle.nom_branch.specs.laws.NestedLaws.{last_over, more_good};

    type Slots = (M::Slots, Slot<A::Output>);

    type Outputs = (M::Outputs, A::Output);

    type Error = M::Error;

    ghost State = { M.State × A.State };

    ghost state = { λ p. (M.state p.others, A.state p.member) };

    ghost Tree = { M.Tree × Option A.Tree };

    ghost none = { (M.none, None) };

    ghost members = { λ s. with_last (M.members s.0) (A.grammar s.1).meaning };

    ghost AreHeld = { λ outputs s t slots. M.AreHeld outputs s.0 t.0 slots.0 × SlotHolds outputs (A.grammar s.1).IsOutput t.1 slots.1 };

    ghost waiting = { λ slots. M.waiting slots.0 + waits slots.1 };

    ghost AreOutputs = { λ s t o. M.AreOutputs s.0 t.0 o.0 × IsApplied (A.grammar s.1).IsOutput t.1 o.1 };

    ghost word = { λ s. Words.more_of (M.word s.0) (A.word s.1) };

    ghost worded = { λ s. Words.more_worded (M.worded s.0) (A.worded s.1) };

    #[inline(always)]
    fn slots() -> Self::Slots {
        (M::slots(), Slot::Waiting)
    }

    #[inline(always)]
    fn round<OM: OutputMode>(
        &mut self,
        slots: &mut Self::Slots,
        input: I,
    ) -> Option<Round<I, Self::Error>> {
        let round = self.others.round::<OM>(&mut slots.0, input);
        try_slot::<I, A, OM>(round, &mut slots.1, &mut self.member, input)
    }

    #[inline(always)]
    fn outputs(slots: Self::Slots) -> Option<Self::Outputs> {
        let (others, last) = slots;
        match taken(last) {
            Some(last) => match M::outputs(others) {
                Some(others) => Some((others, last)),
                None => None,
            },
            None => {
                M::discard(others);
                None
            }
        }
    }

    #[inline(always)]
    fn discard(slots: Self::Slots) {
        let (others, _last) = slots;
        M::discard(others);
    }

    ghost over = { λ outputs s t slots h z. last_over M.Error.errors.joined M.Error.errors.grows (A.grammar s.1).meaning t outputs (A.grammar s.1).IsOutput
        (M.waiting slots.0) slots.1 (M.members s.0) (λ k. M.over outputs s.0 t.0 slots.0 h.0 k) h.1 z };

    ghost good = { λ s. more_good (A.grammar s.1).meaning (M.good s.0) (A.lawful s.1) };
}
