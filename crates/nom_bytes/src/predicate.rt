//! Tests for the items of a run.
ghost use Rattle.std.specs.Prelude.{◌≡◌, ◌↔◌, IsTrue, Bool, true, false, not};
ghost use Rattle.nom_traits.specs.Runs.{IsPosition};
ghost use Rattle.nom_bytes.specs.Predicates.{IsFixed, one_answer};
ghost use Rattle.nom_bytes.specs.Tests as Tests;
ghost use Rattle.nom_bytes.specs.Tests.{Test};

use nom_search::token::FindToken;
use nom_traits::character::CodeSet;
use nom_traits::input::{Input, Value};

/// A test of items: a closure, or a set of items.
pub trait Predicate<T: Value> {
    /// The part of the test that determines its answers.
    ghost State: { Type 0 };

    ghost state: { Self → State };

    /// The test's answer at an item: true if the item meets it.
    ghost answers: { State → T → Bool → Type 0 };

    /// The premise of a call: the test may be called at each item.
    ghost Runs: { State → Type 0 };

    /// The premise of the test's laws: it answers no item both true and false.
    ghost IsSound: { State → Type 0 };

    /// The test by a closed name, for the word of a parser that asks it.
    ghost word: { State → Test T };

    ghost worded: { (s : State) → word s ≡ record { answers = answers s; Runs = Runs s; IsSound = IsSound s } };

    /// Returns whether the item meets the test.
    fn meets(&self, item: T) -> bool
        requires { Runs (state self.now) }
        ensures { answers (state self.now) item result };

    /// Returns the place of the first item that doesn't meet the test, or `None` if all items meet it.
    #[inline(always)]
    fn end<I: Input<Item = T>>(&self, input: I) -> Option<usize>
        requires { Runs (state self.now) }
        ensures { IsPosition I.model (λ x. answers (state self.now) x true) (λ x. answers (state self.now) x false) input result }
    {
        let fails = |item: T| -> bool
            requires { Runs (state self.now) }
            ensures { answers (state self.entry.now) item (not result) }
        { !self.meets(item) };
        input.position(fails)
    }

    /// No item is answered both true and false.
    ghost fixed: { (s : State) → IsSound s → IsFixed T.IsValue (answers s) };
}

/// The test that an item meets if the closure returns true.
#[derive(Drop)]
pub struct Where<F> {
    pub test: F,
}

impl<T: Value, F: Fn(T) -> bool> Predicate<T> for Where<F> {
    ghost State = { F };

    ghost state = { λ p. p.test };

    ghost answers = { λ f. F.post f };

    ghost Runs = { λ f. (x : T) → F.pre f x };

    ghost IsSound = { λ f. IsFixed T.IsValue (F.post f) };

    ghost word = { λ f. Tests.passing T.IsValue (F.pre f) (F.post f) };

    ghost worded = { λ f. Tests.passing_worded T.IsValue (F.pre f) (F.post f) };

    #[inline(always)]
    fn meets(&self, item: T) -> bool {
        (self.test)(item)
    }

    ghost fixed = { λ f h. h };
}

/// The test that an item meets if the closure returns false.
#[derive(Drop)]
pub struct Unless<F> {
    pub test: F,
}

impl<T: Value, F: Fn(T) -> bool> Predicate<T> for Unless<F> {
    ghost State = { F };

    ghost state = { λ p. p.test };

    ghost answers = { λ f x b. F.post f x (not b) };

    ghost Runs = { λ f. (x : T) → F.pre f x };

    ghost IsSound = { λ f. IsFixed T.IsValue (F.post f) };

    ghost word = { λ f. Tests.failing T.IsValue (F.pre f) (F.post f) };

    ghost worded = { λ f. Tests.failing_worded T.IsValue (F.pre f) (F.post f) };

    #[inline(always)]
    fn meets(&self, item: T) -> bool {
        !(self.test)(item)
    }

    ghost fixed = { λ f h x v p q. h x v q p };
}

/// The test that an item meets if it is in the set.
#[derive(Drop)]
pub struct Within<L> {
    pub list: L,
}

impl<T: Value, L: FindToken<T>> Predicate<T> for Within<L> {
    ghost State = { L };

    ghost state = { λ p. p.list };

    ghost answers = { λ list item b. IsTrue b ↔ L.finds list item };

    ghost Runs = { λ _. Unit {0} };

    ghost IsSound = { λ _. Unit {0} };

    ghost word = { λ list. Tests.within (L.finds list) };

    ghost worded = { λ list. Tests.within_worded (L.finds list) };

    #[inline(always)]
    fn meets(&self, item: T) -> bool {
        self.list.find_token(item)
    }

    #[inline(always)]
    fn end<I: Input<Item = T>>(&self, input: I) -> Option<usize> {
        if let Some(list) = self.list.codes() {
            if let Some(end) = input.run_end(CodeSet::OneOf(list)) {
                return end;
            }
        }
        let is_outside = |item: T| -> bool
            ensures { IsTrue (not result) ↔ L.finds self.entry.now.list item }
        { !self.meets(item) };
        input.position(is_outside)
    }

    ghost fixed = { λ list h x v meets fails. one_answer meets fails };
}

/// The test that an item meets if it isn't in the set.
#[derive(Drop)]
pub struct Outside<L> {
    pub list: L,
}

impl<T: Value, L: FindToken<T>> Predicate<T> for Outside<L> {
    ghost State = { L };

    ghost state = { λ p. p.list };

    ghost answers = { λ list item b. IsTrue (not b) ↔ L.finds list item };

    ghost Runs = { λ _. Unit {0} };

    ghost IsSound = { λ _. Unit {0} };

    ghost word = { λ list. Tests.outside (L.finds list) };

    ghost worded = { λ list. Tests.outside_worded (L.finds list) };

    #[inline(always)]
    fn meets(&self, item: T) -> bool {
        !self.list.find_token(item)
    }

    #[inline(always)]
    fn end<I: Input<Item = T>>(&self, input: I) -> Option<usize> {
        if let Some(list) = self.list.codes() {
            if let Some(end) = input.run_end(CodeSet::NoneOf(list)) {
                return end;
            }
        }
        let is_inside = |item: T| -> bool
            ensures { IsTrue result ↔ L.finds self.entry.now.list item }
        { !self.meets(item) };
        input.position(is_inside)
    }

    ghost fixed = { λ list h x v meets fails. one_answer fails meets };
}
