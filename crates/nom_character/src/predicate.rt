//! Tests for the characters of items.
ghost use Rattle.std.specs.Prelude.{ℕ, ◌≡◌, ◌==◌, ◌↔◌, IsTrue, true, not};
ghost use Rattle.nom_bytes.specs.Predicates.{IsFixed, one_answer};
ghost use Rattle.nom_character.specs.Tests as Tests;
ghost use Rattle.nom_character_first.specs.laws.FirstItemLaws.{test_is_fixed};

use nom_bytes::predicate::Predicate;
use nom_search::token::FindToken;
use nom_traits::character::AsChar;

/// The test that an item meets if the closure returns true at its character.
#[derive(Drop)]
pub struct CharWhere<F> {
    pub test: F,
}

impl<T: AsChar, F: Fn(char) -> bool> Predicate<T> for CharWhere<F> {
    ghost State = { F };

    ghost state = { λ p. p.test };

    ghost answers = { λ f x. F.post f (T.code x) };

    ghost Runs = { λ f. (c : _) → F.pre f c };

    ghost IsSound = { λ f. IsFixed T.IsValue (λ x. F.post f (T.code x)) };

    ghost word = { λ f. Tests.char_passing T.code T.IsValue (F.pre f) (F.post f) };

    ghost worded = { λ f. Tests.char_passing_worded T.code T.IsValue (F.pre f) (F.post f) };

    #[inline(always)]
    fn meets(&self, item: T) -> bool {
        (self.test)(item.as_char())
    }

    ghost fixed = { λ f h. h };
}

/// The test that an item meets if its character is in the set.
#[derive(Drop)]
pub struct CharWithin<L> {
    pub list: L,
}

impl<T: AsChar, L: FindToken<char>> Predicate<T> for CharWithin<L> {
    ghost State = { L };

    ghost state = { λ p. p.list };

    ghost answers = { λ list x b. IsTrue b ↔ L.finds list (T.code x) };

    ghost Runs = { λ _. Unit {0} };

    ghost IsSound = { λ _. Unit {0} };

    ghost word = { λ list. Tests.char_within T.code (L.finds list) };

    ghost worded = { λ list. Tests.char_within_worded T.code (L.finds list) };

    #[inline(always)]
    fn meets(&self, item: T) -> bool {
        self.list.find_token(item.as_char())
    }

    ghost fixed = { λ list h x v meets fails. one_answer meets fails };
}

/// The test that an item meets if its character isn't in the set.
#[derive(Drop)]
pub struct CharOutside<L> {
    pub list: L,
}

impl<T: AsChar, L: FindToken<char>> Predicate<T> for CharOutside<L> {
    ghost State = { L };

    ghost state = { λ p. p.list };

    ghost answers = { λ list x b. IsTrue (not b) ↔ L.finds list (T.code x) };

    ghost Runs = { λ _. Unit {0} };

    ghost IsSound = { λ _. Unit {0} };

    ghost word = { λ list. Tests.char_outside T.code (L.finds list) };

    ghost worded = { λ list. Tests.char_outside_worded T.code (L.finds list) };

    #[inline(always)]
    fn meets(&self, item: T) -> bool {
        !self.list.find_token(item.as_char())
    }

    ghost fixed = { λ list h x v meets fails. one_answer fails meets };
}

/// The test that an item meets if it is the expected character.
#[derive(Drop)]
pub struct Is {
    pub wanted: char,
}

impl<T: AsChar> Predicate<T> for Is {
    ghost State = { ℕ };

    ghost state = { λ p. p.wanted };

    ghost answers = { λ wanted x b. b ≡ (T.code x == wanted) };

    ghost Runs = { λ _. Unit {0} };

    ghost IsSound = { λ _. Unit {0} };

    ghost word = { λ wanted. Tests.char_is T.code wanted };

    ghost worded = { λ wanted. Tests.char_is_worded T.code wanted };

    #[inline(always)]
    fn meets(&self, item: T) -> bool {
        item.as_char() == self.wanted
    }

    ghost fixed = { λ wanted h. test_is_fixed T.IsValue (λ x. T.code x == wanted) };
}

/// The test that every item meets.
#[derive(Drop)]
pub struct Any;

impl<T: AsChar> Predicate<T> for Any {
    ghost State = { Unit {0} };

    ghost state = { λ _. tt };

    ghost answers = { λ _ x b. b ≡ true };

    ghost Runs = { λ _. Unit {0} };

    ghost IsSound = { λ _. Unit {0} };

    ghost word = { λ _. Tests.any_item };

    ghost worded = { λ _. Tests.any_item_worded };

    #[inline(always)]
    fn meets(&self, _item: T) -> bool {
        true
    }

    ghost fixed = { λ _ h. test_is_fixed T.IsValue (λ x. true) };
}
