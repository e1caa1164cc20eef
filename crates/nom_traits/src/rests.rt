//! Rests found by their lengths.
ghost use Rattle.std.specs.Prelude.{◌≡◌, ℕ, length, MatchOption};
ghost use Rattle.nom_traits.specs.Cuts.{CutsAs, CutsNowhere};
ghost use Rattle.nom_traits.specs.Input.{IsSuffixOf};

use crate::input::{Input, Items};

/// An input that can be cut before a rest that is as long as another input.
pub trait CutRest: Items {
    /// Returns the rest that is as long as `left`, or `None` if there is no such rest.
    fn cut_rest(self, left: Self) -> Option<Self>
        ensures { MatchOption result (CutsNowhere Self.model self left) (λ j. (n : ℕ) × CutsAs Self.model self n left × IsSuffixOf Self.model self n j) };
}

/// An input that counts its items at once.
pub trait CountItems: Items {
    /// Returns the number of items.
    fn item_count(self) -> usize
        ensures { result ≡ length (Self.model.elements self) };
}

impl<'a> CutRest for &'a [u8] {
    #[inline(always)]
    fn cut_rest(self, left: Self) -> Option<Self> {
        let whole = self.len();
        let rest = left.len();
        if rest <= whole {
            Some(self.take_from(whole - rest))
        } else {
            None
        }
    }
}

impl CountItems for &[u8] {
    #[inline(always)]
    fn item_count(self) -> usize {
        self.len()
    }
}

impl<'a> CutRest for &'a str {
    #[inline(always)]
    fn cut_rest(self, left: Self) -> Option<Self> {
        self.known();
        left.known();
        let whole = self.len();
        let rest = left.len();
        if rest > whole {
            return None;
        }
        let place = whole - rest;
        if self.is_char_boundary(place) {
            Some(self.take_from(place))
        } else {
            None
        }
    }
}
