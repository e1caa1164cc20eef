//! The distance of one input in another.
ghost use Rattle.std.specs.Prelude.{ℕ};
ghost use Rattle.nom_traits.specs.Input.{IsSuffixOf};

use crate::input::Items;

/// An input that shows where a rest of it begins.
pub trait Offset: Items {
    /// Returns the length of the items before `second`, which is a rest of this input.
    fn offset(&self, second: &Self) -> usize
        requires { (n : ℕ) × IsSuffixOf Self.model self.now n second.now }
        ensures { IsSuffixOf Self.model self.now result second.now };
}

impl Offset for &[u8] {
    #[inline(always)]
    fn offset(&self, second: &Self) -> usize {
        self.len() - second.len()
    }
}
