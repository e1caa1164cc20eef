//! Inputs whose places can be compared.
ghost use Rattle.std.specs.Prelude.{◌≡◌, ℕ, ◌+◌};
ghost use Rattle.nom_traits.specs.Input.{IsSuffixOf};
ghost use Rattle.nom_report.specs.Left.{slice_place};
ghost use Rattle.nom_report.specs.laws.Places.{bytes_rests, text_rests};

use nom_traits::input::Items;

/// An input that knows its place.
///
/// Only differences between places are meaningful. The place of a rest is greater than that of the input by
/// the length of the items before the rest.
///
/// The place of bytes and of a text follows from the length that is left. Of two rests of one input, the
/// shorter one is therefore further. A piece that is cut out of an input, for example by `and_then` or
/// `length_value`, ends before it. Places in such a piece seem further than they are. A `Located` knows its
/// true place.
pub trait Placed: Items {
    ghost place: { Self → ℕ };

    /// Returns the place of the input. A greater place is a further one.
    fn place(&self) -> usize
        ensures { result ≡ place self.now };

    /// A rest is further by the length of the items before it.
    ghost rests: { (i j : Self) (n : ℕ) → Self.model.IsKnown i → IsSuffixOf Self.model i n j → place j ≡ place i + n };
}

// A slice is shorter than this.
const LONGEST: usize = 0x8000_0000_0000_0000;

impl Placed for &[u8] {
    ghost place = { slice_place };

    #[inline(always)]
    fn place(&self) -> usize {
        LONGEST - self.len()
    }

    ghost rests = { bytes_rests };
}

impl Placed for &str {
    ghost place = { slice_place };

    #[inline(always)]
    fn place(&self) -> usize {
        LONGEST - self.len()
    }

    ghost rests = { text_rests };
}
