//! The bounds of a range, as numbers.
ghost use Rattle.std.specs.Prelude.{◌≡◌};
ghost use Rattle.nom_values.specs.Ranges.{fewest, most_items, limit};

use crate::range::NomRange;
use std::ops::Bound;

/// Returns the minimum number of items that the range allows.
#[inline(always)]
pub fn least<R: NomRange<usize>>(range: &R) -> usize
    ensures { result ≡ fewest (R.lower range.now) }
{
    let (lower, _) = range.bounds();
    match lower {
        Bound::Included(fewest) => fewest,
        Bound::Excluded(below) => below + 1,
        Bound::Unbounded => 0,
    }
}

/// Returns the maximum number of items that the range allows, or `usize::MAX` if it has no upper bound.
#[inline(always)]
pub fn most<R: NomRange<usize>>(range: &R) -> usize
    ensures { result ≡ limit (most_items (R.upper range.now)) }
{
    let (_, upper) = range.bounds();
    match upper {
        Bound::Included(most) => most,
        Bound::Excluded(above) => above.saturating_sub(1),
        Bound::Unbounded => usize::MAX,
    }
}
