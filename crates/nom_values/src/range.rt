//! Ranges of counts.
ghost use Rattle.std.specs.Prelude.{◌≡◌, ℕ, ◌+◌, ◌-◌, ◌^◌, ◌<◌, ◌≤◌, ◌⊎◌, ◌↔◌, IsTrue, true, false, Some};
ghost use Rattle.std.specs.Iterator.{IsFinite};
ghost use Rattle.std.specs.Range.{range_inclusive_start, range_inclusive_end, range_inclusive_exhausted};
ghost use Rattle.std.specs.Range.Bound.{bound_map};
ghost use Rattle.std.specs.declared.ops.Bound.{Bound};
ghost use Rattle.std.specs.declared.ops.Bound.TheVariants.{Included, Excluded, Unbounded};
ghost use Rattle.nom_values.specs.Ranges.{IsWithin, IsInverted, CountsTo, fewest, most_items, limit};

use crate::saturating::SaturatingIterator;
use nom_traits::convert::ToUsize;
use std::ops::{Bound, Range, RangeFrom, RangeFull, RangeInclusive, RangeTo, RangeToInclusive};

/// The number of items that is wanted: a range of counts, or one count.
///
/// `1..4` allows 1 to 3 items, and `3` allows exactly 3.
pub trait NomRange<Idx: ToUsize> {
    /// An iterator that counts up to the maximum, or without end if there is no upper bound.
    type Saturating: Iterator<Item = Idx>;

    /// An iterator that counts up to the maximum, which is at most `usize::MAX`.
    type Bounded: Iterator<Item = Idx>;

    /// The lower bound.
    ghost lower: { Self → Bound ℕ };

    /// The upper bound.
    ghost upper: { Self → Bound ℕ };

    /// The range was iterated to its end, and nothing is left of it.
    ghost IsSpent: { Self → Type 0 } = { λ _. ⊥ };

    /// Returns the two bounds. The minimum fits in a `usize`.
    fn bounds(&self) -> (Bound<Idx>, Bound<Idx>)
        ensures lower { bound_map Idx.size result.0 ≡ lower self.now }
        ensures upper { bound_map Idx.size result.1 ≡ upper self.now }
        ensures fits { fewest (lower self.now) < 2 ^ 64 };

    /// Returns whether the range contains a count.
    fn contains(&self, item: &Idx) -> bool
        ensures { IsTrue result ↔ ((IsSpent self.now → ⊥) × IsWithin (lower self.now) (upper self.now) (Idx.size item.now)) };

    /// Returns whether the range has two bounds and nothing between them.
    fn is_inverted(&self) -> bool
        ensures { IsTrue result ↔ (IsSpent self.now ⊎ IsInverted (lower self.now) (upper self.now)) };

    /// Counts from 0 up to, not including, the maximum. Without an upper bound it stays at `usize::MAX`.
    fn saturating_iter(&self) -> Self::Saturating
        ensures ready { Self.Saturating.can_next result }
        ensures counts { CountsTo Self.Saturating.next_gives Idx.size (most_items (upper self.now)) result };

    /// Counts from 0 up to, not including, the maximum, which is `usize::MAX` without an upper bound.
    fn bounded_iter(&self) -> Self::Bounded
        ensures ready { Self.Bounded.can_next result }
        ensures ends { IsFinite (Self.Bounded.remaining result) }
        ensures counts { CountsTo Self.Bounded.next_gives Idx.size (Some (limit (most_items (upper self.now)))) result };
}

impl NomRange<usize> for Range<usize> {
    type Saturating = Range<usize>;

    type Bounded = Range<usize>;

    ghost lower = { λ r. Included r.start };

    ghost upper = { λ r. Excluded r.end };

    #[inline(always)]
    fn bounds(&self) -> (Bound<usize>, Bound<usize>) {
        (
            Bound::Included(known(self.start)),
            Bound::Excluded(self.end),
        )
    }

    #[inline(always)]
    fn contains(&self, item: &usize) -> bool {
        self.start <= *item && *item < self.end
    }

    #[inline(always)]
    fn is_inverted(&self) -> bool {
        self.end <= self.start
    }

    #[inline(always)]
    fn saturating_iter(&self) -> Range<usize> {
        before(self.end)
    }

    #[inline(always)]
    fn bounded_iter(&self) -> Range<usize> {
        before(self.end)
    }
}

impl NomRange<usize> for RangeInclusive<usize> {
    type Saturating = Range<usize>;

    type Bounded = Range<usize>;

    ghost lower = { λ r. Included (range_inclusive_start r) };

    ghost upper = { λ r. Included (range_inclusive_end r) };

    ghost IsSpent = { λ r. range_inclusive_exhausted r ≡ true };

    #[inline(always)]
    fn bounds(&self) -> (Bound<usize>, Bound<usize>) {
        (Bound::Included(*self.start()), Bound::Included(*self.end()))
    }

    #[inline(always)]
    fn contains(&self, item: &usize) -> bool {
        !self.is_empty() && *self.start() <= *item && *item <= *self.end()
    }

    #[inline(always)]
    fn is_inverted(&self) -> bool {
        self.is_empty()
    }

    #[inline(always)]
    fn saturating_iter(&self) -> Range<usize> {
        through(self)
    }

    #[inline(always)]
    fn bounded_iter(&self) -> Range<usize> {
        through(self)
    }
}

impl NomRange<usize> for RangeFrom<usize> {
    type Saturating = SaturatingIterator;

    type Bounded = Range<usize>;

    ghost lower = { λ r. Included r.start };

    ghost upper = { λ _. Unbounded };

    #[inline(always)]
    fn bounds(&self) -> (Bound<usize>, Bound<usize>) {
        (Bound::Included(known(self.start)), Bound::Unbounded)
    }

    #[inline(always)]
    fn contains(&self, item: &usize) -> bool {
        self.start <= *item
    }

    #[inline(always)]
    fn is_inverted(&self) -> bool {
        false
    }

    #[inline(always)]
    fn saturating_iter(&self) -> SaturatingIterator {
        endless()
    }

    #[inline(always)]
    fn bounded_iter(&self) -> Range<usize> {
        up_to(usize::MAX)
    }
}

impl NomRange<usize> for RangeFull {
    type Saturating = SaturatingIterator;

    type Bounded = Range<usize>;

    ghost lower = { λ _. Unbounded };

    ghost upper = { λ _. Unbounded };

    #[inline(always)]
    fn bounds(&self) -> (Bound<usize>, Bound<usize>) {
        (Bound::Unbounded, Bound::Unbounded)
    }

    #[inline(always)]
    fn contains(&self, _item: &usize) -> bool {
        true
    }

    #[inline(always)]
    fn is_inverted(&self) -> bool {
        false
    }

    #[inline(always)]
    fn saturating_iter(&self) -> SaturatingIterator {
        endless()
    }

    #[inline(always)]
    fn bounded_iter(&self) -> Range<usize> {
        up_to(usize::MAX)
    }
}

impl NomRange<usize> for RangeTo<usize> {
    type Saturating = Range<usize>;

    type Bounded = Range<usize>;

    ghost lower = { λ _. Unbounded };

    ghost upper = { λ r. Excluded r.end };

    #[inline(always)]
    fn bounds(&self) -> (Bound<usize>, Bound<usize>) {
        (Bound::Unbounded, Bound::Excluded(self.end))
    }

    #[inline(always)]
    fn contains(&self, item: &usize) -> bool {
        *item < self.end
    }

    #[inline(always)]
    fn is_inverted(&self) -> bool {
        false
    }

    #[inline(always)]
    fn saturating_iter(&self) -> Range<usize> {
        before(self.end)
    }

    #[inline(always)]
    fn bounded_iter(&self) -> Range<usize> {
        before(self.end)
    }
}

impl NomRange<usize> for RangeToInclusive<usize> {
    type Saturating = Range<usize>;

    type Bounded = Range<usize>;

    ghost lower = { λ _. Unbounded };

    ghost upper = { λ r. Included r.end };

    #[inline(always)]
    fn bounds(&self) -> (Bound<usize>, Bound<usize>) {
        (Bound::Unbounded, Bound::Included(self.end))
    }

    #[inline(always)]
    fn contains(&self, item: &usize) -> bool {
        *item <= self.end
    }

    #[inline(always)]
    fn is_inverted(&self) -> bool {
        false
    }

    #[inline(always)]
    fn saturating_iter(&self) -> Range<usize> {
        up_to(self.end)
    }

    #[inline(always)]
    fn bounded_iter(&self) -> Range<usize> {
        up_to(self.end)
    }
}

/// Allows one count, and no other.
impl NomRange<usize> for usize {
    type Saturating = Range<usize>;

    type Bounded = Range<usize>;

    ghost lower = { λ n. Included n };

    ghost upper = { λ n. Included n };

    #[inline(always)]
    fn bounds(&self) -> (Bound<usize>, Bound<usize>) {
        (Bound::Included(*self), Bound::Included(*self))
    }

    #[inline(always)]
    fn contains(&self, item: &usize) -> bool {
        *self == *item
    }

    #[inline(always)]
    fn is_inverted(&self) -> bool {
        false
    }

    #[inline(always)]
    fn saturating_iter(&self) -> Range<usize> {
        up_to(*self)
    }

    #[inline(always)]
    fn bounded_iter(&self) -> Range<usize> {
        up_to(*self)
    }
}

/// Returns the counts from 0 up to, not including, `most`.
#[inline(always)]
fn up_to(most: usize) -> Range<usize>
    ensures { CountsTo ⟦<Range<usize> as Iterator>⟧.next_gives (λ n. n) (Some most) result }
{
    0..most
}

/// Returns the counts from 0 on, without end.
#[inline(always)]
fn endless() -> SaturatingIterator
    ensures { CountsTo ⟦<SaturatingIterator as Iterator>⟧.next_gives (λ n. n) None result }
{
    SaturatingIterator { count: 0 }
}

/// Returns the counts from 0 up to, not including, the last one before `end`.
#[inline(always)]
fn before(end: usize) -> Range<usize>
    ensures { CountsTo ⟦<Range<usize> as Iterator>⟧.next_gives (λ n. n) (Some (end - 1)) result }
{
    up_to(end.saturating_sub(1))
}

/// Returns the counts from 0 up to, not including, the last one of the range.
#[inline(always)]
fn through(range: &RangeInclusive<usize>) -> Range<usize>
    ensures { CountsTo ⟦<Range<usize> as Iterator>⟧.next_gives (λ n. n) (Some (range_inclusive_end range.now)) result }
{
    up_to(*range.end())
}

/// Returns `n` unchanged. A number behind a reference isn't known to fit.
#[inline(always)]
fn known(n: usize) -> usize
    ensures same { result ≡ n }
    ensures fits { n < 2 ^ 64 }
{
    n
}
