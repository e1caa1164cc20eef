//! Laws of the bounds of every range, for parsers that count items.
ghost use Rattle.std.specs.Prelude.{ℕ, ◌<◌, ◌≤◌, ◌↔◌};
ghost use Rattle.nom_values.specs.Ranges.{IsFrom, IsUpTo, IsInverted, fewest, most_items, IsAtMost, IsBelowMost};
ghost use Rattle.std.specs.declared.ops.Bound.{Bound};

/// States which counts are within a range, in terms of its minimum and its maximum.
///
/// A count reaches the lower bound if and only if it is at least the minimum. A count below the maximum is within the
/// upper bound, and one within the upper bound is at most the maximum. A range that isn't inverted allows its minimum.
pub fn ranges_are_counts()
    ensures from { (lower : Bound ℕ) (c : ℕ) → IsFrom lower c ↔ (fewest lower ≤ c) }
    ensures below { (upper : Bound ℕ) (c : ℕ) → IsBelowMost c (most_items upper) → IsUpTo upper c }
    ensures up_to { (upper : Bound ℕ) (c : ℕ) → IsUpTo upper c → IsAtMost c (most_items upper) }
    ensures allows { (lower upper : Bound ℕ) → (IsInverted lower upper → ⊥) → IsAtMost (fewest lower) (most_items upper) }
{}
