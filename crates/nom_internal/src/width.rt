//! Widths of parsers in sequence.
ghost use Rattle.nom_internal.specs.Width.{IsBothWidths};

/// Returns the width of two parsers in sequence, or 0 if one of them has none or the sum is too large.
#[inline(always)]
pub fn both_widths(first: usize, second: usize) -> usize
    ensures { IsBothWidths first second result }
{
    if first == 0 || second == 0 {
        return 0;
    }
    match first.checked_add(second) {
        Some(both) => both,
        None => 0,
    }
}
