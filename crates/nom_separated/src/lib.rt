//! Repetition: lists of items with a separator between them.
#![tactic(auto)]

ghost use Rattle.std.specs.Prelude.{◌≡◌};

pub mod promises;
mod separated_lists;

pub use crate::separated_lists::{SeparatedList0, SeparatedList1};
use nom_sequence::preceded;
use std::alloc::Allocator;

/// Parses one or more items with separators between them, and returns the outputs in a `Vec` allocated in
/// `alloc`.
///
/// `separated_list1(alloc, tag(","), tag("a"))` on `"a,a;"` returns `["a", "a"]` and leaves `";"`.
///
/// The outputs of the separators aren't built. A refusal of the first item is passed on. A later refusal of a
/// separator, or of the item after it, ends the list successfully, before that separator. If a separator and
/// its item together consume nothing, they are refused with `SeparatedList`, at the separator.
#[inline(always)]
pub fn separated_list1<A: Allocator + Copy, G, F>(
    alloc: A,
    separator: G,
    parser: F,
) -> SeparatedList1<A, G, F>
    ensures alloc { result.alloc ≡ alloc }
    ensures separator { result.next.first ≡ separator }
    ensures parser { result.next.second ≡ parser }
{
    SeparatedList1 {
        alloc,
        next: preceded(separator, parser),
    }
}

/// Parses items with separators between them, and returns the outputs in a `Vec` allocated in `alloc`.
///
/// The outputs of the separators aren't built. If the first item is refused, the list is empty, and nothing
/// is consumed. Everything else is as with `separated_list1`.
#[inline(always)]
pub fn separated_list0<A: Allocator + Copy, G, F>(
    alloc: A,
    separator: G,
    parser: F,
) -> SeparatedList0<A, G, F>
    ensures alloc { result.alloc ≡ alloc }
    ensures separator { result.next.first ≡ separator }
    ensures parser { result.next.second ≡ parser }
{
    SeparatedList0 {
        alloc,
        next: preceded(separator, parser),
    }
}
