//! Choice and permutation: the first of several parsers that doesn't refuse, and each of several once, in any
//! order.
#![tactic(auto)]

ghost use Rattle.std.specs.Prelude.{◌≡◌};

mod choice;
mod lists;
mod members;
mod narrow_permutations;
mod nest;
mod permutations;
pub mod promises;
mod rounds;
mod tuples;
mod wide;
mod wide_permutations;
mod widest;

pub use crate::choice::Choice;
pub use crate::members::Nested;
pub use crate::nest::{More, Nests};
pub use crate::permutations::{OnceEach, Permutation};
pub use nom_internal::flat::{Flat, One};

/// Tries the parsers in `list` in order, and returns the answer of the first that doesn't refuse.
///
/// No later parser is tried. `alt((tag("a"), tag("b")))` on `"bc"` returns `"b"` and leaves `"c"`.
///
/// The list is a tuple of one to eight parsers. It can also be an array or a slice of parsers of one type, as
/// in `alt(&mut parsers[..])`. Nest choices for more than eight types.
///
/// If all parsers refuse, the choice refuses. Their errors are joined by `or` from left to right, and
/// `append` closes the result with `Alt` at the start. A tuple of one parser is that parser, and its errors
/// aren't closed. An array or a slice without parsers refuses with `Alt`.
#[inline(always)]
pub fn alt<List>(list: List) -> Choice<List>
    ensures { result ≡ record { parsers = list } }
{
    Choice { parsers: list }
}

/// Runs each parser in `list` once, in any order, and returns their outputs in the order of the list.
///
/// `permutation((tag("a"), tag("b")))` on `"bac"` returns `("a", "b")` and leaves `"c"`.
///
/// Each round runs the remaining parsers in order, until one doesn't refuse. The next round starts on the
/// rest. If all remaining parsers refuse, the permutation refuses. Their errors are joined by `or` from left
/// to right, and `append` closes the result with `Permutation` where that round started.
#[inline(always)]
pub fn permutation<List: Nests>(list: List) -> Permutation<List>
    ensures { result.members ≡ List.nested list }
{
    OnceEach {
        members: list.nested(),
    }
}
