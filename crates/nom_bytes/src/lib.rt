//! Parsers of items: tags, slices and runs.
#![tactic(auto)]

ghost use Rattle.std.specs.Prelude.{◌≡◌};

mod bounded;
pub mod complete;
mod leaf;
mod no_case;
pub mod predicate;
mod run;
mod run_of_one;
pub mod streaming;
mod until;

pub use crate::bounded::{TakeWhileMN, take_while_m_n};
pub use crate::leaf::{Tag, Take};
pub use crate::no_case::TagNoCase;
pub use crate::run::{SplitPosition, take_till, take_while};
pub use crate::run_of_one::{SplitPosition1, is_a, is_not, take_till1, take_while1};
pub use crate::until::{TakeUntil, TakeUntil1};
pub use nom_internal::fixed::Fixed;
use nom_traits::convert::ToUsize;
use std::marker::PhantomData;

/// Returns the first `count` items: bytes of a byte slice, characters of a text.
///
/// If the input has fewer items, streaming needs the missing ones, of an unknown amount for a text, and complete
/// refuses with `Eof`.
#[inline(always)]
pub fn take<C: ToUsize + Drop, I, E>(count: C) -> Take<I, E>
    ensures { result.count ≡ C.size count }
{
    Take {
        count: count.to_usize(),
        error: PhantomData,
    }
}

/// Matches `tag` at the start of the input, and returns the matched part.
///
/// Any other input is refused with `Tag`. If the input ends inside the tag, streaming needs the rest of the
/// tag, and complete refuses with `Tag`.
///
/// `tag("ab")` on `"abc"` returns `"ab"` and leaves `"c"`.
#[inline(always)]
pub fn tag<T: Copy, I, E>(tag: T) -> Tag<T, I, E>
    ensures { result.tag ≡ tag }
{
    Tag {
        tag,
        error: PhantomData,
    }
}

/// Matches `tag` at the start of the input regardless of the case of ASCII letters, and returns the matched
/// part.
///
/// It refuses and needs more as `tag` does.
#[inline(always)]
pub fn tag_no_case<T: Copy, I, E>(tag: T) -> TagNoCase<T, I, E>
    ensures { result.tag ≡ tag }
{
    TagNoCase {
        tag,
        error: PhantomData,
    }
}

/// Returns the items before the first occurrence of `tag`. The occurrence stays in the rest.
///
/// If `tag` doesn't occur, streaming needs more, of an unknown amount, and complete refuses with `TakeUntil`.
#[inline(always)]
pub fn take_until<T: Copy, I, E>(tag: T) -> TakeUntil<T, I, E>
    ensures { result.tag ≡ tag }
{
    TakeUntil {
        tag,
        error: PhantomData,
    }
}

/// Returns the items before the first occurrence of `tag`, at least one.
///
/// It works as `take_until`, but an occurrence at the start of the input is refused with `TakeUntil`.
#[inline(always)]
pub fn take_until1<T: Copy, I, E>(tag: T) -> TakeUntil1<T, I, E>
    ensures { result.tag ≡ tag }
{
    TakeUntil1 {
        tag,
        error: PhantomData,
    }
}
