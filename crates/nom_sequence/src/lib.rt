//! Parsers that run other parsers in sequence.
#![tactic(auto)]

ghost use Rattle.std.specs.Prelude.{◌≡◌};

mod parts;

pub use crate::parts::{Preceded, Terminated};
use nom_internal::sequence::And;

/// Runs `first` and then `second`, and returns both outputs.
///
/// `pair(tag("ab"), tag("cd"))` on `"abcde"` returns `("ab", "cd")` and leaves `"e"`.
#[inline(always)]
pub fn pair<F, G>(first: F, second: G) -> And<F, G>
    ensures first { result.first ≡ first }
    ensures second { result.second ≡ second }
{
    And { first, second }
}

/// Runs `first` and then `second`, and returns the output of `second`.
///
/// The output of `first` isn't built. `preceded(tag("ab"), tag("cd"))` on `"abcde"` returns `"cd"` and leaves
/// `"e"`.
#[inline(always)]
pub fn preceded<F, G>(first: F, second: G) -> Preceded<F, G>
    ensures first { result.first ≡ first }
    ensures second { result.second ≡ second }
{
    Preceded { first, second }
}

/// Runs `first` and then `second`, and returns the output of `first`.
///
/// The output of `second` isn't built. `terminated(tag("ab"), tag("cd"))` on `"abcde"` returns `"ab"` and
/// leaves `"e"`.
#[inline(always)]
pub fn terminated<F, G>(first: F, second: G) -> Terminated<F, G>
    ensures first { result.first ≡ first }
    ensures second { result.second ≡ second }
{
    Terminated { first, second }
}

/// Runs `first`, `sep` and `second`, and returns the outputs of `first` and `second`.
///
/// The output of the separator isn't built. `separated_pair(tag("a"), tag(","), tag("b"))` on `"a,bc"`
/// returns `("a", "b")` and leaves `"c"`.
#[inline(always)]
pub fn separated_pair<F, G, H>(first: F, sep: G, second: H) -> And<F, Preceded<G, H>>
    ensures first { result.first ≡ first }
    ensures sep { result.second.first ≡ sep }
    ensures second { result.second.second ≡ second }
{
    pair(first, preceded(sep, second))
}

/// Runs `first`, `second` and `third`, and returns the output of `second`.
///
/// The outputs of the other two aren't built. `delimited(tag("("), tag("a"), tag(")"))` on `"(a)b"` returns
/// `"a"` and leaves `"b"`.
#[inline(always)]
pub fn delimited<F, G, H>(first: F, second: G, third: H) -> Preceded<F, Terminated<G, H>>
    ensures first { result.first ≡ first }
    ensures second { result.second.first ≡ second }
    ensures third { result.second.second ≡ third }
{
    preceded(first, terminated(second, third))
}
