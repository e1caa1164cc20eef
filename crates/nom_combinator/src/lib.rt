//! Parsers that change the outcome or the output of a part.
#![tactic(auto)]

ghost use Rattle.std.specs.Prelude.{◌≡◌};

mod alloc_map;
mod alloc_value;
mod condition;
mod consuming;
pub mod ends;
pub mod fixed;
pub mod left;
mod named;
mod outputs;
mod piece;
pub mod promises;
mod verdict;

pub use crate::alloc_map::MapAlloc;
pub use crate::alloc_value::ValueAlloc;
pub use crate::condition::Cond;
pub use crate::consuming::AllConsuming;
pub use crate::ends::{all_consuming, eof, fail, rest, rest_len, success};
pub use crate::fixed::{Fail, Success};
pub use crate::named::Context;
pub use crate::outputs::{Value, Verify};
pub use crate::piece::{Consumed, Recognize};
pub use crate::verdict::{Cut, MakeComplete, Not, Opt, Peek};
use nom_error::answer::OutOfMemory;
use nom_error::outside::FromExternalError;
use nom_error::value::ParseError;
use nom_internal::and_then::AndThen;
use nom_internal::flat_map::FlatMap;
use nom_internal::into::Into;
use nom_internal::judged::{MapOpt, MapRes};
use nom_internal::map::Map;
use nom_internal::parser::Parser;
use nom_traits::input::Items;
use std::marker::PhantomData;

/// Runs `parser`, and turns its refusals into failures. No other branch is tried after a failure.
#[inline(always)]
pub fn cut<F>(parser: F) -> Cut<F>
    ensures { result.parser ≡ parser }
{
    Cut { parser }
}

/// Runs `parser`, and accepts with `None` if it refuses.
///
/// In that case nothing is consumed. The errors of its refusals aren't built. Its failures are passed on.
/// `opt(tag("a"))` on `"bc"` returns `None` and leaves `"bc"`.
#[inline(always)]
pub fn opt<F>(parser: F) -> Opt<F>
    ensures { result.parser ≡ parser }
{
    Opt { parser }
}

/// Runs `parser` without consuming input.
///
/// `peek(tag("a"))` on `"ab"` returns `"a"` and leaves `"ab"`.
#[inline(always)]
pub fn peek<F>(parser: F) -> Peek<F>
    ensures { result.parser ≡ parser }
{
    Peek { parser }
}

/// Accepts if `parser` refuses, and consumes nothing.
///
/// It refuses with `Not` at the start if `parser` accepts. Failures of `parser` are passed on, and so is its
/// need for more input. `not(tag("a"))` on `"bc"` returns `()` and leaves `"bc"`.
#[inline(always)]
pub fn not<F>(parser: F) -> Not<F>
    ensures { result.parser ≡ parser }
{
    Not { parser }
}

/// Runs `parser` in complete mode.
///
/// If `parser` still needs more input, this parser refuses with `Complete` at the start.
#[inline(always)]
pub fn complete<F>(parser: F) -> MakeComplete<F>
    ensures { result.parser ≡ parser }
{
    MakeComplete { parser }
}

/// Returns the part of the input that `parser` consumes, as a slice.
///
/// The outputs of `parser` aren't built. `recognize(pair(tag("a"), tag("b")))` on `"abc"` returns `"ab"` and
/// leaves `"c"`.
#[inline(always)]
pub fn recognize<F>(parser: F) -> Recognize<F>
    ensures { result.parser ≡ parser }
{
    Recognize { parser }
}

/// Returns the part of the input that `parser` consumes, as a slice, and then the output of `parser`.
///
/// `consumed(value(1, tag("ab")))` on `"abc"` returns `("ab", 1)` and leaves `"c"`.
#[inline(always)]
pub fn consumed<F>(parser: F) -> Consumed<F>
    ensures { result.parser ≡ parser }
{
    Consumed { parser }
}

/// Runs `parser` only if `condition` is true. Otherwise it returns `None` and consumes nothing.
///
/// `cond(false, tag("a"))` on `"ab"` returns `None` and leaves `"ab"`.
#[inline(always)]
pub fn cond<F>(condition: bool, parser: F) -> Cond<F>
    ensures condition { result.condition ≡ condition }
    ensures parser { result.parser ≡ parser }
{
    Cond { condition, parser }
}

/// Adds a name to the errors of `parser`, by `ContextError`.
///
/// Refusals and failures both receive the name, at the start. The name is a `&'static str`. Its type is a
/// parameter, because the checker follows a call by borrowed types only if the signature has no `'static`.
#[inline(always)]
pub fn context<C, F>(context: C, parser: F) -> Context<F, C>
    ensures context { result.context ≡ context }
    ensures parser { result.parser ≡ parser }
{
    Context { context, parser }
}

/// Runs `parser`, and then runs `applied_parser` on its output alone.
///
/// It returns the output of `applied_parser` and the rest of `parser`. The rest of `applied_parser` is
/// dropped.
#[inline(always)]
pub fn map_parser<I: Items, F: Parser<I, Output: Items>, G: Parser<F::Output, Error = F::Error>>(
    parser: F,
    applied_parser: G,
) -> AndThen<F, G>
where
    F::Error: ParseError<F::Output>,
    ensures first { result.first ≡ parser }
    ensures second { result.second ≡ applied_parser }
{
    AndThen {
        first: parser,
        second: applied_parser,
    }
}

/// Runs `parser`, makes a second parser from its output with a closure, and runs that on the rest.
#[inline(always)]
pub fn flat_map<I: Items, F: Parser<I>, H: Parser<I, Error = F::Error>, G: Fn(F::Output) -> H>(
    parser: F,
    applied_parser: G,
) -> FlatMap<F, G>
    ensures first { result.first ≡ parser }
    ensures make { result.make ≡ applied_parser }
{
    FlatMap {
        first: parser,
        make: applied_parser,
    }
}

/// Runs `parser`, and applies a closure to its output. The closure is called only if outputs are built.
#[inline(always)]
pub fn map<I: Items, A: Drop, O: Drop, F: Parser<I, Output = A>, G: Fn(A) -> O>(
    parser: F,
    map: G,
) -> Map<F, G>
    ensures parser { result.parser ≡ parser }
    ensures map { result.map ≡ map }
{
    Map { parser, map }
}

/// Runs `parser`, and applies a closure to its output.
///
/// If the closure returns `None`, the input is refused at its start, with `MapOpt`.
#[inline(always)]
pub fn map_opt<I: Items, A: Drop, O: Drop, F: Parser<I, Output = A>, G: Fn(A) -> Option<O>>(
    parser: F,
    map: G,
) -> MapOpt<F, G>
    ensures parser { result.parser ≡ parser }
    ensures map { result.map ≡ map }
{
    MapOpt { parser, map }
}

/// Runs `parser`, and applies a closure to its output.
///
/// If the closure returns an error, the input is refused at its start. `from_external_error` makes the
/// refusal's error from the closure's error, with `MapRes`.
#[inline(always)]
pub fn map_res<
    I: Items,
    A: Drop,
    O: Drop,
    X: Drop,
    F: Parser<I, Output = A>,
    G: Fn(A) -> Result<O, X>,
>(parser: F, map: G) -> MapRes<F, G>
where
    F::Error: FromExternalError<I, X>,
    ensures parser { result.parser ≡ parser }
    ensures map { result.map ≡ map }
{
    MapRes { parser, map }
}

/// Runs `parser`, and accepts only if its output passes a test.
///
/// Otherwise the input is refused at its start, with `Verify`.
#[inline(always)]
pub fn verify<I: Items, A: Drop, F: Parser<I, Output = A>, G: Fn(&A) -> bool>(
    parser: F,
    test: G,
) -> Verify<F, G>
    ensures parser { result.parser ≡ parser }
    ensures test { result.test ≡ test }
{
    Verify { parser, test }
}

/// Runs `parser`, and returns a clone of `value` in place of its output.
///
/// `value(1, tag("ab"))` on `"abc"` returns `1` and leaves `"c"`.
#[inline(always)]
pub fn value<O, F>(value: O, parser: F) -> Value<O, F>
    ensures value { result.value ≡ value }
    ensures parser { result.parser ≡ parser }
{
    Value { value, parser }
}

/// Runs `parser`, and converts its output and its error by `From`.
#[inline(always)]
pub fn into<F, O, E>(parser: F) -> Into<F, O, E>
    ensures { result.parser ≡ parser }
{
    Into {
        parser,
        of: PhantomData,
    }
}

/// Runs `parser`, and applies a closure that may take memory to its output.
///
/// It works like `map`, but answers `OutOfMemory` if the closure finds no memory. The closure captures its
/// allocator. It is called only if outputs are built.
#[inline(always)]
pub fn map_alloc<I: Items, O: Drop, F: Parser<I>, G: Fn(F::Output) -> Result<O, OutOfMemory>>(
    parser: F,
    map: G,
) -> MapAlloc<F, G>
    ensures parser { result.parser ≡ parser }
    ensures map { result.map ≡ map }
{
    MapAlloc { parser, map }
}

/// Runs `parser`, and returns a value from a closure that may take memory, in place of its output.
///
/// It works like `value`, but makes a new value for each acceptance, and answers `OutOfMemory` if the closure
/// finds no memory. The value may therefore own memory.
///
/// The closure captures its allocator. It is called only if outputs are built, after `parser` accepted. The
/// outputs of `parser` are dropped.
#[inline(always)]
pub fn value_alloc<I: Items, O: Drop, G: Fn() -> Result<O, OutOfMemory>, F: Parser<I>>(
    make: G,
    parser: F,
) -> ValueAlloc<G, F>
    ensures make { result.make ≡ make }
    ensures parser { result.parser ≡ parser }
{
    ValueAlloc { make, parser }
}
