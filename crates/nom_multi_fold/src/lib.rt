//! Items that are counted or folded, or collected within a range of counts.
#![tactic(auto)]

ghost use Rattle.std.specs.Prelude.{◌≡◌};

mod alloc_folds;
mod counts;
mod dropped;
mod folded;
mod folds;
mod gathered;
pub mod promises;
mod ranged;

pub use crate::alloc_folds::{FoldMany0Alloc, FoldMany1Alloc};
pub use crate::counts::{Many0Count, Many1Count, ManyMNCount};
pub use crate::dropped::Dropped;
pub use crate::folds::{FoldMany0, FoldMany1, FoldManyMN};
pub use crate::ranged::{Fold, Many};
use nom_error::answer::OutOfMemory;
use nom_internal::parser::Parser;
use nom_traits::input::Input;
use std::alloc::Allocator;

/// Repeats `parser` until it refuses, and returns the number of items.
///
/// `many0_count(tag("ab"))` on `"ababc"` returns `2` and leaves `"c"`.
///
/// A refusal ends the count successfully, before the refused item. An item that is accepted without consuming
/// input is refused with `Many0Count`. Any other answer of the item is passed on. No output of an item is
/// built.
#[inline(always)]
pub fn many0_count<F>(parser: F) -> Many0Count<F>
    ensures { result.item.parser ≡ parser }
{
    Many0Count {
        item: Dropped { parser },
    }
}

/// Repeats `parser` until it refuses, at least once, and returns the number of items.
///
/// If the first item is refused, the count refuses with `Many1Count` at the start. A later refusal ends the
/// count successfully. From the second item on, one that is accepted without consuming input is refused with
/// `Many1Count`. Any other answer of an item is passed on. No output of an item is built.
#[inline(always)]
pub fn many1_count<F>(parser: F) -> Many1Count<F>
    ensures { result.item.parser ≡ parser }
{
    Many1Count {
        item: Dropped { parser },
    }
}

/// Repeats `parser` until it refuses, `min` to `max` times, and returns the number of items.
///
/// It works like `many_m_n` but makes no list, so it needs no memory. If an item is refused before `min`
/// items, the count refuses with the item's error, to which `ManyMN` is added at the item. An item that
/// consumes nothing is refused with `ManyMN`. After `max` items none is tried. If `min` is above `max`, the
/// answer is a `Failure` with `ManyMN`. Any other answer of an item is passed on. No output of an item is
/// built.
#[inline(always)]
pub fn many_m_n_count<F>(min: usize, max: usize, parser: F) -> ManyMNCount<F>
    ensures min { result.min ≡ min }
    ensures max { result.max ≡ max }
    ensures parser { result.item.parser ≡ parser }
{
    ManyMNCount {
        min,
        max,
        item: Dropped { parser },
    }
}

/// Repeats `parser` until it refuses, and folds the outputs.
///
/// The fold starts with the value of `init`. For each item, `fold` makes the next value from the value before
/// it and the item's output. `fold_many0(tag("ab"), || 0, |n, _| n + 1)` on `"ababc"` returns `2` and leaves
/// `"c"`.
///
/// A refusal ends the fold successfully, before the refused item. An item that is accepted without consuming
/// input is refused with `Many0`. Any other answer of the item is passed on. The closures are called only if
/// outputs are built.
#[inline(always)]
pub fn fold_many0<F, H, G>(parser: F, init: H, fold: G) -> FoldMany0<F, H, G>
    ensures parser { result.parser ≡ parser }
    ensures init { result.init ≡ init }
    ensures fold { result.fold ≡ fold }
{
    FoldMany0 { parser, init, fold }
}

/// Repeats `parser` until it refuses, at least once, and folds the outputs as `fold_many0` does.
///
/// If the first item is refused, the fold refuses with `Many1` at the start. A later refusal ends the fold
/// successfully. From the second item on, one that is accepted without consuming input is refused with
/// `Many1`.
#[inline(always)]
pub fn fold_many1<F, H, G>(parser: F, init: H, fold: G) -> FoldMany1<F, H, G>
    ensures parser { result.parser ≡ parser }
    ensures init { result.init ≡ init }
    ensures fold { result.fold ≡ fold }
{
    FoldMany1 { parser, init, fold }
}

/// Repeats `parser` until it refuses, `min` to `max` times, and folds the outputs as `fold_many0` does.
///
/// If an item is refused before `min` items, the fold refuses with the item's error, to which `ManyMN` is
/// added at the item. An item that consumes nothing is refused with `ManyMN`. After `max` items none is
/// tried. If `min` is above `max`, the answer is an `Error` with `ManyMN`.
#[inline(always)]
pub fn fold_many_m_n<F, H, G>(
    min: usize,
    max: usize,
    parser: F,
    init: H,
    fold: G,
) -> FoldManyMN<F, H, G>
    ensures min { result.min ≡ min }
    ensures max { result.max ≡ max }
    ensures parser { result.parser ≡ parser }
    ensures init { result.init ≡ init }
    ensures fold { result.fold ≡ fold }
{
    FoldManyMN {
        min,
        max,
        parser,
        init,
        fold,
    }
}

/// Repeats `parser` as often as `range` allows, and returns the outputs in a collection allocated in `alloc`.
///
/// The range is a range of counts, or one count. The list takes no more items than the range allows, or
/// `usize::MAX` if the range has no second end. After them none is tried.
///
/// A refusal ends the list successfully, before the refused item. If the number of items before it is outside
/// the range, the list refuses with the item's error. `Many` is added to that error at the item. An item that
/// consumes nothing is refused with `Many`. If the range has two ends and nothing between them, the answer is
/// a `Failure` with `Many`. The list grows item by item.
#[inline(always)]
pub fn many<A: Allocator + Copy, R, F, C>(alloc: A, range: R, parser: F) -> Many<A, R, F, C>
    ensures alloc { result.alloc ≡ alloc }
    ensures range { result.range ≡ range }
    ensures parser { result.parser ≡ parser }
{
    Many {
        alloc,
        range,
        parser,
        collection: None,
    }
}

/// Repeats `parser` as often as `range` allows, and folds the outputs.
///
/// It works like `many`, with errors of the kind `Fold`. The fold starts with the value of `init`, and `fold`
/// takes the outputs from left to right. The closures are called only if outputs are built.
#[inline(always)]
pub fn fold<R, F, H, G>(range: R, parser: F, init: H, fold: G) -> Fold<R, F, H, G>
    ensures range { result.range ≡ range }
    ensures parser { result.parser ≡ parser }
    ensures init { result.init ≡ init }
    ensures fold { result.fold ≡ fold }
{
    Fold {
        range,
        parser,
        init,
        fold,
    }
}

/// Repeats `parser` until it refuses, and folds the outputs with closures that may take memory.
///
/// It works like `fold_many0`, but answers `OutOfMemory` if one of the closures finds no memory.
///
/// The closures capture their allocator. They are called only if outputs are built. `init` is called once,
/// before the first item.
#[inline(always)]
pub fn fold_many0_alloc<
    I: Input,
    R: Drop,
    F: Parser<I>,
    H: Fn() -> Result<R, OutOfMemory>,
    G: Fn(R, F::Output) -> Result<R, OutOfMemory>,
>(parser: F, init: H, fold: G) -> FoldMany0Alloc<F, H, G>
    ensures parser { result.parser ≡ parser }
    ensures init { result.init ≡ init }
    ensures fold { result.fold ≡ fold }
{
    FoldMany0Alloc { parser, init, fold }
}

/// Repeats `parser` until it refuses, at least once, and folds the outputs with closures that may take
/// memory.
///
/// It works like `fold_many1`, but answers `OutOfMemory` if one of the closures finds no memory.
///
/// If the first item is refused, the fold refuses with `Many1` at the start. A later refusal ends the fold
/// successfully. From the second item on, one that is accepted without consuming input is refused with
/// `Many1`.
///
/// The closures capture their allocator. They are called only if outputs are built. `init` is called once,
/// before the first item.
#[inline(always)]
pub fn fold_many1_alloc<
    I: Input,
    R: Drop,
    F: Parser<I>,
    H: Fn() -> Result<R, OutOfMemory>,
    G: Fn(R, F::Output) -> Result<R, OutOfMemory>,
>(parser: F, init: H, fold: G) -> FoldMany1Alloc<F, H, G>
    ensures parser { result.parser ≡ parser }
    ensures init { result.init ≡ init }
    ensures fold { result.fold ≡ fold }
{
    FoldMany1Alloc { parser, init, fold }
}
