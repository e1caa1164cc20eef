//! Repetition: lists of items, and items, lists and values after a length that is read.
#![tactic(auto)]

ghost use Rattle.std.specs.Prelude.{◌≡◌};

mod bounded;
mod buffer;
mod counted;
mod cut;
mod length;
pub mod length_promises;
mod many;
pub mod promises;
mod till;
mod value;

pub use crate::bounded::{Count, ManyMN};
pub use crate::buffer::{Fill, fill_buffer};
pub use crate::counted::LengthCount;
pub use crate::length::LengthData;
pub use crate::many::{Many0, Many1};
pub use crate::till::ManyTill;
pub use crate::value::LengthValue;
use std::alloc::Allocator;

/// Repeats `parser` until it refuses, and returns the outputs in a `Vec` allocated in `alloc`.
///
/// `many0(alloc, tag("ab"))` on `"ababc"` returns `["ab", "ab"]` and leaves `"c"`.
///
/// A refusal ends the list successfully, before the refused item. If an item is accepted without consuming
/// input, the list refuses with `Many0`; no input can make it loop forever. Any other answer of the item is
/// passed on.
///
/// The list grows with its accepted items. If `parser` takes a fixed number of items, as `be_u32` does, the list gets room for
/// all outputs of which the input is certain before it reads them. If memory is refused, the answer is `OutOfMemory`.
#[inline(always)]
pub fn many0<A: Allocator + Copy, F>(alloc: A, parser: F) -> Many0<A, F>
    ensures alloc { result.alloc ≡ alloc }
    ensures parser { result.parser ≡ parser }
{
    Many0 { alloc, parser }
}

/// Repeats `parser` until it refuses, at least once, and returns the outputs in a `Vec` allocated in `alloc`.
///
/// If the first item is refused, the list refuses with the item's error, to which `Many1` is added at the
/// start. From the second item on it works like `many0`: an item that consumes nothing is refused with
/// `Many0`.
#[inline(always)]
pub fn many1<A: Allocator + Copy, F>(alloc: A, parser: F) -> Many1<A, F>
    ensures alloc { result.alloc ≡ alloc }
    ensures parser { result.parser ≡ parser }
{
    Many1 { alloc, parser }
}

/// Runs `parser` exactly `count` times, and returns the outputs in a `Vec` allocated in `alloc`.
///
/// `count(alloc, tag("ab"), 2)` on `"abababc"` returns `["ab", "ab"]` and leaves `"abc"`.
///
/// If an item is refused, the list refuses with the item's error, to which `Count` is added at the start.
/// Items may consume nothing. The list gets room as that of `many0` does, and with its first accepted item for all `count`
/// items, at most for 1,024.
#[inline(always)]
pub fn count<A: Allocator + Copy, F>(alloc: A, parser: F, count: usize) -> Count<A, F>
    ensures alloc { result.alloc ≡ alloc }
    ensures parser { result.parser ≡ parser }
    ensures count { result.count ≡ count }
{
    Count {
        alloc,
        parser,
        count,
    }
}

/// Repeats `parser` until it refuses, `min` to `max` times, and returns the outputs in a `Vec` allocated in
/// `alloc`.
///
/// `many_m_n(alloc, 1, 2, tag("ab"))` on `"abababc"` returns `["ab", "ab"]` and leaves `"abc"`.
///
/// If an item is refused before `min` items, the list refuses with the item's error, to which `ManyMN` is
/// added at the item. An item that consumes nothing is refused with `ManyMN`. After `max` items none is
/// tried. If `min` is above `max`, the answer is a `Failure` with `ManyMN`.
#[inline(always)]
pub fn many_m_n<A: Allocator + Copy, F>(alloc: A, min: usize, max: usize, parser: F) -> ManyMN<A, F>
    ensures alloc { result.alloc ≡ alloc }
    ensures min { result.min ≡ min }
    ensures max { result.max ≡ max }
    ensures parser { result.parser ≡ parser }
{
    ManyMN {
        alloc,
        min,
        max,
        parser,
    }
}

/// Repeats `parser` until `end` accepts, and returns the outputs in a `Vec` allocated in `alloc`, and the
/// output of `end`.
///
/// `many_till(alloc, tag("ab"), tag("."))` on `"abab.c"` returns `(["ab", "ab"], ".")` and leaves `"c"`.
///
/// At each place `end` is tried first, and an item only if `end` refuses. If an item is refused, the list
/// refuses with the item's error, to which `ManyTill` is added at the item. An item that consumes nothing is
/// refused with `Many0`.
#[inline(always)]
pub fn many_till<A: Allocator + Copy, F, G>(alloc: A, parser: F, end: G) -> ManyTill<A, F, G>
    ensures alloc { result.alloc ≡ alloc }
    ensures parser { result.parser ≡ parser }
    ensures end { result.end ≡ end }
{
    ManyTill { alloc, parser, end }
}

/// Runs `parser` once for each place of `buffer`, and writes the outputs into it.
///
/// The outputs go only to the buffer, and no memory is taken. If an item is refused, the whole is refused
/// with the item's error, to which `Count` is added at the start. Items may be empty. Any other answer of an
/// item is passed on.
///
/// If outputs are built, the outputs of the accepted items are at the front of the buffer afterwards,
/// whatever the answer. The buffer is unchanged after them. It is entirely unchanged if no outputs are built.
#[inline(always)]
pub fn fill<'a, F, T>(parser: F, buffer: &'a mut [T]) -> Fill<'a, F, T>
    ensures parser { result.parser ≡ parser }
    ensures buffer { result.buffer ≡ buffer.entry }
{
    Fill { parser, buffer }
}

/// Reads a length with `parser`, and returns that many items after it.
///
/// Items are bytes of a byte slice, or characters of a text. The length may be of any type that is `ToUsize`.
/// `length_data(be_u8())` on the bytes `[2, 5, 6, 7]` returns `[5, 6]` and leaves `[7]`.
///
/// If there are fewer items, streaming needs the missing ones, and complete refuses with `Eof` after the
/// length, as `take` does.
#[inline(always)]
pub fn length_data<F>(parser: F) -> LengthData<F>
    ensures { result.parser ≡ parser }
{
    LengthData { parser }
}

/// Reads a length with `length`, runs `parser` that many times, and returns the outputs in a `Vec` allocated
/// in `alloc`.
///
/// `length_count(alloc, be_u8(), be_u8())` on the bytes `[2, 5, 6, 7]` returns `[5, 6]` and leaves `[7]`.
///
/// If an item is refused, the whole is refused, and `Count` is added to its error at the place after the
/// length. An item may consume nothing. Any other answer of an item is passed on.
///
/// The list gets room as that of `count` does. So a large length that is only claimed takes memory for 1,024 items at most.
#[inline(always)]
pub fn length_count<A: Allocator + Copy, F, G>(
    alloc: A,
    length: F,
    parser: G,
) -> LengthCount<A, F, G>
    ensures alloc { result.alloc ≡ alloc }
    ensures length { result.length ≡ length }
    ensures parser { result.parser ≡ parser }
{
    LengthCount {
        alloc,
        length,
        parser,
    }
}

/// Reads a length with `length`, and runs `parser` on exactly that much of the input after it.
///
/// The length is in the units of `input_len`: bytes, for a byte slice and for a text. The output is that of
/// `parser`, whatever it leaves of those bytes. The rest begins after them. `length_value(be_u8(), be_u8())`
/// on the bytes `[2, 5, 6, 7]` returns `5` and leaves `[7]`.
///
/// If there are fewer bytes, more is needed, in both modes. If the length ends inside a character, it is
/// refused with `LengthValue` at the place after the length. `parser` runs in the requested mode. If it needs
/// more than its part of the input, it is refused with `Complete`.
#[inline(always)]
pub fn length_value<F, G>(length: F, parser: G) -> LengthValue<F, G>
    ensures length { result.length ≡ length }
    ensures parser { result.parser ≡ parser }
{
    LengthValue { length, parser }
}
