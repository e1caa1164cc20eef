//! Bit fields, and conversions between parsers of bits and parsers of bytes.
#![tactic(auto)]

ghost use Rattle.std.specs.Prelude.{◌≡◌, ◌≤◌};

mod bridge;
pub mod complete;
pub mod convert;
mod field;
mod leaf;
pub mod number;
pub mod promises;
pub mod streaming;

pub use crate::bridge::{Bits, Bytes};
pub use crate::convert::ErrorConvert;
pub use crate::leaf::{Bool, Tag, Take};
pub use crate::number::BitUint;
pub use nom_internal::fixed::Fixed;
use nom_traits::convert::ToUsize;
use std::marker::PhantomData;

/// Returns the number in the next `count` bits, most significant bit first. `count` is at most the width of
/// `O`.
///
/// If there are fewer bits, streaming needs `count`, and complete refuses with `Eof` at the start.
#[inline(always)]
pub fn take<I, O: BitUint, C: ToUsize + Drop, E>(count: C) -> Take<I, O, E>
    requires { C.size count ≤ O.WIDTH }
    ensures { result.count ≡ C.size count }
{
    Take {
        count: count.to_usize(),
        types: PhantomData,
    }
}

/// Matches the number `pattern` in the next `count` bits, most significant bit first. `count` is at most the
/// width of `O`.
///
/// Another number is refused with `TagBits` at the start. If there are fewer bits, it answers as `take` does.
#[inline(always)]
pub fn tag<I, O: BitUint, C: ToUsize + Drop, E>(pattern: O, count: C) -> Tag<I, O, E>
    requires { C.size count ≤ O.WIDTH }
    ensures pattern { result.pattern ≡ O.bits pattern }
    ensures count { result.count ≡ C.size count }
{
    Tag {
        pattern: pattern.to_bits(),
        count: count.to_usize(),
        types: PhantomData,
    }
}

/// Returns whether the next bit is 1.
///
/// If there is none, streaming needs it, and complete refuses with `Eof`.
#[inline(always)]
pub fn bool<I, E>() -> Bool<I, E> {
    Bool { types: PhantomData }
}

/// Runs a parser of bits among parsers of bytes, from the first bit of the input on.
///
/// It runs in streaming mode, whatever mode is requested. A partly consumed byte counts as consumed. If
/// `parser` needs `n` bits, `n / 8 + 1` bytes are needed. Its errors are converted.
#[inline(always)]
pub fn bits<P, E>(parser: P) -> Bits<P, E>
    ensures { result.parser ≡ parser }
{
    Bits {
        parser,
        error: PhantomData,
    }
}

/// Runs a parser of bytes among parsers of bits, from the next whole byte on, or at the end if there is none.
///
/// It runs in streaming mode, whatever mode is requested. If `parser` needs `n` bytes, `8 * n` bits are
/// needed. If that doesn't fit a `usize`, it fails with `TooLarge` at the start. Its errors are converted.
#[inline(always)]
pub fn bytes<P, E>(parser: P) -> Bytes<P, E>
    ensures { result.parser ≡ parser }
{
    Bytes {
        parser,
        error: PhantomData,
    }
}
