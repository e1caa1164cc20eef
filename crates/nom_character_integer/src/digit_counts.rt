//! Parsers of numbers in a count of digits, in any base.
ghost use Rattle.std.specs.Prelude.{◌≡◌};

use crate::bounded::{Digits, Unsigned};
use std::marker::PhantomData;

/// Parses exactly `n` digits in the base `radix` as a number of the type `T`: `u8`, `u16`, `u32` or `u64`. What follows them is
/// not looked at.
///
/// The digits are `0` to `9` and then the letters, in either case, also in a base above 36. If there are fewer
/// before another item, the parser refuses with `Digit`, at the start of the input. It does the same as soon as
/// a digit takes the number out of the range of its type.
///
/// If the input ends before `n` digits, streaming needs the missing ones, and complete refuses with `Digit`.
#[inline(always)]
pub fn digits<T: Unsigned, I, E>(radix: u32, n: usize) -> Digits<T, I, E>
    ensures radix { result.radix ≡ radix }
    ensures least { result.m ≡ n }
    ensures most { result.n ≡ n }
{
    digits_m_n(radix, n, n)
}

/// Parses at least `m` and at most `n` digits in the base `radix` as a number of the type `T`.
///
/// It reads as many digits as there are, up to `n`, and refuses fewer than `m` as `digits` does. If `m` is
/// above `n`, it refuses whatever it reads.
///
/// If the input ends before `n` digits, streaming needs what is missing up to `m`, and at least 1.
#[inline(always)]
pub fn digits_m_n<T: Unsigned, I, E>(radix: u32, m: usize, n: usize) -> Digits<T, I, E>
    ensures radix { result.radix ≡ radix }
    ensures least { result.m ≡ m }
    ensures most { result.n ≡ n }
{
    Digits {
        radix,
        m,
        n,
        types: PhantomData,
    }
}
