//! Parsers of integers in decimal digits. Each runs in the requested mode, and works as a part of other
//! parsers.
//!
//! Each parser reads all digits that follow. It refuses with `Digit`, at the start of the input, if there is
//! no digit. It does the same as soon as a digit takes the number out of the range of its type. If no item
//! follows the digits, streaming needs 1 more.
ghost use Rattle.std.specs.Prelude.{◌≡◌, true, false};

use crate::integer::Integer;
use std::marker::PhantomData;

/// Parses one or more decimal digits as a number below 2^8.
#[inline(always)]
pub fn u8<I, E>() -> Integer<u8, I, E>
    ensures { result.signed ≡ false }
{
    Integer {
        signed: false,
        types: PhantomData,
    }
}

/// Parses one or more decimal digits as a number below 2^16.
#[inline(always)]
pub fn u16<I, E>() -> Integer<u16, I, E>
    ensures { result.signed ≡ false }
{
    Integer {
        signed: false,
        types: PhantomData,
    }
}

/// Parses one or more decimal digits as a number below 2^32.
#[inline(always)]
pub fn u32<I, E>() -> Integer<u32, I, E>
    ensures { result.signed ≡ false }
{
    Integer {
        signed: false,
        types: PhantomData,
    }
}

/// Parses one or more decimal digits as a number below 2^64.
#[inline(always)]
pub fn u64<I, E>() -> Integer<u64, I, E>
    ensures { result.signed ≡ false }
{
    Integer {
        signed: false,
        types: PhantomData,
    }
}

/// Parses one or more decimal digits as a number below 2^128.
#[inline(always)]
pub fn u128<I, E>() -> Integer<u128, I, E>
    ensures { result.signed ≡ false }
{
    Integer {
        signed: false,
        types: PhantomData,
    }
}

/// Parses one or more decimal digits as a number below 2^64.
#[inline(always)]
pub fn usize<I, E>() -> Integer<usize, I, E>
    ensures { result.signed ≡ false }
{
    Integer {
        signed: false,
        types: PhantomData,
    }
}

/// Parses an optional sign, `+` or `-`, and one or more decimal digits, as a number from -2^7 up and below
/// 2^7.
#[inline(always)]
pub fn i8<I, E>() -> Integer<i8, I, E>
    ensures { result.signed ≡ true }
{
    Integer {
        signed: true,
        types: PhantomData,
    }
}

/// Parses an optional sign, `+` or `-`, and one or more decimal digits, as a number from -2^15 up and below
/// 2^15.
#[inline(always)]
pub fn i16<I, E>() -> Integer<i16, I, E>
    ensures { result.signed ≡ true }
{
    Integer {
        signed: true,
        types: PhantomData,
    }
}

/// Parses an optional sign, `+` or `-`, and one or more decimal digits, as a number from -2^31 up and below
/// 2^31.
#[inline(always)]
pub fn i32<I, E>() -> Integer<i32, I, E>
    ensures { result.signed ≡ true }
{
    Integer {
        signed: true,
        types: PhantomData,
    }
}

/// Parses an optional sign, `+` or `-`, and one or more decimal digits, as a number from -2^63 up and below
/// 2^63.
#[inline(always)]
pub fn i64<I, E>() -> Integer<i64, I, E>
    ensures { result.signed ≡ true }
{
    Integer {
        signed: true,
        types: PhantomData,
    }
}

/// Parses an optional sign, `+` or `-`, and one or more decimal digits, as a number from -2^127 up and below
/// 2^127.
#[inline(always)]
pub fn i128<I, E>() -> Integer<i128, I, E>
    ensures { result.signed ≡ true }
{
    Integer {
        signed: true,
        types: PhantomData,
    }
}

/// Parses an optional sign, `+` or `-`, and one or more decimal digits, as a number from -2^63 up and below
/// 2^63.
#[inline(always)]
pub fn isize<I, E>() -> Integer<isize, I, E>
    ensures { result.signed ≡ true }
{
    Integer {
        signed: true,
        types: PhantomData,
    }
}
