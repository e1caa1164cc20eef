//! Parsers of runs of the items of a class. Each runs in the requested mode, and works as a part of other
//! parsers.
ghost use Rattle.std.specs.Prelude.{◌≡◌, Some, None};

use crate::class::ClassRun;
use nom_error::kind::ErrorKind;
use nom_traits::character::AsciiClass;
use std::marker::PhantomData;

/// Returns the parser of a run of a class: one or more items if `wanted` has a kind, and otherwise zero or
/// more.
#[inline(always)]
fn run_of<I, E>(class: AsciiClass, wanted: Option<ErrorKind>) -> ClassRun<I, E>
    ensures class { result.class ≡ class }
    ensures wanted { result.wanted ≡ wanted }
{
    ClassRun {
        class,
        wanted,
        error: PhantomData,
    }
}

/// Matches zero or more letters, `A` to `Z` or `a` to `z`.
///
/// If all items match, streaming needs 1 more, and complete accepts the whole input.
#[inline(always)]
pub fn alpha0<I, E>() -> ClassRun<I, E>
    ensures class { result.class ≡ AsciiClass.Alpha }
    ensures wanted { result.wanted ≡ None }
{
    run_of(AsciiClass::Alpha, None)
}

/// Matches one or more letters, `A` to `Z` or `a` to `z`.
///
/// If the first item is another, it refuses with `Alpha`. If all items match, or the input is empty,
/// streaming needs 1 more. Complete accepts the whole input, but refuses an empty one with `Alpha`.
#[inline(always)]
pub fn alpha1<I, E>() -> ClassRun<I, E>
    ensures class { result.class ≡ AsciiClass.Alpha }
    ensures wanted { result.wanted ≡ Some ErrorKind.Alpha }
{
    run_of(AsciiClass::Alpha, Some(ErrorKind::Alpha))
}

/// Matches zero or more decimal digits, `0` to `9`.
///
/// If all items match, streaming needs 1 more, and complete accepts the whole input.
#[inline(always)]
pub fn digit0<I, E>() -> ClassRun<I, E>
    ensures class { result.class ≡ AsciiClass.Digit }
    ensures wanted { result.wanted ≡ None }
{
    run_of(AsciiClass::Digit, None)
}

/// Matches zero or more hexadecimal digits, `0` to `9`, `A` to `F` or `a` to `f`.
///
/// If all items match, streaming needs 1 more, and complete accepts the whole input.
#[inline(always)]
pub fn hex_digit0<I, E>() -> ClassRun<I, E>
    ensures class { result.class ≡ AsciiClass.HexDigit }
    ensures wanted { result.wanted ≡ None }
{
    run_of(AsciiClass::HexDigit, None)
}

/// Matches one or more hexadecimal digits, `0` to `9`, `A` to `F` or `a` to `f`.
///
/// If the first item is another, it refuses with `HexDigit`. If all items match, or the input is empty,
/// streaming needs 1 more. Complete accepts the whole input, but refuses an empty one with `HexDigit`.
#[inline(always)]
pub fn hex_digit1<I, E>() -> ClassRun<I, E>
    ensures class { result.class ≡ AsciiClass.HexDigit }
    ensures wanted { result.wanted ≡ Some ErrorKind.HexDigit }
{
    run_of(AsciiClass::HexDigit, Some(ErrorKind::HexDigit))
}

/// Matches zero or more octal digits, `0` to `7`.
///
/// If all items match, streaming needs 1 more, and complete accepts the whole input.
#[inline(always)]
pub fn oct_digit0<I, E>() -> ClassRun<I, E>
    ensures class { result.class ≡ AsciiClass.OctDigit }
    ensures wanted { result.wanted ≡ None }
{
    run_of(AsciiClass::OctDigit, None)
}

/// Matches one or more octal digits, `0` to `7`.
///
/// If the first item is another, it refuses with `OctDigit`. If all items match, or the input is empty,
/// streaming needs 1 more. Complete accepts the whole input, but refuses an empty one with `OctDigit`.
#[inline(always)]
pub fn oct_digit1<I, E>() -> ClassRun<I, E>
    ensures class { result.class ≡ AsciiClass.OctDigit }
    ensures wanted { result.wanted ≡ Some ErrorKind.OctDigit }
{
    run_of(AsciiClass::OctDigit, Some(ErrorKind::OctDigit))
}

/// Matches zero or more binary digits, `0` or `1`.
///
/// If all items match, streaming needs 1 more, and complete accepts the whole input.
#[inline(always)]
pub fn bin_digit0<I, E>() -> ClassRun<I, E>
    ensures class { result.class ≡ AsciiClass.BinDigit }
    ensures wanted { result.wanted ≡ None }
{
    run_of(AsciiClass::BinDigit, None)
}

/// Matches one or more binary digits, `0` or `1`.
///
/// If the first item is another, it refuses with `BinDigit`. If all items match, or the input is empty,
/// streaming needs 1 more. Complete accepts the whole input, but refuses an empty one with `BinDigit`.
#[inline(always)]
pub fn bin_digit1<I, E>() -> ClassRun<I, E>
    ensures class { result.class ≡ AsciiClass.BinDigit }
    ensures wanted { result.wanted ≡ Some ErrorKind.BinDigit }
{
    run_of(AsciiClass::BinDigit, Some(ErrorKind::BinDigit))
}

/// Matches zero or more letters (`A` to `Z` or `a` to `z`) or decimal digits.
///
/// If all items match, streaming needs 1 more, and complete accepts the whole input.
#[inline(always)]
pub fn alphanumeric0<I, E>() -> ClassRun<I, E>
    ensures class { result.class ≡ AsciiClass.Alphanumeric }
    ensures wanted { result.wanted ≡ None }
{
    run_of(AsciiClass::Alphanumeric, None)
}

/// Matches one or more letters (`A` to `Z` or `a` to `z`) or decimal digits.
///
/// If the first item is another, it refuses with `AlphaNumeric`. If all items match, or the input is empty,
/// streaming needs 1 more. Complete accepts the whole input, but refuses an empty one with `AlphaNumeric`.
#[inline(always)]
pub fn alphanumeric1<I, E>() -> ClassRun<I, E>
    ensures class { result.class ≡ AsciiClass.Alphanumeric }
    ensures wanted { result.wanted ≡ Some ErrorKind.AlphaNumeric }
{
    run_of(AsciiClass::Alphanumeric, Some(ErrorKind::AlphaNumeric))
}

/// Matches zero or more spaces or tabs.
///
/// If all items match, streaming needs 1 more, and complete accepts the whole input.
#[inline(always)]
pub fn space0<I, E>() -> ClassRun<I, E>
    ensures class { result.class ≡ AsciiClass.Space }
    ensures wanted { result.wanted ≡ None }
{
    run_of(AsciiClass::Space, None)
}

/// Matches one or more spaces or tabs.
///
/// If the first item is another, it refuses with `Space`. If all items match, or the input is empty,
/// streaming needs 1 more. Complete accepts the whole input, but refuses an empty one with `Space`.
#[inline(always)]
pub fn space1<I, E>() -> ClassRun<I, E>
    ensures class { result.class ≡ AsciiClass.Space }
    ensures wanted { result.wanted ≡ Some ErrorKind.Space }
{
    run_of(AsciiClass::Space, Some(ErrorKind::Space))
}

/// Matches one or more spaces, tabs, `\r` or `\n`.
///
/// If the first item is another, it refuses with `MultiSpace`. If all items match, or the input is empty,
/// streaming needs 1 more. Complete accepts the whole input, but refuses an empty one with `MultiSpace`.
#[inline(always)]
pub fn multispace1<I, E>() -> ClassRun<I, E>
    ensures class { result.class ≡ AsciiClass.MultiSpace }
    ensures wanted { result.wanted ≡ Some ErrorKind.MultiSpace }
{
    run_of(AsciiClass::MultiSpace, Some(ErrorKind::MultiSpace))
}
