//! Parsers of line ends and tabs. Each runs in the requested mode, and works as a part of other parsers.
ghost use Rattle.std.specs.Prelude.{◌≡◌};

use crate::line::{Crlf, LineEnding, LineMatch, NotLineEnding, line_match};
use crate::one::Char;
use std::marker::PhantomData;

/// Matches the end of a line, `\n`.
///
/// Any other input is refused by the error type's `from_char`, in complete mode even an empty one. On an
/// empty input, streaming needs 1.
#[inline(always)]
pub fn newline<I, E>() -> Char<I, E>
    ensures { result.wanted ≡ 10 }
{
    Char {
        wanted: '\n',
        error: PhantomData,
    }
}

/// Matches a tab.
///
/// Any other input is refused by the error type's `from_char`, in complete mode even an empty one. On an
/// empty input, streaming needs 1.
#[inline(always)]
pub fn tab<I, E>() -> Char<I, E>
    ensures { result.wanted ≡ 9 }
{
    Char {
        wanted: '\t',
        error: PhantomData,
    }
}

/// Matches `\r\n`.
///
/// Any other input is refused with `CrLf`. On an empty input, and on a single `\r`, streaming needs 2, and
/// complete refuses with `CrLf`.
#[inline(always)]
pub fn crlf<I, E>() -> LineMatch<Crlf, I, E> {
    line_match()
}

/// Matches the end of a line, `\n` or `\r\n`.
///
/// Any other input is refused with `CrLf`. On an empty input, streaming needs 1. On a single `\r`, it needs
/// 2. Complete refuses both with `CrLf`.
#[inline(always)]
pub fn line_ending<I, E>() -> LineMatch<LineEnding, I, E> {
    line_match()
}

/// Accepts the items before the first `\n` or `\r\n`. There may be none.
///
/// If the input has neither `\r` nor `\n`, streaming needs more, of an unknown amount, and complete accepts
/// all items. If the first of these is an `\r`, a `\n` must follow. The parser refuses with `Tag` if another
/// item follows. If the input ends after the `\r`, streaming needs more, of an unknown amount.
#[inline(always)]
pub fn not_line_ending<I, E>() -> LineMatch<NotLineEnding, I, E> {
    line_match()
}
