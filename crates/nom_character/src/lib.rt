//! Parsers of characters and of classes of characters.
#![tactic(auto)]

ghost use Rattle.std.specs.Prelude.{◌≡◌, false};
ghost use Rattle.nom_internal.specs.Prelude.{is_alpha_code, is_alphanum_code, is_bin_digit_code, is_dec_digit_code, is_hex_digit_code, is_newline_code};
ghost use Rattle.nom_internal.specs.Prelude.{is_oct_digit_code, is_space_code, itself};
ghost use Rattle.nom_calls.specs.Func.{AnswersBy};
ghost use Rattle.nom_character_first.specs.FirstItem.{anychar_meaning};

mod class;
pub mod complete;
mod line;
mod line_ends;
mod one;
pub mod predicate;
mod runs;
mod scan;
pub mod streaming;

pub use crate::class::{ClassRun, Digit1, MultiSpace0};
pub use crate::line::{Crlf, LineEnding, LineMatch, LinePattern, NotLineEnding};
pub use crate::line_ends::{crlf, line_ending, newline, not_line_ending, tab};
pub use crate::one::{AnyChar, Char, Satisfy};
use crate::predicate::{CharOutside, CharWhere, CharWithin};
pub use crate::runs::{
    alpha0, alpha1, alphanumeric0, alphanumeric1, bin_digit0, bin_digit1, digit0, hex_digit0,
    hex_digit1, multispace1, oct_digit0, oct_digit1, space0, space1,
};
use nom_calls::answer::answer;
use nom_error::answer::IResult;
use nom_error::kind::ErrorKind;
use nom_error::value::ParseError;
pub use nom_internal::fixed::Fixed;
use nom_traits::character::AsChar;
use nom_traits::input::Input;
use std::marker::PhantomData;

/// Matches the character `c` as the first item.
///
/// A byte is the character of the same number. Any other input is refused by the error type's `from_char`. On
/// an empty input, streaming needs the length of the character in UTF-8, and complete refuses in the same
/// way.
///
/// `char('a')` on `"abc"` returns `'a'` and leaves `"bc"`.
#[inline(always)]
pub fn char<I, E>(c: char) -> Char<I, E>
    ensures { result.wanted ≡ c }
{
    Char {
        wanted: c,
        error: PhantomData,
    }
}

/// Returns the first item as a character if it passes the test.
///
/// If it doesn't, the parser refuses with `Satisfy`. On an empty input, streaming needs more, of an unknown
/// amount, and complete refuses with `Satisfy`.
#[inline(always)]
pub fn satisfy<F, I, E>(predicate: F) -> Satisfy<CharWhere<F>, I, E>
    ensures predicate { result.predicate.test ≡ predicate }
    ensures kind { result.kind ≡ ErrorKind.Satisfy }
{
    Satisfy {
        predicate: CharWhere { test: predicate },
        kind: ErrorKind::Satisfy,
        error: PhantomData,
    }
}

/// Returns the first item as a character if it is in the set.
///
/// The set is any list in which `FindToken` finds characters, such as `&str`, `&[char]` or `&[u8]`. In
/// `&[u8]`, a byte is the character of the same number.
///
/// If the character isn't in the set, the parser refuses with `OneOf`. On an empty input, streaming needs
/// more, of an unknown amount, and complete refuses with `OneOf`.
#[inline(always)]
pub fn one_of<I, T, E>(list: T) -> Satisfy<CharWithin<T>, I, E>
    ensures predicate { result.predicate.list ≡ list }
    ensures kind { result.kind ≡ ErrorKind.OneOf }
{
    Satisfy {
        predicate: CharWithin { list },
        kind: ErrorKind::OneOf,
        error: PhantomData,
    }
}

/// Returns the first item as a character if it isn't in the set.
///
/// The set is a list, as for `one_of`. If the character is in the set, the parser refuses with `NoneOf`. On
/// an empty input, streaming needs more, of an unknown amount, and complete refuses with `NoneOf`.
#[inline(always)]
pub fn none_of<I, T, E>(list: T) -> Satisfy<CharOutside<T>, I, E>
    ensures predicate { result.predicate.list ≡ list }
    ensures kind { result.kind ≡ ErrorKind.NoneOf }
{
    Satisfy {
        predicate: CharOutside { list },
        kind: ErrorKind::NoneOf,
        error: PhantomData,
    }
}

/// Matches one or more decimal digits, `0` to `9`.
///
/// If the first item is another, it refuses with `Digit`. If all items are digits, or the input is empty,
/// streaming needs 1 more. Complete accepts the whole input, but refuses an empty one with `Digit`.
#[inline(always)]
pub fn digit1<I, E>() -> Digit1<I, E> {
    Digit1 { error: PhantomData }
}

/// Matches zero or more spaces, tabs, `\r` or `\n`.
///
/// If all items match, streaming needs 1 more, and complete accepts the whole input.
#[inline(always)]
pub fn multispace0<I, E>() -> MultiSpace0<I, E> {
    MultiSpace0 { error: PhantomData }
}

/// Returns the first item as a character.
///
/// In both modes an empty input is refused with `Eof`.
#[inline(always)]
pub fn anychar<T: Input, E: ParseError<T>>(input: T) -> IResult<T, char, E>
where
    T::Item: AsChar,
    ensures { AnswersBy T.model itself (λ t c. c ≡ t) (anychar_meaning T.model T.Item.code E.errors) false input result }
{
    let mut parser = AnyChar::<T, E>::new();
    answer(&mut parser, input)
}

/// Returns whether the byte is an ASCII letter.
#[inline(always)]
pub fn is_alphabetic(chr: u8) -> bool
    ensures { result ≡ is_alpha_code chr }
{
    chr.is_alpha()
}

/// Returns whether the byte is a decimal digit, `0` to `9`.
#[inline(always)]
pub fn is_digit(chr: u8) -> bool
    ensures { result ≡ is_dec_digit_code chr }
{
    chr.is_dec_digit()
}

/// Returns whether the byte is a hexadecimal digit, `0` to `9`, `A` to `F` or `a` to `f`.
#[inline(always)]
pub fn is_hex_digit(chr: u8) -> bool
    ensures { result ≡ is_hex_digit_code chr }
{
    chr.is_hex_digit()
}

/// Returns whether the byte is an octal digit, `0` to `7`.
#[inline(always)]
pub fn is_oct_digit(chr: u8) -> bool
    ensures { result ≡ is_oct_digit_code chr }
{
    chr.is_oct_digit()
}

/// Returns whether the byte is a binary digit, `0` or `1`.
#[inline(always)]
pub fn is_bin_digit(chr: u8) -> bool
    ensures { result ≡ is_bin_digit_code chr }
{
    chr.is_bin_digit()
}

/// Returns whether the byte is an ASCII letter or a decimal digit.
#[inline(always)]
pub fn is_alphanumeric(chr: u8) -> bool
    ensures { result ≡ is_alphanum_code chr }
{
    chr.is_alphanum()
}

/// Returns whether the byte is a space or a tab.
#[inline(always)]
pub fn is_space(chr: u8) -> bool
    ensures { result ≡ is_space_code chr }
{
    chr.is_space()
}

/// Returns whether the byte is the end of a line, `\n`.
#[inline(always)]
pub fn is_newline(chr: u8) -> bool
    ensures { result ≡ is_newline_code chr }
{
    chr.is_newline()
}
