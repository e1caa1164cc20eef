//! Parsers of characters that always run in streaming mode, whatever mode is requested.
ghost use Rattle.std.specs.Prelude.{◌≡◌, Some, None, true};
ghost use Rattle.nom_internal.specs.Prelude.{IsModelledBy, itself};
ghost use Rattle.nom_calls.specs.Func.{StreamsBy};
ghost use Rattle.nom_character.specs.ClassRuns.{class_meaning};
ghost use Rattle.nom_character_first.specs.FirstItem.{anychar_meaning, char_meaning};
ghost use Rattle.nom_character.specs.LineMatches.{crlf_meaning, line_ending_meaning, line_meaning};

use crate::class::ClassRun;
use crate::line::{Crlf, LineEnding, NotLineEnding, line_match};
use crate::predicate::{CharOutside, CharWhere, CharWithin};
use crate::{AnyChar, Char, Fixed, Satisfy};
use nom_calls::answer::stream_answer;
use nom_error::answer::IResult;
use nom_error::kind::ErrorKind;
use nom_error::mode::Streaming;
use nom_error::value::ParseError;
use nom_internal::one_mode::fixed;
use nom_traits::character::{AsChar, AsciiClass};
use nom_traits::input::Input;
use std::marker::PhantomData;

/// Works like `character::char`, always in streaming mode.
#[inline(always)]
pub fn char<I, E>(c: char) -> Fixed<Char<I, E>, Streaming>
    ensures { result.parser.wanted ≡ c }
{
    fixed(crate::char(c))
}

/// Works like `character::satisfy`, always in streaming mode.
#[inline(always)]
pub fn satisfy<F, I, E>(predicate: F) -> Fixed<Satisfy<CharWhere<F>, I, E>, Streaming>
    ensures predicate { result.parser.predicate.test ≡ predicate }
    ensures kind { result.parser.kind ≡ ErrorKind.Satisfy }
{
    fixed(crate::satisfy(predicate))
}

/// Works like `character::one_of`, always in streaming mode.
#[inline(always)]
pub fn one_of<I, T, E>(list: T) -> Fixed<Satisfy<CharWithin<T>, I, E>, Streaming>
    ensures predicate { result.parser.predicate.list ≡ list }
    ensures kind { result.parser.kind ≡ ErrorKind.OneOf }
{
    fixed(crate::one_of(list))
}

/// Works like `character::none_of`, always in streaming mode.
#[inline(always)]
pub fn none_of<I, T, E>(list: T) -> Fixed<Satisfy<CharOutside<T>, I, E>, Streaming>
    ensures predicate { result.parser.predicate.list ≡ list }
    ensures kind { result.parser.kind ≡ ErrorKind.NoneOf }
{
    fixed(crate::none_of(list))
}

/// Accepts the run of items in the class, in streaming mode.
///
/// It accepts one or more items if `wanted` has the kind for a refusal, and otherwise zero or more.
#[inline(always)]
fn of_class<T: Input, E: ParseError<T>>(
    input: T,
    class: AsciiClass,
    wanted: Option<ErrorKind>,
) -> IResult<T, T, E>
where
    T::Item: AsChar,
    ensures { StreamsBy T.model T.view (IsModelledBy T.model) (class_meaning T.model T.Item.code E.errors class wanted) true input result }
{
    let mut run = ClassRun::<T, E> {
        class,
        wanted,
        error: PhantomData,
    };
    stream_answer(&mut run, input)
}

/// Matches zero or more letters, `A` to `Z` or `a` to `z`.
///
/// If all items match, it needs 1 more.
#[inline(always)]
pub fn alpha0<T: Input, E: ParseError<T>>(input: T) -> IResult<T, T, E>
where
    T::Item: AsChar,
    ensures { StreamsBy T.model T.view (IsModelledBy T.model) (class_meaning T.model T.Item.code E.errors AsciiClass.Alpha None) true input result }
{
    of_class(input, AsciiClass::Alpha, None)
}

/// Matches one or more letters, `A` to `Z` or `a` to `z`.
///
/// If the first item is another, it refuses with `Alpha`. If all items match, or the input is empty, it needs
/// 1 more.
#[inline(always)]
pub fn alpha1<T: Input, E: ParseError<T>>(input: T) -> IResult<T, T, E>
where
    T::Item: AsChar,
    ensures { StreamsBy T.model T.view (IsModelledBy T.model) (class_meaning T.model T.Item.code E.errors AsciiClass.Alpha (Some ErrorKind.Alpha)) true input
        result }
{
    of_class(input, AsciiClass::Alpha, Some(ErrorKind::Alpha))
}

/// Matches zero or more decimal digits, `0` to `9`.
///
/// If all items match, it needs 1 more.
#[inline(always)]
pub fn digit0<T: Input, E: ParseError<T>>(input: T) -> IResult<T, T, E>
where
    T::Item: AsChar,
    ensures { StreamsBy T.model T.view (IsModelledBy T.model) (class_meaning T.model T.Item.code E.errors AsciiClass.Digit None) true input result }
{
    of_class(input, AsciiClass::Digit, None)
}

/// Matches one or more decimal digits, `0` to `9`.
///
/// If the first item is another, it refuses with `Digit`. If all items match, or the input is empty, it needs
/// 1 more.
#[inline(always)]
pub fn digit1<T: Input, E: ParseError<T>>(input: T) -> IResult<T, T, E>
where
    T::Item: AsChar,
    ensures { StreamsBy T.model T.view (IsModelledBy T.model) (class_meaning T.model T.Item.code E.errors AsciiClass.Digit (Some ErrorKind.Digit)) true input
        result }
{
    of_class(input, AsciiClass::Digit, Some(ErrorKind::Digit))
}

/// Matches zero or more hexadecimal digits, `0` to `9`, `A` to `F` or `a` to `f`.
///
/// If all items match, it needs 1 more.
#[inline(always)]
pub fn hex_digit0<T: Input, E: ParseError<T>>(input: T) -> IResult<T, T, E>
where
    T::Item: AsChar,
    ensures { StreamsBy T.model T.view (IsModelledBy T.model) (class_meaning T.model T.Item.code E.errors AsciiClass.HexDigit None) true input result }
{
    of_class(input, AsciiClass::HexDigit, None)
}

/// Matches one or more hexadecimal digits, `0` to `9`, `A` to `F` or `a` to `f`.
///
/// If the first item is another, it refuses with `HexDigit`. If all items match, or the input is empty, it
/// needs 1 more.
#[inline(always)]
pub fn hex_digit1<T: Input, E: ParseError<T>>(input: T) -> IResult<T, T, E>
where
    T::Item: AsChar,
    ensures { StreamsBy T.model T.view (IsModelledBy T.model) (class_meaning T.model T.Item.code E.errors AsciiClass.HexDigit (Some ErrorKind.HexDigit)) true
        input result }
{
    of_class(input, AsciiClass::HexDigit, Some(ErrorKind::HexDigit))
}

/// Matches zero or more octal digits, `0` to `7`.
///
/// If all items match, it needs 1 more.
#[inline(always)]
pub fn oct_digit0<T: Input, E: ParseError<T>>(input: T) -> IResult<T, T, E>
where
    T::Item: AsChar,
    ensures { StreamsBy T.model T.view (IsModelledBy T.model) (class_meaning T.model T.Item.code E.errors AsciiClass.OctDigit None) true input result }
{
    of_class(input, AsciiClass::OctDigit, None)
}

/// Matches one or more octal digits, `0` to `7`.
///
/// If the first item is another, it refuses with `OctDigit`. If all items match, or the input is empty, it
/// needs 1 more.
#[inline(always)]
pub fn oct_digit1<T: Input, E: ParseError<T>>(input: T) -> IResult<T, T, E>
where
    T::Item: AsChar,
    ensures { StreamsBy T.model T.view (IsModelledBy T.model) (class_meaning T.model T.Item.code E.errors AsciiClass.OctDigit (Some ErrorKind.OctDigit)) true
        input result }
{
    of_class(input, AsciiClass::OctDigit, Some(ErrorKind::OctDigit))
}

/// Matches zero or more binary digits, `0` or `1`.
///
/// If all items match, it needs 1 more.
#[inline(always)]
pub fn bin_digit0<T: Input, E: ParseError<T>>(input: T) -> IResult<T, T, E>
where
    T::Item: AsChar,
    ensures { StreamsBy T.model T.view (IsModelledBy T.model) (class_meaning T.model T.Item.code E.errors AsciiClass.BinDigit None) true input result }
{
    of_class(input, AsciiClass::BinDigit, None)
}

/// Matches one or more binary digits, `0` or `1`.
///
/// If the first item is another, it refuses with `BinDigit`. If all items match, or the input is empty, it
/// needs 1 more.
#[inline(always)]
pub fn bin_digit1<T: Input, E: ParseError<T>>(input: T) -> IResult<T, T, E>
where
    T::Item: AsChar,
    ensures { StreamsBy T.model T.view (IsModelledBy T.model) (class_meaning T.model T.Item.code E.errors AsciiClass.BinDigit (Some ErrorKind.BinDigit)) true
        input result }
{
    of_class(input, AsciiClass::BinDigit, Some(ErrorKind::BinDigit))
}

/// Matches zero or more letters (`A` to `Z` or `a` to `z`) or decimal digits.
///
/// If all items match, it needs 1 more.
#[inline(always)]
pub fn alphanumeric0<T: Input, E: ParseError<T>>(input: T) -> IResult<T, T, E>
where
    T::Item: AsChar,
    ensures { StreamsBy T.model T.view (IsModelledBy T.model) (class_meaning T.model T.Item.code E.errors AsciiClass.Alphanumeric None) true input result }
{
    of_class(input, AsciiClass::Alphanumeric, None)
}

/// Matches one or more letters (`A` to `Z` or `a` to `z`) or decimal digits.
///
/// If the first item is another, it refuses with `AlphaNumeric`. If all items match, or the input is empty,
/// it needs 1 more.
#[inline(always)]
pub fn alphanumeric1<T: Input, E: ParseError<T>>(input: T) -> IResult<T, T, E>
where
    T::Item: AsChar,
    ensures { StreamsBy T.model T.view (IsModelledBy T.model) (class_meaning T.model T.Item.code E.errors AsciiClass.Alphanumeric (Some ErrorKind.AlphaNumeric))
        true input result }
{
    of_class(
        input,
        AsciiClass::Alphanumeric,
        Some(ErrorKind::AlphaNumeric),
    )
}

/// Matches zero or more spaces or tabs.
///
/// If all items match, it needs 1 more.
#[inline(always)]
pub fn space0<T: Input, E: ParseError<T>>(input: T) -> IResult<T, T, E>
where
    T::Item: AsChar,
    ensures { StreamsBy T.model T.view (IsModelledBy T.model) (class_meaning T.model T.Item.code E.errors AsciiClass.Space None) true input result }
{
    of_class(input, AsciiClass::Space, None)
}

/// Matches one or more spaces or tabs.
///
/// If the first item is another, it refuses with `Space`. If all items match, or the input is empty, it needs
/// 1 more.
#[inline(always)]
pub fn space1<T: Input, E: ParseError<T>>(input: T) -> IResult<T, T, E>
where
    T::Item: AsChar,
    ensures { StreamsBy T.model T.view (IsModelledBy T.model) (class_meaning T.model T.Item.code E.errors AsciiClass.Space (Some ErrorKind.Space)) true input
        result }
{
    of_class(input, AsciiClass::Space, Some(ErrorKind::Space))
}

/// Matches zero or more spaces, tabs, `\r` or `\n`.
///
/// If all items match, it needs 1 more.
#[inline(always)]
pub fn multispace0<T: Input, E: ParseError<T>>(input: T) -> IResult<T, T, E>
where
    T::Item: AsChar,
    ensures { StreamsBy T.model T.view (IsModelledBy T.model) (class_meaning T.model T.Item.code E.errors AsciiClass.MultiSpace None) true input result }
{
    of_class(input, AsciiClass::MultiSpace, None)
}

/// Matches one or more spaces, tabs, `\r` or `\n`.
///
/// If the first item is another, it refuses with `MultiSpace`. If all items match, or the input is empty, it
/// needs 1 more.
#[inline(always)]
pub fn multispace1<T: Input, E: ParseError<T>>(input: T) -> IResult<T, T, E>
where
    T::Item: AsChar,
    ensures { StreamsBy T.model T.view (IsModelledBy T.model) (class_meaning T.model T.Item.code E.errors AsciiClass.MultiSpace (Some ErrorKind.MultiSpace))
        true
        input result }
{
    of_class(input, AsciiClass::MultiSpace, Some(ErrorKind::MultiSpace))
}

/// Returns the first item as a character.
///
/// On an empty input, the parser needs 1.
#[inline(always)]
pub fn anychar<T: Input, E: ParseError<T>>(input: T) -> IResult<T, char, E>
where
    T::Item: AsChar,
    ensures { StreamsBy T.model itself (λ t c. c ≡ t) (anychar_meaning T.model T.Item.code E.errors) true input result }
{
    let mut parser = AnyChar::<T, E>::new();
    stream_answer(&mut parser, input)
}

/// Matches the end of a line, `\n`.
///
/// Any other input is refused by the error type's `from_char`. On an empty input, the parser needs 1.
#[inline(always)]
pub fn newline<T: Input, E: ParseError<T>>(input: T) -> IResult<T, char, E>
where
    T::Item: AsChar,
    ensures { StreamsBy T.model itself (λ t c. c ≡ t) (char_meaning T.model T.Item.code E.errors 10) true input result }
{
    let mut parser = Char::<T, E> {
        wanted: '\n',
        error: PhantomData,
    };
    stream_answer(&mut parser, input)
}

/// Matches a tab.
///
/// Any other input is refused by the error type's `from_char`. On an empty input, the parser needs 1.
#[inline(always)]
pub fn tab<T: Input, E: ParseError<T>>(input: T) -> IResult<T, char, E>
where
    T::Item: AsChar,
    ensures { StreamsBy T.model itself (λ t c. c ≡ t) (char_meaning T.model T.Item.code E.errors 9) true input result }
{
    let mut parser = Char::<T, E> {
        wanted: '\t',
        error: PhantomData,
    };
    stream_answer(&mut parser, input)
}

/// Matches `\r\n`.
///
/// Any other input is refused with `CrLf`. On an empty input, and on a single `\r`, the parser needs 2.
#[inline(always)]
pub fn crlf<T: Input, E: ParseError<T>>(input: T) -> IResult<T, T, E>
where
    T::Item: AsChar,
    ensures { StreamsBy T.model T.view (IsModelledBy T.model) (crlf_meaning T.model T.Item.code E.errors) true input result }
{
    let mut parser = line_match::<Crlf, T, E>();
    stream_answer(&mut parser, input)
}

/// Matches the end of a line, `\n` or `\r\n`.
///
/// Any other input is refused with `CrLf`. On an empty input, the parser needs 1. On a single `\r`, it needs
/// 2.
#[inline(always)]
pub fn line_ending<T: Input, E: ParseError<T>>(input: T) -> IResult<T, T, E>
where
    T::Item: AsChar,
    ensures { StreamsBy T.model T.view (IsModelledBy T.model) (line_ending_meaning T.model T.Item.code E.errors) true input result }
{
    let mut parser = line_match::<LineEnding, T, E>();
    stream_answer(&mut parser, input)
}

/// Accepts the items before the first `\n` or `\r\n`. There may be none.
///
/// If the input has neither `\r` nor `\n`, the parser needs more, of an unknown amount. If the first of these
/// is an `\r`, a `\n` must follow. The parser refuses with `Tag` if another item follows. If the input ends
/// after the `\r`, it needs more, of an unknown amount.
#[inline(always)]
pub fn not_line_ending<T: Input, E: ParseError<T>>(input: T) -> IResult<T, T, E>
where
    T::Item: AsChar,
    ensures { StreamsBy T.model T.view (IsModelledBy T.model) (line_meaning T.model T.Item.code E.errors) true input result }
{
    let mut parser = line_match::<NotLineEnding, T, E>();
    stream_answer(&mut parser, input)
}
