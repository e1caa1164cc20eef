//! Parsers of characters that always run in complete mode, whatever mode is requested.
ghost use Rattle.std.specs.Prelude.{◌≡◌, Some, None, false};
ghost use Rattle.nom_internal.specs.Prelude.{IsModelledBy, itself};
ghost use Rattle.nom_calls.specs.Func.{AnswersBy};
ghost use Rattle.nom_character.specs.ClassRuns.{class_meaning};
ghost use Rattle.nom_character_first.specs.FirstItem.{anychar_meaning, char_meaning};
ghost use Rattle.nom_character.specs.LineMatches.{crlf_meaning, line_ending_meaning, line_meaning};

use crate::class::ClassRun;
use crate::line::{Crlf, LineEnding, NotLineEnding, line_match};
use crate::predicate::{CharOutside, CharWhere, CharWithin};
use crate::{AnyChar, Char, Fixed, Satisfy};
use nom_calls::answer::answer;
use nom_error::answer::IResult;
use nom_error::kind::ErrorKind;
use nom_error::mode::Complete;
use nom_error::value::ParseError;
use nom_internal::one_mode::fixed;
use nom_traits::character::{AsChar, AsciiClass};
use nom_traits::input::Input;
use std::marker::PhantomData;

/// Works like `character::char`, always in complete mode.
#[inline(always)]
pub fn char<I, E>(c: char) -> Fixed<Char<I, E>, Complete>
    ensures { result.parser.wanted ≡ c }
{
    fixed(crate::char(c))
}

/// Works like `character::satisfy`, always in complete mode.
#[inline(always)]
pub fn satisfy<F, I, E>(predicate: F) -> Fixed<Satisfy<CharWhere<F>, I, E>, Complete>
    ensures predicate { result.parser.predicate.test ≡ predicate }
    ensures kind { result.parser.kind ≡ ErrorKind.Satisfy }
{
    fixed(crate::satisfy(predicate))
}

/// Works like `character::one_of`, always in complete mode.
#[inline(always)]
pub fn one_of<I, T, E>(list: T) -> Fixed<Satisfy<CharWithin<T>, I, E>, Complete>
    ensures predicate { result.parser.predicate.list ≡ list }
    ensures kind { result.parser.kind ≡ ErrorKind.OneOf }
{
    fixed(crate::one_of(list))
}

/// Works like `character::none_of`, always in complete mode.
#[inline(always)]
pub fn none_of<I, T, E>(list: T) -> Fixed<Satisfy<CharOutside<T>, I, E>, Complete>
    ensures predicate { result.parser.predicate.list ≡ list }
    ensures kind { result.parser.kind ≡ ErrorKind.NoneOf }
{
    fixed(crate::none_of(list))
}

/// Accepts the run of items in the class, in complete mode.
///
/// It accepts one or more items if `wanted` has the kind for a refusal, and otherwise zero or more.
#[inline(always)]
fn of_class<T: Input, E: ParseError<T>>(
    input: T,
    class: AsciiClass,
    wanted: Option<ErrorKind>,
) -> IResult<T, T, E>
where
    T::Item: AsChar,
    ensures { AnswersBy T.model T.view (IsModelledBy T.model) (class_meaning T.model T.Item.code E.errors class wanted) false input result }
{
    let mut run = ClassRun::<T, E> {
        class,
        wanted,
        error: PhantomData,
    };
    answer(&mut run, input)
}

/// Matches zero or more letters, `A` to `Z` or `a` to `z`.
#[inline(always)]
pub fn alpha0<T: Input, E: ParseError<T>>(input: T) -> IResult<T, T, E>
where
    T::Item: AsChar,
    ensures { AnswersBy T.model T.view (IsModelledBy T.model) (class_meaning T.model T.Item.code E.errors AsciiClass.Alpha None) false input result }
{
    of_class(input, AsciiClass::Alpha, None)
}

/// Matches one or more letters, `A` to `Z` or `a` to `z`.
///
/// If there is none, it refuses with `Alpha`.
#[inline(always)]
pub fn alpha1<T: Input, E: ParseError<T>>(input: T) -> IResult<T, T, E>
where
    T::Item: AsChar,
    ensures { AnswersBy T.model T.view (IsModelledBy T.model) (class_meaning T.model T.Item.code E.errors AsciiClass.Alpha (Some ErrorKind.Alpha)) false input
        result }
{
    of_class(input, AsciiClass::Alpha, Some(ErrorKind::Alpha))
}

/// Matches zero or more decimal digits, `0` to `9`.
#[inline(always)]
pub fn digit0<T: Input, E: ParseError<T>>(input: T) -> IResult<T, T, E>
where
    T::Item: AsChar,
    ensures { AnswersBy T.model T.view (IsModelledBy T.model) (class_meaning T.model T.Item.code E.errors AsciiClass.Digit None) false input result }
{
    of_class(input, AsciiClass::Digit, None)
}

/// Matches one or more decimal digits, `0` to `9`.
///
/// If there is none, it refuses with `Digit`.
#[inline(always)]
pub fn digit1<T: Input, E: ParseError<T>>(input: T) -> IResult<T, T, E>
where
    T::Item: AsChar,
    ensures { AnswersBy T.model T.view (IsModelledBy T.model) (class_meaning T.model T.Item.code E.errors AsciiClass.Digit (Some ErrorKind.Digit)) false input
        result }
{
    of_class(input, AsciiClass::Digit, Some(ErrorKind::Digit))
}

/// Matches zero or more hexadecimal digits, `0` to `9`, `A` to `F` or `a` to `f`.
#[inline(always)]
pub fn hex_digit0<T: Input, E: ParseError<T>>(input: T) -> IResult<T, T, E>
where
    T::Item: AsChar,
    ensures { AnswersBy T.model T.view (IsModelledBy T.model) (class_meaning T.model T.Item.code E.errors AsciiClass.HexDigit None) false input result }
{
    of_class(input, AsciiClass::HexDigit, None)
}

/// Matches one or more hexadecimal digits, `0` to `9`, `A` to `F` or `a` to `f`.
///
/// If there is none, it refuses with `HexDigit`.
#[inline(always)]
pub fn hex_digit1<T: Input, E: ParseError<T>>(input: T) -> IResult<T, T, E>
where
    T::Item: AsChar,
    ensures { AnswersBy T.model T.view (IsModelledBy T.model) (class_meaning T.model T.Item.code E.errors AsciiClass.HexDigit (Some ErrorKind.HexDigit)) false
        input result }
{
    of_class(input, AsciiClass::HexDigit, Some(ErrorKind::HexDigit))
}

/// Matches zero or more octal digits, `0` to `7`.
#[inline(always)]
pub fn oct_digit0<T: Input, E: ParseError<T>>(input: T) -> IResult<T, T, E>
where
    T::Item: AsChar,
    ensures { AnswersBy T.model T.view (IsModelledBy T.model) (class_meaning T.model T.Item.code E.errors AsciiClass.OctDigit None) false input result }
{
    of_class(input, AsciiClass::OctDigit, None)
}

/// Matches one or more octal digits, `0` to `7`.
///
/// If there is none, it refuses with `OctDigit`.
#[inline(always)]
pub fn oct_digit1<T: Input, E: ParseError<T>>(input: T) -> IResult<T, T, E>
where
    T::Item: AsChar,
    ensures { AnswersBy T.model T.view (IsModelledBy T.model) (class_meaning T.model T.Item.code E.errors AsciiClass.OctDigit (Some ErrorKind.OctDigit)) false
        input result }
{
    of_class(input, AsciiClass::OctDigit, Some(ErrorKind::OctDigit))
}

/// Matches zero or more binary digits, `0` or `1`.
#[inline(always)]
pub fn bin_digit0<T: Input, E: ParseError<T>>(input: T) -> IResult<T, T, E>
where
    T::Item: AsChar,
    ensures { AnswersBy T.model T.view (IsModelledBy T.model) (class_meaning T.model T.Item.code E.errors AsciiClass.BinDigit None) false input result }
{
    of_class(input, AsciiClass::BinDigit, None)
}

/// Matches one or more binary digits, `0` or `1`.
///
/// If there is none, it refuses with `BinDigit`.
#[inline(always)]
pub fn bin_digit1<T: Input, E: ParseError<T>>(input: T) -> IResult<T, T, E>
where
    T::Item: AsChar,
    ensures { AnswersBy T.model T.view (IsModelledBy T.model) (class_meaning T.model T.Item.code E.errors AsciiClass.BinDigit (Some ErrorKind.BinDigit)) false
        input result }
{
    of_class(input, AsciiClass::BinDigit, Some(ErrorKind::BinDigit))
}

/// Matches zero or more letters (`A` to `Z` or `a` to `z`) or decimal digits.
#[inline(always)]
pub fn alphanumeric0<T: Input, E: ParseError<T>>(input: T) -> IResult<T, T, E>
where
    T::Item: AsChar,
    ensures { AnswersBy T.model T.view (IsModelledBy T.model) (class_meaning T.model T.Item.code E.errors AsciiClass.Alphanumeric None) false input result }
{
    of_class(input, AsciiClass::Alphanumeric, None)
}

/// Matches one or more letters (`A` to `Z` or `a` to `z`) or decimal digits.
///
/// If there is none, it refuses with `AlphaNumeric`.
#[inline(always)]
pub fn alphanumeric1<T: Input, E: ParseError<T>>(input: T) -> IResult<T, T, E>
where
    T::Item: AsChar,
    ensures { AnswersBy T.model T.view (IsModelledBy T.model) (class_meaning T.model T.Item.code E.errors AsciiClass.Alphanumeric (Some ErrorKind.AlphaNumeric))
        false input result }
{
    of_class(
        input,
        AsciiClass::Alphanumeric,
        Some(ErrorKind::AlphaNumeric),
    )
}

/// Matches zero or more spaces or tabs.
#[inline(always)]
pub fn space0<T: Input, E: ParseError<T>>(input: T) -> IResult<T, T, E>
where
    T::Item: AsChar,
    ensures { AnswersBy T.model T.view (IsModelledBy T.model) (class_meaning T.model T.Item.code E.errors AsciiClass.Space None) false input result }
{
    of_class(input, AsciiClass::Space, None)
}

/// Matches one or more spaces or tabs.
///
/// If there is none, it refuses with `Space`.
#[inline(always)]
pub fn space1<T: Input, E: ParseError<T>>(input: T) -> IResult<T, T, E>
where
    T::Item: AsChar,
    ensures { AnswersBy T.model T.view (IsModelledBy T.model) (class_meaning T.model T.Item.code E.errors AsciiClass.Space (Some ErrorKind.Space)) false input
        result }
{
    of_class(input, AsciiClass::Space, Some(ErrorKind::Space))
}

/// Matches zero or more spaces, tabs, `\r` or `\n`.
#[inline(always)]
pub fn multispace0<T: Input, E: ParseError<T>>(input: T) -> IResult<T, T, E>
where
    T::Item: AsChar,
    ensures { AnswersBy T.model T.view (IsModelledBy T.model) (class_meaning T.model T.Item.code E.errors AsciiClass.MultiSpace None) false input result }
{
    of_class(input, AsciiClass::MultiSpace, None)
}

/// Matches one or more spaces, tabs, `\r` or `\n`.
///
/// If there is none, it refuses with `MultiSpace`.
#[inline(always)]
pub fn multispace1<T: Input, E: ParseError<T>>(input: T) -> IResult<T, T, E>
where
    T::Item: AsChar,
    ensures { AnswersBy T.model T.view (IsModelledBy T.model) (class_meaning T.model T.Item.code E.errors AsciiClass.MultiSpace (Some ErrorKind.MultiSpace))
        false
        input result }
{
    of_class(input, AsciiClass::MultiSpace, Some(ErrorKind::MultiSpace))
}

/// Returns the first item as a character.
///
/// An empty input is refused with `Eof`.
#[inline(always)]
pub fn anychar<T: Input, E: ParseError<T>>(input: T) -> IResult<T, char, E>
where
    T::Item: AsChar,
    ensures { AnswersBy T.model itself (λ t c. c ≡ t) (anychar_meaning T.model T.Item.code E.errors) false input result }
{
    let mut parser = AnyChar::<T, E>::new();
    answer(&mut parser, input)
}

/// Matches the end of a line, `\n`.
///
/// Any other input is refused by the error type's `from_char`, even an empty one.
#[inline(always)]
pub fn newline<T: Input, E: ParseError<T>>(input: T) -> IResult<T, char, E>
where
    T::Item: AsChar,
    ensures { AnswersBy T.model itself (λ t c. c ≡ t) (char_meaning T.model T.Item.code E.errors 10) false input result }
{
    let mut parser = Char::<T, E> {
        wanted: '\n',
        error: PhantomData,
    };
    answer(&mut parser, input)
}

/// Matches a tab.
///
/// Any other input is refused by the error type's `from_char`, even an empty one.
#[inline(always)]
pub fn tab<T: Input, E: ParseError<T>>(input: T) -> IResult<T, char, E>
where
    T::Item: AsChar,
    ensures { AnswersBy T.model itself (λ t c. c ≡ t) (char_meaning T.model T.Item.code E.errors 9) false input result }
{
    let mut parser = Char::<T, E> {
        wanted: '\t',
        error: PhantomData,
    };
    answer(&mut parser, input)
}

/// Matches `\r\n`.
///
/// Any other input is refused with `CrLf`, even one that ends too early.
#[inline(always)]
pub fn crlf<T: Input, E: ParseError<T>>(input: T) -> IResult<T, T, E>
where
    T::Item: AsChar,
    ensures { AnswersBy T.model T.view (IsModelledBy T.model) (crlf_meaning T.model T.Item.code E.errors) false input result }
{
    let mut parser = line_match::<Crlf, T, E>();
    answer(&mut parser, input)
}

/// Matches the end of a line, `\n` or `\r\n`.
///
/// Any other input is refused with `CrLf`, even one that ends too early.
#[inline(always)]
pub fn line_ending<T: Input, E: ParseError<T>>(input: T) -> IResult<T, T, E>
where
    T::Item: AsChar,
    ensures { AnswersBy T.model T.view (IsModelledBy T.model) (line_ending_meaning T.model T.Item.code E.errors) false input result }
{
    let mut parser = line_match::<LineEnding, T, E>();
    answer(&mut parser, input)
}

/// Accepts the items before the first `\n` or `\r\n`. There may be none.
///
/// If the input has neither `\r` nor `\n`, all items are accepted. If the first of these is an `\r` without a
/// `\n` after it, the parser refuses with `Tag`.
#[inline(always)]
pub fn not_line_ending<T: Input, E: ParseError<T>>(input: T) -> IResult<T, T, E>
where
    T::Item: AsChar,
    ensures { AnswersBy T.model T.view (IsModelledBy T.model) (line_meaning T.model T.Item.code E.errors) false input result }
{
    let mut parser = line_match::<NotLineEnding, T, E>();
    answer(&mut parser, input)
}
