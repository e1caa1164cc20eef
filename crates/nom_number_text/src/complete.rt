//! Numbers and shapes written in digits, in complete mode.
ghost use Rattle.std.specs.Prelude.{◌≡◌, false};
ghost use Rattle.nom_internal.specs.Prelude.{IsModelledBy, itself, view_4, EitherOutput};
ghost use Rattle.nom_calls.specs.Func.{AnswersBy};
ghost use Rattle.nom_number_text.specs.Floats.{float_meaning};
ghost use Rattle.nom_number_text.specs.Hex.{hex_meaning};
ghost use Rattle.nom_number_text.specs.Parts.{IsParts, parts_meaning};
ghost use Rattle.nom_number_text.specs.Exceptions.{as_float_meaning, exceptions_meaning};

use crate::exceptions::OrExceptions;
use crate::float::RecognizeFloat;
use crate::hex::HexU32;
use crate::kind::AsFloat;
use crate::part::FloatParts;
use nom_calls::answer::answer;
use nom_error::answer::IResult;
use nom_error::value::ParseError;
use nom_traits::character::AsChar;
use nom_traits::input::Input;
use std::marker::PhantomData;

/// Parses a number of at most eight hexadecimal digits.
///
/// The digits end at the first other item. If there are more than eight, the first eight are read, and the
/// rest begins after them. If there is no digit, the parser refuses with `IsA`.
#[inline(always)]
pub fn hex_u32<I: Input, E: ParseError<I>>(input: I) -> IResult<I, u32, E>
where
    I::Item: AsChar,
    ensures { AnswersBy I.model itself (λ t v. v ≡ t) (hex_meaning I.model I.Item.code E.errors) false input result }
{
    let mut parser = HexU32::<I, E> { error: PhantomData };
    answer(&mut parser, input)
}

/// Matches the shape of a decimal fraction, as `recognize_float` at the crate root does.
#[inline(always)]
pub fn recognize_float<T: Input, E: ParseError<T>>(input: T) -> IResult<T, T, E>
where
    T::Item: AsChar,
    ensures { AnswersBy T.model T.view (IsModelledBy T.model) (float_meaning T.model T.Item.code E.errors) false input result }
{
    let mut parser = RecognizeFloat::<T, E> { error: PhantomData };
    answer(&mut parser, input)
}

/// Matches the shape of a decimal fraction, or `nan`, `infinity` or `inf` in any case.
///
/// Unlike the parser at the crate root, it replaces the error of the fraction by one of kind `Float` at the
/// start.
#[inline(always)]
pub fn recognize_float_or_exceptions<T: Input, E: ParseError<T>>(input: T) -> IResult<T, T, E>
where
    T::Item: AsChar,
    ensures { AnswersBy T.model T.view (EitherOutput (EitherOutput (EitherOutput (IsModelledBy T.model) (IsModelledBy T.model)) (IsModelledBy T.model))
        (IsModelledBy T.model))
        (exceptions_meaning T.model T.Item.code E.errors (as_float_meaning E.errors (float_meaning T.model T.Item.code E.errors))) false input result }
{
    let mut parser = OrExceptions {
        parser: AsFloat {
            parser: RecognizeFloat::<T, E> { error: PhantomData },
        },
    };
    answer(&mut parser, input)
}

/// Returns the sign, integer, fraction and power of ten of a decimal fraction.
///
/// The sign is false for a minus. The integer has no leading zeros, and the fraction no trailing zeros. A
/// part of zeros alone keeps one.
///
/// A digit must appear before or after the point. Otherwise the parser refuses with `Float` at the start.
/// After an `e` or `E`, an integer of type `i32` must follow. Otherwise the parser fails with `Digit`.
/// Without an `e` or `E` the power is 0.
#[inline(always)]
pub fn recognize_float_parts<T: Input, E: ParseError<T>>(
    input: T,
) -> IResult<T, (bool, T, T, i32), E>
where
    T::Item: AsChar,
    ensures { AnswersBy T.model (view_4 itself T.view T.view itself) (IsParts T.model T.Item.code) (parts_meaning T.model T.Item.code E.errors) false
        input result }
{
    let mut parser = FloatParts::<T, E> { error: PhantomData };
    answer(&mut parser, input)
}
