//! Integers in decimal digits, in streaming mode.
//!
//! Each parser reads all digits that follow. It refuses with `Digit`, at the start of the input, if there is
//! no digit. It does the same as soon as a digit takes the number out of the range of its type. If no item
//! follows the digits, it needs 1 more.
ghost use Rattle.std.specs.Prelude.{◌≡◌, pos, true};
ghost use Rattle.std.specs.Int.{w8, w16, w32, w64, w128};
ghost use Rattle.nom_internal.specs.Prelude.{itself};
ghost use Rattle.nom_calls.specs.Func.{StreamsBy};
ghost use Rattle.nom_character_integer.specs.Integers.{integer_meaning, signed_meaning, unsigned_meaning};

use crate::integer::Integer;
use nom_calls::answer::stream_answer;
use nom_error::answer::IResult;
use nom_error::value::ParseError;
use nom_traits::character::AsChar;
use nom_traits::input::Input;
use nom_traits::view::Viewed;
use num_traits::PrimInt;
use std::marker::PhantomData;

/// Parses an integer of the type `N`; `signed` allows a sign before it.
#[inline(always)]
fn of_type<N: PrimInt + Viewed, T: Input, E: ParseError<T>>(
    input: T,
    signed: bool,
) -> IResult<T, N, E>
where
    T::Item: AsChar,
    requires { (x y : N) → N.value x ≡ N.value y → N.view.value x ≡ N.view.value y }
    ensures { StreamsBy T.model N.view (λ z x. N.value x ≡ z) (integer_meaning T.model T.Item.code signed N.fits E.errors) true input result }
{
    let mut integer = Integer::<N, T, E> {
        signed,
        types: PhantomData,
    };
    stream_answer(&mut integer, input)
}

/// Parses one or more decimal digits as a number below 2^8.
#[inline(always)]
pub fn u8<T: Input, E: ParseError<T>>(input: T) -> IResult<T, u8, E>
where
    T::Item: AsChar,
    ensures { StreamsBy T.model itself (λ z x. pos x ≡ z) (unsigned_meaning T.model T.Item.code 8 E.errors) true input result }
{
    of_type::<u8, T, E>(input, false)
}

/// Parses one or more decimal digits as a number below 2^16.
#[inline(always)]
pub fn u16<T: Input, E: ParseError<T>>(input: T) -> IResult<T, u16, E>
where
    T::Item: AsChar,
    ensures { StreamsBy T.model itself (λ z x. pos x ≡ z) (unsigned_meaning T.model T.Item.code 16 E.errors) true input result }
{
    of_type::<u16, T, E>(input, false)
}

/// Parses one or more decimal digits as a number below 2^32.
#[inline(always)]
pub fn u32<T: Input, E: ParseError<T>>(input: T) -> IResult<T, u32, E>
where
    T::Item: AsChar,
    ensures { StreamsBy T.model itself (λ z x. pos x ≡ z) (unsigned_meaning T.model T.Item.code 32 E.errors) true input result }
{
    of_type::<u32, T, E>(input, false)
}

/// Parses one or more decimal digits as a number below 2^64.
#[inline(always)]
pub fn u64<T: Input, E: ParseError<T>>(input: T) -> IResult<T, u64, E>
where
    T::Item: AsChar,
    ensures { StreamsBy T.model itself (λ z x. pos x ≡ z) (unsigned_meaning T.model T.Item.code 64 E.errors) true input result }
{
    of_type::<u64, T, E>(input, false)
}

/// Parses one or more decimal digits as a number below 2^128.
#[inline(always)]
pub fn u128<T: Input, E: ParseError<T>>(input: T) -> IResult<T, u128, E>
where
    T::Item: AsChar,
    ensures { StreamsBy T.model itself (λ z x. pos x ≡ z) (unsigned_meaning T.model T.Item.code 128 E.errors) true input result }
{
    of_type::<u128, T, E>(input, false)
}

/// Parses one or more decimal digits as a number below 2^64.
#[inline(always)]
pub fn usize<T: Input, E: ParseError<T>>(input: T) -> IResult<T, usize, E>
where
    T::Item: AsChar,
    ensures { StreamsBy T.model itself (λ z x. pos x ≡ z) (unsigned_meaning T.model T.Item.code 64 E.errors) true input result }
{
    of_type::<usize, T, E>(input, false)
}

/// Parses an optional sign, `+` or `-`, and one or more decimal digits, as a number from -2^7 up and below
/// 2^7.
#[inline(always)]
pub fn i8<T: Input, E: ParseError<T>>(input: T) -> IResult<T, i8, E>
where
    T::Item: AsChar,
    ensures { StreamsBy T.model itself (λ z x. x ≡ z) (signed_meaning T.model T.Item.code w8 E.errors) true input result }
{
    of_type::<i8, T, E>(input, true)
}

/// Parses an optional sign, `+` or `-`, and one or more decimal digits, as a number from -2^15 up and below
/// 2^15.
#[inline(always)]
pub fn i16<T: Input, E: ParseError<T>>(input: T) -> IResult<T, i16, E>
where
    T::Item: AsChar,
    ensures { StreamsBy T.model itself (λ z x. x ≡ z) (signed_meaning T.model T.Item.code w16 E.errors) true input result }
{
    of_type::<i16, T, E>(input, true)
}

/// Parses an optional sign, `+` or `-`, and one or more decimal digits, as a number from -2^31 up and below
/// 2^31.
#[inline(always)]
pub fn i32<T: Input, E: ParseError<T>>(input: T) -> IResult<T, i32, E>
where
    T::Item: AsChar,
    ensures { StreamsBy T.model itself (λ z x. x ≡ z) (signed_meaning T.model T.Item.code w32 E.errors) true input result }
{
    of_type::<i32, T, E>(input, true)
}

/// Parses an optional sign, `+` or `-`, and one or more decimal digits, as a number from -2^63 up and below
/// 2^63.
#[inline(always)]
pub fn i64<T: Input, E: ParseError<T>>(input: T) -> IResult<T, i64, E>
where
    T::Item: AsChar,
    ensures { StreamsBy T.model itself (λ z x. x ≡ z) (signed_meaning T.model T.Item.code w64 E.errors) true input result }
{
    of_type::<i64, T, E>(input, true)
}

/// Parses an optional sign, `+` or `-`, and one or more decimal digits, as a number from -2^127 up and below
/// 2^127.
#[inline(always)]
pub fn i128<T: Input, E: ParseError<T>>(input: T) -> IResult<T, i128, E>
where
    T::Item: AsChar,
    ensures { StreamsBy T.model itself (λ z x. x ≡ z) (signed_meaning T.model T.Item.code w128 E.errors) true input result }
{
    of_type::<i128, T, E>(input, true)
}

/// Parses an optional sign, `+` or `-`, and one or more decimal digits, as a number from -2^63 up and below
/// 2^63.
#[inline(always)]
pub fn isize<T: Input, E: ParseError<T>>(input: T) -> IResult<T, isize, E>
where
    T::Item: AsChar,
    ensures { StreamsBy T.model itself (λ z x. x ≡ z) (signed_meaning T.model T.Item.code w64 E.errors) true input result }
{
    of_type::<isize, T, E>(input, true)
}
