//! Digits in a radix.
ghost use Rattle.std.specs.Prelude.{◌≡◌, ◌≤◌, ◌<◌, ◌%◌, ◌∷◌, [], ℕ, refl};
ghost use Rattle.std.proofs.Common.{arith};
ghost use Rattle.nom_sink.specs.Numerals.{AreDigitsOf, LacksDigits, digit_code};
ghost use Rattle.nom_sink.specs.Written.{LacksRoom, Written};

use crate::error::WriteError;
use crate::piece::Piece;
use crate::sink::Sink;
use nom_traits::input::Value;
use std::marker::PhantomData;

/// A radix of at most 16.
pub trait Radix {
    ghost RADIX: { ℕ };

    /// The number of its digits.
    const RADIX: u128;

    ghost some: { 1 < RADIX };

    ghost most: { RADIX < 17 };
}

/// Decimal digits.
pub struct Ten;

impl Radix for Ten {
    ghost RADIX = { 10 };

    const RADIX: u128 = 10;

    ghost some = { omega arith };

    ghost most = { omega arith };
}

/// Hexadecimal digits, in lower case.
pub struct Sixteen;

impl Radix for Sixteen {
    ghost RADIX = { 16 };

    const RADIX: u128 = 16;

    ghost some = { omega arith };

    ghost most = { omega arith };
}

/// A type of items that has one of each code below 256.
pub trait OfCode: Value {
    ghost of_code: { ℕ → Self };

    /// Adds the item of a code. On an error, `out` is as it was.
    fn put_code<S: Sink<Self>>(code: u8, out: &mut S) -> Result<(), WriteError>
        ensures written { Written (λ xs. xs ≡ of_code code ∷ []) (LacksRoom 1) S.model out.old out.new result }
        ensures room { S.model.room out.old ≤ S.model.room out.new }
        ensures loan { S.model.loan out.new ≡ S.model.loan out.old };

    /// The item of a code has the code.
    ghost coded: { (n : ℕ) → Self.code (of_code n) ≡ n };
}

impl OfCode for u8 {
    ghost of_code = { λ n. n };

    #[inline(always)]
    fn put_code<S: Sink<u8>>(code: u8, out: &mut S) -> Result<(), WriteError> {
        out.add(&[code])
    }

    ghost coded = { λ n. refl };
}

impl OfCode for char {
    ghost of_code = { λ n. n };

    #[inline(always)]
    fn put_code<S: Sink<char>>(code: u8, out: &mut S) -> Result<(), WriteError> {
        out.add(&[code as char])
    }

    ghost coded = { λ n. refl };
}

/// The item of a code.
#[derive(Drop)]
pub struct OneCode(pub u8);

impl<T: OfCode> Piece<T> for OneCode {
    ghost Form = { λ o xs. xs ≡ T.of_code o.0 ∷ [] };

    ghost Fails = { λ o. LacksRoom 1 };

    #[inline(always)]
    fn put<S: Sink<T>>(&self, out: &mut S) -> Result<(), WriteError> {
        T::put_code(self.0, out)
    }
}

/// Returns the code of a number's last digit.
#[inline(always)]
fn last_digit<R: Radix>(number: u128) -> u8
    ensures { result ≡ digit_code (number % R.RADIX) }
{
    let digit = (number % R::RADIX) as u8;
    if digit < 10 { 48 + digit } else { 87 + digit }
}

/// Adds the digits of a number, without leading zeros. On an error, `out` is as it was.
pub fn write_digits<T: OfCode, R: Radix, S: Sink<T>>(
    number: u128,
    out: &mut S,
) -> Result<(), WriteError>
    ensures written { Written (AreDigitsOf T.of_code R.RADIX number) (LacksDigits T.of_code R.RADIX number) S.model out.old out.new result }
    ensures room { S.model.room out.old ≤ S.model.room out.new }
    ensures loan { S.model.loan out.new ≡ S.model.loan out.old }
{
    let last = last_digit::<R>(number);
    if number < R::RADIX {
        return T::put_code(last, out);
    }
    let start = out.len();
    match write_digits::<T, R, S>(number / R::RADIX, out) {
        Ok(()) => match T::put_code(last, out) {
            Ok(()) => Ok(()),
            Err(error) => {
                out.truncate(start);
                Err(error)
            }
        },
        Err(error) => Err(error),
    }
}

/// A number in digits of a radix.
#[derive(Drop)]
pub struct Digits<R>(pub u128, pub PhantomData<R>);

impl<T: OfCode, R: Radix> Piece<T> for Digits<R> {
    ghost Form = { λ o. AreDigitsOf T.of_code R.RADIX o.0 };

    ghost Fails = { λ o. LacksDigits T.of_code R.RADIX o.0 };

    #[inline(always)]
    fn put<S: Sink<T>>(&self, out: &mut S) -> Result<(), WriteError> {
        write_digits::<T, R, S>(self.0, out)
    }
}
