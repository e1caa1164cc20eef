//! Integers in decimal digits.
ghost use Rattle.std.specs.Prelude.{◌≡◌, ◌<◌, neg_ℤ, pos, true, false};
ghost use Rattle.nom_sink.specs.Numerals.{IsSigned, LacksSigned};

use crate::error::WriteError;
use crate::piece::{InTurn, Piece};
use crate::radix::{Digits, OfCode, OneCode, Ten, write_digits};
use crate::sink::Sink;
use nom_traits::view::Viewed;
use num_traits::PrimInt;
use std::marker::PhantomData;

/// An integer type whose numbers can be written in decimal digits.
pub trait Decimal: PrimInt + Viewed {
    /// Returns whether the number is negative, and its absolute value.
    fn magnitude(&self) -> (bool, u128)
        ensures fits { Self.fits (Self.value self.now) }
        ensures above { result.0 ≡ false → Self.value self.now ≡ pos result.1 }
        ensures below { result.0 ≡ true → (Self.value self.now ≡ neg_ℤ (pos result.1)) × (0 < result.1) };
}

impl Decimal for u8 {
    #[inline(always)]
    fn magnitude(&self) -> (bool, u128) {
        (false, *self as u128)
    }
}

impl Decimal for u16 {
    #[inline(always)]
    fn magnitude(&self) -> (bool, u128) {
        (false, *self as u128)
    }
}

impl Decimal for u32 {
    #[inline(always)]
    fn magnitude(&self) -> (bool, u128) {
        (false, *self as u128)
    }
}

impl Decimal for u64 {
    #[inline(always)]
    fn magnitude(&self) -> (bool, u128) {
        (false, *self as u128)
    }
}

impl Decimal for u128 {
    #[inline(always)]
    fn magnitude(&self) -> (bool, u128) {
        (false, *self as u128)
    }
}

impl Decimal for usize {
    #[inline(always)]
    fn magnitude(&self) -> (bool, u128) {
        (false, *self as u128)
    }
}

impl Decimal for i8 {
    #[inline(always)]
    fn magnitude(&self) -> (bool, u128) {
        (*self < 0, self.unsigned_abs() as u128)
    }
}

impl Decimal for i16 {
    #[inline(always)]
    fn magnitude(&self) -> (bool, u128) {
        (*self < 0, self.unsigned_abs() as u128)
    }
}

impl Decimal for i32 {
    #[inline(always)]
    fn magnitude(&self) -> (bool, u128) {
        (*self < 0, self.unsigned_abs() as u128)
    }
}

impl Decimal for i64 {
    #[inline(always)]
    fn magnitude(&self) -> (bool, u128) {
        (*self < 0, self.unsigned_abs() as u128)
    }
}

impl Decimal for i128 {
    #[inline(always)]
    fn magnitude(&self) -> (bool, u128) {
        (*self < 0, self.unsigned_abs() as u128)
    }
}

impl Decimal for isize {
    #[inline(always)]
    fn magnitude(&self) -> (bool, u128) {
        (*self < 0, self.unsigned_abs() as u128)
    }
}

/// A number in decimal digits, after a minus if the Boolean is true.
#[derive(Drop)]
pub struct Signed(pub bool, pub u128);

impl<T: OfCode> Piece<T> for Signed {
    ghost Form = { λ o. IsSigned T.of_code o.0 o.1 };

    ghost Fails = { λ o. LacksSigned T.of_code o.0 o.1 };

    #[inline]
    fn put<S: Sink<T>>(&self, out: &mut S) -> Result<(), WriteError> {
        if self.0 {
            InTurn(OneCode(45), Digits::<Ten>(self.1, PhantomData)).put(out)
        } else {
            write_digits::<T, Ten, S>(self.1, out)
        }
    }
}
