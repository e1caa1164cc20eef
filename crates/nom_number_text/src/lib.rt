//! Numbers and shapes of decimal fractions, written in digits.
#![tactic(auto)]

pub mod complete;
mod exceptions;
mod float;
mod hex;
mod kind;
mod part;
pub mod streaming;
mod word;

pub use crate::exceptions::OrExceptions;
pub use crate::float::RecognizeFloat;
pub use crate::hex::HexU32;
pub use crate::kind::AsFloat;
pub use crate::part::FloatParts;
pub use crate::word::{Exception, Word};
use std::marker::PhantomData;

/// Matches the shape of a decimal fraction, and returns it as a slice of the input.
///
/// The shape is an optional sign, `+` or `-`, a mantissa, and an optional exponent. The mantissa is either
/// digits with an optional point and optional digits after it, or a point and digits. The exponent is `e` or
/// `E`, an optional sign, and digits. All digits are decimal, and each run has at least one.
///
/// If the input doesn't start with a fraction, the parser refuses as `alt` of its parts does. If digits are
/// missing after an `e` or `E`, it fails with `Digit` there. If more input may come and might belong to the
/// fraction, streaming needs 1 more.
#[inline(always)]
pub fn recognize_float<T, E>() -> RecognizeFloat<T, E> {
    RecognizeFloat { error: PhantomData }
}

/// Matches the shape of a decimal fraction, or `nan`, `infinity` or `inf`, in this order, in any case of the
/// letters.
///
/// The words are refused with `Float` at the start. All refusals are joined as by `alt`. If the input ends
/// inside a word, streaming needs the missing letters.
#[inline(always)]
pub fn recognize_float_or_exceptions<T, E>() -> OrExceptions<RecognizeFloat<T, E>> {
    OrExceptions {
        parser: recognize_float(),
    }
}
