//! A pair of an input and a kind, as an error type. It takes no memory.
ghost use Rattle.std.specs.Prelude.{◌≡◌};
ghost use Rattle.nom_error.specs.declared.kind.ErrorKind.TheVariants.{Char};

use crate::answer::OutOfMemory;
use crate::kind::ErrorKind;
use crate::outside::{ContextError, FromExternalError};
use crate::value::ParseError;

impl<I: Drop> ParseError<I> for (I, ErrorKind) {
    // The error from below is kept, and of two the second.
    ghost errors = { record {
      of_kind = λ i k e. e ≡ (i, k);
      appended = λ _ _ other e. e ≡ other;
      of_char = λ i _ e. e ≡ (i, Char);
      joined = λ _ other e. e ≡ other;
      grows = ⊥;
    } };

    #[inline(always)]
    fn from_error_kind(input: I, kind: ErrorKind) -> Result<Self, OutOfMemory> {
        Ok((input, kind))
    }

    #[inline(always)]
    fn append(_input: I, _kind: ErrorKind, other: Self) -> Result<Self, OutOfMemory> {
        Ok(other)
    }

    #[inline(always)]
    fn from_char(input: I, _wanted: char) -> Result<Self, OutOfMemory> {
        Ok((input, ErrorKind::Char))
    }

    #[inline(always)]
    fn or(self, other: Self) -> Result<Self, OutOfMemory> {
        Ok(other)
    }
}

/// Drops the name.
impl<I: Drop> ContextError<I> for (I, ErrorKind) {
    ghost contexts = { record { named = λ _ _ other e. e ≡ other; grows = ⊥ } };

    #[inline(always)]
    fn add_context(_input: I, _context: &'static str, other: Self) -> Result<Self, OutOfMemory> {
        Ok(other)
    }
}

/// Drops the other error.
impl<I, E: Drop> FromExternalError<I, E> for (I, ErrorKind) {
    ghost externals = { record { of_external = λ i k _ e. e ≡ (i, k); grows = ⊥ } };

    #[inline(always)]
    fn from_external_error(input: I, kind: ErrorKind, _e: E) -> Result<Self, OutOfMemory> {
        Ok((input, kind))
    }
}
