//! The unit type as an error type. It holds nothing and takes no memory.
ghost use Rattle.std.specs.Prelude.{⊤};

use crate::answer::OutOfMemory;
use crate::kind::ErrorKind;
use crate::outside::{ContextError, FromExternalError};
use crate::value::ParseError;

impl<I: Drop> ParseError<I> for () {
    ghost errors = { record {
      of_kind = λ _ _ _. ⊤;
      appended = λ _ _ _ _. ⊤;
      of_char = λ _ _ _. ⊤;
      joined = λ _ _ _. ⊤;
      grows = ⊥;
    } };

    #[inline(always)]
    fn from_error_kind(_input: I, _kind: ErrorKind) -> Result<Self, OutOfMemory> {
        Ok(())
    }

    #[inline(always)]
    fn append(_input: I, _kind: ErrorKind, _other: Self) -> Result<Self, OutOfMemory> {
        Ok(())
    }

    #[inline(always)]
    fn from_char(_input: I, _wanted: char) -> Result<Self, OutOfMemory> {
        Ok(())
    }

    #[inline(always)]
    fn or(self, _other: Self) -> Result<Self, OutOfMemory> {
        Ok(())
    }
}

impl<I: Drop> ContextError<I> for () {
    ghost contexts = { record { named = λ _ _ _ _. ⊤; grows = ⊥ } };

    #[inline(always)]
    fn add_context(_input: I, _context: &'static str, _other: Self) -> Result<Self, OutOfMemory> {
        Ok(())
    }
}

impl<I: Drop, E: Drop> FromExternalError<I, E> for () {
    ghost externals = { record { of_external = λ _ _ _ _. ⊤; grows = ⊥ } };

    #[inline(always)]
    fn from_external_error(_input: I, _kind: ErrorKind, _e: E) -> Result<Self, OutOfMemory> {
        Ok(())
    }
}
