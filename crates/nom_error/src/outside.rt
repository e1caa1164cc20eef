//! Error types that keep a context, and error types that are made of other errors.
ghost use Rattle.std.specs.Prelude.{◌≡◌, MatchResult};
ghost use Rattle.nom_error.specs.Errors.{Contexts, Externals};

use crate::answer::OutOfMemory;
use crate::kind::ErrorKind;
use crate::value::Error;

/// An error type that can keep a name for the place where a parser refused.
///
/// `contexts` specifies the result. It may be `OutOfMemory` if `grows` holds.
pub trait ContextError<I>: Sized {
    ghost contexts: { Contexts I Self };

    fn add_context(input: I, context: &'static str, other: Self) -> Result<Self, OutOfMemory>
        ensures { MatchResult result (contexts.named input context.now other) (λ _. contexts.grows) };
}

/// An error type that can be made of another error `E`, for example one that a closure returned.
///
/// `externals` specifies the result. It may be `OutOfMemory` if `grows` holds.
pub trait FromExternalError<I, E>: Sized {
    ghost externals: { Externals I E Self };

    fn from_external_error(input: I, kind: ErrorKind, e: E) -> Result<Self, OutOfMemory>
        ensures { MatchResult result (externals.of_external input kind e) (λ _. externals.grows) };
}

/// Drops the name.
impl<I: Drop> ContextError<I> for Error<I> {
    ghost contexts = { record { named = λ _ _ other e. e ≡ other; grows = ⊥ } };

    #[inline(always)]
    fn add_context(_input: I, _context: &'static str, other: Self) -> Result<Self, OutOfMemory> {
        Ok(other)
    }
}

/// Drops the other error.
impl<I, E: Drop> FromExternalError<I, E> for Error<I> {
    ghost externals = { record { of_external = λ i k _ e. e ≡ record { input = i; code = k }; grows = ⊥ } };

    #[inline(always)]
    fn from_external_error(input: I, kind: ErrorKind, _e: E) -> Result<Self, OutOfMemory> {
        Ok(Error { input, code: kind })
    }
}
