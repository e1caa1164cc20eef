//! Bounds that don't fit each other.
ghost use Rattle.nom_repeat.specs.Inverted.{GivesFailure};

use nom_error::answer::Err;
use nom_error::kind::ErrorKind;
use nom_error::value::ParseError;

/// Returns a failure of a kind at an input, with its error.
#[inline(always)]
pub fn failure<I, E: ParseError<I>>(input: I, kind: ErrorKind) -> Err<E, Option<E>>
    ensures { GivesFailure (E.errors.of_kind input kind) E.errors.grows result }
{
    match E::from_error_kind(input, kind) {
        Ok(error) => Err::Failure(error),
        Err(_) => Err::OutOfMemory,
    }
}
