//! Answers of which a refusal is no error.
ghost use Rattle.std.specs.Prelude.{◌≡◌, MatchOption, MatchResult, Ok};
ghost use Rattle.nom_calls.specs.Refused.{IsRefused, IsStopped};

use nom_error::answer::{Err, IResult};

/// Returns `Some` for an acceptance and `None` for a refusal. A failure, a need for more input and
/// `OutOfMemory` are passed on as they are.
///
/// So `while let Some((next, item)) = if_refused(item(rest))?` ends where an item is refused, and nowhere
/// else. `Err(_)` would also end it where memory ran out.
#[inline(always)]
pub fn if_refused<I, O, E: Drop>(answer: IResult<I, O, E>) -> Result<Option<(I, O)>, Err<E>>
    ensures { MatchResult result (λ found. MatchOption found (IsRefused answer) (λ accepted. answer ≡ Ok accepted)) (IsStopped answer) }
{
    match answer {
        Ok(accepted) => Ok(Some(accepted)),
        Err(Err::Error(_)) => Ok(None),
        Err(Err::Incomplete(needed)) => Err(Err::Incomplete(needed)),
        Err(Err::Failure(error)) => Err(Err::Failure(error)),
        Err(Err::OutOfMemory) => Err(Err::OutOfMemory),
    }
}
