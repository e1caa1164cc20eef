//! Splits of inputs after a run of items.
ghost use Rattle.std.specs.Prelude.{true, false, MatchOption};
ghost use Rattle.nom_traits.specs.Input.{IsBoundary};
ghost use Rattle.nom_traits.specs.Splits.{IsRunLength, IsRunOpen, RefusesWith, FrontBuilt};

use crate::input::Input;
use nom_error::answer::Err;
use nom_error::kind::ErrorKind;
use nom_error::mode::{IsStreaming, Mode};
use nom_error::value::ParseError;

/// Returns the length of the first items for which the predicate returns false.
///
/// It returns `None` if more input may come and no item ends the run.
#[inline(always)]
pub fn run_len<I: Input, S: IsStreaming, P: Fn(I::Item) -> bool>(
    input: I,
    predicate: P,
) -> Option<usize>
    requires { P.IsAlwaysCallable predicate }
    ensures { MatchOption result
        (IsRunOpen I.model (λ x. P.post predicate x false) (λ x. P.post predicate x true) S.STREAMING input)
        (IsRunLength I.model (λ x. P.post predicate x false) (λ x. P.post predicate x true) S.STREAMING input) }
{
    match input.position(predicate) {
        Some(n) => Some(n),
        None if S::STREAMING => None,
        None => Some(input.input_len()),
    }
}

/// Returns the first items of an input if outputs are built.
#[inline(always)]
pub fn front_built<M: Mode, I: Input>(input: I, index: usize) -> Option<I>
    requires { IsBoundary I.model input index }
    ensures { FrontBuilt I.model M.BUILDS input index result }
{
    if M::BUILDS {
        Some(input.take(index))
    } else {
        None
    }
}

/// Returns a refusal of a kind at an input.
#[inline(always)]
pub fn refused<I: Drop, E: ParseError<I>>(input: I, kind: ErrorKind) -> Err<E>
    ensures { RefusesWith (E.errors.of_kind input kind) E.errors.grows result }
{
    match E::from_error_kind(input, kind) {
        Ok(error) => Err::Error(error),
        Err(_) => Err::OutOfMemory,
    }
}
