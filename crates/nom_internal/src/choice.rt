//! Choices, and how they join and close errors.
ghost use Rattle.std.specs.Prelude.{◌≡◌};
ghost use Rattle.nom_error.specs.Modes.{modes};
ghost use Rattle.nom_internal.specs.Choice.{OnError, JoinsErrors, ClosesError, JoinsResult, ClosesResult, ShowsNext};
ghost use Rattle.nom_internal.specs.Results.{rest_of};

use crate::parser::Parser;
use nom_error::answer::{Err, PResult};
use nom_error::kind::ErrorKind;
use nom_error::mode::OutputMode;
use nom_error::value::ParseError;
use nom_traits::input::Items;

/// Joins two errors if they are built, and returns the refusal.
#[inline(always)]
pub fn join_errors<I, E: ParseError<I>>(first: Option<E>, second: Option<E>) -> Err<E, Option<E>>
    ensures { JoinsErrors E.errors.joined E.errors.grows first second result }
{
    match first {
        Some(first) => match second {
            Some(second) => match first.or(second) {
                Ok(both) => Err::Error(Some(both)),
                Err(_) => Err::OutOfMemory,
            },
            None => Err::Error(None),
        },
        None => Err::Error(None),
    }
}

/// Joins the error of a refusal to an error before it. Any other answer is passed on.
#[inline(always)]
pub fn join<I, T, E: ParseError<I>>(
    first: Option<E>,
    second: Result<T, Err<E, Option<E>>>,
) -> Result<T, Err<E, Option<E>>>
    ensures { JoinsResult E.errors.joined E.errors.grows first second result }
{
    match second {
        Ok(accepted) => Ok(accepted),
        Err(Err::Incomplete(needed)) => Err(Err::Incomplete(needed)),
        Err(Err::Error(error)) => Err(join_errors(first, error)),
        Err(Err::Failure(error)) => Err(Err::Failure(error)),
        Err(Err::OutOfMemory) => Err(Err::OutOfMemory),
    }
}

/// Runs a branch after a refusal with an error.
#[inline(always)]
pub fn after_refusal<I: Items, P: Parser<I>, OM: OutputMode>(
    error: Option<P::Error>,
    next: &mut P,
    input: I,
) -> PResult<I, P::Output, P::Error>
    requires { (P.grammar (P.state next.old)).meaning.Runs }
    ensures shown { ShowsNext I.model (P.grammar (P.state next.old)).IsOutput P.Error.errors.joined P.Error.errors.grows (P.grammar (P.state next.old)).meaning
        (modes OM.Output.BUILDS OM.Error.BUILDS OM.Incomplete.STREAMING) input error result }
    ensures kept { P.state next.new ≡ P.state next.old }
    ensures side_condition { P.SideCondition (modes OM.Output.BUILDS OM.Error.BUILDS OM.Incomplete.STREAMING) next.old next.new input (rest_of result) }
{
    join(error, next.process::<OM>(input))
}

/// Runs a branch after those before it. It is tried only if they refuse.
#[inline(always)]
pub fn next_branch<I: Items, P: Parser<I>, OM: OutputMode>(
    before: PResult<I, P::Output, P::Error>,
    next: &mut P,
    input: I,
) -> PResult<I, P::Output, P::Error>
    requires { (P.grammar (P.state next.old)).meaning.Runs }
    ensures shown { OnError (ShowsNext I.model (P.grammar (P.state next.old)).IsOutput P.Error.errors.joined P.Error.errors.grows
        (P.grammar (P.state next.old)).meaning
        (modes OM.Output.BUILDS OM.Error.BUILDS OM.Incomplete.STREAMING) input) before result }
    ensures kept { P.state next.new ≡ P.state next.old }
    ensures side_condition { OnError (λ _ r. P.SideCondition (modes OM.Output.BUILDS OM.Error.BUILDS OM.Incomplete.STREAMING) next.old next.new input
        (rest_of r))
        before result }
{
    match before {
        Ok(taken) => Ok(taken),
        Err(Err::Incomplete(more)) => Err(Err::Incomplete(more)),
        Err(Err::Error(error)) => after_refusal::<I, P, OM>(error, next, input),
        Err(Err::Failure(failure)) => Err(Err::Failure(failure)),
        Err(Err::OutOfMemory) => Err(Err::OutOfMemory),
    }
}

/// Closes an error at an input if it is built, and returns the refusal.
#[inline(always)]
pub fn close_error<I: Drop, E: ParseError<I>>(
    error: Option<E>,
    input: I,
    kind: ErrorKind,
) -> Err<E, Option<E>>
    ensures { ClosesError (E.errors.appended input kind) E.errors.grows error result }
{
    match error {
        Some(error) => match E::append(input, kind, error) {
            Ok(closed) => Err::Error(Some(closed)),
            Err(_) => Err::OutOfMemory,
        },
        None => Err::Error(None),
    }
}

/// Closes the error of a refusal at an input. Any other answer is passed on.
#[inline(always)]
pub fn close<I: Drop, T, E: ParseError<I>>(
    answer: Result<T, Err<E, Option<E>>>,
    input: I,
    kind: ErrorKind,
) -> Result<T, Err<E, Option<E>>>
    ensures { ClosesResult (E.errors.appended input kind) E.errors.grows answer result }
{
    match answer {
        Ok(accepted) => Ok(accepted),
        Err(Err::Incomplete(needed)) => Err(Err::Incomplete(needed)),
        Err(Err::Error(error)) => Err(close_error(error, input, kind)),
        Err(Err::Failure(error)) => Err(Err::Failure(error)),
        Err(Err::OutOfMemory) => Err(Err::OutOfMemory),
    }
}
