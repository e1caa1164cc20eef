//! Error values.
ghost use Rattle.std.specs.Prelude.{◌≡◌, ℕ, ◌++◌, MatchResult, Some, codes};
ghost use Rattle.std.specs.Fmt.{◌++?◌};
ghost use Rattle.nom_error.specs.declared.kind.ErrorKind.{ErrorKind};
ghost use Rattle.nom_error.specs.Answers.{Refuses};
ghost use Rattle.nom_error.specs.Errors.{Errors};
ghost use Rattle.nom_error.specs.Kinds.{name_of};
ghost use Rattle.nom_error.specs.PlainErrors.{plain_errors};

use crate::answer::{Err, OutOfMemory};
use crate::kind::ErrorKind;
use crate::mode::Mode;
use std::fmt;

/// An error type of parsers over inputs of type `I`.
///
/// `errors` specifies the result of each function. It may be `OutOfMemory` if `grows` holds.
pub trait ParseError<I>: Drop + Sized {
    ghost errors: { Errors I Self };

    fn from_error_kind(input: I, kind: ErrorKind) -> Result<Self, OutOfMemory>
        ensures { MatchResult result (errors.of_kind input kind) (λ _. errors.grows) };

    fn append(input: I, kind: ErrorKind, other: Self) -> Result<Self, OutOfMemory>
        ensures { MatchResult result (errors.appended input kind other) (λ _. errors.grows) };

    fn from_char(input: I, wanted: char) -> Result<Self, OutOfMemory>
        ensures { MatchResult result (errors.of_char input wanted) (λ _. errors.grows) };

    fn or(self, other: Self) -> Result<Self, OutOfMemory>
        ensures { MatchResult result (errors.joined self other) (λ _. errors.grows) };
}

/// The default error type of parsers: the input at which a parser refused, and the kind. It takes no memory.
#[derive(Clone, Copy, Debug, PartialEq, Eq)]
pub struct Error<I> {
    pub input: I,
    pub code: ErrorKind,
}

impl<I> Error<I> {
    pub fn new(input: I, code: ErrorKind) -> Error<I>
        ensures { result ≡ record { input = input; code = code } }
    {
        Error { input, code }
    }
}

impl<I: Drop> ParseError<I> for Error<I> {
    ghost errors = { plain_errors };

    #[inline(always)]
    fn from_error_kind(input: I, kind: ErrorKind) -> Result<Self, OutOfMemory> {
        Ok(Error { input, code: kind })
    }

    #[inline(always)]
    fn append(_input: I, _kind: ErrorKind, other: Self) -> Result<Self, OutOfMemory> {
        Ok(other)
    }

    #[inline(always)]
    fn from_char(input: I, _wanted: char) -> Result<Self, OutOfMemory> {
        Ok(Error {
            input,
            code: ErrorKind::Char,
        })
    }

    #[inline(always)]
    fn or(self, other: Self) -> Result<Self, OutOfMemory> {
        Ok(other)
    }
}

impl<I: fmt::Display> fmt::Display for Error<I> {
    ghost output = { λ e. Some (codes "error " ++ name_of e.code ++ codes " at: ") ++? I.output e.input };

    fn fmt<W: fmt::Write>(&self, f: &mut fmt::Formatter<W>) -> fmt::Result {
        write!(f, "error {:?} at: {}", self.code, self.input)
    }
}

/// Returns the error of a kind at an input.
#[inline(always)]
pub fn make_error<I, E: ParseError<I>>(input: I, kind: ErrorKind) -> Result<E, OutOfMemory>
    ensures { MatchResult result (E.errors.of_kind input kind) (λ _. E.errors.grows) }
{
    E::from_error_kind(input, kind)
}

/// Returns `other`, the error from below, with a kind at an input added.
#[inline(always)]
pub fn append_error<I, E: ParseError<I>>(
    input: I,
    kind: ErrorKind,
    other: E,
) -> Result<E, OutOfMemory>
    ensures { MatchResult result (E.errors.appended input kind other) (λ _. E.errors.grows) }
{
    E::append(input, kind, other)
}

/// Returns a refusal of a kind at an input, with its error if errors are built.
#[inline(always)]
pub fn refusal<M: Mode, I: Drop, E: ParseError<I>>(input: I, kind: ErrorKind) -> Err<E, Option<E>>
    ensures { Refuses (E.errors.of_kind input kind) E.errors.grows M.BUILDS result }
{
    if M::BUILDS {
        match E::from_error_kind(input, kind) {
            Ok(error) => Err::Error(Some(error)),
            Err(_) => Err::OutOfMemory,
        }
    } else {
        Err::Error(None)
    }
}
