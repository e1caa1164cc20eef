//! The answers of parsers.
ghost use Rattle.std.specs.Prelude.{◌≡◌, ◌<◌, ◌↔◌, Some, None, IsTrue};
ghost use Rattle.nom_error.specs.Answers.{size_of, text_of, IsIncomplete, IsMapped, IsNeededBy};
ghost use Rattle.nom_error.specs.Inputs.{IsInputMapped, IsFirstMapped};

use crate::kind::ErrorKind;
use crate::value::Error;
use std::alloc::{AllocError, AllocFailed};
use std::fmt;
use std::num::NonZeroUsize;

/// The error that memory ran out: a growth, or a clone that takes memory, was refused.
#[derive(Clone, Copy, Debug, PartialEq, Eq)]
pub struct OutOfMemory;

/// Lets `?` pass on a refused growth.
impl From<AllocError> for OutOfMemory {
    ghost from_gives = { λ _ e. e ≡ record {} };

    fn from(_error: AllocError) -> OutOfMemory {
        OutOfMemory
    }
}

/// Lets `?` pass on the error of a value that couldn't be put on the heap. The value is dropped.
impl<T: Drop> From<AllocFailed<T>> for OutOfMemory {
    ghost from_gives = { λ _ e. e ≡ record {} };

    fn from(_error: AllocFailed<T>) -> OutOfMemory {
        OutOfMemory
    }
}

/// Lets `?` pass on the error of a text that couldn't be written to memory.
impl From<fmt::Error> for OutOfMemory {
    ghost from_gives = { λ _ e. e ≡ record {} };

    fn from(_error: fmt::Error) -> OutOfMemory {
        OutOfMemory
    }
}

/// The amount of input that a parser still needs.
#[derive(Clone, Copy, Debug, PartialEq, Eq)]
pub enum Needed {
    /// More input is needed, and the amount isn't known.
    Unknown,
    /// That many more bytes or characters are needed. The unit is that of the leaf parser that requires them.
    Size(NonZeroUsize),
}

impl Needed {
    /// Returns `Size` of `s`, or `Unknown` if `s` is 0.
    #[inline(always)]
    pub fn new(s: usize) -> Self
        ensures none { s ≡ 0 → result ≡ Needed.Unknown }
        ensures some { 0 < s → size_of result ≡ Some s }
    {
        match NonZeroUsize::new(s) {
            Some(size) => Needed::Size(size),
            None => Needed::Unknown,
        }
    }

    /// Returns whether the size is known.
    pub fn is_known(&self) -> bool
        ensures { IsTrue result ↔ (size_of self.now ≡ None → ⊥) }
    {
        match self {
            Needed::Unknown => false,
            Needed::Size(_) => true,
        }
    }

    /// Maps the size with `f`. A size that becomes 0 is `Unknown`.
    pub fn map<F: Fn(NonZeroUsize) -> usize>(self, f: F) -> Needed
        requires { F.IsAlwaysCallable f }
        ensures { IsNeededBy (F.post f) self result }
    {
        match self {
            Needed::Unknown => Needed::Unknown,
            Needed::Size(n) => Needed::new(f(n)),
        }
    }
}

/// The answer of a parser that doesn't accept.
///
/// A refusal holds an `E`, a failure an `F`. The amount needed has the type `N`, which is always `Needed`. It
/// is a type argument because the check covers an enum with both references and a `NonZeroUsize` only in this
/// form.
#[derive(Clone, Debug, Drop, PartialEq, Eq)]
pub enum Err<F, E = F, N = Needed> {
    /// The parser needs more input to decide.
    Incomplete(N),
    /// The parser refuses. Another one may be tried.
    Error(E),
    /// The parser fails. No other one is to be tried.
    Failure(F),
    /// Memory ran out.
    OutOfMemory,
}

impl<E> Err<E> {
    /// Returns whether more input is needed.
    pub fn is_incomplete(&self) -> bool
        ensures { IsTrue result ↔ IsIncomplete self.now }
    {
        match self {
            Err::Incomplete(_) => true,
            Err::Error(_) => false,
            Err::Failure(_) => false,
            Err::OutOfMemory => false,
        }
    }

    /// Maps the error that a refusal or a failure holds.
    pub fn map<E2, F: FnOnce(E) -> E2 + Drop>(self, f: F) -> Err<E2>
        requires { F.IsAlwaysCallable f }
        ensures { IsMapped (F.post f) self result }
    {
        match self {
            Err::Incomplete(needed) => Err::Incomplete(needed),
            Err::Error(error) => Err::Error(f(error)),
            Err::Failure(error) => Err::Failure(f(error)),
            Err::OutOfMemory => Err::OutOfMemory,
        }
    }

    /// Converts the error that a refusal or a failure holds.
    pub fn convert<F>(e: Err<F>) -> Self
    where
        E: From<F>,
        ensures { IsMapped E.from_gives e result }
    {
        match e {
            Err::Incomplete(needed) => Err::Incomplete(needed),
            Err::Error(error) => Err::Error(E::from(error)),
            Err::Failure(error) => Err::Failure(E::from(error)),
            Err::OutOfMemory => Err::OutOfMemory,
        }
    }
}

impl<T> Err<Error<T>> {
    /// Maps the input of the error that a refusal or a failure holds.
    pub fn map_input<U, F: FnOnce(T) -> U + Drop>(self, f: F) -> Err<Error<U>>
        requires { F.IsAlwaysCallable f }
        ensures { IsMapped (IsInputMapped (F.post f)) self result }
    {
        match self {
            Err::Incomplete(needed) => Err::Incomplete(needed),
            Err::Error(error) => Err::Error(Error {
                input: f(error.input),
                code: error.code,
            }),
            Err::Failure(error) => Err::Failure(Error {
                input: f(error.input),
                code: error.code,
            }),
            Err::OutOfMemory => Err::OutOfMemory,
        }
    }
}

impl<T> Err<(T, ErrorKind)> {
    /// Maps the input that a refusal or a failure holds.
    pub fn map_input<U, F: FnOnce(T) -> U + Drop>(self, f: F) -> Err<(U, ErrorKind)>
        requires { F.IsAlwaysCallable f }
        ensures { IsMapped (IsFirstMapped (F.post f)) self result }
    {
        match self {
            Err::Incomplete(needed) => Err::Incomplete(needed),
            Err::Error((input, kind)) => Err::Error((f(input), kind)),
            Err::Failure((input, kind)) => Err::Failure((f(input), kind)),
            Err::OutOfMemory => Err::OutOfMemory,
        }
    }
}

/// Lets `?` pass on a refused growth in a function that returns `IResult`.
impl<F, E, N> From<AllocError> for Err<F, E, N> {
    ghost use Rattle.nom_error.specs.declared.answer.Err.{Err};

    ghost from_gives = { λ _ e. e ≡ Err.OutOfMemory };

    fn from(_error: AllocError) -> Err<F, E, N> {
        Err::OutOfMemory
    }
}

/// Lets `v.push(x)?` work in a function that returns `IResult`. If the push is refused, the value is dropped.
impl<T: Drop, F, E, N> From<AllocFailed<T>> for Err<F, E, N> {
    ghost use Rattle.nom_error.specs.declared.answer.Err.{Err};

    ghost from_gives = { λ _ e. e ≡ Err.OutOfMemory };

    fn from(_error: AllocFailed<T>) -> Err<F, E, N> {
        Err::OutOfMemory
    }
}

/// Lets `?` pass on `OutOfMemory` in a function that returns `IResult`.
impl<F, E, N> From<OutOfMemory> for Err<F, E, N> {
    ghost use Rattle.nom_error.specs.declared.answer.Err.{Err};

    ghost from_gives = { λ _ e. e ≡ Err.OutOfMemory };

    fn from(_error: OutOfMemory) -> Err<F, E, N> {
        Err::OutOfMemory
    }
}

/// Writes the answer as a text. That of a refusal or a failure ends in its error as `{:?}` writes it.
impl<E: fmt::Debug> fmt::Display for Err<E> {
    ghost output = { text_of E.debug_output };

    fn fmt<W: fmt::Write>(&self, f: &mut fmt::Formatter<W>) -> fmt::Result {
        match self {
            Err::Incomplete(Needed::Size(size)) => write!(f, "Parsing requires {size} bytes/chars"),
            Err::Incomplete(Needed::Unknown) => write!(f, "Parsing requires more data"),
            Err::Failure(error) => write!(f, "Parsing Failure: {error:?}"),
            Err::Error(error) => write!(f, "Parsing Error: {error:?}"),
            Err::OutOfMemory => write!(f, "Parsing ran out of memory"),
        }
    }
}

/// The answer of `parse`: the rest of the input and the output, or an `Err`.
pub type IResult<I, O, E = Error<I>> = Result<(I, O), Err<E>>;

/// The answer of `process`.
///
/// It holds an output only if outputs are built, and the error of a refusal only if errors are built. It
/// always holds the error of a failure.
pub type PResult<I, O, E> = Result<(I, Option<O>), Err<E, Option<E>>>;
