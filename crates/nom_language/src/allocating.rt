//! Folds that may take memory.
ghost use Rattle.std.specs.Prelude.{◌≡◌, None, Ok, Option, Result, Some, refl};
ghost use Rattle.nom_error.specs.declared.kind.ErrorKind.TheVariants as Kind;
ghost use Rattle.nom_language.specs.Allocations.{IsReturned, StopsFold, returned};
ghost use Rattle.nom_language.specs.Precedences.{Itself};
ghost use Rattle.nom_language.specs.declared.allocating.FoldError.{FoldError};

use nom_error::answer::{Err, OutOfMemory};
use nom_error::kind::ErrorKind;
use nom_error::mode::Mode;
use nom_error::outside::FromExternalError;
use std::alloc::{AllocError, AllocFailed};

/// Why a fold that may take memory returns no value.
#[derive(Clone, Copy, Debug, PartialEq, Eq)]
pub enum FoldError<X> {
    /// It refuses the expression.
    Refused(X),
    /// Memory ran out.
    OutOfMemory,
}

/// Lets `?` pass on that memory ran out.
impl<X> From<OutOfMemory> for FoldError<X> {
    ghost from_gives = { λ _ e. e ≡ FoldError.OutOfMemory };

    fn from(_error: OutOfMemory) -> FoldError<X> {
        FoldError::OutOfMemory
    }
}

/// Lets `?` pass on a refused growth.
impl<X> From<AllocError> for FoldError<X> {
    ghost from_gives = { λ _ e. e ≡ FoldError.OutOfMemory };

    fn from(_error: AllocError) -> FoldError<X> {
        FoldError::OutOfMemory
    }
}

/// Lets `?` pass on that a value had no room on the heap, as in `Box::new`. The value is dropped.
impl<X, V: Drop> From<AllocFailed<V>> for FoldError<X> {
    ghost from_gives = { λ _ e. e ≡ FoldError.OutOfMemory };

    fn from(_error: AllocFailed<V>) -> FoldError<X> {
        FoldError::OutOfMemory
    }
}

/// What the error `Y` of a fold says: that it refuses, or that memory ran out.
///
/// Each of the two kinds of folds has a type, because the type of the error doesn't tell them apart.
pub trait FoldErrors<O, Y> {
    /// What a refusal holds.
    type Refusal: Drop;

    /// The fold's answer says this value or this refusal.
    ghost Returns: { Result O Y → Result O Self.Refusal → Type 0 };

    /// The error that says that memory ran out, if there is one.
    ghost no_memory: { Option Y };

    /// Says which of the two an error is.
    fn told(error: Y) -> FoldError<Self::Refusal>
        ensures { IsReturned Returns no_memory error result };

    ghost returns_value: { (v : O) → Returns (Ok v) (Ok v) };
}

/// The fold of `precedence`: each error is a refusal. `Returns` is equality, and `no_memory` is `None`.
pub struct PlainFold;

impl<O, X: Drop> FoldErrors<O, X> for PlainFold {
    type Refusal = X;

    ghost Returns = { Itself };

    ghost no_memory = { None };

    #[inline(always)]
    fn told(error: X) -> FoldError<X> {
        FoldError::Refused(error)
    }

    ghost returns_value = { λ _. refl };
}

/// The fold of `precedence_alloc`, which may take memory. `Returns` takes `Refused` off a refusal, and `no_memory` is `OutOfMemory`.
pub struct AllocatingFold;

impl<O, X: Drop> FoldErrors<O, FoldError<X>> for AllocatingFold {
    type Refusal = X;

    ghost Returns = { λ p r. p ≡ returned r };

    ghost no_memory = { Some FoldError.OutOfMemory };

    #[inline(always)]
    fn told(error: FoldError<X>) -> FoldError<X> {
        error
    }

    ghost returns_value = { λ _. refl };
}

// Refuses with an error that is made of the fold's, or reports that memory ran out.
#[inline(always)]
pub(crate) fn stopped<M: Mode, I: Drop, X: Drop, E: FromExternalError<I, X> + Drop>(
    input: I,
    error: FoldError<X>,
) -> Err<E, Option<E>>
    ensures { StopsFold (E.externals.of_external input Kind.Precedence) E.externals.grows M.BUILDS error result }
{
    match error {
        FoldError::Refused(refused) => {
            if M::BUILDS {
                match E::from_external_error(input, ErrorKind::Precedence, refused) {
                    Ok(made) => Err::Error(Some(made)),
                    Err(_) => Err::OutOfMemory,
                }
            } else {
                Err::Error(None)
            }
        }
        FoldError::OutOfMemory => Err::OutOfMemory,
    }
}
