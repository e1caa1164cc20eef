//! Laws of `==` on kinds, sizes, errors and answers, and of the hashes of equal kinds.
//!
//! They are for users whose own contracts compare these values.
ghost use Rattle.std.specs.Prelude.{◌≡◌, ◌↔◌, IsTrue};
ghost use Rattle.nom_error.specs.Equality.{AreSame, AreFinishedSame};

use crate::answer::{Err, Needed};
use crate::finish::FinishError;
use crate::kind::ErrorKind;
use crate::value::Error;
use std::hash::Hash;

/// Compares two kinds: they are equal if they are the same kind.
pub fn kinds_are_equal(kind: ErrorKind, other: ErrorKind) -> bool
    ensures { IsTrue result ↔ (kind ≡ other) }
{
    kind == other
}

/// States that equal kinds feed a hasher the same input.
pub fn equal_kinds_hash_alike()
    ensures { (kind other : _) → IsTrue (⟦<ErrorKind as PartialEq>⟧.eq kind other)
        → ⟦<ErrorKind as Hash>⟧.hash_input kind ≡ ⟦<ErrorKind as Hash>⟧.hash_input other }
{}

/// Compares two needs: they are equal if both are unknown, or both are the same size.
pub fn needs_are_equal(needed: Needed, other: Needed) -> bool
    ensures { IsTrue result ↔ (needed ≡ other) }
{
    needed == other
}

/// Compares two errors: they are equal if their kinds are the same and their inputs are equal.
pub fn errors_are_equal<I: PartialEq>(error: &Error<I>, other: &Error<I>) -> bool
    ensures { IsTrue result
        ↔ ((error.now.code ≡ other.now.code) × IsTrue (I.eq error.now.input other.now.input)) }
{
    error == other
}

/// Compares two answers: they are equal if they are the same variant and hold equal values.
pub fn answers_are_equal<F: PartialEq, E: PartialEq>(answer: &Err<F, E>, other: &Err<F, E>) -> bool
    ensures { IsTrue result ↔ AreSame F.eq E.eq answer.now other.now }
{
    answer == other
}

/// Compares two errors of finished parses: they are equal if they are the same variant and hold equal values.
pub fn finished_are_equal<E: PartialEq>(fault: &FinishError<E>, other: &FinishError<E>) -> bool
    ensures { IsTrue result ↔ AreFinishedSame E.eq fault.now other.now }
{
    fault == other
}
