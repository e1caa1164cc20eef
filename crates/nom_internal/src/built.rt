//! Values that are built only if a mode requires them.
ghost use Rattle.std.specs.Prelude.{◌≡◌, true, IsSome, MatchResult, Some};
ghost use Rattle.nom_error.specs.Modes.{Built};

use nom_error::answer::OutOfMemory;
use nom_error::mode::Mode;

/// Returns the value if values are built.
#[inline(always)]
pub fn built<M: Mode, T: Drop>(value: T) -> Option<T>
    ensures { Built M.BUILDS (λ x. x ≡ value) result }
{
    if M::BUILDS { Some(value) } else { None }
}

/// Returns a clone of the value if values are built.
#[inline(always)]
pub fn cloned<M: Mode, T: Clone>(value: &T) -> Result<Option<T>, OutOfMemory>
    ensures { MatchResult result (Built M.BUILDS (T.is_clone value.now)) (λ _. (M.BUILDS ≡ true) × ¬ (T.is_infallible value.now)) }
{
    if M::BUILDS {
        match value.clone() {
            Ok(clone) => Ok(Some(clone)),
            Err(_) => Err(OutOfMemory),
        }
    } else {
        Ok(None)
    }
}

/// Returns a value that was built.
#[inline(always)]
pub fn emitted<T>(value: Option<T>) -> T
    requires { IsSome value }
    ensures { value ≡ Some result }
{
    match value {
        Some(value) => value,
        None => unreachable!(),
    }
}
