//! Slices of inputs as outputs.
ghost use Rattle.nom_error.specs.Modes.{Built};
ghost use Rattle.std.specs.Prelude.{ℕ};
ghost use Rattle.nom_traits.specs.Input.{IsBoundary, IsSuffixOf};
ghost use Rattle.nom_traits.specs.Slices.{Slice, IsFirst, IsModelledBy};

use nom_error::mode::Mode;
use nom_traits::input::Input;

/// Returns the first items of an input, of total length `n`, if outputs are built.
#[inline(always)]
pub fn front<M: Mode, I: Input>(input: I, n: usize) -> Option<I>
    requires { IsBoundary I.model input n }
    ensures { (t : Slice I.model) → IsFirst I.model input n t → Built M.BUILDS (IsModelledBy I.model t) result }
{
    if M::BUILDS { Some(input.take(n)) } else { None }
}

/// Returns the items of an input before a rest of it, if outputs are built.
#[inline(always)]
pub fn before<M: Mode, I: Input>(input: I, rest: I) -> Option<I>
    requires { (n : ℕ) × IsSuffixOf I.model input n rest }
    ensures { (n : ℕ) (t : Slice I.model) → IsSuffixOf I.model input n rest → IsFirst I.model input n t → Built M.BUILDS (IsModelledBy I.model t) result }
{
    front::<M, I>(input, input.input_len() - rest.input_len())
}
