//! The place of an input.
ghost use Rattle.std.specs.Prelude.{◌≡◌};

use nom_bytes::{Take, take};

/// Returns the place of the input, such as that of a `Located`.
///
/// Its output is the empty prefix of the input. It consumes nothing, and accepts every input, in streaming
/// and in complete mode.
#[inline(always)]
pub fn position<I, E>() -> Take<I, E>
    ensures { result.count ≡ 0 }
{
    take(0usize)
}
