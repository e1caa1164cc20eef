//! Parsers made to run in one mode.
ghost use Rattle.std.specs.Prelude.{◌≡◌};

use crate::fixed::Fixed;
use std::marker::PhantomData;

/// Returns the parser in the mode `S`, whatever mode is requested.
#[inline(always)]
pub fn fixed<P, S>(parser: P) -> Fixed<P, S>
    ensures { result.parser ≡ parser }
{
    Fixed {
        parser,
        mode: PhantomData,
    }
}
