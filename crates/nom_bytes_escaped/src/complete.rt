//! Parsers of texts with escapes that always run in complete mode, whatever mode is requested.
ghost use Rattle.std.specs.Prelude.{◌≡◌};

use crate::{Escaped, EscapedTransform};
use nom_error::mode::Complete;
use nom_internal::fixed::Fixed;
use nom_internal::one_mode::fixed;
use std::alloc::Allocator;

/// Works like `bytes::escaped`, always in complete mode.
#[inline(always)]
pub fn escaped<F, G>(normal: F, control_char: char, escapable: G) -> Fixed<Escaped<F, G>, Complete>
    ensures normal { result.parser.normal ≡ normal }
    ensures control_char { result.parser.control_char ≡ control_char }
    ensures escapable { result.parser.escapable ≡ escapable }
{
    fixed(crate::escaped(normal, control_char, escapable))
}

/// Works like `bytes::escaped_transform`, always in complete mode.
#[inline(always)]
pub fn escaped_transform<A: Allocator + Copy, F, G>(
    alloc: A,
    normal: F,
    control_char: char,
    transform: G,
) -> Fixed<EscapedTransform<A, F, G>, Complete>
    ensures alloc { result.parser.alloc ≡ alloc }
    ensures normal { result.parser.normal ≡ normal }
    ensures control_char { result.parser.control_char ≡ control_char }
    ensures transform { result.parser.transform ≡ transform }
{
    fixed(crate::escaped_transform(alloc, normal, control_char, transform))
}
