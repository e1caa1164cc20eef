//! Parsers of numbers in a count of digits that always run in complete mode, whatever mode is requested.
ghost use Rattle.std.specs.Prelude.{◌≡◌};

use crate::bounded::{Digits, Unsigned};
use nom_error::mode::Complete;
use nom_internal::fixed::Fixed;
use nom_internal::one_mode::fixed;

/// Works like `character::digits`, always in complete mode.
#[inline(always)]
pub fn digits<T: Unsigned, I, E>(radix: u32, n: usize) -> Fixed<Digits<T, I, E>, Complete>
    ensures radix { result.parser.radix ≡ radix }
    ensures least { result.parser.m ≡ n }
    ensures most { result.parser.n ≡ n }
{
    fixed(crate::digits(radix, n))
}

/// Works like `character::digits_m_n`, always in complete mode.
#[inline(always)]
pub fn digits_m_n<T: Unsigned, I, E>(
    radix: u32,
    m: usize,
    n: usize,
) -> Fixed<Digits<T, I, E>, Complete>
    ensures radix { result.parser.radix ≡ radix }
    ensures least { result.parser.m ≡ m }
    ensures most { result.parser.n ≡ n }
{
    fixed(crate::digits_m_n(radix, m, n))
}
