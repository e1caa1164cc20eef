//! Numbers that bits represent.
ghost use Rattle.std.specs.Prelude.{◌≡◌, ◌<◌, ◌≤◌, ◌^◌, ℕ, refl};
ghost use Rattle.std.proofs.Common.{arith};
ghost use Rattle.nom_internal.specs.Prelude.{Built};

use nom_error::mode::Mode;
use nom_traits::view::Viewed;

/// An unsigned integer of up to 128 bits.
pub trait BitUint: Viewed + Drop + Sized {
    ghost WIDTH: { ℕ };

    /// The number of bits that the integer takes at most.
    const WIDTH: usize;

    /// The value for a number.
    ghost of_bits: { ℕ → Self };

    /// The number that a value represents.
    ghost bits: { Self → ℕ };

    /// Returns the value for a number.
    fn from_bits(number: u128) -> Self
        requires { number < 2 ^ WIDTH }
        ensures { result ≡ of_bits number };

    /// Returns the number that the value represents.
    fn to_bits(self) -> u128
        ensures { result ≡ bits self };

    ghost narrow: { WIDTH ≤ 128 };

    /// No number is lost.
    ghost kept: { (n : ℕ) → n < 2 ^ WIDTH → bits (of_bits n) ≡ n };

    /// Each value is that of its number.
    ghost exact: { (v : Self) → of_bits (bits v) ≡ v };
}

impl BitUint for u8 {
    ghost WIDTH = { 8 };

    const WIDTH: usize = 8;

    ghost of_bits = { λ n. n };

    ghost bits = { λ n. n };

    #[inline(always)]
    fn from_bits(number: u128) -> u8 {
        number as u8
    }

    #[inline(always)]
    fn to_bits(self) -> u128 {
        self as u128
    }

    ghost narrow = { omega arith };

    ghost kept = { λ n h. refl };

    ghost exact = { λ v. refl };
}

impl BitUint for u16 {
    ghost WIDTH = { 16 };

    const WIDTH: usize = 16;

    ghost of_bits = { λ n. n };

    ghost bits = { λ n. n };

    #[inline(always)]
    fn from_bits(number: u128) -> u16 {
        number as u16
    }

    #[inline(always)]
    fn to_bits(self) -> u128 {
        self as u128
    }

    ghost narrow = { omega arith };

    ghost kept = { λ n h. refl };

    ghost exact = { λ v. refl };
}

impl BitUint for u32 {
    ghost WIDTH = { 32 };

    const WIDTH: usize = 32;

    ghost of_bits = { λ n. n };

    ghost bits = { λ n. n };

    #[inline(always)]
    fn from_bits(number: u128) -> u32 {
        number as u32
    }

    #[inline(always)]
    fn to_bits(self) -> u128 {
        self as u128
    }

    ghost narrow = { omega arith };

    ghost kept = { λ n h. refl };

    ghost exact = { λ v. refl };
}

impl BitUint for u64 {
    ghost WIDTH = { 64 };

    const WIDTH: usize = 64;

    ghost of_bits = { λ n. n };

    ghost bits = { λ n. n };

    #[inline(always)]
    fn from_bits(number: u128) -> u64 {
        number as u64
    }

    #[inline(always)]
    fn to_bits(self) -> u128 {
        self as u128
    }

    ghost narrow = { omega arith };

    ghost kept = { λ n h. refl };

    ghost exact = { λ v. refl };
}

impl BitUint for u128 {
    ghost WIDTH = { 128 };

    const WIDTH: usize = 128;

    ghost of_bits = { λ n. n };

    ghost bits = { λ n. n };

    #[inline(always)]
    fn from_bits(number: u128) -> u128 {
        number
    }

    #[inline(always)]
    fn to_bits(self) -> u128 {
        self
    }

    ghost narrow = { omega arith };

    ghost kept = { λ n h. refl };

    ghost exact = { λ v. refl };
}

impl BitUint for usize {
    ghost WIDTH = { 64 };

    const WIDTH: usize = 64;

    ghost of_bits = { λ n. n };

    ghost bits = { λ n. n };

    #[inline(always)]
    fn from_bits(number: u128) -> usize {
        number as usize
    }

    #[inline(always)]
    fn to_bits(self) -> u128 {
        self as u128
    }

    ghost narrow = { omega arith };

    ghost kept = { λ n h. refl };

    ghost exact = { λ v. refl };
}

/// Returns the value for a number, if outputs are built.
#[inline(always)]
pub fn number_built<M: Mode, O: BitUint>(number: u128) -> Option<O>
    requires { number < 2 ^ O.WIDTH }
    ensures { Built M.BUILDS (λ v. v ≡ O.of_bits number) result }
{
    if M::BUILDS {
        Some(O::from_bits(number))
    } else {
        None
    }
}
