//! Layouts of integers in bytes.
ghost use Rattle.std.specs.Prelude.{◌≡◌, ◌<◌, ◌*◌, ◌^◌, ℕ};
ghost use Rattle.std.proofs.Common.{arith};
ghost use Rattle.nom_number.specs.Numbers.{signed_of};

use nom_traits::view::Viewed;

/// The layout of a number in bytes.
pub trait Layout {
    /// The type of the number.
    type Number: Viewed + Drop;

    ghost BYTES: { ℕ };

    /// The number of bytes, at most 16.
    const BYTES: usize;

    /// The number that the bits of the bytes represent.
    ghost of_bits: { ℕ → Self.Number };

    /// Returns the number that the bits of the bytes represent.
    fn from_bits(bits: u128) -> Self::Number
        requires { bits < 2 ^ (8 * BYTES) }
        ensures { result ≡ of_bits bits };

    ghost short: { BYTES < 17 };
}

/// An unsigned integer in one byte.
pub struct U8;

impl Layout for U8 {
    type Number = u8;

    ghost BYTES = { 1 };

    const BYTES: usize = 1;

    ghost of_bits = { λ n. n };

    #[inline(always)]
    fn from_bits(bits: u128) -> u8 {
        bits as u8
    }

    ghost short = { omega arith };
}

/// An unsigned integer in two bytes.
pub struct U16;

impl Layout for U16 {
    type Number = u16;

    ghost BYTES = { 2 };

    const BYTES: usize = 2;

    ghost of_bits = { λ n. n };

    #[inline(always)]
    fn from_bits(bits: u128) -> u16 {
        bits as u16
    }

    ghost short = { omega arith };
}

/// An unsigned integer in three bytes.
pub struct U24;

impl Layout for U24 {
    type Number = u32;

    ghost BYTES = { 3 };

    const BYTES: usize = 3;

    ghost of_bits = { λ n. n };

    #[inline(always)]
    fn from_bits(bits: u128) -> u32 {
        bits as u32
    }

    ghost short = { omega arith };
}

/// An unsigned integer in four bytes.
pub struct U32;

impl Layout for U32 {
    type Number = u32;

    ghost BYTES = { 4 };

    const BYTES: usize = 4;

    ghost of_bits = { λ n. n };

    #[inline(always)]
    fn from_bits(bits: u128) -> u32 {
        bits as u32
    }

    ghost short = { omega arith };
}

/// An unsigned integer in eight bytes.
pub struct U64;

impl Layout for U64 {
    type Number = u64;

    ghost BYTES = { 8 };

    const BYTES: usize = 8;

    ghost of_bits = { λ n. n };

    #[inline(always)]
    fn from_bits(bits: u128) -> u64 {
        bits as u64
    }

    ghost short = { omega arith };
}

/// An unsigned integer in sixteen bytes.
pub struct U128;

impl Layout for U128 {
    type Number = u128;

    ghost BYTES = { 16 };

    const BYTES: usize = 16;

    ghost of_bits = { λ n. n };

    #[inline(always)]
    fn from_bits(bits: u128) -> u128 {
        bits
    }

    ghost short = { omega arith };
}

/// A signed integer in one byte.
pub struct I8;

impl Layout for I8 {
    type Number = i8;

    ghost BYTES = { 1 };

    const BYTES: usize = 1;

    ghost of_bits = { λ n. signed_of 8 n };

    #[inline(always)]
    fn from_bits(bits: u128) -> i8 {
        if bits < 0x80 {
            bits as i8
        } else {
            -((0xff - bits) as i8) - 1
        }
    }

    ghost short = { omega arith };
}

/// A signed integer in two bytes.
pub struct I16;

impl Layout for I16 {
    type Number = i16;

    ghost BYTES = { 2 };

    const BYTES: usize = 2;

    ghost of_bits = { λ n. signed_of 16 n };

    #[inline(always)]
    fn from_bits(bits: u128) -> i16 {
        if bits < 0x8000 {
            bits as i16
        } else {
            -((0xffff - bits) as i16) - 1
        }
    }

    ghost short = { omega arith };
}

/// A signed integer in three bytes.
pub struct I24;

impl Layout for I24 {
    type Number = i32;

    ghost BYTES = { 3 };

    const BYTES: usize = 3;

    ghost of_bits = { λ n. signed_of 24 n };

    #[inline(always)]
    fn from_bits(bits: u128) -> i32 {
        if bits < 0x800000 {
            bits as i32
        } else {
            -((0xffffff - bits) as i32) - 1
        }
    }

    ghost short = { omega arith };
}

/// A signed integer in four bytes.
pub struct I32;

impl Layout for I32 {
    type Number = i32;

    ghost BYTES = { 4 };

    const BYTES: usize = 4;

    ghost of_bits = { λ n. signed_of 32 n };

    #[inline(always)]
    fn from_bits(bits: u128) -> i32 {
        if bits < 0x80000000 {
            bits as i32
        } else {
            -((0xffffffff - bits) as i32) - 1
        }
    }

    ghost short = { omega arith };
}

/// A signed integer in eight bytes.
pub struct I64;

impl Layout for I64 {
    type Number = i64;

    ghost BYTES = { 8 };

    const BYTES: usize = 8;

    ghost of_bits = { λ n. signed_of 64 n };

    #[inline(always)]
    fn from_bits(bits: u128) -> i64 {
        if bits < 0x8000000000000000 {
            bits as i64
        } else {
            -((0xffffffffffffffff - bits) as i64) - 1
        }
    }

    ghost short = { omega arith };
}

/// A signed integer in sixteen bytes.
pub struct I128;

impl Layout for I128 {
    type Number = i128;

    ghost BYTES = { 16 };

    const BYTES: usize = 16;

    ghost of_bits = { λ n. signed_of 128 n };

    #[inline(always)]
    fn from_bits(bits: u128) -> i128 {
        if bits < 0x80000000000000000000000000000000 {
            bits as i128
        } else {
            -((0xffffffffffffffffffffffffffffffff - bits) as i128) - 1
        }
    }

    ghost short = { omega arith };
}
