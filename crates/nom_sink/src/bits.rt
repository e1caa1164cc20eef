//! Integers as bits, and their bytes in both orders.
ghost use Rattle.std.specs.Prelude.{◌≡◌, ◌<◌, ◌≤◌, ◌*◌, ◌^◌, ◌⊎◌, ◌<ℤ◌, neg_ℤ, pos, MatchOption};
ghost use Rattle.nom_sink.specs.Digits.{AreBytesOf};
ghost use Rattle.nom_sink.specs.Written.{LacksRoom, Written};

use crate::error::WriteError;
use crate::sink::Sink;
use nom_number::Endianness;
use nom_number::layout::{I8, I16, I24, I32, I64, I128, Layout, U8, U16, U24, U32, U64, U128};

/// A layout of numbers that can be written.
pub trait ToBits: Layout {
    /// The number needs more bytes than the layout has.
    ghost Exceeds: { Self.Number → Type 0 } = { λ _. ⊥ };

    /// Returns the bits of a number, or `None` if it needs more bytes.
    fn to_bits(number: &Self::Number) -> Option<u128>
        ensures { MatchOption result (Exceeds number.now) (λ bits. (bits < 2 ^ (8 * Self.BYTES)) × (Self.of_bits bits ≡ number.now)) };
}

impl ToBits for U8 {
    #[inline(always)]
    fn to_bits(number: &u8) -> Option<u128> {
        Some(*number as u128)
    }
}

impl ToBits for U16 {
    #[inline(always)]
    fn to_bits(number: &u16) -> Option<u128> {
        Some(*number as u128)
    }
}

impl ToBits for U32 {
    #[inline(always)]
    fn to_bits(number: &u32) -> Option<u128> {
        Some(*number as u128)
    }
}

impl ToBits for U64 {
    #[inline(always)]
    fn to_bits(number: &u64) -> Option<u128> {
        Some(*number as u128)
    }
}

impl ToBits for U128 {
    #[inline(always)]
    fn to_bits(number: &u128) -> Option<u128> {
        Some(*number)
    }
}

impl ToBits for U24 {
    ghost Exceeds = { λ n. 2 ^ 24 ≤ n };

    #[inline(always)]
    fn to_bits(number: &u32) -> Option<u128> {
        if *number < 0x1000000 {
            Some(*number as u128)
        } else {
            None
        }
    }
}

impl ToBits for I8 {
    #[inline(always)]
    fn to_bits(number: &i8) -> Option<u128> {
        Some(number.cast_unsigned() as u128)
    }
}

impl ToBits for I16 {
    #[inline(always)]
    fn to_bits(number: &i16) -> Option<u128> {
        Some(number.cast_unsigned() as u128)
    }
}

impl ToBits for I32 {
    #[inline(always)]
    fn to_bits(number: &i32) -> Option<u128> {
        Some(number.cast_unsigned() as u128)
    }
}

impl ToBits for I64 {
    #[inline(always)]
    fn to_bits(number: &i64) -> Option<u128> {
        Some(number.cast_unsigned() as u128)
    }
}

impl ToBits for I128 {
    #[inline(always)]
    fn to_bits(number: &i128) -> Option<u128> {
        Some(number.cast_unsigned())
    }
}

impl ToBits for I24 {
    ghost Exceeds = { λ n. (n <ℤ neg_ℤ (pos 8388608)) ⊎ (pos 8388607 <ℤ n) };

    #[inline(always)]
    fn to_bits(number: &i32) -> Option<u128> {
        if *number < -0x800000 || *number > 0x7fffff {
            return None;
        }
        if *number < 0 {
            Some(0xffffff - (-(*number + 1)) as u128)
        } else {
            Some(*number as u128)
        }
    }
}

/// Adds the lowest `count` bytes of a number of 64 bits.
#[inline(always)]
fn add_word<S: Sink<u8>>(
    bits: u64,
    count: usize,
    endian: Endianness,
    out: &mut S,
) -> Result<(), WriteError>
    requires count { count < 9 }
    requires fits { bits < 2 ^ (8 * count) }
    ensures written { Written (AreBytesOf endian count bits) (LacksRoom count) S.model out.old out.new result }
    ensures room { S.model.room out.old ≤ S.model.room out.new }
    ensures loan { S.model.loan out.new ≡ S.model.loan out.old }
{
    if endian.is_big() {
        let bytes = bits.to_be_bytes();
        out.add(&bytes[8 - count..])
    } else {
        let bytes = bits.to_le_bytes();
        out.add(&bytes[..count])
    }
}

/// Adds the lowest `count` bytes of a number, in the given order. On an error, `out` is as it was.
#[inline(always)]
pub fn add_bits<S: Sink<u8>>(
    bits: u128,
    count: usize,
    endian: Endianness,
    out: &mut S,
) -> Result<(), WriteError>
    requires count { count < 17 }
    requires fits { bits < 2 ^ (8 * count) }
    ensures written { Written (AreBytesOf endian count bits) (LacksRoom count) S.model out.old out.new result }
    ensures room { S.model.room out.old ≤ S.model.room out.new }
    ensures loan { S.model.loan out.new ≡ S.model.loan out.old }
{
    // A number of eight bytes or fewer becomes one store; one of 128 bits doesn't.
    match u64::try_from(bits) {
        Ok(word) if count < 9 => return add_word(word, count, endian, out),
        _ => {}
    }
    if endian.is_big() {
        let bytes = bits.to_be_bytes();
        out.add(&bytes[16 - count..])
    } else {
        let bytes = bits.to_le_bytes();
        out.add(&bytes[..count])
    }
}
