//! Numbers.
#![tactic(auto)]

ghost use Rattle.std.specs.Prelude.{◌≡◌};

mod binary;
pub mod complete;
pub mod layout;
mod order;
pub mod streaming;
mod wide;

pub use crate::binary::BeU8;
pub use crate::order::Endianness;
pub use crate::wide::Binary;
pub use nom_internal::fixed::Fixed;
use std::marker::PhantomData;

/// Parses one byte as a number.
///
/// If there is none, streaming needs it, and complete refuses with `Eof`.
#[inline(always)]
pub fn be_u8<I, E>() -> BeU8<I, E> {
    BeU8 { error: PhantomData }
}

/// Returns the parser of a number in the byte order `endian`.
#[inline(always)]
fn in_order<F, I, E>(endian: Endianness) -> Binary<F, I, E>
    ensures { result.endian ≡ endian }
{
    Binary {
        endian,
        types: PhantomData,
    }
}

/// Parses an unsigned integer of two bytes, big-endian.
///
/// If there are fewer bytes, streaming needs the missing ones, and complete refuses with `Eof`.
#[inline(always)]
pub fn be_u16<I, E>() -> Binary<layout::U16, I, E>
    ensures { result.endian ≡ Endianness.Big }
{
    in_order(Endianness::Big)
}

/// Parses an unsigned integer of three bytes, big-endian.
///
/// If there are fewer bytes, streaming needs the missing ones, and complete refuses with `Eof`.
#[inline(always)]
pub fn be_u24<I, E>() -> Binary<layout::U24, I, E>
    ensures { result.endian ≡ Endianness.Big }
{
    in_order(Endianness::Big)
}

/// Parses an unsigned integer of four bytes, big-endian.
///
/// If there are fewer bytes, streaming needs the missing ones, and complete refuses with `Eof`.
#[inline(always)]
pub fn be_u32<I, E>() -> Binary<layout::U32, I, E>
    ensures { result.endian ≡ Endianness.Big }
{
    in_order(Endianness::Big)
}

/// Parses an unsigned integer of eight bytes, big-endian.
///
/// If there are fewer bytes, streaming needs the missing ones, and complete refuses with `Eof`.
#[inline(always)]
pub fn be_u64<I, E>() -> Binary<layout::U64, I, E>
    ensures { result.endian ≡ Endianness.Big }
{
    in_order(Endianness::Big)
}

/// Parses an unsigned integer of sixteen bytes, big-endian.
///
/// If there are fewer bytes, streaming needs the missing ones, and complete refuses with `Eof`.
#[inline(always)]
pub fn be_u128<I, E>() -> Binary<layout::U128, I, E>
    ensures { result.endian ≡ Endianness.Big }
{
    in_order(Endianness::Big)
}

/// Parses a signed integer of one byte.
///
/// If there are fewer bytes, streaming needs the missing ones, and complete refuses with `Eof`.
#[inline(always)]
pub fn be_i8<I, E>() -> Binary<layout::I8, I, E>
    ensures { result.endian ≡ Endianness.Big }
{
    in_order(Endianness::Big)
}

/// Parses a signed integer of two bytes, big-endian.
///
/// If there are fewer bytes, streaming needs the missing ones, and complete refuses with `Eof`.
#[inline(always)]
pub fn be_i16<I, E>() -> Binary<layout::I16, I, E>
    ensures { result.endian ≡ Endianness.Big }
{
    in_order(Endianness::Big)
}

/// Parses a signed integer of three bytes, big-endian.
///
/// If there are fewer bytes, streaming needs the missing ones, and complete refuses with `Eof`.
#[inline(always)]
pub fn be_i24<I, E>() -> Binary<layout::I24, I, E>
    ensures { result.endian ≡ Endianness.Big }
{
    in_order(Endianness::Big)
}

/// Parses a signed integer of four bytes, big-endian.
///
/// If there are fewer bytes, streaming needs the missing ones, and complete refuses with `Eof`.
#[inline(always)]
pub fn be_i32<I, E>() -> Binary<layout::I32, I, E>
    ensures { result.endian ≡ Endianness.Big }
{
    in_order(Endianness::Big)
}

/// Parses a signed integer of eight bytes, big-endian.
///
/// If there are fewer bytes, streaming needs the missing ones, and complete refuses with `Eof`.
#[inline(always)]
pub fn be_i64<I, E>() -> Binary<layout::I64, I, E>
    ensures { result.endian ≡ Endianness.Big }
{
    in_order(Endianness::Big)
}

/// Parses a signed integer of sixteen bytes, big-endian.
///
/// If there are fewer bytes, streaming needs the missing ones, and complete refuses with `Eof`.
#[inline(always)]
pub fn be_i128<I, E>() -> Binary<layout::I128, I, E>
    ensures { result.endian ≡ Endianness.Big }
{
    in_order(Endianness::Big)
}

/// Parses an unsigned integer of one byte.
///
/// If there are fewer bytes, streaming needs the missing ones, and complete refuses with `Eof`.
#[inline(always)]
pub fn le_u8<I, E>() -> Binary<layout::U8, I, E>
    ensures { result.endian ≡ Endianness.Little }
{
    in_order(Endianness::Little)
}

/// Parses an unsigned integer of two bytes, little-endian.
///
/// If there are fewer bytes, streaming needs the missing ones, and complete refuses with `Eof`.
#[inline(always)]
pub fn le_u16<I, E>() -> Binary<layout::U16, I, E>
    ensures { result.endian ≡ Endianness.Little }
{
    in_order(Endianness::Little)
}

/// Parses an unsigned integer of three bytes, little-endian.
///
/// If there are fewer bytes, streaming needs the missing ones, and complete refuses with `Eof`.
#[inline(always)]
pub fn le_u24<I, E>() -> Binary<layout::U24, I, E>
    ensures { result.endian ≡ Endianness.Little }
{
    in_order(Endianness::Little)
}

/// Parses an unsigned integer of four bytes, little-endian.
///
/// If there are fewer bytes, streaming needs the missing ones, and complete refuses with `Eof`.
#[inline(always)]
pub fn le_u32<I, E>() -> Binary<layout::U32, I, E>
    ensures { result.endian ≡ Endianness.Little }
{
    in_order(Endianness::Little)
}

/// Parses an unsigned integer of eight bytes, little-endian.
///
/// If there are fewer bytes, streaming needs the missing ones, and complete refuses with `Eof`.
#[inline(always)]
pub fn le_u64<I, E>() -> Binary<layout::U64, I, E>
    ensures { result.endian ≡ Endianness.Little }
{
    in_order(Endianness::Little)
}

/// Parses an unsigned integer of sixteen bytes, little-endian.
///
/// If there are fewer bytes, streaming needs the missing ones, and complete refuses with `Eof`.
#[inline(always)]
pub fn le_u128<I, E>() -> Binary<layout::U128, I, E>
    ensures { result.endian ≡ Endianness.Little }
{
    in_order(Endianness::Little)
}

/// Parses a signed integer of one byte.
///
/// If there are fewer bytes, streaming needs the missing ones, and complete refuses with `Eof`.
#[inline(always)]
pub fn le_i8<I, E>() -> Binary<layout::I8, I, E>
    ensures { result.endian ≡ Endianness.Little }
{
    in_order(Endianness::Little)
}

/// Parses a signed integer of two bytes, little-endian.
///
/// If there are fewer bytes, streaming needs the missing ones, and complete refuses with `Eof`.
#[inline(always)]
pub fn le_i16<I, E>() -> Binary<layout::I16, I, E>
    ensures { result.endian ≡ Endianness.Little }
{
    in_order(Endianness::Little)
}

/// Parses a signed integer of three bytes, little-endian.
///
/// If there are fewer bytes, streaming needs the missing ones, and complete refuses with `Eof`.
#[inline(always)]
pub fn le_i24<I, E>() -> Binary<layout::I24, I, E>
    ensures { result.endian ≡ Endianness.Little }
{
    in_order(Endianness::Little)
}

/// Parses a signed integer of four bytes, little-endian.
///
/// If there are fewer bytes, streaming needs the missing ones, and complete refuses with `Eof`.
#[inline(always)]
pub fn le_i32<I, E>() -> Binary<layout::I32, I, E>
    ensures { result.endian ≡ Endianness.Little }
{
    in_order(Endianness::Little)
}

/// Parses a signed integer of eight bytes, little-endian.
///
/// If there are fewer bytes, streaming needs the missing ones, and complete refuses with `Eof`.
#[inline(always)]
pub fn le_i64<I, E>() -> Binary<layout::I64, I, E>
    ensures { result.endian ≡ Endianness.Little }
{
    in_order(Endianness::Little)
}

/// Parses a signed integer of sixteen bytes, little-endian.
///
/// If there are fewer bytes, streaming needs the missing ones, and complete refuses with `Eof`.
#[inline(always)]
pub fn le_i128<I, E>() -> Binary<layout::I128, I, E>
    ensures { result.endian ≡ Endianness.Little }
{
    in_order(Endianness::Little)
}

/// Parses a byte as `be_u8` does. A single byte has no byte order.
#[inline(always)]
pub fn u8<I, E>() -> BeU8<I, E> {
    be_u8()
}

/// Parses a byte as `be_i8` does. A single byte has no byte order.
#[inline(always)]
pub fn i8<I, E>() -> Binary<layout::I8, I, E>
    ensures { result.endian ≡ Endianness.Big }
{
    be_i8()
}

/// Parses an unsigned integer of two bytes in the byte order `endian`.
///
/// If there are fewer bytes, streaming needs the missing ones, and complete refuses with `Eof`.
#[inline(always)]
pub fn u16<I, E>(endian: Endianness) -> Binary<layout::U16, I, E>
    ensures { result.endian ≡ endian }
{
    in_order(endian)
}

/// Parses an unsigned integer of three bytes in the byte order `endian`.
///
/// If there are fewer bytes, streaming needs the missing ones, and complete refuses with `Eof`.
#[inline(always)]
pub fn u24<I, E>(endian: Endianness) -> Binary<layout::U24, I, E>
    ensures { result.endian ≡ endian }
{
    in_order(endian)
}

/// Parses an unsigned integer of four bytes in the byte order `endian`.
///
/// If there are fewer bytes, streaming needs the missing ones, and complete refuses with `Eof`.
#[inline(always)]
pub fn u32<I, E>(endian: Endianness) -> Binary<layout::U32, I, E>
    ensures { result.endian ≡ endian }
{
    in_order(endian)
}

/// Parses an unsigned integer of eight bytes in the byte order `endian`.
///
/// If there are fewer bytes, streaming needs the missing ones, and complete refuses with `Eof`.
#[inline(always)]
pub fn u64<I, E>(endian: Endianness) -> Binary<layout::U64, I, E>
    ensures { result.endian ≡ endian }
{
    in_order(endian)
}

/// Parses an unsigned integer of sixteen bytes in the byte order `endian`.
///
/// If there are fewer bytes, streaming needs the missing ones, and complete refuses with `Eof`.
#[inline(always)]
pub fn u128<I, E>(endian: Endianness) -> Binary<layout::U128, I, E>
    ensures { result.endian ≡ endian }
{
    in_order(endian)
}

/// Parses a signed integer of two bytes in the byte order `endian`.
///
/// If there are fewer bytes, streaming needs the missing ones, and complete refuses with `Eof`.
#[inline(always)]
pub fn i16<I, E>(endian: Endianness) -> Binary<layout::I16, I, E>
    ensures { result.endian ≡ endian }
{
    in_order(endian)
}

/// Parses a signed integer of three bytes in the byte order `endian`.
///
/// If there are fewer bytes, streaming needs the missing ones, and complete refuses with `Eof`.
#[inline(always)]
pub fn i24<I, E>(endian: Endianness) -> Binary<layout::I24, I, E>
    ensures { result.endian ≡ endian }
{
    in_order(endian)
}

/// Parses a signed integer of four bytes in the byte order `endian`.
///
/// If there are fewer bytes, streaming needs the missing ones, and complete refuses with `Eof`.
#[inline(always)]
pub fn i32<I, E>(endian: Endianness) -> Binary<layout::I32, I, E>
    ensures { result.endian ≡ endian }
{
    in_order(endian)
}

/// Parses a signed integer of eight bytes in the byte order `endian`.
///
/// If there are fewer bytes, streaming needs the missing ones, and complete refuses with `Eof`.
#[inline(always)]
pub fn i64<I, E>(endian: Endianness) -> Binary<layout::I64, I, E>
    ensures { result.endian ≡ endian }
{
    in_order(endian)
}

/// Parses a signed integer of sixteen bytes in the byte order `endian`.
///
/// If there are fewer bytes, streaming needs the missing ones, and complete refuses with `Eof`.
#[inline(always)]
pub fn i128<I, E>(endian: Endianness) -> Binary<layout::I128, I, E>
    ensures { result.endian ≡ endian }
{
    in_order(endian)
}
