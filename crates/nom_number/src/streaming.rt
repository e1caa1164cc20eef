//! Binary integers, in streaming mode.
//!
//! If there are fewer bytes, each parser needs the missing ones.
ghost use Rattle.std.specs.Prelude.{◌≡◌, true};
ghost use Rattle.nom_internal.specs.Prelude.{itself};
ghost use Rattle.nom_calls.specs.Func.{StreamsBy};
ghost use Rattle.nom_number.specs.Numbers.{number_meaning, binary_number, unsigned_meaning, signed_meaning};

use crate::layout;
use crate::layout::Layout;
use crate::order::Endianness;
use crate::wide::Binary;
use nom_calls::answer::stream_answer;
use nom_error::answer::IResult;
use nom_error::mode::Streaming;
use nom_error::value::ParseError;
use nom_internal::fixed::Fixed;
use nom_internal::one_mode::fixed;
use nom_traits::input::Input;
use std::marker::PhantomData;

/// Parses the number of a layout.
#[inline(always)]
fn of_layout<F: Layout, I: Input<Item = u8>, E: ParseError<I>>(
    input: I,
    endian: Endianness,
) -> IResult<I, F::Number, E>
    ensures { StreamsBy I.model F.Number.view (λ t v. v ≡ t) (number_meaning I.model E.errors (λ bytes. F.of_bits (binary_number endian bytes)) F.BYTES) true
        input result }
{
    let mut parser = Binary::<F, I, E> {
        endian,
        types: PhantomData,
    };
    stream_answer(&mut parser, input)
}

/// Parses an unsigned integer of one byte.
#[inline(always)]
pub fn be_u8<I: Input<Item = u8>, E: ParseError<I>>(input: I) -> IResult<I, u8, E>
    ensures { StreamsBy I.model itself (λ t v. v ≡ t) (unsigned_meaning I.model E.errors Endianness.Big 1) true input result }
{
    of_layout::<layout::U8, I, E>(input, Endianness::Big)
}

/// Parses an unsigned integer of two bytes, big-endian.
#[inline(always)]
pub fn be_u16<I: Input<Item = u8>, E: ParseError<I>>(input: I) -> IResult<I, u16, E>
    ensures { StreamsBy I.model itself (λ t v. v ≡ t) (unsigned_meaning I.model E.errors Endianness.Big 2) true input result }
{
    of_layout::<layout::U16, I, E>(input, Endianness::Big)
}

/// Parses an unsigned integer of three bytes, big-endian.
#[inline(always)]
pub fn be_u24<I: Input<Item = u8>, E: ParseError<I>>(input: I) -> IResult<I, u32, E>
    ensures { StreamsBy I.model itself (λ t v. v ≡ t) (unsigned_meaning I.model E.errors Endianness.Big 3) true input result }
{
    of_layout::<layout::U24, I, E>(input, Endianness::Big)
}

/// Parses an unsigned integer of four bytes, big-endian.
#[inline(always)]
pub fn be_u32<I: Input<Item = u8>, E: ParseError<I>>(input: I) -> IResult<I, u32, E>
    ensures { StreamsBy I.model itself (λ t v. v ≡ t) (unsigned_meaning I.model E.errors Endianness.Big 4) true input result }
{
    of_layout::<layout::U32, I, E>(input, Endianness::Big)
}

/// Parses an unsigned integer of eight bytes, big-endian.
#[inline(always)]
pub fn be_u64<I: Input<Item = u8>, E: ParseError<I>>(input: I) -> IResult<I, u64, E>
    ensures { StreamsBy I.model itself (λ t v. v ≡ t) (unsigned_meaning I.model E.errors Endianness.Big 8) true input result }
{
    of_layout::<layout::U64, I, E>(input, Endianness::Big)
}

/// Parses an unsigned integer of sixteen bytes, big-endian.
#[inline(always)]
pub fn be_u128<I: Input<Item = u8>, E: ParseError<I>>(input: I) -> IResult<I, u128, E>
    ensures { StreamsBy I.model itself (λ t v. v ≡ t) (unsigned_meaning I.model E.errors Endianness.Big 16) true input result }
{
    of_layout::<layout::U128, I, E>(input, Endianness::Big)
}

/// Parses a signed integer of one byte.
#[inline(always)]
pub fn be_i8<I: Input<Item = u8>, E: ParseError<I>>(input: I) -> IResult<I, i8, E>
    ensures { StreamsBy I.model itself (λ t v. v ≡ t) (signed_meaning I.model E.errors Endianness.Big 1) true input result }
{
    of_layout::<layout::I8, I, E>(input, Endianness::Big)
}

/// Parses a signed integer of two bytes, big-endian.
#[inline(always)]
pub fn be_i16<I: Input<Item = u8>, E: ParseError<I>>(input: I) -> IResult<I, i16, E>
    ensures { StreamsBy I.model itself (λ t v. v ≡ t) (signed_meaning I.model E.errors Endianness.Big 2) true input result }
{
    of_layout::<layout::I16, I, E>(input, Endianness::Big)
}

/// Parses a signed integer of three bytes, big-endian.
#[inline(always)]
pub fn be_i24<I: Input<Item = u8>, E: ParseError<I>>(input: I) -> IResult<I, i32, E>
    ensures { StreamsBy I.model itself (λ t v. v ≡ t) (signed_meaning I.model E.errors Endianness.Big 3) true input result }
{
    of_layout::<layout::I24, I, E>(input, Endianness::Big)
}

/// Parses a signed integer of four bytes, big-endian.
#[inline(always)]
pub fn be_i32<I: Input<Item = u8>, E: ParseError<I>>(input: I) -> IResult<I, i32, E>
    ensures { StreamsBy I.model itself (λ t v. v ≡ t) (signed_meaning I.model E.errors Endianness.Big 4) true input result }
{
    of_layout::<layout::I32, I, E>(input, Endianness::Big)
}

/// Parses a signed integer of eight bytes, big-endian.
#[inline(always)]
pub fn be_i64<I: Input<Item = u8>, E: ParseError<I>>(input: I) -> IResult<I, i64, E>
    ensures { StreamsBy I.model itself (λ t v. v ≡ t) (signed_meaning I.model E.errors Endianness.Big 8) true input result }
{
    of_layout::<layout::I64, I, E>(input, Endianness::Big)
}

/// Parses a signed integer of sixteen bytes, big-endian.
#[inline(always)]
pub fn be_i128<I: Input<Item = u8>, E: ParseError<I>>(input: I) -> IResult<I, i128, E>
    ensures { StreamsBy I.model itself (λ t v. v ≡ t) (signed_meaning I.model E.errors Endianness.Big 16) true input result }
{
    of_layout::<layout::I128, I, E>(input, Endianness::Big)
}

/// Parses an unsigned integer of one byte.
#[inline(always)]
pub fn le_u8<I: Input<Item = u8>, E: ParseError<I>>(input: I) -> IResult<I, u8, E>
    ensures { StreamsBy I.model itself (λ t v. v ≡ t) (unsigned_meaning I.model E.errors Endianness.Little 1) true input result }
{
    of_layout::<layout::U8, I, E>(input, Endianness::Little)
}

/// Parses an unsigned integer of two bytes, little-endian.
#[inline(always)]
pub fn le_u16<I: Input<Item = u8>, E: ParseError<I>>(input: I) -> IResult<I, u16, E>
    ensures { StreamsBy I.model itself (λ t v. v ≡ t) (unsigned_meaning I.model E.errors Endianness.Little 2) true input result }
{
    of_layout::<layout::U16, I, E>(input, Endianness::Little)
}

/// Parses an unsigned integer of three bytes, little-endian.
#[inline(always)]
pub fn le_u24<I: Input<Item = u8>, E: ParseError<I>>(input: I) -> IResult<I, u32, E>
    ensures { StreamsBy I.model itself (λ t v. v ≡ t) (unsigned_meaning I.model E.errors Endianness.Little 3) true input result }
{
    of_layout::<layout::U24, I, E>(input, Endianness::Little)
}

/// Parses an unsigned integer of four bytes, little-endian.
#[inline(always)]
pub fn le_u32<I: Input<Item = u8>, E: ParseError<I>>(input: I) -> IResult<I, u32, E>
    ensures { StreamsBy I.model itself (λ t v. v ≡ t) (unsigned_meaning I.model E.errors Endianness.Little 4) true input result }
{
    of_layout::<layout::U32, I, E>(input, Endianness::Little)
}

/// Parses an unsigned integer of eight bytes, little-endian.
#[inline(always)]
pub fn le_u64<I: Input<Item = u8>, E: ParseError<I>>(input: I) -> IResult<I, u64, E>
    ensures { StreamsBy I.model itself (λ t v. v ≡ t) (unsigned_meaning I.model E.errors Endianness.Little 8) true input result }
{
    of_layout::<layout::U64, I, E>(input, Endianness::Little)
}

/// Parses an unsigned integer of sixteen bytes, little-endian.
#[inline(always)]
pub fn le_u128<I: Input<Item = u8>, E: ParseError<I>>(input: I) -> IResult<I, u128, E>
    ensures { StreamsBy I.model itself (λ t v. v ≡ t) (unsigned_meaning I.model E.errors Endianness.Little 16) true input result }
{
    of_layout::<layout::U128, I, E>(input, Endianness::Little)
}

/// Parses a signed integer of one byte.
#[inline(always)]
pub fn le_i8<I: Input<Item = u8>, E: ParseError<I>>(input: I) -> IResult<I, i8, E>
    ensures { StreamsBy I.model itself (λ t v. v ≡ t) (signed_meaning I.model E.errors Endianness.Little 1) true input result }
{
    of_layout::<layout::I8, I, E>(input, Endianness::Little)
}

/// Parses a signed integer of two bytes, little-endian.
#[inline(always)]
pub fn le_i16<I: Input<Item = u8>, E: ParseError<I>>(input: I) -> IResult<I, i16, E>
    ensures { StreamsBy I.model itself (λ t v. v ≡ t) (signed_meaning I.model E.errors Endianness.Little 2) true input result }
{
    of_layout::<layout::I16, I, E>(input, Endianness::Little)
}

/// Parses a signed integer of three bytes, little-endian.
#[inline(always)]
pub fn le_i24<I: Input<Item = u8>, E: ParseError<I>>(input: I) -> IResult<I, i32, E>
    ensures { StreamsBy I.model itself (λ t v. v ≡ t) (signed_meaning I.model E.errors Endianness.Little 3) true input result }
{
    of_layout::<layout::I24, I, E>(input, Endianness::Little)
}

/// Parses a signed integer of four bytes, little-endian.
#[inline(always)]
pub fn le_i32<I: Input<Item = u8>, E: ParseError<I>>(input: I) -> IResult<I, i32, E>
    ensures { StreamsBy I.model itself (λ t v. v ≡ t) (signed_meaning I.model E.errors Endianness.Little 4) true input result }
{
    of_layout::<layout::I32, I, E>(input, Endianness::Little)
}

/// Parses a signed integer of eight bytes, little-endian.
#[inline(always)]
pub fn le_i64<I: Input<Item = u8>, E: ParseError<I>>(input: I) -> IResult<I, i64, E>
    ensures { StreamsBy I.model itself (λ t v. v ≡ t) (signed_meaning I.model E.errors Endianness.Little 8) true input result }
{
    of_layout::<layout::I64, I, E>(input, Endianness::Little)
}

/// Parses a signed integer of sixteen bytes, little-endian.
#[inline(always)]
pub fn le_i128<I: Input<Item = u8>, E: ParseError<I>>(input: I) -> IResult<I, i128, E>
    ensures { StreamsBy I.model itself (λ t v. v ≡ t) (signed_meaning I.model E.errors Endianness.Little 16) true input result }
{
    of_layout::<layout::I128, I, E>(input, Endianness::Little)
}

/// Parses a byte as `be_u8` does. A single byte has no byte order.
#[inline(always)]
pub fn u8<I: Input<Item = u8>, E: ParseError<I>>(input: I) -> IResult<I, u8, E>
    ensures { StreamsBy I.model itself (λ t v. v ≡ t) (unsigned_meaning I.model E.errors Endianness.Big 1) true input result }
{
    of_layout::<layout::U8, I, E>(input, Endianness::Big)
}

/// Parses a byte as `be_i8` does. A single byte has no byte order.
#[inline(always)]
pub fn i8<I: Input<Item = u8>, E: ParseError<I>>(input: I) -> IResult<I, i8, E>
    ensures { StreamsBy I.model itself (λ t v. v ≡ t) (signed_meaning I.model E.errors Endianness.Big 1) true input result }
{
    of_layout::<layout::I8, I, E>(input, Endianness::Big)
}

/// Parses an unsigned integer of two bytes in the byte order `endian`.
#[inline(always)]
pub fn u16<I, E>(endian: Endianness) -> Fixed<Binary<layout::U16, I, E>, Streaming>
    ensures { result.parser.endian ≡ endian }
{
    fixed(crate::u16(endian))
}

/// Parses an unsigned integer of three bytes in the byte order `endian`.
#[inline(always)]
pub fn u24<I, E>(endian: Endianness) -> Fixed<Binary<layout::U24, I, E>, Streaming>
    ensures { result.parser.endian ≡ endian }
{
    fixed(crate::u24(endian))
}

/// Parses an unsigned integer of four bytes in the byte order `endian`.
#[inline(always)]
pub fn u32<I, E>(endian: Endianness) -> Fixed<Binary<layout::U32, I, E>, Streaming>
    ensures { result.parser.endian ≡ endian }
{
    fixed(crate::u32(endian))
}

/// Parses an unsigned integer of eight bytes in the byte order `endian`.
#[inline(always)]
pub fn u64<I, E>(endian: Endianness) -> Fixed<Binary<layout::U64, I, E>, Streaming>
    ensures { result.parser.endian ≡ endian }
{
    fixed(crate::u64(endian))
}

/// Parses an unsigned integer of sixteen bytes in the byte order `endian`.
#[inline(always)]
pub fn u128<I, E>(endian: Endianness) -> Fixed<Binary<layout::U128, I, E>, Streaming>
    ensures { result.parser.endian ≡ endian }
{
    fixed(crate::u128(endian))
}

/// Parses a signed integer of two bytes in the byte order `endian`.
#[inline(always)]
pub fn i16<I, E>(endian: Endianness) -> Fixed<Binary<layout::I16, I, E>, Streaming>
    ensures { result.parser.endian ≡ endian }
{
    fixed(crate::i16(endian))
}

/// Parses a signed integer of three bytes in the byte order `endian`.
#[inline(always)]
pub fn i24<I, E>(endian: Endianness) -> Fixed<Binary<layout::I24, I, E>, Streaming>
    ensures { result.parser.endian ≡ endian }
{
    fixed(crate::i24(endian))
}

/// Parses a signed integer of four bytes in the byte order `endian`.
#[inline(always)]
pub fn i32<I, E>(endian: Endianness) -> Fixed<Binary<layout::I32, I, E>, Streaming>
    ensures { result.parser.endian ≡ endian }
{
    fixed(crate::i32(endian))
}

/// Parses a signed integer of eight bytes in the byte order `endian`.
#[inline(always)]
pub fn i64<I, E>(endian: Endianness) -> Fixed<Binary<layout::I64, I, E>, Streaming>
    ensures { result.parser.endian ≡ endian }
{
    fixed(crate::i64(endian))
}

/// Parses a signed integer of sixteen bytes in the byte order `endian`.
#[inline(always)]
pub fn i128<I, E>(endian: Endianness) -> Fixed<Binary<layout::I128, I, E>, Streaming>
    ensures { result.parser.endian ≡ endian }
{
    fixed(crate::i128(endian))
}
