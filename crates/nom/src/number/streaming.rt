//! The parsers of `number` in streaming mode, whatever mode is requested.

pub use nom_number::streaming::{
    be_i8, be_i16, be_i24, be_i32, be_i64, be_i128, be_u8, be_u16, be_u24, be_u32, be_u64, be_u128,
    i8, i16, i24, i32, i64, i128, le_i8, le_i16, le_i24, le_i32, le_i64, le_i128, le_u8, le_u16,
    le_u24, le_u32, le_u64, le_u128, u8, u16, u24, u32, u64, u128,
};
pub use nom_number_text::streaming::{
    hex_u32, recognize_float, recognize_float_or_exceptions, recognize_float_parts,
};
