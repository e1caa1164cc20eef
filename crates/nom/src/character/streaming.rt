//! The parsers of `character` in streaming mode, whatever mode is requested.

pub use nom_character::streaming::{
    alpha0, alpha1, alphanumeric0, alphanumeric1, anychar, bin_digit0, bin_digit1, char, crlf,
    digit0, digit1, hex_digit0, hex_digit1, line_ending, multispace0, multispace1, newline,
    none_of, not_line_ending, oct_digit0, oct_digit1, one_of, satisfy, space0, space1, tab,
};
pub use nom_character_integer::streaming::{
    i8, i16, i32, i64, i128, isize, u8, u16, u32, u64, u128, usize,
};
pub use nom_character_integer::streaming_digits::{digits, digits_m_n};
