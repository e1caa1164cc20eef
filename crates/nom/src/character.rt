//! Parsers of characters: single ones, runs of a class, ends of lines, decimal integers, and numbers in a count
//! of digits.
//!
//! The parsers at the top run in the requested mode.

pub mod complete;
pub mod streaming;

pub use nom_ascii::AsciiSet;
pub use nom_character::{
    AnyChar, Char, ClassRun, Crlf, Digit1, Fixed, LineEnding, LineMatch, MultiSpace0,
    NotLineEnding, Satisfy, alpha0, alpha1, alphanumeric0, alphanumeric1, anychar, bin_digit0,
    bin_digit1, char, crlf, digit0, digit1, hex_digit0, hex_digit1, is_alphabetic, is_alphanumeric,
    is_bin_digit, is_digit, is_hex_digit, is_newline, is_oct_digit, is_space, line_ending,
    multispace0, multispace1, newline, none_of, not_line_ending, oct_digit0, oct_digit1, one_of,
    predicate, satisfy, space0, space1, tab,
};
pub use nom_character_integer::{
    Digits, Integer, digits, digits_m_n, i8, i16, i32, i64, i128, isize, u8, u16, u32, u64, u128,
    usize,
};
