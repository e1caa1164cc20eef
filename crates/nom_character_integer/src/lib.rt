//! Parsers of integers in decimal digits, and of numbers in a count of digits, in any base.
#![tactic(auto)]

pub mod bounded;
pub mod complete;
pub mod complete_digits;
mod digit_counts;
pub mod integer;
mod numbers;
pub mod streaming;
pub mod streaming_digits;

pub use crate::bounded::{Digits, Unsigned};
pub use crate::digit_counts::{digits, digits_m_n};
pub use crate::integer::Integer;
pub use crate::numbers::{i8, i16, i32, i64, i128, isize, u8, u16, u32, u64, u128, usize};
