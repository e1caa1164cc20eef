//! Grammars as a user of the library writes them: with a contract in words of `nom`'s own specs, with one of the user's, and with
//! nothing to prove.
#![tactic(auto)]

mod bits;
mod brackets;
pub mod classes;
pub mod closures;
mod configuration;
pub mod field;
pub mod grammars;
mod hex;
pub mod lengths;
pub mod own;
mod promises;
pub mod sections;
pub mod standards;
pub mod steps;
pub mod words;

pub use crate::bits::twelve_bits;
pub use crate::brackets::{brackets_line, nested_brackets};
pub use crate::configuration::{Line, settings};
pub use crate::hex::{Color, hex_color};
pub use crate::promises::promised;
