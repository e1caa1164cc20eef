//! Values of inputs: bytes and texts read as values, hex dumps, and ranges as counts of items.
#![tactic(auto)]

pub mod counts;
mod dump;
pub mod hex;
pub mod parse;
pub mod range;
pub mod range_laws;
pub mod read_laws;
pub mod saturating;
