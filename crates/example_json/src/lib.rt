//! JSON texts to trees: a grammar that contains itself, by functions that call each other.
#![tactic(auto)]

mod numbers;
mod scalars;
mod strings;
mod tree;
mod values;

pub use crate::numbers::integer;
pub use crate::strings::decoded;
pub use crate::tree::Json;
pub use crate::values::{json, json_text};
