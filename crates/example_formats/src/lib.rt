//! Small formats, each a grammar from its text to a value, in one file that reads from top to bottom.
#![tactic(auto)]

mod arithmetic;
mod ini;
mod named;

pub use crate::arithmetic::{Fault, expression};
pub use crate::ini::{Section, sections};
pub use crate::named::named_value;
