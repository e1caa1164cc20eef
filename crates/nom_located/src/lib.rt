//! Inputs that know their line and column.
#![tactic(auto)]

mod located;
pub mod promises;
mod source;

pub use crate::located::Located;
pub use crate::source::{Line, line_of};
