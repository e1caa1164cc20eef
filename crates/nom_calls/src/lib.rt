//! The ways to call a parser: functions and closures as parsers, inputs that grow, and iterators over items.
#![tactic(auto)]

pub mod answer;
pub mod func;
pub mod func_in;
pub mod function;
pub mod growing;
mod items;
pub mod promises;
pub mod refused;

pub use crate::items::{ParserIterator, State, iterator};
