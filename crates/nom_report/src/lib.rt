//! An error type for people.
//!
//! It shows where the input stopped matching every alternative, what would have been accepted there, and the
//! contexts around that place.
#![tactic(auto)]

mod around;
mod branches;
mod enclosing;
mod expectation;
mod in_turn;
mod list;
mod located;
mod octets;
mod place;
pub mod promises;
mod quote;
mod several;
mod text;
mod twice;
mod value;
mod words;

pub use crate::branches::Branches;
pub use crate::enclosing::{Enclosing, MOST_ENCLOSING};
pub use crate::expectation::Expected;
pub use crate::in_turn::{parse_complete_in_turn, parse_in_turn};
pub use crate::octets::render_bytes;
pub use crate::place::Placed;
pub use crate::several::MOST_EXPECTED;
pub use crate::text::{render, render_from};
pub use crate::twice::{parse_complete_twice, parse_twice};
pub use crate::value::Report;
