//! Repetition: items in turn, and the conditions that end them.
//!
//! This crate holds the definitions, laws and lemmas of all parsers that run a part repeatedly. It also holds
//! the loop of those parsers that keep the outputs of one part.
#![tactic(auto)]

pub mod accumulator;
pub mod ahead;
pub mod bounds;
pub mod exact;
pub mod inverted;
pub mod items;
