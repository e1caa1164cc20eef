//! The first item of an input.
#![tactic(auto)]

pub mod first;
