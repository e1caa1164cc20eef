//! Parsers: their meaning, their laws and their promises.
//!
//! The other modules cover slices of inputs, sequences of two, tuples, choices, and closures on outputs. They
//! also cover parsers on the output of another one, parsers that closures return, and parsers in one mode.
#![tactic(auto)]

pub mod and_then;
pub mod built;
pub mod choice;
pub mod either;
pub mod fixed;
pub mod flat;
pub mod flat_map;
pub mod into;
pub mod judged;
pub mod map;
pub mod one_mode;
pub mod parser;
pub mod promises;
pub mod sequence;
pub mod slices;
pub mod tuple;
pub mod wide_tuple;
pub mod width;
