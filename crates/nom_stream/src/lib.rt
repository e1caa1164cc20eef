//! Items from a reader, one after another.
//!
//! Each byte is read once, and decided bytes are parsed once. No more is held than a limit allows.
#![tactic(auto)]

pub mod each;
pub mod function;
pub mod held;
pub mod item_parser;
pub mod lines;
pub mod promises;
pub mod settings;
pub mod step;
pub mod stream;
