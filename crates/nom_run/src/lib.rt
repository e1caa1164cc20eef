//! The engine of programs that report on a file.
//!
//! It reads a source to its end, and reports on it, given in parts divided at the cuts. It writes the text of
//! the report to a sink.
#![tactic(auto)]

pub mod error;
pub mod folder;
pub mod pieces;
pub mod program;
pub mod report;
pub mod run;
pub mod text;
pub mod words;
