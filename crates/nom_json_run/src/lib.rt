//! The engine of the program `nom_json`.
//!
//! It checks whether bytes are a JSON text, and reports the fault if they aren't.
#![tactic(auto)]

pub mod bracket;
pub mod check;
pub mod lines;
pub mod program;
pub mod report;
pub mod scan;
