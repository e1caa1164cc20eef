//! The engine of the program `nom_settings`: the settings of a file, each with its line and column.
#![tactic(auto)]

pub mod explain;
pub mod program;
pub mod report;
pub mod settings;
