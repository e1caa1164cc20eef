//! The engine of the program `nom_messages`.
//!
//! It makes the report on a file of messages, the lines of messages that come one after another, and messages of
//! lines that are typed.
#![tactic(auto)]

pub mod messages;
pub mod pipe;
pub mod program;
pub mod promises;
pub mod protocol;
pub mod put;
pub mod report;
pub mod typed;
pub mod write;
