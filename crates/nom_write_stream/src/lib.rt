//! Writes items to a writer, one after another, through a buffer of bounded size.
//!
//! `nom_stream` reads the items back.
#![tactic(auto)]

pub mod held;
pub mod outgoing;
pub mod promises;
