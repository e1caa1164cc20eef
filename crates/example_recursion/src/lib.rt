//! Grammars that contain themselves, by combinators. Each function has its grammar as its contract, and no proof is written.
#![tactic(auto)]

pub mod brackets;
pub mod comments;
pub mod sexprs;
pub mod values;
