//! Grammars that contain themselves, to a depth.
#![tactic(auto)]

pub mod layer;
pub mod recursion;
pub mod stream;
