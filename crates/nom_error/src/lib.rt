//! The answers of parsers other than an acceptance, the modes of building, and the error values.
//!
//! All crates of this repository share this base.
#![tactic(auto)]

pub mod answer;
pub mod finish;
pub mod kind;
pub mod laws;
pub mod mode;
pub mod outside;
pub mod owned;
pub mod pair;
pub mod unit;
pub mod value;
