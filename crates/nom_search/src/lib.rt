//! Searches for tokens and substrings, values as bytes, and the collections and builders of outputs.
#![tactic(auto)]

pub mod bytes;
pub mod collection;
pub mod extend;
mod pages;
pub mod substring;
pub mod token;
