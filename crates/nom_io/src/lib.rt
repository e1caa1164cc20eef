//! Readers and writers of std, whose calls are counted.
#![tactic(auto)]

pub mod counted;
pub mod retried;
pub mod stream;
