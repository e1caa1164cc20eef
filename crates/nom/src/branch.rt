//! Choice and permutation.

pub use nom_branch::{Choice, Permutation, alt, permutation};
