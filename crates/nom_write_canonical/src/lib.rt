//! Canonical formats: writers with one form a value. What they accept and write again are the same items: bytes, characters or bits.
//!
//! Some writers have no `impl`, since they accept two forms of one value: decimal integers accept leading zeros, and `tag_no_case`
//! accepts letters of either case.
#![tactic(auto)]

pub mod again;
pub mod bits;
pub mod bytes;
pub mod canonical;
pub mod choice;
pub mod length;
pub mod list;
pub mod map;
pub mod number;
pub mod outputs;
pub mod promises;
pub mod runs;
pub mod sequence;
pub mod texts;
pub mod tuple;
pub mod verdict;

pub use crate::canonical::{Canonical, CanonicalConstant};
