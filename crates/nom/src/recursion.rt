//! Grammars that contain themselves, to a depth.
//!
//! nom has functions that call each other. Here such a grammar is a type with the trait `Layer`, or `Rules` where several
//! rules contain each other, so it has its grammar as a contract.

pub use nom_recursion::layer::{Layer, recursive};
pub use nom_recursion::recursion::{OfRule, Rules, parse_in, recursive_rule};
pub use nom_recursion::stream::{StreamRules, stream_answer_as, stream_recursive_rule};
