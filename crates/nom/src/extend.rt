//! Functions for writing new parsers and combinators.
//!
//! They cover errors and outputs that are built only on request, choices, slices of the input, and
//! accumulated items.

pub use nom_error::value::refusal;
pub use nom_internal::built::{built, cloned, emitted};
pub use nom_internal::choice::{close, close_error, join, join_errors, next_branch};
pub use nom_internal::sequence::combine;
pub use nom_internal::slices::{before, front};
pub use nom_internal::width::both_widths;
pub use nom_repeat::accumulator::{Accumulator, none_yet, push_item};
pub use nom_repeat::bounds::{any_items, bounded_items, one_item};
pub use nom_repeat::inverted::failure;
