//! Laws of values, for generic users: equality of errors and answers, the results of `parse_to`, and ranges
//! as counts.
//!
//! These functions do only what their names say: their contracts are the laws.

pub use nom_error::laws::{
    answers_are_equal, equal_kinds_hash_alike, errors_are_equal, finished_are_equal,
    kinds_are_equal, needs_are_equal,
};
pub use nom_values::range_laws::ranges_are_counts;
pub use nom_values::read_laws::{
    bytes_read_signed, bytes_read_unsigned, bytes_read_words, texts_read_signed,
    texts_read_unsigned, texts_read_words,
};
