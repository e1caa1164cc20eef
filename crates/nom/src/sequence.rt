//! Parsers in sequence.

pub use nom_sequence::{
    Preceded, Terminated, delimited, pair, preceded, separated_pair, terminated,
};
