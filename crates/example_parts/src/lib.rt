//! A user's additions to the library, proved: inputs, an error, a leaf parser, a combinator, and functions as parsers.
#![tactic(auto)]

pub mod functions;
mod letters;
mod marks;
mod nested;
mod refusal;
mod settings;
mod source;
pub mod streaming;
mod tokens;

pub use crate::letters::{Letter, one_letter};
pub use crate::marks::{Enclosed, around};
pub use crate::nested::Nested;
pub use crate::refusal::Refusal;
pub use crate::settings::setting;
pub use crate::source::Source;
pub use crate::tokens::{Token, Tokens};
