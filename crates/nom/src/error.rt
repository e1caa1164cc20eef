//! Error values.

pub use nom_combinator::{Context, context};
pub use nom_error::kind::{ErrorKind, error_to_u32};
pub use nom_error::outside::{ContextError, FromExternalError};
pub use nom_error::value::{Error, ParseError, append_error, make_error};

/// Makes the error of a kind at an input, by `make_error`.
#[macro_export]
macro_rules! error_position {
    ($input:expr, $code:expr) => {
        $crate::error::make_error($input, $code)
    };
}

/// Adds a kind at an input to an error from below, by `append_error`.
#[macro_export]
macro_rules! error_node_position {
    ($input:expr, $code:expr, $next:expr) => {
        $crate::error::append_error($input, $code, $next)
    };
}
