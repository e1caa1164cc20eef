//! The parsers of `bytes` in streaming mode, whatever mode is requested.

pub use nom_bytes::streaming::{
    is_a, is_not, tag, tag_no_case, take, take_till, take_till1, take_until, take_until1,
    take_while, take_while_m_n, take_while1,
};
pub use nom_bytes_escaped::streaming::{escaped, escaped_transform};
