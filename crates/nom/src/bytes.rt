//! Parsers of items: tags, slices, runs, searches and texts with escapes. The parsers at the top run in the
//! requested mode.

pub mod complete;
pub mod streaming;

pub use nom_bytes::{
    Fixed, SplitPosition, SplitPosition1, Tag, TagNoCase, Take, TakeUntil, TakeUntil1, TakeWhileMN,
    is_a, is_not, predicate, tag, tag_no_case, take, take_till, take_till1, take_until,
    take_until1, take_while, take_while_m_n, take_while1,
};
pub use nom_bytes_escaped::{Escaped, EscapedTransform, escaped, escaped_transform};
