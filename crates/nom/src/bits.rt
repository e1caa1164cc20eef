//! Bit fields, parsers of bits among parsers of bytes, and the reverse. The parsers at the top run in the
//! requested mode.

pub use nom_bits::{
    Bits, Bool, Bytes, Fixed, Tag, Take, bits, bool, bytes, complete, streaming, tag, take,
};
