//! Sinks that items are written into, and pieces that are ready to be written, without a parser.
#![tactic(auto)]

pub mod bits;
pub mod decimal;
pub mod error;
pub mod items;
pub mod piece;
pub mod radix;
pub mod sink;
pub mod text;

pub use crate::error::WriteError;
pub use crate::sink::{Sink, SliceSink, slice_sink};
pub use crate::text::TextSink;
