//! Parsers that also write. A parser reads back what it writes.
//!
//! These parsers don't write:
//!
//! - Functions under `func`, `map`, `map_opt`, `map_res` and `flat_map` can't be turned around. `map_both` and its like take the way back.
//! - `complete` and `all_consuming` aren't stream parsers, because what they accept depends on where the input ends.
//! - `recognize` returns items. Whether they are a form of its part is known only by parsing them.
//! - `bytes`, among bits, skips the rest of a byte. How many bits that is depends on where it stands.
//! - `peek`, `not`, `rest` and `fail` return nothing that could be read back.
#![tactic(auto)]

pub mod bits;
pub mod bytes;
pub mod choice;
pub mod decimal;
pub mod ending;
pub mod flat_map;
pub mod hexadecimal;
pub mod length;
pub mod list;
pub mod map;
pub mod map_opt;
pub mod map_res;
pub mod number;
pub mod outputs;
mod piece;
pub mod promises;
pub mod runs;
pub mod separated;
pub mod sequence;
pub mod slices;
pub mod success;
pub mod texts;
pub mod tuple;
pub mod unmarked;
pub mod verdict;
pub mod whole;
pub mod writer;

pub use crate::ending::Ending;
pub use crate::flat_map::{FlatMapBoth, flat_map_both};
pub use crate::hexadecimal::hex_u32;
pub use crate::map::{MapBoth, map_both};
pub use crate::map_opt::{MapOptBoth, map_opt_both};
pub use crate::map_res::{MapResBoth, map_res_both};
pub use crate::slices::write_to_slice;
pub use crate::writer::{Constant, Writer};
pub use nom_sink::{Sink, SliceSink, TextSink, WriteError, error, sink, slice_sink};
