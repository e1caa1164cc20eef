//! Items that come in pieces or in a stream: records, fields and frames. Frames are also written to a pipe: what was written is what
//! is read. A header and frames of a kind are read and written by one parser.
#![tactic(auto)]

pub mod fields;
pub mod frames;
pub mod header;
pub mod kinds;
pub mod passed;
pub mod pipes;
pub mod records;
