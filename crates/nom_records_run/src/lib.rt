//! The engine of the program `nom_records`: the report on a file of records.
#![tactic(auto)]

pub mod report;

pub use nom_io::counted::Counted;
pub use nom_io::stream::{ByteWriter, Source};
pub use nom_run::error::RunError;
pub use nom_run::words::read_cuts;
pub use report::run;
