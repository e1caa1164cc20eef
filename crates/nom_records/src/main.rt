//! `nom_records FILE [CUT ..]`: the report on a file of records, given in parts divided at the cuts (offsets
//! in bytes).
#![tactic(auto)]

use nom_io::counted::Counted;
use nom_records_run::report::Records;
use nom_run::folder::Disk;
use nom_run::program::{read_words, status_by};
use std::io;
use std::process::ExitCode;

fn main(rt: HostRuntime) -> ExitCode {
    let words = read_words(&rt);
    let mut sink = Counted::new(io::writer(&rt));
    let status = status_by(rt.alloc(), words, &Records, &mut Disk::new(&rt), &mut sink);
    ExitCode::from(status)
}
