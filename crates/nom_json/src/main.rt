//! `nom_json FILE`: whether a file is one JSON text, and the place of its fault if it isn't.
//!
//! `nom_json --lines FILE`: the same for each line of the file. `-` in place of a file is standard input.
#![tactic(auto)]

use nom_io::counted::Counted;
use nom_json_run::program::status_by;
use nom_run::folder::Disk;
use nom_run::program::read_words;
use std::io;
use std::process::ExitCode;

fn main(rt: HostRuntime) -> ExitCode {
    let words = read_words(&rt);
    let mut sink = Counted::new(io::writer(&rt));
    let mut folder = Disk::new(&rt);
    let mut files = Disk::new(&rt);
    ExitCode::from(status_by(
        rt.alloc(),
        words,
        rt.reader(),
        &mut folder,
        &mut files,
        &mut sink,
    ))
}
