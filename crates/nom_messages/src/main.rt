//! `nom_messages FILE [CUT ..]`: the report on a file of messages, given in parts divided at the cuts
//! (offsets in bytes).
//!
//! `nom_messages -`: the messages of standard input, one line for each.
//!
//! `nom_messages --write [FILE]`: the messages that the lines of a file stand for, or those of standard input.
#![tactic(auto)]

use nom_io::counted::Counted;
use nom_messages_run::program::status_by;
use nom_run::folder::Disk;
use nom_run::program::read_words;
use std::io;
use std::process::ExitCode;

fn main(rt: HostRuntime) -> ExitCode {
    let words = read_words(&rt);
    let mut folder = Disk::new(&rt);
    let mut files = Disk::new(&rt);
    let mut sink = Counted::new(io::writer(&rt));
    let mut faults = Counted::new(rt.stderr());
    ExitCode::from(status_by(
        rt.alloc(),
        words,
        rt.reader(),
        &mut folder,
        &mut files,
        &mut sink,
        io::writer(&rt),
        &mut faults,
    ))
}
