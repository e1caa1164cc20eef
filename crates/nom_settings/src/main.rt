//! `nom_settings FILE`: the settings of a file, each with its line and column, its section, its name and its value.
#![tactic(auto)]

use nom_io::counted::Counted;
use nom_run::folder::Disk;
use nom_run::program::read_words;
use nom_settings_run::program::status_by;
use std::io;
use std::process::ExitCode;

fn main(rt: HostRuntime) -> ExitCode {
    let words = read_words(&rt);
    let mut sink = Counted::new(io::writer(&rt));
    let status = status_by(rt.alloc(), words, &mut Disk::new(&rt), &mut sink);
    ExitCode::from(status)
}
