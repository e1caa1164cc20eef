//! The program `nom_settings FILE`: what it does for the words of its command line.
ghost use Rattle.std.specs.Prelude.{◌≡◌, map, string_bytes};
ghost use Rattle.nom_run.specs.Reporting.{ByWords};
ghost use Rattle.nom_settings_run.specs.Asked.{Answers};

use crate::report::Settings;
use nom_io::stream::ByteWriter;
use nom_run::error::RunError;
use nom_run::folder::Folder;
use nom_run::program::{status_for, tell_fault};
use std::alloc::{Allocator, Global};

// Writes the settings of the file that the word after the program's name names. More words are wrong, and nothing is opened for them.
fn answer<A: Allocator + Copy, F: Folder, W: ByteWriter>(
    alloc: A,
    words: &[String],
    folder: &mut F,
    sink: &mut W,
) -> u8
    ensures { Answers F.is_file F.File.account F.missed folder.old folder.new (W.account sink.old) (W.account sink.new) result
        (map string_bytes words.now) }
{
    if words.len() > 2 {
        return tell_fault(sink, RunError::Usage);
    }
    status_for(alloc, words, &Settings, folder, sink)
}

/// Writes the settings of the file that the words of a command line name, and returns the status.
///
/// The first word is the program's name, and the second is the file. If there are no settings, it writes the line that shows
/// the reason. More words are `usage`.
pub fn status_by<F: Folder, W: ByteWriter>(
    alloc: Global,
    words: Result<Vec<String>, RunError>,
    folder: &mut F,
    sink: &mut W,
) -> u8
    ensures { ByWords words (λ v. Answers F.is_file F.File.account F.missed folder.old folder.new (W.account sink.old) (W.account sink.new) result
        (map string_bytes v.items)) (folder.new ≡ folder.old) (W.account sink.old) (W.account sink.new) result }
{
    match words {
        Ok(words) => answer(alloc, &words, folder, sink),
        Err(error) => tell_fault(sink, error),
    }
}
