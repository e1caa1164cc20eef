//! Programs `NAME FILE [CUT ..]` that report on a file, given in parts divided at the cuts (offsets in
//! bytes).
//!
//! If there is no report, one line shows the reason, and the status is 3. After a failed write nothing more
//! is written.
ghost use Rattle.std.specs.Prelude.{◌≡◌, ⊤, drop, map, IfOk, IfErr, string_bytes};
ghost use Rattle.nom_run.specs.Reporting.{ByWords, EndsWith, ToldRun, WroteText, fault_text};
ghost use Rattle.nom_run.specs.Asked.{Asks, BeginsAsked, IsWrong, ReportsAsked, ToldAsked, WhyMemory, WhyRead, WhyUsage};
ghost use Rattle.nom_run.specs.Runs.{MatchRunError};
ghost use Rattle.nom_run.specs.Words.{StartsWithNumbers};

use crate::error::RunError;
use crate::folder::Folder;
use crate::report::Reporting;
use crate::run::{run, write_all};
use crate::words::cuts_of;
use nom_io::stream::{ByteWriter, Source};
use std::alloc::{Allocator, Global};
use std::env;
use std::io::ErrorKind;
use std::rt::Env;

// The status where there is no report.
const NO_REPORT: u8 = 3;

// What the program is asked to do.
#[derive(Drop)]
struct Task<'a, A: Allocator> {
    file: &'a str,
    cuts: Vec<usize, A>,
}

fn refused<E: Drop>(_error: E) -> RunError
    ensures { result ≡ RunError.OutOfMemory }
{
    RunError::OutOfMemory
}

/// Returns the words of the command line, with the program's name first.
///
/// The answer is `Usage` if one isn't text, and `OutOfMemory` if memory ran out. Nothing is proved of which words these are.
pub fn read_words(rt: &(impl Env + Alloc<A = Global>)) -> Result<Vec<String>, RunError>
    ensures { IfErr result (λ e. MatchRunError e ⊥ ⊥ ⊤ ⊤) }
{
    match env::args(rt) {
        Ok(words) => {
            // Not by `collect`: if room for all of them is refused, that asks for less.
            let mut kept = Vec::new(rt.alloc());
            for word in words {
                kept.push(word).map_err(refused)?;
            }
            Ok(kept)
        }
        Err(error) => Err(match error.kind() {
            ErrorKind::OutOfMemory => RunError::OutOfMemory,
            _ => RunError::Usage,
        }),
    }
}

// What the words ask for, the first of which is the program's name. `Usage` where they name no file,
// or their cuts are wrong. Memory is wanted for cuts alone.
fn read_task<A: Allocator + Copy>(alloc: A, words: &[String]) -> Result<Task<'_, A>, RunError>
    ensures task { IfOk result (λ t. Asks (map string_bytes words.now) t.file.now t.cuts.items) }
    ensures error { IfErr result (λ e. MatchRunError e ⊥ ⊥ (StartsWithNumbers (drop 2 (map string_bytes words.now))) (IsWrong (map string_bytes words.now))) }
{
    if words.len() < 2 {
        return Err(RunError::Usage);
    }
    let cuts = cuts_of(alloc, &words[2..])?;
    let file = words[1].as_str();
    Ok(Task { file, cuts })
}

// Writes the report on the file that the words name.
fn answer<A: Allocator + Copy, R: Reporting, F: Folder, W: ByteWriter>(
    alloc: A,
    words: &[String],
    report: &R,
    folder: &mut F,
    sink: &mut W,
) -> Result<u8, RunError>
    ensures status { IfOk result (ReportsAsked F.is_file F.File.account (map string_bytes words.now) F.missed folder.old folder.new
        (R.is_report report.now) (W.account sink.old) (W.account sink.new)) }
    ensures error { IfErr result (λ e. MatchRunError e
        ((sink.new ≡ sink.old) × WhyRead F.is_file F.File.account (map string_bytes words.now) F.missed folder.old folder.new)
        (BeginsAsked F.is_file F.File.account (map string_bytes words.now) F.missed folder.old folder.new
        (R.is_report report.now) (W.account sink.old) (W.account sink.new))
        ((sink.new ≡ sink.old) × WhyMemory F.is_file F.File.account (map string_bytes words.now) F.missed folder.old folder.new)
        ((sink.new ≡ sink.old) × WhyUsage F.is_file F.File.account (map string_bytes words.now) F.missed folder.old folder.new)) }
{
    let task = match read_task(alloc, words) {
        Ok(task) => task,
        Err(error) => return Err(error),
    };
    let cuts = task.cuts.as_slice();
    let mut source = match folder.open(task.file) {
        Ok(source) => source,
        Err(_) => return Err(RunError::Read),
    };
    run(alloc, report, &mut source, cuts, sink)
}

fn fault(error: RunError) -> &'static str
    ensures { result.now ≡ fault_text error }
{
    match error {
        RunError::Read => "file fault\n",
        RunError::Write => "",
        RunError::OutOfMemory => "out of memory\n",
        RunError::Usage => "usage\n",
    }
}

/// Writes the line that shows why there is no report, and returns the status. After a failed write it writes
/// nothing.
pub fn tell_fault<W: ByteWriter>(sink: &mut W, error: RunError) -> u8
    ensures status { result ≡ 3 }
    ensures wrote { WroteText (W.account sink.old) (W.account sink.new) (fault_text error) }
    ensures after_write { error ≡ RunError.Write → sink.new ≡ sink.old }
{
    let _ = write_all(sink, fault(error).as_bytes());
    NO_REPORT
}

/// Returns the status of an answer. If there is none, it writes the line that shows the reason.
pub fn status_after<W: ByteWriter>(sink: &mut W, answer: Result<u8, RunError>) -> u8
    ensures { EndsWith W.account answer sink.old sink.new result }
{
    match answer {
        Ok(status) => status,
        Err(error) => tell_fault(sink, error),
    }
}

/// Writes the report on what a source gives, and returns the status.
///
/// The bytes are given in parts divided at the cuts (offsets in bytes). If there is no report, it writes the line that
/// shows the reason.
pub fn status_on<A: Allocator + Copy, R: Reporting, S: Source, W: ByteWriter>(
    alloc: A,
    report: &R,
    source: &mut S,
    cuts: &[usize],
    sink: &mut W,
) -> u8
    ensures { ToldRun (R.is_report report.now) (S.account source.old) (S.account source.new) (W.account sink.old) (W.account sink.new) cuts.now result }
{
    match run(alloc, report, source, cuts, sink) {
        Ok(status) => status,
        Err(error) => tell_fault(sink, error),
    }
}

/// Writes the report on the file that words name, and returns the status. The first word is the program's name.
///
/// If there is no report, it writes the line that shows the reason.
pub fn status_for<A: Allocator + Copy, R: Reporting, F: Folder, W: ByteWriter>(
    alloc: A,
    words: &[String],
    report: &R,
    folder: &mut F,
    sink: &mut W,
) -> u8
    ensures { ToldAsked F.is_file F.File.account (map string_bytes words.now) F.missed folder.old folder.new
        (R.is_report report.now) (W.account sink.old) (W.account sink.new) result }
{
    match answer(alloc, words, report, folder, sink) {
        Ok(status) => status,
        Err(error) => tell_fault(sink, error),
    }
}

/// Does what `status_for` does, for words that `read_words` returned.
///
/// If they couldn't be read, it writes the line that shows the reason, and opens no file.
pub fn status_by<R: Reporting, F: Folder, W: ByteWriter>(
    alloc: Global,
    words: Result<Vec<String>, RunError>,
    report: &R,
    folder: &mut F,
    sink: &mut W,
) -> u8
    ensures { ByWords words (λ v. ToldAsked F.is_file F.File.account (map string_bytes v.items) F.missed folder.old folder.new
        (R.is_report report.now) (W.account sink.old) (W.account sink.new) result)
        (folder.new ≡ folder.old) (W.account sink.old) (W.account sink.new) result }
{
    match words {
        Ok(words) => status_for(alloc, &words, report, folder, sink),
        Err(error) => tell_fault(sink, error),
    }
}
