//! The program `nom_messages`: what the words of its command line ask for, and what it does for them.
//!
//! `nom_messages FILE [CUT ..]`: the report on a file of messages, given in parts divided at the cuts
//! (offsets in bytes).
//!
//! `nom_messages -`: the messages of standard input, one line for each.
//!
//! `nom_messages --write [FILE]`: the messages that the lines of a file stand for, or those of standard input.
ghost use Rattle.std.specs.Prelude.{◌≡◌, ◌<◌, IfErr, IfOk, MatchResult, length, map, string_bytes};
ghost use Rattle.nom_run.specs.Reporting.{ByWords};
ghost use Rattle.nom_messages_run.specs.Asked.{Answers, Asks, AsksToWrite, AsksTooMuch, Performs, TellsHalt, TellsInput, WritesFile, WritesMessages};

use crate::pipe::tell_messages;
use crate::report::Messages;
use crate::write::{Halt, add_halt, halt_status, write_lines};
use nom_io::counted::Counted;
use nom_io::stream::ByteWriter;
use nom_run::error::RunError;
use nom_run::folder::{Folder, open_reader};
use nom_run::program::{status_after, status_for, tell_fault};
use nom_run::run::write_all;
use nom_run::words::{is_word, word_at};
use nom_stream::settings::Settings;
use nom_stream::stream::Stream;
use nom_write_stream::outgoing::Outgoing;
use std::alloc::{Allocator, Global};
use std::io::{Read, Write};

// How standard input is read.
const SETTINGS: Settings = Settings {
    read: 65536,
    most: 131072,
    patient: true,
    complete: false,
};

// How lines are read: the last one may lack its end.
const LINES: Settings = Settings {
    read: 65536,
    most: 65536,
    patient: true,
    complete: true,
};

// So many bytes of messages are held at the most.
const HELD: usize = 65536;

/// What the words of a command line ask for.
#[derive(Clone, Copy)]
pub enum Task<'a> {
    /// The report on the file that they name.
    Report,
    /// The messages of standard input, one line for each.
    Input,
    /// The messages of the lines of standard input.
    WriteInput,
    /// The messages of the lines of a file.
    WriteFile(&'a str),
}

// What lines are read from, for words of which the first is `--write`.
fn lines_of(words: &[String]) -> Result<Task<'_>, RunError>
    requires { AsksToWrite (map string_bytes words.now) }
    ensures task { IfOk result (Asks (map string_bytes words.now)) }
    ensures wrong { IfErr result (λ e. (e ≡ RunError.Usage) × AsksTooMuch (map string_bytes words.now)) }
{
    if words.len() > 3 {
        return Err(RunError::Usage);
    }
    if words.len() < 3 {
        return Ok(Task::WriteInput);
    }
    if is_word(words, 2, "-") {
        return Ok(Task::WriteInput);
    }
    Ok(Task::WriteFile(word_at(words, 2)))
}

/// Returns what words ask for, the first of which is the program's name. A report reads its own words.
///
/// The answer is `Usage` if there is more than one word after `--write`.
pub fn task_of(words: &[String]) -> Result<Task<'_>, RunError>
    ensures task { IfOk result (Asks (map string_bytes words.now)) }
    ensures wrong { IfErr result (λ e. (e ≡ RunError.Usage) × AsksTooMuch (map string_bytes words.now)) }
{
    if words.len() < 2 {
        return Ok(Task::Report);
    }
    if is_word(words, 1, "--write") {
        return lines_of(words);
    }
    if words.len() > 2 {
        return Ok(Task::Report);
    }
    if is_word(words, 1, "-") {
        return Ok(Task::Input);
    }
    Ok(Task::Report)
}

// The lines of standard input, and the status.
fn tell_input<A: Allocator + Copy, R: Read + Drop, S: ByteWriter>(
    alloc: A,
    input: R,
    sink: &mut S,
) -> u8
    ensures { TellsInput R.remaining S.account input sink.old sink.new result A }
{
    let mut stream = Stream::new(alloc, input, SETTINGS);
    let answer = tell_messages(alloc, &mut stream, sink);
    status_after(sink, answer)
}

// Tells why no further line is written, and the status.
fn tell_halt<A: Allocator + Copy, E: ByteWriter>(alloc: A, halt: Halt, faults: &mut E) -> u8
    ensures { TellsHalt E.account halt faults.old faults.new result }
{
    let mut text = String::new(alloc);
    match add_halt(&mut text, halt) {
        Ok(()) => {
            let _ = write_all(faults, text.as_bytes());
            halt_status(halt)
        }
        Err(_) => tell_fault(faults, RunError::OutOfMemory),
    }
}

// The messages of a reader's lines, and the status. Faults are told apart from them.
fn write_messages<A: Allocator + Copy, R: Read + Drop, W: Write + Drop, E: ByteWriter>(
    alloc: A,
    reader: R,
    writer: W,
    faults: &mut E,
) -> u8
    ensures { WritesMessages R.remaining W.contents E.account reader writer faults.old faults.new result A }
{
    let mut stream = Stream::new(alloc, reader, LINES);
    match Outgoing::new(alloc, writer, HELD) {
        Ok(mut outgoing) => {
            let halt = write_lines(alloc, &mut stream, &mut outgoing);
            tell_halt(alloc, halt, faults)
        }
        Err(_) => tell_fault(faults, RunError::OutOfMemory),
    }
}

// The messages of a file's lines, and the status.
fn write_file<
    A: Allocator + Copy,
    R: Read + Drop,
    G: Folder<File = Counted<R>>,
    W: Write + Drop,
    E: ByteWriter,
>(alloc: A, file: &str, files: &mut G, writer: W, faults: &mut E) -> u8
    ensures { WritesFile G.is_file R.remaining G.missed files.old files.new W.contents writer E.account faults.old faults.new result A file.now }
{
    match open_reader(files, file) {
        Ok(reader) => write_messages(alloc, reader, writer, faults),
        Err(error) => tell_fault(faults, error),
    }
}

// What is done for a task, and the status.
fn perform<
    A: Allocator + Copy,
    I: Read + Drop,
    F: Folder,
    R: Read + Drop,
    G: Folder<File = Counted<R>>,
    S: ByteWriter,
    W: Write + Drop,
    E: ByteWriter,
>(
    alloc: A,
    task: Task<'_>,
    words: &[String],
    input: I,
    folder: &mut F,
    files: &mut G,
    sink: &mut S,
    writer: W,
    faults: &mut E,
) -> u8
    ensures { Performs F.is_file F.File.account F.missed folder.old folder.new I.remaining input W.contents writer E.account faults.old faults.new
        S.account sink.old sink.new result A (WritesFile G.is_file R.remaining G.missed files.old files.new W.contents writer E.account
        faults.old faults.new result A) (files.new ≡ files.old) (map string_bytes words.now) task.entry }
{
    match task {
        Task::Report => status_for(alloc, words, &Messages, folder, sink),
        Task::Input => tell_input(alloc, input, sink),
        Task::WriteInput => write_messages(alloc, input, writer, faults),
        Task::WriteFile(file) => write_file(alloc, file, files, writer, faults),
    }
}

// The same for words.
fn answer<
    A: Allocator + Copy,
    I: Read + Drop,
    F: Folder,
    R: Read + Drop,
    G: Folder<File = Counted<R>>,
    S: ByteWriter,
    W: Write + Drop,
    E: ByteWriter,
>(
    alloc: A,
    words: &[String],
    input: I,
    folder: &mut F,
    files: &mut G,
    sink: &mut S,
    writer: W,
    faults: &mut E,
) -> u8
    ensures { Answers F.is_file F.File.account F.missed folder.old folder.new I.remaining input W.contents writer E.account faults.old faults.new
        S.account sink.old sink.new result A (WritesFile G.is_file R.remaining G.missed files.old files.new W.contents writer E.account
        faults.old faults.new result A) (files.new ≡ files.old) (map string_bytes words.now) }
{
    match task_of(words) {
        Ok(task) => perform(
            alloc, task, words, input, folder, files, sink, writer, faults,
        ),
        Err(error) => tell_fault(faults, error),
    }
}

/// Does what the words of a command line ask for, and returns the status.
///
/// They are what `read_words` returned. If they couldn't be read, it writes the line that shows the reason to `faults`. `input`
/// is standard input. A file of messages is opened in `folder`, and a file of lines in `files`. The messages of lines go to
/// `writer`, and their faults to `faults`. All else goes to `sink`.
pub fn status_by<
    I: Read + Drop,
    F: Folder,
    R: Read + Drop,
    G: Folder<File = Counted<R>>,
    S: ByteWriter,
    W: Write + Drop,
    E: ByteWriter,
>(
    alloc: Global,
    words: Result<Vec<String>, RunError>,
    input: I,
    folder: &mut F,
    files: &mut G,
    sink: &mut S,
    writer: W,
    faults: &mut E,
) -> u8
    ensures { ByWords words (λ v. Answers F.is_file F.File.account F.missed folder.old folder.new I.remaining input W.contents writer
        E.account faults.old faults.new S.account sink.old sink.new result Global
        (WritesFile G.is_file R.remaining G.missed files.old files.new W.contents writer E.account faults.old faults.new result Global)
        (files.new ≡ files.old) (map string_bytes v.items))
        ((folder.new ≡ folder.old) × (files.new ≡ files.old) × (sink.new ≡ sink.old))
        (E.account faults.old) (E.account faults.new) result }
{
    match words {
        Ok(words) => answer(alloc, &words, input, folder, files, sink, writer, faults),
        Err(error) => tell_fault(faults, error),
    }
}
