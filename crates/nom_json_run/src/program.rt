//! The program `nom_json`: what the words of its command line ask for, and what it does for them.
//!
//! `nom_json FILE`: whether a file is one JSON text, and the place of its fault if it isn't.
//!
//! `nom_json --lines FILE`: the same for each line of the file. `-` in place of a file is standard input.
ghost use Rattle.std.specs.Prelude.{◌≡◌, IfErr, IfOk, map, string_bytes};
ghost use Rattle.nom_run.specs.Reporting.{ByWords};
ghost use Rattle.nom_json_run.specs.Asked.{Answers, Asks, AsksNothing, ChecksFile, ChecksLines, ChecksText, Performs};

use crate::lines::tell_lines;
use crate::report::Checked;
use nom_io::counted::Counted;
use nom_io::stream::ByteWriter;
use nom_run::error::RunError;
use nom_run::folder::{Folder, open_reader};
use nom_run::program::{status_after, status_for, status_on, tell_fault};
use nom_run::words::{is_word, word_at};
use nom_stream::settings::Settings;
use nom_stream::stream::Stream;
use std::alloc::{Allocator, Global};
use std::io::Read;

// How lines are read: none may be longer than 16 MiB, with its end.
const SETTINGS: Settings = Settings {
    read: 65536,
    most: 16777216,
    patient: true,
    complete: true,
};

/// What the words of a command line ask for.
#[derive(Clone, Copy)]
pub enum Task<'a> {
    /// Whether a file is one JSON text.
    Text(&'a str),
    /// Whether standard input is one.
    Input,
    /// Whether each line of a file is one.
    Lines(&'a str),
    /// Whether each line of standard input is one.
    InputLines,
}

/// Returns what words ask for, the first of which is the program's name.
///
/// The answer is `Usage` if they ask for nothing that the program does.
pub fn task_of(words: &[String]) -> Result<Task<'_>, RunError>
    ensures task { IfOk result (Asks (map string_bytes words.now)) }
    ensures wrong { IfErr result (λ e. (e ≡ RunError.Usage) × AsksNothing (map string_bytes words.now)) }
{
    if words.len() == 2 {
        if is_word(words, 1, "-") {
            return Ok(Task::Input);
        }
        if is_word(words, 1, "--lines") {
            return Err(RunError::Usage);
        }
        return Ok(Task::Text(word_at(words, 1)));
    }
    if words.len() == 3 {
        if !is_word(words, 1, "--lines") {
            return Err(RunError::Usage);
        }
        if is_word(words, 2, "-") {
            return Ok(Task::InputLines);
        }
        return Ok(Task::Lines(word_at(words, 2)));
    }
    Err(RunError::Usage)
}

// The report on what a reader gives, and the status.
fn check_input<A: Allocator + Copy, R: Read + Drop, W: ByteWriter>(
    alloc: A,
    input: R,
    sink: &mut W,
) -> u8
    ensures { ChecksText R.remaining W.account input sink.old sink.new result }
{
    let mut source = Counted::new(input);
    let report = Checked {
        name: "standard input",
    };
    status_on(alloc, &report, &mut source, &[], sink)
}

// What is told of the lines of a reader, and the status.
fn check_lines<A: Allocator + Copy, R: Read + Drop, W: ByteWriter>(
    alloc: A,
    reader: R,
    sink: &mut W,
) -> u8
    ensures { ChecksLines R.remaining W.account reader sink.old sink.new result A }
{
    let mut stream = Stream::new(alloc, reader, SETTINGS);
    let answer = tell_lines(alloc, &mut stream, sink);
    status_after(sink, answer)
}

// The same of the lines of a file.
fn check_file<A: Allocator + Copy, R: Read + Drop, G: Folder<File = Counted<R>>, W: ByteWriter>(
    alloc: A,
    file: &str,
    files: &mut G,
    sink: &mut W,
) -> u8
    ensures { ChecksFile G.is_file R.remaining G.missed files.old files.new W.account sink.old sink.new result A file.now }
{
    match open_reader(files, file) {
        Ok(reader) => check_lines(alloc, reader, sink),
        Err(error) => tell_fault(sink, error),
    }
}

// What is done for a task, and the status.
fn perform<
    A: Allocator + Copy,
    I: Read + Drop,
    F: Folder,
    R: Read + Drop,
    G: Folder<File = Counted<R>>,
    W: ByteWriter,
>(
    alloc: A,
    task: Task<'_>,
    words: &[String],
    input: I,
    folder: &mut F,
    files: &mut G,
    sink: &mut W,
) -> u8
    ensures { Performs F.is_file F.File.account F.missed folder.old folder.new I.remaining input W.account sink.old sink.new result A
        (ChecksFile G.is_file R.remaining G.missed files.old files.new W.account sink.old sink.new result A) (files.new ≡ files.old)
        (map string_bytes words.now) task.entry }
{
    match task {
        Task::Text(file) => status_for(alloc, words, &Checked { name: file }, folder, sink),
        Task::Input => check_input(alloc, input, sink),
        Task::Lines(file) => check_file(alloc, file, files, sink),
        Task::InputLines => check_lines(alloc, input, sink),
    }
}

// The same for words.
fn answer<
    A: Allocator + Copy,
    I: Read + Drop,
    F: Folder,
    R: Read + Drop,
    G: Folder<File = Counted<R>>,
    W: ByteWriter,
>(alloc: A, words: &[String], input: I, folder: &mut F, files: &mut G, sink: &mut W) -> u8
    ensures { Answers F.is_file F.File.account F.missed folder.old folder.new I.remaining input W.account sink.old sink.new result A
        (ChecksFile G.is_file R.remaining G.missed files.old files.new W.account sink.old sink.new result A) (files.new ≡ files.old)
        (map string_bytes words.now) }
{
    match task_of(words) {
        Ok(task) => perform(alloc, task, words, input, folder, files, sink),
        Err(error) => tell_fault(sink, error),
    }
}

/// Does what the words of a command line ask for, and returns the status.
///
/// They are what `read_words` returned. If they couldn't be read, it writes the line that shows the reason. `input` is standard
/// input. A file is opened in `folder`, and a file of lines in `files`, whose files are readers of std.
pub fn status_by<
    I: Read + Drop,
    F: Folder,
    R: Read + Drop,
    G: Folder<File = Counted<R>>,
    W: ByteWriter,
>(
    alloc: Global,
    words: Result<Vec<String>, RunError>,
    input: I,
    folder: &mut F,
    files: &mut G,
    sink: &mut W,
) -> u8
    ensures { ByWords words (λ v. Answers F.is_file F.File.account F.missed folder.old folder.new I.remaining input W.account sink.old sink.new result Global
        (ChecksFile G.is_file R.remaining G.missed files.old files.new W.account sink.old sink.new result Global) (files.new ≡ files.old)
        (map string_bytes v.items)) ((folder.new ≡ folder.old) × (files.new ≡ files.old)) (W.account sink.old) (W.account sink.new) result }
{
    match words {
        Ok(words) => answer(alloc, &words, input, folder, files, sink),
        Err(error) => tell_fault(sink, error),
    }
}
