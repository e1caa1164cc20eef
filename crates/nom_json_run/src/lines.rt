//! JSON Lines: a JSON text in each line, from a reader of any length.
ghost use Rattle.std.specs.Prelude.{◌≡◌, ◌++◌, ◌≤◌, ◌<◌, ◌^◌, ◌==◌, ◌⊎◌, ⊤, Option, if◌then◌else◌, Err, IfOk, count_by, length, string_bytes};
ghost use Rattle.std.specs.List.{before_first};
ghost use Rattle.nom_located.specs.Lines.{begins_character};
ghost use Rattle.nom_run.specs.Runs.{WritesText};
ghost use Rattle.nom_json_run.specs.JsonLines.{IsLine, StopsAtRead, ListsLines, fault_line, long_line};

use crate::report::fault_report;
use nom_error::answer::OutOfMemory;
use nom_io::stream::ByteWriter;
use nom_run::error::RunError;
use nom_run::run::write_all;
use nom_stream::lines::Lines;
use nom_stream::stream::{Stop, Stream};
use std::alloc::Allocator;
use std::fmt::Write;
use std::io::Read;

// The text for a line.
fn line_text<A: Allocator + Copy>(
    alloc: A,
    number: u64,
    column: usize,
    message: &str,
) -> Result<String<A>, OutOfMemory>
    ensures { IfOk result (λ t. string_bytes t ≡ fault_line number column message.now) }
{
    let mut text = String::new(alloc);
    write!(text, "{number}:{column}: {message}\n")?;
    Ok(text)
}

// The first line of a report.
fn first_line(report: &str) -> &str
    ensures { result.now ≡ before_first (λ b. b == 10) report.now }
{
    match report.split_once('\n') {
        Some((first, _)) => first,
        None => report,
    }
}

// How many characters begin in bytes of UTF-8.
fn characters(bytes: &[u8]) -> usize
    ensures count { result ≡ count_by begins_character bytes.now }
    ensures few { result ≤ length bytes.now }
{
    bytes.iter().filter(|b| **b < 128 || 192 <= **b).count()
}

// What is told of a line, and whether a line was wrong, before or now. So many bytes stand before the end of the line, which is
// white space: what is missing is missing before it. Columns count characters, from 1 on.
fn told<A: Allocator + Copy>(
    alloc: A,
    number: u64,
    inside: usize,
    line: &[u8],
    wrong: bool,
) -> Result<(String<A>, bool), OutOfMemory>
    ensures { IfOk result (λ r. IsLine number inside line.now (string_bytes r.0) wrong r.1) }
{
    match fault_report(alloc, "", line, inside) {
        Ok(None) => Ok((String::new(alloc), wrong)),
        Ok(Some((report, at))) => {
            let column = 1 + characters(&line[..at]);
            let text = line_text(alloc, number, column, first_line(report.as_str()))?;
            Ok((text, true))
        }
        Err(error) => Err(error),
    }
}

// Writes what is told of a line, and answers whether a line was wrong, before or now.
fn list<A: Allocator + Copy, W: ByteWriter>(
    alloc: A,
    sink: &mut W,
    number: u64,
    inside: usize,
    line: &[u8],
    wrong: bool,
) -> Result<bool, RunError>
    ensures { WritesText (λ text then_. IsLine number inside line.now text wrong then_) (W.account sink.old) (W.account sink.new)
        (sink.new ≡ sink.old) result }
{
    let (text, next) = match told(alloc, number, inside, line, wrong) {
        Ok(found) => found,
        Err(_) => return Err(RunError::OutOfMemory),
    };
    match write_all(sink, text.as_bytes()) {
        Ok(()) => Ok(next),
        Err(error) => Err(error),
    }
}

// WritesText that a line is longer than may be held.
fn tell_too_long<A: Allocator + Copy, W: ByteWriter>(
    alloc: A,
    sink: &mut W,
    number: u64,
) -> Result<u8, RunError>
    ensures { WritesText (λ text status. (text ≡ long_line number) × (status ≡ 3)) (W.account sink.old) (W.account sink.new)
        (sink.new ≡ sink.old) result }
{
    let text = match line_text(
        alloc,
        number,
        1,
        "error: the line is longer than may be held",
    ) {
        Ok(text) => text,
        Err(_) => return Err(RunError::OutOfMemory),
    };
    match write_all(sink, text.as_bytes()) {
        Ok(()) => Ok(3),
        Err(error) => Err(error),
    }
}

// What is told where no line comes, and the status.
fn stopped<A: Allocator + Copy, W: ByteWriter>(
    alloc: A,
    sink: &mut W,
    number: u64,
    why: Stop,
) -> Result<u8, RunError>
    ensures { ((why ≡ Stop.TooLong) × WritesText (λ text status. (text ≡ long_line number) × (status ≡ 3)) (W.account sink.old) (W.account sink.new)
        (sink.new ≡ sink.old) result)
        ⊎ ((why ≡ Stop.OutOfMemory) × (sink.new ≡ sink.old) × (result ≡ Err RunError.OutOfMemory))
        ⊎ (StopsAtRead why × (sink.new ≡ sink.old) × (result ≡ Err RunError.Read)) }
{
    match why {
        Stop::TooLong => tell_too_long(alloc, sink, number),
        Stop::OutOfMemory => Err(RunError::OutOfMemory),
        Stop::Refused(_, _) => Err(RunError::Read),
        Stop::Failed(_, _) => Err(RunError::Read),
        Stop::Nothing => Err(RunError::Read),
        Stop::Incomplete(_) => Err(RunError::Read),
        Stop::Fault(_) => Err(RunError::Read),
    }
}

fn status_of(wrong: bool) -> u8
    ensures { result ≡ (if wrong then 1 else 0) }
{
    if wrong { 1 } else { 0 }
}

/// Writes a line for each line of a stream that is no JSON text in UTF-8, with its number, and returns the
/// status.
///
/// The status is 1 if there is such a line, and 0 otherwise. A line longer than the stream may hold is
/// reported and ends the run, with status 3.
///
/// The data may end with the end of a line or without it. An empty line is no JSON text.
///
/// Without a status, what was written is a beginning of what is told of the lines so far. The answer is
/// `Write` if a write failed, which isn't tried again, and `OutOfMemory` if memory ran out for the next line.
/// It is `Read` if a read failed, if the data of a stream that isn't `complete` end within a line, and after
/// 2^64 - 1 lines.
pub fn tell_lines<R: Read, A: Allocator + Copy, W: ByteWriter>(
    alloc: A,
    stream: &mut Stream<R, A>,
    sink: &mut W,
) -> Result<u8, RunError>
    ensures { ListsLines R.remaining stream.old stream.new (W.account sink.old) (W.account sink.new) result }
{
    let mut grammar = Lines;
    let mut wrong = false;
    for turn in 0..u64::MAX {
        match stream.next_item(&mut grammar) {
            Ok(Some((used, inside))) => {
                match list(alloc, sink, turn + 1, inside, stream.last(used), wrong) {
                    Ok(next) => wrong = next,
                    Err(error) => return Err(error),
                }
            }
            Ok(None) => return Ok(status_of(wrong)),
            Err(why) => return stopped(alloc, sink, turn + 1, why),
        }
    }
    Err(RunError::Read)
}
