//! Reports on bytes, and their common parts.
ghost use Rattle.std.specs.Prelude.{◌≡◌, ◌++◌, ℕ, ◌<◌, ◌≤◌, List, IfOk, length, slice_index, string_bytes};
ghost use Rattle.nom_run.specs.Report.{IsBuilt, IsAnswerReport, IsStopReport};
ghost use Rattle.nom_run.specs.Runs.{NoneAbove, WritesText};
ghost use Rattle.nom_run.specs.Texts.{decided_text, lines_text, rest_text};

use crate::error::RunError;
use crate::run::write_all;
use crate::text::{add_decided, add_error, add_failure, add_need, add_rest};
use nom_error::answer::{Err, IResult, OutOfMemory};
use nom_error::value::Error;
use nom_io::stream::ByteWriter;
use std::alloc::Allocator;

/// A report of a program on the bytes of a file.
pub trait Reporting {
    // Whether a text and a status are the report on bytes, given in the parts that cuts make of them.
    ghost is_report: { Self → List ℕ → List ℕ → List ℕ → ℕ → Type 0 };

    /// Writes the text of the report on `bytes`, and returns the status.
    ///
    /// The bytes are given in parts divided at `cuts` (offsets in bytes). If memory runs out, nothing was
    /// written. A failed write is not tried again.
    fn write<A: Allocator + Copy, W: ByteWriter>(
        &self,
        alloc: A,
        bytes: &[u8],
        cuts: &[usize],
        sink: &mut W,
    ) -> Result<u8, RunError>
        requires { NoneAbove cuts.now (length bytes.now) }
        ensures { WritesText (is_report self.now bytes.now cuts.now) (W.account sink.old) (W.account sink.new) (sink.new ≡ sink.old) result };
}

/// Writes a text that was built whole, and returns its status.
pub fn write_built<A: Allocator, W: ByteWriter>(
    built: Result<(String<A>, u8), OutOfMemory>,
    sink: &mut W,
) -> Result<u8, RunError>
    ensures { WritesText (IsBuilt built) (W.account sink.old) (W.account sink.new) (sink.new ≡ sink.old) result }
{
    let answer = match built {
        Ok(answer) => answer,
        Err(_) => return Err(RunError::OutOfMemory),
    };
    let (text, status) = answer;
    match write_all(sink, text.as_bytes()) {
        Ok(()) => Ok(status),
        Err(error) => Err(error),
    }
}

/// The lines that a report has for an item of a grammar.
pub trait Lines<T> {
    ghost lines: { Self → T → List ℕ };

    /// Adds the lines of an item to a text.
    fn add<A: Allocator + Copy>(&self, text: &mut String<A>, item: &T) -> Result<(), OutOfMemory>
        ensures { IfOk result (λ _. string_bytes text.new ≡ string_bytes text.old ++ lines self.now item.now) };
}

/// Adds the lines of items, in their order.
pub fn add_lines<A: Allocator + Copy, T, L: Lines<T>>(
    text: &mut String<A>,
    report: &L,
    items: &[T],
) -> Result<(), OutOfMemory>
    ensures { IfOk result (λ _. string_bytes text.new ≡ string_bytes text.old ++ lines_text (L.lines report.now) items.now) }
{
    for item in items {
        report.add(text, item)?;
    }
    Ok(())
}

// Adds the lines for an acceptance.
fn add_accepted<A: Allocator + Copy, T, L: Lines<T>>(
    text: &mut String<A>,
    report: &L,
    index: usize,
    items: &[T],
    rest: usize,
) -> Result<(), OutOfMemory>
    ensures { IfOk result (λ _. string_bytes text.new ≡ string_bytes text.old ++
        (decided_text index ++ lines_text (L.lines report.now) items.now ++ rest_text rest)) }
{
    add_decided(text, index)?;
    add_lines(text, report, items)?;
    add_rest(text, rest)
}

/// Returns the text and the status for an answer on a beginning of length `beginning`, at the cut of `index`.
pub fn tell<'a, A: Allocator + Copy, T: Drop, L: Lines<T>>(
    alloc: A,
    report: &L,
    index: usize,
    beginning: usize,
    answer: IResult<&'a [u8], Vec<T, A>>,
) -> Result<(String<A>, u8), OutOfMemory>
    ensures { IfOk result (λ r. IsAnswerReport (λ v. lines_text (L.lines report.now) v.items) index beginning answer.entry (string_bytes r.0) r.1) }
{
    match answer {
        Ok((rest, items)) => {
            let mut text = String::new(alloc);
            add_accepted(&mut text, report, index, &items, rest.len())?;
            Ok((text, 0))
        }
        Err(stop) => tell_stop(alloc, beginning, stop),
    }
}

/// Returns the length of the beginning at the cut of an index. The number of cuts means the whole.
pub fn beginning_len(whole: usize, cuts: &[usize], index: usize) -> usize
    ensures at_cut { index < length cuts.now → result ≡ slice_index cuts.now index }
    ensures at_end { length cuts.now ≤ index → result ≡ whole }
{
    if index < cuts.len() {
        cuts[index]
    } else {
        whole
    }
}

// The text and the status where a beginning of a length isn't accepted.
fn tell_stop<A: Allocator + Copy>(
    alloc: A,
    beginning: usize,
    stop: Err<Error<&[u8]>>,
) -> Result<(String<A>, u8), OutOfMemory>
    ensures { IfOk result (λ r. IsStopReport beginning stop.entry (string_bytes r.0) r.1) }
{
    let mut text = String::new(alloc);
    match stop {
        Err::Incomplete(needed) => {
            add_need(&mut text, needed)?;
            Ok((text, 2))
        }
        Err::Error(error) => {
            let offset = beginning.saturating_sub(error.input.len());
            add_error(&mut text, error.code, offset)?;
            Ok((text, 1))
        }
        Err::Failure(error) => {
            let offset = beginning.saturating_sub(error.input.len());
            add_failure(&mut text, error.code, offset)?;
            Ok((text, 1))
        }
        Err::OutOfMemory => Err(OutOfMemory),
    }
}
