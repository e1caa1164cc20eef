//! The whole run: read, report, write.
ghost use Rattle.std.specs.Prelude.{◌≡◌, ◌++◌, ◌+◌, ◌<◌, ◌≤◌, ◌⊎◌, [], length, IfOk, IfErr, OnErr, Err, MatchBool, vec_capacity, vec_len};
ghost use Rattle.nom_io.specs.Account.{one_more};
ghost use Rattle.nom_run.specs.Pieces.{Puts};
ghost use Rattle.nom_run.specs.Runs.{CanGrow, CutAbove, Falls, MatchRunError, NeverFalls, NoneAbove, SomeAbove, ReadSome, ReadWhole, Reported, Stopped};

use crate::error::RunError;
use crate::report::Reporting;
use nom_error::answer::OutOfMemory;
use nom_io::stream::{ByteWriter, Source};
use std::alloc::Allocator;

// Whether no cut is below the one before.
fn never_fall(cuts: &[usize]) -> bool
    ensures { MatchBool result (NeverFalls cuts.now) (Falls cuts.now) }
{
    cuts.is_sorted()
}

// Whether no cut is above `end`.
fn none_above(cuts: &[usize], end: usize) -> bool
    ensures { MatchBool result (NoneAbove cuts.now end) (SomeAbove cuts.now end) }
{
    for cut in cuts {
        if *cut > end {
            return false;
        }
    }
    true
}

// Adds more bytes. Memory runs out only if there is no room for them.
fn keep<A: Allocator>(bytes: &mut Vec<u8, A>, more: &[u8]) -> Result<(), OutOfMemory>
    ensures kept { IfOk result (λ _. bytes.new.items ≡ bytes.old.items ++ more.now) }
    ensures room { vec_capacity bytes.old ≤ vec_capacity bytes.new }
    ensures lacks { OnErr result (vec_capacity bytes.old < vec_len bytes.old + length more.now) }
{
    bytes.extend_from_slice(more)?;
    Ok(())
}

// Reads what is left, onto `bytes`. Memory runs out only if there is no room for all that was read.
fn read_all<A: Allocator, S: Source>(source: &mut S, bytes: &mut Vec<u8, A>) -> Result<(), RunError>
    requires { bytes.old.items ≡ [] }
    ensures whole { IfOk result (λ _. ReadWhole (S.account source.old) (S.account source.new) bytes.new.items) }
    ensures error { IfErr result (λ e. MatchRunError e ((S.account source.new).failures ≡ one_more (S.account source.old).failures) ⊥
        ((some : ReadSome (S.account source.old) (S.account source.new)) × (vec_capacity bytes.old < length some.bytes)) ⊥) }
{
    let mut room = [0u8; 256];
    for _turn in 0..u64::MAX {
        match source.read(&mut room) {
            Ok(count) => {
                if count == 0 {
                    return Ok(());
                }
                match keep(bytes, &room[..count]) {
                    Ok(()) => {}
                    Err(_) => return Err(RunError::OutOfMemory),
                }
            }
            Err(_) => return Err(RunError::Read),
        }
    }
    unreachable!()
}

/// Writes the text, in as many calls as it takes.
///
/// A failed call is not tried again, and a write that takes no byte is a failure. Both are `Write`.
pub fn write_all<W: ByteWriter>(sink: &mut W, text: &[u8]) -> Result<(), RunError>
    ensures none { text.now ≡ [] → sink.new ≡ sink.old }
    ensures puts { Puts (W.account sink.old) (W.account sink.new) [] text.now [] result }
{
    let mut at = 0;
    while at < text.len() {
        match sink.write(&text[at..]) {
            Ok(count) => {
                if count == 0 {
                    return Err(RunError::Write);
                }
                at += count;
            }
            Err(_) => return Err(RunError::Write),
        }
    }
    Ok(())
}

/// Reads the source to its end, writes the report on its bytes, and returns the status.
///
/// The bytes are given in parts divided at the cuts (offsets in bytes). A cut below the one before is
/// `Usage`, before anything is read. A cut above the length is `Usage`, after reading.
///
/// A failed call is not tried again, and a write that takes no byte is a failure. All memory of the report is
/// taken before its first byte is written. `OutOfMemory` is answered only if something could grow. Either
/// some bytes were read, or the source came to its end and there is a report to build.
pub fn run<A: Allocator + Copy, R: Reporting, S: Source, W: ByteWriter>(
    alloc: A,
    report: &R,
    source: &mut S,
    cuts: &[usize],
    sink: &mut W,
) -> Result<u8, RunError>
    ensures falls { Falls cuts.now → (result ≡ Err RunError.Usage) × (source.new ≡ source.old) × (sink.new ≡ sink.old) }
    ensures status { IfOk result (λ status.
        Reported (R.is_report report.now) (S.account source.old) (S.account source.new) (W.account sink.old) (W.account sink.new) cuts.now status) }
    ensures error { IfErr result (λ e. MatchRunError e
        ((sink.new ≡ sink.old) × ((S.account source.new).failures ≡ one_more (S.account source.old).failures))
        (Stopped (R.is_report report.now) (S.account source.old) (S.account source.new) (W.account sink.old) (W.account sink.new) cuts.now)
        ((sink.new ≡ sink.old) × CanGrow (S.account source.old) (S.account source.new) cuts.now)
        ((sink.new ≡ sink.old)
        × (((source.new ≡ source.old) × Falls cuts.now) ⊎ CutAbove (S.account source.old) (S.account source.new) cuts.now))) }
{
    if !never_fall(cuts) {
        return Err(RunError::Usage);
    }
    let mut bytes = Vec::new(alloc);
    read_all(source, &mut bytes)?;
    if !none_above(cuts, bytes.len()) {
        return Err(RunError::Usage);
    }
    match report.write(alloc, &bytes, cuts, sink) {
        Ok(status) => Ok(status),
        Err(error) => Err(error),
    }
}
