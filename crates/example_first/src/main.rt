//! `example_first FILE [CUT ..]`: the smallest grammar, an `R` and four bytes. The file comes in parts divided at the cuts (offsets in
//! bytes).
#![tactic(auto)]

ghost use Rattle.std.specs.Prelude.{◌≡◌, ◌++◌, IfOk, length, string_bytes};
ghost use Rattle.nom_run.specs.Report.{IsAnswerReport};
ghost use Rattle.nom_run.specs.Runs.{NoneAbove};
ghost use Rattle.nom_run.specs.Texts.{decided_text, rest_text};
ghost use Rattle.example_first.specs.First.{IsReport, record_text};

use nom::bytes::{tag, take};
use nom::error::Error;
use nom::{Err, IResult, Items, OutOfMemory, Parser, parse_growing};
use nom_io::counted::Counted;
use nom_io::stream::ByteWriter;
use nom_run::error::RunError;
use nom_run::folder::Disk;
use nom_run::program::{read_words, status_by};
use nom_run::report::{Reporting, beginning_len, write_built};
use nom_run::text::{add_bytes, add_decided, add_error, add_failure, add_need, add_rest};
use std::alloc::Allocator;
use std::io;
use std::process::ExitCode;

// Adds the lines for a record that was accepted.
fn add_record<A: Allocator + Copy>(
    text: &mut String<A>,
    index: usize,
    record: &[u8],
    rest: usize,
) -> Result<(), OutOfMemory>
    ensures { IfOk result (λ _. string_bytes text.new ≡ string_bytes text.old ++ (decided_text index ++ record_text record.now ++ rest_text rest)) }
{
    add_decided(text, index)?;
    add_bytes(text, "record ", record)?;
    add_rest(text, rest)
}

// The text and the status for an answer on a beginning of a length.
fn tell<A: Allocator + Copy>(
    alloc: A,
    index: usize,
    beginning: usize,
    answer: IResult<&[u8], (&[u8], &[u8])>,
) -> Result<(String<A>, u8), OutOfMemory>
    ensures { IfOk result (λ r. IsAnswerReport (λ o. record_text o.1.now) index beginning answer.entry (string_bytes r.0) r.1) }
{
    let mut text = String::new(alloc);
    match answer {
        Ok((rest, (_, record))) => {
            add_record(&mut text, index, record, rest.len())?;
            Ok((text, 0))
        }
        Err(Err::Incomplete(needed)) => {
            add_need(&mut text, needed)?;
            Ok((text, 2))
        }
        Err(Err::Error(error)) => {
            let offset = beginning.saturating_sub(error.input.len());
            add_error(&mut text, error.code, offset)?;
            Ok((text, 1))
        }
        Err(Err::Failure(error)) => {
            let offset = beginning.saturating_sub(error.input.len());
            add_failure(&mut text, error.code, offset)?;
            Ok((text, 1))
        }
        Err(Err::OutOfMemory) => Err(OutOfMemory),
    }
}

// The text of the report, and its status.
fn text_of<A: Allocator + Copy>(
    alloc: A,
    bytes: &[u8],
    cuts: &[usize],
) -> Result<(String<A>, u8), OutOfMemory>
    requires { NoneAbove cuts.now (length bytes.now) }
    ensures { IfOk result (λ r. IsReport bytes.now cuts.now (string_bytes r.0) r.1) }
{
    bytes.known();
    let record = tag::<_, _, Error<&[u8]>>(&b"R"[..]).and(take(4usize));
    let grown = parse_growing(record, bytes, cuts);
    let beginning = beginning_len(bytes.len(), cuts, grown.index);
    tell(alloc, grown.index, beginning, grown.result)
}

/// The report on a record.
struct Record;

impl Reporting for Record {
    ghost is_report = { λ _. IsReport };

    fn write<A: Allocator + Copy, W: ByteWriter>(
        &self,
        alloc: A,
        bytes: &[u8],
        cuts: &[usize],
        sink: &mut W,
    ) -> Result<u8, RunError> {
        write_built(text_of(alloc, bytes, cuts), sink)
    }
}

fn main(rt: HostRuntime) -> ExitCode {
    let words = read_words(&rt);
    let mut sink = Counted::new(io::writer(&rt));
    let status = status_by(rt.alloc(), words, &Record, &mut Disk::new(&rt), &mut sink);
    ExitCode::from(status)
}
