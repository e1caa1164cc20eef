//! The report on a file of records.
ghost use Rattle.std.specs.Prelude.{◌≡◌, ◌⊎◌, IfErr, IfOk, Err, length, string_bytes};
ghost use Rattle.nom_io.specs.Account.{one_more};
ghost use Rattle.nom_internal.specs.Prelude.{bytes_model};
ghost use Rattle.nom_internal.specs.Promises.{HasNoFailure};
ghost use Rattle.nom_calls.specs.Growing.{IsGrown};
ghost use Rattle.nom_records_run.specs.Report.{IsReport, record_grammar, record_text, records_of};
ghost use Rattle.nom_run.specs.Runs.{CanGrow, CutAbove, Falls, MatchRunError, NoneAbove, Reported, Stopped};

use nom::bytes::tag;
use nom::error::Error;
use nom::multi::{length_data, many0};
use nom::number::be_u8;
use nom::sequence::{preceded, terminated};
use nom::{Grown, Items, parse_growing};
use nom_error::answer::OutOfMemory;
use nom_io::stream::{ByteWriter, Source};
use nom_run::error::RunError;
use nom_run::report::{Lines, Reporting, beginning_len, tell, write_built};
use nom_run::run::run as run_report;
use nom_run::text::add_bytes;
use std::alloc::Allocator;

// What the grammar answers on bytes that come in the parts that `cuts` make of them. It never fails.
fn grown_records<'a, A: Allocator + Copy>(
    alloc: A,
    bytes: &'a [u8],
    cuts: &[usize],
) -> Grown<&'a [u8], Vec<&'a [u8], A>, Error<&'a [u8]>>
    requires { NoneAbove cuts.now (length bytes.now) }
    ensures { IsGrown bytes_model (records_of {M = A}).IsOutput record_grammar bytes.entry cuts.now result.index result.result ×
        HasNoFailure bytes_model record_grammar }
{
    let record = preceded(
        tag::<_, _, Error<&[u8]>>(&b"R"[..]),
        length_data(be_u8::<_, Error<&[u8]>>()),
    );
    let records = terminated(many0(alloc, record), tag::<_, _, Error<&[u8]>>(&b"."[..]));
    parse_growing(records, bytes, cuts)
}

/// The report on a file of records.
pub struct Records;

impl<'a> Lines<&'a [u8]> for Records {
    ghost lines = { λ _ r. record_text r.now };

    fn add<A: Allocator + Copy>(
        &self,
        text: &mut String<A>,
        record: &&'a [u8],
    ) -> Result<(), OutOfMemory> {
        add_bytes(text, "record ", record)
    }
}

// The text of the report, and its status.
fn text_of<A: Allocator + Copy>(
    alloc: A,
    bytes: &[u8],
    cuts: &[usize],
) -> Result<(String<A>, u8), OutOfMemory>
    requires { NoneAbove cuts.now (length bytes.now) }
    ensures { IfOk result (λ r. IsReport bytes.now cuts.now (string_bytes r.0) r.1) }
{
    bytes.known();
    let grown = grown_records(alloc, bytes, cuts);
    let beginning = beginning_len(bytes.len(), cuts, grown.index);
    tell(alloc, &Records, grown.index, beginning, grown.result)
}

impl Reporting for Records {
    ghost is_report = { λ _. IsReport };

    fn write<A: Allocator + Copy, W: ByteWriter>(
        &self,
        alloc: A,
        bytes: &[u8],
        cuts: &[usize],
        sink: &mut W,
    ) -> Result<u8, RunError> {
        write_built(text_of(alloc, bytes, cuts), sink)
    }
}

/// Reads to the reader's end, writes the report on its records, and returns the status.
///
/// The bytes are given in parts divided at the cuts (offsets in bytes). A cut below the one before is `Usage`, before anything
/// is read. A cut above the length is `Usage`, after reading. Nothing was written then, nor after `Read` or `OutOfMemory`.
/// After `Write`, a beginning of the report was. No failed call is tried again.
pub fn run<A: Allocator + Copy, S: Source, W: ByteWriter>(
    alloc: A,
    reader: &mut S,
    cuts: &[usize],
    writer: &mut W,
) -> Result<u8, RunError>
    ensures falls { Falls cuts.now → (result ≡ Err RunError.Usage) × (reader.new ≡ reader.old) × (writer.new ≡ writer.old) }
    ensures status { IfOk result (λ status.
        Reported IsReport (S.account reader.old) (S.account reader.new) (W.account writer.old) (W.account writer.new) cuts.now status) }
    ensures error { IfErr result (λ e. MatchRunError e
        ((writer.new ≡ writer.old) × ((S.account reader.new).failures ≡ one_more (S.account reader.old).failures))
        (Stopped IsReport (S.account reader.old) (S.account reader.new) (W.account writer.old) (W.account writer.new) cuts.now)
        ((writer.new ≡ writer.old) × CanGrow (S.account reader.old) (S.account reader.new) cuts.now)
        ((writer.new ≡ writer.old)
        × (((reader.new ≡ reader.old) × Falls cuts.now) ⊎ CutAbove (S.account reader.old) (S.account reader.new) cuts.now))) }
{
    run_report(alloc, &Records, reader, cuts, writer)
}
