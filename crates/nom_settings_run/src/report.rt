//! The report on a file of settings.
ghost use Rattle.std.specs.Prelude.{◌≡◌, ◌++◌, ◌≤◌, [], IfOk, decimal, false, is_ok, length, string_bytes, take};
ghost use Rattle.nom_run.specs.Pieces.{HasRoom, Puts};
ghost use Rattle.nom_run.specs.Runs.{WritesText};
ghost use Rattle.nom_settings_run.specs.Report.{IsReport, IsSettingsReport, IsBytesReport, IsStopLine, entry_text, refusal_text, entry_line};
ghost use Rattle.nom_settings_run.specs.Report.{section_text, sections_text, setting_text};

use crate::settings::{Section, settings};
use itoa::Buffer;
use nom_error::answer::{Err, IResult, OutOfMemory};
use nom_error::kind::ErrorKind;
use nom_error::value::Error;
use nom_io::stream::ByteWriter;
use nom_located::Located;
use nom_located::promises::stands_after;
use nom_run::error::RunError;
use nom_run::pieces::{InPieces, flush, make_room, put_each, put_texts};
use nom_run::report::{Reporting, write_built};
use nom_traits::input::{Input, Items};
use std::alloc::Allocator;
use std::fmt::Write;
use std::str;

/// A text that knows its line and column.
pub type Text<'a> = Located<&'a str>;

// Adds a number, and a text after it.
fn put_number<A: Allocator, W: ByteWriter>(
    sink: &mut W,
    room: &mut Vec<u8, A>,
    number: usize,
    after: &str,
) -> Result<(), RunError>
    requires { HasRoom room.old }
    ensures room { HasRoom room.new }
    ensures puts { Puts (W.account sink.old) (W.account sink.new) room.old.items (decimal number ++ after.now) room.new.items result }
{
    let mut digits = Buffer::new();
    put_texts(sink, room, &[digits.format(number), after])
}

// Adds the names of the section and of the setting, and the value.
fn put_entry<A: Allocator, W: ByteWriter>(
    sink: &mut W,
    room: &mut Vec<u8, A>,
    section: &str,
    name: &str,
    value: &str,
) -> Result<(), RunError>
    requires { HasRoom room.old }
    ensures room { HasRoom room.new }
    ensures puts { Puts (W.account sink.old) (W.account sink.new) room.old.items (entry_text section.now name.now value.now) room.new.items result }
{
    put_texts(sink, room, &[section, "] ", name, "=", value, "\n"])
}

// Adds a line, by the parts of it.
fn put_line<A: Allocator, W: ByteWriter>(
    sink: &mut W,
    room: &mut Vec<u8, A>,
    line: usize,
    column: usize,
    section: &str,
    name: &str,
    value: &str,
) -> Result<(), RunError>
    requires { HasRoom room.old }
    ensures room { HasRoom room.new }
    ensures puts { Puts (W.account sink.old) (W.account sink.new) room.old.items (entry_line line column section.now name.now value.now)
        room.new.items result }
{
    match put_number(sink, room, line, ":") {
        Ok(()) => {}
        Err(error) => return Err(error),
    }
    match put_number(sink, room, column, " [") {
        Ok(()) => {}
        Err(error) => return Err(error),
    }
    put_entry(sink, room, section, name, value)
}

// Adds the line of a setting.
fn put_setting<'a, A: Allocator, W: ByteWriter>(
    sink: &mut W,
    room: &mut Vec<u8, A>,
    section: Text<'a>,
    setting: (Text<'a>, Text<'a>),
) -> Result<(), RunError>
    requires { HasRoom room.old }
    ensures room { HasRoom room.new }
    ensures puts { Puts (W.account sink.old) (W.account sink.new) room.old.items (setting_text section.entry setting.entry) room.new.items result }
{
    let (name, value) = setting;
    let title = section.fragment();
    let key = name.fragment();
    let held = value.fragment();
    put_line(sink, room, name.line(), name.column(), title, key, held)
}

// The settings of a section, which is named in the line of each.
#[derive(Drop)]
struct Under<'a> {
    section: Text<'a>,
}

impl<'a> InPieces<(Text<'a>, Text<'a>)> for Under<'a> {
    ghost lines = { λ s o. setting_text s.section o };

    fn put<A: Allocator, W: ByteWriter>(
        &self,
        sink: &mut W,
        room: &mut Vec<u8, A>,
        setting: &(Text<'a>, Text<'a>),
    ) -> Result<(), RunError> {
        put_setting(sink, room, self.section, *setting)
    }
}

impl<'a, B: Allocator + Copy> InPieces<Section<Text<'a>, B>> for Settings {
    ghost lines = { λ _ o. section_text o.0 o.1.items };

    fn put<A: Allocator, W: ByteWriter>(
        &self,
        sink: &mut W,
        room: &mut Vec<u8, A>,
        found: &Section<Text<'a>, B>,
    ) -> Result<(), RunError> {
        put_each(sink, room, &Under { section: found.0 }, &found.1)
    }
}

// Writes the lines of sections, with room for them that was made. Memory runs out only if none could be.
fn write_sections<'a, A: Allocator + Copy, W: ByteWriter>(
    made: Result<Vec<u8, A>, OutOfMemory>,
    found: &[Section<Text<'a>, A>],
    sink: &mut W,
) -> Result<u8, RunError>
    requires { IfOk made (λ room. HasRoom room × (room.items ≡ [])) }
    ensures { WritesText (λ text status. (text ≡ sections_text found.now) × (status ≡ 0)) (W.account sink.old) (W.account sink.new)
        ((sink.new ≡ sink.old) × (is_ok made ≡ false)) result }
{
    let mut room = match made {
        Ok(room) => room,
        Err(_) => return Err(RunError::OutOfMemory),
    };
    match put_each(sink, &mut room, &Settings, found) {
        Ok(()) => {}
        Err(error) => return Err(error),
    }
    match flush(sink, &mut room) {
        Ok(()) => Ok(0),
        Err(error) => Err(error),
    }
}

// Adds the line of a fault: where it stands, and its kind.
fn add_fault<A: Allocator + Copy>(
    text: &mut String<A>,
    line: usize,
    column: usize,
    kind: ErrorKind,
) -> Result<(), OutOfMemory>
    ensures { IfOk result (λ _. string_bytes text.new ≡ string_bytes text.old ++ refusal_text line column kind) }
{
    let name = kind.description();
    write!(text, "{line}:{column}: {name}\n")?;
    Ok(())
}

// The text and the status of a fault.
fn tell_fault<A: Allocator + Copy>(
    alloc: A,
    line: usize,
    column: usize,
    kind: ErrorKind,
) -> Result<(String<A>, u8), OutOfMemory>
    ensures { IfOk result (λ r. (string_bytes r.0 ≡ refusal_text line column kind) × (r.1 ≡ 1)) }
{
    let mut text = String::new(alloc);
    add_fault(&mut text, line, column, kind)?;
    Ok((text, 1))
}

// The text and the status where a text isn't accepted.
fn tell_stop<'a, A: Allocator + Copy>(
    alloc: A,
    stop: Err<Error<Text<'a>>>,
) -> Result<(String<A>, u8), OutOfMemory>
    ensures { IfOk result (λ r. IsStopLine stop.entry (string_bytes r.0) r.1) }
{
    match stop {
        Err::Error(error) => {
            tell_fault(alloc, error.input.line(), error.input.column(), error.code)
        }
        Err::Failure(error) => {
            tell_fault(alloc, error.input.line(), error.input.column(), error.code)
        }
        // A whole text never asks for more: see `never_waits`.
        Err::Incomplete(_) => Ok((String::new(alloc), 1)),
        Err::OutOfMemory => Err(OutOfMemory),
    }
}

// Writes the text for an answer, and answers its status.
fn write_answer<'a, A: Allocator + Copy, W: ByteWriter>(
    alloc: A,
    answer: IResult<Text<'a>, Vec<Section<Text<'a>, A>, A>, Error<Text<'a>>>,
    sink: &mut W,
) -> Result<u8, RunError>
    ensures { WritesText (IsSettingsReport answer.entry) (W.account sink.old) (W.account sink.new) (sink.new ≡ sink.old) result }
{
    match answer {
        Ok((_rest, found)) => write_sections(make_room(alloc), &found, sink),
        Err(stop) => write_built(tell_stop(alloc, stop), sink),
    }
}

// The text and the status for bytes that are no text from a place on.
fn tell_bytes<A: Allocator + Copy>(
    alloc: A,
    bytes: &[u8],
    count: usize,
) -> Result<(String<A>, u8), OutOfMemory>
    requires { count ≤ length bytes.now }
    ensures { IfOk result (λ r. IsBytesReport (take count bytes.now) (string_bytes r.0) r.1) }
{
    let start = Located::new(bytes);
    start.known();
    let there = start.take_from(count);
    stands_after(start, count, there);
    tell_fault(alloc, there.line(), there.column(), ErrorKind::Char)
}

/// The report on a file of settings. It is the same in whichever parts the bytes come.
pub struct Settings;

impl Reporting for Settings {
    ghost is_report = { λ _. IsReport };

    fn write<A: Allocator + Copy, W: ByteWriter>(
        &self,
        alloc: A,
        bytes: &[u8],
        _cuts: &[usize],
        sink: &mut W,
    ) -> Result<u8, RunError> {
        match str::from_utf8(bytes) {
            Ok(text) => {
                let whole = Located::new(text);
                whole.known();
                write_answer(alloc, settings(alloc, whole), sink)
            }
            Err(error) => write_built(tell_bytes(alloc, bytes, error.valid_up_to()), sink),
        }
    }
}
