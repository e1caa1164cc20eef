//! The report on a file.
ghost use Rattle.std.specs.Prelude.{◌≡◌, ◌≤◌, ◌∷◌, [], IfOk, MatchOption, length, string_bytes, take};
ghost use Rattle.nom_report.specs.Wanted.{WantedChar, WantedLabel};
ghost use Rattle.nom_json_run.specs.Json as Json;
ghost use Rattle.nom_json_run.specs.Json.{IsJson};
ghost use Rattle.nom_json_run.specs.Report.{IsFaultReport, IsOctetsReport, IsTextReport, IsNamedReport, JoinsOf, TellsFault, Wanting, before_is};

use crate::bracket::{Bracket, Fault, Missing};
use crate::check::verdict;
use nom_error::answer::OutOfMemory;
use nom_error::kind::ErrorKind;
use nom_error::outside::ContextError;
use nom_error::value::ParseError;
use nom_io::stream::ByteWriter;
use nom_report::{Placed, render_bytes, render_from};
use nom_run::error::RunError;
use nom_run::report::{Reporting, write_built};
use std::alloc::Allocator;
use std::str;

type Error<'a> = nom_report::Report<&'a [u8]>;

// What is wanted goes by a name.
pub(crate) fn named<'a>(place: &'a [u8], name: &'static str) -> Result<Error<'a>, OutOfMemory>
    ensures { IfOk result (Wanting place.entry (WantedLabel name.now ∷ [])) }
{
    let error = nom_report::Report::from_error_kind(place, ErrorKind::Fail)?;
    nom_report::Report::add_context(place, name, error)
}

fn either<'a>(
    first: Result<Error<'a>, OutOfMemory>,
    second: Result<Error<'a>, OutOfMemory>,
) -> Result<Error<'a>, OutOfMemory>
    ensures { IfOk result (JoinsOf first.entry second.entry) }
{
    let first = first?;
    let second = second?;
    first.or(second)
}

fn character<'a>(place: &'a [u8], wanted: char) -> Result<Error<'a>, OutOfMemory>
    ensures { IfOk result (Wanting place.entry (WantedChar wanted ∷ [])) }
{
    nom_report::Report::from_char(place, wanted)
}

// Whether a byte, and white space after it, stands before a place.
fn stands_before(bytes: &[u8], at: usize, byte: u8) -> bool
    requires { at ≤ length bytes.now }
    ensures { result ≡ before_is byte (take at bytes.now) }
{
    let mut at = at;
    while at > 0 {
        at -= 1;
        match bytes[at] {
            b' ' | b'\n' | b'\r' | b'\t' => {}
            found => return found == byte,
        }
    }
    false
}

fn closing(bracket: Bracket) -> char
    ensures { result ≡ Json.closing bracket }
{
    match bracket {
        Bracket::Array => ']',
        Bracket::Object => '}',
    }
}

// What a fault tells: the place, and what would have been accepted there.
pub(crate) fn error_of<'a>(bytes: &'a [u8], fault: Fault) -> Result<Error<'a>, OutOfMemory>
    requires { fault.at ≤ length bytes.now }
    ensures { IfOk result (TellsFault bytes.now fault) }
{
    let place = &bytes[fault.at..];
    match fault.missing {
        Missing::Value => {
            let value = named(place, "a value");
            if stands_before(bytes, fault.at, b'[') {
                either(value, character(place, ']'))
            } else {
                value
            }
        }
        Missing::Word(word) => named(place, word),
        Missing::Digit => named(place, "a digit"),
        Missing::Character => either(named(place, "a character"), character(place, '"')),
        Missing::Escape => named(place, "the letter of an escape"),
        Missing::Hex => named(place, "a digit in base 16"),
        Missing::Name => {
            let name = named(place, "a name in quotes");
            if stands_before(bytes, fault.at, b'{') {
                either(name, character(place, '}'))
            } else {
                name
            }
        }
        Missing::Colon => character(place, ':'),
        Missing::Comma(bracket) => {
            either(character(place, ','), character(place, closing(bracket)))
        }
        Missing::End => named(place, "the end of the text"),
    }
}

// The report on a fault in a text.
fn tell_fault<A: Allocator + Copy>(
    alloc: A,
    name: &str,
    text: &str,
    fault: Fault,
) -> Result<String<A>, OutOfMemory>
    requires { fault.at ≤ length text.now }
    ensures { IfOk result (λ t. IsTextReport name.now text.now fault (string_bytes t)) }
{
    let bytes = text.as_bytes();
    let error = error_of(bytes, fault)?;
    let mut out = String::new(alloc);
    render_from(name, text, bytes.place(), &error, &mut out)?;
    Ok(out)
}

// The report on bytes that are no text from a place on.
fn tell_bytes<A: Allocator + Copy>(
    alloc: A,
    name: &str,
    bytes: &[u8],
    at: usize,
) -> Result<String<A>, OutOfMemory>
    requires { at ≤ length bytes.now }
    ensures { IfOk result (λ t. IsOctetsReport name.now bytes.now at (string_bytes t)) }
{
    let error = named(&bytes[at..], "a character in UTF-8")?;
    let mut out = String::new(alloc);
    render_bytes(name, bytes, &error, &mut out)?;
    Ok(out)
}

// The report on bytes that are no JSON text in UTF-8, and the place of the fault, of which none is told behind `inside`.
#[inline(always)]
pub(crate) fn fault_report<A: Allocator + Copy>(
    alloc: A,
    name: &str,
    bytes: &[u8],
    inside: usize,
) -> Result<Option<(String<A>, usize)>, OutOfMemory>
    ensures { IfOk result (λ found. MatchOption found (IsJson bytes.now) (λ r. IsFaultReport name.now bytes.now inside r.1 (string_bytes r.0))) }
{
    match str::from_utf8(bytes) {
        Ok(text) => match verdict(alloc, text.as_bytes()) {
            Ok(None) => Ok(None),
            Ok(Some(fault)) => {
                let report = tell_fault(alloc, name, text, fault)?;
                Ok(Some((report, fault.at.min(inside))))
            }
            Err(error) => Err(error),
        },
        Err(error) => {
            let at = error.valid_up_to();
            let report = tell_bytes(alloc, name, bytes, at)?;
            Ok(Some((report, at)))
        }
    }
}

/// Returns the text and the status for bytes.
///
/// If the bytes are a JSON text in UTF-8, the text is empty and the status is 0. Otherwise the text is a
/// report on the first fault, and the status is 1.
pub fn text_of<A: Allocator + Copy>(
    alloc: A,
    name: &str,
    bytes: &[u8],
) -> Result<(String<A>, u8), OutOfMemory>
    ensures { IfOk result (λ r. IsNamedReport name.now bytes.now (string_bytes r.0) r.1) }
{
    match fault_report(alloc, name, bytes, bytes.len()) {
        Ok(None) => Ok((String::new(alloc), 0)),
        Ok(Some((report, _))) => Ok((report, 1)),
        Err(error) => Err(error),
    }
}

/// The report on a file with a name. It is the same in whichever parts the bytes come.
#[derive(Drop)]
pub struct Checked<'a> {
    pub name: &'a str,
}

impl<'a> Reporting for Checked<'a> {
    ghost is_report = { λ s bytes cuts. IsNamedReport s.name.now bytes };

    fn write<A: Allocator + Copy, W: ByteWriter>(
        &self,
        alloc: A,
        bytes: &[u8],
        _cuts: &[usize],
        sink: &mut W,
    ) -> Result<u8, RunError> {
        write_built(text_of(alloc, self.name, bytes), sink)
    }
}
