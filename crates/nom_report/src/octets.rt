//! The text of a report on bytes.
ghost use Rattle.std.specs.Prelude.{◌≡◌, ◌++◌, ◌≤◌, IfOk, decimal, length, map, string_bytes};
ghost use Rattle.nom_report.specs.Left.{slice_place};
ghost use Rattle.nom_report.specs.Named.{named};
ghost use Rattle.nom_report.specs.Octets.{begins_text, octet_text, octets_caret, octets_context, octets_contexts, octets_line, octets_quote, octets_report};
ghost use Rattle.nom_report.specs.Octets.{octets_text, offset_in};

use crate::enclosing::Enclosing;
use crate::place::Placed;
use crate::quote::{add_number, add_spaces};
use crate::text::{add_end, add_more, add_name};
use crate::value::Report;
use crate::words::add_all_expected;
use nom_error::answer::OutOfMemory;
use std::alloc::Allocator;
use std::fmt::Write;

/// The maximum number of bytes that are quoted.
pub const QUOTED: usize = 16;

/// The maximum number of quoted bytes before the place.
pub const AHEAD: usize = 8;

// Adds a byte as two digits in base 16, after a space.
#[tactic(auto, using(std::proofs::lemmas::Fmt::hex_byte))]
fn add_octet<A: Allocator + Copy>(out: &mut String<A>, byte: u8) -> Result<(), OutOfMemory>
    ensures { IfOk result (λ _. string_bytes out.new ≡ string_bytes out.old ++ octet_text byte) }
{
    write!(out, " {byte:02x}")?;
    Ok(())
}

// Adds bytes.
fn add_octets<A: Allocator + Copy>(out: &mut String<A>, bytes: &[u8]) -> Result<(), OutOfMemory>
    ensures { IfOk result (λ _. string_bytes out.new ≡ string_bytes out.old ++ octets_text bytes.now) }
{
    for byte in bytes {
        add_octet(out, *byte)?;
    }
    Ok(())
}

// Adds a text as it is.
fn add_words<A: Allocator + Copy>(out: &mut String<A>, words: &str) -> Result<(), OutOfMemory>
    ensures { IfOk result (λ _. string_bytes out.new ≡ string_bytes out.old ++ words.now) }
{
    out.push_str(words)?;
    Ok(())
}

// Adds bytes after the offset of the first of them, and tells how many digits that has.
fn add_octets_line<A: Allocator + Copy>(
    out: &mut String<A>,
    begin: usize,
    bytes: &[u8],
) -> Result<usize, OutOfMemory>
    ensures bytes { IfOk result (λ _. string_bytes out.new ≡ string_bytes out.old ++ octets_line begin bytes.now) }
    ensures digits { IfOk result (λ digits. digits ≡ length (decimal begin)) }
{
    let digits = add_number(out, begin)?;
    add_words(out, " |")?;
    add_octets(out, bytes)?;
    add_words(out, "\n")?;
    Ok(digits)
}

// Adds a caret below the byte after so many, below an offset of so many digits.
fn add_octets_caret<A: Allocator + Copy>(
    out: &mut String<A>,
    digits: usize,
    count: usize,
) -> Result<(), OutOfMemory>
    requires { count ≤ AHEAD }
    ensures { IfOk result (λ _. string_bytes out.new ≡ string_bytes out.old ++ octets_caret digits count) }
{
    add_spaces(out, digits)?;
    add_words(out, " |")?;
    add_spaces(out, 3 * count)?;
    add_words(out, " ^\n")?;
    Ok(())
}

// Adds the bytes around a place, and a caret below.
fn add_octets_quote<A: Allocator + Copy>(
    out: &mut String<A>,
    source: &[u8],
    offset: usize,
) -> Result<(), OutOfMemory>
    requires { offset ≤ length source.now }
    ensures { IfOk result (λ _. string_bytes out.new ≡ string_bytes out.old ++ octets_quote source.now offset) }
{
    let begin = offset.saturating_sub(AHEAD);
    let rest = &source[begin..];
    let digits = add_octets_line(out, begin, &rest[..rest.len().min(QUOTED)])?;
    add_octets_caret(out, digits, offset - begin)?;
    Ok(())
}

// The offset of a place in a source.
#[inline]
fn offset_of(source: &[u8], start: usize, place: usize) -> usize
    ensures value { result ≡ offset_in source.now start place }
    ensures within { result ≤ length source.now }
{
    place.saturating_sub(start).min(source.len())
}

// Adds the name of a context, with the offset where it begins.
fn add_begins<A: Allocator + Copy>(
    out: &mut String<A>,
    label: &str,
    begins: usize,
) -> Result<(), OutOfMemory>
    ensures { IfOk result (λ _. string_bytes out.new ≡ string_bytes out.old ++ begins_text label.now begins) }
{
    write!(out, "while reading {label}, which begins at {begins}\n")?;
    Ok(())
}

// Adds a context, with the offset where it begins.
fn add_octets_context<A: Allocator + Copy>(
    out: &mut String<A>,
    source: &[u8],
    start: usize,
    context: &Enclosing,
) -> Result<(), OutOfMemory>
    ensures { IfOk result (λ _. string_bytes out.new ≡ string_bytes out.old ++ octets_context source.now start (named context.now)) }
{
    add_begins(out, context.label, offset_of(source, start, context.place))?;
    Ok(())
}

// Adds the contexts of a report.
fn add_octets_contexts<A: Allocator + Copy>(
    out: &mut String<A>,
    source: &[u8],
    start: usize,
    contexts: &[Enclosing],
) -> Result<(), OutOfMemory>
    ensures { IfOk result (λ _. string_bytes out.new ≡ string_bytes out.old ++ octets_contexts source.now start (map named contexts.now)) }
{
    for context in contexts {
        add_octets_context(out, source, start, context)?;
    }
    Ok(())
}

/// Adds the text of a report on bytes. `source` is the whole input.
///
/// The text consists of:
///
/// - the expectations, on the first line;
/// - the place, by its offset, on the second line: ` --> packet.bin:31`;
/// - up to sixteen bytes around the place in base 16, up to eight of them before it, after the offset of the
///   first;
/// - a caret below these bytes;
/// - one line for each context.
pub fn render_bytes<A: Allocator + Copy>(
    name: &str,
    source: &[u8],
    error: &Report<&[u8]>,
    out: &mut String<A>,
) -> Result<(), OutOfMemory>
    ensures { IfOk result (λ _. string_bytes out.new ≡ string_bytes out.old ++ octets_report name.now source.entry error.now) }
{
    let start = source.place();
    let at = error.at();
    let offset = offset_of(source, start, at.place());
    add_all_expected(out, error.expected(), error.has_more_expected())?;
    add_name(out, name)?;
    let _digits = add_number(out, offset)?;
    add_end(out)?;
    add_octets_quote(out, source, offset)?;
    add_octets_contexts(out, source, start, error.inside())?;
    add_more(out, error.has_more_inside())?;
    Ok(())
}
