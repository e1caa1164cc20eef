//! The line of a source at a place, and a caret below it.
ghost use Rattle.std.specs.Prelude.{◌≡◌, ◌++◌, ◌≤◌, [], if◌then◌else◌, IfOk, length, chars, decimal, drop, replicate, string_bytes, take};
ghost use Rattle.nom_report.specs.Quotes.{IsCut, IsFirstLine, IsLastLine, IsPlaceText, IsQuote, IsWithoutReturn, caret_text, columns, left_out, line_of};
ghost use Rattle.nom_report.specs.Quotes.{line_text, quote_text, shown_after, written_char, written_text};

use crate::words::shown;
use nom_error::answer::OutOfMemory;
use std::alloc::Allocator;
use std::fmt::Write;

/// The maximum number of characters that are quoted of a line.
pub const WIDEST: usize = 76;

/// The maximum number of quoted characters before the place, if the line is cut.
pub const BEFORE: usize = 38;

/// Splits a source at a place.
///
/// If no character begins at the place, it is no place of this source, and the source is split at its end.
#[inline]
pub fn cut(source: &str, offset: usize) -> (&str, &str)
    ensures { IsCut source.now offset result.0.now result.1.now }
{
    match source.split_at_checked(offset) {
        Some((before, after)) => (before, after),
        None => (source, ""),
    }
}

/// Returns the last line of a text.
#[inline]
pub fn last_line(text: &str) -> &str
    ensures { IsLastLine text.now result.now }
{
    match text.rsplit_once('\n') {
        Some((_, line)) => line,
        None => text,
    }
}

// A text without a return at its end.
#[inline]
fn without_return(text: &str) -> &str
    ensures { IsWithoutReturn text.now result.now }
{
    match text.strip_suffix('\r') {
        Some(line) => line,
        None => text,
    }
}

/// Returns the first line of a text, without its end.
#[inline]
pub fn first_line(text: &str) -> &str
    ensures { IsFirstLine text.now result.now }
{
    match text.split_once('\n') {
        Some((line, _)) => without_return(line),
        None => text,
    }
}

/// Returns the number of the line in which a text ends. The first line is 1.
#[inline]
pub fn line_number(text: &str) -> usize
    ensures { result ≡ line_of text.now }
{
    1 + text.as_bytes().iter().filter(|b| **b == b'\n').count()
}

/// Returns the number of characters in a text.
#[inline]
fn width(text: &str) -> usize
    ensures value { result ≡ columns text.now }
    ensures within { result ≤ length text.now }
{
    text.chars().count()
}

// A character as it is shown, or, below a line, what leaves as much room: a tab leaves that of a tab.
#[inline]
fn written(c: char, below: bool) -> char
    ensures { result ≡ written_char below c }
{
    if below {
        if c == '\t' { c } else { ' ' }
    } else {
        shown(c)
    }
}

// Adds the first characters of a text after some that are left out: as they are shown, or, below a line, as what leaves room
// for them.
fn add_chars<A: Allocator + Copy>(
    out: &mut String<A>,
    text: &str,
    skip: usize,
    count: usize,
    below: bool,
) -> Result<(), OutOfMemory>
    ensures { IfOk result (λ _. string_bytes out.new ≡ string_bytes out.old ++ written_text below (take count (drop skip (chars text.now)))) }
{
    let mut left = skip;
    let mut room_left = count;
    for c in text.chars() {
        if left > 0 {
            left -= 1;
        } else if room_left > 0 {
            room_left -= 1;
            out.push(written(c, below))?;
        }
    }
    Ok(())
}

// How many characters of a line before the place are left out, where so many stand before it and from it on.
#[inline]
fn left_before(before: usize, after: usize) -> usize
    ensures value { result ≡ left_out before after }
    ensures within { result ≤ before }
{
    if before <= WIDEST && after <= WIDEST - before {
        return 0;
    }
    before.saturating_sub(BEFORE)
}

// How many characters are shown from the place on.
#[inline]
fn taken_after(before: usize, after: usize) -> usize
    ensures value { result ≡ shown_after before after }
    ensures within { result ≤ after }
{
    after.min(WIDEST.saturating_sub(before - left_before(before, after)))
}

/// Adds a number, and returns the number of its digits.
pub fn add_number<A: Allocator + Copy>(
    out: &mut String<A>,
    number: usize,
) -> Result<usize, OutOfMemory>
    ensures bytes { IfOk result (λ _. string_bytes out.new ≡ string_bytes out.old ++ decimal number) }
    ensures digits { IfOk result (λ digits. digits ≡ length (decimal number)) }
{
    let start = out.len();
    write!(out, "{number}")?;
    Ok(out.len() - start)
}

// Adds a text where something is left out.
fn add_if<A: Allocator + Copy>(
    out: &mut String<A>,
    is_out: bool,
    text: &str,
) -> Result<(), OutOfMemory>
    ensures { IfOk result (λ _. string_bytes out.new ≡ string_bytes out.old ++ (if is_out then text.now else [])) }
{
    if is_out {
        out.push_str(text)?;
    }
    Ok(())
}

/// Adds spaces.
pub fn add_spaces<A: Allocator + Copy>(out: &mut String<A>, count: usize) -> Result<(), OutOfMemory>
    ensures { IfOk result (λ _. string_bytes out.new ≡ string_bytes out.old ++ replicate count 32) }
{
    for _at in 0..count {
        out.push(' ')?;
    }
    Ok(())
}

// Adds the line.
fn add_line<A: Allocator + Copy>(
    out: &mut String<A>,
    left: &str,
    right: &str,
) -> Result<(), OutOfMemory>
    ensures { IfOk result (λ _. string_bytes out.new ≡ string_bytes out.old ++ line_text (chars left.now) (chars right.now)) }
{
    let before = width(left);
    let after = width(right);
    let skip = left_before(before, after);
    let count = taken_after(before, after);
    add_if(out, skip > 0, "..")?;
    add_chars(out, left, skip, before, false)?;
    add_chars(out, right, 0, count, false)?;
    add_if(out, count < after, "..")?;
    write!(out, "\n")?;
    Ok(())
}

// Adds the caret below it.
fn add_caret<A: Allocator + Copy>(
    out: &mut String<A>,
    left: &str,
    right: &str,
) -> Result<(), OutOfMemory>
    ensures { IfOk result (λ _. string_bytes out.new ≡ string_bytes out.old ++ caret_text (chars left.now) (chars right.now)) }
{
    let before = width(left);
    let skip = left_before(before, width(right));
    add_if(out, skip > 0, "  ")?;
    add_chars(out, left, skip, before, true)?;
    write!(out, "^\n")?;
    Ok(())
}

// Adds the line, after its number, and the caret below it.
fn add_both<A: Allocator + Copy>(
    out: &mut String<A>,
    line: usize,
    left: &str,
    right: &str,
) -> Result<(), OutOfMemory>
    ensures { IfOk result (λ _. string_bytes out.new ≡ string_bytes out.old ++ quote_text line (chars left.now) (chars right.now)) }
{
    let digits = add_number(out, line)?;
    write!(out, " | ")?;
    add_line(out, left, right)?;
    add_spaces(out, digits)?;
    write!(out, " | ")?;
    add_caret(out, left, right)?;
    Ok(())
}

/// Adds the line of a place, with its number, and a caret below it.
pub fn add_quote<A: Allocator + Copy>(
    out: &mut String<A>,
    before: &str,
    after: &str,
) -> Result<(), OutOfMemory>
    ensures { IfOk result (λ _. (t : _) × IsQuote before.now after.now t × (string_bytes out.new ≡ string_bytes out.old ++ t)) }
{
    let left = last_line(before);
    let right = first_line(after);
    add_both(out, line_number(before), left, right)?;
    Ok(())
}

/// Adds a place as `3:7`: its line, and its column in characters. The first line and the first column are 1.
pub fn add_place<A: Allocator + Copy>(out: &mut String<A>, before: &str) -> Result<(), OutOfMemory>
    ensures { IfOk result (λ _. (t : _) × IsPlaceText before.now t × (string_bytes out.new ≡ string_bytes out.old ++ t)) }
{
    let left = last_line(before);
    let line = line_number(before);
    let column = 1 + width(left);
    write!(out, "{line}:{column}")?;
    Ok(())
}
