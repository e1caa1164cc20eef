//! The text of a report.
ghost use Rattle.std.specs.Prelude.{◌≡◌, ◌+◌, ◌-◌, ◌<◌, ◌++◌, IfOk, OnErr, codes, length, map, string_bytes, string_capacity, string_len};
ghost use Rattle.nom_report.specs.Left.{slice_place};
ghost use Rattle.nom_report.specs.Named.{named};
ghost use Rattle.nom_report.specs.Rendered.{IsRendered, TellsContext, TellsContexts, more_text, name_text};

use crate::enclosing::Enclosing;
use crate::place::Placed;
use crate::quote::{add_place, add_quote, cut};
use crate::value::Report;
use crate::words::add_all_expected;
use nom_error::answer::OutOfMemory;
use std::alloc::Allocator;
use std::fmt::Write;

// Adds a context, with the place where it begins.
fn add_context<A: Allocator + Copy>(
    out: &mut String<A>,
    source: &str,
    start: usize,
    context: &Enclosing,
) -> Result<(), OutOfMemory>
    ensures { IfOk result (λ _. (t : _) × TellsContext source.now start (named context.now) t × (string_bytes out.new ≡ string_bytes out.old ++ t)) }
{
    let label = context.label;
    let (before, _after) = cut(source, context.place.saturating_sub(start));
    write!(out, "while reading {label}, which begins at ")?;
    add_place(out, before)?;
    write!(out, "\n")?;
    Ok(())
}

// Adds the contexts of a report.
fn add_contexts<A: Allocator + Copy>(
    out: &mut String<A>,
    source: &str,
    start: usize,
    contexts: &[Enclosing],
) -> Result<(), OutOfMemory>
    ensures { IfOk result (λ _. (t : _) × TellsContexts source.now start (map named contexts.now) t × (string_bytes out.new ≡ string_bytes out.old ++ t)) }
{
    for context in contexts {
        add_context(out, source, start, context)?;
    }
    Ok(())
}

/// Adds the name of a source.
pub fn add_name<A: Allocator + Copy>(out: &mut String<A>, name: &str) -> Result<(), OutOfMemory>
    ensures added { IfOk result (λ _. string_bytes out.new ≡ string_bytes out.old ++ name_text name.now) }
    ensures full { OnErr result (string_capacity out.old < string_len out.old + length (name_text name.now)) }
{
    out.push_str(" --> ")?;
    out.push_str(name)?;
    out.push_str(":")?;
    Ok(())
}

/// Ends a line.
pub fn add_end<A: Allocator + Copy>(out: &mut String<A>) -> Result<(), OutOfMemory>
    ensures added { IfOk result (λ _. string_bytes out.new ≡ string_bytes out.old ++ codes "\n") }
    ensures full { OnErr result (string_capacity out.old < string_len out.old + 1) }
{
    out.push_str("\n")?;
    Ok(())
}

/// Adds a mark if there are more contexts.
pub fn add_more<A: Allocator + Copy>(out: &mut String<A>, more: bool) -> Result<(), OutOfMemory>
    ensures added { IfOk result (λ _. string_bytes out.new ≡ string_bytes out.old ++ more_text more) }
    ensures full { OnErr result (string_capacity out.old < string_len out.old + length (more_text more)) }
{
    if more {
        out.push_str("..\n")?;
    }
    Ok(())
}

/// Adds the text of a report on a text.
///
/// `source` is the whole text. `start` is the place of the input that was parsed, as `Placed` returns it. For
/// a `Located` it is 0.
///
/// The text consists of:
///
/// - the expectations, on the first line;
/// - the place, by its line and its column in characters, on the second line: ` --> settings.ini:3:7`;
/// - the line itself, after its number;
/// - a caret below that line;
/// - one line for each context.
///
/// If the line has more than 76 characters, only those around the caret are quoted, with `..` for the others.
/// A tab is kept. Any other control character is shown as U+FFFD.
pub fn render_from<I: Placed, A: Allocator + Copy>(
    name: &str,
    source: &str,
    start: usize,
    error: &Report<I>,
    out: &mut String<A>,
) -> Result<(), OutOfMemory>
    ensures { IfOk result (λ _. (t : _) × IsRendered I.place name.now source.now start error.now t × (string_bytes out.new ≡ string_bytes out.old ++ t)) }
{
    let at = error.at();
    let (before, after) = cut(source, at.place().saturating_sub(start));
    add_all_expected(out, error.expected(), error.has_more_expected())?;
    add_name(out, name)?;
    add_place(out, before)?;
    add_end(out)?;
    add_quote(out, before, after)?;
    add_contexts(out, source, start, error.inside())?;
    add_more(out, error.has_more_inside())?;
    Ok(())
}

/// Adds the text of a report on a text, like `render_from`. `source` is the whole text.
pub fn render<A: Allocator + Copy>(
    name: &str,
    source: &str,
    error: &Report<&str>,
    out: &mut String<A>,
) -> Result<(), OutOfMemory>
    ensures { IfOk result (λ _. (t : _) × IsRendered slice_place name.now source.now (slice_place source.entry) error.now t
        × (string_bytes out.new ≡ string_bytes out.old ++ t)) }
{
    render_from(name, source, source.place(), error, out)
}
