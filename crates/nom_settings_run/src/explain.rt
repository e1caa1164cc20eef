//! Reports for people on what is wrong in a file of settings.
use crate::settings::is_value;
use nom::bytes::{is_not, take_while};
use nom::character::char;
use nom::combinator::{all_consuming, cut, opt};
use nom::error::context;
use nom::multi::many0_count;
use nom::sequence::{pair, preceded, terminated};
use nom::{CutRest, Err, IResult, Input, Located, OutOfMemory, Parser, func};
use nom_report::{Placed, Report, render_from};
use std::alloc::Allocator;

type Answer<I, T> = IResult<I, T, Report<I>>;

/// The line of a section's name, by the grammar of `settings`.
fn header<I: Input<Item = char> + CutRest + Placed>(input: I) -> Answer<I, I> {
    let end = pair(char(']'), pair(opt(char('\r')), char('\n')));
    let title = terminated(context("a name", is_not("]\r\n")), end);
    context("a section", preceded(char('['), cut(title))).parse_complete(input)
}

/// The line of a setting.
fn setting<I: Input<Item = char> + CutRest + Placed>(input: I) -> Answer<I, I> {
    let value = terminated(take_while(is_value), pair(opt(char('\r')), char('\n')));
    let name = context("a name", is_not("[=\r\n"));
    let line = terminated(name, cut(preceded(char('='), value)));
    context("a setting", line).parse_complete(input)
}

/// A section, by the number of its settings.
fn section<I: Input<Item = char> + CutRest + Placed>(input: I) -> Answer<I, usize> {
    let (rest, _) = header(input)?;
    many0_count(func(setting)).parse_complete(rest)
}

/// A whole text, by the number of its sections.
fn sections<I: Input<Item = char> + CutRest + Placed>(input: I) -> Answer<I, usize> {
    all_consuming(many0_count(func(section))).parse_complete(input)
}

/// The text of the report on a file of some name that doesn't follow the grammar of `settings`: what would have been accepted
/// at the first fault, its line and column, that line, and in which section and setting it lies. None of a file that follows
/// it. It takes memory for that text alone.
pub fn explain<A: Allocator + Copy>(
    alloc: A,
    name: &str,
    text: &str,
) -> Result<Option<String<A>>, OutOfMemory> {
    let error = match sections(Located::new(text)) {
        Ok(_) => return Ok(None),
        Err(Err::Error(error)) => error,
        Err(Err::Failure(error)) => error,
        // A whole text never asks for more.
        Err(Err::Incomplete(_)) => return Ok(None),
        Err(Err::OutOfMemory) => return Err(OutOfMemory),
    };
    let mut out = String::new(alloc);
    render_from(name, text, 0, &error, &mut out)?;
    Ok(Some(out))
}
