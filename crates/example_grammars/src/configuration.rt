//! A small language: lines of settings, as `name=value`, and of comments after a `#`.

use nom::branch::alt;
use nom::bytes::{is_not, tag, take_while1};
use nom::combinator::{map, opt, value};
use nom::multi::many0;
use nom::sequence::{preceded, separated_pair, terminated};
use nom::{IResult, Parser};
use std::alloc::Global;

/// A line.
#[derive(Clone, Copy, Debug, PartialEq, Eq)]
pub enum Line<'a> {
    Comment,
    Setting(&'a str, &'a str),
}

/// The lines of a text, each ended by a line feed. A comment may be empty; a name is of letters, and a
/// value isn't empty.
pub fn settings(alloc: Global, input: &str) -> IResult<&str, Vec<Line<'_>>> {
    let comment = value(Line::Comment, preceded(tag("#"), opt(is_not("\n"))));
    let setting = map(
        separated_pair(
            take_while1(|c: char| c.is_alphabetic()),
            tag("="),
            is_not("\n"),
        ),
        |(name, value)| Line::Setting(name, value),
    );
    let line = terminated(alt((comment, setting)), tag("\n"));
    many0(alloc, line).parse_complete(input)
}
