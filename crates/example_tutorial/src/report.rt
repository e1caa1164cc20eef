//! The same file, with errors for people.

use crate::typed::{Content, Entry};
use nom::branch::alt;
use nom::bytes::tag;
use nom::character::{alpha1, char, line_ending, space0, u32};
use nom::combinator::{eof, map, value};
use nom::error::context;
use nom::multi::many_till;
use nom::sequence::delimited;
use nom::{Err, IResult, OutOfMemory, Parser, func};
use nom_report::{Report, render};
use std::alloc::Global;

type Fault<'a> = Report<&'a str>;

/// Parses a number, `on` or `off`.
fn number_or_switch<'a>(input: &'a str) -> IResult<&'a str, Content, Fault<'a>> {
    let number = map(u32(), |number| Content::Number(number));
    let on = value(Content::Switch(true), tag("on"));
    let off = value(Content::Switch(false), tag("off"));
    let switch = context("`on` or `off`", alt((on, off)));
    alt((number, switch)).parse_complete(input)
}

/// Parses a line such as `port = 8080`.
fn setting<'a>(input: &'a str) -> IResult<&'a str, Entry<'a>, Fault<'a>> {
    let (input, name) = context("a name", alpha1()).parse_complete(input)?;
    let (input, _) = delimited(space0(), char('='), space0()).parse_complete(input)?;
    let (input, content) = number_or_switch(input)?;
    let (input, _) = line_ending().parse_complete(input)?;
    Ok((input, Entry { name, content }))
}

/// Parses a whole file.
pub fn settings<'a>(alloc: Global, input: &'a str) -> IResult<&'a str, Vec<Entry<'a>>, Fault<'a>> {
    let (input, (settings, _)) = many_till(alloc, func(setting), func(eof)).parse_complete(input)?;
    Ok((input, settings))
}

/// Returns the text that a user sees for a file with this name: empty if the file is right.
pub fn explain(alloc: Global, name: &str, source: &str) -> Result<String, OutOfMemory> {
    let mut text = String::new(alloc);
    match settings(alloc, source) {
        Ok(_) => {}
        Err(Err::Error(report)) => render(name, source, &report, &mut text)?,
        Err(Err::Failure(report)) => render(name, source, &report, &mut text)?,
        Err(_) => return Err(OutOfMemory),
    }
    Ok(text)
}
