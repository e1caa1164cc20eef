//! A file of settings, to types of its own.

use nom::branch::alt;
use nom::bytes::tag;
use nom::character::{alpha1, char, line_ending, space0, u32};
use nom::combinator::{all_consuming, map, value};
use nom::multi::many0;
use nom::sequence::delimited;
use nom::{IResult, Parser, Viewed, func};
use std::alloc::Global;

/// What a setting is set to.
#[derive(Clone, Copy, Debug, PartialEq, Eq)]
pub enum Content {
    Number(u32),
    Switch(bool),
}

impl Viewed for Content {}

/// A name and its content.
#[derive(Clone, Copy, Debug, PartialEq, Eq)]
pub struct Entry<'a> {
    pub name: &'a str,
    pub content: Content,
}

impl Viewed for Entry<'_> {}

/// Parses a number, `on` or `off`.
fn number_or_switch(input: &str) -> IResult<&str, Content> {
    let number = map(u32(), |number| Content::Number(number));
    let on = value(Content::Switch(true), tag("on"));
    let off = value(Content::Switch(false), tag("off"));
    alt((number, on, off)).parse_complete(input)
}

/// Parses a line such as `port = 8080`.
fn setting(input: &str) -> IResult<&str, Entry<'_>> {
    let (input, name) = alpha1().parse_complete(input)?;
    let (input, _) = delimited(space0(), char('='), space0()).parse_complete(input)?;
    let (input, content) = number_or_switch(input)?;
    let (input, _) = line_ending().parse_complete(input)?;
    Ok((input, Entry { name, content }))
}

/// Parses a whole file.
pub fn settings(alloc: Global, input: &str) -> IResult<&str, Vec<Entry<'_>>> {
    all_consuming(many0(alloc, func(setting))).parse_complete(input)
}
