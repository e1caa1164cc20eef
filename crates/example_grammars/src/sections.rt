//! Sections of a configuration file: parts of a grammar that have names of one's own, in contracts over bytes and over texts.
ghost use Rattle.std.specs.Prelude.{false};
ghost use Rattle.nom.specs.Words.{Parses, bytes, many0_of, pair_of, texts_with};
ghost use Rattle.example_grammars.specs.Sections.{header_of, setting_of};

use nom::bytes::{is_not, tag};
use nom::character::char;
use nom::error::ParseError;
use nom::multi::many0;
use nom::sequence::{delimited, pair, separated_pair, terminated};
use nom::{IResult, Parser};
use std::alloc::Global;

/// The header of a section, as `[name]` and the end of its line.
pub fn header(input: &[u8]) -> IResult<&[u8], &[u8]>
    ensures { Parses bytes header_of false input.entry result }
{
    terminated(delimited(char('['), is_not("]"), char(']')), tag("\n")).parse_complete(input)
}

/// A section with one setting, for any error type.
pub fn section<'a, E: ParseError<&'a str>>(
    input: &'a str,
) -> IResult<&'a str, (&'a str, (&'a str, &'a str)), E>
    ensures { Parses (texts_with E.errors) (pair_of header_of setting_of) false input.entry result }
{
    let header = terminated(delimited(char('['), is_not("]"), char(']')), tag("\n"));
    let setting = separated_pair(is_not("=\n"), char('='), is_not("\n"));
    pair(header, setting).parse_complete(input)
}

/// The headers of sections without settings.
pub fn headers(alloc: Global, input: &[u8]) -> IResult<&[u8], Vec<&[u8]>>
    ensures { Parses bytes (many0_of header_of) false input.entry result }
{
    let name = delimited(char('['), is_not("]"), char(']'));
    many0(alloc, terminated(name, tag("\n"))).parse_complete(input)
}
