//! Sections of settings, as INI files have them.
ghost use Rattle.std.specs.Prelude.{◌≡◌, false};
ghost use Rattle.nom.specs.Texts.{Parses};
ghost use Rattle.example_formats.specs.Named.{in_value};
ghost use Rattle.example_formats.specs.Sections.{sections_of};

use nom::bytes::{is_not, take_while};
use nom::character::char;
use nom::combinator::{map, opt};
use nom::error::Error;
use nom::multi::many0;
use nom::sequence::{delimited, pair, separated_pair, terminated};
use nom::{Complete, IResult, parse_in};
use std::alloc::Global;

/// A section: its name, and its settings in their order, each a name and a value. All are slices of the input.
#[derive(Debug, Drop)]
pub struct Section<'a> {
    pub name: &'a str,
    pub settings: Vec<(&'a str, &'a str)>,
}

// `map` asks it of what it gives: sections are compared as they are.
/// Whether a character may stand in a value.
fn is_value(c: char) -> bool
    ensures { result ≡ in_value c }
{
    c != '\r' && c != '\n'
}

fn section_of<'a>(parts: (&'a str, Vec<(&'a str, &'a str)>)) -> Section<'a>
    ensures { result ≡ record { name = parts.entry.0; settings = parts.entry.1 } }
{
    let (name, settings) = parts;
    Section { name, settings }
}

/// The sections of a text:
///
/// ```text
/// sections = section*
/// section  = '[' (any character but ']' and the end of a line)+ ']' end setting*
/// setting  = (any character but '[', '=' and the end of a line)+ '=' (any but the end of a line)* end
/// end      = '\r'? '\n'
/// ```
///
/// What is no section is left.
pub fn sections<'a>(
    alloc: Global,
    input: &'a str,
) -> IResult<&'a str, Vec<Section<'a>>, Error<&'a str>>
    ensures { Parses sections_of false input.entry result }
{
    let open = char::<&'a str, Error<&'a str>>('[');
    let end_of_header = pair(opt(char('\r')), char('\n'));
    let header = delimited(open, is_not("]\r\n"), pair(char(']'), end_of_header));
    let line = separated_pair(is_not("[=\r\n"), char('='), take_while(is_value));
    let setting = terminated(line, pair(opt(char('\r')), char('\n')));
    let section = map(pair(header, many0(alloc, setting)), section_of);
    parse_in::<Complete, _, _>(many0(alloc, section), input)
}
