//! A parser of it, with errors of any type.
ghost use Rattle.std.specs.Prelude.{false};
ghost use Rattle.nom.specs.Words.{Parses};
ghost use Rattle.example_parts.specs.Settings.{setting_of, sources_with};

use crate::source::Source;
use nom::bytes::{is_not, tag};
use nom::error::ParseError;
use nom::sequence::separated_pair;
use nom::{IResult, Parser};

/// A name and a value with a `=` between them, as `color=dark red`: both know their file, and so does the rest. The
/// end of the line is left.
pub fn setting<'a, E: ParseError<Source<'a>>>(
    line: Source<'a>,
) -> IResult<Source<'a>, (Source<'a>, Source<'a>), E>
    ensures { Parses (sources_with E.errors) setting_of false line.entry result }
{
    let mut setting = separated_pair(is_not("="), tag("="), is_not("\n"));
    setting.parse_complete(line)
}
