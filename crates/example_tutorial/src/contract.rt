//! One line, with its grammar as the contract.
ghost use Rattle.std.specs.Prelude.{codes, false};
ghost use Rattle.nom.specs.Texts.{Parses, is_not_of, separated_pair_of, tag_of};

use nom::bytes::{is_not, tag};
use nom::sequence::separated_pair;
use nom::{IResult, Parser};

/// Parses a line `name=value`. Neither part may be empty, and the value ends with the line.
pub fn setting(line: &str) -> IResult<&str, (&str, &str)>
    ensures { Parses (separated_pair_of (is_not_of (codes "=")) (tag_of (codes "=")) (is_not_of (codes "\n"))) false line.entry result }
{
    let mut setting = separated_pair(is_not("="), tag("="), is_not("\n"));
    setting.parse_complete(line)
}
