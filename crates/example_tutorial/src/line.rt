//! One line, with nothing to prove.

use nom::bytes::{is_not, tag};
use nom::sequence::separated_pair;
use nom::{IResult, Parser};

/// Parses a line `name=value`. Neither part may be empty, and the value ends with the line.
pub fn setting(line: &str) -> IResult<&str, (&str, &str)> {
    let mut setting = separated_pair(is_not("="), tag("="), is_not("\n"));
    setting.parse_complete(line)
}
