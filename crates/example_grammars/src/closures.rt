//! Closures on outputs, with no contract.

use nom::bytes::tag;
use nom::character::digit1;
use nom::combinator::{map, map_res};
use nom::sequence::separated_pair;
use nom::{IResult, Parser};

/// A place in a picture.
#[derive(Clone, Copy, Debug, PartialEq, Eq)]
pub struct Point {
    pub column: u32,
    pub row: u32,
}

/// Two numbers, as `3x4`.
pub fn place(input: &str) -> IResult<&str, Point> {
    let column = map_res(digit1(), |digits: &str| digits.parse::<u32>());
    let row = map_res(digit1(), |digits: &str| digits.parse::<u32>());
    map(
        separated_pair(column, tag("x"), row),
        |(column, row)| Point { column, row },
    )
    .parse_complete(input)
}
