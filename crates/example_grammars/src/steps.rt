//! Steps by `?`: functions of one parser after another, whose contracts are the tuples of these, and nothing else is written.
#![tactic(auto, using(nom::specs::Chains::steps))]

ghost use Rattle.std.specs.Prelude.{false};
ghost use Rattle.nom.specs.Texts.{Parses, char_of, tuple_of_three};
ghost use Rattle.example_grammars.specs.Steps.{clock_of};

use nom::character::{char, u8};
use nom::sequence::terminated;
use nom::{IResult, Parser};

/// A time of a day.
#[derive(Clone, Copy, Debug, PartialEq, Eq)]
pub struct Time {
    pub hour: u8,
    pub minute: u8,
    pub second: u8,
}

/// A time, as `05:30:00`.
pub fn clock(input: &str) -> IResult<&str, Time>
    ensures { Parses clock_of false input.entry result }
{
    let (rest, hour) = terminated(u8(), char(':')).parse_complete(input)?;
    let (rest, minute) = terminated(u8(), char(':')).parse_complete(rest)?;
    let (rest, second) = u8().parse_complete(rest)?;
    Ok((
        rest,
        Time {
            hour,
            minute,
            second,
        },
    ))
}

/// Two times and what stands between them, as `05:30:00-06:15:00`: a grammar of functions.
pub fn span(input: &str) -> IResult<&str, (Time, char, Time)>
    ensures { Parses (tuple_of_three clock_of (char_of 45) clock_of) false input.entry result }
{
    let (rest, from) = clock(input)?;
    let (rest, dash) = char('-').parse_complete(rest)?;
    let (rest, to) = clock(rest)?;
    Ok((rest, (from, dash, to)))
}
