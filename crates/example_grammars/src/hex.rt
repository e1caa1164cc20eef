//! Colours in base 16, as `#2F14DF`: steps by `?`, the last three by a function.
ghost use Rattle.std.specs.Prelude.{◌≡◌, chars, encode_utf8_all, false};
ghost use Rattle.std.specs.Char.{is_digit};
ghost use Rattle.std.specs.Str.Parse.{ParsesUnsigned};
ghost use Rattle.nom.specs.Texts.{Parses};
ghost use Rattle.example_grammars.specs.Colors.{color_of, primary_of};

use nom::bytes::{tag, take_while_m_n};
use nom::combinator::map_res;
use nom::{IResult, Parser};
use std::num::ParseIntError;

/// A colour, by how much of each it has.
#[derive(Clone, Copy, Debug, PartialEq, Eq)]
pub struct Color {
    pub red: u8,
    pub green: u8,
    pub blue: u8,
}

/// The number of a text of digits in base 16. Its contract speaks of the text as a parser sees it.
fn from_hex(digits: &str) -> Result<u8, ParseIntError>
    ensures { ParsesUnsigned 8 16 (encode_utf8_all (chars digits.now)) result }
{
    u8::from_str_radix(digits, 16)
}

/// Whether a character is a digit in base 16.
fn is_hex_digit(c: char) -> bool
    ensures { result ≡ is_digit c 16 }
{
    c.is_digit(16)
}

/// Two digits in base 16, as their number; where they aren't there, it refuses with `TakeWhileMN`.
fn hex_primary(input: &str) -> IResult<&str, u8>
    ensures { Parses primary_of false input.entry result }
{
    map_res(take_while_m_n(2, 2, is_hex_digit), from_hex).parse_complete(input)
}

/// A `#`, and two digits in base 16 each for red, green and blue.
///
/// The input is taken as complete. Where there is no `#`, it refuses with `Tag`; where a pair of digits is
/// missing, with `TakeWhileMN` at the place of that pair.
#[tactic(auto, using(nom::specs::Chains::steps))]
pub fn hex_color(input: &str) -> IResult<&str, Color>
    ensures { Parses color_of false input.entry result }
{
    let (rest, _) = tag("#").parse_complete(input)?;
    let (rest, red) = hex_primary(rest)?;
    let (rest, green) = hex_primary(rest)?;
    let (rest, blue) = hex_primary(rest)?;
    Ok((rest, Color { red, green, blue }))
}
