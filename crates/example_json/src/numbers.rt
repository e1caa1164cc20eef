//! Numbers as they are meant.
ghost use Rattle.std.specs.Prelude.{false};
ghost use Rattle.nom.specs.Texts.{Parses};
ghost use Rattle.example_json.specs.Numbers.{integer_of};

use crate::scalars::Answer;
use nom::Parser;
use nom::branch::alt;
use nom::bytes::tag;
use nom::character::{char, digit1, i64};
use nom::combinator::{all_consuming, opt, peek};
use nom::sequence::{pair, preceded};

/// The integer that a number is, as it is written:
///
/// ```text
/// integer = '-'? ('0' | digit+)
/// ```
///
/// A number with a fraction or an exponent is refused with `Eof` at its first character after the digits, also where its
/// value is whole; one that doesn't fit an `i64` is refused with `Digit`.
pub fn integer<'a>(number: &'a str) -> Answer<'a, i64>
    ensures { Parses integer_of false number.entry result }
{
    let whole = pair(opt(char('-')), alt((tag("0"), digit1())));
    preceded(peek(all_consuming(whole)), i64()).parse_complete(number)
}
