//! Grammars of runs of a class of characters, of which some may be empty, and of runs up to a character or a text.
ghost use Rattle.std.specs.Prelude.{◌≡◌, codes, false};
ghost use Rattle.nom.specs.Bytes as Bytes;
ghost use Rattle.nom.specs.Texts.{Parses, alpha0_of, alpha1_of, alphanumeric0_of, alphanumeric1_of, alt_of, bin_digit0_of, bin_digit1_of, char_of};
ghost use Rattle.nom.specs.Texts.{delimited_of, digit0_of, hex_digit0_of, hex_digit1_of, multispace0_of, multispace1_of, oct_digit0_of};
ghost use Rattle.nom.specs.Texts.{oct_digit1_of, or_of, pair_of, preceded_of, recognize_of, separated_pair_of, space1_of, tag_of, take_till1_of};
ghost use Rattle.nom.specs.Texts.{take_till_of, take_until1_of, take_while_of, tuple_of_three};
ghost use Rattle.example_grammars.specs.Codes.{is_comma};

use nom::branch::alt;
use nom::bytes::{tag, take_till, take_till1, take_until1, take_while};
use nom::character::{
    alpha0, alpha1, alphanumeric0, alphanumeric1, bin_digit0, bin_digit1, char, digit0, hex_digit0,
    hex_digit1, multispace0, multispace1, oct_digit0, oct_digit1, space1,
};
use nom::combinator::recognize;
use nom::number::{be_i16, le_i32};
use nom::sequence::{delimited, pair, preceded, separated_pair};
use nom::{IResult, Parser};

/// A name: a letter, and then letters and digits.
pub fn name(input: &str) -> IResult<&str, &str>
    ensures { Parses (recognize_of (pair_of alpha1_of alphanumeric0_of)) false input.entry result }
{
    recognize(pair(alpha1(), alphanumeric0())).parse_complete(input)
}

/// The digits of an amount and its unit. Both may be missing.
pub fn amount(input: &str) -> IResult<&str, (&str, &str)>
    ensures { Parses (pair_of digit0_of alpha0_of) false input.entry result }
{
    pair(digit0(), alpha0()).parse_complete(input)
}

/// The digits of a number in base 2, 8 or 16, after the mark of the base.
pub fn based(input: &str) -> IResult<&str, &str>
    ensures { Parses (alt_of (or_of (or_of (preceded_of (tag_of (codes "0b")) bin_digit1_of) (preceded_of (tag_of (codes "0o")) oct_digit1_of))
        (preceded_of (tag_of (codes "0x")) hex_digit1_of))) false input.entry result }
{
    let binary = preceded(tag("0b"), bin_digit1());
    let octal = preceded(tag("0o"), oct_digit1());
    alt((binary, octal, preceded(tag("0x"), hex_digit1()))).parse_complete(input)
}

/// The digits of three masks with slashes between them, in bases 16, 8 and 2. Each may be missing.
pub fn masks(input: &str) -> IResult<&str, (&str, &str, &str)>
    ensures { Parses (tuple_of_three hex_digit0_of (preceded_of (char_of 47) oct_digit0_of) (preceded_of (char_of 47) bin_digit0_of))
        false input.entry result }
{
    let octal = preceded(char('/'), oct_digit0());
    (hex_digit0(), octal, preceded(char('/'), bin_digit0())).parse_complete(input)
}

/// Two words of a line.
pub fn two_words(line: &str) -> IResult<&str, (&str, &str)>
    ensures { Parses (separated_pair_of alphanumeric1_of space1_of alphanumeric1_of) false line.entry result }
{
    separated_pair(alphanumeric1(), space1(), alphanumeric1()).parse_complete(line)
}

/// A word with white space after it, and perhaps before it, where ends of lines count as such.
pub fn word(input: &str) -> IResult<&str, &str>
    ensures { Parses (delimited_of multispace0_of alphanumeric1_of multispace1_of) false input.entry result }
{
    delimited(multispace0(), alphanumeric1(), multispace1()).parse_complete(input)
}

/// A comment that isn't empty.
pub fn comment(input: &str) -> IResult<&str, &str>
    ensures { Parses (delimited_of (tag_of (codes "/*")) (take_until1_of (codes "*/")) (tag_of (codes "*/"))) false input.entry result }
{
    delimited(tag("/*"), take_until1("*/"), tag("*/")).parse_complete(input)
}

/// Whether a character is a comma.
fn comma(c: char) -> bool
    ensures { result ≡ is_comma c }
{
    c == ','
}

/// The first field of a line, the commas after it, and the second field. The first one isn't empty.
pub fn fields(line: &str) -> IResult<&str, (&str, &str, &str)>
    ensures { Parses (tuple_of_three (take_till1_of is_comma) (take_while_of is_comma) (take_till_of is_comma)) false line.entry result }
{
    (take_till1(comma), take_while(comma), take_till(comma)).parse_complete(line)
}

/// A number of two bytes, the highest first, and one of four, the lowest first.
pub fn point(input: &[u8]) -> IResult<&[u8], (i16, i32)>
    ensures { Bytes.Parses (Bytes.pair_of Bytes.be_i16_of Bytes.le_i32_of) false input.entry result }
{
    pair(be_i16(), le_i32()).parse_complete(input)
}
