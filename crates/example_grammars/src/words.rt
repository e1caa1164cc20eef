//! More functions whose contracts are their grammars, over texts and over bytes.
ghost use Rattle.std.specs.Prelude.{◌≡◌, codes, false};
ghost use Rattle.nom.specs.Bytes as Bytes;
ghost use Rattle.nom.specs.Texts.{Parses, alpha1_of, char_of, map_opt_of, none_of_of, not_line_ending_of, one_of_of, pair_of, preceded_of};
ghost use Rattle.nom.specs.Texts.{satisfy_of, separated_pair_of, space0_of, tag_no_case_of, take_until_of, terminated_of, u32_of, value_of};
ghost use Rattle.example_grammars.specs.Codes.{bit_in, is_hash};

use nom::bytes::{tag_no_case, take_until};
use nom::character::{alpha1, char, none_of, not_line_ending, one_of, satisfy, space0, u32};
use nom::combinator::{map_opt, value};
use nom::multi::length_count;
use nom::number::{be_u8, be_u16};
use nom::sequence::{pair, preceded, separated_pair, terminated};
use nom::{IResult, Parser};
use std::alloc::Global;

/// A name of letters and what stands after its colon, up to the end of the line.
pub fn header(line: &str) -> IResult<&str, (&str, &str)>
    ensures { Parses (separated_pair_of alpha1_of (preceded_of (char_of 58) space0_of) not_line_ending_of) false line.entry result }
{
    let mut header = separated_pair(alpha1(), preceded(char(':'), space0()), not_line_ending());
    header.parse_complete(line)
}

/// A text up to `end`, in whichever case it is written.
pub fn before_end(input: &str) -> IResult<&str, &str>
    ensures { Parses (terminated_of (take_until_of (codes "end")) (tag_no_case_of (codes "END"))) false input.entry result }
{
    terminated(take_until("end"), tag_no_case("END")).parse_complete(input)
}

/// A number, and a 1 after it where `k` or `M` follows.
pub fn scaled(input: &str) -> IResult<&str, (u32, u8)>
    ensures { Parses (pair_of u32_of (value_of 1 (one_of_of (codes "kM")))) false input.entry result }
{
    pair(u32(), value(1u8, one_of("kM"))).parse_complete(input)
}

/// Whether a character is a hash sign.
fn hash(c: char) -> bool
    ensures { result ≡ is_hash c }
{
    c == '#'
}

/// The binary digit that a character is.
fn bit(c: char) -> Option<u32>
    ensures { result ≡ bit_in c }
{
    match c {
        '0' => Some(0),
        '1' => Some(1),
        _ => None,
    }
}

/// A binary digit after a hash sign.
pub fn numbered(input: &str) -> IResult<&str, u32>
    ensures { Parses (preceded_of (satisfy_of is_hash) (map_opt_of bit_in (none_of_of (codes "#")))) false input.entry result }
{
    preceded(satisfy(hash), map_opt(none_of("#"), bit)).parse_complete(input)
}

/// Numbers of two bytes, as many as the first byte says.
pub fn numbers(alloc: Global, input: &[u8]) -> IResult<&[u8], Vec<u16>>
    ensures { Bytes.Parses (Bytes.length_count_of Bytes.be_u8_of Bytes.be_u16_of) false input.entry result }
{
    length_count(alloc, be_u8(), be_u16()).parse_complete(input)
}
