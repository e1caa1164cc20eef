//! Functions whose contracts are their grammars, in the words of `Rattle.nom.specs.Bytes`.
ghost use Rattle.std.specs.Prelude.{codes, true, false};
ghost use Rattle.nom.specs.grammars.Bytes as Open;
ghost use Rattle.nom.specs.grammars.Bytes.{AnswersAsPart};
ghost use Rattle.nom.specs.Bytes.{Parses, alt_of, char_of, complete_func_of, delimited_of, digit1_of, is_a_of, is_not_of, many0_of, opt_of, or_of};
ghost use Rattle.nom.specs.Bytes.{preceded_of, separated_pair_of, slice_view, tag_of, take_of, terminated_of};

use nom::branch::alt;
use nom::bytes::{is_a, is_not, tag, take};
use nom::character::{char, digit1};
use nom::combinator::opt;
use nom::multi::many0;
use nom::sequence::{delimited, preceded, separated_pair, terminated};
use nom::{IResult, Parser, answer, func};
use std::alloc::Global;

/// A name in brackets, as `[name]`.
pub fn bracketed(input: &[u8]) -> IResult<&[u8], &[u8]>
    ensures { Parses (delimited_of (char_of 91) (is_not_of (codes "]")) (char_of 93)) true input.entry result }
{
    let mut name = delimited(char('['), is_not("]"), char(']'));
    name.parse(input)
}

/// Decimal digits, or a `*` that stands for any.
pub fn digits_or_any(input: &[u8]) -> IResult<&[u8], &[u8]>
    ensures { Parses (alt_of (or_of digit1_of (tag_of (codes "*")))) true input.entry result }
{
    alt((digit1(), tag("*"))).parse(input)
}

/// Signs, where there are some, and a `;` after them.
pub fn signs(input: &[u8]) -> IResult<&[u8], Option<&[u8]>>
    ensures { Parses (terminated_of (opt_of (is_a_of (codes "+-"))) (tag_of (codes ";"))) true input.entry result }
{
    let mut signs = terminated(opt(is_a("+-")), tag(";"));
    signs.parse(input)
}

/// Records, each an `R` and four bytes, until one is refused.
pub fn records(alloc: Global, input: &[u8]) -> IResult<&[u8], Vec<&[u8]>>
    ensures { Parses (many0_of (preceded_of (tag_of (codes "R")) (take_of 4))) true input.entry result }
{
    let record = preceded(tag("R"), take(4usize));
    many0(alloc, record).parse(input)
}

/// Decimal digits, by a function with its grammar as its contract.
pub fn digits(input: &[u8]) -> IResult<&[u8], &[u8]>
    ensures { Parses digit1_of false input.entry result }
{
    digit1().parse_complete(input)
}

/// Two numbers, with a dash between them: a grammar of functions.
pub fn span(input: &[u8]) -> IResult<&[u8], (&[u8], &[u8])>
    ensures { Parses (separated_pair_of (complete_func_of slice_view digit1_of) (char_of 45) (complete_func_of slice_view digit1_of)) false input.entry result }
{
    let mut span = separated_pair(func(digits), char('-'), func(digits));
    span.parse_complete(input)
}

/// Decimal digits, by a function of which the laws hold as of a parser.
pub fn number(input: &[u8]) -> IResult<&[u8], &[u8]>
    ensures { AnswersAsPart slice_view Open.digit1_of false input.entry result }
{
    answer(&mut digit1(), input)
}
