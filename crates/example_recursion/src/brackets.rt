//! Digits in brackets, as `((12))`.
ghost use Rattle.std.specs.Prelude.{false, true};
ghost use Rattle.nom.specs.Bytes.{Parses};
ghost use Rattle.example_recursion.specs.Brackets.{bracket_of, brackets_of};

use nom::branch::alt;
use nom::character::{char, digit1};
use nom::error::Error;
use nom::recursion::{Layer, parse_in, recursive};
use nom::sequence::delimited;
use nom::{Complete, IResult, IsStreaming, Parser, Streaming};

/// The grammar of digits in brackets.
#[derive(Clone, Copy)]
pub struct Brackets;

impl<'a> Layer<&'a [u8]> for Brackets {
    type Output = &'a [u8];

    type Error = Error<&'a [u8]>;

    ghost layer_of = { λ _. bracket_of };

    fn layer<
        S: IsStreaming,
        P: Parser<&'a [u8], Output = &'a [u8], Error = Error<&'a [u8]>> + Copy,
    >(&self, inner: P, input: &'a [u8]) -> IResult<&'a [u8], &'a [u8]> {
        parse_in::<S, _, _>(
            alt((delimited(char('('), inner, char(')')), digit1())),
            input,
        )
    }
}

/// Digits in brackets, in at most 64 layers, of which the digits are one. No more input comes.
pub fn digits_in_brackets(input: &[u8]) -> IResult<&[u8], &[u8]>
    ensures { Parses (brackets_of false 64) false input.entry result }
{
    recursive::<Complete, _, _>(&Brackets, 64, input)
}

/// The same. More input may come.
pub fn digits_that_come(input: &[u8]) -> IResult<&[u8], &[u8]>
    ensures { Parses (brackets_of true 64) true input.entry result }
{
    recursive::<Streaming, _, _>(&Brackets, 64, input)
}
