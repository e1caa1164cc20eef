//! Texts in brackets, which may hold such texts, for any error type: what nom writes as functions that are generic over it.
ghost use Rattle.std.specs.Prelude.{false};
ghost use Rattle.nom.specs.Words.{Parses, layer_at, texts_with};
ghost use Rattle.example_recursion.specs.Comments.{comment_of, comments_of};

use nom::branch::alt;
use nom::bytes::is_not;
use nom::character::char;
use nom::error::ParseError;
use nom::recursion::{Layer, parse_in, recursive};
use nom::sequence::delimited;
use nom::{Complete, IResult, IsStreaming, Parser};
use std::marker::PhantomData;

/// The grammar of comments.
#[derive(Drop)]
pub struct Comments<E> {
    pub of: PhantomData<E>,
}

impl<'a, E: ParseError<&'a str>> Layer<&'a str> for Comments<E> {
    type Output = &'a str;

    type Error = E;

    ghost layer_of = { λ _. layer_at (texts_with E.errors) comment_of };

    fn layer<S: IsStreaming, P: Parser<&'a str, Output = &'a str, Error = E> + Copy>(
        &self,
        inner: P,
        input: &'a str,
    ) -> IResult<&'a str, &'a str, E> {
        parse_in::<S, _, _>(
            alt((delimited(char('('), inner, char(')')), is_not("()"))),
            input,
        )
    }
}

/// The text in brackets, of at most 64 layers, of which the text is one.
pub fn comment<'a, E: ParseError<&'a str>>(input: &'a str) -> IResult<&'a str, &'a str, E>
    ensures { Parses (texts_with E.errors) (comments_of 64) false input.entry result }
{
    recursive::<Complete, _, _>(&Comments::<E> { of: PhantomData }, 64, input)
}
