//! S-expressions, as `(add 1 (mul 2 3))`.
ghost use Rattle.std.specs.Prelude.{◌≡◌, false};
ghost use Rattle.nom.specs.Texts.{Parses, char_of, complete_func_of, plain_view, separated_pair_of};
ghost use Rattle.example_recursion.specs.Sexprs.{expression_of, sexpr_of};
ghost use Rattle.example_recursion.specs.declared.sexprs.Sexpr.TheVariants as Variant;

use nom::branch::alt;
use nom::character::{alphanumeric1, char};
use nom::error::Error;
use nom::multi::separated_list0;
use nom::recursion::{Layer, parse_in, recursive};
use nom::sequence::{delimited, separated_pair};
use nom::{Complete, IResult, IsStreaming, Parser, Viewed, func_in};
use std::alloc::Global;

/// A name or a number, or a list in brackets.
#[derive(Debug, Drop)]
pub enum Sexpr<'a> {
    Atom(&'a str),
    List(Vec<Sexpr<'a>>),
}

impl<'a> Viewed for Sexpr<'a> {}

fn atom<'a>(name: &'a str) -> Sexpr<'a>
    ensures { result ≡ Variant.Atom name.entry }
{
    Sexpr::Atom(name)
}

fn list<'a>(items: Vec<Sexpr<'a>>) -> Sexpr<'a>
    ensures { result ≡ Variant.List items.entry }
{
    Sexpr::List(items)
}

/// The grammar of S-expressions.
#[derive(Clone, Copy)]
pub struct Sexprs {
    pub alloc: Global,
}

impl<'a> Layer<&'a str> for Sexprs {
    type Output = Sexpr<'a>;

    type Error = Error<&'a str>;

    ghost layer_of = { λ _. sexpr_of };

    fn layer<S: IsStreaming, P: Parser<&'a str, Output = Sexpr<'a>, Error = Error<&'a str>> + Copy>(
        &self,
        inner: P,
        input: &'a str,
    ) -> IResult<&'a str, Sexpr<'a>> {
        let items = separated_list0(self.alloc, char(' '), inner);
        let bracketed = delimited(char('('), items, char(')'));
        parse_in::<S, _, _>(alt((alphanumeric1().map(atom), bracketed.map(list))), input)
    }
}

/// An S-expression of at most 64 layers, of which an atom is one.
pub fn expression<'a>(alloc: Global, input: &'a str) -> IResult<&'a str, Sexpr<'a>>
    ensures { Parses (expression_of 64) false input.entry result }
{
    recursive::<Complete, _, _>(&Sexprs { alloc }, 64, input)
}

/// Two of them, as `(a b)=(c)`: a part of a larger grammar.
pub fn equation<'a>(alloc: Global, input: &'a str) -> IResult<&'a str, (Sexpr<'a>, Sexpr<'a>)>
    ensures { Parses (separated_pair_of (complete_func_of plain_view (expression_of 64)) (char_of 61) (complete_func_of plain_view (expression_of 64)))
        false input.entry result }
{
    separated_pair(
        func_in(alloc, expression),
        char('='),
        func_in(alloc, expression),
    )
    .parse_complete(input)
}
