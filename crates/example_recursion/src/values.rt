//! JSON values whose numbers are digits, and whose texts have no escapes: three rules that contain each other.
ghost use Rattle.std.specs.Prelude.{◌≡◌, false, true};
ghost use Rattle.nom.specs.Texts.{Parses};
ghost use Rattle.example_recursion.specs.Values.{json_of, jsons_of};
ghost use Rattle.example_recursion.specs.declared.values.Kind.TheVariants as Rule;
ghost use Rattle.example_recursion.specs.declared.values.Json.TheVariants as Variant;

use nom::branch::alt;
use nom::bytes::{is_not, tag};
use nom::character::{char, digit1};
use nom::error::Error;
use nom::multi::separated_list0;
use nom::recursion::{OfRule, Rules, parse_in, recursive_rule};
use nom::sequence::{delimited, separated_pair};
use nom::{Complete, IResult, IsStreaming, Parser, Viewed};
use std::alloc::Global;

/// A value.
#[derive(Debug, Drop)]
pub enum Json<'a> {
    Null,
    Bool(bool),
    Number(&'a str),
    Text(&'a str),
    Array(Vec<Json<'a>>),
    Object(Vec<(&'a str, Json<'a>)>),
}

impl<'a> Viewed for Json<'a> {}

fn null<'a>(_word: &'a str) -> Json<'a>
    ensures { result ≡ Variant.Null }
{
    Json::Null
}

fn yes<'a>(_word: &'a str) -> Json<'a>
    ensures { result ≡ Variant.Bool true }
{
    Json::Bool(true)
}

fn no<'a>(_word: &'a str) -> Json<'a>
    ensures { result ≡ Variant.Bool false }
{
    Json::Bool(false)
}

fn number<'a>(digits: &'a str) -> Json<'a>
    ensures { result ≡ Variant.Number digits.entry }
{
    Json::Number(digits)
}

fn text<'a>(letters: &'a str) -> Json<'a>
    ensures { result ≡ Variant.Text letters.entry }
{
    Json::Text(letters)
}

fn array<'a>(items: Vec<Json<'a>>) -> Json<'a>
    ensures { result ≡ Variant.Array items.entry }
{
    Json::Array(items)
}

fn object<'a>(members: Vec<(&'a str, Json<'a>)>) -> Json<'a>
    ensures { result ≡ Variant.Object members.entry }
{
    Json::Object(members)
}

/// The rules of values.
#[derive(Clone, Copy)]
pub enum Kind {
    Value,
    Array,
    Object,
}

/// The grammar of values.
#[derive(Clone, Copy)]
pub struct Values {
    pub alloc: Global,
}

impl<'a> Rules<&'a str> for Values {
    type Rule = Kind;

    type Output = Json<'a>;

    type Error = Error<&'a str>;

    ghost rule_of = { λ _. json_of };

    fn rule<
        S: IsStreaming,
        P: Parser<&'a str, Output = Json<'a>, Error = Error<&'a str>> + OfRule<Kind>,
    >(&self, rule: Kind, inner: P, input: &'a str) -> IResult<&'a str, Json<'a>> {
        match rule {
            Kind::Value => {
                let any = (
                    tag("null").map(null),
                    tag("true").map(yes),
                    tag("false").map(no),
                    digit1().map(number),
                    delimited(char('"'), is_not("\""), char('"')).map(text),
                    inner.of(Kind::Array),
                    inner.of(Kind::Object),
                );
                parse_in::<S, _, _>(alt(any), input)
            }
            Kind::Array => {
                let items = separated_list0(self.alloc, char(','), inner.of(Kind::Value));
                let bracketed = delimited(char('['), items, char(']'));
                parse_in::<S, _, _>(bracketed.map(array), input)
            }
            Kind::Object => {
                let name = delimited(char('"'), is_not("\""), char('"'));
                let member = separated_pair(name, char(':'), inner.of(Kind::Value));
                let members = separated_list0(self.alloc, char(','), member);
                let bracketed = delimited(char('{'), members, char('}'));
                parse_in::<S, _, _>(bracketed.map(object), input)
            }
        }
    }
}

/// A value of at most 64 rules in each other.
pub fn parse_value<'a>(alloc: Global, input: &'a str) -> IResult<&'a str, Json<'a>>
    ensures { Parses (jsons_of 64 Rule.Value) false input.entry result }
{
    recursive_rule::<Complete, _, _>(&Values { alloc }, Kind::Value, 64, input)
}
