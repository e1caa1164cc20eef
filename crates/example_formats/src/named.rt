//! A name and its value, as `color=dark red`.
ghost use Rattle.std.specs.Prelude.{◌≡◌, false, chars, IfOk};
ghost use Rattle.nom.specs.Words.{Parses, texts_with, with_contexts};
ghost use Rattle.example_formats.specs.Named.{IsNamed, in_name, in_value, line_of};

use nom::bytes::take_while1;
use nom::character::char;
use nom::error::{ContextError, ParseError, context};
use nom::sequence::separated_pair;
use nom::{IResult, Parser};

/// Whether a character may stand in a name.
fn is_named(c: char) -> bool
    ensures { result ≡ in_name c }
{
    c.is_ascii_alphanumeric() || c == '_'
}

/// Whether a character may stand in a value.
fn is_value(c: char) -> bool
    ensures { result ≡ in_value c }
{
    c != '\r' && c != '\n'
}

/// A name, `=` and a value:
///
/// ```text
/// line  = name '=' value
/// name  = (letter | digit | '_')+
/// value = (any character but the end of a line)+
/// ```
///
/// The end of the line, or of the input, is left. The error type is the caller's: a `Report` of `nom_report` says where a name
/// or a value is missing.
pub fn named_value<'a, E: ParseError<&'a str> + ContextError<&'a str>>(
    input: &'a str,
) -> IResult<&'a str, (&'a str, &'a str), E>
    ensures grammar { Parses (with_contexts (texts_with E.errors) E.contexts) line_of false input.entry result }
    ensures named { IfOk result (λ a. IsNamed (chars input.now) (chars a.1.0.now) (chars a.1.1.now) (chars a.0.now)) }
{
    let name = context("a name", take_while1(is_named));
    let value = context("a value", take_while1(is_value));
    separated_pair(name, char('='), value).parse_complete(input)
}
