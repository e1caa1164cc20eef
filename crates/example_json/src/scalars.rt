//! Parts with no value in them: words, numbers, texts, white space and the characters between values. White space after
//! each but a text is taken with it.
ghost use Rattle.std.specs.Prelude.{◌≡◌, false};
ghost use Rattle.nom.specs.Texts.{Parses};
ghost use Rattle.nom_traits.specs.Classes.{is_hex_digit_code};
ghost use Rattle.nom_json_run.specs.Json.{is_plain_code};
ghost use Rattle.example_json.specs.Scalars.{characters_of, deep_of, digits_of, literal_of, number_of, spaces_of, text_of, token_of, word_of};

use crate::tree::{Json, no, null, yes};
use nom::branch::alt;
use nom::bytes::{tag, take_while};
use nom::character::{char, digit1, multispace0, one_of, satisfy};
use nom::combinator::{cut, fail, map, opt, peek, recognize};
use nom::error::Error;
use nom::multi::many0_count;
use nom::sequence::{pair, preceded, terminated};
use nom::{AsChar, IResult, Parser};

pub type Answer<'a, T> = IResult<&'a str, T, Error<&'a str>>;

/// White space: spaces, tabs, and the ends of lines.
pub fn spaces<'a>(input: &'a str) -> Answer<'a, &'a str>
    ensures { Parses spaces_of false input.entry result }
{
    multispace0().parse_complete(input)
}

/// A character.
pub fn token<'a>(input: &'a str, wanted: char) -> Answer<'a, char>
    ensures { Parses (token_of wanted) false input.entry result }
{
    terminated(char(wanted), multispace0()).parse_complete(input)
}

fn literal<'a>(input: &'a str) -> Answer<'a, Json<'a>>
    ensures { Parses literal_of false input.entry result }
{
    let null = map(tag::<_, _, Error<&'a str>>("null"), null);
    let yes = map(tag::<_, _, Error<&'a str>>("true"), yes);
    let no = map(tag::<_, _, Error<&'a str>>("false"), no);
    alt((null, yes, no)).parse_complete(input)
}

/// `null`, `true` and `false`.
#[tactic(auto, using(nom::specs::Chains::steps))]
pub fn word<'a>(input: &'a str) -> Answer<'a, Json<'a>>
    ensures { Parses word_of false input.entry result }
{
    let (after, word) = literal(input)?;
    let (rest, _) = spaces(after)?;
    Ok((rest, word))
}

fn digits<'a>(input: &'a str) -> Answer<'a, &'a str>
    ensures { Parses digits_of false input.entry result }
{
    let minus = opt(char::<&'a str, Error<&'a str>>('-'));
    let whole = alt((tag("0"), digit1()));
    let fraction = opt(preceded(char('.'), digit1()));
    let mark = pair(one_of("eE"), opt(one_of("+-")));
    let exponent = opt(preceded(mark, digit1()));
    recognize((minus, whole, fraction, exponent)).parse_complete(input)
}

/// A number, as it is written.
#[tactic(auto, using(nom::specs::Chains::steps))]
pub fn number<'a>(input: &'a str) -> Answer<'a, Json<'a>>
    ensures { Parses number_of false input.entry result }
{
    let (after, digits) = digits(input)?;
    let (rest, _) = spaces(after)?;
    Ok((rest, Json::Number(digits)))
}

/// Whether a character may stand in a text as itself.
pub fn is_plain(c: char) -> bool
    ensures { result ≡ is_plain_code c }
{
    c >= ' ' && c != '"' && c != '\\'
}

/// Whether a character is a digit in base 16.
pub fn is_hex(c: char) -> bool
    ensures { result ≡ is_hex_digit_code c }
{
    AsChar::is_hex_digit(c)
}

/// What stands between quotes, with its escapes as they are.
fn characters<'a>(input: &'a str) -> Answer<'a, &'a str>
    ensures { Parses characters_of false input.entry result }
{
    let digits = (
        satisfy(is_hex),
        satisfy(is_hex),
        satisfy(is_hex),
        satisfy(is_hex),
    );
    let long = terminated(char('u'), digits);
    let escape = preceded(char('\\'), alt((long, one_of("\"\\/bfnrt"))));
    let escapes = many0_count(terminated(escape, take_while(is_plain)));
    recognize(pair(take_while(is_plain), escapes)).parse_complete(input)
}

/// A text between quotes.
#[tactic(auto, using(nom::specs::Chains::steps))]
pub fn text<'a>(input: &'a str) -> Answer<'a, &'a str>
    ensures { Parses text_of false input.entry result }
{
    let (inside, _) = char('"').parse_complete(input)?;
    let (after, text) = characters(inside)?;
    let (rest, _) = char('"').parse_complete(after)?;
    Ok((rest, text))
}

/// A bracket that lies in too many others: a failure. Else it is refused.
pub fn too_deep<'a>(input: &'a str) -> Answer<'a, Json<'a>>
    ensures { Parses deep_of false input.entry result }
{
    let bracket = peek(one_of::<&'a str, &'a str, Error<&'a str>>("[{"));
    preceded(bracket, cut(fail())).parse_complete(input)
}
