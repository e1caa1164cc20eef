//! Texts without a value in them: white space, words, numbers and strings, of nom's parsers. Each function returns the
//! place where it ends.
ghost use Rattle.std.specs.Prelude.{◌≡◌, ℕ, ◌+◌, ◌<◌, ◌≤◌, List, None, IfErr, IfOk, length, drop};
ghost use Rattle.nom_traits.specs.Classes.{is_hex_digit_code};
ghost use Rattle.nom_json_run.specs.Grammars as Grammar;
ghost use Rattle.nom_json_run.specs.Grammars.{Parses};
ghost use Rattle.nom_json_run.specs.Json.{JsonCharacters, Leaves, after_number, after_spaces, after_word, begins, is_plain_code};
ghost use Rattle.nom_json_run.specs.Parts.{missing_of};
ghost use Rattle.nom_json_run.specs.Scans.{BeginsAs, EndsAt, IsPlaced, IsStop, Scans};

use crate::bracket::{Fault, Missing};
use nom_branch::alt;
use nom_bytes::{tag, take_while};
use nom_character::{char, digit1, multispace0, one_of, satisfy};
use nom_combinator::{cut, opt, recognize};
use nom_error::answer::{Err, IResult};
use nom_error::kind::ErrorKind;
use nom_error::value::Error;
use nom_internal::parser::Parser;
use nom_multi_fold::many0_count;
use nom_sequence::{pair, preceded, terminated};
use nom_traits::character::AsChar;

type Answer<'a> = IResult<&'a [u8], &'a [u8], Error<&'a [u8]>>;

/// Returns whether a byte is at a place.
#[inline(always)]
pub fn byte_is(bytes: &[u8], at: usize, byte: u8) -> bool
    ensures { result ≡ begins byte (drop at bytes.now) }
{
    if at < bytes.len() {
        bytes[at] == byte
    } else {
        false
    }
}

/// Returns what is missing where a parser refuses with an error of a kind.
#[inline(always)]
fn missing(kind: ErrorKind) -> Missing
    ensures { result ≡ missing_of kind }
{
    match kind {
        ErrorKind::Digit => Missing::Digit,
        ErrorKind::Satisfy => Missing::Hex,
        ErrorKind::OneOf => Missing::Escape,
        _ => Missing::Character,
    }
}

/// Returns the place of an answer: where its rest begins, or where its error is, with what is missing there.
#[inline(always)]
fn place(bytes: &[u8], answer: Answer<'_>) -> Result<usize, Fault>
    requires { IsPlaced bytes.now answer }
    ensures { IsStop bytes.now answer.entry result }
{
    match answer {
        Ok((rest, _)) => Ok(bytes.len() - rest.len()),
        Err(Err::Error(error)) | Err(Err::Failure(error)) => Err(Fault {
            at: bytes.len() - error.input.len(),
            missing: missing(error.code),
        }),
        Err(Err::Incomplete(_)) => unreachable!(),
        Err(Err::OutOfMemory) => unreachable!(),
    }
}

#[inline(always)]
fn spaces_of<'a>(input: &'a [u8]) -> Answer<'a>
    ensures { Parses Grammar.spaces_of input.entry result }
{
    multispace0().parse_complete(input)
}

/// Skips white space.
pub fn spaces(bytes: &[u8], start: usize) -> usize
    requires { start ≤ length bytes.now }
    ensures follows { (bs : List ℕ) → BeginsAs bytes.now result bs → drop result bs ≡ after_spaces (drop start bs) }
    ensures begins { start ≤ result }
    ensures within { result ≤ length bytes.now }
{
    match place(bytes, spaces_of(&bytes[start..])) {
        Ok(stop) => stop,
        Err(_) => unreachable!(),
    }
}

#[inline(always)]
fn number_of<'a>(input: &'a [u8]) -> Answer<'a>
    ensures { Parses Grammar.number_of input.entry result }
{
    let minus = opt(char::<&'a [u8], Error<&'a [u8]>>('-'));
    let whole = alt((tag("0"), digit1()));
    let fraction = opt(preceded(char('.'), cut(digit1())));
    let mark = pair(one_of("eE"), opt(one_of("+-")));
    let exponent = opt(preceded(mark, cut(digit1())));
    recognize((minus, whole, fraction, exponent)).parse_complete(input)
}

/// Skips a number.
#[inline(always)]
pub fn number(bytes: &[u8], start: usize) -> Result<usize, Fault>
    requires { start ≤ length bytes.now }
    ensures some { IfOk result (λ n. start < n) }
    ensures scans { Scans bytes.now (Leaves after_number) start result }
{
    place(bytes, number_of(&bytes[start..]))
}

#[inline(always)]
fn word_of<'a>(input: &'a [u8], wanted: &'static str) -> Answer<'a>
    ensures { Parses (Grammar.tag_of wanted.now) input.entry result }
{
    tag(wanted).parse_complete(input)
}

/// Skips a word.
#[inline(always)]
pub fn word(bytes: &[u8], start: usize, wanted: &'static str) -> Result<usize, Fault>
    requires { start ≤ length bytes.now }
    ensures length { IfOk result (λ n. start + length wanted.now ≤ n) }
    ensures scans { IfOk result (EndsAt bytes.now (Leaves (after_word wanted.now)) start) }
    ensures missing { IfErr result (λ f. (f.at ≡ start) × (f.missing ≡ Missing.Word wanted.entry) × (after_word wanted.now (drop start bytes.now) ≡ None)) }
{
    match place(bytes, word_of(&bytes[start..], wanted)) {
        Ok(stop) => Ok(stop),
        Err(_) => Err(Fault {
            at: start,
            missing: Missing::Word(wanted),
        }),
    }
}

#[inline(always)]
fn is_plain(byte: u8) -> bool
    ensures { result ≡ is_plain_code byte }
{
    byte >= b' ' && byte != b'"' && byte != b'\\'
}

#[inline(always)]
fn is_hex(c: char) -> bool
    ensures { result ≡ is_hex_digit_code c }
{
    AsChar::is_hex_digit(c)
}

fn string_of<'a>(input: &'a [u8]) -> Answer<'a>
    ensures { Parses Grammar.string_of input.entry result }
{
    let hexes = (
        satisfy(is_hex),
        satisfy(is_hex),
        satisfy(is_hex),
        satisfy(is_hex),
    );
    let long = terminated(char('u'), cut(hexes));
    let escape = preceded(char('\\'), cut(alt((long, one_of("\"\\/bfnrt")))));
    let escapes = many0_count(terminated(escape, take_while(is_plain)));
    recognize((take_while(is_plain), escapes, char('"'))).parse_complete(input)
}

/// Skips the characters of a string, after the quote that opens it, and the quote that closes it.
pub fn string(bytes: &[u8], start: usize) -> Result<usize, Fault>
    requires { start ≤ length bytes.now }
    ensures some { IfOk result (λ n. start < n) }
    ensures scans { Scans bytes.now JsonCharacters start result }
{
    place(bytes, string_of(&bytes[start..]))
}
