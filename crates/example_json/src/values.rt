//! Values, which hold values: functions that call each other, down to a depth.
ghost use Rattle.std.specs.Prelude.{◌≡◌, ◌+◌, ◌<◌, false, IfOk};
ghost use Rattle.nom_internal.specs.Prelude.{input_len, text_model};
ghost use Rattle.nom.specs.Texts.{Parses};
ghost use Rattle.example_json.specs.Depths.{DecidesJson};
ghost use Rattle.example_json.specs.Json.{array_of, after_comma, json_of, json_text_of, list_of, member_of, object_of, refuses, scalar_of, string_of, value_of};

use crate::scalars::{Answer, number, spaces, text, token, too_deep, word};
use crate::tree::Json;
use nom::combinator::eof;
use nom::{Err, Items};
use std::alloc::Global;

/// A place in a text.
#[derive(Clone, Copy)]
pub struct Place<'a> {
    text: &'a str,
}

/// Whether an answer is a refusal, so that another branch is tried.
fn is_refused<'a, T>(answer: &Answer<'a, T>) -> bool
    ensures { result ≡ refuses answer.now }
{
    match answer {
        Err(Err::Error(_)) => true,
        _ => false,
    }
}

/// A text between quotes, as a value.
#[tactic(auto, using(nom::specs::Chains::steps))]
fn string<'a>(input: &'a str) -> Answer<'a, Json<'a>>
    ensures { Parses string_of false input.entry result }
{
    let (after, text) = text(input)?;
    let (rest, _) = spaces(after)?;
    Ok((rest, Json::String(text)))
}

/// A word, a number or a text.
fn scalar<'a>(input: &'a str) -> Answer<'a, Json<'a>>
    ensures { Parses scalar_of false input.entry result }
{
    let answer = word(input);
    if !is_refused(&answer) {
        return answer;
    }
    let answer = number(input);
    if !is_refused(&answer) {
        return answer;
    }
    string(input)
}

/// A value, in which `depth` brackets may lie in each other.
#[cycle(values)]
fn value<'a>(alloc: Global, depth: usize, input: &'a str) -> Answer<'a, Json<'a>>
    ensures { Parses (value_of depth) false input.entry result }
{
    let answer = scalar(input);
    if !is_refused(&answer) {
        return answer;
    }
    if depth == 0 {
        return too_deep(input);
    }
    let answer = array(alloc, depth - 1, input);
    if !is_refused(&answer) {
        return answer;
    }
    object(alloc, depth - 1, input)
}

/// An array, whose values hold `depth` brackets in each other.
#[cycle(values)]
#[tactic(auto, using(nom::specs::Chains::steps))]
fn array<'a>(alloc: Global, depth: usize, input: &'a str) -> Answer<'a, Json<'a>>
    ensures { Parses (array_of (value_of depth)) false input.entry result }
{
    let (inside, _) = token(input, '[')?;
    let (after, list) = elements(alloc, depth, Place { text: inside })?;
    let (rest, _) = token(after, ']')?;
    Ok((rest, Json::Array(list)))
}

/// An object, whose values hold `depth` brackets in each other.
#[cycle(values)]
#[tactic(auto, using(nom::specs::Chains::steps))]
fn object<'a>(alloc: Global, depth: usize, input: &'a str) -> Answer<'a, Json<'a>>
    ensures { Parses (object_of (value_of depth)) false input.entry result }
{
    let (inside, _) = token(input, '{')?;
    let (after, list) = members(alloc, depth, Place { text: inside })?;
    let (rest, _) = token(after, '}')?;
    Ok((rest, Json::Object(list)))
}

/// The values of an array.
#[cycle(values)]
fn elements<'a>(alloc: Global, depth: usize, start: Place<'a>) -> Answer<'a, Vec<Json<'a>>>
    ensures { Parses (list_of (value_of depth)) false start.entry.text result }
{
    start.text.known();
    let mut list = Vec::new(alloc);
    let answer = value(alloc, depth, start.text);
    if is_refused(&answer) {
        return Ok((start.text, list));
    }
    let (rest, first) = answer?;
    if list.push(first).is_err() {
        return Err(Err::OutOfMemory);
    }
    let mut place = Place { text: rest };
    loop {
        let answer = next_element(alloc, depth, place.text);
        if is_refused(&answer) {
            return Ok((place.text, list));
        }
        let (rest, item) = answer?;
        if list.push(item).is_err() {
            return Err(Err::OutOfMemory);
        }
        place = Place { text: rest };
    }
}

/// The members of an object.
#[cycle(values)]
fn members<'a>(
    alloc: Global,
    depth: usize,
    start: Place<'a>,
) -> Answer<'a, Vec<(&'a str, Json<'a>)>>
    ensures { Parses (list_of (member_of (value_of depth))) false start.entry.text result }
{
    start.text.known();
    let mut list = Vec::new(alloc);
    let answer = member(alloc, depth, start.text);
    if is_refused(&answer) {
        return Ok((start.text, list));
    }
    let (rest, first) = answer?;
    if list.push(first).is_err() {
        return Err(Err::OutOfMemory);
    }
    let mut place = Place { text: rest };
    loop {
        let answer = next_member(alloc, depth, place.text);
        if is_refused(&answer) {
            return Ok((place.text, list));
        }
        let (rest, item) = answer?;
        if list.push(item).is_err() {
            return Err(Err::OutOfMemory);
        }
        place = Place { text: rest };
    }
}

/// A comma, and a value after it.
#[cycle(values)]
#[tactic(auto, using(nom::specs::Chains::steps))]
fn next_element<'a>(alloc: Global, depth: usize, input: &'a str) -> Answer<'a, Json<'a>>
    ensures shown { Parses (after_comma (value_of depth)) false input.entry result }
    ensures moves { IfOk result (λ a. input_len text_model a.0 < input_len text_model input.entry) }
{
    let (after, _) = token(input, ',')?;
    let (rest, item) = value(alloc, depth, after)?;
    Ok((rest, item))
}

/// A comma, and a member after it.
#[cycle(values)]
#[tactic(auto, using(nom::specs::Chains::steps))]
fn next_member<'a>(alloc: Global, depth: usize, input: &'a str) -> Answer<'a, (&'a str, Json<'a>)>
    ensures shown { Parses (after_comma (member_of (value_of depth))) false input.entry result }
    ensures moves { IfOk result (λ a. input_len text_model a.0 < input_len text_model input.entry) }
{
    let (after, _) = token(input, ',')?;
    let (rest, item) = member(alloc, depth, after)?;
    Ok((rest, item))
}

/// A name and its value.
#[cycle(values)]
#[tactic(auto, using(nom::specs::Chains::steps))]
fn member<'a>(alloc: Global, depth: usize, input: &'a str) -> Answer<'a, (&'a str, Json<'a>)>
    ensures { Parses (member_of (value_of depth)) false input.entry result }
{
    let (after, name) = text(input)?;
    let (mark, _) = spaces(after)?;
    let (inside, _) = token(mark, ':')?;
    let (rest, item) = value(alloc, depth, inside)?;
    Ok((rest, (name, item)))
}

/// A value of JSON to its tree, by the grammar of RFC 8259:
///
/// ```text
/// json   = space* value
/// value  = word | number | text | array | object
/// word   = ('null' | 'true' | 'false') space*
/// number = '-'? ('0' | digit+) ('.' digit+)? (('e' | 'E') ('+' | '-')? digit+)? space*
/// text   = '"' (plain | '\' escape)* '"' space*
/// escape = one of '"\/bfnrt' | 'u' hex hex hex hex
/// array  = '[' space* (value (',' space* value)*)? ']' space*
/// object = '{' space* (member (',' space* member)*)? '}' space*
/// member = text ':' space* value
/// ```
///
/// A plain character is any but the quote, the backslash and those below a space; a space is a space, a tab, a line feed or
/// a carriage return. Half a pair of surrogates may be written alone, as the RFC has it: `decoded` refuses it. What follows
/// the value is left, so that `01` is the number `0` with `1` after it: `json_text` refuses what is left.
///
/// A text that isn't one is refused. Where more than `depth` brackets lie in each other, that is a failure with `Fail` at the
/// bracket: so `depth` bounds the stack that a hostile text can take.
#[tactic(auto, using(nom::specs::Chains::steps))]
pub fn json<'a>(alloc: Global, depth: usize, input: &'a str) -> Answer<'a, Json<'a>>
    ensures { Parses (json_of depth) false input.entry result }
{
    let (inside, _) = spaces(input)?;
    let (rest, tree) = value(alloc, depth, inside)?;
    Ok((rest, tree))
}

/// A whole JSON text to its tree: what `json` reads, with nothing after it. What is left is refused with `Eof`, where it
/// begins.
///
/// What is accepted is JSON by the rules of RFC 8259 that `nom_json` is proved by, and what is refused isn't.
pub fn json_text<'a>(alloc: Global, depth: usize, input: &'a str) -> Answer<'a, Json<'a>>
    ensures shown { Parses (json_text_of depth) false input.entry result }
    ensures decided { DecidesJson depth input.entry result }
{
    input.known();
    whole(alloc, depth, input)
}

#[tactic(auto, using(nom::specs::Chains::steps))]
fn whole<'a>(alloc: Global, depth: usize, input: &'a str) -> Answer<'a, Json<'a>>
    ensures { Parses (json_text_of depth) false input.entry result }
{
    let (after, value) = json(alloc, depth, input)?;
    let (rest, _) = eof(after)?;
    Ok((rest, value))
}
