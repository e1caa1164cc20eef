//! Strings as they are meant: each escape is the character that it stands for.
ghost use Rattle.std.specs.Prelude.{◌≡◌, ◌<◌, ◌≤◌, ◌^◌, false, IfOk};
ghost use Rattle.std.specs.Char.{digit_value};
ghost use Rattle.nom.specs.Texts.{Parses};
ghost use Rattle.example_json.specs.Strings.{IsAlone, IsJoined, IsLent, decoded_of, four_of, meant_of, unescaped_of};

use crate::scalars::{Answer, is_hex, is_plain};
use nom::branch::alt;
use nom::bytes::{escaped_transform, tag, take_while, take_while_m_n, take_while1};
use nom::character::{char, one_of};
use nom::combinator::{all_consuming, map, map_opt};
use nom::error::Error;
use nom::sequence::{pair, preceded};
use nom::{Complete, Items, Parser, parse_in};
use std::alloc::Allocator;
use std::borrow::CowStr;

/// The character that a letter after a backslash stands for.
fn meant(letter: char) -> char
    ensures { result ≡ meant_of letter }
{
    match letter {
        'b' => '\u{8}',
        'f' => '\u{c}',
        'n' => '\n',
        'r' => '\r',
        't' => '\t',
        _ => letter,
    }
}

/// The number of a digit or a letter, and 36 for any other byte.
fn digit(byte: u8) -> u32
    ensures value { result ≡ digit_value byte }
    ensures small { result ≤ 36 }
{
    char::from(byte).to_digit(36).unwrap_or(36)
}

/// The number that four digits in base 16 write. Its contract speaks of the text as a parser sees it.
fn four(digits: &str) -> u32
    ensures value { result ≡ four_of digits.entry }
    ensures small { result < 2 ^ 18 }
{
    match digits.as_bytes() {
        [first, second, third, last] => {
            4096 * digit(*first) + 256 * digit(*second) + 16 * digit(*third) + digit(*last)
        }
        _ => 0,
    }
}

/// The character of a number; none of a surrogate.
fn alone(digits: &str) -> Option<char>
    ensures { IsAlone digits.entry result }
{
    char::from_u32(four(digits))
}

/// The character of a high surrogate and a low one; none of other numbers.
fn joined(digits: (&str, &str)) -> Option<char>
    ensures { IsJoined digits.entry result }
{
    let (high, low) = digits;
    let high = four(high);
    let low = four(low);
    if high < 0xD800 || high >= 0xDC00 || low < 0xDC00 || low >= 0xE000 {
        return None;
    }
    char::from_u32(0x10000 + 1024 * (high - 0xD800) + (low - 0xDC00))
}

/// What a string with escapes means.
fn unescaped<'a, A: Allocator + Copy>(alloc: A, written: &'a str) -> Answer<'a, String<A>>
    ensures { Parses unescaped_of false written.entry result }
{
    let letter = map(one_of("\"\\/bfnrt"), meant);
    let alone = map_opt(take_while_m_n(4, 4, is_hex), alone);
    let low = preceded(tag("\\u"), take_while_m_n(4, 4, is_hex));
    let joined = map_opt(pair(take_while_m_n(4, 4, is_hex), low), joined);
    let escape = alt((letter, preceded(char('u'), alt((alone, joined)))));
    let text = escaped_transform(alloc, take_while1(is_plain), '\\', escape);
    parse_in::<Complete, _, _>(all_consuming(text), written)
}

/// What a string means, as it is written between its quotes:
///
/// ```text
/// string = (plain | '\' escape)*
/// escape = one of '"\/bfnrt' | 'u' (four | high '\u' low)
/// four   = digit digit digit digit
/// ```
///
/// A `four` is the number of a character, in base 16; `high` and `low` are those of the two halves, from `D800` and from
/// `DC00` on, that stand for one character above `FFFF`. Half a pair alone is no character and is refused: by the grammar
/// of JSON it may be written, but no text can hold it.
///
/// A string without escapes is given as it stands; else the text takes its memory from `alloc`, and where there is none the
/// answer is `OutOfMemory`. What a string can't be is refused at its place, too: what `json` gives as one never is but for
/// half a pair.
pub fn decoded<'a, A: Allocator + Copy>(alloc: A, written: &'a str) -> Answer<'a, CowStr<'a, A>>
    ensures shown { Parses decoded_of false written.entry result }
    ensures lent { IfOk result (λ a. IsLent written.entry a.1) }
{
    written.known();
    let mut plain = take_while::<_, &'a str, Error<&'a str>>(is_plain);
    let (rest, text) = plain.parse_complete(written)?;
    if rest.is_empty() {
        text.known();
        return Ok((rest, CowStr::Borrowed(text)));
    }
    let (rest, text) = unescaped(alloc, written)?;
    Ok((rest, CowStr::Owned(text)))
}
