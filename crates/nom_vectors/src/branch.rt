//! Rows of choice, permutations and tuples.

use crate::answers::{Answers, accepts, answers_of, needs, refuses};
use example_grammars::hex_color;
use nom::IResult;
use nom::branch::{alt, permutation};
use nom::bytes::tag;
use nom::character::char;
use nom::error::{Error, ErrorKind};
use std::alloc::Global;

type Fail<'a> = Error<&'a str>;

/// `alt((tag("abc"), tag("ab")))` on `ab`: streaming Incomplete 1; complete rest empty, `ab`.
pub fn row_3(alloc: Global) -> bool {
    let choice = alt((tag::<_, _, Fail>("abc"), tag::<_, _, Fail>("ab")));
    let found = answers_of(alloc, choice, "ab");
    needs(found.streaming, Some(1)) && accepts(found.complete, b"", b"ab") && found.grows
}

/// Whether nothing is left, and the outputs are `a`, `b`, `c`.
fn is_abc(answer: IResult<&str, (char, char, char)>) -> bool {
    match answer {
        Ok((rest, (a, b, c))) => rest.is_empty() && a == 'a' && b == 'b' && c == 'c',
        Err(_) => false,
    }
}

/// `permutation((char('a'), char('b'), char('c')))`.
fn parts(alloc: Global, input: &str) -> Answers<&str, (char, char, char)> {
    let parts = permutation((
        char::<_, Fail>('a'),
        char::<_, Fail>('b'),
        char::<_, Fail>('c'),
    ));
    answers_of(alloc, parts, input)
}

/// `permutation((char('a'), char('b'), char('c')))`: on `cab` rest empty, (`a`, `b`, `c`); on `ca` streaming
/// Incomplete 1; on `cax` Error Char at `x`.
pub fn row_25(alloc: Global) -> bool {
    let all = parts(alloc, "cab");
    let open = parts(alloc, "ca");
    let refused = parts(alloc, "cax");
    is_abc(all.streaming)
        && all.grows
        && needs(open.streaming, Some(1))
        && open.grows
        && refuses(refused.streaming, ErrorKind::Char, b"x")
        && refused.grows
}

/// `hex_color`, of `example_grammars`, on `#2F14DF`: rest empty, red 47, green 20, blue 223.
pub fn row_29() -> bool {
    match hex_color("#2F14DF") {
        Ok((rest, color)) => {
            rest.is_empty() && color.red == 47 && color.green == 20 && color.blue == 223
        }
        Err(_) => false,
    }
}
