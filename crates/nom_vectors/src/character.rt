//! Rows of characters and decimal integers.
ghost use Rattle.nom_internal.specs.Prelude.{text_model};
ghost use Rattle.nom_calls.specs.Growing.{AreCuts};

use crate::answers::{Answers, answers_of, needs, of_function, refuses};
use nom::character::{char, one_of, streaming};
use nom::error::{Error, ErrorKind};
use nom::multi::many0;
use nom::sequence::terminated;
use nom::{IResult, parse_growing};
use std::alloc::Global;

/// `char('é')` on the bytes `[0xE9, 0x41]`: rest `[0x41]`, value `é`; `one_of(&b"a"[..])` on the text `š`:
/// Error OneOf at `š`.
pub fn row_11(alloc: Global) -> bool {
    let bytes = [0xE9, 0x41];
    let one = answers_of(alloc, char::<_, Error<&[u8]>>('é'), bytes.as_slice());
    let is_read = match one.streaming {
        Ok((rest, c)) => c == 'é' && rest == &[0x41][..] && one.grows,
        Err(_) => false,
    };
    let set = answers_of(alloc, one_of::<_, _, Error<&str>>(&b"a"[..]), "š");
    is_read && refuses(set.streaming, ErrorKind::OneOf, "š".as_bytes()) && set.grows
}

/// `character::streaming::i8`.
fn small(alloc: Global, input: &str) -> Answers<&str, i8> {
    of_function(alloc, streaming::i8::<&str, Error<&str>>, input)
}

/// `character::streaming::i8`: on `-128;` rest `;`, -128; on `-129;` Error Digit at `-129;`; on `-12`
/// Incomplete 1.
pub fn row_17(alloc: Global) -> bool {
    let found = small(alloc, "-128;");
    let refused = small(alloc, "-129;");
    let open = small(alloc, "-12");
    let is_read = match found.streaming {
        Ok((rest, number)) => rest == ";" && number == -128 && found.grows,
        Err(_) => false,
    };
    is_read
        && refuses(refused.streaming, ErrorKind::Digit, b"-129;")
        && refused.grows
        && needs(open.streaming, Some(1))
        && open.grows
}

/// Whether the rest is `X` and the items are `a`, `a`.
fn is_two_letters(answer: IResult<&str, Vec<char, Global>>) -> bool {
    match answer {
        Ok((rest, items)) => rest == "X" && items.as_slice() == &['a', 'a'][..],
        Err(_) => false,
    }
}

/// Whether a list of `a` with `b` after it is decided in `aabX` at this cut, with the rest `X` and two items.
fn grows(alloc: Global, input: &str, cuts: &[usize], index: usize) -> bool
    requires { AreCuts text_model input cuts.now }
{
    let letters = many0(alloc, char::<_, Error<&str>>('a'));
    let grown = parse_growing(terminated(letters, char('b')), input, cuts);
    grown.index == index && is_two_letters(grown.result)
}

/// `parse_growing(terminated(many0(char('a')), char('b')), "aabX", cuts)`: cuts `[0, 1, 2, 3]` give at 3;
/// `[1, 3, 4]` give at 1; none give at 0. Each time rest `X`, items `a`, `a`.
pub fn row_18(alloc: Global) -> bool {
    grows(alloc, "aabX", &[0, 1, 2, 3], 3)
        && grows(alloc, "aabX", &[1, 3, 4], 1)
        && grows(alloc, "aabX", &[], 0)
}
