//! Rows of repetition, folds and lengths.

use crate::answers::{Answers, accepts, answers_of, fails, needs, refuses};
use nom::branch::alt;
use nom::bytes::{tag, take_while};
use nom::character::char;
use nom::combinator::map;
use nom::error::{Error, ErrorKind};
use nom::multi::{
    fold_many_m_n, fold_many1, length_value, many, many_m_n, many0, many1, separated_list0,
};
use nom::number::be_u8;
use nom::{AsBytes, IResult};
use nom_combinator::left::Rest;
use std::alloc::{Allocator, Global};

type Fail<'a> = Error<&'a str>;

/// Whether a list of two of these items was accepted, with this rest.
fn is_twice<A: Allocator>(answer: IResult<&str, Vec<&str, A>>, left: &str, item: &str) -> bool {
    match answer {
        Ok((rest, list)) => {
            let both = list.as_slice() == [item, item].as_slice();
            rest == left && both
        }
        Err(_) => false,
    }
}

/// Whether an empty list was accepted, with this rest.
fn is_none<T: Drop, A: Allocator>(answer: IResult<&str, Vec<T, A>>, left: &str) -> bool {
    match answer {
        Ok((rest, list)) => rest == left && list.is_empty(),
        Err(_) => false,
    }
}

/// `separated_list0(tag(","), tag("abc"))` on `abc,abc,`: complete rest `,`, items `abc`, `abc`; streaming
/// Incomplete 3.
pub fn row_4(alloc: Global) -> bool {
    let list = separated_list0(alloc, tag::<_, _, Fail>(","), tag::<_, _, Fail>("abc"));
    let found = answers_of(alloc, list, "abc,abc,");
    let wants_more = needs(found.streaming, Some(3));
    is_twice(found.complete, ",", "abc") && wants_more && found.grows
}

/// Whether an input is refused where more may come, also item by item.
fn is_refused<I: AsBytes + Drop, O: Drop>(
    found: Answers<I, O>,
    kind: ErrorKind,
    place: &[u8],
) -> bool {
    found.grows && refuses(found.streaming, kind, place)
}

/// Whether it is refused where no more may come, too.
fn is_refused_in_both<I: AsBytes + Drop, O: Drop>(
    found: Answers<I, O>,
    kind: ErrorKind,
    place: &[u8],
) -> bool {
    let is_streaming = refuses(found.streaming, kind, place);
    let is_complete = refuses(found.complete, kind, place);
    found.grows && is_streaming && is_complete
}

/// Whether an input fails where more may come, also item by item.
fn is_failed<I: AsBytes + Drop, O: Drop>(
    found: Answers<I, O>,
    kind: ErrorKind,
    place: &[u8],
) -> bool {
    found.grows && fails(found.streaming, kind, place)
}

/// `many0(tag(""))` on `x`: Error Many0 at `x`.
pub fn row_5(alloc: Global) -> bool {
    let items = many0(alloc, tag::<_, _, Fail>(""));
    is_refused_in_both(answers_of(alloc, items, "x"), ErrorKind::Many0, b"x")
}

/// `length_value(map(char('1'), one), rest)`, where `one` answers 1, on `1é`: Error LengthValue at `é`.
pub fn row_13(alloc: Global) -> bool {
    let one = map(char::<_, Fail>('1'), |_c: char| 1usize);
    let found = answers_of(alloc, length_value(one, Rest::new()), "1é");
    is_refused_in_both(found, ErrorKind::LengthValue, "é".as_bytes())
}

/// `length_value(be_u8, take_while(alpha))` on a byte 2, `a`, `b`: streaming Error Complete at `ab`; complete
/// rest empty, `ab`.
pub fn row_14(alloc: Global) -> bool {
    let letters = take_while::<_, _, Error<&[u8]>>(|b: u8| b.is_ascii_alphabetic());
    let value = length_value(be_u8::<_, Error<&[u8]>>(), letters);
    let found = answers_of(alloc, value, &b"\x02ab"[..]);
    refuses(found.streaming, ErrorKind::Complete, b"ab")
        && accepts(found.complete, b"", b"ab")
        && found.grows
}

/// On `aa`: `many(..0, tag("a"))` leaves `aa`, with no items; `many(0..0, tag("a"))` is Failure Many and
/// `many_m_n(3, 2, tag("a"))` Failure ManyMN; `fold_many_m_n(3, 2, ..)` is Error ManyMN; each at `aa`.
pub fn row_16(alloc: Global) -> bool {
    let none = many::<_, _, _, Vec<&str>>(alloc, ..0, tag::<_, _, Fail>("a"));
    let empty = many::<_, _, _, Vec<&str>>(alloc, 0..0, tag::<_, _, Fail>("a"));
    let list = many_m_n(alloc, 3, 2, tag::<_, _, Fail>("a"));
    let count = fold_many_m_n(
        3,
        2,
        tag::<_, _, Fail>("a"),
        || 0usize,
        |n: usize, _item: &str| n.wrapping_add(1),
    );
    let none = answers_of(alloc, none, "aa");
    let is_left = is_none(none.streaming, "aa") && none.grows;
    let is_empty = is_failed(answers_of(alloc, empty, "aa"), ErrorKind::Many, b"aa");
    let is_crossed = is_failed(answers_of(alloc, list, "aa"), ErrorKind::ManyMN, b"aa");
    let is_uncounted = is_refused(answers_of(alloc, count, "aa"), ErrorKind::ManyMN, b"aa");
    is_left && is_empty && is_crossed && is_uncounted
}

/// `many1(alt((tag("a"), tag(""))))` on `ab`: Error Many0 at `b`; `fold_many1` of the same item: Error Many1 at
/// `b`.
pub fn row_24(alloc: Global) -> bool {
    let list = many1(alloc, alt((tag::<_, _, Fail>("a"), tag::<_, _, Fail>(""))));
    let count = fold_many1(
        alt((tag::<_, _, Fail>("a"), tag::<_, _, Fail>(""))),
        || 0usize,
        |n: usize, _item: &str| n.wrapping_add(1),
    );
    is_refused(answers_of(alloc, list, "ab"), ErrorKind::Many0, b"b")
        && is_refused(answers_of(alloc, count, "ab"), ErrorKind::Many1, b"b")
}
