//! Rows of tags, slices and runs.

use crate::answers::{Answers, accepts, answers_of, needs, refuses};
use nom::bytes::{tag, take, take_while_m_n};
use nom::error::{Error, ErrorKind};
use std::alloc::Global;

/// `take_while_m_n(3, 2, digit)`.
fn digits(alloc: Global, input: &str) -> Answers<&str, &str> {
    let digits = take_while_m_n::<_, _, Error<&str>>(3, 2, |c: char| c.is_ascii_digit());
    answers_of(alloc, digits, input)
}

/// `take_while_m_n(3, 2, digit)`: on `12a` rest `a`, output `12`; on `12` streaming Incomplete 1, complete
/// Error TakeWhileMN at `12`.
pub fn row_6(alloc: Global) -> bool {
    let closed = digits(alloc, "12a");
    let open = digits(alloc, "12");
    accepts(closed.streaming, b"a", b"12")
        && accepts(closed.complete, b"a", b"12")
        && closed.grows
        && needs(open.streaming, Some(1))
        && refuses(open.complete, ErrorKind::TakeWhileMN, b"12")
        && open.grows
}

/// `tag(&[0xC3][..])`.
fn byte_tag(alloc: Global, input: &str) -> Answers<&str, &str> {
    answers_of(alloc, tag::<_, _, Error<&str>>(&[0xC3][..]), input)
}

/// `tag(&[0xC3][..])` on the text `é`: Error Tag at `é`; on the empty text streaming Incomplete 1.
pub fn row_12(alloc: Global) -> bool {
    let found = byte_tag(alloc, "é");
    let none = byte_tag(alloc, "");
    refuses(found.streaming, ErrorKind::Tag, "é".as_bytes())
        && refuses(found.complete, ErrorKind::Tag, "é".as_bytes())
        && found.grows
        && needs(none.streaming, Some(1))
        && none.grows
}

/// Streaming `take(18446744073709551615)` on three bytes: Incomplete 18446744073709551612.
pub fn row_23(alloc: Global) -> bool {
    let all = take::<_, _, Error<&[u8]>>(18446744073709551615usize);
    let found = answers_of(alloc, all, &b"abc"[..]);
    needs(found.streaming, Some(18446744073709551612)) && found.grows
}
