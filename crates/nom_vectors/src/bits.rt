//! Rows of bits.

use crate::answers::{Answers, answers_of, fails, needs};
use nom::bits::{bits, bytes, complete, take};
use nom::bytes::streaming;
use nom::error::{Error, ErrorKind};
use nom::{Err, IResult, Parser, parse_growing};
use std::alloc::Global;

type Bad<'a> = Error<&'a [u8]>;

type BadBits<'a> = Error<(&'a [u8], usize)>;

/// Complete bit `take(24)` at ([0x12, 0x34, 0xFF, 0xFF], 4): rest ([0xFF], 4), value 0x234FFF.
pub fn row_7() -> bool {
    let mut field = complete::take::<&[u8], u32, u8, BadBits<'_>>(24);
    match field.parse((&[0x12, 0x34, 0xFF, 0xFF], 4)) {
        Ok(((rest, position), value)) => rest == [0xFF].as_slice()
            && position == 4
            && value == 0x234FFF,
        Err(_) => false,
    }
}

/// `bits((take(4), take(8)))`.
fn two_fields(alloc: Global, input: &[u8]) -> Answers<&[u8], (u8, u8)> {
    let fields = bits((take::<&[u8], _, u8, BadBits<'_>>(4), take(8u8)));
    answers_of(alloc, fields, input)
}

/// Whether an answer is Incomplete 2, with its text.
fn asks_for_two(alloc: Global, answer: IResult<&[u8], (u8, u8), Bad<'_>>) -> bool {
    match answer {
        Err(error) => match format!(in alloc; "{error}") {
            Ok(text) => text.as_str() == "Parsing requires 2 bytes/chars",
            Err(_) => false,
        },
        Ok(_) => false,
    }
}

/// `bits((take(4), take(8)))` streaming on [0x12]: Incomplete 2, with its text; on [0x12, 0x34, 0x56, 0x78]: rest
/// [0x56, 0x78], values 0x01, 0x23.
pub fn row_8(alloc: Global) -> bool {
    let open = two_fields(alloc, &[0x12]);
    let found = two_fields(alloc, &[0x12, 0x34, 0x56, 0x78]);
    match found.streaming {
        Ok((rest, values)) => rest == [0x56, 0x78].as_slice()
            && values == (0x01, 0x23)
            && found.grows
            && open.grows
            && asks_for_two(alloc, open.streaming),
        Err(_) => false,
    }
}

/// `bits(bytes(bytes::streaming::take(2^61)))`: on no bytes Failure TooLarge, on one Incomplete of 2^61;
/// by `parse_growing` on one byte with the cuts [0], at 0, the same Failure.
pub fn row_9() -> bool {
    let many = streaming::take::<usize, &[u8], Bad<'_>>(2305843009213693952);
    let mut parser = bits(bytes::<_, BadBits<'_>>(many));
    let none = fails(parser.parse(&b""[..]), ErrorKind::TooLarge, b"");
    let one = needs(parser.parse(&b"a"[..]), Some(2305843009213693952));
    let grown = parse_growing(parser, &b"a"[..], &[0]);
    none && one && grown.index == 0 && fails(grown.result, ErrorKind::TooLarge, b"")
}
