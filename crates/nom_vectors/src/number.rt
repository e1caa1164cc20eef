//! Rows of numbers.

use crate::answers::{Answers, accepts, answers_of, fails, needs, of_function, refuses};
use nom::bytes::{tag, take};
use nom::error::{Error, ErrorKind};
use nom::number::{be_i24, be_u16, complete, streaming};
use nom::sequence::terminated;
use std::alloc::Global;

/// `terminated((be_u16(), take(3)), tag("fg"))`.
fn number_and_slice(alloc: Global, input: &[u8]) -> Answers<&[u8], (u16, &[u8])> {
    let shape = terminated((be_u16::<_, Error<&[u8]>>(), take(3usize)), tag(&b"fg"[..]));
    answers_of(alloc, shape, input)
}

/// `terminated((be_u16(), take(3)), tag("fg"))` on `abcdefgh`: rest `h`, value (0x6162, `cde`).
pub fn row_1(alloc: Global) -> bool {
    let found = number_and_slice(alloc, b"abcdefgh");
    match found.streaming {
        Ok((rest, (number, slice))) => rest == b"h".as_slice()
            && number == 0x6162
            && slice == b"cde".as_slice()
            && found.grows,
        Err(_) => false,
    }
}

/// Whether `terminated((be_u16(), take(3)), tag("fg"))` needs that many bytes more.
fn needs_bytes(alloc: Global, input: &[u8], size: usize) -> bool {
    let found = number_and_slice(alloc, input);
    found.grows && needs(found.streaming, Some(size))
}

/// The same on `abcd`: Incomplete 1; on `abcde`: Incomplete 2; on `abcdejk`: Error Tag at `jk`.
pub fn row_2(alloc: Global) -> bool {
    let refused = number_and_slice(alloc, b"abcdejk");
    needs_bytes(alloc, b"abcd", 1)
        && needs_bytes(alloc, b"abcde", 2)
        && refuses(refused.streaming, ErrorKind::Tag, b"jk")
        && refused.grows
}

/// `streaming::recognize_float_or_exceptions`.
fn float(alloc: Global, input: &str) -> Answers<&str, &str> {
    let shape = streaming::recognize_float_or_exceptions::<&str, Error<&str>>;
    of_function(alloc, shape, input)
}

/// Streaming `recognize_float_or_exceptions`: on `inf` Incomplete 5; on `inf;` rest `;`, output `inf`; on
/// `infinity` rest empty, output `infinity`.
pub fn row_10(alloc: Global) -> bool {
    let open = float(alloc, "inf");
    let closed = float(alloc, "inf;");
    let long = float(alloc, "infinity");
    needs(open.streaming, Some(5))
        && open.grows
        && accepts(closed.streaming, b";", b"inf")
        && closed.grows
        && accepts(long.streaming, b"", b"infinity")
        && long.grows
}

/// `complete::hex_u32` on `00c5a31be2;`: rest `e2;`, 12952347. `be_i24` on [0xED, 0xCB, 0xAA]: -1193046.
pub fn row_22(alloc: Global) -> bool {
    let is_hex = match complete::hex_u32::<_, Error<&str>>("00c5a31be2;") {
        Ok((rest, number)) => rest == "e2;" && number == 12952347,
        Err(_) => false,
    };
    let bytes = [0xED, 0xCB, 0xAA];
    let found = answers_of(alloc, be_i24::<_, Error<&[u8]>>(), bytes.as_slice());
    match (found.streaming, found.complete) {
        (Ok((_, streamed)), Ok((_, number))) => {
            is_hex && number == -1193046 && streamed == number && found.grows
        }
        _ => false,
    }
}

/// Whether the parts are these, with the rest `;`.
fn are_parts(input: &str, sign: bool, integer: &str, fraction: &str, power: i32) -> bool {
    match complete::recognize_float_parts::<_, Error<&str>>(input) {
        Ok((rest, parts)) => {
            rest == ";"
                && parts.0 == sign
                && parts.1 == integer
                && parts.2 == fraction
                && parts.3 == power
        }
        Err(_) => false,
    }
}

/// `complete::recognize_float_parts`: on `-012.3400e5;` rest `;`, (false, `12`, `34`, 5); on `0.00;` rest `;`,
/// (true, `0`, `0`, 0). `complete::recognize_float` on `-1.234E-`: Failure Digit at the empty end.
pub fn row_26() -> bool {
    are_parts("-012.3400e5;", false, "12", "34", 5)
        && are_parts("0.00;", true, "0", "0", 0)
        && fails(
            complete::recognize_float::<_, Error<&str>>("-1.234E-"),
            ErrorKind::Digit,
            b"",
        )
}
