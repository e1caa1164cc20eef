//! Lines from a reader, in bounded memory.

use nom::bytes::{is_not, tag};
use nom::character::{char, u32};
use nom::sequence::{preceded, terminated};
use nom::{IResult, Parser};
use nom_stream::function::item_func;
use nom_stream::settings::Settings;
use nom_stream::stream::{Stop, Stream};
use std::alloc::Allocator;
use std::io::Read;

/// Parses a line `name=number`, and returns the number.
pub fn line(input: &[u8]) -> IResult<&[u8], u32> {
    let (input, _) = is_not(&b"="[..]).parse(input)?;
    terminated(preceded(char('='), u32()), tag(&b"\n"[..])).parse(input)
}

/// Adds up the numbers of the lines that `source` returns, of at most `most` lines.
pub fn total<R: Read + Drop, A: Allocator + Copy>(
    alloc: A,
    source: R,
    most: usize,
) -> Result<u64, Stop> {
    let settings = Settings {
        read: 4096,
        most: 65536,
        patient: false,
        complete: false,
    };
    let mut stream = Stream::new(alloc, source, settings);
    let mut total = 0u64;
    for _turn in 0..most {
        match stream.next_item(&mut item_func(line)) {
            Ok(Some((_, number))) => total = total.saturating_add(number as u64),
            Ok(None) => return Ok(total),
            Err(stop) => return Err(stop),
        }
    }
    Ok(total)
}
