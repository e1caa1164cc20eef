//! Frames, with nothing written of what they mean: a length of two bytes, highest first, and that many bytes.

use nom::multi::length_data;
use nom::number::be_u16;
use nom::{IResult, Parser};
use nom_stream::function::item_func;
use nom_stream::settings::Settings;
use nom_stream::stream::{Stop, Stream};
use std::alloc::Allocator;
use std::io::Read;

/// A frame, by how many bytes it has after its length.
pub fn frame(input: &[u8]) -> IResult<&[u8], usize> {
    let (rest, data) = length_data(be_u16()).parse(input)?;
    Ok((rest, data.len()))
}

const SETTINGS: Settings = Settings {
    read: 4096,
    most: 65537,
    patient: false,
    complete: false,
};

/// How many bytes the frames of a reader have, of at most that many frames.
pub fn count_bytes<R: Read + Drop, A: Allocator + Copy>(
    alloc: A,
    source: R,
    most: usize,
) -> Result<usize, Stop> {
    let mut stream = Stream::new(alloc, source, SETTINGS);
    let mut count = 0usize;
    for _turn in 0..most {
        match stream.next_item(&mut item_func(frame)) {
            Ok(Some((_, len))) => count = count.saturating_add(len),
            Ok(None) => return Ok(count),
            Err(why) => return Err(why),
        }
    }
    Ok(count)
}

/// How many bytes all frames of a reader have.
pub fn count_all<R: Read + Drop, A: Allocator + Copy>(alloc: A, source: R) -> Result<usize, Stop> {
    let mut stream = Stream::new(alloc, source, SETTINGS);
    stream.fold_items(
        &mut item_func(frame),
        0usize,
        |count, len| count.saturating_add(len),
    )
}
