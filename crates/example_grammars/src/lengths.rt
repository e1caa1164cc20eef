//! Functions that look into slices of a length that their grammar tells, with nothing to prove.

use nom::bytes::{tag, take};
use nom::number::be_u8;
use nom::sequence::preceded;
use nom::{IResult, Parser};

/// The four bytes of an address, as its number.
pub fn address(input: &[u8]) -> IResult<&[u8], u32> {
    let (rest, data) = take(4usize).parse(input)?;
    Ok((
        rest,
        u32::from_be_bytes([data[0], data[1], data[2], data[3]]),
    ))
}

/// The two bytes of a version, after a `V`.
pub fn version(input: &[u8]) -> IResult<&[u8], (u8, u8)> {
    let (rest, data) = preceded(tag("V"), take(2usize)).parse(input)?;
    Ok((rest, (data[0], data[1])))
}

/// The last of two bytes, and of three after another one.
pub fn lasts(input: &[u8]) -> IResult<&[u8], (u8, u8)> {
    let (rest, (two, _, three)) = (take(2usize), be_u8(), take(3usize)).parse(input)?;
    Ok((rest, (two[1], three[2])))
}
