//! Functions of one's own as parts: any function of the shape `fn(Input) -> IResult<Input, Output>` by `func`, with nothing
//! written but the view of a type that one gives.

use nom::bytes::take;
use nom::character::{char, one_of};
use nom::combinator::{flat_map, iterator, map_res, opt, verify};
use nom::multi::{fold_many0, length_data};
use nom::number::be_u8;
use nom::{IResult, Parser, Viewed, func};
use std::str::{Utf8Error, from_utf8};

/// A day of a month.
#[derive(Clone, Copy, Debug, PartialEq, Eq)]
pub struct Day {
    pub month: u32,
    pub day: u32,
}

impl Viewed for Day {}

/// A decimal digit.
pub fn digit(input: &str) -> IResult<&str, u32> {
    let (rest, digit) = one_of("0123456789").parse_complete(input)?;
    match digit.to_digit(10) {
        Some(value) => Ok((rest, value)),
        None => Ok((rest, 0)),
    }
}

/// Two digits.
pub fn two(input: &str) -> IResult<&str, u32> {
    let (input, tens) = digit(input)?;
    let (input, ones) = digit(input)?;
    Ok((input, tens.saturating_mul(10).saturating_add(ones)))
}

/// A month and a day, as `11-27`.
pub fn date(input: &str) -> IResult<&str, Day> {
    let (input, month) = two(input)?;
    let (input, _) = char('-').parse_complete(input)?;
    let (input, day) = two(input)?;
    Ok((input, Day { month, day }))
}

/// A day, or none.
pub fn maybe_day(input: &str) -> IResult<&str, Option<Day>> {
    opt(func(date)).parse_complete(input)
}

/// The text of bytes.
pub fn input_to_str(bytes: &[u8]) -> Result<&str, Utf8Error> {
    from_utf8(bytes)
}

/// A text, with its length in front.
pub fn text(input: &[u8]) -> IResult<&[u8], &str> {
    map_res(length_data(be_u8()), input_to_str).parse_complete(input)
}

/// A minute of an hour.
pub fn minute(input: &str) -> IResult<&str, u32> {
    verify(func(two), |minute: &u32| *minute < 60).parse_complete(input)
}

/// A length, twice as long where its highest bit is set.
pub fn own_length(input: &[u8]) -> IResult<&[u8], u16> {
    let (input, first) = be_u8().parse(input)?;
    if first < 128 {
        return Ok((input, first as u16));
    }
    let (input, second) = be_u8().parse(input)?;
    Ok((input, (first - 128) as u16 * 256 + second as u16))
}

/// As many bytes as a length in front says.
pub fn counted(input: &[u8]) -> IResult<&[u8], &[u8]> {
    flat_map(func(own_length), |length: u16| take(length)).parse(input)
}

/// The sum of days' numbers.
pub fn sum(input: &str) -> IResult<&str, u32> {
    fold_many0(
        func(date),
        || 0u32,
        |sum: u32, day: Day| sum.saturating_add(day.day),
    )
    .parse_complete(input)
}

/// The first two days, where there are as many.
pub fn first_two(input: &str) -> (Option<Day>, Option<Day>) {
    let mut days = iterator(input, func(date));
    let first = days.next();
    let second = days.next();
    (first, second)
}
