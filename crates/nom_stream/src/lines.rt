//! The lines of a reader.
ghost use Rattle.std.specs.Prelude.{◌≡◌, Option};
ghost use Rattle.nom_internal.specs.Prelude.{bytes_model, Slice};
ghost use Rattle.nom_stream.specs.ReaderLines.{line_len, line_of};

use crate::item_parser::{ItemParser, parse_item};
use nom_bytes::{is_not, tag};
use nom_combinator::{map, opt};
use nom_error::answer::IResult;
use nom_error::value::Error;
use nom_sequence::terminated;

/// Lines, each as its length without its end, which is the byte 10.
///
/// Only the last line of the data may lack its end.
#[derive(Clone, Copy)]
pub struct Lines;

fn len_of<'a>(bytes: Option<&'a [u8]>) -> usize
    ensures { result ≡ line_len bytes.entry }
{
    match bytes {
        Some(bytes) => bytes.len(),
        None => 0,
    }
}

impl ItemParser for Lines {
    type Item = usize;

    ghost State = { Unit {0} };

    ghost state = { λ _. tt };

    ghost Tree = { Option (Slice bytes_model) };

    ghost grammar = { λ _. line_of };

    fn item<'a>(&mut self, input: &'a [u8], more: bool) -> IResult<&'a [u8], usize> {
        let inside = opt(is_not::<_, _, Error<&[u8]>>(&b"\n"[..]));
        let end = opt(tag::<_, _, Error<&[u8]>>(&b"\n"[..]));
        parse_item(map(terminated(inside, end), len_of), input, more)
    }
}
