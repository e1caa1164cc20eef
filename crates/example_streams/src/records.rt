//! Records: an `R`, a byte that says how many bytes follow, and these.
ghost use Rattle.std.specs.Prelude.{◌≡◌, ℕ, length};
ghost use Rattle.nom_internal.specs.Prelude.{bytes_model, Slice};
ghost use Rattle.example_streams.specs.Records.{record_of};

use nom::IResult;
use nom::bytes::tag;
use nom::combinator::map;
use nom::error::Error;
use nom::multi::length_data;
use nom::number::be_u8;
use nom::sequence::preceded;
use nom_stream::item_parser::{ItemParser, parse_item};

/// Records, by how many bytes follow the length. These are the last ones of the item's, which `Stream::last` lends.
#[derive(Clone, Copy)]
pub struct Records;

fn len_of<'a>(bytes: &'a [u8]) -> usize
    ensures { result ≡ length bytes.now }
{
    bytes.len()
}

impl ItemParser for Records {
    type Item = usize;

    ghost State = { Unit {0} };

    ghost state = { λ _. tt };

    ghost Tree = { ℕ × Slice bytes_model };

    ghost grammar = { λ _. record_of };

    fn item<'a>(&mut self, input: &'a [u8], more: bool) -> IResult<&'a [u8], usize> {
        let record = preceded(tag::<_, _, Error<&[u8]>>(&b"R"[..]), length_data(be_u8()));
        parse_item(map(record, len_of), input, more)
    }
}
