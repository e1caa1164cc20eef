//! Fields: each some bytes after a semicolon, up to the next one.
ghost use Rattle.std.specs.Prelude.{◌≡◌, length};
ghost use Rattle.nom_internal.specs.Prelude.{bytes_model, Slice};
ghost use Rattle.example_streams.specs.Fields.{field_of};

use nom::IResult;
use nom::bytes::{is_not, tag};
use nom::combinator::map;
use nom::error::Error;
use nom::sequence::preceded;
use nom_stream::item_parser::{ItemParser, parse_item};

/// Fields, by their lengths. A field ends where the next one begins, so that only as a complete input the last one is
/// decided.
#[derive(Clone, Copy)]
pub struct Fields;

fn len_of<'a>(bytes: &'a [u8]) -> usize
    ensures { result ≡ length bytes.now }
{
    bytes.len()
}

impl ItemParser for Fields {
    type Item = usize;

    ghost State = { Unit {0} };

    ghost state = { λ _. tt };

    ghost Tree = { Slice bytes_model };

    ghost grammar = { λ _. field_of };

    fn item<'a>(&mut self, input: &'a [u8], more: bool) -> IResult<&'a [u8], usize> {
        let field = preceded(tag::<_, _, Error<&[u8]>>(&b";"[..]), is_not(&b";"[..]));
        parse_item(map(field, len_of), input, more)
    }
}
