//! The messages of `protocol`, one after another:
//!
//! ```text
//! message  = length:u16 body           (the length is the body's, in bytes; numbers have the highest byte first)
//! body     = 1 number:u32 | 2 length:u8 bytes | 3
//! ```
ghost use Rattle.std.specs.Prelude.{◌≡◌, length};
ghost use Rattle.nom_messages_run.specs.Protocol.{Body};
ghost use Rattle.nom_messages_run.specs.Messages.{message_of};
ghost use Rattle.nom_messages_run.specs.declared.messages.Received.TheVariants.{Ping, Text, Close};

use nom::branch::alt;
use nom::bytes::tag;
use nom::combinator::{all_consuming, map};
use nom::error::Error;
use nom::multi::{length_data, length_value};
use nom::number::{be_u8, be_u16, be_u32};
use nom::sequence::{pair, preceded};
use nom::{IResult, Viewed};
use nom_stream::item_parser::{ItemParser, parse_item};

/// A message that owns what it holds.
#[derive(Clone, Copy, Debug, PartialEq, Eq)]
pub enum Received {
    /// Asks for an answer of the same number.
    Ping(u32),
    /// A text, by its length: it is the last bytes of the item's, which `Stream::last` lends.
    Text(usize),
    /// The other side leaves.
    Close,
}

impl Viewed for Received {}

/// The messages. A body that isn't one, or is longer or shorter than its message says, is refused.
#[derive(Clone, Copy)]
pub struct Messages;

fn ping<'a>(kind_and_number: (&'a [u8], u32)) -> Received
    ensures { result ≡ Ping kind_and_number.entry.1 }
{
    Received::Ping(kind_and_number.1)
}

fn text<'a>(bytes: &'a [u8]) -> Received
    ensures { result ≡ Text (length bytes.now) }
{
    Received::Text(bytes.len())
}

fn close<'a>(_kind: &'a [u8]) -> Received
    ensures { result ≡ Close }
{
    Received::Close
}

impl ItemParser for Messages {
    type Item = Received;

    ghost State = { Unit {0} };

    ghost state = { λ _. tt };

    ghost Tree = { Body };

    ghost grammar = { λ _. message_of };

    fn item<'a>(&mut self, input: &'a [u8], more: bool) -> IResult<&'a [u8], Received> {
        let number = pair(tag::<_, _, Error<&[u8]>>(&b"\x01"[..]), be_u32());
        let string = preceded(
            tag::<_, _, Error<&[u8]>>(&b"\x02"[..]),
            length_data(be_u8()),
        );
        let leave = tag::<_, _, Error<&[u8]>>(&b"\x03"[..]);
        let body = all_consuming(alt((map(number, ping), map(string, text), map(leave, close))));
        parse_item(length_value(be_u16(), body), input, more)
    }
}
