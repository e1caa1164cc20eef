//! Messages after their lengths, which come in pieces.
ghost use Rattle.std.specs.Prelude.{◌≡◌};
ghost use Rattle.nom_internal.specs.Prelude.{bytes_model};
ghost use Rattle.nom_calls.specs.Growing.{AreCuts, IsGrown};
ghost use Rattle.nom_internal.specs.Promises.{HasNoFailure};
ghost use Rattle.nom_messages_run.specs.Protocol.{AnswersAll, messages_of};
ghost use Rattle.nom_messages_run.specs.declared.protocol.Message.TheVariants.{Ping, Text, Close};

use nom::branch::alt;
use nom::bytes::tag;
use nom::combinator::{all_consuming, map};
use nom::error::Error;
use nom::multi::{length_data, length_value, many0};
use nom::number::{be_u8, be_u16, be_u32};
use nom::sequence::{pair, preceded, terminated};
use nom::{Grown, Items, Viewed, parse_growing};
use std::alloc::Allocator;

/// A message.
#[derive(Clone, Copy, Debug, PartialEq, Eq)]
pub enum Message<'a> {
    /// Asks for an answer of the same number.
    Ping(u32),
    /// A text, as its bytes.
    Text(&'a [u8]),
    /// The other side leaves.
    Close,
}

impl<'a> Viewed for Message<'a> {}

pub(crate) fn ping<'a>(kind_and_number: (&'a [u8], u32)) -> Message<'a>
    ensures { result ≡ Ping kind_and_number.entry.1 }
{
    Message::Ping(kind_and_number.1)
}

pub(crate) fn text<'a>(bytes: &'a [u8]) -> Message<'a>
    ensures { result ≡ Text bytes.entry }
{
    Message::Text(bytes)
}

pub(crate) fn close<'a>(_kind: &'a [u8]) -> Message<'a>
    ensures { result ≡ Close }
{
    Message::Close
}

/// The messages of a source, of which each number of `cuts` tells how many bytes were there when it gave the
/// next piece:
///
/// ```text
/// messages = message* 0 0
/// message  = length:u16 body           (the length is the body's, in bytes; numbers have the highest byte first)
/// body     = 1 number:u32 | 2 length:u8 bytes | 3
/// ```
///
/// What the whole is answered by is what is answered here, wherever the cuts lie. A body that isn't one, or is
/// longer than its message, ends the messages: the input is refused there, with `Tag`. It never fails.
pub fn messages<'a, A: Allocator + Copy>(
    alloc: A,
    bytes: &'a [u8],
    cuts: &[usize],
) -> Grown<&'a [u8], Vec<Message<'a>, A>, Error<&'a [u8]>>
    requires { AreCuts bytes_model bytes cuts.now }
    ensures { AnswersAll bytes.entry result.result ×
        IsGrown bytes_model (messages_of {M = A}).IsOutput (messages_of {M = A}).meaning bytes.entry cuts.now result.index result.result ×
        HasNoFailure bytes_model (messages_of {M = A}).meaning }
{
    bytes.known();
    let number = pair(tag::<_, _, Error<&[u8]>>(&b"\x01"[..]), be_u32());
    let string = preceded(
        tag::<_, _, Error<&[u8]>>(&b"\x02"[..]),
        length_data(be_u8()),
    );
    let leave = tag::<_, _, Error<&[u8]>>(&b"\x03"[..]);
    let body = all_consuming(alt((map(number, ping), map(string, text), map(leave, close))));
    let message = length_value(be_u16(), body);
    let end = tag::<_, _, Error<&[u8]>>(&b"\0\0"[..]);
    let stream = terminated(many0(alloc, message), end);
    parse_growing(stream, bytes, cuts)
}
