//! The lines of messages, which are added in pieces to bytes that aren't written yet.
ghost use Rattle.std.specs.Prelude.{◌≡◌, ◌++◌, ◌/◌, ◌%◌, ◌<◌, [], ◌∷◌, Some, codes, length};
ghost use Rattle.std.specs.Fmt.{decimal};
ghost use Rattle.nom_internal.specs.Prelude.{size_of};
ghost use Rattle.nom_run.specs.Pieces.{HasRoom, Puts};
ghost use Rattle.nom_run.specs.Texts.{bytes_text, digits_text, hex_digit, need_text};
ghost use Rattle.nom_messages_run.specs.Pipe.{ending_text, offset_text, received_text};

use crate::messages::Received;
use itoa::Buffer;
use nom::Needed;
use nom_io::stream::ByteWriter;
use nom_run::error::RunError;
use nom_run::pieces::{InPieces, put, put_each, put_texts};
use nom_stream::stream::Stop;
use std::alloc::Allocator;

// Adds a number between two texts.
fn put_numbered<A: Allocator, W: ByteWriter>(
    sink: &mut W,
    room: &mut Vec<u8, A>,
    before: &str,
    number: u64,
    after: &str,
) -> Result<(), RunError>
    requires { HasRoom room.old }
    ensures room { HasRoom room.new }
    ensures puts { Puts (W.account sink.old) (W.account sink.new) room.old.items (before.now ++ (decimal number ++ after.now)) room.new.items result }
{
    let mut digits = Buffer::new();
    put_texts(sink, room, &[before, digits.format(number), after])
}

// Adds what is at an offset, after a text.
fn put_offset<A: Allocator, W: ByteWriter>(
    sink: &mut W,
    room: &mut Vec<u8, A>,
    before: &str,
    what: &str,
    offset: u64,
) -> Result<(), RunError>
    requires { HasRoom room.old }
    ensures room { HasRoom room.new }
    ensures puts { Puts (W.account sink.old) (W.account sink.new) room.old.items (before.now ++ offset_text what.now offset) room.new.items result }
{
    let mut digits = Buffer::new();
    put_texts(
        sink,
        room,
        &[before, what, " at ", digits.format(offset), "\n"],
    )
}

// Adds how much more is needed.
fn put_need<A: Allocator, W: ByteWriter>(
    sink: &mut W,
    room: &mut Vec<u8, A>,
    needed: Needed,
) -> Result<(), RunError>
    requires { HasRoom room.old }
    ensures room { HasRoom room.new }
    ensures puts { Puts (W.account sink.old) (W.account sink.new) room.old.items (need_text (size_of needed)) room.new.items result }
{
    match needed {
        Needed::Unknown => put(sink, room, b"need more\n"),
        Needed::Size(size) => put_numbered(sink, room, "need ", size.get() as u64, "\n"),
    }
}

fn digit(number: u8) -> u8
    requires { number < 16 }
    ensures { result ≡ hex_digit number }
{
    if number < 10 {
        48 + number
    } else {
        87 + number
    }
}

// Bytes, each as two digits in base 16.
struct Digits;

impl InPieces<u8> for Digits {
    ghost lines = { λ _ byte. hex_digit (byte / 16) ∷ hex_digit (byte % 16) ∷ [] };

    fn put<A: Allocator, W: ByteWriter>(
        &self,
        sink: &mut W,
        room: &mut Vec<u8, A>,
        byte: &u8,
    ) -> Result<(), RunError> {
        let digits = [digit(*byte / 16), digit(*byte % 16)];
        put(sink, room, &digits)
    }
}

// Adds the digits of bytes, after a space, if there are any.
fn put_digits<A: Allocator, W: ByteWriter>(
    sink: &mut W,
    room: &mut Vec<u8, A>,
    bytes: &[u8],
) -> Result<(), RunError>
    requires { HasRoom room.old }
    ensures room { HasRoom room.new }
    ensures puts { Puts (W.account sink.old) (W.account sink.new) room.old.items (digits_text bytes.now) room.new.items result }
{
    if bytes.is_empty() {
        return Ok(());
    }
    match put(sink, room, b" ") {
        Ok(()) => {}
        Err(error) => return Err(error),
    }
    put_each(sink, room, &Digits, bytes)
}

// Adds the line of a text, of which these are the bytes.
fn put_bytes<A: Allocator, W: ByteWriter>(
    sink: &mut W,
    room: &mut Vec<u8, A>,
    bytes: &[u8],
) -> Result<(), RunError>
    requires { HasRoom room.old }
    ensures room { HasRoom room.new }
    ensures puts { Puts (W.account sink.old) (W.account sink.new) room.old.items (bytes_text (codes "text ") bytes.now) room.new.items result }
{
    match put_numbered(sink, room, "text ", bytes.len() as u64, "") {
        Ok(()) => {}
        Err(error) => return Err(error),
    }
    match put_digits(sink, room, bytes) {
        Ok(()) => {}
        Err(error) => return Err(error),
    }
    put(sink, room, b"\n")
}

// Adds the line of a message, of which these are the bytes.
pub(crate) fn put_received<A: Allocator, W: ByteWriter>(
    sink: &mut W,
    room: &mut Vec<u8, A>,
    message: Received,
    bytes: &[u8],
) -> Result<(), RunError>
    requires { HasRoom room.old }
    ensures room { HasRoom room.new }
    ensures puts { Puts (W.account sink.old) (W.account sink.new) room.old.items (received_text message bytes.now) room.new.items result }
{
    match message {
        Received::Ping(number) => put_numbered(sink, room, "ping ", number as u64, "\n"),
        Received::Text(len) => {
            let start = bytes.len().saturating_sub(len);
            put_bytes(sink, room, &bytes[start..])
        }
        Received::Close => put(sink, room, b"close\n"),
    }
}

// Adds the last line where the stream stopped.
fn put_stop<A: Allocator, W: ByteWriter>(
    sink: &mut W,
    room: &mut Vec<u8, A>,
    why: Stop,
    offset: u64,
) -> Result<(), RunError>
    requires { HasRoom room.old }
    ensures room { HasRoom room.new }
    ensures puts { Puts (W.account sink.old) (W.account sink.new) room.old.items (ending_text (Some why) offset) room.new.items result }
{
    match why {
        Stop::Refused(kind, _) => put_offset(sink, room, "error ", kind.description(), offset),
        Stop::Failed(kind, _) => put_offset(sink, room, "failure ", kind.description(), offset),
        Stop::Nothing => put_offset(sink, room, "", "empty", offset),
        Stop::Incomplete(needed) => put_need(sink, room, needed),
        Stop::TooLong => put_offset(sink, room, "", "too long", offset),
        Stop::Fault(_) => put(sink, room, b"file fault\n"),
        Stop::OutOfMemory => put(sink, room, b"out of memory\n"),
    }
}

// Adds the last line.
pub(crate) fn put_ending<A: Allocator, W: ByteWriter>(
    sink: &mut W,
    room: &mut Vec<u8, A>,
    why: Option<Stop>,
    offset: u64,
) -> Result<(), RunError>
    requires { HasRoom room.old }
    ensures room { HasRoom room.new }
    ensures puts { Puts (W.account sink.old) (W.account sink.new) room.old.items (ending_text why offset) room.new.items result }
{
    match why {
        None => put_offset(sink, room, "", "end", offset),
        Some(why) => put_stop(sink, room, why, offset),
    }
}
