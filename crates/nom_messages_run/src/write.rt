//! Messages that are written as they are typed.
ghost use Rattle.std.specs.Prelude.{◌≡◌, ◌++◌, ◌≤◌, ℕ, List, [], IfErr, IfOk, MatchOption, string_bytes, take, vec_capacity};
ghost use Rattle.nom_messages_run.specs.Forms.{IsBody, IsFrame, body_len};
ghost use Rattle.nom_messages_run.specs.Sent.{HaltsLine, SaysMessage, SendsMessage, SendsNone, SentBefore, SentUntil};
ghost use Rattle.nom_messages_run.specs.Sent.{WhyNoBody, WhyUnframed, WhyUnmade, WhyUnsent, halt_by, halt_for, halt_text, unsent_of};
ghost use Rattle.nom_messages_run.specs.declared.protocol.Message.{Message};
ghost use Rattle.nom_messages_run.specs.Sent as Sent;
ghost use Rattle.nom_write_stream.specs.Outgoing.{IsItem, Sends};
ghost use Rattle.nom_io.specs.Faults.{NoFault};

use crate::protocol::Message;
use crate::typed::typed;
use nom::bytes::tag;
use nom::error::Error;
use nom::multi::length_data;
use nom::number::{be_u8, be_u16, be_u32};
use nom::sequence::preceded;
use nom::{Err as Answer, Items, OutOfMemory};
use nom_stream::lines::Lines;
use nom_stream::stream::{Stop, Stream};
use nom_write::{Constant, WriteError, Writer};
use nom_write_stream::outgoing::{Outgoing, Unwritten};
use std::alloc::Allocator;
use std::fmt::Write as Text;
use std::io::{Read, Write};

type Fail<'a> = Error<&'a [u8]>;

/// Why a message isn't written. Nothing of it is.
#[derive(Clone, Copy, Debug, PartialEq, Eq)]
pub enum Unsent {
    /// Its text has more than 255 bytes.
    LongText,
    /// It has more bytes than may be held.
    OverLimit,
    /// A write failed.
    Write,
    /// Memory ran out.
    OutOfMemory,
}

/// Why no further line is written.
#[derive(Clone, Copy, Debug, PartialEq, Eq)]
pub enum Halt {
    /// All lines were written.
    End,
    /// The line of this number, from 1 on, is no message.
    NoMessage(u64),
    /// The text of this line has more than 255 bytes.
    LongText(u64),
    /// This line has more bytes than may be held.
    LongLine(u64),
    /// A read failed.
    Read,
    /// A write failed.
    Write,
    /// Memory ran out.
    OutOfMemory,
}

/// Adds the body of a message, as `nom_messages` reads it.
fn add_body<A: Allocator>(message: Message<'_>, out: &mut Vec<u8, A>) -> Result<(), WriteError>
    requires { out.old.items ≡ [] }
    ensures body { IfOk result (λ _. IsBody message.entry out.new.items) }
    ensures error { IfErr result (λ e. WhyNoBody (vec_capacity out.old) message.entry e) }
    ensures room { vec_capacity out.old ≤ vec_capacity out.new }
{
    match message {
        Message::Ping(number) => {
            preceded(tag::<_, _, Fail>(&b"\x01"[..]), be_u32()).write(&number, out)
        }
        Message::Text(bytes) => {
            preceded(tag::<_, _, Fail>(&b"\x02"[..]), length_data(be_u8())).write(&bytes, out)
        }
        Message::Close => tag::<_, _, Fail>(&b"\x03"[..]).write_constant(out),
    }
}

/// Makes the body of a message.
fn make_body<A: Allocator>(message: Message<'_>, room: &mut Vec<u8, A>) -> Result<(), Unsent>
    ensures body { IfOk result (λ _. IsBody message.entry room.new.items) }
    ensures error { IfErr result (λ why. WhyUnmade (vec_capacity room.old) message.entry why) }
    ensures room { vec_capacity room.old ≤ vec_capacity room.new }
{
    room.clear();
    match add_body(message, room) {
        Ok(()) => Ok(()),
        Err(error) => {
            if error.is_unfit() {
                Err(Unsent::LongText)
            } else {
                Err(Unsent::OutOfMemory)
            }
        }
    }
}

/// Why a message isn't sent whose frame isn't written.
fn why_unsent(why: Unwritten) -> Unsent
    ensures { result ≡ unsent_of why }
{
    match why {
        Unwritten::Fault(_) => Unsent::Write,
        Unwritten::OverLimit => Unsent::OverLimit,
        Unwritten::TooLong(_) => Unsent::OverLimit,
        Unwritten::Mismatch(_) => Unsent::OverLimit,
        Unwritten::Nothing => Unsent::OverLimit,
        Unwritten::OutOfMemory => Unsent::OutOfMemory,
    }
}

/// Writes bytes after their length.
fn write_frame<'a, W: Write, A: Allocator>(
    outgoing: &mut Outgoing<W, A>,
    body: &'a [u8],
) -> Result<(), Unwritten>
    ensures sent { IfOk result (λ _. (xs : List ℕ) × IsItem (IsFrame body.now) outgoing.old.most xs ×
        Sends W.contents outgoing.old outgoing.new xs × NoFault outgoing.old.target.faults outgoing.new.target.faults) }
    ensures error { IfErr result (λ why. SendsNone W.contents outgoing.old outgoing.new ×
        WhyUnframed outgoing.old outgoing.new body.now why) }
    ensures flushes { outgoing.new.target.flushes ≡ outgoing.old.target.flushes }
{
    let frame = length_data(be_u16::<&'a [u8], Error<&'a [u8]>>());
    outgoing.write_item(&frame, &body)
}

/// Writes a message: the length of its body, and its body, which is made in `room`.
pub fn write_message<W: Write, A: Allocator, B: Allocator>(
    outgoing: &mut Outgoing<W, A>,
    room: &mut Vec<u8, B>,
    message: Message<'_>,
) -> Result<(), Unsent>
    ensures sent { IfOk result (λ _. SendsMessage W.contents outgoing.old outgoing.new message.entry ×
        (body_len message.entry ≤ vec_capacity room.new)) }
    ensures error { IfErr result (λ why. SendsNone W.contents outgoing.old outgoing.new ×
        WhyUnsent outgoing.old outgoing.new (vec_capacity room.old) message.entry why) }
    ensures flushes { outgoing.new.target.flushes ≡ outgoing.old.target.flushes }
    ensures room { vec_capacity room.old ≤ vec_capacity room.new }
{
    match make_body(message, room) {
        Ok(()) => {}
        Err(why) => return Err(why),
    }
    let body = room.as_slice();
    // It tells that they are bytes.
    body.known();
    match write_frame(outgoing, body) {
        Ok(()) => Ok(()),
        Err(why) => Err(why_unsent(why)),
    }
}

/// Why the line of a number isn't written.
fn halt_of(number: u64, why: Unsent) -> Halt
    ensures { result ≡ halt_for number why }
{
    match why {
        Unsent::LongText => Halt::LongText(number),
        Unsent::OverLimit => Halt::LongLine(number),
        Unsent::Write => Halt::Write,
        Unsent::OutOfMemory => Halt::OutOfMemory,
    }
}

/// Writes the message of a line. None where it was.
fn write_line<W: Write, A: Allocator, B: Allocator>(
    outgoing: &mut Outgoing<W, A>,
    room: &mut Vec<u8, B>,
    number: u64,
    line: &[u8],
) -> Option<Halt>
    ensures sent { MatchOption result ((m : Message) × SaysMessage line.now m × SendsMessage W.contents outgoing.old outgoing.new m ×
        (body_len m ≤ vec_capacity room.new)) (λ h. SendsNone W.contents outgoing.old outgoing.new ×
        HaltsLine (vec_capacity room.old) outgoing.old outgoing.new line.now number h) }
    ensures flushes { outgoing.new.target.flushes ≡ outgoing.old.target.flushes }
    ensures room { vec_capacity room.old ≤ vec_capacity room.new }
{
    match typed(line) {
        Ok((_, message)) => match write_message(outgoing, room, message) {
            Ok(()) => None,
            Err(why) => Some(halt_of(number, why)),
        },
        Err(Answer::OutOfMemory) => Some(Halt::OutOfMemory),
        Err(Answer::Error(_)) => Some(Halt::NoMessage(number)),
        Err(Answer::Failure(_)) => Some(Halt::NoMessage(number)),
        Err(Answer::Incomplete(_)) => Some(Halt::NoMessage(number)),
    }
}

/// A line without its end, by its length without it.
fn inside(line: &[u8], length: usize) -> &[u8]
    ensures { result.now ≡ take length line.now }
{
    &line[..length.min(line.len())]
}

/// Why there is no line of a number.
fn stopped(number: u64, why: Stop) -> Halt
    ensures { result ≡ halt_by number why }
{
    match why {
        Stop::TooLong => Halt::LongLine(number),
        Stop::OutOfMemory => Halt::OutOfMemory,
        Stop::Refused(_, _) => Halt::Read,
        Stop::Failed(_, _) => Halt::Read,
        Stop::Nothing => Halt::Read,
        Stop::Incomplete(_) => Halt::Read,
        Stop::Fault(_) => Halt::Read,
    }
}

/// Writes the messages of lines, one after another, until one can't be written. Some may be held.
fn write_each<R: Read, A: Allocator + Copy, W: Write, B: Allocator>(
    alloc: A,
    stream: &mut Stream<R, A>,
    outgoing: &mut Outgoing<W, B>,
) -> Halt
    ensures sent { SentUntil R.remaining W.contents stream.old outgoing.old result stream.new outgoing.new }
{
    let mut grammar = Lines;
    let mut room = Vec::new(alloc);
    for turn in 0..u64::MAX {
        match stream.next_item(&mut grammar) {
            Ok(Some((used, length))) => {
                let line = inside(stream.last(used), length);
                match write_line(outgoing, &mut room, turn + 1, line) {
                    Some(halt) => return halt,
                    None => {}
                }
            }
            Ok(None) => return Halt::End,
            Err(why) => return stopped(turn + 1, why),
        }
    }
    Halt::Read
}

/// Returns whether a write failed.
fn is_failed_write(halt: Halt) -> bool
    ensures { result ≡ Sent.is_failed_write halt }
{
    match halt {
        Halt::Write => true,
        Halt::End => false,
        Halt::NoMessage(_) => false,
        Halt::LongText(_) => false,
        Halt::LongLine(_) => false,
        Halt::Read => false,
        Halt::OutOfMemory => false,
    }
}

/// Writes the messages of lines, one after another, until one can't be written, and all that is held then.
///
/// The lines before that one are written whole, and nothing of it is. After a failed write nothing more is written or
/// flushed: what wasn't taken is held. The answer is `Read` after 2^64 - 1 lines.
pub fn write_lines<R: Read, A: Allocator + Copy, W: Write, B: Allocator>(
    alloc: A,
    stream: &mut Stream<R, A>,
    outgoing: &mut Outgoing<W, B>,
) -> Halt
    ensures sent { SentBefore R.remaining W.contents stream.old outgoing.old result stream.new outgoing.new }
{
    let halt = write_each(alloc, stream, outgoing);
    if is_failed_write(halt) {
        return halt;
    }
    match outgoing.flush() {
        Ok(()) => halt,
        Err(_) => Halt::Write,
    }
}

/// Returns the status of the program.
pub fn halt_status(halt: Halt) -> u8
    ensures { result ≡ Sent.status_of halt }
{
    match halt {
        Halt::End => 0,
        Halt::NoMessage(_) => 1,
        Halt::LongText(_) => 1,
        Halt::LongLine(_) => 1,
        Halt::Read => 3,
        Halt::Write => 3,
        Halt::OutOfMemory => 3,
    }
}

/// Adds the line that tells why no further line is written. At the end there is none, nor after a failed write.
pub fn add_halt<A: Allocator + Copy>(text: &mut String<A>, halt: Halt) -> Result<(), OutOfMemory>
    ensures { IfOk result (λ _. string_bytes text.new ≡ string_bytes text.old ++ halt_text halt) }
{
    match halt {
        Halt::End => {}
        Halt::NoMessage(number) => {
            write!(
                text,
                "{number}: error: expected ping NUMBER, text BYTES or close\n"
            )?
        }
        Halt::LongText(number) => {
            write!(text, "{number}: error: the text is longer than 255 bytes\n")?
        }
        Halt::LongLine(number) => {
            write!(
                text,
                "{number}: error: the line is longer than may be held\n"
            )?
        }
        Halt::Read => text.push_str("file fault\n")?,
        Halt::Write => {}
        Halt::OutOfMemory => text.push_str("out of memory\n")?,
    }
    Ok(())
}
