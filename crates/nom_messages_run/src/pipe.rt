//! The lines of messages that come one after another, from a reader of any length.
ghost use Rattle.std.specs.Prelude.{◌≡◌, ◌++◌, ◌-◌, ◌<◌, ◌≤◌, ◌⊎◌, Err, IfOk, OnErr, OnOk, vec_capacity, vec_len};
ghost use Rattle.nom_run.specs.Pieces.{HasRoom, Puts};
ghost use Rattle.nom_run.specs.Runs.{WritesText};
ghost use Rattle.nom_messages_run.specs.Pipe.{TellsMessages, ending_status, ending_text, received_text};
ghost use Rattle.nom_messages_run.specs.Messages.{message_of};

use crate::messages::{Messages, Received};
use crate::put::{put_ending, put_received};
use nom::OutOfMemory;
use nom_io::stream::ByteWriter;
use nom_run::error::RunError;
use nom_run::pieces::flush;
use nom_stream::item_parser::ItemParser;
use nom_stream::stream::{Stop, Stream};
use std::alloc::Allocator;
use std::io::Read;

// So many bytes of lines are held at the most.
const FULL: usize = 65536;

// The status where there is no further message.
fn status_of(why: Option<Stop>) -> u8
    ensures { result ≡ ending_status why }
{
    match why {
        None => 0,
        Some(Stop::Refused(_, _)) => 1,
        Some(Stop::Failed(_, _)) => 1,
        Some(Stop::Nothing) => 1,
        Some(Stop::Incomplete(_)) => 2,
        Some(Stop::TooLong) => 3,
        Some(Stop::Fault(_)) => 3,
        Some(Stop::OutOfMemory) => 3,
    }
}

// Takes the memory for the bytes that are held, unless it is taken.
fn take_room<A: Allocator>(room: &mut Vec<u8, A>) -> Result<(), OutOfMemory>
    requires { vec_len room.old ≤ 65536 }
    ensures room { OnOk result (HasRoom room.new) }
    ensures same { room.new.items ≡ room.old.items }
    ensures lacks { OnErr result (vec_capacity room.old < 65536) }
{
    match room.reserve(FULL - room.len()) {
        Ok(()) => Ok(()),
        Err(_) => Err(OutOfMemory),
    }
}

// Adds the line of a message, of which these are the bytes. If it has no room, what is held is written.
fn list<A: Allocator, W: ByteWriter>(
    sink: &mut W,
    room: &mut Vec<u8, A>,
    message: Received,
    bytes: &[u8],
) -> Result<(), RunError>
    requires { vec_len room.old ≤ 65536 }
    ensures room { IfOk result (λ _. HasRoom room.new) }
    ensures puts { Puts (W.account sink.old) (W.account sink.new) room.old.items (received_text message bytes.now) room.new.items result
        ⊎ ((result ≡ Err RunError.OutOfMemory) × (sink.new ≡ sink.old) × (vec_capacity room.old < 65536)) }
{
    match take_room(room) {
        Ok(()) => {}
        Err(_) => return Err(RunError::OutOfMemory),
    }
    put_received(sink, room, message, bytes)
}

// Adds the last line, and writes all.
fn end<A: Allocator, W: ByteWriter>(
    sink: &mut W,
    room: &mut Vec<u8, A>,
    why: Option<Stop>,
    offset: u64,
) -> Result<u8, RunError>
    requires { vec_len room.old ≤ 65536 }
    ensures { WritesText (λ text status. (text ≡ room.old.items ++ ending_text why offset) × (status ≡ ending_status why))
        (W.account sink.old) (W.account sink.new) ((sink.new ≡ sink.old) × (vec_capacity room.old < 65536)) result }
{
    match take_room(room) {
        Ok(()) => {}
        Err(_) => return Err(RunError::OutOfMemory),
    }
    match put_ending(sink, room, why, offset) {
        Ok(()) => {}
        Err(error) => return Err(error),
    }
    match flush(sink, room) {
        Ok(()) => Ok(status_of(why)),
        Err(error) => Err(error),
    }
}

/// Writes a line for each message of a stream, then a last line, and returns the status.
///
/// The last line shows why there is no further message. It holds at most 65,536 bytes of lines, and takes the
/// memory for them at the first line. The answer is `OutOfMemory` only if there was none then; nothing was
/// written. The answer is `Write` if a write failed, which isn't tried again; only a beginning of the lines up
/// to that one was written. The answer is `Read` after 2^64 - 1 messages.
pub fn tell_items<R: Read, A: Allocator + Copy, G: ItemParser<Item = Received>, W: ByteWriter>(
    alloc: A,
    stream: &mut Stream<R, A>,
    grammar: &mut G,
    sink: &mut W,
) -> Result<u8, RunError>
    requires runs { (G.grammar (G.state grammar.old)).meaning.Runs }
    ensures kept { G.state grammar.new ≡ G.state grammar.old }
    ensures told { TellsMessages R.remaining (G.grammar (G.state grammar.old)) stream.old stream.new (W.account sink.old) (W.account sink.new)
        (sink.new ≡ sink.old) result }
{
    let mut room = Vec::new(alloc);
    for _turn in 0..u64::MAX {
        match stream.next_item(grammar) {
            Ok(Some((used, message))) => {
                match list(sink, &mut room, message, stream.last(used)) {
                    Ok(()) => {}
                    Err(error) => return Err(error),
                }
            }
            Ok(None) => return end(sink, &mut room, None, stream.offset),
            Err(why) => return end(sink, &mut room, Some(why), stream.offset),
        }
    }
    match flush(sink, &mut room) {
        Ok(()) => Err(RunError::Read),
        Err(error) => Err(error),
    }
}

/// Writes the lines of messages as `tell_items` does.
pub fn tell_messages<R: Read, A: Allocator + Copy, W: ByteWriter>(
    alloc: A,
    stream: &mut Stream<R, A>,
    sink: &mut W,
) -> Result<u8, RunError>
    ensures { TellsMessages R.remaining message_of stream.old stream.new (W.account sink.old) (W.account sink.new) (sink.new ≡ sink.old) result }
{
    tell_items(alloc, stream, &mut Messages, sink)
}
