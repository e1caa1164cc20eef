//! The report on a file of messages.
ghost use Rattle.std.specs.Prelude.{◌≡◌, ◌++◌, IfOk, length, string_bytes};
ghost use Rattle.nom_run.specs.Runs.{NoneAbove};
ghost use Rattle.nom_messages_run.specs.Report.{IsReport, message_text, ping_text};

use crate::protocol::{Message, messages};
use nom::{Items, OutOfMemory};
use nom_io::stream::ByteWriter;
use nom_run::error::RunError;
use nom_run::report::{Lines, Reporting, beginning_len, tell, write_built};
use nom_run::text::{add_bytes, add_words};
use std::alloc::Allocator;
use std::fmt::Write;

/// Adds the line of a ping.
pub fn add_ping<A: Allocator + Copy>(text: &mut String<A>, number: u32) -> Result<(), OutOfMemory>
    ensures { IfOk result (λ _. string_bytes text.new ≡ string_bytes text.old ++ ping_text number) }
{
    write!(text, "ping {number}\n")?;
    Ok(())
}

/// The report on a file of messages.
pub struct Messages;

impl<'a> Lines<Message<'a>> for Messages {
    ghost lines = { λ _ m. message_text m };

    fn add<A: Allocator + Copy>(
        &self,
        text: &mut String<A>,
        message: &Message<'a>,
    ) -> Result<(), OutOfMemory> {
        match *message {
            Message::Ping(number) => add_ping(text, number),
            Message::Text(bytes) => add_bytes(text, "text ", bytes),
            Message::Close => add_words(text, "close\n"),
        }
    }
}

// The text of the report, and its status.
fn text_of<A: Allocator + Copy>(
    alloc: A,
    bytes: &[u8],
    cuts: &[usize],
) -> Result<(String<A>, u8), OutOfMemory>
    requires { NoneAbove cuts.now (length bytes.now) }
    ensures { IfOk result (λ r. IsReport bytes.now cuts.now (string_bytes r.0) r.1) }
{
    bytes.known();
    let grown = messages(alloc, bytes, cuts);
    let beginning = beginning_len(bytes.len(), cuts, grown.index);
    tell(alloc, &Messages, grown.index, beginning, grown.result)
}

impl Reporting for Messages {
    ghost is_report = { λ _. IsReport };

    fn write<A: Allocator + Copy, W: ByteWriter>(
        &self,
        alloc: A,
        bytes: &[u8],
        cuts: &[usize],
        sink: &mut W,
    ) -> Result<u8, RunError> {
        write_built(text_of(alloc, bytes, cuts), sink)
    }
}
