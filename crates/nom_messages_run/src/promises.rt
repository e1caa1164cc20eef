//! The promises of the lines of messages. The functions do nothing: their contracts are the promises.
ghost use Rattle.nom_messages_run.specs.Back.{FileReadsBack, SentReadBack, StreamReadsBack};
ghost use Rattle.nom_messages_run.specs.Whole.{LinesOfWhole};

use crate::messages::{Messages, Received};
use nom_stream::item_parser::ItemParser;
use nom_stream::promises::{answers_of_whole, bytes_of_whole, items_of_whole};
use nom_stream::stream::Stream;
use nom_write_stream::outgoing::Outgoing;
use std::alloc::Allocator;
use std::io::{Read, Write};

/// If `tell_items` answers a status, it wrote the lines of the first items of the whole, in order, and the
/// last line.
///
/// The items are those that `iterator` returns for the whole (`AreItems`). The last line shows the outcome
/// after them. If it is `end`, `error` or `need`, the lines are those of all items. This is true however the
/// reader delivers its bytes.
pub fn lines_of_whole<R: Read, A: Allocator + Copy, G: ItemParser<Item = Received>>(
    stream: &Stream<R, A>,
    grammar: &G,
)
    requires { (G.grammar (G.state grammar.now)).meaning.IsSound }
    ensures { LinesOfWhole A R.remaining (G.grammar (G.state grammar.now)) }
{
    answers_of_whole(stream, grammar);
    items_of_whole(stream, grammar);
    bytes_of_whole(stream, grammar);
}

/// What is written of a message is read back as that message, whatever follows it, by both readers of messages.
///
/// If `write_lines` sent messages, and all of them was written, then `tell_messages` writes their lines and `end` for what
/// was written. If a read fails or memory runs out, it writes the lines of the first of them, and why no more. This is
/// true however the writer takes its bytes and the reader delivers them.
pub fn sent_read_back<
    R: Read,
    A: Allocator + Copy,
    W: Write,
    B: Allocator,
    S: Read,
    C: Allocator + Copy,
>(_lines: &Stream<R, A>, _outgoing: &Outgoing<W, B>, messages: &Stream<S, C>)
    ensures stream { StreamReadsBack }
    ensures file { FileReadsBack }
    ensures sent { SentReadBack A B C R.remaining W.contents S.remaining }
{
    answers_of_whole(messages, &Messages);
    items_of_whole(messages, &Messages);
    bytes_of_whole(messages, &Messages);
}
