//! The promises of the items of every stream, if their grammar is sound. These functions do nothing: their
//! contracts are the promises.
ghost use Rattle.nom_stream.specs.Repeats.{ParsesFew};
ghost use Rattle.nom_stream.specs.Wholes.{AnswersWhole, BytesOfWhole, ItemsOfWhole};

use crate::item_parser::ItemParser;
use crate::settings::Settings;
use crate::stream::Stream;
use std::alloc::Allocator;
use std::io::Read;

/// An answer of `next_item` reports the outcome of the grammar at all the bytes that no item had.
///
/// Those bytes are the held ones and the ones that the reader has left. This is true however the reader
/// delivers its bytes.
///
/// An item is the one that is accepted there, with as many bytes. A refusal is a refusal there. A failure is
/// one too, unless it means that the missing part of a beginning is too large. `Incomplete` means that all is
/// held and more is needed. `None` means that nothing is left.
pub fn answers_of_whole<R: Read, A: Allocator + Copy, G: ItemParser>(
    _stream: &Stream<R, A>,
    _grammar: &G,
)
    requires { (G.grammar (G.state _grammar.now)).meaning.IsSound }
    ensures { AnswersWhole A R.remaining (G.grammar (G.state _grammar.now)) }
{}

/// Successive calls of `next_item` return the items that `iterator` returns for the whole (`AreItems`), in
/// order.
///
/// Each item begins where the one before ended. This is true however the reader delivers its bytes. The
/// offset counts the bytes of the items. Calls that returned no item change nothing, for example if a read
/// failed or memory ran out.
pub fn items_of_whole<R: Read, A: Allocator + Copy, G: ItemParser>(
    _stream: &Stream<R, A>,
    _grammar: &G,
)
    requires { (G.grammar (G.state _grammar.now)).meaning.IsSound }
    ensures { ItemsOfWhole A R.remaining (G.grammar (G.state _grammar.now)) }
{}

/// The bytes of an item are the first ones of all the bytes that no item had before.
///
/// `last` borrows them after the call that returned the item. This is true however the reader delivers its
/// bytes.
pub fn bytes_of_whole<R: Read, A: Allocator + Copy, G: ItemParser>(
    _stream: &Stream<R, A>,
    _grammar: &G,
)
    ensures { BytesOfWhole A R.remaining (G.grammar (G.state _grammar.now)) }
{}

/// With patience, the parses that left an item undecided took together at most as many bytes as are held
/// then.
///
/// After each such parse, as many bytes were read as were wanted (`AreFillings`). This is true however the
/// reader delivers its bytes, and whatever a parser needs.
pub fn parses_few<G: ItemParser>(_settings: &Settings, _grammar: &G)
    ensures { ParsesFew (G.grammar (G.state _grammar.now)) _settings.now }
{}
