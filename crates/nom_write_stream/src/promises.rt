//! The promises about items that are written to a pipe. These functions do nothing: their contracts are the
//! promises.
ghost use Rattle.std.specs.Prelude.{ℕ, List};
ghost use Rattle.nom_internal.specs.Prelude.{IsLawful, IsPinned, IsSteady, NeverTooLarge};
ghost use Rattle.nom_write.specs.Reads.{Reads};
ghost use Rattle.nom_write_stream.specs.Pipes.{HasOutcomes, ItemsOfForms, ItemsOfPipe};

use crate::outgoing::Outgoing;
use nom_error::value::Error;
use nom_stream::stream::Stream;
use nom_traits::input::Items;
use nom_write::Writer;
use std::alloc::Allocator;
use std::io::{Read, Write};

// The laws of a parser that also writes, where it is sound.
fn laws_of<I: Items<Item = u8>, P: Writer<I>>(_writer: &P)
    requires sound { (P.grammar (P.state _writer.now)).meaning.IsSound }
    requires can { P.CanWrite _writer.now }
    ensures lawful { IsLawful I.model (P.grammar (P.state _writer.now)).meaning }
    ensures steady { IsSteady I.model (P.grammar (P.state _writer.now)).meaning }
    ensures pinned { P.Pins _writer.now → IsPinned P.Output.view (P.grammar (P.state _writer.now)).IsOutput }
    ensures reads { Reads I.model (P.grammar (P.state _writer.now)) (P.Form _writer.now) (P.Follow _writer.now) }
{}

/// A stream that reads the bytes of written items returns these items, in order, and then the end.
///
/// It is true however the reader delivers its bytes. The items have equal views, if the parser pins. Failed reads,
/// and running out of memory, lose no item. No item is too long for a stream that may hold the longest one.
///
/// The premises are those of the parser's laws, and three more. Any form may follow any other (`follows`). The
/// parser never fails because a missing size is too large (`large`). Every input has an outcome (`outcomes`).
pub fn items_of_forms<
    'a,
    R: Read,
    A: Allocator + Copy,
    P: Writer<&'a [u8], Error = Error<&'a [u8]>>,
>(_stream: &Stream<R, A>, _writer: &P)
    requires sound { (P.grammar (P.state _writer.now)).meaning.IsSound }
    requires can { P.CanWrite _writer.now }
    requires follows { (rest : List ℕ) → P.Follow _writer.now rest }
    requires large { NeverTooLarge (P.grammar (P.state _writer.now)).meaning }
    requires outcomes { HasOutcomes (P.grammar (P.state _writer.now)) }
    ensures { ItemsOfForms A R.remaining P.Output.view (P.Pins _writer.now) (P.grammar (P.state _writer.now)) (P.Form _writer.now) }
{
    laws_of(_writer);
}

/// A stream that reads what a writer took returns the items that were written, in order, and then the end.
///
/// It is true for every way in which the writer takes its bytes and the reader delivers them, once all held bytes
/// are written. The items have equal views, if the parser pins. Failed reads, and running out of memory, lose no
/// item. No item is too long for a stream that may hold as many bytes as were held here.
///
/// The premises are those of `items_of_forms`.
pub fn items_of_pipe<
    'a,
    R: Read,
    A: Allocator + Copy,
    W: Write,
    B: Allocator,
    P: Writer<&'a [u8], Error = Error<&'a [u8]>>,
>(_stream: &Stream<R, A>, _outgoing: &Outgoing<W, B>, _writer: &P)
    requires sound { (P.grammar (P.state _writer.now)).meaning.IsSound }
    requires can { P.CanWrite _writer.now }
    requires follows { (rest : List ℕ) → P.Follow _writer.now rest }
    requires large { NeverTooLarge (P.grammar (P.state _writer.now)).meaning }
    requires outcomes { HasOutcomes (P.grammar (P.state _writer.now)) }
    ensures { ItemsOfPipe A B R.remaining W.contents P.Output.view (P.Pins _writer.now) (P.grammar (P.state _writer.now)) (P.Form _writer.now) }
{
    laws_of(_writer);
}
