//! A text that is written in pieces, whatever its length.
ghost use Rattle.std.specs.Prelude.{◌≡◌, ◌++◌, ◌+◌, ◌≤◌, ℕ, List, [], length, IfOk, vec_len};
ghost use Rattle.nom_run.specs.Pieces.{HasRoom, Puts};
ghost use Rattle.nom_run.specs.Texts.{lines_text};

use crate::error::RunError;
use crate::run::write_all;
use nom_error::answer::OutOfMemory;
use nom_io::stream::ByteWriter;
use std::alloc::Allocator;

// So many bytes are written at once.
const FULL: usize = 65536;

/// Returns room for bytes that aren't written yet. No other memory is taken.
pub fn make_room<A: Allocator>(alloc: A) -> Result<Vec<u8, A>, OutOfMemory>
    ensures { IfOk result (λ room. HasRoom room × (room.items ≡ [])) }
{
    match Vec::with_capacity(alloc, FULL) {
        Ok(room) => Ok(room),
        Err(_) => Err(OutOfMemory),
    }
}

/// Writes the bytes that aren't written yet.
pub fn flush<A: Allocator, W: ByteWriter>(
    sink: &mut W,
    room: &mut Vec<u8, A>,
) -> Result<(), RunError>
    requires { HasRoom room.old }
    ensures room { HasRoom room.new }
    ensures none { IfOk result (λ _. room.new.items ≡ []) }
    ensures puts { Puts (W.account sink.old) (W.account sink.new) room.old.items [] [] result }
{
    match write_all(sink, room) {
        Ok(()) => {}
        Err(error) => return Err(error),
    }
    room.clear();
    Ok(())
}

/// Adds bytes. If there is no room for them, they are written after those before them.
pub fn put<A: Allocator, W: ByteWriter>(
    sink: &mut W,
    room: &mut Vec<u8, A>,
    bytes: &[u8],
) -> Result<(), RunError>
    requires { HasRoom room.old }
    ensures room { HasRoom room.new }
    ensures puts { Puts (W.account sink.old) (W.account sink.new) room.old.items bytes.now room.new.items result }
{
    if bytes.len() <= FULL - room.len() {
        keep(room, bytes);
        return Ok(());
    }
    match flush(sink, room) {
        Ok(()) => {}
        Err(error) => return Err(error),
    }
    if bytes.len() <= FULL {
        keep(room, bytes);
        return Ok(());
    }
    match write_all(sink, bytes) {
        Ok(()) => Ok(()),
        Err(error) => Err(error),
    }
}

// Adds bytes for which there is room.
fn keep<A: Allocator>(room: &mut Vec<u8, A>, bytes: &[u8])
    requires room { HasRoom room.old }
    requires fits { vec_len room.old + length bytes.now ≤ 65536 }
    ensures room { HasRoom room.new }
    ensures kept { room.new.items ≡ room.old.items ++ bytes.now }
{
    match room.extend_from_slice(bytes) {
        Ok(()) => {}
        Err(_) => unreachable!(),
    }
}

/// The way an item is written.
pub trait InPieces<T> {
    ghost lines: { Self → T → List ℕ };

    /// Adds the lines of an item.
    fn put<A: Allocator, W: ByteWriter>(
        &self,
        sink: &mut W,
        room: &mut Vec<u8, A>,
        item: &T,
    ) -> Result<(), RunError>
        requires { HasRoom room.old }
        ensures room { HasRoom room.new }
        ensures puts { Puts (W.account sink.old) (W.account sink.new) room.old.items (lines self.now item.now) room.new.items result };
}

/// Adds the lines of items, in their order.
pub fn put_each<A: Allocator, W: ByteWriter, T, P: InPieces<T>>(
    sink: &mut W,
    room: &mut Vec<u8, A>,
    each: &P,
    items: &[T],
) -> Result<(), RunError>
    requires { HasRoom room.old }
    ensures room { HasRoom room.new }
    ensures puts { Puts (W.account sink.old) (W.account sink.new) room.old.items (lines_text (P.lines each.now) items.now) room.new.items result }
{
    for item in items {
        match each.put(sink, room, item) {
            Ok(()) => {}
            Err(error) => return Err(error),
        }
    }
    Ok(())
}

// Texts, each as its bytes.
struct Unchanged;

impl<'a> InPieces<&'a str> for Unchanged {
    ghost lines = { λ _ text. text.now };

    fn put<A: Allocator, W: ByteWriter>(
        &self,
        sink: &mut W,
        room: &mut Vec<u8, A>,
        text: &&'a str,
    ) -> Result<(), RunError> {
        put(sink, room, text.as_bytes())
    }
}

/// Adds texts, in their order.
pub fn put_texts<A: Allocator, W: ByteWriter>(
    sink: &mut W,
    room: &mut Vec<u8, A>,
    texts: &[&str],
) -> Result<(), RunError>
    requires { HasRoom room.old }
    ensures room { HasRoom room.new }
    ensures puts { Puts (W.account sink.old) (W.account sink.new) room.old.items (lines_text (λ text. text.now) texts.now) room.new.items result }
{
    put_each(sink, room, &Unchanged, texts)
}
