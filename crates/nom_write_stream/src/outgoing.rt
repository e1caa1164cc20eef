//! Items that are written one after another.
ghost use Rattle.std.specs.Prelude.{◌≡◌, ◌≤◌, length, vec_capacity};
ghost use Rattle.nom_write_stream.specs.Reasons.{why_unwritten};

use crate::held::Held;
use nom_error::answer::OutOfMemory;
use nom_io::counted::Counted;
use nom_traits::input::Items;
use nom_write::sink::Sink;
use nom_write::{WriteError, Writer};
use std::alloc::Allocator;
use std::io;
use std::io::Write;

/// Why an item isn't written.
///
/// No byte of it is written. The items before it are written or held. A place is an offset from the item's first
/// byte.
#[derive(Clone, Copy, Debug)]
pub enum Unwritten {
    /// The part at this place is longer than its length field can say, or a number is larger than its field.
    TooLong(usize),
    /// The part at this place isn't a value that its parser returns.
    Mismatch(usize),
    /// The item has no bytes, so it couldn't be read back.
    Nothing,
    /// The item has more bytes than may be held.
    OverLimit,
    /// A write failed, and wasn't interrupted. You may call again.
    Fault(io::Error),
    /// Memory ran out in the item's writer. You may call again.
    OutOfMemory,
}

/// Which item of a list isn't written, and why.
#[derive(Clone, Copy, Debug)]
pub struct Halted {
    /// The number of items that were added before it.
    pub count: usize,
    pub why: Unwritten,
}

/// A buffered writer of items.
///
/// Each call of `write_item` adds one item. `flush` writes what is held.
#[derive(Drop)]
pub struct Outgoing<W, A: Allocator> {
    pub target: Counted<W>,
    pub held: Held<A>,
    /// The maximum number of bytes that are held. A longer item can't be written.
    pub most: usize,
    /// No more bytes are held than may be.
    pub ghost bounded: { length held.bytes.items ≤ most },
    /// They never need more memory.
    pub ghost room: { most ≤ vec_capacity held.bytes },
}

// Why an item that begins at `start` of the held bytes isn't written, or `None` if it has no room beside them.
fn why_of(error: WriteError, start: usize) -> Option<Unwritten>
    ensures { result ≡ why_unwritten error start }
{
    match error {
        WriteError::OutOfMemory => Some(Unwritten::OutOfMemory),
        WriteError::Full => None,
        WriteError::TooLong(place) => Some(Unwritten::TooLong(place.saturating_sub(start))),
        WriteError::Mismatch(place) => Some(Unwritten::Mismatch(place.saturating_sub(start))),
    }
}

impl<W: Write, A: Allocator> Outgoing<W, A> {
    ghost use Rattle.std.specs.Prelude.{◌<◌, [], IfErr, IfOk, OnErr, OnOk};
    ghost use Rattle.nom_write_stream.specs.Outgoing.{WritesItem, WritesItems, WritesFit, Flushes, Sends, held_of};
    ghost use Rattle.nom_io.specs.Faults.{CountsCalls, IsLate};

    /// Returns an empty buffer before `target`, and takes the memory for `most` bytes.
    pub fn new(alloc: A, target: W, most: usize) -> Result<Self, OutOfMemory>
    where
        W: Drop,
        ensures none { IfOk result (λ new. held_of new ≡ []) }
        ensures target { IfOk result (λ new. (new.target.inner ≡ target) × (new.target.faults.count ≡ 0)) }
        ensures most { IfOk result (λ new. new.most ≡ most) }
        ensures memory { OnErr result (0 < most) }
    {
        let mut held = Held::new(alloc);
        match held.take_room(most) {
            Ok(()) => Ok(Outgoing {
                target: Counted::new(target),
                held,
                most,
            }),
            Err(error) => Err(error),
        }
    }

    // Adds an item if it has room beside the held bytes, and returns whether it has.
    fn add<I: Items<Item = u8>, P: Writer<I>>(
        &mut self,
        writer: &P,
        value: &P::Output,
    ) -> Result<bool, Unwritten>
        requires can { P.CanWrite writer.now }
        ensures added { WritesFit self.old self.new (P.Form writer.now value.now) (P.Fails writer.now value.now) result }
        ensures others { (self.new.target ≡ self.old.target) × (self.new.most ≡ self.old.most) }
    {
        let start = self.held.bytes.len();
        match writer.write(value, &mut self.held) {
            Ok(()) => {
                let end = self.held.bytes.len();
                if end > self.most {
                    self.held.bytes.truncate(start);
                    return Ok(false);
                }
                if end == start {
                    return Err(Unwritten::Nothing);
                }
                // It tells that they are bytes.
                self.held.bytes.as_slice().known();
                Ok(true)
            }
            Err(error) => match why_of(error, start) {
                Some(why) => Err(why),
                None => Ok(false),
            },
        }
    }

    // Writes the held bytes.
    fn send(&mut self) -> io::Result<()>
        ensures none { OnOk result (held_of self.new ≡ []) }
        ensures some { OnErr result (0 < length (held_of self.new)) }
        ensures sends { Sends W.contents self.old self.new [] }
        ensures counts { CountsCalls self.old.target.faults self.new.target.faults result }
        ensures again { IfErr result (IsLate self.new.target.faults) }
        ensures flushes { self.new.target.flushes ≡ self.old.target.flushes }
        ensures most { self.new.most ≡ self.old.most }
    {
        let (count, fault) = self.target.write_all(&self.held.bytes);
        self.held.remove_front(count);
        match fault {
            None => Ok(()),
            Some(error) => Err(error),
        }
    }

    /// Adds an item to the held bytes. If it has no room, the held bytes are written first.
    pub fn write_item<I: Items<Item = u8>, P: Writer<I>>(
        &mut self,
        writer: &P,
        value: &P::Output,
    ) -> Result<(), Unwritten>
        requires can { P.CanWrite writer.now }
        ensures adds { WritesItem W.contents self.old self.new (P.Form writer.now value.now) (P.Fails writer.now value.now) result }
        ensures flushes { self.new.target.flushes ≡ self.old.target.flushes }
        ensures most { self.new.most ≡ self.old.most }
    {
        match self.add(writer, value) {
            Ok(true) => return Ok(()),
            Ok(false) => {}
            Err(why) => return Err(why),
        }
        match self.send() {
            Ok(()) => {}
            Err(error) => return Err(Unwritten::Fault(error)),
        }
        match self.add(writer, value) {
            Ok(true) => Ok(()),
            Ok(false) => Err(Unwritten::OverLimit),
            Err(why) => Err(why),
        }
    }

    /// Adds items in order, until one can't be written.
    pub fn write_items<I: Items<Item = u8>, P: Writer<I>>(
        &mut self,
        writer: &P,
        values: &[P::Output],
    ) -> Result<(), Halted>
        requires can { P.CanWrite writer.now }
        ensures adds { WritesItems W.contents self.old self.new (P.Form writer.now) (P.Fails writer.now) values.now result }
        ensures flushes { self.new.target.flushes ≡ self.old.target.flushes }
        ensures most { self.new.most ≡ self.old.most }
    {
        for count in 0..values.len() {
            match self.write_item(writer, &values[count]) {
                Ok(()) => {}
                Err(why) => return Err(Halted { count, why }),
            }
        }
        Ok(())
    }

    /// Writes the held bytes, and flushes the writer, once. After a failed write the writer isn't flushed.
    pub fn flush(&mut self) -> io::Result<()>
        ensures none { OnOk result (held_of self.new ≡ []) }
        ensures flushed { Flushes self.old self.new result }
        ensures sends { Sends W.contents self.old self.new [] }
        ensures counts { CountsCalls self.old.target.faults self.new.target.faults result }
        ensures most { self.new.most ≡ self.old.most }
    {
        match self.send() {
            Ok(()) => self.target.flush(),
            Err(error) => Err(error),
        }
    }

    /// Returns the writer, and the bytes that weren't written.
    pub fn into_parts(self) -> (W, Vec<u8, A>)
        ensures target { result.0 ≡ self.target.inner }
        ensures held { result.1.items ≡ held_of self }
    {
        let Outgoing { target, held, .. } = self;
        let Held { bytes } = held;
        (target.into_inner(), bytes)
    }
}
