//! Places that items are written to.
ghost use Rattle.std.specs.Prelude.{◌≡◌, ◌+◌, ◌<◌, ◌≤◌, ◌++◌, ◌⊎◌, [], OnErr, false, length, take, true, vec_capacity, vec_len};
ghost use Rattle.nom_sink.specs.Slices.{behind, written_front, loan_of, room_of, slice_model};
ghost use Rattle.nom_sink.specs.Vecs.{vec_model};
ghost use Rattle.nom_sink.specs.Written.{LacksRoom, SinkModel, Written, moved_behind, no_loan};
ghost use Rattle.nom_sink.specs.declared.error.WriteError.{WriteError};

use crate::error::WriteError;
use core::mem::replace_with;
use std::alloc::Allocator;

/// A place that items are written to, such as bytes or characters.
pub trait Sink<T> {
    /// The items that it holds, its room in all, and what it lacks if there is no room.
    ghost model: { SinkModel Self T };

    /// Returns the number of items that it holds.
    fn len(&self) -> usize
        ensures { result ≡ length (model.items self.now) };

    /// Adds items. On an error, it is as it was.
    fn add(&mut self, items: &[T]) -> Result<(), WriteError>
        ensures written { Written (λ xs. xs ≡ items.now) (LacksRoom (length items.now)) model self.old self.new result }
        ensures room { model.room self.old ≤ model.room self.new }
        ensures loan { model.loan self.new ≡ model.loan self.old };

    /// Removes all items but the first `len`.
    fn truncate(&mut self, len: usize)
        ensures items { model.items self.new ≡ take len (model.items self.old) }
        ensures room { model.room self.old ≤ model.room self.new }
        ensures loan { model.loan self.new ≡ model.loan self.old };

    /// Moves the items from `start` up to `middle` behind the items that follow them.
    fn move_behind(&mut self, start: usize, middle: usize)
        requires start { start ≤ middle }
        requires middle { middle ≤ length (model.items self.old) }
        ensures items { model.items self.new ≡ moved_behind start middle (model.items self.old) }
        ensures room { model.room self.old ≤ model.room self.new }
        ensures loan { model.loan self.new ≡ model.loan self.old };
}

/// Returns whether a list has room for more items.
#[inline(always)]
fn has_room<T, A: Allocator>(list: &Vec<T, A>, more: usize) -> bool
    ensures room { result ≡ true → vec_len list.now + more ≤ vec_capacity list.now }
    ensures full { result ≡ false → vec_capacity list.now < vec_len list.now + more }
{
    list.capacity() - list.len() >= more
}

/// Makes room for more items in a list, if there is memory for them.
// Apart and cold. The list is moved in and out beside the number, so that it stays in registers where there is room.
#[cold]
#[inline(never)]
fn larger<T: Copy, A: Allocator>(args: (Vec<T, A>, usize)) -> Vec<T, A>
    ensures items { result.items ≡ args.0.items }
    ensures capacity { vec_capacity args.0 ≤ vec_capacity result }
    ensures all { (vec_len result + args.1 ≤ vec_capacity result) ⊎ (vec_capacity result ≡ vec_capacity args.0) }
{
    let (mut list, more) = args;
    let _ = list.reserve(more);
    list
}

/// A list grows. Its error is `OutOfMemory`.
impl<T: Copy, A: Allocator> Sink<T> for Vec<T, A> {
    ghost model = { vec_model };

    #[inline(always)]
    fn len(&self) -> usize {
        Vec::len(self)
    }

    #[inline(always)]
    fn add(&mut self, items: &[T]) -> Result<(), WriteError>
        ensures written { Written (λ xs. xs ≡ items.now) (LacksRoom (length items.now)) vec_model self.old self.new result }
        ensures room { vec_capacity self.old ≤ vec_capacity self.new }
        ensures loan { no_loan self.new ≡ no_loan self.old }
        ensures unchanged { OnErr result (vec_capacity self.new ≡ vec_capacity self.old) }
    {
        if !has_room(self, items.len()) {
            let len = Vec::len(self);
            replace_with(self, items.len(), |list: Vec<T, A>, more: usize| {
                (larger((list, more)), ())
            });
            // The length stays. This tells the compiler, so that a loop needn't ask whether an item was empty.
            if Vec::len(self) != len {
                return Err(WriteError::OutOfMemory);
            }
        }
        if !has_room(self, items.len()) {
            return Err(WriteError::OutOfMemory);
        }
        // No more memory is taken here.
        self.extend_from_slice(items)
            .map_err(|_| WriteError::OutOfMemory)
    }

    #[inline(always)]
    fn truncate(&mut self, len: usize) {
        Vec::truncate(self, len)
    }

    #[inline]
    fn move_behind(&mut self, start: usize, middle: usize) {
        self[start..].rotate_left(middle - start);
    }
}

/// The front of a slice, which `slice_sink` returns.
#[derive(Drop)]
pub struct SliceSink<'a, T> {
    buffer: &'a mut [T],
    used: usize,
}

/// Returns a sink that fills a slice from its start, and takes no memory.
///
/// If the slice has no room for a value, the answer is `Full`. What was written before stays.
#[inline(always)]
pub fn slice_sink<'a, T>(buffer: &'a mut [T]) -> SliceSink<'a, T>
    ensures held { written_front result ≡ [] }
    ensures room { room_of result ≡ length buffer.old }
    ensures loan { loan_of result ≡ buffer.entry.ghost_name }
{
    SliceSink { buffer, used: 0 }
}

impl<'a, T> SliceSink<'a, T> {
    /// Returns the items that were written.
    #[inline(always)]
    pub fn written(&self) -> &[T]
        ensures { result.now ≡ written_front self.now }
    {
        &self.buffer[..self.used.min(self.buffer.len())]
    }
}

/// It takes as many items as the slice has. Its error is `Full`.
impl<'a, T: Copy> Sink<T> for SliceSink<'a, T> {
    ghost model = { slice_model };

    #[inline(always)]
    fn len(&self) -> usize {
        self.used.min(self.buffer.len())
    }

    #[inline]
    fn add(&mut self, items: &[T]) -> Result<(), WriteError>
        ensures written { Written (λ xs. xs ≡ items.now) (LacksRoom (length items.now)) slice_model self.old self.new result }
        ensures room { room_of self.old ≤ room_of self.new }
        ensures loan { loan_of self.new ≡ loan_of self.old }
        ensures rest { behind (length (written_front self.new)) self.new ≡ behind (length (written_front self.new)) self.old }
    {
        let used = self.used.min(self.buffer.len());
        if items.len() <= self.buffer.len() - used {
            let end = used + items.len();
            self.buffer[used..end].copy_from_slice(items);
            self.used = end;
            Ok(())
        } else {
            Err(WriteError::Full)
        }
    }

    #[inline(always)]
    fn truncate(&mut self, len: usize)
        ensures items { written_front self.new ≡ take len (written_front self.old) }
        ensures room { room_of self.old ≤ room_of self.new }
        ensures loan { loan_of self.new ≡ loan_of self.old }
        ensures rest { self.new.buffer.now ≡ self.old.buffer.now }
    {
        if len < self.used {
            self.used = len;
        }
    }

    #[inline]
    fn move_behind(&mut self, start: usize, middle: usize)
        requires start { start ≤ middle }
        requires middle { middle ≤ length (written_front self.old) }
        ensures items { written_front self.new ≡ moved_behind start middle (written_front self.old) }
        ensures room { room_of self.old ≤ room_of self.new }
        ensures loan { loan_of self.new ≡ loan_of self.old }
        ensures rest { behind (length (written_front self.old)) self.new ≡ behind (length (written_front self.old)) self.old }
    {
        let used = self.used.min(self.buffer.len());
        self.buffer[start..used].rotate_left(middle - start);
    }
}
