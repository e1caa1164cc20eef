//! Bytes that wait to be written.
ghost use Rattle.std.specs.Prelude.{◌≡◌, ◌<◌, ◌≤◌, [], OnErr, OnOk, drop, length, vec_capacity};
ghost use Rattle.nom_sink.specs.Written.{no_loan};
ghost use Rattle.nom_sink.specs.Written.Lack.{OfSpace};

use nom_error::answer::OutOfMemory;
use nom_write::WriteError;
use nom_write::sink::Sink;
use std::alloc::Allocator;

/// Bytes that wait to be written.
///
/// All memory is taken at the start. Later a write without room is `Full`.
#[derive(Drop)]
pub struct Held<A: Allocator> {
    pub bytes: Vec<u8, A>,
}

impl<A: Allocator> Held<A> {
    /// Returns an empty buffer without room.
    pub fn new(alloc: A) -> Self
        ensures { result.bytes.items ≡ [] }
    {
        Held {
            bytes: Vec::new(alloc),
        }
    }

    /// Takes memory for at least `count` bytes, if the buffer has too little.
    pub fn take_room(&mut self, count: usize) -> Result<(), OutOfMemory>
        requires { self.old.bytes.items ≡ [] }
        ensures same { self.new.bytes.items ≡ self.old.bytes.items }
        ensures room { OnOk result (count ≤ vec_capacity self.new.bytes) }
        ensures lacks { OnErr result (vec_capacity self.new.bytes < count) }
    {
        match self.bytes.reserve_exact(count) {
            Ok(()) => Ok(()),
            Err(_) => Err(OutOfMemory),
        }
    }

    /// Removes the first `count` bytes, which are written.
    pub fn remove_front(&mut self, count: usize)
        requires { count ≤ length self.old.bytes.items }
        ensures others { self.new.bytes.items ≡ drop count self.old.bytes.items }
        ensures room { vec_capacity self.old.bytes ≤ vec_capacity self.new.bytes }
    {
        let len = self.bytes.len();
        self.bytes.copy_within(count..len, 0);
        self.bytes.truncate(len - count);
    }
}

/// Without room for the bytes, the answer is `Full`.
impl<A: Allocator> Sink<u8> for Held<A> {
    ghost model = { record { items = λ h. h.bytes.items; room = λ h. vec_capacity h.bytes; lack = OfSpace; loan = no_loan } };

    #[inline(always)]
    fn len(&self) -> usize {
        self.bytes.len()
    }

    #[inline]
    fn add(&mut self, bytes: &[u8]) -> Result<(), WriteError> {
        if bytes.len() > self.bytes.capacity() - self.bytes.len() {
            return Err(WriteError::Full);
        }
        match self.bytes.extend_from_slice(bytes) {
            Ok(()) => Ok(()),
            Err(_) => unreachable!(),
        }
    }

    #[inline(always)]
    fn truncate(&mut self, len: usize) {
        self.bytes.truncate(len);
    }

    #[inline]
    fn move_behind(&mut self, start: usize, middle: usize) {
        self.bytes[start..].rotate_left(middle - start);
    }
}
