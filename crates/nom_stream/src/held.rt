//! The bytes that were read and aren't used yet, and reads of more.
ghost use Rattle.std.specs.Prelude.{◌≤◌, vec_len};

use nom_error::answer::OutOfMemory;
use nom_io::counted::Counted;
use std::alloc::Allocator;
use std::io;
use std::io::Read;

/// The bytes that were read and aren't used yet: those of the buffer from `start` up to `end`.
///
/// The buffer has room for more bytes after them. Before them it has those that were used.
#[derive(Drop)]
pub struct Held<A: Allocator> {
    pub bytes: Vec<u8, A>,
    pub start: usize,
    pub end: usize,
    /// They lie in the buffer.
    pub ghost within: { (start ≤ end) × (end ≤ vec_len bytes) },
}

// So many bytes cost little, and hold many small reads.
const SMALL: usize = 4096;

impl<A: Allocator> Held<A> {
    ghost use Rattle.std.specs.Prelude.{◌≡◌, ℕ, ◌+◌, ◌-◌, ◌^◌, ◌<◌, ◌++◌, List, [], drop, length, max, IfOk, OnErr, OnOk, vec_capacity};
    ghost use Rattle.std.specs.Io.KnownBytes.{Consumes, IsAtEnd, Keeps};
    ghost use Rattle.nom_stream.specs.Held.{held_of, last_of};
    ghost use Rattle.nom_io.specs.Faults.{CountsCalls};

    /// Returns a buffer that holds no bytes.
    pub fn new(alloc: A) -> Self
        ensures none { held_of result ≡ [] }
        ensures empty { vec_len result.bytes ≡ 0 }
    {
        Held {
            bytes: Vec::new(alloc),
            start: 0,
            end: 0,
        }
    }

    /// Returns the number of held bytes.
    #[inline(always)]
    pub fn len(&self) -> usize
        ensures { result ≡ length (held_of self.now) }
    {
        self.end - self.start
    }

    /// Returns the held bytes.
    #[inline(always)]
    pub fn as_slice(&self) -> &[u8]
        ensures { result.now ≡ held_of self.now }
    {
        &self.bytes[self.start..self.end]
    }

    /// Returns the last `count` used bytes.
    pub fn last(&self, count: usize) -> &[u8]
        requires count { count ≤ self.now.start }
        ensures { result.now ≡ last_of count self.now }
    {
        &self.bytes[self.start - count..self.start]
    }

    /// Marks the first `count` bytes as used.
    #[inline(always)]
    pub fn consume(&mut self, count: usize)
        requires count { count ≤ length (held_of self.old) }
        ensures others { held_of self.new ≡ drop count (held_of self.old) }
        ensures start { self.new.start ≡ self.old.start + count }
        ensures bytes { self.new.bytes ≡ self.old.bytes }
    {
        self.start += count;
    }

    /// Marks all but the last `left` bytes as used.
    ///
    /// The start is computed from the end, which stays, without a step by way of the used bytes. The next
    /// parse waits for it.
    #[inline(always)]
    pub fn leave(&mut self, left: usize)
        requires left { left ≤ length (held_of self.old) }
        ensures others { held_of self.new ≡ drop (length (held_of self.old) - left) (held_of self.old) }
        ensures start { self.new.start ≡ self.old.start + (length (held_of self.old) - left) }
        ensures bytes { self.new.bytes ≡ self.old.bytes }
    {
        self.start = self.end - left;
    }

    /// Moves the bytes to the front of the buffer, over the used ones.
    pub fn settle(&mut self)
        ensures same { held_of self.new ≡ held_of self.old }
        ensures front { self.new.start ≡ 0 }
        ensures buffer { vec_len self.new.bytes ≡ vec_len self.old.bytes }
    {
        let (start, end) = (self.start, self.end);
        if start == 0 {
            return;
        }
        self.bytes.copy_within(start..end, 0);
        self.start = 0;
        self.end = end - start;
    }

    /// Makes room for `count` more bytes after the held ones. The buffer never gets shorter.
    pub fn make_room(&mut self, count: usize) -> Result<(), OutOfMemory>
        requires fits { self.old.end + count < 2 ^ 64 }
        ensures same { held_of self.new ≡ held_of self.old }
        ensures room { OnOk result (self.new.end + count ≤ vec_len self.new.bytes) }
        ensures lacks { OnErr result (vec_capacity self.new.bytes < self.new.end + count) }
        ensures capacity { OnErr result (vec_capacity self.new.bytes ≡ vec_capacity self.old.bytes) }
        ensures place { (self.new.start ≡ self.old.start) × (self.new.end ≡ self.old.end) }
        ensures bounded { vec_len self.new.bytes ≤ max (vec_len self.old.bytes) (self.old.end + count) }
    {
        let wanted = self.end + count;
        let len = self.bytes.len();
        if wanted <= len {
            return Ok(());
        }
        match self.bytes.reserve(wanted - len) {
            Ok(()) => {}
            Err(_) => return Err(OutOfMemory),
        }
        match self.bytes.resize(wanted, 0) {
            Ok(()) => Ok(()),
            Err(_) => unreachable!(),
        }
    }

    /// Makes room for `count` more bytes after the held ones, and may move these to the front of the buffer.
    ///
    /// The buffer gets longer than `most` only if the held bytes and the new ones require it.
    #[inline(always)]
    pub fn find_room(&mut self, count: usize, most: usize) -> Result<(), OutOfMemory>
        requires fits { length (held_of self.old) + count < 2 ^ 64 }
        ensures same { held_of self.new ≡ held_of self.old }
        ensures room { OnOk result (self.new.end + count ≤ vec_len self.new.bytes) }
        ensures lacks { OnErr result (vec_capacity self.new.bytes < length (held_of self.new) + count) }
        ensures bounded { vec_len self.new.bytes ≤ max (vec_len self.old.bytes) (max most (length (held_of self.old) + count)) }
    {
        if self.bytes.len() - self.end < count {
            return self.clear_room(count, most);
        }
        Ok(())
    }

    // The same, where there is no room after them. Where there is none at the front either, the buffer grows by `SMALL` bytes,
    // if it may be that long, so that small reads seldom come here. If `count` bytes fit its capacity, it grows within that.
    #[inline(never)]
    fn clear_room(&mut self, count: usize, most: usize) -> Result<(), OutOfMemory>
        requires fits { length (held_of self.old) + count < 2 ^ 64 }
        ensures same { held_of self.new ≡ held_of self.old }
        ensures room { OnOk result (self.new.end + count ≤ vec_len self.new.bytes) }
        ensures lacks { OnErr result (vec_capacity self.new.bytes < length (held_of self.new) + count) }
        ensures bounded { vec_len self.new.bytes ≤ max (vec_len self.old.bytes) (max most (length (held_of self.old) + count)) }
    {
        self.settle();
        if count <= self.bytes.len() - self.end {
            return Ok(());
        }
        let ample = SMALL.min(most.saturating_sub(self.end)).max(count);
        let spare = self.bytes.capacity().saturating_sub(self.end);
        if count <= spare {
            return self.make_room(ample.min(spare));
        }
        self.make_room(ample)
    }

    /// Makes one read of at most `count` bytes, after the held ones. An interrupted read is made again.
    pub fn read_from<R: Read>(&mut self, source: &mut Counted<R>, count: usize) -> io::Result<usize>
        requires room { self.old.end + count ≤ vec_len self.old.bytes }
        ensures given { IfOk result (λ n. (given : List ℕ) × (length given ≡ n) × (held_of self.new ≡ held_of self.old ++ given)
            × Consumes (R.remaining source.old.inner) (R.remaining source.new.inner) given) }
        ensures bound { IfOk result (λ n. n ≤ count) }
        ensures at_end { IfOk result (λ n. n ≡ 0 → 0 < count → IsAtEnd (R.remaining source.new.inner)) }
        ensures fault { OnErr result ((held_of self.new ≡ held_of self.old) × Keeps (R.remaining source.old.inner) (R.remaining source.new.inner)) }
        ensures counts { CountsCalls source.old.faults source.new.faults result }
        ensures start { self.new.start ≡ self.old.start }
        ensures buffer { vec_len self.new.bytes ≡ vec_len self.old.bytes }
    {
        let end = self.end;
        match source.read_retried(&mut self.bytes[end..end + count]) {
            Ok(given) => {
                self.end = end + given;
                Ok(given)
            }
            Err(error) => Err(error),
        }
    }

    /// Returns the held bytes, without the used ones.
    pub fn into_vec(mut self) -> Vec<u8, A>
        ensures { result.items ≡ held_of self }
    {
        self.settle();
        let Held {
            mut bytes,
            start: _,
            end,
        } = self;
        bytes.truncate(end);
        bytes
    }
}
