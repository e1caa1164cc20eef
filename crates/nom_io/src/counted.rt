//! Readers and writers of std, whose calls are counted.
ghost use Rattle.std.specs.Prelude.{◌≡◌, ◌↔◌, IsTrue, MatchBool, length};
ghost use Rattle.std.specs.Io.{ReadsAtMost, WritesAtMost};
ghost use Rattle.std.specs.Io.KnownBytes.{Keeps, ReadConsumes, WriteAppends};
ghost use Rattle.std.specs.IoError.{error_kind};
ghost use Rattle.nom_io.specs.Account.{one_more};
ghost use Rattle.nom_io.specs.Faults.{CountsCalls, CountsError, CountsRead, CountsWrite, HasNone, IsPassed, OneFault};

use crate::stream::{ByteWriter, Fault, Source};
use std::io;
use std::io::{ErrorKind, Read, Write};

/// The counts of failed and of interrupted calls, and the error of the last failed call.
#[derive(Drop)]
pub struct Faults {
    count: u64,
    last: Option<io::Error>,
    interruptions: u64,
}

/// A reader or a writer of std, with the counts of its failed calls, of the calls of `Source::read` or
/// `ByteWriter::write`, of those that took none of the offered bytes, and of its flushes. The counts stay at the
/// greatest `u64`.
///
/// By `Source` and `ByteWriter` an interrupted call has failed. By `call_read` and `call_write` it hasn't: it can
/// be made again, as `read_retried` and `write_retried` do. Only the interruption that comes after 2^64 - 2 others
/// is a failure.
///
/// A trait of std says nothing about how often it is called, nor about its errors. `Source::read`,
/// `ByteWriter::write`, `call_read`, `call_write` and `flush` alone raise the counts. The body of each of the five
/// shows that it makes exactly one call; this isn't proved. What `inner` itself is called for isn't counted.
#[derive(Drop)]
pub struct Counted<T> {
    pub inner: T,
    calls: u64,
    faults: Faults,
    stalled: u64,
    flushes: u64,
}

// Whether an error is that of an interruption.
fn is_interrupted(error: io::Error) -> bool
    ensures { IsTrue result ↔ (error_kind error ≡ ErrorKind.Interrupted) }
{
    error.kind() == ErrorKind::Interrupted
}

impl Faults {
    // Counts a call that failed with this error.
    fn fail(&mut self, error: io::Error)
        ensures fault { OneFault self.old self.new error }
        ensures interruptions { self.new.interruptions ≡ self.old.interruptions }
    {
        self.count = self.count.saturating_add(1);
        self.last = Some(error);
    }

    // Counts a call that gave this error: it was interrupted, or it failed.
    fn count_error(&mut self, error: io::Error)
        ensures { CountsError self.old self.new error }
    {
        if is_interrupted(error) {
            self.interruptions = self.interruptions.saturating_add(1);
            if self.interruptions < u64::MAX {
                return;
            }
        }
        self.fail(error);
    }
}

impl<T> Counted<T> {
    /// Returns a value whose counts start at 0.
    pub fn new(inner: T) -> Self
        ensures held { result.inner ≡ inner }
        ensures none { (result.calls ≡ 0) × (result.faults.count ≡ 0) × (result.stalled ≡ 0) }
        ensures faults { HasNone result.faults }
        ensures flushes { result.flushes ≡ 0 }
    {
        Counted {
            inner,
            calls: 0,
            faults: Faults {
                count: 0,
                last: None,
                interruptions: 0,
            },
            stalled: 0,
            flushes: 0,
        }
    }

    /// Returns the number of calls of `Source::read` or `ByteWriter::write`.
    pub fn calls(&self) -> u64
        ensures { result ≡ self.now.calls }
    {
        self.calls
    }

    /// Returns the number of failed calls.
    pub fn faults(&self) -> u64
        ensures { result ≡ self.now.faults.count }
    {
        self.faults.count
    }

    /// Returns the error of the last failed call.
    pub fn last_fault(&self) -> Option<io::Error>
        ensures { result ≡ self.now.faults.last }
    {
        self.faults.last
    }

    /// Returns how many of them took none of the offered bytes.
    pub fn stalled(&self) -> u64
        ensures { result ≡ self.now.stalled }
    {
        self.stalled
    }

    /// Returns the number of calls of `flush`.
    pub fn flushes(&self) -> u64
        ensures { result ≡ self.now.flushes }
    {
        self.flushes
    }

    pub fn into_inner(self) -> T
        ensures { result ≡ self.inner }
    {
        let Counted { inner, .. } = self;
        inner
    }

    /// Returns whether a call that gave this error last was interrupted, and can be made again.
    pub fn is_passed(&self, error: io::Error) -> bool
        ensures { MatchBool result (IsPassed self.now.faults error) (IsPassed self.now.faults error → ⊥) }
    {
        is_interrupted(error) && self.faults.interruptions < u64::MAX
    }
}

impl<T: Read> Counted<T> {
    /// Calls `read` once.
    pub fn call_read(&mut self, room: &mut [u8]) -> io::Result<usize>
        ensures bound { ReadsAtMost result room.new }
        ensures bytes { ReadConsumes (T.remaining self.old.inner) (T.remaining self.new.inner) result room.new }
        ensures len { length room.new ≡ length room.old }
        ensures counts { CountsRead self.old.faults self.new.faults result }
    {
        match self.inner.read(room) {
            Ok(count) => Ok(count),
            Err(error) => {
                self.faults.count_error(error);
                Err(error)
            }
        }
    }
}

impl<T: Write> Counted<T> {
    /// Calls `write` once. If the call takes no byte, it has failed, with `WriteZero`.
    pub fn call_write(&mut self, bytes: &[u8]) -> io::Result<usize>
        ensures bound { WritesAtMost result bytes.now }
        ensures bytes { WriteAppends (T.contents self.old.inner) (T.contents self.new.inner) result bytes.now }
        ensures counts { CountsWrite self.old.faults self.new.faults result }
        ensures flushes { self.new.flushes ≡ self.old.flushes }
    {
        match self.inner.write(bytes) {
            Ok(count) => {
                if count == 0 {
                    self.faults.fail(io::Error::from(ErrorKind::WriteZero));
                }
                Ok(count)
            }
            Err(error) => {
                self.faults.count_error(error);
                Err(error)
            }
        }
    }

    /// Calls `flush` once. An interrupted flush has failed.
    pub fn flush(&mut self) -> io::Result<()>
        ensures bytes { Keeps (T.contents self.old.inner) (T.contents self.new.inner) }
        ensures counts { CountsCalls self.old.faults self.new.faults result }
        ensures interruptions { self.new.faults.interruptions ≡ self.old.faults.interruptions }
        ensures flushes { self.new.flushes ≡ one_more self.old.flushes }
    {
        self.flushes = self.flushes.saturating_add(1);
        match self.inner.flush() {
            Ok(()) => Ok(()),
            Err(error) => {
                self.faults.fail(error);
                Err(error)
            }
        }
    }
}

impl<T: Read> Source for Counted<T> {
    ghost account = { λ s. record { bytes = T.remaining s.inner; calls = s.calls; failures = s.faults.count; stalls = s.stalled } };

    fn read(&mut self, room: &mut [u8]) -> Result<usize, Fault> {
        self.calls = self.calls.saturating_add(1);
        match self.inner.read(room) {
            Ok(count) => Ok(count),
            Err(error) => {
                self.faults.fail(error);
                Err(Fault)
            }
        }
    }
}

impl<T: Write> ByteWriter for Counted<T> {
    ghost account = { λ s. record { bytes = T.contents s.inner; calls = s.calls; failures = s.faults.count; stalls = s.stalled } };

    fn write(&mut self, bytes: &[u8]) -> Result<usize, Fault> {
        self.calls = self.calls.saturating_add(1);
        match self.inner.write(bytes) {
            Ok(count) => {
                if count == 0 && !bytes.is_empty() {
                    self.stalled = self.stalled.saturating_add(1);
                }
                Ok(count)
            }
            Err(error) => {
                self.faults.fail(error);
                Err(Fault)
            }
        }
    }
}
