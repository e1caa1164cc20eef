//! Reads and writes that are made again where they are interrupted.
//!
//! This module can't raise the counts of a reader or a writer.
ghost use Rattle.std.specs.Prelude.{◌≡◌, ◌<◌, ◌≤◌, IfErr, IfOk, IfSome, MatchOption, length, take};
ghost use Rattle.std.specs.Io.{ReadsAtMost, WritesAtMost};
ghost use Rattle.std.specs.Io.KnownBytes.{Appends, ReadConsumes, WriteAppends};
ghost use Rattle.nom_io.specs.Faults.{CountsCalls, IsLate, NoFault, OneFault};

use crate::counted::Counted;
use std::io;
use std::io::{Read, Write};

impl<R: Read> Counted<R> {
    /// Makes one read, and makes it again if it is interrupted.
    ///
    /// The error is that of the call that failed. It is an interruption only after 2^64 - 2 others.
    pub fn read_retried(&mut self, room: &mut [u8]) -> io::Result<usize>
        ensures bound { ReadsAtMost result room.new }
        ensures bytes { ReadConsumes (R.remaining self.old.inner) (R.remaining self.new.inner) result room.new }
        ensures len { length room.new ≡ length room.old }
        ensures counts { CountsCalls self.old.faults self.new.faults result }
        ensures again { IfErr result (IsLate self.new.faults) }
    {
        for _turn in 0..u64::MAX {
            match self.call_read(room) {
                Ok(count) => return Ok(count),
                Err(error) => {
                    if !self.is_passed(error) {
                        return Err(error);
                    }
                }
            }
        }
        unreachable!()
    }
}

impl<W: Write> Counted<W> {
    /// Makes one write, and makes it again if it is interrupted.
    ///
    /// The error is that of the call that failed. It is an interruption only after 2^64 - 2 others. A write that
    /// takes no byte has failed, with `WriteZero`.
    pub fn write_retried(&mut self, bytes: &[u8]) -> io::Result<usize>
        ensures bound { WritesAtMost result bytes.now }
        ensures some { IfOk result (λ n. 0 < n) }
        ensures bytes { WriteAppends (W.contents self.old.inner) (W.contents self.new.inner) result bytes.now }
        ensures counts { CountsCalls self.old.faults self.new.faults result }
        ensures again { IfErr result (IsLate self.new.faults) }
        ensures flushes { self.new.flushes ≡ self.old.flushes }
    {
        for _turn in 0..u64::MAX {
            match self.call_write(bytes) {
                Ok(count) => {
                    if count > 0 {
                        return Ok(count);
                    }
                    match self.last_fault() {
                        Some(error) => return Err(error),
                        None => unreachable!(),
                    }
                }
                Err(error) => {
                    if !self.is_passed(error) {
                        return Err(error);
                    }
                }
            }
        }
        unreachable!()
    }

    /// Writes all bytes, in as many calls as needed.
    ///
    /// It returns how many were taken, and the error of a failed write, if one stopped it.
    pub fn write_all(&mut self, bytes: &[u8]) -> (usize, Option<io::Error>)
        ensures within { result.0 ≤ length bytes.now }
        ensures wrote { Appends (W.contents self.old.inner) (W.contents self.new.inner) (take result.0 bytes.now) }
        ensures told { MatchOption result.1 ((result.0 ≡ length bytes.now) × NoFault self.old.faults self.new.faults)
            (λ e. (result.0 < length bytes.now) × OneFault self.old.faults self.new.faults e) }
        ensures again { IfSome result.1 (IsLate self.new.faults) }
        ensures flushes { self.new.flushes ≡ self.old.flushes }
    {
        let mut at = 0;
        while at < bytes.len() {
            match self.write_retried(&bytes[at..]) {
                Ok(count) => at += count,
                Err(error) => return (at, Some(error)),
            }
        }
        (at, None)
    }
}
