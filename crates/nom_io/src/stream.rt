//! Sources and sinks of bytes, one call at a time.
ghost use Rattle.std.specs.Prelude.{◌≡◌, length};
ghost use Rattle.std.specs.Io.{ReadsAtMost, WritesAtMost};
ghost use Rattle.std.specs.Io.KnownBytes.{ReadConsumes, WriteAppends};
ghost use Rattle.nom_io.specs.Account.{Account, CountsCall, CountsStall};

/// A read or a write that failed.
#[derive(Clone, Copy, Debug, PartialEq, Eq)]
pub struct Fault;

/// A source of bytes.
pub trait Source {
    // The bytes that reads will give from here on, and the counts of calls.
    ghost account: { Self → Account };

    /// Reads some bytes into the start of `room`, and returns their number.
    ///
    /// If no byte is read into nonempty room, the source has ended.
    fn read(&mut self, room: &mut [u8]) -> Result<usize, Fault>
        ensures bound { ReadsAtMost result room.new }
        ensures bytes { ReadConsumes (account self.old).bytes (account self.new).bytes result room.new }
        ensures counts { CountsCall (account self.old) (account self.new) result }
        ensures stalls { (account self.new).stalls ≡ (account self.old).stalls };
}

/// A sink for bytes.
pub trait ByteWriter {
    // The bytes that were written, and the counts of calls.
    ghost account: { Self → Account };

    /// Writes some bytes from the start of `bytes`, and returns their number.
    fn write(&mut self, bytes: &[u8]) -> Result<usize, Fault>
        ensures bound { WritesAtMost result bytes.now }
        ensures bytes { WriteAppends (account self.old).bytes (account self.new).bytes result bytes.now }
        ensures counts { CountsCall (account self.old) (account self.new) result }
        ensures stalls { CountsStall (account self.old) (account self.new) (length bytes.now) result };
}
