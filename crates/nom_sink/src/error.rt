//! Why a value isn't written.
ghost use Rattle.std.specs.Prelude.{false, IsTrue, ◌≡◌};
ghost use Rattle.nom_sink.specs.Written.{IsWantOfRoom, moved_back};

/// Why a value isn't written. A place is the length that the sink would have at the start of the part that can't be written.
#[derive(Clone, Copy, Debug, PartialEq, Eq)]
pub enum WriteError {
    /// Memory ran out.
    OutOfMemory,
    /// The sink has no room, and takes no memory.
    Full,
    /// The part at this place is longer than its length field or its group of bits can be, or a number is too large for its field.
    TooLong(usize),
    /// The value of the part at this place isn't one that its parser returns.
    Mismatch(usize),
}

impl WriteError {
    /// Returns whether the value can't be written, whatever the room.
    #[inline(always)]
    pub fn is_unfit(&self) -> bool
        ensures unfit { IsTrue result → IsWantOfRoom self.now → ⊥ }
        ensures lack { result ≡ false → IsWantOfRoom self.now }
    {
        match self {
            WriteError::OutOfMemory => false,
            WriteError::Full => false,
            WriteError::TooLong(_) => true,
            WriteError::Mismatch(_) => true,
        }
    }

    /// Returns the error with its place `count` bytes before.
    #[inline]
    pub fn moved_back(self, count: usize) -> WriteError
        ensures { result ≡ moved_back count self }
    {
        match self {
            WriteError::OutOfMemory => WriteError::OutOfMemory,
            WriteError::Full => WriteError::Full,
            WriteError::TooLong(place) => WriteError::TooLong(place.saturating_sub(count)),
            WriteError::Mismatch(place) => WriteError::Mismatch(place.saturating_sub(count)),
        }
    }
}
