//! The settings of a stream.
ghost use Rattle.std.specs.Prelude.{◌≡◌, ◌<◌};
ghost use Rattle.nom_stream.specs.Wanted.{wanted_of};

use nom_error::answer::Needed;

/// The settings that determine how a stream reads.
#[derive(Clone, Copy, Debug, PartialEq, Eq)]
pub struct Settings {
    /// The most bytes that one read requests. A read requests 1 if this is 0.
    pub read: usize,
    /// The most bytes that are held. An item that these don't decide is too long.
    pub most: usize,
    /// Whether the stream waits for twice the held bytes before it parses an item again.
    ///
    /// If true, an item is parsed again only once twice as much of it is held. If its parser needs even more
    /// bytes, the stream waits for those. All parses of the item together then take at most about four times
    /// its bytes.
    ///
    /// If false, an item is parsed again as soon as the bytes that its parser needs have come. A peer that
    /// waits for an answer needs this. If the parser needs one byte, the item is parsed after each read.
    pub patient: bool,
    /// Whether an item that the end of the data leaves undecided is answered as a complete input.
    pub complete: bool,
}

impl Settings {
    /// Returns the number of bytes to wait for, if some are held and don't decide.
    #[inline]
    pub fn wanted(&self, needed: Needed, held: usize) -> usize
        ensures wanted { result ≡ wanted_of self.now needed held }
        ensures some { 0 < result }
    {
        let asked = match needed {
            Needed::Unknown => 1,
            Needed::Size(size) => size.get(),
        };
        if self.patient { asked.max(held) } else { asked }
    }
}
