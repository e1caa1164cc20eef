//! The items of a reader.
ghost use Rattle.std.specs.Prelude.{◌≤◌, vec_len};

use crate::held::Held;
use crate::item_parser::ItemParser;
use crate::settings::Settings;
use crate::step::{Taken, needed_of, take};
use nom_error::answer::{Err as Why, Needed};
use nom_error::kind::ErrorKind;
use nom_io::counted::Counted;
use std::alloc::Allocator;
use std::io;
use std::io::Read;

/// The reason why bytes couldn't be read.
#[derive(Clone, Copy, Debug)]
pub enum Unread {
    /// A read failed.
    Fault(io::Error),
    /// Memory ran out.
    OutOfMemory,
}

/// The reason why there is no item.
///
/// No byte that was read is lost. It is held, and the item begins at the stream's offset.
#[derive(Clone, Copy, Debug)]
pub enum Stop {
    /// The item was refused, with the kind of the error and the length of the input that the error holds.
    ///
    /// The error's input is the held bytes, or a part of them that a parser cut off, as `length_value` does.
    Refused(ErrorKind, usize),
    /// The item failed, with the kind of the error and the length of the input that the error holds.
    Failed(ErrorKind, usize),
    /// The item has no bytes. Such items would never end.
    Nothing,
    /// The data ended within the item.
    Incomplete(Needed),
    /// As many bytes are held as may be, and they don't decide the item.
    TooLong,
    /// A read failed, other than by an interruption. The call can be made again.
    Fault(io::Error),
    /// Memory ran out. The call can be made again.
    OutOfMemory,
}

/// The items of a reader, one for each `next_item`.
#[derive(Drop)]
pub struct Stream<R, A: Allocator> {
    pub source: Counted<R>,
    pub held: Held<A>,
    pub settings: Settings,
    /// The number of bytes of the items so far. It stays at the greatest `u64`.
    pub offset: u64,
    /// Whether the reader has reached its end.
    pub ended: bool,
    /// The error of a failed read that isn't reported yet.
    ///
    /// The read failed after others had given bytes, and these decided. The error is reported before anything
    /// else is read.
    pub pending: Option<io::Error>,
    /// The buffer, with the bytes that are used and the room for more, is never longer than the most bytes that may be held.
    pub ghost bounded: { vec_len held.bytes ≤ settings.most },
}

impl<R: Read, A: Allocator + Copy> Stream<R, A> {
    ghost use Rattle.std.specs.Prelude.{◌≡◌, false, ◌<◌, ◌+◌, ◌^◌, None, Err, IfOk, IfSome, [], length, vec_capacity};
    ghost use Rattle.nom_stream.specs.Held.{held_of, last_of};
    ghost use Rattle.nom_stream.specs.Streams.{CountsOnce, Decides, Ends, MayWait, ReadsNothing};
    ghost use Rattle.nom_stream.specs.Streams.{ReadsOnce, IsItemResult, Waited, counted};

    /// Returns a stream that starts at the reader's present place.
    pub fn new(alloc: A, source: R, settings: Settings) -> Self
        ensures starts { result.ended ≡ false }
        ensures source { (result.source.inner ≡ source) × (result.source.faults.count ≡ 0) }
        ensures told { result.pending ≡ None }
        ensures none { held_of result.held ≡ [] }
        ensures offset { result.offset ≡ 0 }
        ensures settings { result.settings ≡ settings }
    {
        Stream {
            source: Counted::new(source),
            held: Held::new(alloc),
            settings,
            offset: 0,
            ended: false,
            pending: None,
        }
    }

    // One read of that many bytes at the most, which the limit leaves room for; none are read at the end.
    fn read_once(&mut self, count: usize) -> Result<usize, Unread>
        requires goes_on { self.old.ended ≡ false }
        requires some { 0 < count }
        requires most { length (held_of self.old.held) + count ≤ self.old.settings.most }
        requires fits { length (held_of self.old.held) + count < 2 ^ 64 }
        ensures reads { ReadsOnce R.remaining self.old self.new result }
        ensures bound { IfOk result (λ n. n ≤ count) }
        ensures memory { result ≡ Err Unread.OutOfMemory → vec_capacity self.new.held.bytes < length (held_of self.new.held) + count }
        ensures counts { CountsOnce self.old.source.faults self.new.source.faults result }
        ensures others { (self.new.settings ≡ self.old.settings) × (self.new.offset ≡ self.old.offset) × (self.new.ended ≡ false)
            × (self.new.pending ≡ self.old.pending) }
    {
        match self.held.find_room(count, self.settings.most) {
            Ok(()) => {}
            Err(_) => return Err(Unread::OutOfMemory),
        }
        match self.held.read_from(&mut self.source, count) {
            Ok(given) => Ok(given),
            Err(error) => Err(Unread::Fault(error)),
        }
    }

    // Reads that many bytes, unless the reader comes to its end, or the limit is reached; some at least. No read is made once
    // they are there. Where one fails after others gave bytes, these are parsed before the fault is told.
    #[inline(never)]
    fn read_wanted(&mut self, wants: usize) -> Result<(), Unread>
        requires { MayWait self.old wants }
        ensures { Waited R.remaining self.old self.new wants result }
    {
        match self.pending {
            Some(error) => {
                self.pending = None;
                return Err(Unread::Fault(error));
            }
            None => {}
        }
        let mut wanted = wants;
        while wanted > 0 && self.held.len() < self.settings.most {
            let spare = self.settings.most - self.held.len();
            let count = self.settings.read.max(1).min(spare);
            match self.read_once(count) {
                Ok(given) => {
                    if given == 0 {
                        self.ended = true;
                        return Ok(());
                    }
                    wanted = wanted.saturating_sub(given);
                }
                Err(Unread::Fault(error)) => {
                    if wanted == wants {
                        return Err(Unread::Fault(error));
                    }
                    self.pending = Some(error);
                    return Ok(());
                }
                Err(Unread::OutOfMemory) => return Err(Unread::OutOfMemory),
            }
        }
        Ok(())
    }

    // The same, inlined, so that the slot of the answer is cleared on this path alone, as in `end`.
    #[inline(always)]
    fn fill(&mut self, wants: usize) -> Result<(), Unread>
        requires { MayWait self.old wants }
        ensures { Waited R.remaining self.old self.new wants result }
    {
        self.read_wanted(wants)
    }

    // What is told of what was taken; the bytes of an item are counted.
    #[inline(always)]
    fn tell<T: Drop>(&mut self, taken: Taken<T>) -> Result<Option<(usize, T)>, Stop>
        ensures tells { IsItemResult taken result }
        ensures offset { self.new.offset ≡ counted self.old.offset result }
        ensures others { (self.new.source ≡ self.old.source) × (self.new.held ≡ self.old.held)
            × (self.new.settings ≡ self.old.settings) × (self.new.ended ≡ self.old.ended) × (self.new.pending ≡ self.old.pending) }
    {
        match taken {
            Ok((used, item)) => {
                if used == 0 {
                    return Err(Stop::Nothing);
                }
                self.offset = self.offset.saturating_add(used as u64);
                Ok(Some((used, item)))
            }
            Err(Why::Incomplete(needed)) => Err(Stop::Incomplete(needed)),
            Err(Why::Error((kind, len))) => Err(Stop::Refused(kind, len)),
            Err(Why::Failure((kind, len))) => Err(Stop::Failed(kind, len)),
            Err(Why::OutOfMemory) => Err(Stop::OutOfMemory),
        }
    }

    // What is told at the end of the reader, where what is held isn't decided.
    #[inline(never)]
    fn finish<G: ItemParser>(
        &mut self,
        needed: Needed,
        grammar: &mut G,
    ) -> Result<Option<(usize, G::Item)>, Stop>
        requires runs { (G.grammar (G.state grammar.old)).meaning.Runs }
        ensures kept { G.state grammar.new ≡ G.state grammar.old }
        ensures ends { Ends (G.grammar (G.state grammar.old)) self.old self.new needed result }
        ensures others { ReadsNothing self.old self.new result }
    {
        if self.held.len() == 0 {
            return Ok(None);
        }
        if !self.settings.complete {
            return Err(Stop::Incomplete(needed));
        }
        let taken = take(&mut self.held, grammar, false);
        self.tell(taken)
    }

    // The same, inlined. The slot of the answer, which a fault makes large, is cleared on this path alone. Without this function
    // it is cleared for each item, which takes a third more time where items have 8 bytes.
    #[inline(always)]
    fn end<G: ItemParser>(
        &mut self,
        needed: Needed,
        grammar: &mut G,
    ) -> Result<Option<(usize, G::Item)>, Stop>
        requires runs { (G.grammar (G.state grammar.old)).meaning.Runs }
        ensures kept { G.state grammar.new ≡ G.state grammar.old }
        ensures ends { Ends (G.grammar (G.state grammar.old)) self.old self.new needed result }
        ensures others { ReadsNothing self.old self.new result }
    {
        self.finish(needed, grammar)
    }

    /// Returns the next item with the number of its bytes, or `None` at the end of the data.
    ///
    /// It parses the held bytes. If they don't decide, it reads more and parses again. An item's bytes are no
    /// longer held, but `last` borrows them until the next call. At the end no more is read.
    ///
    /// After a `Stop` all bytes are held, and the call can be made again. At a fault the held bytes don't
    /// decide; the same is true if there is no room for more.
    #[inline(always)]
    pub fn next_item<G: ItemParser>(
        &mut self,
        grammar: &mut G,
    ) -> Result<Option<(usize, G::Item)>, Stop>
        requires runs { (G.grammar (G.state grammar.old)).meaning.Runs }
        ensures kept { G.state grammar.new ≡ G.state grammar.old }
        ensures decides { Decides R.remaining (G.grammar (G.state grammar.old)) self.old self.new result }
        ensures offset { self.new.offset ≡ counted self.old.offset result }
        ensures last { IfOk result (λ r. IfSome r (λ p. p.0 ≤ self.new.held.start)) }
        ensures settings { self.new.settings ≡ self.old.settings }
    {
        // Whether there was no room for more bytes: those that came before that may decide.
        let mut lacks = false;
        'parses: loop {
            let taken = take(&mut self.held, grammar, true);
            let needed = match needed_of(&taken) {
                Some(needed) => needed,
                None => return self.tell(taken),
            };
            if self.ended {
                return self.end(needed, grammar);
            }
            if lacks {
                return Err(Stop::OutOfMemory);
            }
            let held = self.held.len();
            if self.settings.most <= held {
                return Err(Stop::TooLong);
            }
            let wanted = self.settings.wanted(needed, held);
            match self.fill(wanted) {
                Ok(()) => {}
                Err(Unread::Fault(error)) => return Err(Stop::Fault(error)),
                Err(Unread::OutOfMemory) => lacks = true,
            }
        }
    }

    /// Returns the bytes of the last item; `used` is how many they are.
    pub fn last(&self, used: usize) -> &[u8]
        requires used { used ≤ self.now.held.start }
        ensures { result.now ≡ last_of used self.now.held }
    {
        self.held.last(used)
    }

    /// Returns the bytes that were read and that no item had.
    pub fn held(&self) -> &[u8]
        ensures { result.now ≡ held_of self.now.held }
    {
        self.held.as_slice()
    }

    /// Returns the reader, and the bytes that were read and that no item had.
    pub fn into_parts(self) -> (R, Vec<u8, A>)
        ensures source { result.0 ≡ self.source.inner }
        ensures held { result.1.items ≡ held_of self.held }
    {
        let Stream { source, held, .. } = self;
        (source.into_inner(), held.into_vec())
    }
}
