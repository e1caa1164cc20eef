//! All items of a stream, in turn.
ghost use Rattle.std.specs.Prelude.{◌≡◌};
ghost use Rattle.nom_stream.specs.Each.{FoldsEach, GivesEach};

use crate::item_parser::ItemParser;
use crate::stream::{Stop, Stream};
use std::alloc::Allocator;
use std::io::Read;

impl<R: Read, A: Allocator + Copy> Stream<R, A> {
    /// Calls `f` with each item until the data ends, and returns the number of items.
    ///
    /// The calls of `next_item` return the items. At a `Stop` all items before it were given to `f`, and the
    /// call can be made again. It also returns after 2^64 - 1 items.
    #[inline(always)]
    pub fn for_each_item<G: ItemParser, F: FnMut(G::Item)>(
        &mut self,
        grammar: &mut G,
        mut f: F,
    ) -> Result<u64, Stop>
    where
        F: Drop,
        requires runs { (G.grammar (G.state grammar.old)).meaning.Runs }
        requires callable { F.IsAlwaysCallable f }
        ensures kept { G.state grammar.new ≡ G.state grammar.old }
        ensures items { GivesEach R.remaining (G.grammar (G.state grammar.old)) (λ p x q. F.step p x tt q) self.old self.new f result }
    {
        for turn in 0..u64::MAX {
            match self.next_item(grammar) {
                Ok(Some((_used, item))) => f(item),
                Ok(None) => return Ok(turn),
                Err(stop) => return Err(stop),
            }
        }
        Ok(u64::MAX)
    }

    /// Calls `f` with what it returned last, `init` at first, and each item, until the data ends.
    ///
    /// It returns what `f` returned last. At a `Stop` that is dropped. It also returns after 2^64 - 1 items.
    #[inline(always)]
    pub fn fold_items<G: ItemParser, B: Drop, F: FnMut(B, G::Item) -> B>(
        &mut self,
        grammar: &mut G,
        init: B,
        mut f: F,
    ) -> Result<B, Stop>
    where
        F: Drop,
        requires runs { (G.grammar (G.state grammar.old)).meaning.Runs }
        requires callable { F.IsAlwaysCallable f }
        ensures kept { G.state grammar.new ≡ G.state grammar.old }
        ensures items { FoldsEach R.remaining (G.grammar (G.state grammar.old)) (λ f b x g c. F.step f b x c g) self.old self.new f init result }
    {
        let mut acc = init;
        for _turn in 0..u64::MAX {
            match self.next_item(grammar) {
                Ok(Some((_used, item))) => acc = f(acc, item),
                Ok(None) => return Ok(acc),
                Err(stop) => return Err(stop),
            }
        }
        Ok(acc)
    }
}
