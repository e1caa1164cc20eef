//! The prefixes of a term, kept until its operand is read.
ghost use Rattle.std.specs.Prelude.{◌≡◌, ◌++◌, ◌∷◌, [], IfNone, IsSome};
ghost use Rattle.nom_internal.specs.Prelude.{Built};
ghost use Rattle.nom_operators.specs.Prefixes.{prefixes_in, prefixes_view};
ghost use Rattle.nom_repeat.specs.Lists.{ListLacksRoom};

use nom_error::answer::OutOfMemory;
use nom_error::mode::Mode;
use nom_repeat::accumulator::Accumulator;
use nom_traits::view::Viewed;
use std::alloc::Allocator;

/// The prefixes of a term, in order.
///
/// Most terms have one at most. The first stands inline, so that one takes no memory.
#[derive(Drop)]
pub struct Prefixes<P, A: Allocator> {
    pub first: Option<P>,
    pub more: Vec<P, A>,
}

impl<P: Viewed, A: Allocator> Viewed for Prefixes<P, A> {
    ghost view = { prefixes_view P.view };
}

impl<P: Drop, A: Allocator> Accumulator<P> for Prefixes<P, A> {
    ghost Pushes = { λ old x new. prefixes_in new ≡ prefixes_in old ++ x ∷ [] };

    ghost CanPush = { λ k. IfNone k.first (k.more.items ≡ []) };

    ghost LacksRoom = { λ old _ new. IsSome old.first × ListLacksRoom old.more new.more };

    ghost Grows = { Unit {0} };

    ghost lacking = { λ _ _ _ _. tt };

    #[inline(always)]
    fn push(&mut self, item: P) -> Result<(), OutOfMemory> {
        if self.first.is_some() {
            Accumulator::push(&mut self.more, item)
        } else {
            self.first = Some(item);
            Ok(())
        }
    }
}

/// Returns no prefixes, if outputs are built. They take no memory.
#[inline(always)]
pub fn no_prefixes<M: Mode, P, A: Allocator>(alloc: A) -> Option<Prefixes<P, A>>
    ensures empty { Built M.BUILDS (λ k. prefixes_in k ≡ []) result }
    ensures ready { Built M.BUILDS (λ k. IfNone k.first (k.more.items ≡ [])) result }
{
    if M::BUILDS {
        Some(Prefixes {
            first: None,
            more: Vec::new(alloc),
        })
    } else {
        None
    }
}
