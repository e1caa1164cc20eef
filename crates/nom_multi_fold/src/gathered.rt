//! A collection to which items are appended.
ghost use Rattle.std.specs.Prelude.{◌≡◌, []};
ghost use Rattle.nom_internal.specs.Prelude.{Built};
ghost use Rattle.nom_multi_fold.specs.Ranges.{Gathers, IsGathered};

use nom_error::answer::OutOfMemory;
use nom_error::mode::Mode;
use nom_repeat::accumulator::Accumulator;
use nom_search::collection::Collection;
use std::alloc::Allocator;
use std::marker::PhantomData;

/// A collection in memory of an allocator of type `A`, as an accumulator of items.
#[derive(Drop)]
pub struct Gathered<C, A> {
    pub collection: C,
    pub allocator: PhantomData<A>,
}

impl<T, A: Allocator, C: Collection<T, A>> Accumulator<T> for Gathered<C, A> {
    ghost Pushes = { Gathers (λ k. C.items k.collection) };

    ghost CanPush = { λ _. Unit {0} };

    ghost LacksRoom = { λ k x _. C.grows x k.collection };

    ghost Grows = { Unit {0} };

    ghost lacking = { λ _ _ _ _. tt };

    #[inline(always)]
    fn push(&mut self, item: T) -> Result<(), OutOfMemory> {
        self.collection.append(item)
    }
}

/// Returns an empty collection, if outputs are built. It takes no memory.
#[inline(always)]
pub fn gather<M: Mode, T, A: Allocator, C: Collection<T, A>>(alloc: A) -> Option<Gathered<C, A>>
    ensures empty { Built M.BUILDS (λ k. C.items k.collection ≡ []) result }
    ensures ready { Built M.BUILDS (λ _. Unit {0}) result }
{
    if M::BUILDS {
        Some(Gathered {
            collection: C::empty(alloc),
            allocator: PhantomData,
        })
    } else {
        None
    }
}

/// Returns the collection, if outputs are built.
#[inline(always)]
pub fn collected<C: Drop, A>(kept: Option<Gathered<C, A>>) -> Option<C>
    ensures { IsGathered (λ k. k.collection) kept result }
{
    match kept {
        Some(kept) => Some(kept.collection),
        None => None,
    }
}
