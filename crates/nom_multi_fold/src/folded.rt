//! The value of a fold, as it is carried from item to item.
ghost use Rattle.nom_internal.specs.Prelude.{Built};
ghost use Rattle.nom_multi_fold.specs.Folded.{FoldPushes, CanFold, IsStart, IsCarried};

use nom_error::answer::OutOfMemory;
use nom_error::mode::Mode;
use nom_repeat::accumulator::Accumulator;

/// The value that a fold carries, and the closure that makes the next value from an item.
///
/// Between two items there is a value.
#[derive(Drop)]
pub struct Folded<'a, R, G> {
    pub value: Option<R>,
    pub fold: &'a G,
}

impl<'a, T: Drop, R: Drop, G: Fn(R, T) -> R> Accumulator<T> for Folded<'a, R, G> {
    ghost Pushes = { FoldPushes (λ k. k.value) (λ k. k.fold.now) G.post };

    ghost CanPush = { CanFold (λ k. k.value) (λ k. k.fold.now) G.pre };

    ghost LacksRoom = { λ _ _ _. ⊥ };

    ghost Grows = { ⊥ };

    ghost lacking = { λ _ _ _ h. h };

    ghost HasRoom = { λ _ _. Unit {0} };

    #[inline(always)]
    fn has_room(&self, _count: usize) -> bool {
        true
    }

    #[inline(always)]
    fn push(&mut self, item: T) -> Result<(), OutOfMemory> {
        match self.value.take() {
            Some(value) => {
                self.value = Some((self.fold)(value, item));
                Ok(())
            }
            None => unreachable!(),
        }
    }
}

/// Returns the first value, if outputs are built.
#[inline(always)]
pub fn start<'a, M: Mode, T, R, H: Fn() -> R, G: Fn(R, T) -> R>(
    init: &H,
    fold: &'a G,
) -> Option<Folded<'a, R, G>>
    requires init { H.pre init.now }
    requires takes { (r : R) (x : T) → G.pre fold.now r x }
    ensures starts { Built M.BUILDS (IsStart (λ k. k.value) (λ k. k.fold.now) (H.post init.now) fold.now) result }
    ensures ready { Built M.BUILDS (CanFold (λ k. k.value) (λ k. k.fold.now) G.pre) result }
{
    if M::BUILDS {
        Some(Folded {
            value: Some(init()),
            fold,
        })
    } else {
        None
    }
}

/// Returns the value that a fold carries, if outputs are built.
#[inline(always)]
pub fn carried<'a, R: Drop, G>(kept: Option<Folded<'a, R, G>>) -> Option<R>
    ensures { IsCarried (λ k. k.value) kept.entry result }
{
    match kept {
        Some(kept) => kept.value,
        None => None,
    }
}
