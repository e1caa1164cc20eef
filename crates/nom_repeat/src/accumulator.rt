//! Accumulators of items.
ghost use Rattle.std.specs.Prelude.{◌≡◌, ◌+◌, ◌%◌, ◌^◌, ◌<◌, ◌≤◌, ◌++◌, ◌∷◌, [], ℕ, IfOk, IsTrue, OnOk, OnErr, false, true, vec_len, vec_capacity};
ghost use Rattle.nom_internal.specs.Prelude.{Built};
ghost use Rattle.nom_repeat.specs.Accumulated.{PushesBoth, LacksRoomBoth, KeepsRoom, HasRoomFor};
ghost use Rattle.nom_repeat.specs.Lists.{ListHasRoom, ListLacksRoom, ListPushes};

use core::mem::replace_with;
use nom_error::answer::OutOfMemory;
use nom_error::mode::Mode;
use std::alloc::Allocator;
use std::mem::size_of_val;

/// The number of bytes for which a list gets room with its first item.
///
/// A short list of small items is then allocated once. A list that doubles from 4 items is allocated again
/// and again.
const FIRST_ROOM: usize = 64;

/// The maximum number of items for which a list gets room with its first item, where the input claims so many.
///
/// None of the others has been read yet.
const MOST_AHEAD: usize = 1024;

/// An accumulator of items of type `T`: a list, a number, or the value of a fold.
pub trait Accumulator<T> {
    /// The accumulator after one more item.
    ghost Pushes: { Self → T → Self → Type 0 };

    /// The premise of a push: everything that is called to push an item may be called.
    ghost CanPush: { Self → Type 0 };

    /// There was no room for an item, and there is none after memory for it was refused.
    ghost LacksRoom: { Self → T → Self → Type 0 };

    /// Accumulating items may take memory.
    ghost Grows: { Type 0 };

    ghost lacking: { (k : Self) (x : T) (new : Self) → LacksRoom k x new → Grows };

    /// There is room for a number of items.
    ghost HasRoom: { Self → ℕ → Type 0 } = { λ _ _. ⊥ };

    /// It is known whether there is room.
    ghost KnowsRoom: { Type 0 } = { ⊥ };

    /// Returns whether there is room for `count` items, as far as this is known.
    #[inline(always)]
    fn has_room(&self, count: usize) -> bool
        ensures { IsTrue result → HasRoom self.now count }
    {
        false
    }

    /// Pushes an item. Memory may run out only if there is no room.
    fn push(&mut self, item: T) -> Result<(), OutOfMemory>
        requires { CanPush self.old }
        ensures kept { OnOk result (Pushes self.old item self.new) }
        ensures next { OnOk result (CanPush self.new) }
        ensures lacks { OnErr result (LacksRoom self.old item self.new) }
        ensures room { KeepsRoom HasRoom self.old self.new result };

    /// Pushes an item into an accumulator that has room for it, if accumulators of the type know their room.
    #[inline(always)]
    fn push_with_room(&mut self, item: T)
        requires ready { CanPush self.old }
        requires room { KnowsRoom → (n : ℕ) × HasRoom self.old (n + 1) }
        ensures { (n : ℕ) → HasRoom self.old (n + 1) → Pushes self.old item self.new × CanPush self.new × HasRoom self.new n }
    {
        match self.push(item) {
            Ok(()) => {}
            // There was no room.
            Err(_) => {}
        }
    }
}

/// Collects the items in a list, in their order.
impl<T: Drop, A: Allocator> Accumulator<T> for Vec<T, A> {
    ghost Pushes = { λ old x new. ListPushes old x new };

    ghost CanPush = { λ _. Unit {0} };

    ghost LacksRoom = { λ old _ new. ListLacksRoom old new };

    ghost Grows = { Unit {0} };

    ghost lacking = { λ _ _ _ _. tt };

    ghost HasRoom = { λ list n. ListHasRoom list n };

    ghost KnowsRoom = { Unit {0} };

    #[inline(always)]
    fn has_room(&self, count: usize) -> bool {
        self.len() <= self.capacity() && count <= self.capacity() - self.len()
    }

    #[inline(always)]
    fn push(&mut self, item: T) -> Result<(), OutOfMemory> {
        let first = first_room(size_of_val(&item));
        push_one(self, item, first)
    }

    #[inline(always)]
    fn push_with_room(&mut self, item: T) {
        self.push_reserved(item);
    }
}

/// Counts the items, modulo 2^64.
///
/// A saturating count would wait for each sum before the next one. No input has that many items that consume
/// something.
impl<T: Drop> Accumulator<T> for usize {
    ghost Pushes = { λ old _ new. new ≡ (old + 1) % 2 ^ 64 };

    ghost CanPush = { λ _. Unit {0} };

    ghost LacksRoom = { λ _ _ _. ⊥ };

    ghost Grows = { ⊥ };

    ghost lacking = { λ _ _ _ h. h };

    ghost HasRoom = { λ _ _. Unit {0} };

    #[inline(always)]
    fn has_room(&self, _count: usize) -> bool {
        true
    }

    #[inline(always)]
    fn push(&mut self, _item: T) -> Result<(), OutOfMemory> {
        *self = self.wrapping_add(1);
        Ok(())
    }
}

/// Returns the number of items that `FIRST_ROOM` bytes hold, or 0 if an item takes no bytes.
// The size is a constant of the item's type, so this is one too once it is compiled, and a list of large items isn't
// tested for it at each push.
#[inline(always)]
fn first_room(item_size: usize) -> usize {
    if item_size == 0 {
        0
    } else {
        FIRST_ROOM / item_size
    }
}

/// Pushes an item. If the list has no room for it, it is made larger; an empty list gets room for `first` items, at least one.
#[inline(always)]
fn push_one<T: Drop, A: Allocator>(
    list: &mut Vec<T, A>,
    item: T,
    first: usize,
) -> Result<(), OutOfMemory>
    ensures kept { OnOk result (ListPushes list.old item list.new) }
    ensures lacks { OnErr result (ListLacksRoom list.old list.new) }
    ensures room { KeepsRoom ListHasRoom list.old list.new result }
{
    if list.capacity() <= list.len() {
        // The list is moved out and back. If it were passed by reference, it would lie in memory, even where it has room.
        replace_with(list, first, larger)?;
    }
    list.push_reserved(item);
    Ok(())
}

/// Makes room for another item in a full list, and for `first` items in an empty one.
// Apart and cold, so that only the test stands where items are pushed.
#[cold]
#[inline(never)]
fn larger<T, A: Allocator>(list: Vec<T, A>, first: usize) -> (Vec<T, A>, Result<(), OutOfMemory>)
    ensures items { result.0.items ≡ list.items }
    ensures room { OnOk result.1 (vec_len result.0 < vec_capacity result.0) }
    ensures lacks { OnErr result.1 (vec_capacity list ≤ vec_len list → vec_capacity result.0 ≤ vec_len result.0) }
{
    let mut list = list;
    let more = if list.is_empty() { first.max(1) } else { 1 };
    let made = match list.reserve(more) {
        Ok(()) => Ok(()),
        Err(_) => Err(OutOfMemory),
    };
    (list, made)
}

/// Pushes an item if outputs are built.
#[inline(always)]
pub fn push_item<M: Mode, T: Drop, K: Accumulator<T>>(
    kept: &mut Option<K>,
    item: Option<T>,
) -> Result<(), OutOfMemory>
    requires kept { Built M.BUILDS K.CanPush kept.old }
    requires item { Built M.BUILDS (λ _. Unit {0}) item }
    ensures kept { OnOk result (PushesBoth K.Pushes K.CanPush kept.old item kept.new) }
    ensures lacks { OnErr result (LacksRoomBoth K.LacksRoom kept.old item kept.new) }
{
    if !M::BUILDS {
        return Ok(());
    }
    match (kept, item) {
        (Some(kept), Some(item)) => kept.push(item),
        _ => unreachable!(),
    }
}

/// Pushes an item into a list, if outputs are built. With its first item the list gets room for `claimed` items, at most for
/// `MOST_AHEAD`.
#[inline(always)]
pub fn push_claimed<M: Mode, T: Drop, A: Allocator>(
    kept: &mut Option<Vec<T, A>>,
    item: Option<T>,
    claimed: usize,
) -> Result<(), OutOfMemory>
    requires kept { Built M.BUILDS (λ _. Unit {0}) kept.old }
    requires item { Built M.BUILDS (λ _. Unit {0}) item }
    ensures kept { OnOk result (PushesBoth ListPushes (λ _. Unit {0}) kept.old item kept.new) }
    ensures lacks { OnErr result (LacksRoomBoth (λ old _ new. ListLacksRoom old new) kept.old item kept.new) }
{
    if !M::BUILDS {
        return Ok(());
    }
    match (kept, item) {
        (Some(list), Some(item)) => push_one(list, item, claimed.min(MOST_AHEAD)),
        _ => unreachable!(),
    }
}

/// Pushes an item into an accumulator that has room for it, if outputs are built.
#[inline(always)]
pub fn push_within<M: Mode, T: Drop, K: Accumulator<T>>(kept: &mut Option<K>, item: Option<T>)
    requires kept { Built M.BUILDS K.CanPush kept.old }
    requires item { Built M.BUILDS (λ _. Unit {0}) item }
    requires room { (n : ℕ) × HasRoomFor K.HasRoom kept.old (n + 1) }
    ensures kept { PushesBoth K.Pushes K.CanPush kept.old item kept.new }
    ensures room { (n : ℕ) → HasRoomFor K.HasRoom kept.old (n + 1) → HasRoomFor K.HasRoom kept.new n }
{
    if !M::BUILDS {
        return;
    }
    match (kept, item) {
        (Some(kept), Some(item)) => kept.push_with_room(item),
        _ => unreachable!(),
    }
}

/// Returns whether an accumulator has room for `count` items. If there is no accumulator, it returns true.
#[inline(always)]
pub fn has_room_for<T, K: Accumulator<T>>(kept: &Option<K>, count: usize) -> bool
    ensures { IsTrue result → HasRoomFor K.HasRoom kept.now count }
{
    match kept {
        Some(kept) => kept.has_room(count),
        None => true,
    }
}

/// Returns an empty list if outputs are built. It takes no memory.
#[inline(always)]
pub fn none_yet<M: Mode, T, A: Allocator>(alloc: A) -> Option<Vec<T, A>>
    ensures empty { Built M.BUILDS (λ list. list.items ≡ []) result }
    ensures ready { Built M.BUILDS (λ _. Unit {0}) result }
{
    if M::BUILDS {
        Some(Vec::new(alloc))
    } else {
        None
    }
}

/// Returns an empty list with room for `room` items, if outputs are built.
#[inline(always)]
pub fn with_room<M: Mode, T: Drop, A: Allocator>(
    alloc: A,
    room: usize,
) -> Result<Option<Vec<T, A>>, OutOfMemory>
    ensures empty { IfOk result (λ made. Built M.BUILDS (λ list. list.items ≡ []) made) }
    ensures ready { IfOk result (λ made. Built M.BUILDS (λ _. Unit {0}) made) }
    ensures lacks { OnErr result ((M.BUILDS ≡ true) × (0 < room)) }
{
    if M::BUILDS {
        match Vec::with_capacity(alloc, room) {
            Ok(list) => Ok(Some(list)),
            Err(_) => Err(OutOfMemory),
        }
    } else {
        Ok(None)
    }
}
