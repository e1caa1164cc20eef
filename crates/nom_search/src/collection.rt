//! Collections of consecutive items.
ghost use Rattle.std.specs.Prelude.{◌≡◌, ℕ, ◌+◌, ◌<◌, ◌≤◌, List, [], ◌∷◌, ◌++◌, length, map, chars, encode_utf8, is_ok, OnErr, if◌then◌else◌};
ghost use Rattle.std.specs.Prelude.{string_bytes, string_capacity, string_len, vec_capacity, vec_len};
ghost use Rattle.std.specs.VecDeque.{deque_items, deque_len, deque_capacity};

use nom_error::answer::OutOfMemory;
use nom_traits::view::Viewed;
use std::alloc::Allocator;
use std::collections::VecDeque;

/// A collection of items of type `T`, in memory of an allocator of type `A`.
pub trait Collection<T, A: Allocator>: Drop {
    /// The items, in their order.
    ghost items: { Self → List T };

    /// The collection has to grow before the item fits.
    ghost grows: { T → Self → Type 0 };

    /// Returns an empty collection. It takes no memory.
    fn empty(alloc: A) -> Self
        ensures { items result ≡ [] };

    /// Appends an item. If memory runs out, the collection stays as it was, and the item is dropped.
    fn append(&mut self, item: T) -> Result<(), OutOfMemory>
        ensures items { items self.new ≡ (if is_ok result then items self.old ++ item ∷ [] else items self.old) }
        ensures full { OnErr result (grows item self.old) };
}

/// A collection that is compared by its items.
pub trait ViewedCollection<T: Viewed, A: Allocator>: Collection<T, A> + Viewed {
    /// Collections whose items have equal views have equal views.
    ghost views: { (x y : Self) → map T.view.value (Self.items x) ≡ map T.view.value (Self.items y) → Self.view.value x ≡ Self.view.value y };
}

impl<T: Drop, A: Allocator> Collection<T, A> for Vec<T, A> {
    ghost items = { λ v. v.items };

    ghost grows = { λ _ v. vec_capacity v ≤ vec_len v };

    #[inline(always)]
    fn empty(alloc: A) -> Vec<T, A> {
        Vec::new(alloc)
    }

    #[inline(always)]
    fn append(&mut self, item: T) -> Result<(), OutOfMemory> {
        match self.push(item) {
            Ok(()) => Ok(()),
            Err(_item) => Err(OutOfMemory),
        }
    }
}

impl<T: Viewed + Drop, A: Allocator> ViewedCollection<T, A> for Vec<T, A> {
    ghost views = { λ x y h. h };
}

impl<T: Drop, A: Allocator> Collection<T, A> for VecDeque<T, A> {
    ghost items = { deque_items };

    ghost grows = { λ _ v. deque_capacity v ≤ deque_len v };

    #[inline(always)]
    fn empty(alloc: A) -> VecDeque<T, A> {
        VecDeque::new(alloc)
    }

    #[inline(always)]
    fn append(&mut self, item: T) -> Result<(), OutOfMemory> {
        match self.push_back(item) {
            Ok(()) => Ok(()),
            Err(_) => Err(OutOfMemory),
        }
    }
}

impl<T: Viewed + Drop, A: Allocator> ViewedCollection<T, A> for VecDeque<T, A> {
    ghost views = { λ x y h. h };
}

/// Collects characters in a text.
impl<A: Allocator> Collection<char, A> for String<A> {
    ghost items = { λ s. chars (string_bytes s) };

    ghost grows = { λ c s. string_capacity s < string_len s + length (encode_utf8 c) };

    #[inline(always)]
    fn empty(alloc: A) -> String<A> {
        String::new(alloc)
    }

    #[inline(always)]
    fn append(&mut self, character: char) -> Result<(), OutOfMemory> {
        match self.push(character) {
            Ok(()) => Ok(()),
            Err(_) => Err(OutOfMemory),
        }
    }
}

impl<A: Allocator> ViewedCollection<char, A> for String<A> {
    ghost use Rattle.nom_search.specs.Characters.{same_characters};

    ghost views = { λ x y h. same_characters (chars (string_bytes x)) (chars (string_bytes y)) h };
}
