//! Values that can be appended to builders.
ghost use Rattle.std.specs.Prelude.{◌≡◌, ℕ, ◌+◌, ◌<◌, ◌++◌, List, [], length, chars, encode_utf8, encode_utf8_all, is_ok, map, OnErr, string_bytes};
ghost use Rattle.std.specs.Prelude.{string_capacity, string_len, vec_capacity, vec_len, if◌then◌else◌};
ghost use Rattle.std.proofs.Common.{ap};

use nom_error::answer::OutOfMemory;
use nom_traits::input::Items;
use nom_traits::view::Viewed;
use std::alloc::{AllocError, Allocator};

/// A growing list of parts, to which values are appended. Builders are compared by their parts.
pub trait Builder: Viewed {
    /// The type of the parts.
    type Part;

    /// The parts, in their order.
    ghost parts: { Self → List Self.Part };

    /// Builders of the same parts have equal views.
    ghost views: { (x y : Self) → parts x ≡ parts y → Self.view.value x ≡ Self.view.value y };
}

impl<T: Viewed, A: Allocator> Builder for Vec<T, A> {
    type Part = T;

    ghost parts = { λ v. v.items };

    ghost views = { λ x y h. ap (map T.view.value) h };
}

/// Builds a text from the bytes of its UTF-8 form.
impl<A: Allocator> Builder for String<A> {
    type Part = u8;

    ghost parts = { string_bytes };

    ghost views = { λ x y h. ap chars h };
}

/// A value that can be appended to a builder, which takes its memory from an allocator of type `A`.
pub trait ExtendInto<A: Allocator + Copy>: Viewed {
    /// The type of the value's items.
    type Item;

    /// The builder to which the value is appended.
    type Extender: Builder;

    /// The parts that the value adds.
    ghost added: { Self → List Self.Extender.Part };

    /// The builder has to grow before the value fits.
    ghost grows: { Self → Self.Extender → Type 0 };

    /// Returns an empty builder.
    fn new_builder(&self, alloc: A) -> Self::Extender
        ensures { Self.Extender.parts result ≡ [] };

    /// Appends the value. If memory runs out, the builder stays as it was.
    fn extend_into(&self, acc: &mut Self::Extender) -> Result<(), OutOfMemory>
        ensures parts { Self.Extender.parts acc.new ≡ (if is_ok result then Self.Extender.parts acc.old ++ added self.now else Self.Extender.parts acc.old) }
        ensures full { OnErr result (grows self.now acc.old) };

    /// Values that have equal views add the same parts.
    ghost views: { (x y : Self) → Self.view.value x ≡ Self.view.value y → added x ≡ added y };
}

impl<A: Allocator + Copy> ExtendInto<A> for &[u8] {
    type Item = u8;

    type Extender = Vec<u8, A>;

    ghost added = { λ s. s.now };

    ghost grows = { λ s b. vec_capacity b < vec_len b + length s.now };

    #[inline(always)]
    fn new_builder(&self, alloc: A) -> Vec<u8, A> {
        Vec::new(alloc)
    }

    #[inline(always)]
    fn extend_into(&self, acc: &mut Vec<u8, A>) -> Result<(), OutOfMemory> {
        told(acc.extend_from_slice(self))
    }

    ghost views = { λ x y h. h };
}

/// Appends the UTF-8 form of the characters of a text.
impl<A: Allocator + Copy> ExtendInto<A> for &str {
    type Item = char;

    type Extender = String<A>;

    ghost added = { λ s. encode_utf8_all (chars s.now) };

    ghost grows = { λ s b. string_capacity b < string_len b + length s.now };

    #[inline(always)]
    fn new_builder(&self, alloc: A) -> String<A> {
        String::new(alloc)
    }

    #[inline(always)]
    fn extend_into(&self, acc: &mut String<A>) -> Result<(), OutOfMemory> {
        let text = *self;
        text.known();
        told(acc.push_str(text))
    }

    ghost views = { λ x y h. ap encode_utf8_all h };
}

impl<A: Allocator + Copy> ExtendInto<A> for char {
    type Item = char;

    type Extender = String<A>;

    ghost added = { encode_utf8 };

    ghost grows = { λ c b. string_capacity b < string_len b + length (encode_utf8 c) };

    #[inline(always)]
    fn new_builder(&self, alloc: A) -> String<A> {
        String::new(alloc)
    }

    #[inline(always)]
    fn extend_into(&self, acc: &mut String<A>) -> Result<(), OutOfMemory> {
        told(acc.push(*self))
    }

    ghost views = { λ x y h. ap encode_utf8 h };
}

/// Converts the result of a growth.
#[inline(always)]
fn told(grown: Result<(), AllocError>) -> Result<(), OutOfMemory>
    ensures { is_ok result ≡ is_ok grown }
{
    match grown {
        Ok(()) => Ok(()),
        Err(_) => Err(OutOfMemory),
    }
}
