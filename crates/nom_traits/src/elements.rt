//! Iterators over the bytes of a slice.
ghost use Rattle.std.specs.Prelude.{◌≡◌, ◌+◌, ◌<◌, ◌^◌, length};
ghost use Rattle.std.specs.Iterator.{YieldsFirst, item_count};
ghost use Rattle.nom_traits.specs.Input.{placed};

/// An iterator over the bytes of a slice.
#[derive(Clone, Drop)]
pub struct Bytes<'a> {
    rest: &'a [u8],
}

impl<'a> Bytes<'a> {
    /// Returns an iterator over the bytes of a slice.
    #[inline(always)]
    pub fn new(bytes: &'a [u8]) -> Self
        ensures { result.rest ≡ bytes.entry }
    {
        Bytes { rest: bytes }
    }
}

impl Iterator for Bytes<'_> {
    type Item = u8;

    ghost next_gives = { YieldsFirst (λ s. s.rest.now) };

    ghost remaining = { item_count (λ s. s.rest.now) };

    #[inline(always)]
    fn next(&mut self) -> Option<u8> {
        let rest = self.rest;
        if rest.is_empty() {
            return None;
        }
        self.rest = &rest[1..];
        Some(rest[0])
    }
}

/// An iterator over the bytes of a slice, each with its place.
#[derive(Clone, Drop)]
pub struct ByteIndices<'a> {
    rest: &'a [u8],
    place: usize,
}

impl<'a> ByteIndices<'a> {
    /// Returns an iterator over the bytes of a slice. The first byte is at place 0.
    #[inline(always)]
    pub fn new(bytes: &'a [u8]) -> Self
        ensures rest { result.rest ≡ bytes.entry }
        ensures place { result.place ≡ 0 }
    {
        ByteIndices {
            rest: bytes,
            place: 0,
        }
    }
}

impl Iterator for ByteIndices<'_> {
    type Item = (usize, u8);

    // The place after what is left is a number of the type.
    ghost can_next = { λ s. s.place + length s.rest.now < 2 ^ 64 };

    ghost next_gives = { YieldsFirst (λ s. placed (λ _. 1) s.place s.rest.now) };

    ghost remaining = { item_count (λ s. s.rest.now) };

    #[inline(always)]
    fn next(&mut self) -> Option<(usize, u8)> {
        let rest = self.rest;
        if rest.is_empty() {
            return None;
        }
        let place = self.place;
        self.rest = &rest[1..];
        self.place = place + 1;
        Some((place, rest[0]))
    }
}
