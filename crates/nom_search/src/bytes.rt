//! Values as bytes.
ghost use Rattle.std.specs.Prelude.{◌≡◌, ℕ, ◌∷◌, List, [], encode_utf8};
ghost use Rattle.nom_search.specs.Reads.{ReadsBytes, bytes_read, text_read};

use nom_traits::input::Items;

/// A value that can be borrowed as bytes.
pub trait AsBytes {
    /// The bytes.
    ghost bytes: { Self → List ℕ };

    /// Borrows the bytes, without a copy.
    fn as_bytes(&self) -> &[u8]
        ensures { result.now ≡ bytes self.now };
}

impl AsBytes for &[u8] {
    ghost bytes = { λ s. s.now };

    #[inline(always)]
    fn as_bytes(&self) -> &[u8] {
        self
    }
}

/// Borrows the UTF-8 form of a text.
impl AsBytes for &str {
    ghost bytes = { λ s. s.now };

    #[inline(always)]
    fn as_bytes(&self) -> &[u8] {
        str::as_bytes(self)
    }
}

impl<const N: usize> AsBytes for [u8; N] {
    ghost bytes = { λ s. s };

    #[inline(always)]
    fn as_bytes(&self) -> &[u8] {
        self
    }
}

impl<const N: usize> AsBytes for &[u8; N] {
    ghost bytes = { λ s. s.now };

    #[inline(always)]
    fn as_bytes(&self) -> &[u8] {
        *self
    }
}

/// An input whose items are read as bytes.
pub trait ByteItems: Items + AsBytes {
    /// The bytes of an item.
    ghost read: { Self.Item → List ℕ };

    /// Does nothing. `AsBytes` borrows the bytes.
    #[inline(always)]
    fn reads(&self) {}

    /// The bytes are those of the items. An item has as many bytes as its length. Each ASCII byte is a
    /// separate item.
    ghost reading: { ReadsBytes Self.model Self.bytes read };
}

impl ByteItems for &[u8] {
    ghost read = { λ b. b ∷ [] };

    ghost reading = { bytes_read };
}

impl ByteItems for &str {
    ghost read = { encode_utf8 };

    ghost reading = { text_read };
}
