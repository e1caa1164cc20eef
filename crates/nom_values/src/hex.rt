//! Values that can be shown as hex dumps.
ghost use Rattle.std.specs.Prelude.{◌≡◌, ◌<◌, ℕ, List, length, IfOk, OnErr, string_bytes, encode_utf8_all};
ghost use Rattle.std.specs.Str.{IsAscii};
ghost use Rattle.bstr.specs.Utf8.{lossy_chars};
ghost use Rattle.nom_values.specs.Dumps.{hex_dump, OffsetsFit};

use crate::dump::{dump_bytes, lossy_text};
use nom_error::answer::OutOfMemory;
use std::alloc::Allocator;

/// A value whose bytes can be shown as a hex dump.
///
/// The dump has one line for each `chunk_size` bytes. A line consists of:
///
/// - the offset of its first byte, in at least eight hexadecimal digits, and a tab;
/// - each byte as two digits and a space, with three spaces for each missing byte, and a tab;
/// - the bytes as characters, with a dot for each control character, and a line end.
///
/// The dump is then converted to a text, with U+FFFD for everything that isn't UTF-8.
///
/// With a `chunk_size` of 4, the dump of `"abc"` is `"00000000\t61 62 63    \tabc\n"`.
pub trait HexDisplay {
    /// The bytes.
    ghost bytes: { Self → List ℕ };

    /// Returns the dump. Its first offset is 0.
    fn to_hex<A: Allocator + Copy>(
        self,
        alloc: A,
        chunk_size: usize,
    ) -> Result<String<A>, OutOfMemory>
        requires { 0 < chunk_size }
        ensures text { IfOk result (λ text. string_bytes text ≡ encode_utf8_all (lossy_chars (hex_dump chunk_size 0 (bytes self)))) }
        ensures ascii { IsAscii (bytes self) → IfOk result (λ text. string_bytes text ≡ hex_dump chunk_size 0 (bytes self)) }
        ensures memory { OnErr result (0 < length (bytes self)) };

    /// Returns the dump. Its first offset is `from`.
    fn to_hex_from<A: Allocator + Copy>(
        self,
        alloc: A,
        chunk_size: usize,
        from: usize,
    ) -> Result<String<A>, OutOfMemory>
        requires chunk { 0 < chunk_size }
        requires offsets { OffsetsFit chunk_size from (bytes self) }
        ensures text { IfOk result (λ text. string_bytes text ≡ encode_utf8_all (lossy_chars (hex_dump chunk_size from (bytes self)))) }
        ensures ascii { IsAscii (bytes self) → IfOk result (λ text. string_bytes text ≡ hex_dump chunk_size from (bytes self)) }
        ensures memory { OnErr result (0 < length (bytes self)) };
}

impl HexDisplay for &[u8] {
    ghost bytes = { λ s. s.now };

    fn to_hex<A: Allocator + Copy>(
        self,
        alloc: A,
        chunk_size: usize,
    ) -> Result<String<A>, OutOfMemory> {
        hex_text(alloc, self, chunk_size, 0)
    }

    fn to_hex_from<A: Allocator + Copy>(
        self,
        alloc: A,
        chunk_size: usize,
        from: usize,
    ) -> Result<String<A>, OutOfMemory> {
        hex_text(alloc, self, chunk_size, from)
    }
}

/// Dumps the UTF-8 form of a text.
impl HexDisplay for &str {
    ghost bytes = { λ s. s.now };

    fn to_hex<A: Allocator + Copy>(
        self,
        alloc: A,
        chunk_size: usize,
    ) -> Result<String<A>, OutOfMemory> {
        hex_text(alloc, self.as_bytes(), chunk_size, 0)
    }

    fn to_hex_from<A: Allocator + Copy>(
        self,
        alloc: A,
        chunk_size: usize,
        from: usize,
    ) -> Result<String<A>, OutOfMemory> {
        hex_text(alloc, self.as_bytes(), chunk_size, from)
    }
}

/// Returns the dump of some bytes, as a text.
fn hex_text<A: Allocator + Copy>(
    alloc: A,
    bytes: &[u8],
    chunk_size: usize,
    from: usize,
) -> Result<String<A>, OutOfMemory>
    requires chunk { 0 < chunk_size }
    requires offsets { OffsetsFit chunk_size from bytes.now }
    ensures text { IfOk result (λ text. string_bytes text ≡ encode_utf8_all (lossy_chars (hex_dump chunk_size from bytes.now))) }
    ensures ascii { IsAscii bytes.now → IfOk result (λ text. string_bytes text ≡ hex_dump chunk_size from bytes.now) }
    ensures memory { OnErr result (0 < length bytes.now) }
{
    let dump = dump_bytes(alloc, bytes, chunk_size, from)?;
    lossy_text(alloc, dump.as_slice())
}
