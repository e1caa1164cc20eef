//! The bytes of a dump, line by line.
ghost use Rattle.std.specs.Prelude.{◌≡◌, ◌*◌, ◌-◌, ◌<◌, ◌≤◌, ◌∷◌, ◌++◌, [], false, length, map, replicate, flat_map, OnErr, OnOk, IfOk, string_bytes};
ghost use Rattle.std.specs.Prelude.{encode_utf8_all};
ghost use Rattle.std.specs.Fmt.{digit_glyph};
ghost use Rattle.bstr.specs.Utf8.{lossy_chars};
ghost use Rattle.nom_values.specs.Dumps.{hex_byte, shown_byte, offset_digits, dump_line, hex_dump, OffsetsFit};

use bstr::ByteSlice;
use nom_error::answer::OutOfMemory;
use std::alloc::Allocator;

/// Returns the dump of some bytes, before it is converted to a text.
pub(crate) fn dump_bytes<A: Allocator + Copy>(
    alloc: A,
    bytes: &[u8],
    chunk: usize,
    from: usize,
) -> Result<Vec<u8, A>, OutOfMemory>
    requires chunk { 0 < chunk }
    requires offsets { OffsetsFit chunk from bytes.now }
    ensures dump { IfOk result (λ dump. dump.items ≡ hex_dump chunk from bytes.now) }
    ensures memory { OnErr result (0 < length bytes.now) }
{
    let mut dump = Vec::new(alloc);
    let mut passed = 0;
    while passed < bytes.len() {
        let end = passed + chunk.min(bytes.len() - passed);
        push_line(alloc, &mut dump, &bytes[passed..end], chunk, from + passed)?;
        passed = end;
    }
    Ok(dump)
}

fn push_line<A: Allocator + Copy>(
    alloc: A,
    dump: &mut Vec<u8, A>,
    bytes: &[u8],
    chunk: usize,
    offset: usize,
) -> Result<(), OutOfMemory>
    requires { length bytes.now ≤ chunk }
    ensures { OnOk result (dump.new.items ≡ dump.old.items ++ dump_line chunk offset bytes.now) }
{
    let digits = format!(in alloc; "{offset:08x}")?;
    dump.extend_from_slice(digits.as_bytes())?;
    dump.extend_from_slice(b"\t")?;
    push_digits(dump, bytes)?;
    push_blanks(dump, chunk - bytes.len())?;
    dump.extend_from_slice(b"\t")?;
    push_shown(dump, bytes)?;
    dump.extend_from_slice(b"\n")?;
    Ok(())
}

/// Appends each byte as two digits and a space.
fn push_digits<A: Allocator>(dump: &mut Vec<u8, A>, bytes: &[u8]) -> Result<(), OutOfMemory>
    ensures { OnOk result (dump.new.items ≡ dump.old.items ++ flat_map hex_byte bytes.now) }
{
    for byte in bytes {
        dump.extend_from_slice(&[digit(*byte / 16), digit(*byte % 16), b' '])?;
    }
    Ok(())
}

fn digit(value: u8) -> u8
    requires { value < 16 }
    ensures { result ≡ digit_glyph false value }
{
    if value < 10 {
        b'0' + value
    } else {
        b'a' + (value - 10)
    }
}

/// Appends three spaces for each missing byte.
fn push_blanks<A: Allocator>(dump: &mut Vec<u8, A>, missing: usize) -> Result<(), OutOfMemory>
    ensures { OnOk result (dump.new.items ≡ dump.old.items ++ replicate (3 * missing) 32) }
{
    for _byte in 0..missing {
        dump.extend_from_slice(b"   ")?;
    }
    Ok(())
}

/// Appends the bytes, with a dot for each control character.
fn push_shown<A: Allocator>(dump: &mut Vec<u8, A>, bytes: &[u8]) -> Result<(), OutOfMemory>
    ensures { OnOk result (dump.new.items ≡ dump.old.items ++ map shown_byte bytes.now) }
{
    for byte in bytes {
        let shown = match *byte {
            32..=126 | 128..=255 => *byte,
            _ => b'.',
        };
        dump.extend_from_slice(&[shown])?;
    }
    Ok(())
}

/// Converts bytes to a text, with U+FFFD for bytes that are no character.
pub(crate) fn lossy_text<A: Allocator>(alloc: A, bytes: &[u8]) -> Result<String<A>, OutOfMemory>
    ensures text { IfOk result (λ text. string_bytes text ≡ encode_utf8_all (lossy_chars bytes.now)) }
    ensures memory { OnErr result (0 < length bytes.now) }
{
    let mut text = String::new(alloc);
    let mut characters = bytes.chars();
    'characters: while let Some(character) = characters.next() {
        text.push(character)?;
    }
    Ok(text)
}
