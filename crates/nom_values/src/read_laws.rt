//! Laws of the texts and bytes that are read as whole numbers, `bool`s and characters.
//!
//! They are for users whose own contracts refer to the result of `parse_to`.
ghost use Rattle.std.specs.Int.{w8, w16, w32, w64, w128};
ghost use Rattle.nom_values.specs.Parses.{ReadsUnsigned, ReadsSigned, ReadsBool, ReadsChar};

use crate::parse::ParseTo;

/// States the form of an unsigned number in a text: an optional `+` and at least one decimal digit.
pub fn texts_read_unsigned()
    ensures u8 { (s : _) (o : _) → ⟦<&'static str as ParseTo<u8>>⟧.parses s o → ReadsUnsigned 8 s.now o }
    ensures u16 { (s : _) (o : _) → ⟦<&'static str as ParseTo<u16>>⟧.parses s o → ReadsUnsigned 16 s.now o }
    ensures u32 { (s : _) (o : _) → ⟦<&'static str as ParseTo<u32>>⟧.parses s o → ReadsUnsigned 32 s.now o }
    ensures u64 { (s : _) (o : _) → ⟦<&'static str as ParseTo<u64>>⟧.parses s o → ReadsUnsigned 64 s.now o }
    ensures u128 { (s : _) (o : _) → ⟦<&'static str as ParseTo<u128>>⟧.parses s o → ReadsUnsigned 128 s.now o }
    ensures usize { (s : _) (o : _) → ⟦<&'static str as ParseTo<usize>>⟧.parses s o → ReadsUnsigned 64 s.now o }
{}

/// States the form of a signed number in a text: an optional `+` or `-` and at least one decimal digit.
pub fn texts_read_signed()
    ensures i8 { (s : _) (o : _) → ⟦<&'static str as ParseTo<i8>>⟧.parses s o → ReadsSigned w8 s.now o }
    ensures i16 { (s : _) (o : _) → ⟦<&'static str as ParseTo<i16>>⟧.parses s o → ReadsSigned w16 s.now o }
    ensures i32 { (s : _) (o : _) → ⟦<&'static str as ParseTo<i32>>⟧.parses s o → ReadsSigned w32 s.now o }
    ensures i64 { (s : _) (o : _) → ⟦<&'static str as ParseTo<i64>>⟧.parses s o → ReadsSigned w64 s.now o }
    ensures i128 { (s : _) (o : _) → ⟦<&'static str as ParseTo<i128>>⟧.parses s o → ReadsSigned w128 s.now o }
    ensures isize { (s : _) (o : _) → ⟦<&'static str as ParseTo<isize>>⟧.parses s o → ReadsSigned w64 s.now o }
{}

/// States the form of a `bool` and of a `char` in a text: `true` or `false`, and one character.
pub fn texts_read_words()
    ensures bool { (s : _) (o : _) → ⟦<&'static str as ParseTo<bool>>⟧.parses s o → ReadsBool s.now o }
    ensures char { (s : _) (o : _) → ⟦<&'static str as ParseTo<char>>⟧.parses s o → ReadsChar s.now o }
{}

/// States that bytes are read as unsigned numbers from the same forms as texts.
pub fn bytes_read_unsigned()
    ensures u8 { (s : _) (o : _) → ⟦<&'static [u8] as ParseTo<u8>>⟧.parses s o → ReadsUnsigned 8 s.now o }
    ensures u16 { (s : _) (o : _) → ⟦<&'static [u8] as ParseTo<u16>>⟧.parses s o → ReadsUnsigned 16 s.now o }
    ensures u32 { (s : _) (o : _) → ⟦<&'static [u8] as ParseTo<u32>>⟧.parses s o → ReadsUnsigned 32 s.now o }
    ensures u64 { (s : _) (o : _) → ⟦<&'static [u8] as ParseTo<u64>>⟧.parses s o → ReadsUnsigned 64 s.now o }
    ensures u128 { (s : _) (o : _) → ⟦<&'static [u8] as ParseTo<u128>>⟧.parses s o → ReadsUnsigned 128 s.now o }
    ensures usize { (s : _) (o : _) → ⟦<&'static [u8] as ParseTo<usize>>⟧.parses s o → ReadsUnsigned 64 s.now o }
{}

/// States that bytes are read as signed numbers from the same forms as texts.
pub fn bytes_read_signed()
    ensures i8 { (s : _) (o : _) → ⟦<&'static [u8] as ParseTo<i8>>⟧.parses s o → ReadsSigned w8 s.now o }
    ensures i16 { (s : _) (o : _) → ⟦<&'static [u8] as ParseTo<i16>>⟧.parses s o → ReadsSigned w16 s.now o }
    ensures i32 { (s : _) (o : _) → ⟦<&'static [u8] as ParseTo<i32>>⟧.parses s o → ReadsSigned w32 s.now o }
    ensures i64 { (s : _) (o : _) → ⟦<&'static [u8] as ParseTo<i64>>⟧.parses s o → ReadsSigned w64 s.now o }
    ensures i128 { (s : _) (o : _) → ⟦<&'static [u8] as ParseTo<i128>>⟧.parses s o → ReadsSigned w128 s.now o }
    ensures isize { (s : _) (o : _) → ⟦<&'static [u8] as ParseTo<isize>>⟧.parses s o → ReadsSigned w64 s.now o }
{}

/// States that bytes are read as `bool`s and as characters from the same forms as texts.
pub fn bytes_read_words()
    ensures bool { (s : _) (o : _) → ⟦<&'static [u8] as ParseTo<bool>>⟧.parses s o → ReadsBool s.now o }
    ensures char { (s : _) (o : _) → ⟦<&'static [u8] as ParseTo<char>>⟧.parses s o → ReadsChar s.now o }
{}
