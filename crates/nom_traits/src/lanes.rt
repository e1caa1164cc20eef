//! Runs of the bytes of a set, searched in blocks of 32.
ghost use Rattle.std.specs.Prelude.{◌≡◌, ℕ, ◌+◌, ◌<◌, ◌≤◌, length, take, map, not, slice_index};
ghost use Rattle.std.specs.List.{All};
ghost use Rattle.std.specs.Simd.Lanes.{mask_l};
ghost use Rattle.nom_traits.specs.Bytes.{bytes_model};
ghost use Rattle.nom_traits.specs.Classes.{has_code, in_set, IsIn, IsNotIn};
ghost use Rattle.nom_traits.specs.Lanes.{above, lower_case, nearest, IsRunWithin};
ghost use Rattle.nom_traits.specs.Runs.{IsPosition};

use crate::character::{AsciiClass, CodeSet};
use std::simd::prelude::*;

/// The number of bytes in a block.
const BLOCK: usize = 32;

/// The number of bytes in the first block. It is smaller, because most runs are short and the code after a
/// run waits for its length.
const FIRST: usize = 16;

/// Returns the place of the first byte that isn't in the set, or `None` if all are.
// Inlined, since the set is known where it is called. Whether anything is left is asked first, though the blocks
// would tell it too: after an item that may be absent, as a sign, the question keeps two paths apart. Without it the
// compiler adds 1 or 0 to the place, and the load of the block waits for the sum.
#[inline(always)]
pub(crate) fn bytes_outside(bytes: &[u8], set: CodeSet<'_>) -> Option<usize>
    ensures { IsPosition bytes_model (IsIn set.entry) (IsNotIn set.entry) bytes.entry result }
{
    if bytes.is_empty() {
        return None;
    }
    let mut place = 0;
    if bytes.len() >= FIRST {
        let run = run_in_first(bytes, set);
        if run < FIRST {
            return Some(run);
        }
        place = FIRST;
    }
    while bytes.len() - place >= BLOCK {
        let run = run_in_block(bytes, place, set);
        if run < BLOCK {
            return Some(place + run);
        }
        place += BLOCK;
    }
    rest_outside(bytes, place, set)
}

/// Returns the same as `bytes_outside`, where all bytes before `start` are in the set.
#[inline(always)]
fn rest_outside(bytes: &[u8], start: usize, set: CodeSet<'_>) -> Option<usize>
    requires { All (IsIn set) (take start bytes.now) }
    ensures { IsPosition bytes_model (IsIn set.entry) (IsNotIn set.entry) bytes.entry result }
{
    for place in start..bytes.len() {
        if !set.has_byte(bytes[place]) {
            return Some(place);
        }
    }
    None
}

/// Returns the number of bytes in the block at a place that come before the first one not in the set.
#[inline(always)]
fn run_in_block(bytes: &[u8], place: usize, set: CodeSet<'_>) -> usize
    requires { place + BLOCK ≤ length bytes.now }
    ensures { IsRunWithin (in_set set.entry) bytes.now place BLOCK result }
{
    let marks = outside(u8x32::from_slice(&bytes[place..]), set);
    if marks == 0 {
        BLOCK
    } else {
        marks.trailing_zeros() as usize
    }
}

/// Returns the number of bytes in the first block that come before the first one not in the set.
#[inline(always)]
fn run_in_first(bytes: &[u8], set: CodeSet<'_>) -> usize
    requires { FIRST ≤ length bytes.now }
    ensures { IsRunWithin (in_set set.entry) bytes.now 0 FIRST result }
{
    let marks = outside_first(u8x16::from_slice(bytes), set);
    if marks == 0 {
        FIRST
    } else {
        marks.trailing_zeros() as usize
    }
}

/// Returns a mask of the bytes of a block that aren't in the set. Bit k is the bit of byte k.
#[inline(always)]
fn outside(block: u8x32, set: CodeSet<'_>) -> u64
    ensures { result ≡ mask_l (map (λ b. not (in_set set.entry b)) block) }
{
    match set {
        CodeSet::Class(class) => outside_class(block, class),
        CodeSet::OneOf(list) => nearest(block, list).simd_ne(u8x32::splat(0)).to_bitmask(),
        CodeSet::NoneOf(list) => nearest(block, list).simd_eq(u8x32::splat(0)).to_bitmask(),
    }
}

/// Returns the distance of each byte after the nearest one of a list. It is 0 only for the bytes of the list.
#[inline(always)]
fn nearest(block: u8x32, list: &[u8]) -> u8x32
    ensures nearest { result ≡ map (nearest list.now) block }
    ensures bytes { (i : ℕ) → slice_index list.now i < 256 }
{
    let mut nearest = u8x32::splat(255);
    for k in 0..list.len() {
        nearest = nearest.simd_min(less(block, list[k]));
    }
    nearest
}

/// Returns a mask of the bytes of a block that aren't in the class. Bit k is the bit of byte k.
#[inline(always)]
fn outside_class(block: u8x32, class: AsciiClass) -> u64
    ensures { result ≡ mask_l (map (λ b. not (has_code class b)) block) }
{
    let digits = less(block, b'0');
    let letters = less(in_lower_case(block), b'a');
    match class {
        AsciiClass::Alpha => letters.simd_ge(u8x32::splat(26)).to_bitmask(),
        AsciiClass::Digit => digits.simd_ge(u8x32::splat(10)).to_bitmask(),
        AsciiClass::HexDigit => (digits.simd_ge(u8x32::splat(10))
            & letters.simd_ge(u8x32::splat(6))).to_bitmask(),
        AsciiClass::OctDigit => digits.simd_ge(u8x32::splat(8)).to_bitmask(),
        AsciiClass::BinDigit => digits.simd_ge(u8x32::splat(2)).to_bitmask(),
        AsciiClass::Alphanumeric => (digits.simd_ge(u8x32::splat(10))
            & letters.simd_ge(u8x32::splat(26))).to_bitmask(),
        AsciiClass::Space => (block.simd_ne(u8x32::splat(b' '))
            & block.simd_ne(u8x32::splat(b'\t'))).to_bitmask(),
        AsciiClass::MultiSpace => (block.simd_ne(u8x32::splat(b' '))
            & block.simd_ne(u8x32::splat(b'\t'))
            & block.simd_ne(u8x32::splat(b'\r'))
            & block.simd_ne(u8x32::splat(b'\n'))).to_bitmask(),
    }
}

/// Converts letters to lower case. No other byte becomes a letter.
#[inline(always)]
fn in_lower_case(block: u8x32) -> u8x32
    ensures { result ≡ map lower_case block }
{
    block | u8x32::splat(0x20)
}

/// Returns the distance of each byte after `low`, modulo 256.
#[inline(always)]
fn less(block: u8x32, low: u8) -> u8x32
    ensures { result ≡ map (above low) block }
{
    block - u8x32::splat(low)
}

/// Returns a mask of the bytes of the first block that aren't in the set. Bit k is the bit of byte k.
#[inline(always)]
fn outside_first(block: u8x16, set: CodeSet<'_>) -> u64
    ensures { result ≡ mask_l (map (λ b. not (in_set set.entry b)) block) }
{
    match set {
        CodeSet::Class(class) => outside_class_first(block, class),
        CodeSet::OneOf(list) => nearest_first(block, list)
            .simd_ne(u8x16::splat(0))
            .to_bitmask(),
        CodeSet::NoneOf(list) => nearest_first(block, list)
            .simd_eq(u8x16::splat(0))
            .to_bitmask(),
    }
}

/// Returns the distance of each byte after the nearest one of a list. It is 0 only for the bytes of the list.
#[inline(always)]
fn nearest_first(block: u8x16, list: &[u8]) -> u8x16
    ensures nearest { result ≡ map (nearest list.now) block }
    ensures bytes { (i : ℕ) → slice_index list.now i < 256 }
{
    let mut nearest = u8x16::splat(255);
    for k in 0..list.len() {
        nearest = nearest.simd_min(less_first(block, list[k]));
    }
    nearest
}

/// Returns a mask of the bytes of the first block that aren't in the class. Bit k is the bit of byte k.
#[inline(always)]
fn outside_class_first(block: u8x16, class: AsciiClass) -> u64
    ensures { result ≡ mask_l (map (λ b. not (has_code class b)) block) }
{
    let digits = less_first(block, b'0');
    let letters = less_first(in_lower_case_first(block), b'a');
    match class {
        AsciiClass::Alpha => letters.simd_ge(u8x16::splat(26)).to_bitmask(),
        AsciiClass::Digit => digits.simd_ge(u8x16::splat(10)).to_bitmask(),
        AsciiClass::HexDigit => (digits.simd_ge(u8x16::splat(10))
            & letters.simd_ge(u8x16::splat(6))).to_bitmask(),
        AsciiClass::OctDigit => digits.simd_ge(u8x16::splat(8)).to_bitmask(),
        AsciiClass::BinDigit => digits.simd_ge(u8x16::splat(2)).to_bitmask(),
        AsciiClass::Alphanumeric => (digits.simd_ge(u8x16::splat(10))
            & letters.simd_ge(u8x16::splat(26))).to_bitmask(),
        AsciiClass::Space => (block.simd_ne(u8x16::splat(b' '))
            & block.simd_ne(u8x16::splat(b'\t'))).to_bitmask(),
        AsciiClass::MultiSpace => (block.simd_ne(u8x16::splat(b' '))
            & block.simd_ne(u8x16::splat(b'\t'))
            & block.simd_ne(u8x16::splat(b'\r'))
            & block.simd_ne(u8x16::splat(b'\n'))).to_bitmask(),
    }
}

/// Converts letters to lower case. No other byte becomes a letter.
#[inline(always)]
fn in_lower_case_first(block: u8x16) -> u8x16
    ensures { result ≡ map lower_case block }
{
    block | u8x16::splat(0x20)
}

/// Returns the distance of each byte after `low`, modulo 256.
#[inline(always)]
fn less_first(block: u8x16, low: u8) -> u8x16
    ensures { result ≡ map (above low) block }
{
    block - u8x16::splat(low)
}
