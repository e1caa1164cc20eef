//! Searches for the first place of a byte. If it is far away, four pages are searched side by side.
ghost use Rattle.std.specs.Prelude.{◌+◌, ◌*◌, ◌≤◌, length, IsTrue};
ghost use Rattle.memchr.specs.Find.{IsFirst, IsFirstByte, Nowhere, Passes, is_byte};
ghost use Rattle.nom_search.specs.FourPages.{NowhereInPages};

use memchr::memchr;
use std::simd::prelude::*;

/// The number of bytes that are tested at once.
const LINE: usize = 64;

/// The number of bytes in a page. A processor fetches ahead within a page, and in several pages at once.
const PAGE: usize = 4096;

/// The number of lines in a page.
const LINES: usize = PAGE / LINE;

/// The number of bytes in four pages.
const BLOCK: usize = 4 * PAGE;

/// The number of bytes that `memchr` searches alone. After that, reading the block with the byte twice costs
/// little.
const NEAR: usize = 64 * PAGE;

/// Returns the first place of a byte.
// Over many pages `memchr` waits for memory, since it reads them one after the other.
#[inline(always)]
pub(crate) fn find_byte(byte: u8, bytes: &[u8]) -> Option<usize>
    ensures { IsFirstByte (is_byte byte) bytes.now result }
{
    let near = bytes.len().min(NEAR);
    match find_between(byte, bytes, 0, near) {
        Some(place) => Some(place),
        None => find_far(byte, bytes, near),
    }
}

/// Returns the first place of a byte, which doesn't occur before `start`.
// A call of its own, so that a search that ends near is small where it is inlined.
#[inline(never)]
fn find_far(byte: u8, bytes: &[u8], start: usize) -> Option<usize>
    requires room { start ≤ length bytes.now }
    requires none { Nowhere (Passes (is_byte byte) bytes.now) 0 start }
    ensures { IsFirstByte (is_byte byte) bytes.now result }
{
    let place = skip_blocks(byte, bytes, start);
    find_between(byte, bytes, place, bytes.len())
}

/// Returns the first place of a byte from `start` up to `end`.
#[inline(always)]
fn find_between(byte: u8, bytes: &[u8], start: usize, end: usize) -> Option<usize>
    requires ordered { start ≤ end }
    requires room { end ≤ length bytes.now }
    ensures { IsFirst (Passes (is_byte byte) bytes.now) start end result }
{
    match memchr(byte, &bytes[start..end]) {
        Some(place) => Some(start + place),
        None => None,
    }
}

/// Skips each block that lacks a byte.
#[inline(always)]
fn skip_blocks(byte: u8, bytes: &[u8], start: usize) -> usize
    requires { start ≤ length bytes.now }
    ensures low { start ≤ result }
    ensures high { result ≤ length bytes.now }
    ensures passed { Nowhere (Passes (is_byte byte) bytes.now) start result }
{
    let mut place = start;
    while bytes.len() - place >= BLOCK && block_lacks(byte, bytes, place) {
        place += BLOCK;
    }
    place
}

/// Returns whether a block lacks a byte. It tests the first lines of the four pages, then the second ones,
/// and so on.
#[inline(always)]
fn block_lacks(byte: u8, bytes: &[u8], start: usize) -> bool
    requires { start + BLOCK ≤ length bytes.now }
    ensures { IsTrue result → Nowhere (Passes (is_byte byte) bytes.now) start (start + BLOCK) }
{
    for line in 0..LINES {
        if !lines_lack(byte, bytes, start + line * LINE) {
            return false;
        }
    }
    true
}

/// Returns whether four lines lack a byte, one line of each page.
#[inline(always)]
fn lines_lack(byte: u8, bytes: &[u8], place: usize) -> bool
    requires { place + 3 * PAGE + LINE ≤ length bytes.now }
    ensures { IsTrue result → NowhereInPages (Passes (is_byte byte) bytes.now) PAGE place LINE }
{
    line_lacks(byte, bytes, place)
        && line_lacks(byte, bytes, place + PAGE)
        && line_lacks(byte, bytes, place + 2 * PAGE)
        && line_lacks(byte, bytes, place + 3 * PAGE)
}

/// Returns whether a line lacks a byte.
#[inline(always)]
fn line_lacks(byte: u8, bytes: &[u8], place: usize) -> bool
    requires { place + LINE ≤ length bytes.now }
    ensures { IsTrue result → Nowhere (Passes (is_byte byte) bytes.now) place (place + LINE) }
{
    u8x64::from_slice(&bytes[place..])
        .simd_eq(u8x64::splat(byte))
        .to_bitmask()
        == 0
}
