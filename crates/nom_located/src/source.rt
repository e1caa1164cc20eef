//! Lines of a source, to be shown around a place.
ghost use Rattle.std.specs.Prelude.{◌≡◌, ◌+◌, ◌≤◌, count_by, length, slice_range};
ghost use Rattle.nom_located.specs.Lines.{IsLineStart, IsLineStop, IsUtf8Column, begins_character};

use crate::located::next_end;
use memchr::memrchr;

/// A line of a source.
#[derive(Clone, Copy, Debug, PartialEq, Eq)]
pub struct Line<'a> {
    /// The number of bytes before the line.
    pub start: usize,
    /// The bytes of the line, without the byte 10 that ends it.
    pub text: &'a [u8],
}

/// Returns the line of `source` that contains the byte at `at`.
///
/// If `at` is the length of `source`, it returns the last line. A byte 10 belongs to the line that it ends.
pub fn line_of(source: &[u8], at: usize) -> Line<'_>
    requires { at ≤ length source.now }
    ensures start { IsLineStart source.now at result.start }
    ensures stop { IsLineStop source.now at (result.start + length result.text.now) }
    ensures text { result.text.now ≡ slice_range source.now result.start (result.start + length result.text.now) }
{
    let start = line_start(source, at);
    let stop = line_stop(source, at);
    Line {
        start,
        text: &source[start..stop],
    }
}

/// Returns the column of the byte at `at`, in characters of UTF-8. It is 1 plus the number of characters that
/// begin before it in its line.
pub(crate) fn column_in_characters(source: &[u8], at: usize) -> usize
    requires { at ≤ length source.now }
    ensures { IsUtf8Column source.now at result }
{
    let start = line_start(source, at);
    1 + characters(&source[start..at])
}

fn characters(bytes: &[u8]) -> usize
    ensures count { result ≡ count_by begins_character bytes.now }
    ensures few { result ≤ length bytes.now }
{
    bytes.iter().filter(|b| **b < 128 || 192 <= **b).count()
}

fn line_start(source: &[u8], at: usize) -> usize
    requires { at ≤ length source.now }
    ensures { IsLineStart source.now at result }
{
    match memrchr(b'\n', &source[..at]) {
        Some(end) => end + 1,
        None => 0,
    }
}

fn line_stop(source: &[u8], at: usize) -> usize
    requires { at ≤ length source.now }
    ensures { IsLineStop source.now at result }
{
    match next_end(source, at) {
        Some(end) => end,
        None => source.len(),
    }
}
