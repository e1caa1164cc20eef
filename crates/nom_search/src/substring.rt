//! Searches for substrings.
ghost use Rattle.std.specs.Prelude.{ℕ, ◌+◌, ◌≤◌, List, Option, length, chars, MatchOption};
ghost use Rattle.std.specs.Char.{len_utf8};
ghost use Rattle.memchr.specs.Find.{FindsNeedle, Nowhere, OccursAt};
ghost use Rattle.nom_search.specs.Substrings.{FindLaws, FindsBytes, FindsFirst};
ghost use Rattle.nom_search.specs.laws.SubstringLaws.{bytes_finding, text_finding};

use crate::pages::find_byte;
use memchr::arch::all::is_prefix;
use memchr::memmem;
use nom_traits::input::Items;

/// An input that can be searched for needles of type `T`.
pub trait FindSubstring<T>: Items {
    /// The model of a needle. Needles that are equal as models are the same to every parser.
    ghost Needle: { Type 0 };

    ghost needle_model: { T → Needle };

    /// The result of searching a list of items for a needle.
    ghost finds: { Needle → List Self.Item → Option ℕ → Type 0 };

    /// Returns the first place of the needle, or `None` if it doesn't occur. An empty needle occurs at 0.
    fn find_substring(&self, substr: T) -> Option<usize>
        ensures { finds (needle_model substr) (Self.model.elements self.now) result };

    /// There is one result. A needle that is found begins at a place between items, and is found there in
    /// longer inputs too.
    ghost finding: { FindLaws Self.model finds };
}

impl<'a, 'b> FindSubstring<&'b [u8]> for &'a [u8] {
    ghost Needle = { List ℕ };

    ghost needle_model = { λ t. t.now };

    ghost finds = { FindsBytes };

    #[inline(always)]
    fn find_substring(&self, substr: &'b [u8]) -> Option<usize> {
        find_bytes(self, substr)
    }

    ghost finding = { bytes_finding };
}

/// Searches bytes for the UTF-8 form of a text.
impl<'a, 'b> FindSubstring<&'b str> for &'a [u8] {
    ghost Needle = { List ℕ };

    ghost needle_model = { λ t. t.now };

    ghost finds = { FindsBytes };

    #[inline(always)]
    fn find_substring(&self, substr: &'b str) -> Option<usize> {
        find_bytes(self, substr.as_bytes())
    }

    ghost finding = { bytes_finding };
}

/// Searches a text by its characters. The place is a length in bytes, like all places in texts.
impl<'a, 'b> FindSubstring<&'b str> for &'a str {
    ghost Needle = { List ℕ };

    ghost needle_model = { λ t. chars t.now };

    ghost finds = { FindsFirst len_utf8 };

    #[inline(always)]
    fn find_substring(&self, substr: &'b str) -> Option<usize> {
        find_text(self, substr)
    }

    ghost finding = { text_finding };
}

/// Returns the first place of some bytes.
// Bytes before the needle's first byte are passed over by a search for one byte in place of two. Often the
// needle stands there, and a searcher need not be made.
#[inline(always)]
fn find_bytes(bytes: &[u8], needle: &[u8]) -> Option<usize>
    ensures { FindsBytes needle.now bytes.now result }
{
    match first_candidate(bytes, needle) {
        Some(start) => first_after(bytes, needle, start),
        None => None,
    }
}

/// Returns the first place of the needle, which doesn't occur before `start`.
#[inline(always)]
fn first_after(bytes: &[u8], needle: &[u8], start: usize) -> Option<usize>
    requires room { start ≤ length bytes.now }
    requires none { Nowhere (OccursAt bytes.now needle.now) 0 start }
    ensures { FindsBytes needle.now bytes.now result }
{
    let rest = &bytes[start..];
    if is_prefix(rest, needle) {
        return Some(start);
    }
    match first_match(rest, needle) {
        Some(place) => Some(start + place),
        None => None,
    }
}

/// Returns a place before which the needle doesn't occur, or `None` if it doesn't occur at all.
#[inline(always)]
fn first_candidate(bytes: &[u8], needle: &[u8]) -> Option<usize>
    ensures { MatchOption result
        (Nowhere (OccursAt bytes.now needle.now) 0 (length bytes.now + 1))
        (λ start. (start ≤ length bytes.now) × Nowhere (OccursAt bytes.now needle.now) 0 start) }
{
    match needle.first() {
        Some(first) => find_byte(*first, bytes),
        None => Some(0),
    }
}

/// Returns the first place of some bytes, with the contract of the searcher.
// A call of its own: most searches end before it, and are small where they are inlined.
#[inline(never)]
fn first_match(bytes: &[u8], needle: &[u8]) -> Option<usize>
    ensures { FindsNeedle bytes.now needle.now 0 result }
{
    memmem::find(bytes, needle)
}

/// Returns the first place of a text in a text. No text begins inside a character of another.
#[inline(always)]
fn find_text(text: &str, needle: &str) -> Option<usize>
    ensures { FindsFirst len_utf8 (chars needle.now) (chars text.now) result }
{
    text.known();
    find_bytes(text.as_bytes(), needle.as_bytes())
}
