//! Searches for tokens.
ghost use Rattle.std.specs.Prelude.{◌≡◌, ◌==◌, ◌↔◌, IsTrue, MatchOption, chars};
ghost use Rattle.std.specs.List.{Contains, list_any};
ghost use Rattle.memchr.specs.Find.{IsFirstByte, is_byte};

use memchr::memchr;
use nom_traits::input::Value;
use nom_traits::text::are_ascii;

/// A list that can be searched for tokens of type `T`.
pub trait FindToken<T: Value> {
    /// A token is in the list.
    ghost finds: { Self → T → Type 0 };

    /// Returns whether the token is in the list.
    fn find_token(&self, token: T) -> bool
        ensures { IsTrue result ↔ finds self.now token };

    /// Returns bytes that are the codes of the tokens in the list, and of no others. This is a hint for
    /// searching a run in blocks.
    #[inline(always)]
    fn codes(&self) -> Option<&[u8]>
        ensures { MatchOption result (Unit {0}) (λ list. (t : T) → finds self.now t ↔ Contains list.now (T.code t)) }
    {
        None
    }
}

impl FindToken<u8> for &[u8] {
    ghost finds = { λ s t. Contains s.now t };

    #[inline(always)]
    fn find_token(&self, token: u8) -> bool {
        has_byte(self, token)
    }

    #[inline(always)]
    fn codes(&self) -> Option<&[u8]> {
        Some(self)
    }
}

impl<'a> FindToken<&'a u8> for &[u8] {
    ghost finds = { λ s t. Contains s.now t.now };

    #[inline(always)]
    fn find_token(&self, token: &'a u8) -> bool {
        has_byte(self, *token)
    }
}

/// Searches the UTF-8 form of a text for a byte.
impl FindToken<u8> for &str {
    ghost finds = { λ s t. Contains s.now t };

    #[inline(always)]
    fn find_token(&self, token: u8) -> bool {
        has_byte(self.as_bytes(), token)
    }

    #[inline(always)]
    fn codes(&self) -> Option<&[u8]> {
        Some(self.as_bytes())
    }
}

impl<'a> FindToken<&'a u8> for &str {
    ghost finds = { λ s t. Contains s.now t.now };

    #[inline(always)]
    fn find_token(&self, token: &'a u8) -> bool {
        has_byte(self.as_bytes(), *token)
    }
}

impl<const N: usize> FindToken<u8> for [u8; N] {
    ghost finds = { λ s t. Contains s t };

    #[inline(always)]
    fn find_token(&self, token: u8) -> bool {
        has_byte(self, token)
    }

    #[inline(always)]
    fn codes(&self) -> Option<&[u8]> {
        Some(self)
    }
}

impl<'a, const N: usize> FindToken<&'a u8> for [u8; N] {
    ghost finds = { λ s t. Contains s t.now };

    #[inline(always)]
    fn find_token(&self, token: &'a u8) -> bool {
        has_byte(self, *token)
    }
}

/// Searches bytes for the code point of a character. A code point above 255 is never found.
impl FindToken<char> for &[u8] {
    ghost finds = { λ s t. Contains s.now t };

    #[inline(always)]
    fn find_token(&self, token: char) -> bool {
        has_code(self, token)
    }

    #[inline(always)]
    fn codes(&self) -> Option<&[u8]> {
        Some(self)
    }
}

impl FindToken<char> for &str {
    ghost finds = { λ s t. Contains (chars s.now) t };

    #[inline(always)]
    fn find_token(&self, token: char) -> bool {
        has_char_in_text(self, token)
    }

    #[inline(always)]
    fn codes(&self) -> Option<&[u8]> {
        ascii_bytes(self)
    }
}

impl FindToken<char> for &[char] {
    ghost finds = { λ s t. Contains s.now t };

    #[inline(always)]
    fn find_token(&self, token: char) -> bool {
        has_char(self, token)
    }
}

impl<'a> FindToken<&'a char> for &[char] {
    ghost finds = { λ s t. Contains s.now t.now };

    #[inline(always)]
    fn find_token(&self, token: &'a char) -> bool {
        has_char(self, *token)
    }
}

#[inline(always)]
fn has_byte(bytes: &[u8], token: u8) -> bool
    ensures { IsTrue result ↔ Contains bytes.now token }
{
    first_place(bytes, token).is_some()
}

/// Returns the first place of a byte, with the contract of the searcher.
#[inline(always)]
fn first_place(bytes: &[u8], token: u8) -> Option<usize>
    ensures { IsFirstByte (is_byte token) bytes.now result }
{
    memchr(token, bytes)
}

#[inline(always)]
fn has_code(bytes: &[u8], token: char) -> bool
    ensures { IsTrue result ↔ Contains bytes.now token }
{
    bytes.iter().any(|byte| *byte as char == token)
}

#[inline(always)]
fn has_char(list: &[char], token: char) -> bool
    ensures { IsTrue result ↔ Contains list.now token }
{
    list.iter().any(|c| *c == token)
}

/// Returns whether a character is in a text. An ASCII character is a single byte, and is searched without
/// decoding.
#[inline(always)]
fn has_char_in_text(text: &str, token: char) -> bool
    ensures { IsTrue result ↔ Contains (chars text.now) token }
{
    if token.is_ascii() {
        any_byte_is(text.as_bytes(), token as u8)
    } else {
        any_char_is(text, token)
    }
}

// Lists of tokens are short: a loop in place is quicker than a call of the searcher.
#[inline(always)]
fn any_byte_is(bytes: &[u8], token: u8) -> bool
    ensures { result ≡ list_any (λ b. b == token) bytes.now }
{
    bytes.iter().any(|b| *b == token)
}

#[inline(always)]
fn any_char_is(text: &str, token: char) -> bool
    ensures { result ≡ list_any (λ c. c == token) (chars text.now) }
{
    text.chars().any(|c| c == token)
}

/// Returns the bytes of a text if all are ASCII. They are then its characters.
#[inline(always)]
fn ascii_bytes(text: &str) -> Option<&[u8]>
    ensures { MatchOption result (Unit {0}) (λ list. list.now ≡ chars text.now) }
{
    let bytes = text.as_bytes();
    if are_ascii(bytes) { Some(bytes) } else { None }
}
