//! Sets of ASCII characters, with a bit for each.
#![tactic(auto)]

ghost use Rattle.std.specs.Prelude.{◌≡◌, ℕ, ◌≤◌, ◌-◌, ◌^◌, ◌&&◌, ◌||◌, ◌==◌, nat_le, nat_lt, not};
ghost use Rattle.std.specs.List.{list_any};
ghost use Rattle.std.specs.Char.{is_ascii_alphabetic, is_ascii_alphanumeric, is_ascii_digit};
ghost use Rattle.nom_ascii.specs.Sets.{Held, alphanumerics, alphas, and_of, ascii_below, digits, except_of, holds, set_of, span_of};

use nom_search::token::FindToken;

/// A set of ASCII characters, for `is_a`, `is_not`, `one_of` and `none_of`.
///
/// `AsciiSet::of("-_.").and(AsciiSet::alphanumeric())` is made of constants, so the compiler folds it. A test costs a
/// shift, however many characters the set has.
#[derive(Clone, Copy, Debug, PartialEq, Eq)]
pub struct AsciiSet {
    /// The bit at the code of each character in the set.
    pub mask: u128,
}

impl AsciiSet {
    /// Returns the letters `a` to `z` and `A` to `Z`.
    #[inline(always)]
    pub fn alpha() -> AsciiSet
        ensures set { result ≡ alphas }
        ensures has { (code : ℕ) → holds result code ≡ is_ascii_alphabetic code }
    {
        AsciiSet::span('a', 'z').and(AsciiSet::span('A', 'Z'))
    }

    /// Returns the digits `0` to `9`.
    #[inline(always)]
    pub fn digit() -> AsciiSet
        ensures set { result ≡ digits }
        ensures has { (code : ℕ) → holds result code ≡ is_ascii_digit code }
    {
        AsciiSet::span('0', '9')
    }

    /// Returns the letters and the digits.
    #[inline(always)]
    pub fn alphanumeric() -> AsciiSet
        ensures set { result ≡ alphanumerics }
        ensures has { (code : ℕ) → holds result code ≡ is_ascii_alphanumeric code }
    {
        AsciiSet::alpha().and(AsciiSet::digit())
    }

    /// Returns the ASCII characters of a text. It leaves out the others.
    #[inline(always)]
    pub fn of(text: &str) -> AsciiSet
        ensures set { result ≡ set_of text.now }
        ensures has { (code : ℕ) → holds result code ≡ (nat_lt code 128 && list_any (λ c. c == code) text.now) }
    {
        let mut mask = 0u128;
        for &byte in text.as_bytes() {
            if byte < 128 {
                mask |= 1 << byte;
            }
        }
        AsciiSet { mask }
    }

    /// Returns the ASCII characters from `first` to `last`, both included.
    #[inline(always)]
    pub fn span(first: char, last: char) -> AsciiSet
        ensures set { result ≡ span_of first last }
        ensures has { (code : ℕ) → holds result code ≡ (nat_lt code 128 && nat_le first code && nat_le code last) }
    {
        let below = ones(first as u32);
        let to_last = ones(last as u32 + 1);
        AsciiSet {
            mask: to_last.saturating_sub(below),
        }
    }

    /// Returns the characters in this set, in the other, or in both.
    #[inline(always)]
    pub fn and(self, other: AsciiSet) -> AsciiSet
        ensures set { result ≡ and_of self other }
        ensures has { (code : ℕ) → holds result code ≡ (holds self code || holds other code) }
    {
        AsciiSet {
            mask: self.mask | other.mask,
        }
    }

    /// Returns the characters in this set that aren't in the other.
    #[inline(always)]
    pub fn except(self, other: AsciiSet) -> AsciiSet
        ensures set { result ≡ except_of self other }
        ensures has { (code : ℕ) → holds result code ≡ (holds self code && not (holds other code)) }
    {
        AsciiSet {
            mask: self.mask & !other.mask,
        }
    }

    /// Returns whether the set has the character with this code.
    #[inline(always)]
    pub fn has(self, code: u32) -> bool
        ensures { result ≡ holds self code }
    {
        if code >= 128 {
            return false;
        }
        // Two halves, since a shift of 128 bits by a variable is slow.
        let half = if code < 64 {
            (self.mask & 0xFFFF_FFFF_FFFF_FFFF) as u64
        } else {
            (self.mask >> 64) as u64
        };
        (half >> (code % 64)) & 1 == 1
    }
}

/// Returns a number whose lowest `count` bits are set, or all 128 if there are fewer.
#[inline(always)]
fn ones(count: u32) -> u128
    ensures { result ≡ 2 ^ ascii_below count - 1 }
{
    if count < 128 {
        (1u128 << count) - 1
    } else {
        u128::MAX
    }
}

impl FindToken<u8> for AsciiSet {
    ghost finds = { Held };

    #[inline(always)]
    fn find_token(&self, token: u8) -> bool {
        self.has(token as u32)
    }
}

impl<'a> FindToken<&'a u8> for AsciiSet {
    ghost finds = { λ set code. Held set code.now };

    #[inline(always)]
    fn find_token(&self, token: &'a u8) -> bool {
        self.has(*token as u32)
    }
}

impl FindToken<char> for AsciiSet {
    ghost finds = { Held };

    #[inline(always)]
    fn find_token(&self, token: char) -> bool {
        self.has(token as u32)
    }
}

impl<'a> FindToken<&'a char> for AsciiSet {
    ghost finds = { λ set code. Held set code.now };

    #[inline(always)]
    fn find_token(&self, token: &'a char) -> bool {
        self.has(*token as u32)
    }
}
