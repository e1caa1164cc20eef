//! Items as characters, and the classes of characters.
ghost use Rattle.std.specs.Prelude.{◌≡◌, ℕ};
ghost use Rattle.std.specs.Char.{len_utf8};
ghost use Rattle.nom_traits.specs.Classes.{has_code, in_set, is_listed};
ghost use Rattle.nom_traits.specs.Classes.{is_alpha_code, is_alphanum_code, is_bin_digit_code, is_dec_digit_code, is_hex_digit_code};
ghost use Rattle.nom_traits.specs.Classes.{is_newline_code, is_oct_digit_code, is_space_code};

use crate::input::Value;

/// A class of ASCII characters.
#[derive(Clone, Copy, Debug, PartialEq, Eq)]
pub enum AsciiClass {
    /// `A` to `Z` and `a` to `z`.
    Alpha,
    /// `0` to `9`.
    Digit,
    /// `0` to `9`, `A` to `F` and `a` to `f`.
    HexDigit,
    /// `0` to `7`.
    OctDigit,
    /// `0` and `1`.
    BinDigit,
    /// Letters and decimal digits.
    Alphanumeric,
    /// A space or a tab.
    Space,
    /// A space, a tab, `\r` or `\n`.
    MultiSpace,
}

impl AsciiClass {
    /// Returns whether an item is in the class.
    #[inline(always)]
    pub fn has<C: AsChar>(self, item: C) -> bool
        ensures { result ≡ has_code self (C.code item) }
    {
        match self {
            AsciiClass::Alpha => item.is_alpha(),
            AsciiClass::Digit => item.is_dec_digit(),
            AsciiClass::HexDigit => item.is_hex_digit(),
            AsciiClass::OctDigit => item.is_oct_digit(),
            AsciiClass::BinDigit => item.is_bin_digit(),
            AsciiClass::Alphanumeric => item.is_alphanum(),
            AsciiClass::Space => item.is_space(),
            AsciiClass::MultiSpace => {
                item.is_space() || item.is_newline() || item.as_char() == '\r'
            }
        }
    }
}

/// A set of code points, like the brackets of a regular expression.
///
/// It is a class, `[0-9]`, a list, `[abc]`, or everything that isn't in a list, `[^abc]`. A list consists of
/// bytes. Each byte represents the code point with its number.
#[derive(Clone, Copy)]
pub enum CodeSet<'a> {
    Class(AsciiClass),
    OneOf(&'a [u8]),
    NoneOf(&'a [u8]),
}

impl<'a> CodeSet<'a> {
    /// Returns whether a byte is in the set.
    #[inline(always)]
    pub(crate) fn has_byte(self, byte: u8) -> bool
        ensures { result ≡ in_set self.entry byte }
    {
        match self {
            CodeSet::Class(class) => class.has(byte),
            CodeSet::OneOf(list) => is_listed(list, byte),
            CodeSet::NoneOf(list) => !is_listed(list, byte),
        }
    }
}

#[inline(always)]
fn is_listed(list: &[u8], byte: u8) -> bool
    ensures { result ≡ is_listed list.now byte }
{
    list.iter().any(|listed| *listed == byte)
}

/// An item that represents a character. A byte is the character with the same number.
///
/// Each class consists of ASCII characters only.
pub trait AsChar: Copy + Value {
    /// The length of the character as an item of an input.
    ghost size: { Self → ℕ };

    /// Returns the character.
    fn as_char(self) -> char
        ensures { result ≡ Self.code self };

    /// Returns whether the character is a letter: `A` to `Z` or `a` to `z`.
    fn is_alpha(self) -> bool
        ensures { result ≡ is_alpha_code (Self.code self) };

    /// Returns whether the character is a letter or a decimal digit.
    fn is_alphanum(self) -> bool
        ensures { result ≡ is_alphanum_code (Self.code self) };

    /// Returns whether the character is `0` to `9`.
    fn is_dec_digit(self) -> bool
        ensures { result ≡ is_dec_digit_code (Self.code self) };

    /// Returns whether the character is `0` to `9`, `A` to `F` or `a` to `f`.
    fn is_hex_digit(self) -> bool
        ensures { result ≡ is_hex_digit_code (Self.code self) };

    /// Returns whether the character is `0` to `7`.
    fn is_oct_digit(self) -> bool
        ensures { result ≡ is_oct_digit_code (Self.code self) };

    /// Returns whether the character is `0` or `1`.
    fn is_bin_digit(self) -> bool
        ensures { result ≡ is_bin_digit_code (Self.code self) };

    /// Returns the length as an item: 1 for a byte, the length of the UTF-8 form for a character.
    fn len(self) -> usize
        ensures { result ≡ size self };

    /// Returns whether the character is a space or a tab.
    fn is_space(self) -> bool
        ensures { result ≡ is_space_code (Self.code self) };

    /// Returns whether the character ends a line: `\n`.
    fn is_newline(self) -> bool
        ensures { result ≡ is_newline_code (Self.code self) };
}

impl AsChar for u8 {
    ghost size = { λ _. 1 };

    #[inline(always)]
    fn as_char(self) -> char {
        self as char
    }

    #[inline(always)]
    fn is_alpha(self) -> bool {
        matches!(self, b'A'..=b'Z') | matches!(self, b'a'..=b'z')
    }

    #[inline(always)]
    fn is_alphanum(self) -> bool {
        self.is_alpha() | self.is_dec_digit()
    }

    #[inline(always)]
    fn is_dec_digit(self) -> bool {
        matches!(self, b'0'..=b'9')
    }

    #[inline(always)]
    fn is_hex_digit(self) -> bool {
        self.is_dec_digit() | matches!(self, b'A'..=b'F') | matches!(self, b'a'..=b'f')
    }

    #[inline(always)]
    fn is_oct_digit(self) -> bool {
        matches!(self, b'0'..=b'7')
    }

    #[inline(always)]
    fn is_bin_digit(self) -> bool {
        matches!(self, b'0' | b'1')
    }

    #[inline(always)]
    fn len(self) -> usize {
        1
    }

    #[inline(always)]
    fn is_space(self) -> bool {
        self == b' ' || self == b'\t'
    }

    #[inline(always)]
    fn is_newline(self) -> bool {
        self == b'\n'
    }
}

impl AsChar for char {
    ghost size = { len_utf8 };

    #[inline(always)]
    fn as_char(self) -> char {
        self
    }

    #[inline(always)]
    fn is_alpha(self) -> bool {
        self.is_ascii_alphabetic()
    }

    #[inline(always)]
    fn is_alphanum(self) -> bool {
        self.is_ascii_alphanumeric()
    }

    #[inline(always)]
    fn is_dec_digit(self) -> bool {
        self.is_ascii_digit()
    }

    #[inline(always)]
    fn is_hex_digit(self) -> bool {
        self.is_ascii_hexdigit()
    }

    #[inline(always)]
    fn is_oct_digit(self) -> bool {
        matches!(self, '0'..='7')
    }

    #[inline(always)]
    fn is_bin_digit(self) -> bool {
        matches!(self, '0' | '1')
    }

    #[inline(always)]
    fn len(self) -> usize {
        self.len_utf8()
    }

    #[inline(always)]
    fn is_space(self) -> bool {
        self == ' ' || self == '\t'
    }

    #[inline(always)]
    fn is_newline(self) -> bool {
        self == '\n'
    }
}

/// Treats a reference as the character that it points to.
impl<T: AsChar> AsChar for &T {
    ghost size = { λ c. T.size c.now };

    #[inline(always)]
    fn as_char(self) -> char {
        let value = *self;
        value.as_char()
    }

    #[inline(always)]
    fn is_alpha(self) -> bool {
        let value = *self;
        value.is_alpha()
    }

    #[inline(always)]
    fn is_alphanum(self) -> bool {
        let value = *self;
        value.is_alphanum()
    }

    #[inline(always)]
    fn is_dec_digit(self) -> bool {
        let value = *self;
        value.is_dec_digit()
    }

    #[inline(always)]
    fn is_hex_digit(self) -> bool {
        let value = *self;
        value.is_hex_digit()
    }

    #[inline(always)]
    fn is_oct_digit(self) -> bool {
        let value = *self;
        value.is_oct_digit()
    }

    #[inline(always)]
    fn is_bin_digit(self) -> bool {
        let value = *self;
        value.is_bin_digit()
    }

    #[inline(always)]
    fn len(self) -> usize {
        let value = *self;
        value.len()
    }

    #[inline(always)]
    fn is_space(self) -> bool {
        let value = *self;
        value.is_space()
    }

    #[inline(always)]
    fn is_newline(self) -> bool {
        let value = *self;
        value.is_newline()
    }
}
