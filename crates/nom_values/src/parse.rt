//! Bytes and texts read as values.
ghost use Rattle.std.specs.Prelude.{Option};
ghost use Rattle.nom_values.specs.Parses.{ParsesText, ParsesBytes};

use std::str::FromStr;

/// A type whose values `parse_to` reads: a whole number, `bool` or `char`.
///
/// A type of your own comes in by an empty `impl`, and is read as its `FromStr` says.
pub trait ReadFromText: FromStr<Err: Drop> {}

impl ReadFromText for u8 {}

impl ReadFromText for u16 {}

impl ReadFromText for u32 {}

impl ReadFromText for u64 {}

impl ReadFromText for u128 {}

impl ReadFromText for usize {}

impl ReadFromText for i8 {}

impl ReadFromText for i16 {}

impl ReadFromText for i32 {}

impl ReadFromText for i64 {}

impl ReadFromText for i128 {}

impl ReadFromText for isize {}

impl ReadFromText for bool {}

impl ReadFromText for char {}

/// A value that can be read as an `R`.
pub trait ParseTo<R> {
    /// The results that reading the value may have.
    ghost parses: { Self → Option R → Type 0 };

    /// Reads the whole value as an `R`, and returns `None` if it isn't one.
    ///
    /// Blanks aren't skipped. A whole number is an optional `+`, for signed types also `-`, and at least one
    /// decimal digit, within the range of the type. A `bool` is `true` or `false`. A `char` is one character.
    /// Bytes that aren't UTF-8 are read as `None`.
    ///
    /// As a `u8`, `"42"` is read as `Some(42)`, and `"256"` as `None`.
    fn parse_to(&self) -> Option<R>
        ensures { parses self.now result };
}

impl<'a, R: ReadFromText> ParseTo<R> for &'a str {
    ghost parses = { λ s o. ParsesText R.from_str_gives s.now o };

    fn parse_to(&self) -> Option<R> {
        match self.parse::<R>() {
            Ok(value) => Some(value),
            Err(_) => None,
        }
    }
}

impl<'a, R: ReadFromText> ParseTo<R> for &'a [u8] {
    ghost parses = { λ s o. ParsesBytes R.from_str_gives s.now o };

    fn parse_to(&self) -> Option<R> {
        let Ok(text) = std::str::from_utf8(self) else {
            return None;
        };
        text.parse_to()
    }
}
