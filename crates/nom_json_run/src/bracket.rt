//! Brackets, the parts that are awaited between them, and missing parts.

/// The kind of an open bracket.
#[derive(Clone, Copy, Debug, PartialEq, Eq)]
pub enum Bracket {
    Array,
    Object,
}

/// The part that is awaited at a place.
#[derive(Clone, Copy)]
pub enum Awaits {
    Value,
    /// The part after a value: a comma or the closing bracket, or the end if no bracket is open.
    After,
}

/// The part that is missing at a place.
#[derive(Clone, Copy, Debug, PartialEq, Eq)]
pub enum Missing {
    Value,
    /// A word.
    Word(&'static str),
    Digit,
    /// A character of a string, or the quote that closes it.
    Character,
    /// The part after a backslash.
    Escape,
    /// A digit in base 16.
    Hex,
    /// The name of a member.
    Name,
    Colon,
    /// A comma, or the closing bracket.
    Comma(Bracket),
    /// The end of the text.
    End,
}

/// A place where something is missing.
#[derive(Clone, Copy, Debug, PartialEq, Eq)]
pub struct Fault {
    pub at: usize,
    pub missing: Missing,
}

/// The result of a step.
#[derive(Clone, Copy)]
pub enum Step {
    /// The check continues at a place.
    Go(usize, Awaits),
    Stop(Fault),
    /// The text has reached its end.
    Done,
}
