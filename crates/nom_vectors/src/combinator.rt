//! Rows of parsers on what others answer.
ghost use Rattle.std.specs.Prelude.{◌≡◌};

use crate::answers::{Answers, Fault, accepts, answers_of, needs};
use nom::bytes::{escaped_transform, tag};
use nom::character::{char, complete};
use nom::combinator::{cut, iterator, recognize};
use nom::error::{ContextError, Error, ErrorKind, ParseError, context};
use nom::{Err, IResult, OutOfMemory, Parser, func};
use std::alloc::Global;

/// The input, and the name that was added last.
#[derive(Drop)]
struct Named<'a> {
    input: &'a str,
    context: &'static str,
}

impl<'a> ParseError<&'a str> for Named<'a> {
    ghost errors = { record {
      of_kind = λ i _ e. e.input ≡ i;
      appended = λ _ _ other e. e ≡ other;
      of_char = λ i _ e. e.input ≡ i;
      joined = λ _ other e. e ≡ other;
      grows = ⊥;
    } };

    fn from_error_kind(input: &'a str, _kind: ErrorKind) -> Result<Self, OutOfMemory> {
        Ok(Named { input, context: "" })
    }

    fn append(_input: &'a str, _kind: ErrorKind, other: Self) -> Result<Self, OutOfMemory> {
        Ok(other)
    }

    fn from_char(input: &'a str, _wanted: char) -> Result<Self, OutOfMemory> {
        Ok(Named { input, context: "" })
    }

    fn or(self, other: Self) -> Result<Self, OutOfMemory> {
        Ok(other)
    }
}

impl<'a> ContextError<&'a str> for Named<'a> {
    ghost contexts = { record { named = λ i name other e. (e.input ≡ i) × (e.context.now ≡ name); grows = ⊥ } };

    fn add_context(
        input: &'a str,
        context: &'static str,
        _other: Self,
    ) -> Result<Self, OutOfMemory> {
        Ok(Named { input, context })
    }
}

/// `escaped_transform(complete::alpha0, '\\', tag("n"))` complete on `ab7`: rest `7`, text `ab`.
pub fn row_15(alloc: Global) -> bool {
    let letters = func(complete::alpha0::<&str, Error<&str>>);
    let mut text = escaped_transform(alloc, letters, '\\', tag("n"));
    match text.parse_complete("ab7") {
        Ok((rest, text)) => rest == "7" && text.as_str() == "ab",
        Err(_) => false,
    }
}

/// `recognize(func(complete::alpha0))` on `abc`: rest empty, output `abc`.
pub fn row_19() -> bool {
    let mut letters = recognize(func(complete::alpha0::<&str, Error<&str>>));
    accepts(letters.parse_complete("abc"), b"", b"abc")
}

impl Fault for Named<'_> {
    fn is_as(&self, other: &Self, lack: usize) -> bool {
        let left = self.input.len().saturating_add(lack);
        self.context == other.context && left == other.input.len()
    }
}

fn named_char<'a>(alloc: Global, input: &'a str) -> Answers<&'a str, char, Named<'a>> {
    let wanted = cut(char::<&'a str, Named<'a>>('a'));
    answers_of(alloc, context("ctx", wanted), input)
}

/// `context("ctx", cut(char('a')))` on `bcd`, with an error that keeps the input and the last name:
/// Failure, input `bcd`, context `ctx`.
pub fn row_27(alloc: Global) -> bool {
    let found = named_char(alloc, "bcd");
    match found.streaming {
        Err(Err::Failure(error)) => {
            error.input == "bcd" && error.context == "ctx" && found.grows
        }
        _ => false,
    }
}

/// Whether an iterator gives two `a` and then none, twice asked; and what its `finish` answers.
fn items(input: &str) -> (bool, IResult<&str, ()>) {
    let mut items = iterator(input, char::<_, Error<&str>>('a'));
    let given = items.next() == Some('a') && items.next() == Some('a');
    let ended = items.next().is_none() && items.next().is_none();
    (given && ended, items.finish())
}

/// `iterator("aab", char('a'))`: `a`, `a`, None, None; `finish` gives rest `b`. On `aa`: `a`, `a`, None, None;
/// `finish` gives Incomplete 1.
pub fn row_28() -> bool {
    let (closed, finished) = items("aab");
    let (open, unfinished) = items("aa");
    let is_left = match finished {
        Ok((rest, ())) => rest == "b",
        Err(_) => false,
    };
    closed && is_left && open && needs(unfinished, Some(1))
}
