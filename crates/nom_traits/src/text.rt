//! Texts as inputs. The items are the characters, each as long as its UTF-8 form.
ghost use Rattle.std.specs.Prelude.{◌≡◌, ◌<◌, true, nat_lt, length, chars, None, MatchResult, refl};
ghost use Rattle.std.specs.List.{list_all};
ghost use Rattle.nom_error.specs.Answers.{size_of};
ghost use Rattle.nom_traits.specs.Classes.{IsIn, IsNotIn, of_ascii};
ghost use Rattle.nom_traits.specs.Runs.{IsPosition};
ghost use Rattle.nom_traits.specs.Slices.{IsCount};
ghost use Rattle.nom_traits.specs.Text.{text_model, text_lawful, text_values};

use crate::character::CodeSet;
use crate::input::{Input, Items};
use crate::lanes::bytes_outside;
use crate::offset::Offset;
use nom_error::answer::Needed;
use std::str::{CharIndices, Chars};

impl Items for &str {
    type Item = char;

    ghost model = { text_model };

    #[inline(always)]
    fn known(self) {
        let _bytes = self.as_bytes();
    }

    ghost lawful = { text_lawful };

    ghost values = { text_values };
}

impl<'a> Input for &'a str {
    // How many bytes the characters that are lacking take isn't known.
    ghost lack = { λ _ _. None };

    type Iter = Chars<'a>;

    type IterIndices = CharIndices<'a>;

    #[inline(always)]
    fn input_len(&self) -> usize {
        let text = *self;
        text.known();
        text.len()
    }

    #[inline(always)]
    fn take(&self, index: usize) -> Self {
        let text = *self;
        text.known();
        &text[..index]
    }

    #[inline(always)]
    fn take_from(&self, index: usize) -> Self {
        let text = *self;
        text.known();
        &text[index..]
    }

    #[inline]
    fn slice_index(&self, count: usize) -> Result<usize, Needed> {
        index_after(self, count)
    }

    #[inline(always)]
    fn item_len(&self, item: &char) -> usize {
        item.len_utf8()
    }

    #[inline(always)]
    fn iter_elements(&self) -> Chars<'a> {
        self.chars()
    }

    #[inline(always)]
    fn iter_indices(&self) -> CharIndices<'a> {
        let text = *self;
        text.known();
        text.char_indices()
    }

    #[inline(always)]
    fn run_end(&self, set: CodeSet<'_>) -> Option<Option<usize>> {
        if is_of_ascii(set) {
            Some(text_outside(self, set))
        } else {
            None
        }
    }

    #[inline(always)]
    fn knows_places(&self) -> bool {
        true
    }

    ghost more = { λ _. tt };

    ghost views = { λ x y h. h.elements_are };

    ghost view_injective = { λ x y e. record { elements_are = e; mark_is = refl } };
}

impl Offset for &str {
    #[inline(always)]
    fn offset(&self, second: &Self) -> usize {
        let whole = *self;
        whole.known();
        whole.len() - second.len()
    }
}

/// Returns whether ASCII characters alone determine the set.
#[inline(always)]
fn is_of_ascii(set: CodeSet<'_>) -> bool
    ensures { result ≡ of_ascii set.entry }
{
    match set {
        CodeSet::Class(_) => true,
        CodeSet::OneOf(list) | CodeSet::NoneOf(list) => are_ascii(list),
    }
}

/// Returns whether all bytes are ASCII.
///
/// The loop is inlined. The compiler then tests a list that is known where a parser is built.
#[inline(always)]
pub fn are_ascii(bytes: &[u8]) -> bool
    ensures { result ≡ list_all (λ b. nat_lt b 128) bytes.now }
{
    bytes.iter().all(|byte| *byte < 128)
}

/// Returns the place of the first character that isn't in the set, or `None` if all are.
// A byte below 128 is a character, and no part of a longer one. So the first byte outside a set of such characters begins
// the first character outside it, and the first byte inside is the first character inside it.
#[inline(always)]
fn text_outside(text: &str, set: CodeSet<'_>) -> Option<usize>
    requires { of_ascii set ≡ true }
    ensures { IsPosition text_model (IsIn set.entry) (IsNotIn set.entry) text.entry result }
{
    text.known();
    bytes_outside(text.as_bytes(), set)
}

/// Returns the place after the first `count` characters.
#[inline]
fn index_after(text: &str, count: usize) -> Result<usize, Needed>
    ensures { MatchResult result
        (λ n. IsCount text_model text.entry count n)
        (λ k. (length (chars text.now) < count) × (size_of k ≡ None)) }
{
    text.known();
    let mut rest = text.chars();
    let mut left = count;
    while left > 0 {
        match rest.next() {
            Some(_) => left -= 1,
            None => return Err(Needed::Unknown),
        }
    }
    Ok(text.len() - rest.as_str().len())
}
