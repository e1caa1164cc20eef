//! A text that knows how deep in brackets it stands.
ghost use Rattle.std.specs.Prelude.{◌≡◌, ℕ, List, chars, length, None, refl};
ghost use Rattle.nom_internal.specs.Prelude.{text_model, text_lawful, text_values, text_view, ComparesText, ComparesTextNoCase, text_comparing};
ghost use Rattle.nom_internal.specs.Prelude.{text_comparing_no_case};
ghost use Rattle.nom.specs.Moving.{moved, moving_comparing, moving_lawful, moving_injective, moving_view, moving_views};
ghost use Rattle.example_parts.specs.Nestings.{depth_after, depths, nested_model};

use nom::{CodeSet, Compare, CompareResult, Input, Items, Needed, Viewed};
use std::str::{CharIndices, Chars};

/// A text, with its depth: how many brackets `(` before it aren't closed. A `)` where none is open changes nothing, and the
/// depth stays at the greatest `usize`. A front stands as deep as the whole, and a rest as its brackets say; and so does
/// the input that an error keeps.
#[derive(Clone, Copy, Debug, PartialEq, Eq)]
pub struct Nested<'a> {
    pub text: &'a str,
    pub depth: usize,
}

/// The depth after a character.
fn deeper(depth: usize, c: char) -> usize
    ensures { result ≡ depth_after depth c }
{
    match c {
        '(' => depth.saturating_add(1),
        ')' => depth.saturating_sub(1),
        _ => depth,
    }
}

/// The depth after a text.
fn depth_past(text: &str, depth: usize) -> usize
    ensures { result ≡ moved depth_after depth (chars text.now) }
{
    let mut past = depth;
    for c in text.chars() {
        past = deeper(past, c);
    }
    past
}

impl Viewed for Nested<'_> {
    ghost view = { moving_view depths text_view };
}

impl Items for Nested<'_> {
    type Item = char;

    ghost model = { nested_model };

    fn known(self) {
        self.text.known();
    }

    ghost lawful = { moving_lawful depths text_model text_lawful };

    ghost values = { λ s h. text_values s.text h.0 };
}

impl<'a> Input for Nested<'a> {
    // How many bytes the characters that are lacking take isn't known.
    ghost lack = { λ _ _. None };

    type Iter = Chars<'a>;

    type IterIndices = CharIndices<'a>;

    fn input_len(&self) -> usize {
        self.text.input_len()
    }

    fn take(&self, index: usize) -> Self {
        Nested {
            text: self.text.take(index),
            depth: self.depth,
        }
    }

    fn take_from(&self, index: usize) -> Self {
        let front = self.text.take(index);
        let text = self.text.take_from(index);
        let depth = depth_past(front, self.depth);
        Nested { text, depth }
    }

    fn slice_index(&self, count: usize) -> Result<usize, Needed> {
        self.text.slice_index(count)
    }

    fn item_len(&self, item: &char) -> usize {
        item.len_utf8()
    }

    fn iter_elements(&self) -> Chars<'a> {
        self.text.iter_elements()
    }

    fn iter_indices(&self) -> CharIndices<'a> {
        self.text.iter_indices()
    }

    fn run_end(&self, set: CodeSet<'_>) -> Option<Option<usize>> {
        self.text.run_end(set)
    }

    ghost more = { λ _. tt };

    ghost views = { moving_views depths text_model text_view (λ x y h. h.elements_are) };

    ghost view_injective = { moving_injective depths text_model text_view (λ x y e. record { elements_are = e; mark_is = refl }) };
}

impl<'a, 'b> Compare<&'b str> for Nested<'a> {
    ghost Tag = { List ℕ };

    ghost tag_model = { λ t. t.now };

    ghost tag_size = { length };

    ghost compares = { ComparesText };

    ghost compares_no_case = { ComparesTextNoCase };

    fn tag_len(tag: &'b str) -> usize
        ensures { result ≡ length tag.now }
    {
        tag.len()
    }

    fn compare(&self, tag: &'b str) -> CompareResult {
        self.text.compare(tag)
    }

    fn compare_no_case(&self, tag: &'b str) -> CompareResult {
        self.text.compare_no_case(tag)
    }

    ghost comparing = { moving_comparing depths text_model text_comparing };

    ghost comparing_no_case = { moving_comparing depths text_model text_comparing_no_case };
}
