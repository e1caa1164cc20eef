//! A text that knows its file.
ghost use Rattle.std.specs.Prelude.{◌≡◌, ℕ, List, length, None, refl};
ghost use Rattle.nom_internal.specs.Prelude.{text_model, text_lawful, text_values, text_view, ComparesText, ComparesTextNoCase, text_comparing};
ghost use Rattle.nom_internal.specs.Prelude.{text_comparing_no_case};
ghost use Rattle.nom.specs.Wrapped.{wrapped_comparing, wrapped_lawful, wrapped_injective, wrapped_view, wrapped_views};
ghost use Rattle.example_parts.specs.Sources.{name, source_model};

use nom::{CodeSet, Compare, CompareResult, Input, Items, Needed, Viewed};
use std::str::{CharIndices, Chars};

/// A text, with the name of the file that it is from. Each front and rest of it has that name too, and so has the
/// input that an error keeps.
#[derive(Clone, Copy, Debug, PartialEq, Eq)]
pub struct Source<'a> {
    pub text: &'a str,
    pub file: &'a str,
}

impl Viewed for Source<'_> {
    ghost view = { wrapped_view (λ s. s.text) name text_view };
}

impl Items for Source<'_> {
    type Item = char;

    ghost model = { source_model };

    fn known(self) {
        self.text.known();
    }

    ghost lawful = { wrapped_lawful (λ s. s.text) name text_model text_lawful };

    ghost values = { λ s h. text_values s.text h };
}

impl<'a> Input for Source<'a> {
    // How many bytes the characters that are lacking take isn't known.
    ghost lack = { λ _ _. None };

    type Iter = Chars<'a>;

    type IterIndices = CharIndices<'a>;

    fn input_len(&self) -> usize {
        self.text.input_len()
    }

    fn take(&self, index: usize) -> Self {
        Source {
            text: self.text.take(index),
            file: self.file,
        }
    }

    fn take_from(&self, index: usize) -> Self {
        let file = self.file;
        let text = self.text.take_from(index);
        Source { text, file }
    }

    fn slice_index(&self, count: usize) -> Result<usize, Needed> {
        self.text.slice_index(count)
    }

    fn item_len(&self, item: &char) -> usize {
        item.len_utf8()
    }

    fn iter_elements(&self) -> Chars<'a> {
        self.text.iter_elements()
    }

    fn iter_indices(&self) -> CharIndices<'a> {
        self.text.iter_indices()
    }

    fn run_end(&self, set: CodeSet<'_>) -> Option<Option<usize>> {
        self.text.run_end(set)
    }

    ghost more = { λ _. tt };

    ghost views = { wrapped_views (λ s. s.text) name text_model text_view (λ x y h. h.elements_are) };

    ghost view_injective = { wrapped_injective (λ s. s.text) name text_model text_view (λ x y e. record { elements_are = e; mark_is = refl }) };
}

impl<'a, 'b> Compare<&'b str> for Source<'a> {
    ghost Tag = { List ℕ };

    ghost tag_model = { λ t. t.now };

    ghost tag_size = { length };

    ghost compares = { ComparesText };

    ghost compares_no_case = { ComparesTextNoCase };

    fn tag_len(tag: &'b str) -> usize
        ensures { result ≡ length tag.now }
    {
        tag.len()
    }

    fn compare(&self, tag: &'b str) -> CompareResult {
        self.text.compare(tag)
    }

    fn compare_no_case(&self, tag: &'b str) -> CompareResult {
        self.text.compare_no_case(tag)
    }

    ghost comparing = { wrapped_comparing (λ s. s.text) name text_model text_comparing };

    ghost comparing_no_case = { wrapped_comparing (λ s. s.text) name text_model text_comparing_no_case };
}
