//! Comparisons of inputs with tags.
ghost use Rattle.std.specs.Prelude.{◌≡◌, ◌<◌, ℕ, List, length, chars, encode_utf8_all};
ghost use Rattle.nom_traits.specs.declared.compare.CompareResult.{CompareResult};
ghost use Rattle.nom_traits.specs.Compares.{CompareLaws, ComparesAs, ComparesBytes, ComparesBytesNoCase, ComparesText, ComparesTextNoCase};
ghost use Rattle.nom_traits.specs.CompareTags.{IsForm, bytes_comparing, bytes_comparing_no_case, text_comparing, text_comparing_no_case};

use crate::input::Items;

/// The result of comparing an input with a tag.
#[derive(Debug, Drop, PartialEq, Eq)]
pub enum CompareResult {
    /// The tag is a prefix of the input.
    Ok,
    /// The input is a proper prefix of the tag.
    Incomplete,
    /// Neither is a prefix of the other.
    Error,
}

/// An input that can be compared with tags of type `T`.
pub trait Compare<T>: Items {
    /// The model of a tag. Tags that are equal as models are the same to every parser.
    ghost Tag: { Type 0 };

    ghost tag_model: { T → Tag };

    /// The length of a tag as a prefix of an input.
    ghost tag_size: { Tag → ℕ };

    /// The result of comparing a list of items with a tag.
    ghost compares: { Tag → List Self.Item → CompareResult → Type 0 };

    /// The result of comparing a list of items with a tag, ignoring the case of ASCII letters.
    ghost compares_no_case: { Tag → List Self.Item → CompareResult → Type 0 };

    /// Returns the length of a tag as a prefix of an input.
    fn tag_len(tag: T) -> usize
        ensures { result ≡ tag_size (tag_model tag) };

    /// Compares the start of the input with a tag.
    fn compare(&self, tag: T) -> CompareResult
        ensures { compares (tag_model tag) (Self.model.elements self.now) result };

    /// Compares the start of the input with a tag, ignoring the case of ASCII letters.
    fn compare_no_case(&self, tag: T) -> CompareResult
        ensures { compares_no_case (tag_model tag) (Self.model.elements self.now) result };

    /// A decided result stays the same on longer inputs.
    ///
    /// A tag that is found ends at a place between items. If more input is needed, the input is shorter than
    /// the tag.
    ghost comparing: { CompareLaws Self.model tag_size compares };

    /// The same laws for `compare_no_case`.
    ghost comparing_no_case: { CompareLaws Self.model tag_size compares_no_case };
}

/// Compares bytes one by one.
impl<'a, 'b> Compare<&'b [u8]> for &'a [u8] {
    ghost Tag = { List ℕ };

    ghost tag_model = { λ t. t.now };

    ghost tag_size = { length };

    ghost compares = { ComparesBytes };

    ghost compares_no_case = { ComparesBytesNoCase };

    #[inline(always)]
    fn tag_len(tag: &'b [u8]) -> usize
        ensures { result ≡ length tag.now }
    {
        tag.len()
    }

    #[inline(always)]
    fn compare(&self, tag: &'b [u8]) -> CompareResult {
        compare_bytes(self, tag)
    }

    #[inline(always)]
    fn compare_no_case(&self, tag: &'b [u8]) -> CompareResult {
        compare_bytes_no_case(self, tag)
    }

    ghost comparing = { bytes_comparing };

    ghost comparing_no_case = { bytes_comparing_no_case };
}

/// Compares bytes with the UTF-8 form of a text.
impl<'a, 'b> Compare<&'b str> for &'a [u8] {
    ghost Tag = { List ℕ };

    ghost tag_model = { λ t. t.now };

    ghost tag_size = { length };

    ghost compares = { ComparesBytes };

    ghost compares_no_case = { ComparesBytesNoCase };

    #[inline(always)]
    fn tag_len(tag: &'b str) -> usize
        ensures { result ≡ length tag.now }
    {
        tag.len()
    }

    #[inline(always)]
    fn compare(&self, tag: &'b str) -> CompareResult {
        compare_bytes(self, tag.as_bytes())
    }

    #[inline(always)]
    fn compare_no_case(&self, tag: &'b str) -> CompareResult {
        compare_bytes_no_case(self, tag.as_bytes())
    }

    ghost comparing = { bytes_comparing };

    ghost comparing_no_case = { bytes_comparing_no_case };
}

impl<'a, const N: usize> Compare<[u8; N]> for &'a [u8] {
    ghost Tag = { List ℕ };

    ghost tag_model = { λ t. t };

    ghost tag_size = { length };

    ghost compares = { ComparesBytes };

    ghost compares_no_case = { ComparesBytesNoCase };

    #[inline(always)]
    fn tag_len(_tag: [u8; N]) -> usize
        ensures { result ≡ length _tag.entry }
    {
        N
    }

    #[inline(always)]
    fn compare(&self, tag: [u8; N]) -> CompareResult {
        compare_bytes(self, &tag)
    }

    #[inline(always)]
    fn compare_no_case(&self, tag: [u8; N]) -> CompareResult {
        compare_bytes_no_case(self, &tag)
    }

    ghost comparing = { bytes_comparing };

    ghost comparing_no_case = { bytes_comparing_no_case };
}

impl<'a, 'b, const N: usize> Compare<&'b [u8; N]> for &'a [u8] {
    ghost Tag = { List ℕ };

    ghost tag_model = { λ t. t.now };

    ghost tag_size = { length };

    ghost compares = { ComparesBytes };

    ghost compares_no_case = { ComparesBytesNoCase };

    #[inline(always)]
    fn tag_len(tag: &'b [u8; N]) -> usize
        ensures { result ≡ length tag.now }
    {
        tag.len()
    }

    #[inline(always)]
    fn compare(&self, tag: &'b [u8; N]) -> CompareResult {
        compare_bytes(self, tag)
    }

    #[inline(always)]
    fn compare_no_case(&self, tag: &'b [u8; N]) -> CompareResult {
        compare_bytes_no_case(self, tag)
    }

    ghost comparing = { bytes_comparing };

    ghost comparing_no_case = { bytes_comparing_no_case };
}

/// Compares the characters of a text.
impl<'a, 'b> Compare<&'b str> for &'a str {
    ghost Tag = { List ℕ };

    ghost tag_model = { λ t. t.now };

    ghost tag_size = { length };

    ghost compares = { ComparesText };

    ghost compares_no_case = { ComparesTextNoCase };

    #[inline(always)]
    fn tag_len(tag: &'b str) -> usize
        ensures { result ≡ length tag.now }
    {
        tag.len()
    }

    #[inline(always)]
    fn compare(&self, tag: &'b str) -> CompareResult {
        compare_text(self, tag.as_bytes())
    }

    #[inline(always)]
    fn compare_no_case(&self, tag: &'b str) -> CompareResult {
        compare_text_no_case(self, tag.as_bytes())
    }

    ghost comparing = { text_comparing };

    ghost comparing_no_case = { text_comparing_no_case };
}

/// Compares a text with bytes. Bytes that end inside a character of the text are no prefix of it.
impl<'a, 'b> Compare<&'b [u8]> for &'a str {
    ghost Tag = { List ℕ };

    ghost tag_model = { λ t. t.now };

    ghost tag_size = { length };

    ghost compares = { ComparesText };

    ghost compares_no_case = { ComparesTextNoCase };

    #[inline(always)]
    fn tag_len(tag: &'b [u8]) -> usize
        ensures { result ≡ length tag.now }
    {
        tag.len()
    }

    #[inline(always)]
    fn compare(&self, tag: &'b [u8]) -> CompareResult {
        compare_text(self, tag)
    }

    #[inline(always)]
    fn compare_no_case(&self, tag: &'b [u8]) -> CompareResult {
        compare_text_no_case(self, tag)
    }

    ghost comparing = { text_comparing };

    ghost comparing_no_case = { text_comparing_no_case };
}

#[inline(always)]
fn compare_bytes(bytes: &[u8], tag: &[u8]) -> CompareResult
    ensures { ComparesBytes tag.now bytes.now result }
{
    if bytes.len() < tag.len() {
        return compare_short(bytes, tag);
    }
    for i in 0..tag.len() {
        let byte = bytes[i];
        let wanted = tag[i];
        if byte != wanted {
            return CompareResult::Error;
        }
    }
    CompareResult::Ok
}

/// Compares bytes that are fewer than those of the tag. It is a separate function to keep `compare_bytes`
/// small.
#[cold]
#[inline(never)]
fn compare_short(bytes: &[u8], tag: &[u8]) -> CompareResult
    requires { length bytes.now < length tag.now }
    ensures { ComparesBytes tag.now bytes.now result }
{
    for i in 0..bytes.len() {
        let byte = bytes[i];
        let wanted = tag[i];
        if byte != wanted {
            return CompareResult::Error;
        }
    }
    CompareResult::Incomplete
}

#[inline(always)]
fn compare_bytes_no_case(bytes: &[u8], tag: &[u8]) -> CompareResult
    ensures { ComparesBytesNoCase tag.now bytes.now result }
{
    let n = bytes.len().min(tag.len());
    for i in 0..n {
        let byte = bytes[i].to_ascii_lowercase();
        let wanted = tag[i].to_ascii_lowercase();
        if byte != wanted {
            return CompareResult::Error;
        }
    }
    if bytes.len() >= tag.len() {
        CompareResult::Ok
    } else {
        CompareResult::Incomplete
    }
}

#[inline(always)]
fn compare_text(text: &str, tag: &[u8]) -> CompareResult
    ensures { ComparesText tag.now (chars text.now) result }
{
    between_characters(text, tag, compare_bytes(text.as_bytes(), tag))
}

#[inline(always)]
fn compare_text_no_case(text: &str, tag: &[u8]) -> CompareResult
    ensures { ComparesTextNoCase tag.now (chars text.now) result }
{
    between_characters(text, tag, compare_bytes_no_case(text.as_bytes(), tag))
}

/// Returns the result for a text, given the result `found` for its bytes. A tag must end between characters.
#[inline(always)]
fn between_characters(text: &str, tag: &[u8], found: CompareResult) -> CompareResult
    ensures { (form : List ℕ → List ℕ) → IsForm form → ComparesAs (λ xs. xs) form tag.now text.now found →
        ComparesAs encode_utf8_all form tag.now (chars text.now) result }
{
    text.known();
    match found {
        CompareResult::Ok if text.is_char_boundary(tag.len()) => CompareResult::Ok,
        CompareResult::Ok => CompareResult::Error,
        CompareResult::Incomplete => CompareResult::Incomplete,
        CompareResult::Error => CompareResult::Error,
    }
}
