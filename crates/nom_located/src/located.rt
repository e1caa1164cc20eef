//! An input that knows its line and column.
ghost use Rattle.std.specs.Prelude.{IfOk, Some, ◌≡◌, ◌+◌, ◌++◌, ◌≤◌, codes, length};
ghost use Rattle.std.specs.Fmt.{decimal};
ghost use Rattle.std.proofs.Common.{ap};
ghost use Rattle.memchr.specs.Find.{IsFirst, Passes, is_byte};
ghost use Rattle.nom_traits.specs.Input.{input_len};
ghost use Rattle.nom_located.specs.Lines.{IsUtf8Column};
ghost use Rattle.nom_located.specs.Moving.{moving_view};
ghost use Rattle.nom_located.specs.laws.MovingLaws.{moving_comparing, moving_finding, moving_lawful, moving_reads, moving_injective, moving_views};
ghost use Rattle.nom_located.specs.Located.{FitsPlace, located, place, past_bytes, located_model};

use crate::source::column_in_characters;
use memchr::memchr;
use nom_error::answer::{Needed, OutOfMemory};
use nom_search::bytes::{AsBytes, ByteItems};
use nom_search::extend::ExtendInto;
use nom_search::substring::FindSubstring;
use nom_search::token::FindToken;
use nom_traits::character::CodeSet;
use nom_traits::compare::{Compare, CompareResult};
use nom_traits::input::{Input, Items, Value};
use nom_traits::offset::Offset;
use nom_traits::rests::{CountItems, CutRest};
use nom_traits::view::Viewed;
use nom_values::hex::HexDisplay;
use nom_values::parse::ParseTo;
use std::alloc::{AllocError, Allocator};
use std::fmt;

/// An input with its offset, line and column.
///
/// The offset is the number of bytes before the input in the whole. The line and the column start at 1, and
/// the column counts bytes. The byte 10 ends a line. Each rest of the input knows its own place, and so does
/// the input that an error keeps. A prefix has the place of the input.
///
/// All of them carry a label of the user, `extra`, for example the name of a file. Two inputs are equal if
/// the other four parts are equal, whatever their labels.
///
/// The rest of `Located::new("a\nbc")` after 3 bytes has offset 3, line 2 and column 2.
#[derive(Debug)]
#[derive_where(PartialEq, Eq, Hash; I)]
pub struct Located<I: Items, X = ()> {
    fragment: I,
    offset: usize,
    line: usize,
    column: usize,
    #[derive_where(skip(EqHashOrd))]
    extra: X,
    ghost fits: { FitsPlace (place offset line column) (input_len I.model fragment) },
}

impl<I: Items, X: Copy> Copy for Located<I, X> {}

/// Writes the place as `LINE:COLUMN`.
impl<I: Items, X> fmt::Display for Located<I, X> {
    ghost output = { λ x. Some (decimal x.line ++ codes ":" ++ decimal x.column) };

    fn fmt<W: fmt::Write>(&self, f: &mut fmt::Formatter<W>) -> fmt::Result {
        write!(f, "{}:{}", self.line, self.column)
    }
}

impl<I: Items, X: Copy> Clone for Located<I, X> {
    fn clone(&self) -> Result<Self, AllocError>
        ensures { IfOk result (λ x. (x.fragment ≡ self.now.fragment) × (x.offset ≡ self.now.offset) × (x.line ≡ self.now.line) ×
            (x.column ≡ self.now.column) × (x.extra ≡ self.now.extra)) }
    {
        Ok(Located {
            fragment: self.fragment,
            offset: self.offset,
            line: self.line,
            column: self.column,
            extra: self.extra,
        })
    }
}

impl<I: Viewed + ByteItems, X: Copy> Viewed for Located<I, X> {
    ghost view = { moving_view (located (λ x. x.fragment) (λ x. place x.offset x.line x.column) (λ x. x.extra) I.read) I.view };
}

impl<I: ByteItems, X: Copy> Items for Located<I, X> {
    type Item = I::Item;

    ghost model = { located_model (λ x. x.fragment) (λ x. place x.offset x.line x.column) (λ x. x.extra) I.read I.model };

    fn known(self) {
        self.fragment.known();
    }

    #[inline(always)]
    fn group_count(&self, width: usize, most: usize) -> usize {
        self.fragment.group_count(width, most)
    }

    ghost lawful = { moving_lawful (located (λ x. x.fragment) (λ x. place x.offset x.line x.column) (λ x. x.extra) I.read) I.model I.lawful };

    ghost values = { λ x h. I.values x.fragment h.0 };
}

impl<I: Input + ByteItems, X: Copy> Input for Located<I, X> {
    ghost lack = { I.lack };

    type Iter = I::Iter;

    type IterIndices = I::IterIndices;

    #[inline(always)]
    fn input_len(&self) -> usize {
        self.fragment.input_len()
    }

    #[inline(always)]
    fn take(&self, index: usize) -> Self {
        self.fragment.known();
        let fragment = self.fragment.take(index);
        Located {
            fragment,
            offset: self.offset,
            line: self.line,
            column: self.column,
            extra: self.extra,
        }
    }

    #[inline]
    fn take_from(&self, index: usize) -> Self {
        self.fragment.known();
        let front = self.fragment.take(index);
        let fragment = self.fragment.take_from(index);
        let (line, column) = line_after(front.as_bytes(), self.offset, self.line, self.column);
        Located {
            fragment,
            offset: self.offset + index,
            line,
            column,
            extra: self.extra,
        }
    }

    fn slice_index(&self, count: usize) -> Result<usize, Needed> {
        self.fragment.slice_index(count)
    }

    #[inline(always)]
    fn item_len(&self, item: &Self::Item) -> usize {
        self.fragment.item_len(item)
    }

    #[inline(always)]
    fn iter_elements(&self) -> Self::Iter {
        self.fragment.iter_elements()
    }

    #[inline(always)]
    fn iter_indices(&self) -> Self::IterIndices {
        self.fragment.iter_indices()
    }

    #[inline(always)]
    fn run_end(&self, set: CodeSet<'_>) -> Option<Option<usize>> {
        self.fragment.run_end(set)
    }

    #[inline(always)]
    fn knows_places(&self) -> bool {
        self.fragment.knows_places()
    }

    ghost more = { I.more };

    ghost views = { moving_views (located (λ x. x.fragment) (λ x. place x.offset x.line x.column) (λ x. x.extra) I.read) I.model I.view I.views };

    ghost view_injective = { moving_injective (located (λ x. x.fragment) (λ x. place x.offset x.line x.column) (λ x. x.extra) I.read) I.model
        I.view I.view_injective };
}

impl<I: Input + ByteItems + CutRest, X: Copy> CutRest for Located<I, X> {
    #[inline]
    fn cut_rest(self, left: Self) -> Option<Self> {
        match self.fragment.cut_rest(left.fragment) {
            Some(rest) => Some(self.take_from(self.fragment.input_len() - rest.input_len())),
            None => None,
        }
    }
}

impl<I: ByteItems + CountItems, X: Copy> CountItems for Located<I, X> {
    #[inline(always)]
    fn item_count(self) -> usize {
        self.fragment.item_count()
    }
}

/// Returns the line and the column after `bytes`, from those before them.
// Each byte is read once, and where none of them ends a line there is one search.
#[inline]
fn line_after(bytes: &[u8], offset: usize, line: usize, column: usize) -> (usize, usize)
    requires { FitsPlace (place offset line column) (length bytes.now) }
    ensures { place (offset + length bytes.now) result.0 result.1 ≡ past_bytes (place offset line column) bytes.now }
{
    if bytes.len() <= 8 {
        return line_after_few(bytes, offset, line, column);
    }
    let mut at = 0;
    let mut line = line;
    let mut column = column;
    while let Some(end) = next_end(bytes, at) {
        at = end + 1;
        line += 1;
        column = 1;
    }
    (line, column + (bytes.len() - at))
}

/// Does as `line_after`, byte by byte. For a few bytes a search costs more.
#[inline(always)]
fn line_after_few(bytes: &[u8], offset: usize, line: usize, column: usize) -> (usize, usize)
    requires { FitsPlace (place offset line column) (length bytes.now) }
    ensures { place (offset + length bytes.now) result.0 result.1 ≡ past_bytes (place offset line column) bytes.now }
{
    let mut lines = line;
    let mut columns = column;
    for byte in bytes {
        if *byte == b'\n' {
            lines += 1;
            columns = 1;
        } else {
            columns += 1;
        }
    }
    (lines, columns)
}

/// Returns the first place from `start` on at which a line ends.
#[inline(always)]
pub(crate) fn next_end(bytes: &[u8], start: usize) -> Option<usize>
    requires { start ≤ length bytes.now }
    ensures { IsFirst (Passes (is_byte 10) bytes.now) start (length bytes.now) result }
{
    match memchr(b'\n', &bytes[start..]) {
        Some(place) => Some(start + place),
        None => None,
    }
}

impl<I: ByteItems> Located<I> {
    /// Returns an input at its start: offset 0, line 1, column 1. The label is `()`.
    #[inline(always)]
    pub fn new(fragment: I) -> Located<I>
        ensures { (result.fragment ≡ fragment) × (result.offset ≡ 0) × (result.line ≡ 1) × (result.column ≡ 1) }
    {
        Located::new_extra(fragment, ())
    }
}

impl<I: ByteItems, X: Copy> Located<I, X> {
    /// Returns an input at its start, with a label: offset 0, line 1, column 1.
    #[inline(always)]
    pub fn new_extra(fragment: I, extra: X) -> Located<I, X>
        ensures { (result.fragment ≡ fragment) × (result.offset ≡ 0) × (result.line ≡ 1) × (result.column ≡ 1) × (result.extra ≡ extra) }
    {
        fragment.known();
        let _length = fragment.as_bytes().len();
        Located {
            fragment,
            offset: 0,
            line: 1,
            column: 1,
            extra,
        }
    }

    /// Returns the label.
    #[inline(always)]
    pub fn extra(&self) -> X
        ensures { result ≡ self.now.extra }
    {
        self.extra
    }

    /// Maps the label with `f`. The input and its place stay the same.
    #[inline(always)]
    pub fn map_extra<Y: Copy, F: FnOnce(X) -> Y>(self, f: F) -> Located<I, Y>
        requires { F.pre f self.extra }
        ensures fragment { result.fragment ≡ self.fragment }
        ensures place { place result.offset result.line result.column ≡ place self.offset self.line self.column }
        ensures extra { F.post f self.extra result.extra }
    {
        Located {
            fragment: self.fragment,
            offset: self.offset,
            line: self.line,
            column: self.column,
            extra: f(self.extra),
        }
    }

    /// Returns the input that is left.
    #[inline(always)]
    pub fn fragment(&self) -> I
        ensures { result ≡ self.now.fragment }
    {
        self.fragment
    }

    /// Returns the number of bytes before this input in the whole.
    ///
    /// `offset`, of `Offset`, returns the number of bytes between this input and a rest of it.
    #[inline(always)]
    pub fn location_offset(&self) -> usize
        ensures { result ≡ self.now.offset }
    {
        self.offset
    }

    /// Returns the line. The first line is 1.
    #[inline(always)]
    pub fn line(&self) -> usize
        ensures { result ≡ self.now.line }
    {
        self.line
    }

    /// Returns the column, in bytes. The first column is 1.
    #[inline(always)]
    pub fn column(&self) -> usize
        ensures { result ≡ self.now.column }
    {
        self.column
    }

    /// Returns the column, in characters of UTF-8. The first column is 1. `source` holds the bytes of the
    /// whole, from the first one on.
    pub fn utf8_column(&self, source: &[u8]) -> usize
        requires { self.now.offset ≤ length source.now }
        ensures { IsUtf8Column source.now self.now.offset result }
    {
        column_in_characters(source, self.offset)
    }
}

impl<I: ByteItems, X: Copy> AsBytes for Located<I, X> {
    ghost bytes = { λ x. I.bytes x.fragment };

    #[inline(always)]
    fn as_bytes(&self) -> &[u8] {
        self.fragment.as_bytes()
    }
}

impl<I: ByteItems, X: Copy> ByteItems for Located<I, X> {
    ghost read = { I.read };

    ghost reading = { moving_reads (located (λ x. x.fragment) (λ x. place x.offset x.line x.column) (λ x. x.extra) I.read) I.model I.reading };
}

impl<I: ByteItems, X: Copy> Offset for Located<I, X> {
    #[inline(always)]
    fn offset(&self, second: &Self) -> usize {
        second.offset - self.offset
    }
}

impl<T, I: ByteItems + Compare<T>, X: Copy> Compare<T> for Located<I, X> {
    ghost Tag = { I.Tag };

    ghost tag_model = { I.tag_model };

    ghost tag_size = { I.tag_size };

    ghost compares = { I.compares };

    ghost compares_no_case = { I.compares_no_case };

    #[inline(always)]
    fn tag_len(tag: T) -> usize {
        I::tag_len(tag)
    }

    #[inline(always)]
    fn compare(&self, tag: T) -> CompareResult {
        self.fragment.compare(tag)
    }

    #[inline(always)]
    fn compare_no_case(&self, tag: T) -> CompareResult {
        self.fragment.compare_no_case(tag)
    }

    ghost comparing = { moving_comparing (located (λ x. x.fragment) (λ x. place x.offset x.line x.column) (λ x. x.extra) I.read) I.model I.comparing };

    ghost comparing_no_case = { moving_comparing (located (λ x. x.fragment) (λ x. place x.offset x.line x.column) (λ x. x.extra) I.read) I.model
        I.comparing_no_case };
}

impl<T, I: ByteItems + FindSubstring<T>, X: Copy> FindSubstring<T> for Located<I, X> {
    ghost Needle = { I.Needle };

    ghost needle_model = { I.needle_model };

    ghost finds = { I.finds };

    #[inline(always)]
    fn find_substring(&self, substr: T) -> Option<usize> {
        self.fragment.find_substring(substr)
    }

    ghost finding = { moving_finding (located (λ x. x.fragment) (λ x. place x.offset x.line x.column) (λ x. x.extra) I.read) I.model I.finding };
}

impl<R, I: ByteItems + ParseTo<R>, X: Copy> ParseTo<R> for Located<I, X> {
    ghost parses = { λ x. I.parses x.fragment };

    #[inline(always)]
    fn parse_to(&self) -> Option<R> {
        self.fragment.parse_to()
    }
}

impl<A: Allocator + Copy, I: ByteItems + ExtendInto<A>, X: Copy> ExtendInto<A> for Located<I, X> {
    type Item = <I as ExtendInto<A>>::Item;

    type Extender = <I as ExtendInto<A>>::Extender;

    ghost added = { λ x. I.added x.fragment };

    ghost grows = { λ x. I.grows x.fragment };

    #[inline(always)]
    fn new_builder(&self, alloc: A) -> Self::Extender {
        self.fragment.new_builder(alloc)
    }

    #[inline(always)]
    fn extend_into(&self, acc: &mut Self::Extender) -> Result<(), OutOfMemory> {
        self.fragment.extend_into(acc)
    }

    ghost views = { λ x y h. I.ExtendInto.views x.fragment y.fragment (ap (λ p. p.1) h) };
}

/// Converts an input to a `Located` at its start, like `new`.
impl<I: ByteItems> From<I> for Located<I> {
    ghost from_gives = { λ fragment at. (at.fragment ≡ fragment) × (place at.offset at.line at.column ≡ place 0 1 1) };

    #[inline(always)]
    fn from(fragment: I) -> Located<I> {
        Located::new(fragment)
    }
}

/// Searches the tokens of the fragment.
impl<T: Value, I: ByteItems + FindToken<T>, X: Copy> FindToken<T> for Located<I, X> {
    ghost finds = { λ x t. I.finds x.fragment t };

    #[inline(always)]
    fn find_token(&self, token: T) -> bool {
        self.fragment.find_token(token)
    }

    #[inline(always)]
    fn codes(&self) -> Option<&[u8]> {
        self.fragment.codes()
    }
}

/// Dumps the fragment, with offsets from 0 on.
///
/// `to_hex_from` with the `location_offset` shows the offsets of the whole.
impl<I: ByteItems + HexDisplay, X: Copy> HexDisplay for Located<I, X> {
    ghost bytes = { λ x. I.HexDisplay.bytes x.fragment };

    fn to_hex<A: Allocator + Copy>(
        self,
        alloc: A,
        chunk_size: usize,
    ) -> Result<String<A>, OutOfMemory> {
        self.fragment.to_hex(alloc, chunk_size)
    }

    fn to_hex_from<A: Allocator + Copy>(
        self,
        alloc: A,
        chunk_size: usize,
        from: usize,
    ) -> Result<String<A>, OutOfMemory> {
        self.fragment.to_hex_from(alloc, chunk_size, from)
    }
}
