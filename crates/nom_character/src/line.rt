//! Ends of lines, and the items before them.
ghost use Rattle.std.specs.Prelude.{◌≡◌, ℕ, Bool, List, true};
ghost use Rattle.nom_internal.specs.Prelude.{ErrorKind, modes, size_of, Slice, IsModelledBy, ShowsMeaning, slice_pinned, sliced};
ghost use Rattle.nom_error.specs.declared.kind.ErrorKind.TheVariants as Kind;
ghost use Rattle.nom_character_first.specs.FirstItem.{IsFirstItem};
ghost use Rattle.nom_character.specs.LineMatches.{Match, IsMatched, IsNewline, IsLineEnd, is_line_code, match_meaning, crlf_in, line_ending_in, line_in};
ghost use Rattle.nom_character.specs.laws.LineMatchLaws.{LineMatchLaws, match_lawful, match_steady, crlf_laws, line_ending_laws, line_laws};
ghost use Rattle.nom_character.specs.Words as Words;

use nom_character_first::first::{after, first};
use nom_error::answer::{Err, Needed, PResult};
use nom_error::kind::ErrorKind;
use nom_error::mode::{IsStreaming, OutputMode};
use nom_error::value::{ParseError, refusal};
use nom_internal::parser::{Parser, StreamParser};
use nom_internal::slices::before;
use nom_traits::character::AsChar;
use nom_traits::input::Input;
use std::marker::PhantomData;

/// The result of a match at the start of an input.
#[derive(Drop)]
pub enum Matched<I> {
    /// A full match, with the rest after it.
    Full(I),
    /// No match.
    Absent,
    /// A partial match, with the size that it lacks.
    Partial(Needed),
}

/// Returns the answer for a match.
#[inline(always)]
fn answer<OM: OutputMode, I: Input, E: ParseError<I>>(
    input: I,
    found: Matched<I>,
    kind: ErrorKind,
) -> PResult<I, I, E>
    requires { (pattern : Bool → List I.Item → Match) × IsMatched I.model pattern OM.Incomplete.STREAMING input found }
    ensures { (pattern : Bool → List I.Item → Match) → IsMatched I.model pattern OM.Incomplete.STREAMING input found →
        ShowsMeaning I.model (IsModelledBy I.model) (match_meaning I.model pattern E.errors kind)
        (modes OM.Output.BUILDS OM.Error.BUILDS OM.Incomplete.STREAMING) input result }
{
    match found {
        Matched::Full(rest) => Ok((rest, before::<OM::Output, I>(input, rest))),
        Matched::Absent => Err(refusal::<OM::Error, I, E>(input, kind)),
        Matched::Partial(needed) => Err(Err::Incomplete(needed)),
    }
}

/// Matches the `\n` that must follow an `\r`. If no item is left, `lack` is the size that is needed.
#[inline(always)]
fn newline_at<I: Input, S: IsStreaming>(input: I, lack: Needed) -> Matched<I>
where
    I::Item: AsChar,
    ensures { IsNewline I.model I.Item.code S.STREAMING (size_of lack) input result }
{
    match first(input) {
        Some(item) if item.as_char() == '\n' => Matched::Full(after(input, item)),
        Some(_) => Matched::Absent,
        None if S::STREAMING => Matched::Partial(lack),
        None => Matched::Absent,
    }
}

/// Matches the end of a line at the start of an input whose first item is `\r` or `\n`.
///
/// The end belongs to the rest: the whole input is the rest after the line before it.
#[inline(always)]
fn line_end_at<I: Input, S: IsStreaming>(input: I) -> Matched<I>
where
    I::Item: AsChar,
    requires { (x : I.Item) × IsFirstItem I.model input x × (is_line_code (I.Item.code x) ≡ true) }
    ensures { IsLineEnd I.model I.Item.code S.STREAMING input result }
{
    match first(input) {
        Some(item) if item.as_char() == '\n' => Matched::Full(input),
        Some(item) => match newline_at::<I, S>(after(input, item), Needed::Unknown) {
            Matched::Full(_) => Matched::Full(input),
            Matched::Absent => Matched::Absent,
            Matched::Partial(needed) => Matched::Partial(needed),
        },
        None => unreachable!(),
    }
}

/// A pattern, matched at the start of an input.
pub trait LinePattern {
    /// The match in a list of items of these code points, by whether more may come.
    ghost pattern: { (A : Type 0) → (A → ℕ) → Bool → List A → Match };

    ghost kind: { ErrorKind };

    ghost laws: { (A : Type 0) (code : A → ℕ) → LineMatchLaws (pattern A code) };

    /// Returns the match at the start of the input.
    fn matched<I: Input, S: IsStreaming>(input: I) -> Matched<I>
    where
        I::Item: AsChar,
        ensures { IsMatched I.model (pattern I.Item I.Item.code) S.STREAMING input result };

    /// Returns the kind of a refusal.
    fn kind() -> ErrorKind
        ensures { result ≡ kind };
}

/// The pattern of `crlf`: `\r\n`.
pub struct Crlf;

impl LinePattern for Crlf {
    ghost pattern = { λ A. crlf_in };

    ghost kind = { Kind.CrLf };

    ghost laws = { λ A. crlf_laws };

    #[inline(always)]
    fn matched<I: Input, S: IsStreaming>(input: I) -> Matched<I>
    where
        I::Item: AsChar,
    {
        match first(input) {
            Some(item) if item.as_char() == '\r' => {
                newline_at::<I, S>(after(input, item), Needed::new(2))
            }
            Some(_) => Matched::Absent,
            None if S::STREAMING => Matched::Partial(Needed::new(2)),
            None => Matched::Absent,
        }
    }

    #[inline(always)]
    fn kind() -> ErrorKind {
        ErrorKind::CrLf
    }
}

/// The pattern of `line_ending`: `\n` or `\r\n`.
pub struct LineEnding;

impl LinePattern for LineEnding {
    ghost pattern = { λ A. line_ending_in };

    ghost kind = { Kind.CrLf };

    ghost laws = { λ A. line_ending_laws };

    #[inline(always)]
    fn matched<I: Input, S: IsStreaming>(input: I) -> Matched<I>
    where
        I::Item: AsChar,
    {
        match first(input) {
            Some(item) if item.as_char() == '\n' => Matched::Full(after(input, item)),
            Some(item) if item.as_char() == '\r' => {
                newline_at::<I, S>(after(input, item), Needed::new(2))
            }
            Some(_) => Matched::Absent,
            None if S::STREAMING => Matched::Partial(Needed::new(1)),
            None => Matched::Absent,
        }
    }

    #[inline(always)]
    fn kind() -> ErrorKind {
        ErrorKind::CrLf
    }
}

/// The pattern of `not_line_ending`: the items before the first end of a line.
pub struct NotLineEnding;

impl LinePattern for NotLineEnding {
    ghost pattern = { λ A. line_in };

    ghost kind = { Kind.Tag };

    ghost laws = { λ A. line_laws };

    #[inline(always)]
    fn matched<I: Input, S: IsStreaming>(input: I) -> Matched<I>
    where
        I::Item: AsChar,
    {
        let is_end = |item: I::Item| -> bool
            ensures { result ≡ is_line_code (I.Item.code item) }
        {
            let c = item.as_char();
            c == '\n' || c == '\r'
        };
        match input.position(is_end) {
            Some(n) => line_end_at::<I, S>(input.take_from(n)),
            None if S::STREAMING => Matched::Partial(Needed::Unknown),
            None => Matched::Full(input.take_from(input.input_len())),
        }
    }

    #[inline(always)]
    fn kind() -> ErrorKind {
        ErrorKind::Tag
    }
}

/// The parser that `crlf`, `line_ending` and `not_line_ending` return: the items that the pattern matches.
#[derive(Drop)]
pub struct LineMatch<P, I, E> {
    pub pattern: PhantomData<P>,
    pub error: PhantomData<(I, E)>,
}

/// Returns the parser of a pattern.
#[inline(always)]
pub(crate) fn line_match<P, I, E>() -> LineMatch<P, I, E> {
    LineMatch {
        pattern: PhantomData,
        error: PhantomData,
    }
}

impl<P: LinePattern, I: Input, E: ParseError<I>> Parser<I> for LineMatch<P, I, E>
where
    I::Item: AsChar,
{
    type Output = I;

    type Error = E;

    ghost State = { Unit {0} };

    ghost state = { λ _. tt };

    ghost Tree = { Slice I.model };

    ghost grammar = { λ _. sliced I.model (match_meaning I.model (P.pattern I.Item I.Item.code) E.errors P.kind) };

    ghost word = { λ _. Words.match_of I.model E.errors (P.pattern I.Item I.Item.code) P.kind };

    ghost worded = { λ _. Words.match_worded I.model E.errors (P.pattern I.Item I.Item.code) P.kind };

    #[inline(always)]
    fn process<OM: OutputMode>(&mut self, input: I) -> PResult<I, I, E> {
        let found = P::matched::<I, OM::Incomplete>(input);
        answer::<OM, I, E>(input, found, P::kind())
    }

    ghost lawful = { λ _ k. match_lawful I.model (P.pattern I.Item I.Item.code) (P.laws I.Item I.Item.code) E.errors P.kind };
}

impl<P: LinePattern, I: Input, E: ParseError<I>> StreamParser<I> for LineMatch<P, I, E>
where
    I::Item: AsChar,
{
    ghost pinned = { λ p k h. slice_pinned I.views };

    ghost steady = { λ _ k. match_steady I.model (P.pattern I.Item I.Item.code) (P.laws I.Item I.Item.code) E.errors P.kind };
}
