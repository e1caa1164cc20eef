//! The first item of an input, under a test.
ghost use Rattle.std.specs.Prelude.{◌≡◌, [], MatchOption};
ghost use Rattle.nom_internal.specs.Prelude.{Refuses, size_of, Built, modes, IsSuffixOf, ShowsMeaning};
ghost use Rattle.nom_character_first.specs.FirstItem.{IsFirstItem, blamed, first_item_meaning};

use nom_bytes::predicate::Predicate;
use nom_error::answer::{Err, Needed, PResult};
use nom_error::kind::ErrorKind;
use nom_error::mode::{IsStreaming, Mode, OutputMode};
use nom_error::value::{ParseError, refusal};
use nom_traits::character::AsChar;
use nom_traits::input::Input;

/// The kind of error that a refusal reports.
#[derive(Clone, Copy)]
pub enum Blame {
    /// An error of a kind.
    OfKind(ErrorKind),
    /// An error for a character that was expected.
    OfChar(char),
}

/// Returns a refusal at the input, with its error if errors are built.
#[inline(always)]
fn refused<M: Mode, I: Drop, E: ParseError<I>>(input: I, blame: Blame) -> Err<E, Option<E>>
    ensures { Refuses (blamed E.errors blame input) E.errors.grows M.BUILDS result }
{
    match blame {
        Blame::OfKind(kind) => refusal::<M, I, E>(input, kind),
        Blame::OfChar(wanted) => refused_char::<M, I, E>(input, wanted),
    }
}

/// Returns a refusal at an input where a character was expected, with its error if errors are built.
#[inline(always)]
fn refused_char<M: Mode, I: Drop, E: ParseError<I>>(input: I, wanted: char) -> Err<E, Option<E>>
    ensures { Refuses (E.errors.of_char input wanted) E.errors.grows M.BUILDS result }
{
    if M::BUILDS {
        match E::from_char(input, wanted) {
            Ok(error) => Err::Error(Some(error)),
            Err(_) => Err::OutOfMemory,
        }
    } else {
        Err::Error(None)
    }
}

/// Returns the first item of the input, if there is one.
#[inline(always)]
pub fn first<I: Input>(input: I) -> Option<I::Item>
    ensures { MatchOption result (I.model.elements input ≡ []) (IsFirstItem I.model input) }
{
    input.iter_elements().next()
}

/// Returns the character of the item, if outputs are built.
#[inline(always)]
fn character<M: Mode, C: AsChar>(item: C) -> Option<char>
    ensures { Built M.BUILDS (λ c. c ≡ C.code item) result }
{
    if M::BUILDS {
        Some(item.as_char())
    } else {
        None
    }
}

/// Returns the input after its first item.
#[inline(always)]
pub fn after<I: Input>(input: I, item: I::Item) -> I
where
    I::Item: AsChar,
    requires { IsFirstItem I.model input item }
    ensures { IsSuffixOf I.model input (I.model.item_len item) result }
{
    input.take_from(input.item_len(&item))
}

/// Returns the first item as a character if it meets the test. If there is no item, `lack` is the size that
/// is needed.
#[inline(always)]
pub fn first_where<OM: OutputMode, I: Input, P: Predicate<I::Item>, E: ParseError<I>>(
    input: I,
    test: &P,
    blame: Blame,
    lack: Needed,
) -> PResult<I, char, E>
where
    I::Item: AsChar,
    requires { P.Runs (P.state test.now) }
    ensures { ShowsMeaning I.model (λ t c. c ≡ t)
        (first_item_meaning I.model I.Item.code (P.answers (P.state test.now)) E.errors blame (size_of lack))
        (modes OM.Output.BUILDS OM.Error.BUILDS OM.Incomplete.STREAMING) input result }
{
    match first(input) {
        Some(item) => {
            if test.meets(item) {
                return Ok((
                    after::<I>(input, item),
                    character::<OM::Output, I::Item>(item),
                ));
            }
        }
        None => {
            if OM::Incomplete::STREAMING {
                return Err(Err::Incomplete(lack));
            }
        }
    }
    // The error of both refusals is made at one place, since that may be much code.
    Err(refused::<OM::Error, I, E>(input, blame))
}
