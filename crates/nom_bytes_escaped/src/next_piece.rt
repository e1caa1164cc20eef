//! The next piece of an input with escapes.
ghost use Rattle.std.specs.Prelude.{◌≡◌, ◌<◌, length, Some};
ghost use Rattle.nom_internal.specs.Prelude.{modes, size_of};
ghost use Rattle.nom_bytes_escaped.specs.NextPieces.{IsControlAt, Lacks, ShowsNextPiece};

use nom_error::answer::{Err, Needed, PResult};
use nom_error::mode::{Check, IsStreaming, OutputM, OutputMode};
use nom_internal::parser::Parser;
use nom_traits::character::AsChar;
use nom_traits::input::Input;

/// A piece.
#[derive(Drop)]
pub enum Piece<O, P> {
    /// A normal piece.
    Normal(O),
    /// An escapable piece, after the control character.
    Escapable(P),
}

/// The next piece, or the reason why there is none.
#[derive(Drop)]
pub enum NextPiece<T> {
    /// A piece.
    Found(T),
    /// An item that doesn't begin a piece.
    Other,
    /// The control character as the last item.
    Dangling,
    /// The end: no item is left.
    Done,
}

/// The result of a search for the control character at the start of an input.
pub enum Control<I> {
    /// Another item is there.
    None,
    /// The control character is the last item.
    Last,
    /// The control character is there, and these items follow it.
    Before(I),
}

/// Returns whether the first item is the control character, and the input after it.
#[inline(always)]
fn control_at<I: Input>(control_char: char, input: I) -> Control<I>
where
    I::Item: AsChar,
    requires { 0 < length (I.model.elements input) }
    ensures { IsControlAt I.model (λ x. I.Item.code x ≡ control_char) input result }
{
    match input.iter_elements().next() {
        Some(item) if item.as_char() == control_char => match input.slice_index(1) {
            Ok(index) => {
                let after = input.take_from(index);
                if after.input_len() == 0 {
                    Control::Last
                } else {
                    Control::Before(after)
                }
            }
            Err(_) => unreachable!(),
        },
        Some(_) => Control::None,
        None => unreachable!(),
    }
}

/// Returns the answer at the end of an input: it needs more if more may come, and otherwise returns
/// `next_piece`.
#[inline(always)]
fn lacks<S: IsStreaming, I: Copy, T: Drop, E>(
    input: I,
    size: Needed,
    next_piece: T,
) -> PResult<I, T, E>
    ensures { Lacks S.STREAMING size input next_piece result }
{
    if S::STREAMING {
        Err(Err::Incomplete(size))
    } else {
        Ok((input, Some(next_piece)))
    }
}

/// Returns the piece at the start of the input, or the reason why there is none.
///
/// `lack` is the size that is needed after a control character at the end.
#[inline(always)]
pub(crate) fn piece_at<OM: OutputMode, I: Input, F: Parser<I>, G: Parser<I, Error = F::Error>>(
    normal: &mut F,
    control_char: char,
    escapable: &mut G,
    lack: Needed,
    input: I,
) -> PResult<I, NextPiece<Piece<Option<F::Output>, Option<G::Output>>>, F::Error>
where
    I::Item: AsChar,
    requires normal { (F.grammar (F.state normal.old)).meaning.Runs }
    requires escapable { (G.grammar (G.state escapable.old)).meaning.Runs }
    ensures shown { ShowsNextPiece I.model (F.grammar (F.state normal.old)).IsOutput (G.grammar (G.state escapable.old)).IsOutput
        (modes OM.Output.BUILDS OM.Error.BUILDS OM.Incomplete.STREAMING) (λ x. I.Item.code x ≡ control_char) (size_of lack)
        (F.grammar (F.state normal.old)).meaning (G.grammar (G.state escapable.old)).meaning input result }
    ensures normal_kept { F.state normal.new ≡ F.state normal.old }
    ensures escapable_kept { G.state escapable.new ≡ G.state escapable.old }
{
    input.known();
    if input.input_len() == 0 {
        return lacks::<OM::Incomplete, I, _, F::Error>(input, Needed::Unknown, NextPiece::Done);
    }
    match normal.process::<OutputM<OM::Output, Check, OM::Incomplete>>(input) {
        Ok((rest, piece)) => Ok((rest, Some(NextPiece::Found(Piece::Normal(piece))))),
        Err(Err::Error(_)) => match control_at(control_char, input) {
            Control::None => Ok((input, Some(NextPiece::Other))),
            Control::Last => lacks::<OM::Incomplete, I, _, F::Error>(
                input,
                lack,
                NextPiece::Dangling,
            ),
            Control::Before(after) => {
                let (rest, piece) = escapable.process::<OM>(after)?;
                Ok((rest, Some(NextPiece::Found(Piece::Escapable(piece)))))
            }
        },
        Err(Err::Failure(error)) => Err(Err::Failure(error)),
        Err(Err::Incomplete(needed)) => Err(Err::Incomplete(needed)),
        Err(Err::OutOfMemory) => Err(Err::OutOfMemory),
    }
}
