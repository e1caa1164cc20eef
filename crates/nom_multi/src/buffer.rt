//! Items in a buffer.
ghost use Rattle.std.specs.Prelude.{◌≡◌, ◌<◌, ℕ, List, length, None};
ghost use Rattle.nom_internal.specs.Prelude.{Built, modes, rest_of, ShowsMeaning};
ghost use Rattle.nom_multi.specs.Fill.{fill_meaning, IsDone, IsFilled, IsPut, IsRanOut, fill_of};
ghost use Rattle.nom_multi.specs.Words as Words;

use nom_error::answer::{Err, PResult};
use nom_error::kind::ErrorKind;
use nom_error::mode::{Mode, OutputM, OutputMode};
use nom_error::value::ParseError;
use nom_internal::choice::close_error;
use nom_internal::parser::{Parser, StreamParser};
use nom_traits::input::Items;
use nom_traits::view::Viewed;

/// The parser that `fill` returns: one item for each place of a buffer.
#[derive(Drop)]
pub struct Fill<'a, F, T> {
    pub parser: F,
    pub buffer: &'a mut [T],
}

impl<'a, I: Items, T: Drop, F: Parser<I, Output = T> + Drop> Parser<I> for Fill<'a, F, T> {
    ghost use Rattle.nom_multi.specs.laws.FillLaws.{fill_lawful};

    type Output = ();

    type Error = F::Error;

    ghost State = { F.State × ℕ };

    ghost state = { λ p. (F.state p.parser, length p.buffer.now) };

    ghost Tree = { List F.Tree };

    /// The content of the buffer.
    ghost SideCondition = { λ mode old new i rest. IsFilled I.model (F.grammar (F.state old.parser)).IsOutput (F.grammar (F.state old.parser)).meaning mode i
        old.buffer.now new.buffer.now (rest ≡ None) };

    ghost grammar = { λ s. fill_of I.model F.Error.errors s.1 (F.grammar s.0) };

    ghost word = { λ s. Words.fill_of I.model F.Error.errors s.1 (F.word s.0) };

    ghost worded = { λ s. Words.fill_worded I.model F.Error.errors s.1 (F.worded s.0) };

    #[inline]
    fn process<OM: OutputMode>(&mut self, input: I) -> PResult<I, (), F::Error>
        requires runs { (F.grammar (F.state self.old.parser)).meaning.Runs }
        ensures shown { ShowsMeaning I.model IsDone
            (fill_meaning I.model F.Error.errors (length self.old.buffer.now) (F.grammar (F.state self.old.parser)).meaning)
            (modes OM.Output.BUILDS OM.Error.BUILDS OM.Incomplete.STREAMING) input result }
        ensures kept { ◌≡◌ {A = F.State × ℕ} (F.state self.new.parser, length self.new.buffer.now) (F.state self.old.parser, length self.old.buffer.now) }
        // Where memory ran out in an item, that is the answer.
        ensures filled { IsFilled I.model (F.grammar (F.state self.old.parser)).IsOutput (F.grammar (F.state self.old.parser)).meaning
            (modes OM.Output.BUILDS OM.Error.BUILDS OM.Incomplete.STREAMING) input self.old.buffer.now self.new.buffer.now (IsRanOut result) }
        ensures side_condition { IsFilled I.model (F.grammar (F.state self.old.parser)).IsOutput (F.grammar (F.state self.old.parser)).meaning
            (modes OM.Output.BUILDS OM.Error.BUILDS OM.Incomplete.STREAMING) input self.old.buffer.now self.new.buffer.now (rest_of result ≡ None) }
    {
        fill_buffer::<OM, I, T, F>(&mut self.parser, self.buffer, input)
    }

    ghost lawful = { λ s k. fill_lawful I.lawful F.Error.errors s.1 (F.lawful s.0 k) };
}

impl<'a, I: Items, T: Viewed + Drop, F: StreamParser<I, Output = T> + Drop> StreamParser<I>
    for Fill<'a, F, T> {
    ghost use Rattle.nom_multi.specs.laws.FillLaws.{done_pinned, fill_steady};

    ghost pinned = { λ p k h. done_pinned };

    ghost steady = { λ s k. fill_steady I.lawful F.Error.errors s.1 (F.steady s.0 k) };
}

/// Runs a parser once for each place of `buffer`, and writes its outputs from the front of the buffer.
///
/// Outputs are written only if they are built. Written outputs stay, whatever the answer.
#[inline(always)]
pub fn fill_buffer<OM: OutputMode, I: Items, T: Drop, F: Parser<I, Output = T>>(
    parser: &mut F,
    buffer: &mut [T],
    input: I,
) -> PResult<I, (), F::Error>
    requires { (F.grammar (F.state parser.old)).meaning.Runs }
    ensures shown { ShowsMeaning I.model IsDone (fill_meaning I.model F.Error.errors (length buffer.old) (F.grammar (F.state parser.old)).meaning)
        (modes OM.Output.BUILDS OM.Error.BUILDS OM.Incomplete.STREAMING) input result }
    ensures kept { F.state parser.new ≡ F.state parser.old }
    ensures long { length buffer.new ≡ length buffer.old }
    ensures filled { IsFilled I.model (F.grammar (F.state parser.old)).IsOutput (F.grammar (F.state parser.old)).meaning
        (modes OM.Output.BUILDS OM.Error.BUILDS OM.Incomplete.STREAMING) input buffer.old buffer.new (IsRanOut result) }
{
    input.known();
    let mut rest = input;
    let mut count = 0usize;
    while count < buffer.len() {
        match parser.process::<OutputM<OM::Output, OM::Error, OM::Incomplete>>(rest) {
            Ok((next, item)) => {
                put(buffer, count, item);
                rest = next;
                count += 1;
            }
            Err(Err::Error(error)) => return Err(close_error(error, input, ErrorKind::Count)),
            Err(Err::Failure(error)) => return Err(Err::Failure(error)),
            Err(Err::Incomplete(needed)) => return Err(Err::Incomplete(needed)),
            Err(Err::OutOfMemory) => return Err(Err::OutOfMemory),
        }
    }
    Ok((rest, done::<OM::Output>()))
}

/// Writes an item, if it is built.
#[inline(always)]
fn put<T: Drop>(buffer: &mut [T], place: usize, item: Option<T>)
    requires { place < length buffer.old }
    ensures { IsPut buffer.old place item buffer.new }
{
    match item {
        Some(item) => buffer[place] = item,
        None => {}
    }
}

/// Returns `Some(())` if outputs are built.
#[inline(always)]
fn done<M: Mode>() -> Option<()>
    ensures { Built M.BUILDS (λ _. Unit {0}) result }
{
    if M::BUILDS { Some(()) } else { None }
}
