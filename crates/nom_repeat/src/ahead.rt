//! Items of which an input is certain: as many of a fixed width as it has.
ghost use Rattle.std.specs.Prelude.{◌≡◌, ◌<◌, ◌≤◌, [], IfOk, OnErr, length, false, true};
ghost use Rattle.nom_internal.specs.Prelude.{Built, modes};
ghost use Rattle.nom_repeat.specs.Accumulated.{Accumulated, HasRoomFor};
ghost use Rattle.nom_repeat.specs.Certain.{AreCertain, IsCertain};
ghost use Rattle.nom_repeat.specs.Items.{item_turn, items_meaning};
ghost use Rattle.nom_repeat.specs.Repeat.{AreBelow, Collected, IsBelow, TurnsBy};
ghost use Rattle.nom_repeat.specs.declared.items.Limits.{Limits};

use crate::accumulator::{Accumulator, has_room_for, push_within, with_room};
use nom_error::answer::OutOfMemory;
use nom_error::mode::{Check, Mode, OutputM, OutputMode};
use nom_internal::parser::Parser;
use nom_traits::input::Items;
use std::alloc::Allocator;

/// The mode of errors where no item is refused: none is built, as in `Check`.
///
/// It is a type of its own, so that a loop over such items has its own copy of the parser. A copy that has one caller is
/// inlined, however large it is.
struct NeverRefused;

impl Mode for NeverRefused {
    ghost BUILDS = { false };

    const BUILDS: bool = false;
}

/// The same mode, for the copy of the parser that runs where memory was refused.
struct NeverKept;

impl Mode for NeverKept {
    ghost BUILDS = { false };

    const BUILDS: bool = false;
}

/// Returns a number of items of which the input is certain, at most `most`.
#[inline(always)]
pub fn certain_count<I: Items, F: Parser<I>>(parser: &F, input: I, most: usize) -> usize
    ensures bounded { result ≤ most }
    ensures certain { AreCertain I.model (F.grammar (F.state parser.now)).meaning result input }
{
    input.known();
    let width = parser.width();
    input.group_count(width, most)
}

/// Returns an empty list if outputs are built, with room for the items of which the input is certain, at most
/// `most`.
///
/// If memory for this room is refused, the first of these items is accepted and not kept: memory runs out only where an
/// item was accepted. The answer is then `OutOfMemory`.
///
/// It is compiled apart, so that nothing is left of it if the parser has no width, and then goes in.
// A call of the parser that was left would be one caller more of a function of the user's, which then isn't inlined.
#[inline]
pub fn list_ahead<OM: OutputMode, I: Items, F: Parser<I>, A: Allocator>(
    parser: &mut F,
    input: I,
    alloc: A,
    most: usize,
) -> Result<Option<Vec<F::Output, A>>, OutOfMemory>
    requires runs { (F.grammar (F.state parser.old)).meaning.Runs }
    ensures empty { IfOk result (λ made. Built OM.Output.BUILDS (λ list. list.items ≡ []) made) }
    ensures ready { IfOk result (λ made. Built OM.Output.BUILDS (λ _. Unit {0}) made) }
    ensures some { OnErr result (0 < most) }
    ensures lacks { OnErr result ((b : Limits) → IsBelow b.most 0 →
        (items_meaning I.model F.Error.errors b (Unit {0}) (F.grammar (F.state parser.old)).meaning).may_run_out
        (modes OM.Output.BUILDS OM.Error.BUILDS OM.Incomplete.STREAMING) input) }
    ensures kept { F.state parser.new ≡ F.state parser.old }
{
    let certain = certain_count(parser, input, most);
    match with_room::<OM::Output, F::Output, A>(alloc, certain) {
        Ok(made) => Ok(made),
        Err(error) => {
            accept_first::<OM, I, F>(parser, input);
            Err(error)
        }
    }
}

/// Accepts the first of the items of which the input is certain. There is no memory to keep it.
#[inline(always)]
fn accept_first<OM: OutputMode, I: Items, F: Parser<I>>(parser: &mut F, input: I)
    requires runs { (F.grammar (F.state parser.old)).meaning.Runs }
    requires built { OM.Output.BUILDS ≡ true }
    requires certain { IsCertain I.model (F.grammar (F.state parser.old)).meaning input }
    ensures lacks { (b : Limits) → IsBelow b.most 0 →
        (items_meaning I.model F.Error.errors b (Unit {0}) (F.grammar (F.state parser.old)).meaning).may_run_out
        (modes OM.Output.BUILDS OM.Error.BUILDS OM.Incomplete.STREAMING) input }
    ensures kept { F.state parser.new ≡ F.state parser.old }
{
    input.known();
    match parser.process::<OutputM<Check, NeverKept, OM::Incomplete>>(input) {
        Ok(_) => return,
        Err(_) => unreachable!(),
    }
}

/// Parses `count` items of which the input is certain, and adds them to `before`, which has room for them.
///
/// Neither the input nor the room is tested for each item.
#[inline(always)]
pub fn certain_items<OM: OutputMode, I: Items, F: Parser<I>, K: Accumulator<F::Output> + Drop>(
    parser: &mut F,
    input: I,
    before: Option<K>,
    count: usize,
) -> (I, Option<K>)
    requires runs { (F.grammar (F.state parser.old)).meaning.Runs }
    requires built { Built OM.Output.BUILDS K.CanPush before }
    requires room { HasRoomFor K.HasRoom before count }
    requires certain { AreCertain I.model (F.grammar (F.state parser.old)).meaning count input }
    ensures collected { (b : Limits) → AreBelow b.most count → Collected I.model
        (TurnsBy b.most (item_turn b) (λ _. (F.grammar (F.state parser.old)).meaning.answers OM.Incomplete.STREAMING))
        (λ vs. Built OM.Output.BUILDS (Accumulated K.Pushes K.CanPush (F.grammar (F.state parser.old)).IsOutput before vs) result.1 × (count ≡ length vs))
        input result.0 }
    ensures kept { F.state parser.new ≡ F.state parser.old }
{
    input.known();
    let mut rest = input;
    let mut kept = before;
    let mut done = 0usize;
    while done < count {
        match parser.process::<OutputM<OM::Output, NeverRefused, OM::Incomplete>>(rest) {
            Ok((next, item)) => {
                push_within::<OM::Output, _, _>(&mut kept, item);
                rest = next;
                done += 1;
            }
            Err(_) => unreachable!(),
        }
    }
    (rest, kept)
}

/// Parses the items of which the input is certain, at most `most`, and adds them to `before` if it has room for
/// them all. It returns their number too.
///
/// It is compiled apart, so that nothing is left of it if the parser has no width, and then goes in.
#[inline]
pub fn items_ahead<OM: OutputMode, I: Items, F: Parser<I>, K: Accumulator<F::Output> + Drop>(
    parser: &mut F,
    input: I,
    before: Option<K>,
    most: usize,
) -> (I, Option<K>, usize)
    requires runs { (F.grammar (F.state parser.old)).meaning.Runs }
    requires built { Built OM.Output.BUILDS K.CanPush before }
    ensures collected { (b : Limits) → AreBelow b.most result.2 → Collected I.model
        (TurnsBy b.most (item_turn b) (λ _. (F.grammar (F.state parser.old)).meaning.answers OM.Incomplete.STREAMING))
        (λ vs. Built OM.Output.BUILDS (Accumulated K.Pushes K.CanPush (F.grammar (F.state parser.old)).IsOutput before vs) result.1 × (result.2 ≡ length vs))
        input result.0 }
    ensures bounded { result.2 ≤ most }
    ensures kept { F.state parser.new ≡ F.state parser.old }
{
    input.known();
    let count = certain_count(parser, input, most);
    if count == 0 || !has_room_for(&before, count) {
        return (input, before, 0);
    }
    let (rest, kept) = certain_items::<OM, I, F, K>(parser, input, before, count);
    (rest, kept, count)
}
