//! Repetitions within the bounds that most parsers require.
ghost use Rattle.std.specs.Prelude.{◌≡◌};
ghost use Rattle.nom_internal.specs.Prelude.{Built, modes, ShowsMeaning};
ghost use Rattle.nom_repeat.specs.Accumulated.{Accumulated};
ghost use Rattle.nom_repeat.specs.Bounds.{any_limits, bounded_limits, one_limits};
ghost use Rattle.nom_repeat.specs.Items.{items_meaning, item_errors, AreLimits};

use crate::accumulator::Accumulator;
use crate::items::{Limits, TooFew, items};
use nom_error::answer::PResult;
use nom_error::kind::ErrorKind;
use nom_error::mode::{Check, Mode, OutputMode};
use nom_internal::parser::Parser;
use nom_traits::input::Input;

/// Parses any number of items, and adds them to `before`. It refuses with `kind` at an item that consumes
/// nothing.
#[inline(always)]
pub fn any_items<OM: OutputMode, I: Input, F: Parser<I>, K: Accumulator<F::Output> + Drop>(
    parser: &mut F,
    input: I,
    before: Option<K>,
    kind: ErrorKind,
) -> PResult<I, K, F::Error>
    requires runs { (F.grammar (F.state parser.old)).meaning.Runs }
    requires built { Built OM.Output.BUILDS K.CanPush before }
    ensures shown { ShowsMeaning I.model (Accumulated K.Pushes K.CanPush (F.grammar (F.state parser.old)).IsOutput before)
        (items_meaning I.model F.Error.errors (any_limits kind) K.Grows (F.grammar (F.state parser.old)).meaning)
        (modes OM.Output.BUILDS OM.Error.BUILDS OM.Incomplete.STREAMING) input result }
    ensures kept { F.state parser.new ≡ F.state parser.old }
{
    let limits = Limits {
        least: 0,
        most: None,
        too_few: TooFew::Never,
        at_start: false,
        empty: Some(kind),
    };
    items::<OM, Check, I, F, K>(parser, input, before, limits)
}

/// Parses one item, which may be empty. `EM` determines whether the error of the item is built.
#[inline(always)]
pub fn one_item<OM: OutputMode, EM: Mode, I: Input, F: Parser<I>, K: Accumulator<F::Output> + Drop>(
    parser: &mut F,
    input: I,
    before: Option<K>,
    too_few: TooFew,
    at_start: bool,
) -> PResult<I, K, F::Error>
    requires runs { (F.grammar (F.state parser.old)).meaning.Runs }
    requires built { Built OM.Output.BUILDS K.CanPush before }
    requires errors { EM.BUILDS ≡ item_errors too_few OM.Error.BUILDS }
    requires limits { AreLimits (one_limits too_few at_start) }
    ensures shown { ShowsMeaning I.model (Accumulated K.Pushes K.CanPush (F.grammar (F.state parser.old)).IsOutput before)
        (items_meaning I.model F.Error.errors (one_limits too_few at_start) K.Grows (F.grammar (F.state parser.old)).meaning)
        (modes OM.Output.BUILDS OM.Error.BUILDS OM.Incomplete.STREAMING) input result }
    ensures kept { F.state parser.new ≡ F.state parser.old }
{
    let limits = Limits {
        least: 1,
        most: Some(1),
        too_few,
        at_start,
        empty: None,
    };
    items::<OM, EM, I, F, K>(parser, input, before, limits)
}

/// Parses at least `least` and at most `most` items, none of them empty. Each refusal has the kind `kind`.
#[inline(always)]
pub fn bounded_items<OM: OutputMode, I: Input, F: Parser<I>, K: Accumulator<F::Output> + Drop>(
    parser: &mut F,
    input: I,
    before: Option<K>,
    kind: ErrorKind,
    least: usize,
    most: usize,
) -> PResult<I, K, F::Error>
    requires runs { (F.grammar (F.state parser.old)).meaning.Runs }
    requires built { Built OM.Output.BUILDS K.CanPush before }
    ensures shown { ShowsMeaning I.model (Accumulated K.Pushes K.CanPush (F.grammar (F.state parser.old)).IsOutput before)
        (items_meaning I.model F.Error.errors (bounded_limits kind least most) K.Grows (F.grammar (F.state parser.old)).meaning)
        (modes OM.Output.BUILDS OM.Error.BUILDS OM.Incomplete.STREAMING) input result }
    ensures kept { F.state parser.new ≡ F.state parser.old }
{
    let limits = Limits {
        least,
        most: Some(most),
        too_few: TooFew::Added(kind),
        at_start: false,
        empty: Some(kind),
    };
    items::<OM, OM::Error, I, F, K>(parser, input, before, limits)
}
