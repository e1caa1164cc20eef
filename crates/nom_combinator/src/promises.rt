//! The promises of combinators, in addition to those of every parser. These functions do nothing: their
//! contracts are the promises.
ghost use Rattle.nom_combinator.specs.Promises.{ConsumesNothing, GivesFront, GivesFrontAndOutput, NeverRefuses, NeverWaits};

use crate::outputs::Value;
use crate::piece::{Consumed, Recognize};
use crate::verdict::{Cut, MakeComplete, Not, Opt, Peek};
use nom_internal::parser::{Parser, StreamParser};
use nom_traits::input::{Input, Items};
use std::alloc::Allocator;

/// `cut` never answers an `Error`.
pub fn cut_never_refuses<I: Items, F: Parser<I> + Drop>(_parser: &Cut<F>)
    ensures { NeverRefuses I.model (⟦<Cut<F> as Parser<I>>⟧.grammar (F.state _parser.now.parser)).meaning }
{}

/// `opt` never answers an `Error`.
pub fn opt_never_refuses<I: Items, F: Parser<I> + Drop>(_parser: &Opt<F>)
    ensures { NeverRefuses I.model (⟦<Opt<F> as Parser<I>>⟧.grammar (F.state _parser.now.parser)).meaning }
{}

/// `complete` never answers `Incomplete`.
pub fn complete_never_waits<I: Items, F: Parser<I> + Drop>(_parser: &MakeComplete<F>)
    ensures { NeverWaits I.model (⟦<MakeComplete<F> as Parser<I>>⟧.grammar (F.state _parser.now.parser)).meaning }
{}

/// `peek` consumes nothing when it accepts.
pub fn peek_consumes_nothing<I: Items, F: Parser<I> + Drop>(_parser: &Peek<F>)
    ensures { ConsumesNothing I.model (⟦<Peek<F> as Parser<I>>⟧.grammar (F.state _parser.now.parser)).meaning }
{}

/// `not` consumes nothing when it accepts.
pub fn not_consumes_nothing<I: Items, F: Parser<I> + Drop>(_parser: &Not<F>)
    ensures { ConsumesNothing I.model (⟦<Not<F> as Parser<I>>⟧.grammar (F.state _parser.now.parser)).meaning }
{}

/// The output of `recognize`, followed by the rest, is the input.
pub fn recognize_gives_front<I: Input, F: Parser<I> + Drop>(_parser: &Recognize<F>)
    ensures { GivesFront I.model (⟦<Recognize<F> as Parser<I>>⟧.grammar (F.state _parser.now.parser)).meaning }
{}

/// The slice that `consumed` returns, followed by the rest, is the input.
///
/// Its other output is one that the part answers with the same rest.
pub fn consumed_gives_front<I: Input, F: Parser<I> + Drop>(_parser: &Consumed<F>)
    ensures { GivesFrontAndOutput I.model (F.grammar (F.state _parser.now.parser)).IsOutput (F.grammar (F.state _parser.now.parser)).meaning
        (⟦<Consumed<F> as Parser<I>>⟧.grammar (F.state _parser.now.parser)).meaning }
{}

/// `Pins` holds for `value` of a text, whatever the part, because clones of a text are compared by its
/// characters.
pub fn value_pins_text<I: Items, F: StreamParser<I> + Drop, A: Allocator + Clone>(
    _parser: &Value<String<A>, F>,
)
    ensures { ⟦<Value<String<A>, F> as StreamParser<I>>⟧.Pins _parser.now }
{}
