//! The promises of the repetitions, in addition to those of every parser. These functions do nothing: their
//! contracts are the promises.
ghost use Rattle.std.specs.Prelude.{◌<◌, ◌≤◌, None, Some};
ghost use Rattle.nom_repeat.specs.Accepted.{AcceptsItems, AcceptsOneAndMore};
ghost use Rattle.nom_multi.specs.Promises.{RefusesAtEmpty, HasFewItems, AcceptsUntil};

use crate::bounded::{Count, ManyMN};
use crate::many::{Many0, Many1};
use crate::till::ManyTill;
use nom_internal::parser::Parser;
use nom_traits::input::{Input, Items};
use std::alloc::Allocator;

/// `many0` answers an `Error` only if an item was accepted without consuming input.
pub fn refuses_at_empty<I: Input, A: Allocator + Copy, F: Parser<I> + Drop>(_parser: &Many0<A, F>)
    ensures { RefusesAtEmpty I.model (F.grammar (F.state _parser.now.parser)).meaning
        (⟦<Many0<A, F> as Parser<I>>⟧.grammar (F.state _parser.now.parser)).meaning }
{}

/// `many0` returns at most as many items as the input is long.
pub fn has_few_items<I: Input, A: Allocator + Copy, F: Parser<I> + Drop>(_parser: &Many0<A, F>)
    ensures { HasFewItems I.model (⟦<Many0<A, F> as Parser<I>>⟧.grammar (F.state _parser.now.parser)).meaning }
{}

/// `many0` accepts exactly the items that its part accepts, one after the other, up to where the part
/// refuses. None of them is empty.
pub fn many0_accepts<I: Input, A: Allocator + Copy, F: Parser<I> + Drop>(_parser: &Many0<A, F>)
    ensures { AcceptsItems I.model (Unit {0}) (λ a. 0 < a) 0 None (F.grammar (F.state _parser.now.parser)).meaning
        (⟦<Many0<A, F> as Parser<I>>⟧.grammar (F.state _parser.now.parser)).meaning }
{}

/// `many1` accepts a first item, and after it exactly what `many0` accepts.
pub fn many1_accepts<I: Input, A: Allocator + Copy, F: Parser<I> + Drop>(_parser: &Many1<A, F>)
    ensures { AcceptsOneAndMore I.model (F.grammar (F.state _parser.now.parser)).meaning (F.grammar (F.state _parser.now.parser)).meaning
        (⟦<Many1<A, F> as Parser<I>>⟧.grammar (F.state _parser.now.parser)).meaning }
{}

/// `count` accepts exactly that many items that its part accepts, one after the other, of any length.
pub fn count_accepts<I: Items, A: Allocator + Copy, F: Parser<I> + Drop>(_parser: &Count<A, F>)
    ensures { AcceptsItems I.model (Unit {0}) (λ _. Unit {0}) _parser.now.count (Some _parser.now.count) (F.grammar (F.state _parser.now.parser)).meaning
        (⟦<Count<A, F> as Parser<I>>⟧.grammar (_parser.now.count, F.state _parser.now.parser)).meaning }
{}

/// `many_m_n` accepts exactly the items that its part accepts, one after the other, if its bounds fit each
/// other.
///
/// None of the items is empty. They end where the part refuses, after at least the minimum, or at the
/// maximum.
pub fn many_m_n_accepts<I: Input, A: Allocator + Copy, F: Parser<I> + Drop>(_parser: &ManyMN<A, F>)
    ensures { AcceptsItems I.model (_parser.now.min ≤ _parser.now.max) (λ a. 0 < a) _parser.now.min (Some _parser.now.max)
        (F.grammar (F.state _parser.now.parser)).meaning
        (⟦<ManyMN<A, F> as Parser<I>>⟧.grammar (_parser.now.min, _parser.now.max, F.state _parser.now.parser)).meaning }
{}

/// `many_till` accepts exactly the items that its part accepts, one after the other, and then the end.
///
/// None of the items is empty. The end refuses at the start of each item.
pub fn many_till_accepts<
    I: Input,
    A: Allocator + Copy,
    F: Parser<I> + Drop,
    G: Parser<I, Error = F::Error> + Drop,
>(_parser: &ManyTill<A, F, G>)
    ensures { AcceptsUntil I.model (F.grammar (F.state _parser.now.parser)).meaning (G.grammar (G.state _parser.now.end)).meaning
        (⟦<ManyTill<A, F, G> as Parser<I>>⟧.grammar (F.state _parser.now.parser, G.state _parser.now.end)).meaning }
{}
