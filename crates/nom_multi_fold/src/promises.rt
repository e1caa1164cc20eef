//! The promises of folds, counts and lists over a range, in addition to those of every parser.
//!
//! These functions do nothing: their contracts are the promises. The trees are those of the items. A count is
//! their number. A fold takes their outputs from left to right. A collection holds their outputs.
ghost use Rattle.std.specs.Prelude.{◌<◌, None, Some};
ghost use Rattle.nom_values.specs.Ranges.{fewest, most_items, limit};
ghost use Rattle.nom_repeat.specs.Accepted.{AcceptsItems, AcceptsOneAndMore};
ghost use Rattle.nom_multi_fold.specs.Counts.{AcceptsFew};
ghost use Rattle.nom_multi_fold.specs.Ranges.{IsEmpty};

use crate::counts::{Many0Count, Many1Count, ManyMNCount};
use crate::folds::{FoldMany0, FoldMany1, FoldManyMN};
use crate::ranged::{Fold, Many};
use nom_internal::parser::Parser;
use nom_search::collection::Collection;
use nom_traits::input::{Input, Items};
use nom_traits::view::Viewed;
use nom_values::range::NomRange;
use std::alloc::Allocator;

/// `many0_count` accepts exactly the items that its part accepts, one after the other, up to where the part
/// refuses. None of them is empty.
pub fn many0_count_accepts<I: Input, F: Parser<I> + Drop>(_parser: &Many0Count<F>)
    ensures { AcceptsItems I.model (Unit {0}) (λ a. 0 < a) 0 None (F.grammar (F.state _parser.now.item.parser)).meaning
        (⟦<Many0Count<F> as Parser<I>>⟧.grammar (F.state _parser.now.item.parser)).meaning }
{}

/// `many1_count` accepts a first item, and after it exactly what `many0_count` accepts.
pub fn many1_count_accepts<I: Input, F: Parser<I> + Drop>(_parser: &Many1Count<F>)
    ensures { AcceptsOneAndMore I.model (F.grammar (F.state _parser.now.item.parser)).meaning (F.grammar (F.state _parser.now.item.parser)).meaning
        (⟦<Many1Count<F> as Parser<I>>⟧.grammar (F.state _parser.now.item.parser)).meaning }
{}

/// `many1_count` of a sound part accepts fewer than 2^64 items of an input that is shorter than 2^64. Its
/// output is therefore their number.
pub fn many1_count_counts<I: Input, F: Parser<I> + Drop>(_parser: &Many1Count<F>)
    requires { (F.grammar (F.state _parser.now.item.parser)).meaning.IsSound }
    ensures { AcceptsFew I.model (⟦<Many1Count<F> as Parser<I>>⟧.grammar (F.state _parser.now.item.parser)).meaning }
{}

/// `many_m_n_count` accepts exactly the items that its part accepts, one after the other, if its bounds fit
/// each other.
///
/// None of the items is empty. They end where the part refuses, after at least the minimum, or at the
/// maximum.
pub fn many_m_n_count_accepts<I: Input, F: Parser<I> + Drop>(_parser: &ManyMNCount<F>)
    ensures { AcceptsItems I.model (_parser.now.max < _parser.now.min → ⊥) (λ a. 0 < a) _parser.now.min (Some _parser.now.max)
        (F.grammar (F.state _parser.now.item.parser)).meaning
        (⟦<ManyMNCount<F> as Parser<I>>⟧.grammar (_parser.now.min, _parser.now.max, F.state _parser.now.item.parser)).meaning }
{}

/// `fold_many0` accepts exactly the items that its part accepts, one after the other, up to where the part
/// refuses. None of them is empty.
pub fn fold_many0_accepts<
    I: Input,
    F: Parser<I, Output: Viewed> + Drop,
    R: Viewed + Drop,
    H: Fn() -> R,
    G: Fn(R, F::Output) -> R,
>(_parser: &FoldMany0<F, H, G>)
    ensures { AcceptsItems I.model (Unit {0}) (λ a. 0 < a) 0 None (F.grammar (F.state _parser.now.parser)).meaning
        (⟦<FoldMany0<F, H, G> as Parser<I>>⟧.grammar (F.state _parser.now.parser, _parser.now.init, _parser.now.fold)).meaning }
{}

/// `fold_many1` accepts a first item, and after it exactly what `fold_many0` accepts.
pub fn fold_many1_accepts<
    I: Input,
    F: Parser<I, Output: Viewed> + Drop,
    R: Viewed + Drop,
    H: Fn() -> R,
    G: Fn(R, F::Output) -> R,
>(_parser: &FoldMany1<F, H, G>)
    ensures { AcceptsOneAndMore I.model (F.grammar (F.state _parser.now.parser)).meaning (F.grammar (F.state _parser.now.parser)).meaning
        (⟦<FoldMany1<F, H, G> as Parser<I>>⟧.grammar (F.state _parser.now.parser, _parser.now.init, _parser.now.fold)).meaning }
{}

/// `fold_many_m_n` accepts exactly the items that its part accepts, one after the other, if its bounds fit
/// each other.
///
/// None of the items is empty. They end where the part refuses, after at least the minimum, or at the
/// maximum.
pub fn fold_many_m_n_accepts<
    I: Input,
    F: Parser<I, Output: Viewed> + Drop,
    R: Viewed + Drop,
    H: Fn() -> R,
    G: Fn(R, F::Output) -> R,
>(_parser: &FoldManyMN<F, H, G>)
    ensures { AcceptsItems I.model (_parser.now.max < _parser.now.min → ⊥) (λ a. 0 < a) _parser.now.min (Some _parser.now.max)
        (F.grammar (F.state _parser.now.parser)).meaning
        (⟦<FoldManyMN<F, H, G> as Parser<I>>⟧.grammar (
          F.state _parser.now.parser,
          _parser.now.init,
          _parser.now.fold,
          _parser.now.min,
          _parser.now.max,
        )).meaning }
{}

/// `many` accepts exactly the items that its part accepts, one after the other, if its range isn't empty.
///
/// None of the items is empty. They end where the part refuses, after at least the fewest items of the range,
/// or at the most items of the range.
pub fn many_accepts<
    I: Input,
    A: Allocator + Copy,
    R: NomRange<usize> + Drop,
    F: Parser<I> + Drop,
    C: Collection<F::Output, A>,
>(_parser: &Many<A, R, F, C>)
    ensures { AcceptsItems I.model (IsEmpty (R.IsSpent _parser.now.range) (R.lower _parser.now.range) (R.upper _parser.now.range) → ⊥) (λ a. 0 < a)
        (fewest (R.lower _parser.now.range)) (Some (limit (most_items (R.upper _parser.now.range)))) (F.grammar (F.state _parser.now.parser)).meaning
        (⟦<Many<A, R, F, C> as Parser<I>>⟧.grammar (F.state _parser.now.parser, _parser.now.range)).meaning }
{}

/// `fold` accepts exactly what `many` accepts.
pub fn fold_accepts<
    I: Input,
    R: NomRange<usize> + Drop,
    F: Parser<I, Output: Viewed> + Drop,
    T: Viewed + Drop,
    H: Fn() -> T,
    G: Fn(T, F::Output) -> T,
>(_parser: &Fold<R, F, H, G>)
    ensures { AcceptsItems I.model (IsEmpty (R.IsSpent _parser.now.range) (R.lower _parser.now.range) (R.upper _parser.now.range) → ⊥) (λ a. 0 < a)
        (fewest (R.lower _parser.now.range)) (Some (limit (most_items (R.upper _parser.now.range)))) (F.grammar (F.state _parser.now.parser)).meaning
        (⟦<Fold<R, F, H, G> as Parser<I>>⟧.grammar (F.state _parser.now.parser, _parser.now.init, _parser.now.fold, _parser.now.range)).meaning }
{}
