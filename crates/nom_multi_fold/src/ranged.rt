//! A number of items within a range of counts.
ghost use Rattle.std.specs.Prelude.{List};
ghost use Rattle.nom_error.specs.declared.kind.ErrorKind.TheVariants as Kind;
ghost use Rattle.nom_multi_fold.specs.Folds.{AreCallable, FoldsConsistently};
ghost use Rattle.nom_multi_fold.specs.Ranges.{many_of, fold_by};
ghost use Rattle.nom_multi_fold.specs.Words as Words;
ghost use Rattle.nom_multi_fold.specs.Words.{folding};

use crate::folded::{Folded, carried, start};
use crate::gathered::{Gathered, collected, gather};
use nom_error::answer::PResult;
use nom_error::kind::ErrorKind;
use nom_error::mode::OutputMode;
use nom_error::value::ParseError;
use nom_internal::parser::{Parser, StreamParser};
use nom_repeat::accumulator::Accumulator;
use nom_repeat::bounds::bounded_items;
use nom_repeat::inverted::failure;
use nom_search::collection::{Collection, ViewedCollection};
use nom_traits::input::{Input, Items};
use nom_traits::view::Viewed;
use nom_values::counts::{least, most};
use nom_values::range::NomRange;
use std::alloc::Allocator;

/// The parser that `many` returns: items within a range of counts, in a collection of type `C`.
#[derive(Drop)]
pub struct Many<A, R, F, C> {
    pub alloc: A,
    pub range: R,
    pub parser: F,
    /// Holds nothing. It only shows the type of the collection, with its lifetimes.
    pub collection: Option<C>,
}

impl<
    I: Input,
    A: Allocator + Copy,
    R: NomRange<usize> + Drop,
    F: Parser<I> + Drop,
    C: Collection<F::Output, A>,
> Parser<I> for Many<A, R, F, C> {
    ghost use Rattle.nom_multi_fold.specs.laws.RangeLaws.{range_lawful};

    type Output = C;

    type Error = F::Error;

    ghost State = { F.State × R };

    ghost state = { λ p. (F.state p.parser, p.range) };

    ghost Tree = { List F.Tree };

    ghost grammar = { λ s. many_of I.model F.Error.errors (R.IsSpent s.1) (R.lower s.1) (R.upper s.1) C.items (F.grammar s.0) };

    ghost word = { λ s. Words.many_of I.model F.Error.errors C.items (R.IsSpent s.1) (R.lower s.1) (R.upper s.1) (F.word s.0) };

    ghost worded = { λ s. Words.many_worded I.model F.Error.errors C.items (R.IsSpent s.1) (R.lower s.1) (R.upper s.1) (F.worded s.0) };

    #[inline]
    fn process<OM: OutputMode>(&mut self, input: I) -> PResult<I, C, F::Error> {
        if self.range.is_inverted() {
            return Err(failure(input, ErrorKind::Many));
        }
        let none = gather::<OM::Output, F::Output, A, C>(self.alloc);
        let (rest, all) = bounded_items::<OM, I, F, Gathered<C, A>>(
            &mut self.parser,
            input,
            none,
            ErrorKind::Many,
            least(&self.range),
            most(&self.range),
        )?;
        Ok((rest, collected(all)))
    }

    ghost lawful = { λ s k. range_lawful I.lawful F.Error.errors Kind.Many (R.IsSpent s.1) (R.lower s.1) (R.upper s.1) (F.lawful s.0 k) };
}

impl<
    I: Input,
    A: Allocator + Copy,
    R: NomRange<usize> + Drop,
    F: StreamParser<I> + Drop,
    C: ViewedCollection<F::Output, A>,
> StreamParser<I> for Many<A, R, F, C> {
    ghost use Rattle.nom_multi_fold.specs.laws.RangeLaws.{collection_pinned, range_steady};

    ghost Pins = { λ p. F.Pins p.parser };

    ghost pinned = { λ p k h. collection_pinned (F.pinned p.parser k h) C.views };

    ghost steady = { λ s k. range_steady I.lawful F.Error.errors Kind.Many (R.IsSpent s.1) (R.lower s.1) (R.upper s.1) (F.steady s.0 k) };
}

/// The parser that `fold` returns. The closures are called only if outputs are built.
#[derive(Drop)]
pub struct Fold<R, F, H, G> {
    pub range: R,
    pub parser: F,
    pub init: H,
    pub fold: G,
}

impl<
    I: Input,
    R: NomRange<usize> + Drop,
    F: Parser<I> + Drop,
    T: Drop,
    H: Fn() -> T,
    G: Fn(T, F::Output) -> T,
> Parser<I> for Fold<R, F, H, G> {
    ghost use Rattle.nom_multi_fold.specs.laws.RangeLaws.{range_fold_lawful};

    type Output = T;

    type Error = F::Error;

    ghost State = { F.State × H × G × R };

    ghost state = { λ p. (F.state p.parser, p.init, p.fold, p.range) };

    ghost Tree = { List F.Tree };

    ghost grammar = { λ s. fold_by I.model F.Error.errors (R.IsSpent s.3) (R.lower s.3) (R.upper s.3) (AreCallable (H.pre s.1) (G.pre s.2))
        (H.post s.1) (G.post s.2) (F.grammar s.0) };

    ghost word = { λ s. Words.fold_of I.model F.Error.errors (R.IsSpent s.3) (R.lower s.3) (R.upper s.3)
        (folding (H.pre s.1) (G.pre s.2) (H.post s.1) (G.post s.2)) (F.word s.0) };

    ghost worded = { λ s. Words.fold_worded I.model F.Error.errors (H.pre s.1) (G.pre s.2) (H.post s.1) (G.post s.2) (R.IsSpent s.3) (R.lower s.3)
        (R.upper s.3) (F.worded s.0) };

    #[inline]
    fn process<OM: OutputMode>(&mut self, input: I) -> PResult<I, T, F::Error> {
        if self.range.is_inverted() {
            return Err(failure(input, ErrorKind::Fold));
        }
        let first = start::<OM::Output, F::Output, T, H, G>(&self.init, &self.fold);
        let (rest, last) = bounded_items::<OM, I, F, Folded<T, G>>(
            &mut self.parser,
            input,
            first,
            ErrorKind::Fold,
            least(&self.range),
            most(&self.range),
        )?;
        Ok((rest, carried(last)))
    }

    ghost lawful = { λ s k. range_fold_lawful I.lawful F.Error.errors Kind.Fold (R.IsSpent s.3) (R.lower s.3) (R.upper s.3) (F.lawful s.0 k) };
}

impl<
    I: Input,
    R: NomRange<usize> + Drop,
    F: StreamParser<I> + Drop,
    T: Viewed + Drop,
    H: Fn() -> T,
    G: Fn(T, F::Output) -> T,
> StreamParser<I> for Fold<R, F, H, G> {
    ghost use Rattle.nom_multi_fold.specs.laws.FoldLaws.{folds_pinned};
    ghost use Rattle.nom_multi_fold.specs.laws.RangeLaws.{range_fold_steady};

    ghost Pins = { λ p. F.Pins p.parser × FoldsConsistently F.Output.view T.view (H.post p.init) (G.post p.fold) };

    ghost pinned = { λ p k h. folds_pinned (F.pinned p.parser k h.0) h.1 };

    ghost steady = { λ s k. range_fold_steady I.lawful F.Error.errors Kind.Fold (R.IsSpent s.3) (R.lower s.3) (R.upper s.3) (F.steady s.0 k) };
}
