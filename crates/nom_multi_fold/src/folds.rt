//! Folds of the items until one is refused.
ghost use Rattle.std.specs.Prelude.{List, ℕ};
ghost use Rattle.nom_multi_fold.specs.Folds.{Folds, AreCallable, FoldsConsistently, fold_many0_by};
ghost use Rattle.nom_multi_fold.specs.Folds.{fold_many1_by, fold_many_m_n_by};
ghost use Rattle.nom_multi_fold.specs.Words as Words;
ghost use Rattle.nom_multi_fold.specs.Words.{folding};

use crate::folded::{Folded, carried, start};
use nom_error::answer::PResult;
use nom_error::kind::ErrorKind;
use nom_error::mode::{Check, OutputMode};
use nom_error::value::{ParseError, refusal};
use nom_internal::parser::{Parser, StreamParser};
use nom_repeat::accumulator::Accumulator;
use nom_repeat::bounds::{any_items, bounded_items, one_item};
use nom_repeat::items::TooFew;
use nom_traits::input::{Input, Items};
use nom_traits::view::Viewed;

/// The parser that `fold_many0` returns. The closures are called only if outputs are built.
#[derive(Drop)]
pub struct FoldMany0<F, H, G> {
    pub parser: F,
    pub init: H,
    pub fold: G,
}

impl<I: Input, F: Parser<I> + Drop, R: Drop, H: Fn() -> R, G: Fn(R, F::Output) -> R> Parser<I>
    for FoldMany0<F, H, G> {
    ghost use Rattle.nom_multi_fold.specs.laws.FoldLaws.{fold_many0_lawful};

    type Output = R;

    type Error = F::Error;

    ghost State = { F.State × H × G };

    ghost state = { λ p. (F.state p.parser, p.init, p.fold) };

    ghost Tree = { List F.Tree };

    ghost grammar = { λ s. fold_many0_by I.model F.Error.errors (AreCallable (H.pre s.1) (G.pre s.2)) (H.post s.1) (G.post s.2) (F.grammar s.0) };

    ghost word = { λ s. Words.fold_many0_of I.model F.Error.errors (folding (H.pre s.1) (G.pre s.2) (H.post s.1) (G.post s.2)) (F.word s.0) };

    ghost worded = { λ s. Words.fold_many0_worded I.model F.Error.errors (H.pre s.1) (G.pre s.2) (H.post s.1) (G.post s.2) (F.worded s.0) };

    #[inline]
    fn process<OM: OutputMode>(&mut self, input: I) -> PResult<I, R, F::Error> {
        let first = start::<OM::Output, F::Output, R, H, G>(&self.init, &self.fold);
        let (rest, last) = any_items::<OM, I, F, Folded<R, G>>(
            &mut self.parser,
            input,
            first,
            ErrorKind::Many0,
        )?;
        Ok((rest, carried(last)))
    }

    ghost lawful = { λ s k. fold_many0_lawful I.lawful F.Error.errors (F.lawful s.0 k) };
}

impl<
    I: Input,
    F: StreamParser<I> + Drop,
    R: Viewed + Drop,
    H: Fn() -> R,
    G: Fn(R, F::Output) -> R,
> StreamParser<I> for FoldMany0<F, H, G> {
    ghost use Rattle.nom_multi_fold.specs.laws.FoldLaws.{folds_pinned, fold_many0_steady};

    ghost Pins = { λ p. F.Pins p.parser × FoldsConsistently F.Output.view R.view (H.post p.init) (G.post p.fold) };

    ghost pinned = { λ p k h. folds_pinned (F.pinned p.parser k h.0) h.1 };

    ghost steady = { λ s k. fold_many0_steady I.lawful F.Error.errors (F.steady s.0 k) };
}

/// The parser that `fold_many1` returns. The closures are called only if outputs are built.
#[derive(Drop)]
pub struct FoldMany1<F, H, G> {
    pub parser: F,
    pub init: H,
    pub fold: G,
}

impl<I: Input, F: Parser<I> + Drop, R: Drop, H: Fn() -> R, G: Fn(R, F::Output) -> R> Parser<I>
    for FoldMany1<F, H, G> {
    ghost use Rattle.nom_multi_fold.specs.laws.FoldLaws.{fold_many1_lawful};

    type Output = R;

    type Error = F::Error;

    ghost State = { F.State × H × G };

    ghost state = { λ p. (F.state p.parser, p.init, p.fold) };

    ghost Tree = { List F.Tree };

    ghost grammar = { λ s. fold_many1_by I.model F.Error.errors (AreCallable (H.pre s.1) (G.pre s.2)) (H.post s.1) (G.post s.2) (F.grammar s.0) };

    ghost word = { λ s. Words.fold_many1_of I.model F.Error.errors (folding (H.pre s.1) (G.pre s.2) (H.post s.1) (G.post s.2)) (F.word s.0) };

    ghost worded = { λ s. Words.fold_many1_worded I.model F.Error.errors (H.pre s.1) (G.pre s.2) (H.post s.1) (G.post s.2) (F.worded s.0) };

    #[inline]
    fn process<OM: OutputMode>(&mut self, input: I) -> PResult<I, R, F::Error> {
        let none = start::<OM::Output, F::Output, R, H, G>(&self.init, &self.fold);
        let (rest, first) = one_item::<OM, Check, I, F, Folded<R, G>>(
            &mut self.parser,
            input,
            none,
            TooFew::Fresh(ErrorKind::Many1),
            true,
        )?;
        let (after, last) = any_items::<OM, I, F, Folded<R, G>>(
            &mut self.parser,
            rest,
            first,
            ErrorKind::Many1,
        )?;
        Ok((after, carried(last)))
    }

    ghost lawful = { λ s k. fold_many1_lawful I.lawful F.Error.errors (F.lawful s.0 k.0) };
}

impl<
    I: Input,
    F: StreamParser<I> + Drop,
    R: Viewed + Drop,
    H: Fn() -> R,
    G: Fn(R, F::Output) -> R,
> StreamParser<I> for FoldMany1<F, H, G> {
    ghost use Rattle.nom_multi_fold.specs.laws.FoldLaws.{folds_pinned, fold_many1_steady};

    ghost Pins = { λ p. F.Pins p.parser × FoldsConsistently F.Output.view R.view (H.post p.init) (G.post p.fold) };

    ghost pinned = { λ p k h. folds_pinned (F.pinned p.parser k.0 h.0) h.1 };

    ghost steady = { λ s k. fold_many1_steady I.lawful F.Error.errors (F.steady s.0 k.0) };
}

/// The parser that `fold_many_m_n` returns. The closures are called only if outputs are built.
#[derive(Drop)]
pub struct FoldManyMN<F, H, G> {
    pub min: usize,
    pub max: usize,
    pub parser: F,
    pub init: H,
    pub fold: G,
}

impl<I: Input, F: Parser<I> + Drop, R: Drop, H: Fn() -> R, G: Fn(R, F::Output) -> R> Parser<I>
    for FoldManyMN<F, H, G> {
    ghost use Rattle.nom_multi_fold.specs.laws.FoldLaws.{fold_many_m_n_lawful};

    type Output = R;

    type Error = F::Error;

    ghost State = { F.State × H × G × ℕ × ℕ };

    ghost state = { λ p. (F.state p.parser, p.init, p.fold, p.min, p.max) };

    ghost Tree = { List F.Tree };

    ghost grammar = { λ s. fold_many_m_n_by I.model F.Error.errors (AreCallable (H.pre s.1) (G.pre s.2)) (H.post s.1) (G.post s.2) (F.grammar s.0) s.3 s.4 };

    ghost word = { λ s. Words.fold_many_m_n_of I.model F.Error.errors s.3 s.4 (folding (H.pre s.1) (G.pre s.2) (H.post s.1) (G.post s.2)) (F.word s.0) };

    ghost worded = { λ s. Words.fold_many_m_n_worded I.model F.Error.errors (H.pre s.1) (G.pre s.2) (H.post s.1) (G.post s.2) s.3 s.4 (F.worded s.0) };

    #[inline]
    fn process<OM: OutputMode>(&mut self, input: I) -> PResult<I, R, F::Error> {
        if self.max < self.min {
            return Err(refusal::<OM::Error, I, F::Error>(input, ErrorKind::ManyMN));
        }
        let first = start::<OM::Output, F::Output, R, H, G>(&self.init, &self.fold);
        let (rest, last) = bounded_items::<OM, I, F, Folded<R, G>>(
            &mut self.parser,
            input,
            first,
            ErrorKind::ManyMN,
            self.min,
            self.max,
        )?;
        Ok((rest, carried(last)))
    }

    ghost lawful = { λ s k. fold_many_m_n_lawful I.lawful F.Error.errors s.3 s.4 (F.lawful s.0 k) };
}

impl<
    I: Input,
    F: StreamParser<I> + Drop,
    R: Viewed + Drop,
    H: Fn() -> R,
    G: Fn(R, F::Output) -> R,
> StreamParser<I> for FoldManyMN<F, H, G> {
    ghost use Rattle.nom_multi_fold.specs.laws.FoldLaws.{folds_pinned, fold_many_m_n_steady};

    ghost Pins = { λ p. F.Pins p.parser × FoldsConsistently F.Output.view R.view (H.post p.init) (G.post p.fold) };

    ghost pinned = { λ p k h. folds_pinned (F.pinned p.parser k h.0) h.1 };

    ghost steady = { λ s k. fold_many_m_n_steady I.lawful F.Error.errors s.3 s.4 (F.steady s.0 k) };
}
