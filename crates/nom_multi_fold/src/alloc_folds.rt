//! Folds of items by closures that may take memory.
ghost use Rattle.std.specs.Prelude.{◌≡◌, true, List, Ok};
ghost use Rattle.nom_error.specs.declared.kind.ErrorKind.TheVariants as Kind;
ghost use Rattle.nom_internal.specs.Prelude.{Built, modes, ShowsMeaning};
ghost use Rattle.nom_repeat.specs.Bounds.{any_limits, one_limits};
ghost use Rattle.nom_repeat.specs.declared.items.TooFew.TheVariants.{Fresh};
ghost use Rattle.nom_multi_fold.specs.Folds.{Folds, AreCallable, FoldsConsistently};
ghost use Rattle.nom_multi_fold.specs.FoldAlloc.{FoldsItem, IsPresent, Starts, folded_meaning, fold_many0_alloc_by, fold_many1_alloc_by};
ghost use Rattle.nom_multi_fold.specs.AllocWords as Words;
ghost use Rattle.nom_multi_fold.specs.Words.{folding};

use nom_error::answer::{Err, OutOfMemory, PResult};
use nom_error::kind::ErrorKind;
use nom_error::mode::{Check, Mode, OutputM, OutputMode};
use nom_error::value::refusal;
use nom_internal::parser::{Parser, StreamParser};
use nom_traits::input::{Input, Items};
use nom_traits::view::Viewed;

/// Folds one more item into a value, if outputs are built.
#[inline(always)]
fn folded<R: Drop, T: Drop, G: Fn(R, T) -> Result<R, OutOfMemory>>(
    value: Option<R>,
    item: Option<T>,
    fold: &G,
) -> Result<Option<R>, OutOfMemory>
    requires { (r : R) (x : T) → G.pre fold.now r x }
    ensures { FoldsItem (G.post fold.now) value item result }
{
    match value {
        Some(value) => match item {
            Some(item) => match fold(value, item) {
                Ok(next) => Ok(Some(next)),
                Err(lacking) => Err(lacking),
            },
            None => Ok(None),
        },
        None => Ok(None),
    }
}

/// Returns the first value, if outputs are built.
#[inline(always)]
fn start<M: Mode, R: Drop, E: Drop, H: Fn() -> Result<R, OutOfMemory>>(
    init: &H,
) -> Result<Option<R>, Err<E, Option<E>>>
    requires { H.pre init.now }
    ensures { Starts M.BUILDS (H.post init.now) result }
{
    if !M::BUILDS {
        return Ok(None);
    }
    match init() {
        Ok(first) => Ok(Some(first)),
        Err(_lacking) => Err(Err::OutOfMemory),
    }
}

/// Folds one item, which may be empty, from a first value.
#[inline(always)]
fn fold_one<
    OM: OutputMode,
    I: Input,
    F: Parser<I>,
    R: Drop,
    G: Fn(R, F::Output) -> Result<R, OutOfMemory>,
>(parser: &mut F, input: I, first: Option<R>, fold: &G) -> PResult<I, R, F::Error>
    requires runs { (F.grammar (F.state parser.old)).meaning.Runs }
    requires begun { Built OM.Output.BUILDS (IsPresent first) first }
    requires takes { (r : R) (x : F.Output) → G.pre fold.now r x }
    ensures shown { ShowsMeaning I.model (Folds (F.grammar (F.state parser.old)).IsOutput (IsPresent first) (λ r x y. G.post fold.now r x (Ok y)))
        (folded_meaning I.model F.Error.errors (F.grammar (F.state parser.old)).IsOutput (G.post fold.now) (F.grammar (F.state parser.old)).meaning
        (one_limits (Fresh Kind.Many1) true) (IsPresent first)) (modes OM.Output.BUILDS OM.Error.BUILDS OM.Incomplete.STREAMING) input result }
    ensures kept { F.state parser.new ≡ F.state parser.old }
{
    input.known();
    match parser.process::<OutputM<OM::Output, Check, OM::Incomplete>>(input) {
        Ok((rest, item)) => match folded::<R, F::Output, G>(first, item, fold) {
            Ok(value) => Ok((rest, value)),
            Err(_) => Err(Err::OutOfMemory),
        },
        Err(Err::Error(_)) => Err(refusal::<OM::Error, I, F::Error>(input, ErrorKind::Many1)),
        Err(Err::Failure(error)) => Err(Err::Failure(error)),
        Err(Err::Incomplete(needed)) => Err(Err::Incomplete(needed)),
        Err(Err::OutOfMemory) => Err(Err::OutOfMemory),
    }
}

/// Folds items from a first value, until one is refused. An item that consumes nothing is refused with
/// `kind`.
///
/// Between two items there is a value, if outputs are built.
#[inline(always)]
fn fold_items<
    OM: OutputMode,
    I: Input,
    F: Parser<I>,
    R: Drop,
    G: Fn(R, F::Output) -> Result<R, OutOfMemory>,
>(parser: &mut F, input: I, first: Option<R>, fold: &G, kind: ErrorKind) -> PResult<I, R, F::Error>
    requires runs { (F.grammar (F.state parser.old)).meaning.Runs }
    requires begun { Built OM.Output.BUILDS (IsPresent first) first }
    requires takes { (r : R) (x : F.Output) → G.pre fold.now r x }
    ensures shown { ShowsMeaning I.model (Folds (F.grammar (F.state parser.old)).IsOutput (IsPresent first) (λ r x y. G.post fold.now r x (Ok y)))
        (folded_meaning I.model F.Error.errors (F.grammar (F.state parser.old)).IsOutput (G.post fold.now) (F.grammar (F.state parser.old)).meaning
        (any_limits kind) (IsPresent first)) (modes OM.Output.BUILDS OM.Error.BUILDS OM.Incomplete.STREAMING) input result }
    ensures kept { F.state parser.new ≡ F.state parser.old }
{
    input.known();
    let mut rest = input;
    let mut value = first;
    loop {
        match parser.process::<OutputM<OM::Output, Check, OM::Incomplete>>(rest) {
            Ok((next, item)) => {
                if next.input_len() == rest.input_len() {
                    return Err(refusal::<OM::Error, I, F::Error>(rest, kind));
                }
                match folded::<R, F::Output, G>(value, item, fold) {
                    Ok(more) => {
                        value = more;
                        rest = next;
                    }
                    Err(_) => return Err(Err::OutOfMemory),
                }
            }
            Err(Err::Error(_)) => return Ok((rest, value)),
            Err(Err::Failure(error)) => return Err(Err::Failure(error)),
            Err(Err::Incomplete(needed)) => return Err(Err::Incomplete(needed)),
            Err(Err::OutOfMemory) => return Err(Err::OutOfMemory),
        }
    }
}

/// The parser that `fold_many0_alloc` returns. The closures are called only if outputs are built.
#[derive(Drop)]
pub struct FoldMany0Alloc<F, H, G> {
    pub parser: F,
    pub init: H,
    pub fold: G,
}

impl<
    I: Input,
    F: Parser<I> + Drop,
    R: Drop,
    H: Fn() -> Result<R, OutOfMemory>,
    G: Fn(R, F::Output) -> Result<R, OutOfMemory>,
> Parser<I> for FoldMany0Alloc<F, H, G> {
    ghost use Rattle.nom_multi_fold.specs.laws.FoldAllocLaws.{fold_many0_alloc_lawful};

    type Output = R;

    type Error = F::Error;

    ghost State = { F.State × H × G };

    ghost state = { λ p. (F.state p.parser, p.init, p.fold) };

    ghost Tree = { List F.Tree };

    ghost grammar = { λ s. fold_many0_alloc_by I.model F.Error.errors (AreCallable (H.pre s.1) (G.pre s.2)) (H.post s.1) (G.post s.2) (F.grammar s.0) };

    ghost word = { λ s. Words.fold_many0_alloc_of I.model F.Error.errors (folding (H.pre s.1) (G.pre s.2) (H.post s.1) (G.post s.2)) (F.word s.0) };

    ghost worded = { λ s. Words.fold_many0_alloc_worded I.model F.Error.errors (H.pre s.1) (G.pre s.2) (H.post s.1) (G.post s.2) (F.worded s.0) };

    #[inline]
    fn process<OM: OutputMode>(&mut self, input: I) -> PResult<I, R, F::Error> {
        let first = start::<OM::Output, R, F::Error, H>(&self.init)?;
        fold_items::<OM, I, F, R, G>(&mut self.parser, input, first, &self.fold, ErrorKind::Many0)
    }

    ghost lawful = { λ s k. fold_many0_alloc_lawful I.lawful F.Error.errors (F.lawful s.0 k) };
}

impl<
    I: Input,
    F: StreamParser<I> + Drop,
    R: Viewed + Drop,
    H: Fn() -> Result<R, OutOfMemory>,
    G: Fn(R, F::Output) -> Result<R, OutOfMemory>,
> StreamParser<I> for FoldMany0Alloc<F, H, G> {
    ghost use Rattle.nom_multi_fold.specs.laws.FoldLaws.{folds_pinned};
    ghost use Rattle.nom_multi_fold.specs.laws.FoldAllocLaws.{fold_many0_alloc_steady};

    ghost Pins = { λ p. F.Pins p.parser × FoldsConsistently F.Output.view R.view (λ r. H.post p.init (Ok r)) (λ r x y. G.post p.fold r x (Ok y)) };

    ghost pinned = { λ p k h. folds_pinned (F.pinned p.parser k h.0) h.1 };

    ghost steady = { λ s k. fold_many0_alloc_steady I.lawful F.Error.errors (F.steady s.0 k) };
}

/// The parser that `fold_many1_alloc` returns. The closures are called only if outputs are built.
#[derive(Drop)]
pub struct FoldMany1Alloc<F, H, G> {
    pub parser: F,
    pub init: H,
    pub fold: G,
}

impl<
    I: Input,
    F: Parser<I> + Drop,
    R: Drop,
    H: Fn() -> Result<R, OutOfMemory>,
    G: Fn(R, F::Output) -> Result<R, OutOfMemory>,
> Parser<I> for FoldMany1Alloc<F, H, G> {
    ghost use Rattle.nom_multi_fold.specs.laws.FoldAllocLaws.{fold_many1_alloc_lawful};

    type Output = R;

    type Error = F::Error;

    ghost State = { F.State × H × G };

    ghost state = { λ p. (F.state p.parser, p.init, p.fold) };

    ghost Tree = { List F.Tree };

    ghost grammar = { λ s. fold_many1_alloc_by I.model F.Error.errors (AreCallable (H.pre s.1) (G.pre s.2)) (H.post s.1) (G.post s.2) (F.grammar s.0) };

    ghost word = { λ s. Words.fold_many1_alloc_of I.model F.Error.errors (folding (H.pre s.1) (G.pre s.2) (H.post s.1) (G.post s.2)) (F.word s.0) };

    ghost worded = { λ s. Words.fold_many1_alloc_worded I.model F.Error.errors (H.pre s.1) (G.pre s.2) (H.post s.1) (G.post s.2) (F.worded s.0) };

    #[inline]
    fn process<OM: OutputMode>(&mut self, input: I) -> PResult<I, R, F::Error> {
        let none = start::<OM::Output, R, F::Error, H>(&self.init)?;
        let (rest, first) = fold_one::<OM, I, F, R, G>(&mut self.parser, input, none, &self.fold)?;
        fold_items::<OM, I, F, R, G>(&mut self.parser, rest, first, &self.fold, ErrorKind::Many1)
    }

    ghost lawful = { λ s k. fold_many1_alloc_lawful I.lawful F.Error.errors (F.lawful s.0 k.0) };
}

impl<
    I: Input,
    F: StreamParser<I> + Drop,
    R: Viewed + Drop,
    H: Fn() -> Result<R, OutOfMemory>,
    G: Fn(R, F::Output) -> Result<R, OutOfMemory>,
> StreamParser<I> for FoldMany1Alloc<F, H, G> {
    ghost use Rattle.nom_multi_fold.specs.laws.FoldLaws.{folds_pinned};
    ghost use Rattle.nom_multi_fold.specs.laws.FoldAllocLaws.{fold_many1_alloc_steady};

    ghost Pins = { λ p. F.Pins p.parser × FoldsConsistently F.Output.view R.view (λ r. H.post p.init (Ok r)) (λ r x y. G.post p.fold r x (Ok y)) };

    ghost pinned = { λ p k h. folds_pinned (F.pinned p.parser k.0 h.0) h.1 };

    ghost steady = { λ s k. fold_many1_alloc_steady I.lawful F.Error.errors (F.steady s.0 k.0) };
}
