//! Expressions.
ghost use Rattle.std.specs.Prelude.{◌≡◌, List, Result, true};
ghost use Rattle.nom_internal.specs.Words.{mapping};
ghost use Rattle.nom_internal.specs.Prelude.{modes, ShowsMeaning};
ghost use Rattle.nom_language.specs.Evaluated.{IsEvaluated};
ghost use Rattle.nom_language.specs.Precedences.{PrefixesWait, expression_by, terms_meaning};
ghost use Rattle.nom_operators.specs.declared.operation.Operation.{Operation};
ghost use Rattle.nom_language.specs.Words as Words;

use crate::allocating::{AllocatingFold, FoldErrors, PlainFold, stopped};
use crate::evaluation::{Evaluation, begin_evaluation, value_of};
use crate::operands::RequireOperands;
use nom_error::answer::{Err, PResult};
use nom_error::kind::ErrorKind;
use nom_error::mode::{Emit, OutputM, OutputMode};
use nom_error::outside::FromExternalError;
use nom_error::value::ParseError;
use nom_internal::built::{built, emitted};
use nom_internal::choice::close;
use nom_internal::parser::{Parser, StreamParser};
use nom_operators::operation::Operation;
use nom_operators::precedences::{Binary, Unary};
use nom_operators::prefixes::Prefixes;
use nom_repeat::bounds::any_items;
use nom_traits::input::{Input, Items};
use nom_traits::view::Viewed;
use std::alloc::Allocator;
use std::marker::PhantomData;

/// The parser that `precedence` returns: terms with operators between them.
#[derive(Drop)]
pub struct Expression<A, C, T, G, W = PlainFold> {
    pub alloc: A,
    /// A binary operator and a term after it.
    pub pair: (C, T),
    pub fold: G,
    /// The kind of the fold.
    pub of: PhantomData<W>,
}

/// The parser that `precedence_alloc` returns: terms with operators between them, with a fold that may take
/// memory.
pub type ExpressionAlloc<A, C, T, G> = Expression<A, C, T, G, AllocatingFold>;

impl<A, C, T, G, W> Expression<A, C, T, G, W> {
    /// Refuses an operator whose right operand is missing, with `Precedence` at the operator.
    ///
    /// Without it the expression ends before that operator.
    #[inline(always)]
    pub fn require_operands(self) -> RequireOperands<A, C, T, G, W>
        ensures { result.expression ≡ self }
    {
        RequireOperands { expression: self }
    }
}

impl<
    I: Input,
    A: Allocator + Copy,
    P: Drop,
    Q: Drop,
    B: Drop,
    O: Drop,
    Y: Drop,
    C: Parser<I, Output = Binary<B>, Error = T::Error> + Drop,
    T: Parser<I, Output = (Prefixes<Unary<P>, A>, O, Vec<Unary<Q>, A>)> + Drop,
    G: Fn(Operation<P, Q, B, O>) -> Result<O, Y>,
    W: FoldErrors<O, Y>,
> Parser<I> for Expression<A, C, T, G, W>
where
    T::Error: FromExternalError<I, W::Refusal>,
{
    ghost use Rattle.nom_language.specs.laws.LanguageLaws.{evaluated_lawful};

    type Output = O;

    type Error = T::Error;

    ghost State = { C.State × T.State × G };

    ghost state = { λ p. (C.state p.pair.0, T.state p.pair.1, p.fold) };

    ghost Tree = { T.Tree × List (C.Tree × T.Tree) };

    ghost grammar = { λ s. expression_by I.model T.Error.errors T.Error.externals W.Returns W.no_memory ((x : Operation P Q B O) → G.pre s.2 x)
        (G.post s.2) (T.grammar s.1) (C.grammar s.0) };

    ghost word = { λ s. Words.expression_of I.model T.Error.errors T.Error.externals W.Returns W.no_memory
        (mapping (G.pre s.2) (G.post s.2)) (T.word s.1) (C.word s.0) };

    ghost worded = { λ s. Words.expression_worded I.model T.Error.errors T.Error.externals W.Returns W.no_memory (G.pre s.2) (G.post s.2)
        (T.worded s.1) (C.worded s.0) };

    fn process<OM: OutputMode>(&mut self, input: I) -> PResult<I, O, T::Error> {
        let (end, answer) = terms::<OM, I, A, P, Q, B, O, Y, C, T, G>(
            self.alloc,
            &mut self.pair,
            &self.fold,
            input,
        )?;
        match emitted(answer) {
            Ok(value) => Ok((end, built::<OM::Output, O>(value))),
            Err(error) => Err(stopped::<OM::Error, I, W::Refusal, T::Error>(input, W::told(error))),
        }
    }

    ghost lawful = { λ s k. evaluated_lawful I.lawful T.Error.errors T.Error.externals W.no_memory _ k.2 (T.lawful s.1 k.0)
        (C.lawful s.0 k.1) };
}

impl<
    I: Input,
    A: Allocator + Copy,
    P: Viewed + Drop,
    Q: Viewed + Drop,
    B: Viewed + Drop,
    O: Viewed + Drop,
    Y: Drop,
    C: StreamParser<I, Output = Binary<B>, Error = T::Error> + Drop,
    T: StreamParser<I, Output = (Prefixes<Unary<P>, A>, O, Vec<Unary<Q>, A>)> + Drop,
    G: Fn(Operation<P, Q, B, O>) -> Result<O, Y>,
    W: FoldErrors<O, Y>,
> StreamParser<I> for Expression<A, C, T, G, W>
where
    T::Error: FromExternalError<I, W::Refusal>,
{
    ghost use Rattle.nom_language.specs.laws.LanguageLaws.{evaluated_steady};
    ghost use Rattle.nom_language.specs.laws.PinnedLaws.{expression_pinned};
    ghost use Rattle.nom_operators.specs.laws.ViewLaws.{OperatesConsistently};

    ghost Pins = { λ p. T.Pins p.pair.1 × C.Pins p.pair.0 × OperatesConsistently (G.post p.fold) P.view Q.view B.view O.view };

    ghost pinned = { λ p k h. expression_pinned P.view Q.view B.view O.view (T.pinned p.pair.1 k.0 h.0) (C.pinned p.pair.0 k.1 h.1) h.2 };

    ghost steady = { λ s k. evaluated_steady I.lawful T.Error.errors T.Error.externals W.no_memory _ k.2 (T.steady s.1 k.0)
        (C.steady s.0 k.1) };
}

/// Reads a term and then pairs, and returns the value of them all, or the first refusal of the fold.
///
/// If the first term is refused, `append` adds `Precedence` at the start.
pub(crate) fn terms<
    OM: OutputMode,
    I: Input,
    A: Allocator + Copy,
    P: Drop,
    Q: Drop,
    B: Drop,
    O: Drop,
    X: Drop,
    C: Parser<I, Output = Binary<B>, Error = T::Error>,
    T: Parser<I, Output = (Prefixes<Unary<P>, A>, O, Vec<Unary<Q>, A>)>,
    G: Fn(Operation<P, Q, B, O>) -> Result<O, X>,
>(alloc: A, pair: &mut (C, T), fold: &G, input: I) -> PResult<I, Result<O, X>, T::Error>
    requires term { (T.grammar (T.state pair.old.1)).meaning.Runs }
    requires binary { (C.grammar (C.state pair.old.0)).meaning.Runs }
    requires fold { (x : Operation P Q B O) → G.pre fold.now x }
    ensures shown { ShowsMeaning {O = Result O X} I.model (IsEvaluated (T.grammar (T.state pair.old.1)).IsOutput (C.grammar (C.state pair.old.0)).IsOutput
        (G.post fold.now)) (terms_meaning I.model T.Error.errors (PrefixesWait (T.grammar (T.state pair.old.1)).IsOutput)
        (T.grammar (T.state pair.old.1)).meaning (C.grammar (C.state pair.old.0)).meaning)
        (modes true OM.Error.BUILDS OM.Incomplete.STREAMING) input result }
    ensures term_kept { T.state pair.new.1 ≡ T.state pair.old.1 }
    ensures binary_kept { C.state pair.new.0 ≡ C.state pair.old.0 }
{
    let read = pair
        .1
        .process::<OutputM<Emit, OM::Error, OM::Incomplete>>(input);
    let (rest, first) = close(read, input, ErrorKind::Precedence)?;
    match begin_evaluation::<P, Q, B, O, X, A, G>(alloc, emitted(first), fold) {
        Some(begun) => {
            let (end, all) = any_items::<
                OutputM<Emit, OM::Error, OM::Incomplete>,
                I,
                (C, T),
                Evaluation<'_, P, Q, B, O, X, A, G>,
            >(pair, rest, Some(begun), ErrorKind::Precedence)?;
            Ok((end, Some(value_of(emitted(all)))))
        }
        None => Err(Err::OutOfMemory),
    }
}
