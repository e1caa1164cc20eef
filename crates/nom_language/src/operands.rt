//! Expressions whose operators all have a right operand.
ghost use Rattle.std.specs.Prelude.{◌≡◌, List};
ghost use Rattle.nom_combinator.specs.Verdicts.{not_meaning};
ghost use Rattle.nom_error.specs.declared.kind.ErrorKind.TheVariants as Kind;
ghost use Rattle.nom_internal.specs.Words.{mapping};
ghost use Rattle.nom_internal.specs.Prelude.{modes, ShowsMeaning};
ghost use Rattle.nom_language.specs.Precedences.{expression_by, require_operands_of};
ghost use Rattle.nom_operators.specs.declared.operation.Operation.{Operation};
ghost use Rattle.nom_language.specs.Words as Words;

use crate::allocating::{FoldErrors, PlainFold};
use crate::expression::Expression;
use nom_error::answer::{Err, PResult};
use nom_error::kind::ErrorKind;
use nom_error::mode::{Check, OutputM, OutputMode};
use nom_error::outside::FromExternalError;
use nom_error::value::{ParseError, refusal};
use nom_internal::built::built;
use nom_internal::parser::{Parser, StreamParser};
use nom_operators::operation::Operation;
use nom_operators::precedences::{Binary, Unary};
use nom_operators::prefixes::Prefixes;
use nom_traits::input::{Input, Items};
use nom_traits::view::Viewed;
use std::alloc::Allocator;

/// The parser that `require_operands` returns: an expression that no operator follows.
#[derive(Drop)]
pub struct RequireOperands<A, C, T, G, W = PlainFold> {
    pub expression: Expression<A, C, T, G, W>,
}

impl<
    I: Input,
    A: Allocator + Copy,
    P: Drop,
    Q: Drop,
    B: Drop,
    O: Drop,
    Y: Drop,
    C: Parser<I, Output = Binary<B>, Error = T::Error> + Drop,
    T: Parser<I, Output = (Prefixes<Unary<P>, A>, O, Vec<Unary<Q>, A>)> + Drop,
    G: Fn(Operation<P, Q, B, O>) -> Result<O, Y>,
    W: FoldErrors<O, Y>,
> Parser<I> for RequireOperands<A, C, T, G, W>
where
    T::Error: FromExternalError<I, W::Refusal>,
{
    ghost use Rattle.nom_language.specs.laws.LanguageLaws.{evaluated_lawful, require_operands_lawful};

    type Output = O;

    type Error = T::Error;

    ghost State = { C.State × T.State × G };

    ghost state = { λ p. (C.state p.expression.pair.0, T.state p.expression.pair.1, p.expression.fold) };

    ghost Tree = { T.Tree × List (C.Tree × T.Tree) };

    ghost grammar = { λ s. require_operands_of I.model T.Error.errors (C.grammar s.0) (expression_by I.model T.Error.errors T.Error.externals W.Returns
        W.no_memory ((x : Operation P Q B O) → G.pre s.2 x) (G.post s.2) (T.grammar s.1) (C.grammar s.0)) };

    ghost word = { λ s. Words.require_operands_of I.model T.Error.errors (C.word s.0) (Words.expression_of I.model T.Error.errors T.Error.externals
        W.Returns W.no_memory (mapping (G.pre s.2) (G.post s.2)) (T.word s.1) (C.word s.0)) };

    ghost worded = { λ s. Words.require_operands_worded I.model T.Error.errors (C.worded s.0)
        (Words.expression_worded I.model T.Error.errors T.Error.externals W.Returns W.no_memory (G.pre s.2) (G.post s.2) (T.worded s.1)
        (C.worded s.0)) };

    fn process<OM: OutputMode>(&mut self, input: I) -> PResult<I, O, T::Error> {
        let (rest, value) = self.expression.process::<OM>(input)?;
        let (end, _none) = no_operator::<OM, I, C>(&mut self.expression.pair.0, rest)?;
        Ok((end, value))
    }

    ghost lawful = { λ s k. require_operands_lawful I.lawful T.Error.errors
        (evaluated_lawful I.lawful T.Error.errors T.Error.externals {CanFold = Unit {0}} W.no_memory _ k.2 (T.lawful s.1 k.0) (C.lawful s.0 k.1))
        (C.lawful s.0 k.1) };
}

impl<
    I: Input,
    A: Allocator + Copy,
    P: Viewed + Drop,
    Q: Viewed + Drop,
    B: Viewed + Drop,
    O: Viewed + Drop,
    Y: Drop,
    C: StreamParser<I, Output = Binary<B>, Error = T::Error> + Drop,
    T: StreamParser<I, Output = (Prefixes<Unary<P>, A>, O, Vec<Unary<Q>, A>)> + Drop,
    G: Fn(Operation<P, Q, B, O>) -> Result<O, Y>,
    W: FoldErrors<O, Y>,
> StreamParser<I> for RequireOperands<A, C, T, G, W>
where
    T::Error: FromExternalError<I, W::Refusal>,
{
    ghost use Rattle.nom_language.specs.laws.LanguageLaws.{evaluated_steady, require_operands_steady};
    ghost use Rattle.nom_language.specs.laws.PinnedLaws.{expression_pinned};
    ghost use Rattle.nom_operators.specs.laws.ViewLaws.{OperatesConsistently};

    ghost Pins = { λ p. T.Pins p.expression.pair.1 × C.Pins p.expression.pair.0
        × OperatesConsistently (G.post p.expression.fold) P.view Q.view B.view O.view };

    ghost pinned = { λ p k h. expression_pinned P.view Q.view B.view O.view (T.pinned p.expression.pair.1 k.0 h.0)
        (C.pinned p.expression.pair.0 k.1 h.1) h.2 };

    ghost steady = { λ s k. require_operands_steady I.lawful T.Error.errors
        (evaluated_steady I.lawful T.Error.errors T.Error.externals {CanFold = Unit {0}} W.no_memory _ k.2 (T.steady s.1 k.0) (C.steady s.0 k.1))
        (C.steady s.0 k.1) };
}

// Refuses with `Precedence` if there is an operator.
fn no_operator<OM: OutputMode, I: Items, C: Parser<I>>(
    binary: &mut C,
    input: I,
) -> PResult<I, (), C::Error>
    requires { (C.grammar (C.state binary.old)).meaning.Runs }
    ensures shown { ShowsMeaning I.model (λ t o. o ≡ t) (not_meaning (λ i. C.Error.errors.of_kind i Kind.Precedence) C.Error.errors.grows
        (C.grammar (C.state binary.old)).meaning) (modes OM.Output.BUILDS OM.Error.BUILDS OM.Incomplete.STREAMING) input result }
    ensures kept { C.state binary.new ≡ C.state binary.old }
{
    input.known();
    match binary.process::<OutputM<Check, Check, OM::Incomplete>>(input) {
        Ok(_) => Err(refusal::<OM::Error, I, C::Error>(input, ErrorKind::Precedence)),
        Err(Err::Error(_)) => Ok((input, built::<OM::Output, ()>(()))),
        Err(Err::Incomplete(more)) => Err(Err::Incomplete(more)),
        Err(Err::Failure(error)) => Err(Err::Failure(error)),
        Err(Err::OutOfMemory) => Err(Err::OutOfMemory),
    }
}
