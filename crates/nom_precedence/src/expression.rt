//! Expressions.
ghost use Rattle.std.specs.Prelude.{◌≡◌, List, length};
ghost use Rattle.nom.specs.Words.{mapping};
ghost use Rattle.nom.specs.Prelude.{modes};
ghost use Rattle.nom_precedence.specs.Readings.{AreKept, ShowsRead, whole_by};
ghost use Rattle.nom_precedence.specs.Values.{folding, precedence_by};
ghost use Rattle.nom_operators.specs.Groups.{groups_left};
ghost use Rattle.nom_operators.specs.declared.operation.Operation.{Operation};
ghost use Rattle.nom_operators.specs.declared.operation.Assoc.{Assoc};
ghost use Rattle.nom_precedence.specs.Words as Words;

use crate::pairs::pairs;
use crate::read::Read;
use crate::term::term;
use nom::error::{ErrorKind, ParseError};
use nom::extend::{close, emitted, refusal};
use nom::{Err, Input, Items, OutputMode, PResult, Parser, StreamParser, Viewed};
use nom_operators::operation::{Assoc, Operation};
use std::alloc::Allocator;
use std::marker::PhantomData;

/// The parser that `precedence` returns: terms with operators between them.
#[derive(Drop)]
pub struct Precedence<'l, A, P, F, Q, C, B, G> {
    pub alloc: A,
    pub levels: &'l [Assoc],
    pub prefix: P,
    pub operand: F,
    pub postfix: Q,
    pub binary: C,
    pub fold: G,
    pub of: PhantomData<B>,
}

impl<
    'l,
    I: Input,
    A: Allocator + Copy,
    P: Parser<I, Error = F::Error> + Drop,
    F: Parser<I> + Drop,
    Q: Parser<I, Error = F::Error> + Drop,
    C: Parser<I, Output = (usize, B), Error = F::Error> + Drop,
    B: Drop,
    G: Fn(Operation<P::Output, Q::Output, B, F::Output>) -> F::Output,
> Parser<I> for Precedence<'l, A, P, F, Q, C, B, G> {
    ghost use Rattle.nom_precedence.specs.Expressions.{Term, Pair};
    ghost use Rattle.nom_precedence.specs.laws.ExpressionLaws.{precedence_lawful};

    type Output = F::Output;

    type Error = F::Error;

    ghost State = { P.State × F.State × Q.State × C.State × List Assoc × G };

    ghost state = { λ p. (P.state p.prefix, F.state p.operand, Q.state p.postfix, C.state p.binary, p.levels.now, p.fold) };

    ghost Tree = { Term P.Tree F.Tree Q.Tree × List (Pair C.Tree (Term P.Tree F.Tree Q.Tree)) };

    ghost grammar = { λ s. precedence_by I.model F.Error.errors ((x : Operation P.Output Q.Output B F.Output) → G.pre s.5 x) (G.post s.5) s.4
        (P.grammar s.0) (F.grammar s.1) (Q.grammar s.2) (C.grammar s.3) };

    ghost word = { λ s. Words.precedence_of I.model F.Error.errors s.4 (mapping (G.pre s.5) (G.post s.5))
        (P.word s.0) (F.word s.1) (Q.word s.2) (C.word s.3) };

    ghost worded = { λ s. Words.precedence_worded I.model F.Error.errors s.4 (G.pre s.5) (G.post s.5)
        (P.worded s.0) (F.worded s.1) (Q.worded s.2) (C.worded s.3) };

    fn process<OM: OutputMode>(&mut self, input: I) -> PResult<I, F::Output, F::Error> {
        let (end, whole) = read::<OM, I, A, P, F, Q, B, C, G>(
            self.alloc,
            self.levels,
            &mut self.prefix,
            &mut self.operand,
            &mut self.postfix,
            &mut self.binary,
            &self.fold,
            input,
        )?;
        match emitted(whole) {
            Read::Whole(value) => Ok((end, value)),
            Read::Stuck => Err(refusal::<OM::Error, I, F::Error>(end, ErrorKind::Precedence)),
        }
    }

    ghost lawful = { λ s k. precedence_lawful I.lawful F.Error.errors (length s.4) k.4
        (P.lawful s.0 k.0) (F.lawful s.1 k.1) (Q.lawful s.2 k.2) (C.lawful s.3 k.3) };
}

impl<
    'l,
    I: Input,
    A: Allocator + Copy,
    P: StreamParser<I, Error = F::Error> + Drop,
    F: StreamParser<I> + Drop,
    Q: StreamParser<I, Error = F::Error> + Drop,
    C: StreamParser<I, Output = (usize, B), Error = F::Error> + Drop,
    B: Viewed + Drop,
    G: Fn(Operation<P::Output, Q::Output, B, F::Output>) -> F::Output,
> StreamParser<I> for Precedence<'l, A, P, F, Q, C, B, G> {
    ghost use Rattle.nom_precedence.specs.laws.ExpressionLaws.{precedence_steady};
    ghost use Rattle.nom_precedence.specs.laws.ValueLaws.{GivesConsistently, folding_pinned};

    ghost Pins = { λ p. P.Pins p.prefix × F.Pins p.operand × Q.Pins p.postfix × C.Pins p.binary × GivesConsistently
        (folding (P.grammar (P.state p.prefix)).IsOutput (F.grammar (F.state p.operand)).IsOutput (Q.grammar (Q.state p.postfix)).IsOutput
        (C.grammar (C.state p.binary)).IsOutput (G.post p.fold)) P.Output.view Q.Output.view B.view F.Output.view };

    ghost pinned = { λ p k h. folding_pinned h.4 (P.pinned p.prefix k.0 h.0) (F.pinned p.operand k.1 h.1) (Q.pinned p.postfix k.2 h.2)
        (C.pinned p.binary k.3 h.3) (groups_left p.levels.now) };

    ghost steady = { λ s k. precedence_steady I.lawful F.Error.errors (length s.4) k.4
        (P.steady s.0 k.0) (F.steady s.1 k.1) (Q.steady s.2 k.2) (C.steady s.3 k.3) };
}

/// Parses a first term and then pairs, and returns the value of them all, or that one is stuck.
///
/// `Precedence` is added at the start to a refusal of the first term.
fn read<
    OM: OutputMode,
    I: Input,
    A: Allocator + Copy,
    P: Parser<I, Error = F::Error>,
    F: Parser<I>,
    Q: Parser<I, Error = F::Error>,
    B: Drop,
    C: Parser<I, Output = (usize, B), Error = F::Error>,
    G: Fn(Operation<P::Output, Q::Output, B, F::Output>) -> F::Output,
>(
    alloc: A,
    levels: &[Assoc],
    prefix: &mut P,
    operand: &mut F,
    postfix: &mut Q,
    binary: &mut C,
    fold: &G,
    input: I,
) -> PResult<I, Read<Option<F::Output>>, F::Error>
    requires prefix { (P.grammar (P.state prefix.old)).meaning.Runs }
    requires operand { (F.grammar (F.state operand.old)).meaning.Runs }
    requires postfix { (Q.grammar (Q.state postfix.old)).meaning.Runs }
    requires binary { (C.grammar (C.state binary.old)).meaning.Runs }
    requires fold { (x : Operation P.Output Q.Output B F.Output) → G.pre fold.now x }
    ensures shown { ShowsRead I.model (whole_by I.model F.Error.errors levels.now (P.grammar (P.state prefix.old)) (F.grammar (F.state operand.old))
        (Q.grammar (Q.state postfix.old)) (C.grammar (C.state binary.old)) (G.post fold.now))
        (modes OM.Output.BUILDS OM.Error.BUILDS OM.Incomplete.STREAMING) input result }
    ensures kept { AreKept (P.state prefix.new) (P.state prefix.old) (F.state operand.new) (F.state operand.old) (Q.state postfix.new) (Q.state postfix.old)
        (C.state binary.new) (C.state binary.old) }
{
    let first = term::<OM, I, A, P, F, Q, B, G>(alloc, prefix, operand, postfix, fold, input);
    let (rest, before) = close(first, input, ErrorKind::Precedence)?;
    match emitted(before) {
        Read::Stuck => Ok((rest, Some(Read::Stuck))),
        Read::Whole(value) => pairs::<OM, I, A, P, F, Q, B, C, G>(
            alloc, levels, prefix, operand, postfix, binary, fold, rest, value,
        ),
    }
}
