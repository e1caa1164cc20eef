//! The value of an expression, as it is read.
ghost use Rattle.std.specs.Prelude.{◌≡◌, ◌+◌, ◌<◌, IfSome, IsSome, None, List, length, vec_capacity};
ghost use Rattle.nom_language.specs.Evaluated.{symbols_of_term};
ghost use Rattle.nom_language.specs.helpers.Accumulated.{HasReadInto, PairPushes};
ghost use Rattle.nom_operators.specs.Evaluations.{IsValueOf};
ghost use Rattle.nom_operators.specs.Prefixes.{prefixes_in};
ghost use Rattle.nom_operators.specs.OperatorTrees.{Symbol};
ghost use Rattle.nom_operators.specs.Steps.{HasOutermost, waiting};
ghost use Rattle.nom_operators.specs.helpers.Pending.{StackLacksRoom};
ghost use Rattle.nom_operators.specs.declared.operation.Operation.{Operation};
ghost use Rattle.nom_operators.specs.declared.precedences.Unary.{Unary};
ghost use Rattle.nom_operators.specs.declared.precedences.Binary.{Binary};

use nom_error::answer::OutOfMemory;
use nom_operators::operation::Operation;
use nom_operators::pending::{Partial, Pending, Term, begin, put_term, value_of_all};
use nom_operators::precedences::{Binary, Unary};
use nom_operators::prefixes::Prefixes;
use nom_repeat::accumulator::Accumulator;
use std::alloc::Allocator;
use std::marker::PhantomData;

/// What is read so far: operators that wait for their right operand, and the value after the last of them.
#[derive(Drop)]
pub struct Waiting<P, B, R, A: Allocator> {
    pub partial: Option<Partial<P, B, R>>,
    pub outer: Vec<Pending<P, B, R>, A>,
}

/// What is read so far, and the fold.
// The fold stands beside what is dropped. So no reference to it is passed to the code that drops, and the parser that holds
// the fold needn't lie in memory.
#[derive(Drop)]
pub struct Evaluation<'a, P, Q, B, O, X, A: Allocator, G> {
    pub waiting: Waiting<P, B, Result<O, X>, A>,
    pub fold: &'a G,
    pub of: PhantomData<Q>,
}

impl<
    'a,
    P: Drop,
    Q: Drop,
    B: Drop,
    O: Drop,
    X: Drop,
    A: Allocator,
    G: Fn(Operation<P, Q, B, O>) -> Result<O, X>,
> Accumulator<(Binary<B>, (Prefixes<Unary<P>, A>, O, Vec<Unary<Q>, A>))>
    for Evaluation<'a, P, Q, B, O, X, A, G> {
    ghost Pushes = { λ old x new. PairPushes (λ k. k.waiting.partial) (λ k. k.waiting.outer.items) (λ k. k.fold.now) (λ f o r. G.post f o r) old x new };

    ghost CanPush = { λ k. IsSome k.waiting.partial × IfSome k.waiting.partial (λ r. HasOutermost r.innermost k.waiting.outer.items)
        × ((x : Operation P Q B O) → G.pre k.fold.now x) };

    ghost LacksRoom = { λ k x new. IfSome k.waiting.partial (λ r. StackLacksRoom (vec_capacity new.waiting.outer)
        (length (waiting r.innermost k.waiting.outer.items) + (1 + length (prefixes_in x.1.0)))) };

    ghost Grows = { Unit {0} };

    ghost lacking = { λ _ _ _ _. tt };

    #[inline(always)]
    fn push(
        &mut self,
        item: (Binary<B>, (Prefixes<Unary<P>, A>, O, Vec<Unary<Q>, A>)),
    ) -> Result<(), OutOfMemory> {
        match self.waiting.partial.take() {
            Some(partial) => {
                let (operator, output) = item;
                match put_term(
                    partial,
                    &mut self.waiting.outer,
                    operator,
                    term(output),
                    self.fold,
                ) {
                    Some(new) => {
                        self.waiting.partial = Some(new);
                        Ok(())
                    }
                    None => Err(OutOfMemory),
                }
            }
            None => unreachable!(),
        }
    }
}

// Turns a term's output into a term.
#[inline(always)]
fn term<P: Drop, O: Drop, Q: Drop, A: Allocator>(
    output: (Prefixes<Unary<P>, A>, O, Vec<Unary<Q>, A>),
) -> Term<P, O, Q, A>
    ensures prefixes { prefixes_in result.prefixes ≡ prefixes_in output.0 }
    ensures operand { result.operand ≡ output.1 }
    ensures postfixes { result.postfixes.items ≡ output.2.items }
{
    let (prefixes, operand, postfixes) = output;
    Term {
        prefixes,
        operand,
        postfixes,
    }
}

/// Begins with the first term. It returns `None` if there is no memory for its prefixes. The last of them takes none.
#[inline(always)]
pub fn begin_evaluation<
    'a,
    P: Drop,
    Q: Drop,
    B: Drop,
    O: Drop,
    X: Drop,
    A: Allocator + Copy,
    G: Fn(Operation<P, Q, B, O>) -> Result<O, X>,
>(
    alloc: A,
    first: (Prefixes<Unary<P>, A>, O, Vec<Unary<Q>, A>),
    fold: &'a G,
) -> Option<Evaluation<'a, P, Q, B, O, X, A, G>>
    requires { (x : Operation P Q B O) → G.pre fold.now x }
    ensures read { IfSome result (λ k. HasReadInto (λ k. k.waiting.partial) (λ k. k.waiting.outer.items) (λ k. k.fold.now) (λ f o r. G.post f o r) fold.now
        (symbols_of_term first) k) }
    ensures nested { IfSome result (λ k. IfSome k.waiting.partial (λ r. HasOutermost r.innermost k.waiting.outer.items)) }
    ensures fold { IfSome result (λ k. k.fold.now ≡ fold.now) }
    ensures full { result ≡ None → 1 < length (prefixes_in first.0) }
{
    let mut waiting = Waiting {
        partial: None,
        outer: Vec::new(alloc),
    };
    match begin(&mut waiting.outer, term(first), fold) {
        Some(partial) => {
            waiting.partial = Some(partial);
            Some(Evaluation {
                waiting,
                fold,
                of: PhantomData,
            })
        }
        None => {
            // As a whole: the code that drops it has two callers then, and stays apart from that of `Evaluation`.
            drop(waiting);
            None
        }
    }
}

/// Returns the value of all that was read, or the first refusal of the fold.
#[inline(always)]
pub fn value_of<
    P: Drop,
    Q: Drop,
    B: Drop,
    O: Drop,
    X: Drop,
    A: Allocator,
    G: Fn(Operation<P, Q, B, O>) -> Result<O, X>,
>(evaluation: Evaluation<'_, P, Q, B, O, X, A, G>) -> Result<O, X>
    requires some { IsSome evaluation.waiting.partial }
    requires nested { IfSome evaluation.waiting.partial (λ r. HasOutermost r.innermost evaluation.waiting.outer.items) }
    requires fold { (x : Operation P Q B O) → G.pre evaluation.fold.now x }
    ensures { (ss : List (Symbol (Unary P) O (Unary Q) (Binary B))) → HasReadInto (λ k. k.waiting.partial) (λ k. k.waiting.outer.items) (λ k. k.fold.now)
        (λ f o r. G.post f o r) evaluation.entry.fold.now ss evaluation.entry → IsValueOf (G.post evaluation.entry.fold.now) ss result }
{
    let Evaluation {
        waiting,
        fold,
        of: _,
    } = evaluation;
    let Waiting { partial, outer } = waiting;
    match partial {
        Some(partial) => value_of_all(partial, outer, fold),
        None => unreachable!(),
    }
}
