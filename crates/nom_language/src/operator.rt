//! Operators with their precedences.
ghost use Rattle.std.specs.Prelude.{◌≡◌, ℕ, true};
ghost use Rattle.nom_internal.specs.Prelude.{BuiltFrom};
ghost use Rattle.nom_language.specs.Operators.{binary_op_of, unary_op_of};
ghost use Rattle.nom_operators.specs.declared.operation.Assoc.{Assoc};
ghost use Rattle.nom_language.specs.Words as Words;

use nom_error::answer::PResult;
use nom_error::mode::OutputMode;
use nom_internal::parser::{Parser, StreamParser};
use nom_operators::operation::Assoc;
use nom_operators::precedences::{Binary, Unary};
use nom_traits::input::Items;

/// The parser that `unary_op` returns: a prefix or a postfix with its precedence.
#[derive(Drop)]
pub struct UnaryOp<F> {
    pub precedence: usize,
    pub parser: F,
}

impl<I: Items, F: Parser<I> + Drop> Parser<I> for UnaryOp<F> {
    type Output = Unary<F::Output>;

    type Error = F::Error;

    ghost State = { F.State × ℕ };

    ghost state = { λ p. (F.state p.parser, p.precedence) };

    ghost Tree = { F.Tree };

    ghost grammar = { λ s. unary_op_of s.1 (F.grammar s.0) };

    ghost word = { λ s. Words.unary_op_of s.1 (F.word s.0) };

    ghost worded = { λ s. Words.unary_op_worded s.1 (F.worded s.0) };

    #[inline(always)]
    fn process<OM: OutputMode>(&mut self, input: I) -> PResult<I, Self::Output, F::Error> {
        let (rest, output) = self.parser.process::<OM>(input)?;
        Ok((rest, unary(output, self.precedence)))
    }

    ghost lawful = { λ s k. F.lawful s.0 k };
}

impl<I: Items, F: StreamParser<I> + Drop> StreamParser<I> for UnaryOp<F> {
    ghost use Rattle.nom_language.specs.laws.PinnedLaws.{unary_pinned};

    ghost Pins = { λ p. F.Pins p.parser };

    ghost pinned = { λ p k h. unary_pinned p.precedence (F.pinned p.parser k h) };

    ghost steady = { λ s k. F.steady s.0 k };
}

/// The parser that `binary_op` returns: a binary operator with its precedence.
#[derive(Drop)]
pub struct BinaryOp<F> {
    pub precedence: usize,
    pub assoc: Assoc,
    pub parser: F,
}

impl<I: Items, F: Parser<I> + Drop> Parser<I> for BinaryOp<F> {
    type Output = Binary<F::Output>;

    type Error = F::Error;

    ghost State = { F.State × ℕ × Assoc };

    ghost state = { λ p. (F.state p.parser, p.precedence, p.assoc) };

    ghost Tree = { F.Tree };

    ghost grammar = { λ s. binary_op_of s.1 s.2 (F.grammar s.0) };

    ghost word = { λ s. Words.binary_op_of s.1 s.2 (F.word s.0) };

    ghost worded = { λ s. Words.binary_op_worded s.1 s.2 (F.worded s.0) };

    #[inline(always)]
    fn process<OM: OutputMode>(&mut self, input: I) -> PResult<I, Self::Output, F::Error> {
        let (rest, output) = self.parser.process::<OM>(input)?;
        Ok((rest, binary(output, self.precedence, self.assoc)))
    }

    ghost lawful = { λ s k. F.lawful s.0 k };
}

impl<I: Items, F: StreamParser<I> + Drop> StreamParser<I> for BinaryOp<F> {
    ghost use Rattle.nom_language.specs.laws.PinnedLaws.{binary_pinned};

    ghost Pins = { λ p. F.Pins p.parser };

    ghost pinned = { λ p k h. binary_pinned p.precedence p.assoc (F.pinned p.parser k h) };

    ghost steady = { λ s k. F.steady s.0 k };
}

// Adds a precedence to an output, if it is built.
#[inline(always)]
fn unary<V>(output: Option<V>, precedence: usize) -> Option<Unary<V>>
    ensures { BuiltFrom true (λ v u. (u.value ≡ v) × (u.precedence ≡ precedence)) output result }
{
    match output {
        Some(value) => Some(Unary { value, precedence }),
        None => None,
    }
}

// Adds a precedence and an associativity to an output, if it is built.
#[inline(always)]
fn binary<V>(output: Option<V>, precedence: usize, assoc: Assoc) -> Option<Binary<V>>
    ensures { BuiltFrom true (λ v b. (b.value ≡ v) × (b.precedence ≡ precedence) × (b.assoc ≡ assoc)) output result }
{
    match output {
        Some(value) => Some(Binary {
            value,
            precedence,
            assoc,
        }),
        None => None,
    }
}
