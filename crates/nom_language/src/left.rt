//! Items with operators between them, folded from the left.
ghost use Rattle.std.specs.Prelude.{◌≡◌, IsSome, List, MatchOption, None, Some, true};
ghost use Rattle.nom_internal.specs.Prelude.{BuiltFrom};
ghost use Rattle.nom_language.specs.LeftFolds.{left_assoc_by};
ghost use Rattle.nom_language.specs.helpers.Accumulated.{LeftPushes};
ghost use Rattle.nom_language.specs.Words as Words;

use nom_error::answer::{OutOfMemory, PResult};
use nom_error::kind::ErrorKind;
use nom_error::mode::OutputMode;
use nom_error::value::ParseError;
use nom_internal::parser::{Parser, StreamParser};
use nom_repeat::accumulator::Accumulator;
use nom_repeat::bounds::any_items;
use nom_traits::input::{Input, Items};
use std::marker::PhantomData;

/// The parser that `left_assoc` returns: items with operators between them, folded from the left.
#[derive(Drop)]
pub struct LeftAssoc<C, F, G> {
    /// An operator and an item after it.
    pub pair: (C, F),
    pub builder: G,
}

impl<
    I: Input,
    C: Parser<I, Error = F::Error> + Drop,
    F: Parser<I> + Drop,
    G: Fn(F::Output, C::Output, F::Output) -> F::Output,
> Parser<I> for LeftAssoc<C, F, G> {
    ghost use Rattle.nom_language.specs.laws.LanguageLaws.{left_assoc_lawful};

    type Output = F::Output;

    type Error = F::Error;

    ghost State = { C.State × F.State × G };

    ghost state = { λ p. (C.state p.pair.0, F.state p.pair.1, p.builder) };

    ghost Tree = { F.Tree × List (C.Tree × F.Tree) };

    ghost grammar = { λ s. left_assoc_by I.model F.Error.errors ((x : F.Output) (c : C.Output) (y : F.Output) → G.pre s.2 x c y) (G.post s.2)
        (F.grammar s.1) (C.grammar s.0) };

    ghost word = { λ s. Words.left_assoc_of I.model F.Error.errors (G.pre s.2) (G.post s.2) (F.word s.1) (C.word s.0) };

    ghost worded = { λ s. Words.left_assoc_worded I.model F.Error.errors (G.pre s.2) (G.post s.2) (F.worded s.1) (C.worded s.0) };

    fn process<OM: OutputMode>(&mut self, input: I) -> PResult<I, F::Output, F::Error> {
        let (rest, first) = self.pair.1.process::<OM>(input)?;
        let begun = begun::<C::Output, F::Output, G>(first, &self.builder);
        let (end, folded) = any_items::<OM, I, (C, F), Folded<'_, C::Output, F::Output, G>>(
            &mut self.pair,
            rest,
            begun,
            ErrorKind::SeparatedList,
        )?;
        Ok((end, value_of(folded)))
    }

    ghost lawful = { λ s k. left_assoc_lawful I.lawful F.Error.errors (F.lawful s.1 k.0) (C.lawful s.0 k.1) };
}

impl<
    I: Input,
    C: StreamParser<I, Error = F::Error> + Drop,
    F: StreamParser<I> + Drop,
    G: Fn(F::Output, C::Output, F::Output) -> F::Output,
> StreamParser<I> for LeftAssoc<C, F, G> {
    ghost use Rattle.nom_language.specs.laws.LanguageLaws.{left_assoc_steady};
    ghost use Rattle.nom_language.specs.laws.PinnedLaws.{BuildsConsistently, left_assoc_pinned};

    ghost Pins = { λ p. F.Pins p.pair.1 × C.Pins p.pair.0 × BuildsConsistently (G.post p.builder) C.Output.view F.Output.view };

    ghost pinned = { λ p k h. left_assoc_pinned (F.pinned p.pair.1 k.0 h.0) (C.pinned p.pair.0 k.1 h.1) h.2 };

    ghost steady = { λ s k. left_assoc_steady I.lawful F.Error.errors (F.steady s.1 k.0) (C.steady s.0 k.1) };
}

// A value, which is folded with each pair.
#[derive(Drop)]
struct Folded<'a, H, O, G> {
    value: Option<O>,
    builder: &'a G,
    of: PhantomData<H>,
}

impl<'a, H: Drop, O: Drop, G: Fn(O, H, O) -> O> Accumulator<(H, O)> for Folded<'a, H, O, G> {
    ghost Pushes = { λ old x new. LeftPushes (λ k. k.value) (λ k. k.builder.now) (λ f a h b c. G.post f a h b c) old x new };

    ghost CanPush = { λ k. IsSome k.value × ((x : O) (h : H) (y : O) → G.pre k.builder.now x h y) };

    ghost LacksRoom = { λ _ _ _. ⊥ };

    ghost Grows = { ⊥ };

    ghost lacking = { λ _ _ _ h. h };

    #[inline(always)]
    fn push(&mut self, item: (H, O)) -> Result<(), OutOfMemory> {
        match self.value.take() {
            Some(left) => {
                let (operator, right) = item;
                self.value = Some((self.builder)(left, operator, right));
                Ok(())
            }
            None => unreachable!(),
        }
    }
}

// The first value, if it is built.
#[inline(always)]
fn begun<'a, H, O, G>(first: Option<O>, builder: &'a G) -> Option<Folded<'a, H, O, G>>
    ensures { BuiltFrom true (λ x k. (k.value ≡ Some x) × (k.builder.now ≡ builder.now)) first result }
{
    match first {
        Some(value) => Some(Folded {
            value: Some(value),
            builder,
            of: PhantomData,
        }),
        None => None,
    }
}

// The folded value, if it is built.
#[inline(always)]
fn value_of<H: Drop, O: Drop, G>(folded: Option<Folded<'_, H, O, G>>) -> Option<O>
    ensures { MatchOption folded.entry (result ≡ None) (λ k. result ≡ k.value) }
{
    match folded {
        Some(folded) => folded.value,
        None => None,
    }
}
