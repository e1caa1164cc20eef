//! One parser after another.
ghost use Rattle.std.specs.Prelude.{◌≡◌, Some, None};
ghost use Rattle.nom_internal.specs.Results.{ThenSideCondition};
ghost use Rattle.nom_internal.specs.Sequence.{pair_of};
ghost use Rattle.nom_internal.specs.Words as Words;

use crate::parser::{Parser, StreamParser};
use nom_error::answer::PResult;
use nom_error::mode::OutputMode;
use nom_traits::input::Items;

/// Combines two values that are built together into a pair.
#[inline(always)]
pub fn combine<A: Drop, B: Drop>(first: Option<A>, second: Option<B>) -> Option<(A, B)>
    ensures both { (a : A) (b : B) → first ≡ Some a → second ≡ Some b → result ≡ Some (a, b) }
    ensures none { first ≡ None → result ≡ None }
{
    match (first, second) {
        (Some(a), Some(b)) => Some((a, b)),
        _ => None,
    }
}

/// The parser that `and` returns. It runs one parser after another, and returns both outputs.
#[derive(Drop)]
pub struct And<F, G> {
    pub first: F,
    pub second: G,
}

impl<I: Items, F: Parser<I> + Drop, G: Parser<I, Error = F::Error> + Drop> Parser<I> for And<F, G> {
    ghost use Rattle.nom_internal.specs.laws.SequenceLaws.{sequence_lawful};

    type Output = (F::Output, G::Output);

    type Error = F::Error;

    ghost State = { F.State × G.State };

    ghost state = { λ p. (F.state p.first, G.state p.second) };

    ghost Tree = { F.Tree × G.Tree };

    ghost grammar = { λ s. pair_of I.model (F.grammar s.0) (G.grammar s.1) };

    ghost word = { λ s. Words.pair_of I.model (F.word s.0) (G.word s.1) };

    ghost worded = { λ s. Words.pair_worded I.model (F.worded s.0) (G.worded s.1) };

    ghost SideCondition = { λ mode old new i. ThenSideCondition (F.SideCondition mode old.first new.first i) (G.SideCondition mode old.second new.second) };

    #[inline(always)]
    fn process<OM: OutputMode>(&mut self, input: I) -> PResult<I, Self::Output, Self::Error> {
        let (rest, first) = self.first.process::<OM>(input)?;
        let (rest, second) = self.second.process::<OM>(rest)?;
        Ok((rest, combine(first, second)))
    }

    ghost lawful = { λ s k. sequence_lawful I.lawful (F.lawful s.0 k.0) (G.lawful s.1 k.1) };
}

impl<I: Items, F: StreamParser<I> + Drop, G: StreamParser<I, Error = F::Error> + Drop> StreamParser<
    I,
> for And<F, G> {
    ghost use Rattle.nom_internal.specs.Pinned.{pair_pinned};
    ghost use Rattle.nom_internal.specs.laws.SequenceLaws.{sequence_steady};

    ghost Pins = { λ p. F.Pins p.first × G.Pins p.second };

    ghost pinned = { λ p k h. pair_pinned (F.pinned p.first k.0 h.0) (G.pinned p.second k.1 h.1) };

    ghost steady = { λ s k. sequence_steady I.lawful (F.steady s.0 k.0) (G.steady s.1 k.1) };
}
