//! A value in place of a parser's output, made by a closure that may take memory.
ghost use Rattle.std.specs.Prelude.{Ok};
ghost use Rattle.nom_internal.specs.Prelude.{JudgedSideCondition};
ghost use Rattle.nom_combinator.specs.ValueAlloc.{MakesConsistently, value_alloc_by};
ghost use Rattle.nom_combinator.specs.laws.MapAllocLaws.{map_alloc_lawful, map_alloc_steady};
ghost use Rattle.nom_combinator.specs.laws.ValueAllocLaws.{made_pinned};
ghost use Rattle.nom_combinator.specs.AllocWords as Words;

use nom_error::answer::{Err, OutOfMemory, PResult};
use nom_error::mode::OutputMode;
use nom_internal::parser::{Parser, StreamParser};
use nom_traits::input::Items;
use nom_traits::view::Viewed;

/// The parser that `value_alloc` returns.
///
/// The closure is called only if outputs are built, after the parser accepted.
#[derive(Drop)]
pub struct ValueAlloc<G, F> {
    pub make: G,
    pub parser: F,
}

impl<I: Items, O: Drop, G: Fn() -> Result<O, OutOfMemory>, F: Parser<I> + Drop> Parser<I>
    for ValueAlloc<G, F> {
    type Output = O;

    type Error = F::Error;

    ghost State = { G × F.State };

    ghost state = { λ p. (p.make, F.state p.parser) };

    ghost Tree = { F.Tree };

    ghost grammar = { λ s. value_alloc_by (G.pre s.0) (G.post s.0) (F.grammar s.1) };

    ghost word = { λ s. Words.value_alloc_of (G.pre s.0) (G.post s.0) (F.word s.1) };

    ghost worded = { λ s. Words.value_alloc_worded (G.pre s.0) (G.post s.0) (F.worded s.1) };

    ghost SideCondition = { λ mode old new i. JudgedSideCondition (F.SideCondition mode old.parser new.parser i) };

    #[inline(always)]
    fn process<OM: OutputMode>(&mut self, input: I) -> PResult<I, O, F::Error> {
        let (rest, output) = self.parser.process::<OM>(input)?;
        match output {
            Some(_output) => match (self.make)() {
                Ok(made) => Ok((rest, Some(made))),
                Err(_) => Err(Err::OutOfMemory),
            },
            None => Ok((rest, None)),
        }
    }

    ghost lawful = { λ s k. map_alloc_lawful (λ _. G.post s.0) (F.lawful s.1 k) };
}

impl<
    I: Items,
    O: Viewed + Drop,
    G: Fn() -> Result<O, OutOfMemory>,
    F: StreamParser<I> + Drop,
> StreamParser<I> for ValueAlloc<G, F> {
    ghost Pins = { λ p. MakesConsistently O.view (λ o. G.post p.make (Ok o)) };

    ghost pinned = { λ p k h. made_pinned h };

    ghost steady = { λ s k. map_alloc_steady (λ _. G.post s.0) (F.steady s.1 k) };
}
