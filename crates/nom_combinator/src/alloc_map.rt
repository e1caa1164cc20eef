//! A parser whose outputs are mapped by a closure that may take memory.
ghost use Rattle.std.specs.Prelude.{Ok};
ghost use Rattle.nom_internal.specs.Prelude.{JudgedSideCondition, SeesConsistently};
ghost use Rattle.nom_internal.specs.laws.MappedLaws.{given_pinned};
ghost use Rattle.nom_combinator.specs.MapAlloc.{map_alloc_by};
ghost use Rattle.nom_combinator.specs.laws.MapAllocLaws.{map_alloc_lawful, map_alloc_steady};
ghost use Rattle.nom_internal.specs.Words.{mapping};
ghost use Rattle.nom_combinator.specs.AllocWords as Words;

use nom_error::answer::{Err, OutOfMemory, PResult};
use nom_error::mode::OutputMode;
use nom_internal::parser::{Parser, StreamParser};
use nom_traits::input::Items;
use nom_traits::view::Viewed;

/// The parser that `map_alloc` returns. The closure is called only if outputs are built.
#[derive(Drop)]
pub struct MapAlloc<F, G> {
    pub parser: F,
    pub map: G,
}

impl<I: Items, F: Parser<I> + Drop, O: Drop, G: Fn(F::Output) -> Result<O, OutOfMemory>> Parser<I>
    for MapAlloc<F, G> {
    type Output = O;

    type Error = F::Error;

    ghost State = { F.State × G };

    ghost state = { λ p. (F.state p.parser, p.map) };

    ghost Tree = { F.Tree };

    ghost grammar = { λ s. map_alloc_by (G.pre s.1) (G.post s.1) (F.grammar s.0) };

    ghost word = { λ s. Words.map_alloc_of (mapping (G.pre s.1) (G.post s.1)) (F.word s.0) };

    ghost worded = { λ s. Words.map_alloc_worded (G.pre s.1) (G.post s.1) (F.worded s.0) };

    ghost SideCondition = { λ mode old new i. JudgedSideCondition (F.SideCondition mode old.parser new.parser i) };

    #[inline(always)]
    fn process<OM: OutputMode>(&mut self, input: I) -> PResult<I, O, F::Error> {
        let (rest, output) = self.parser.process::<OM>(input)?;
        match output {
            Some(output) => match (self.map)(output) {
                Ok(mapped) => Ok((rest, Some(mapped))),
                Err(_) => Err(Err::OutOfMemory),
            },
            None => Ok((rest, None)),
        }
    }

    ghost lawful = { λ s k. map_alloc_lawful (G.post s.1) (F.lawful s.0 k) };
}

impl<
    I: Items,
    F: StreamParser<I> + Drop,
    O: Viewed + Drop,
    G: Fn(F::Output) -> Result<O, OutOfMemory>,
> StreamParser<I> for MapAlloc<F, G> {
    ghost Pins = { λ p. F.Pins p.parser × SeesConsistently F.Output.view O.view (λ a o. G.post p.map a (Ok o)) };

    ghost pinned = { λ p k h. given_pinned (F.pinned p.parser k h.0) h.1 };

    ghost steady = { λ s k. map_alloc_steady (G.post s.1) (F.steady s.0 k) };
}
