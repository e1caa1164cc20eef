//! A parser whose outputs a closure maps.
ghost use Rattle.nom_internal.specs.Closures.{SeesConsistently};
ghost use Rattle.nom_internal.specs.Mapped.{map_by};
ghost use Rattle.nom_internal.specs.laws.MappedLaws.{given_pinned, map_lawful, map_steady};
ghost use Rattle.nom_internal.specs.Words as Words;

use crate::parser::{Parser, StreamParser};
use nom_error::answer::PResult;
use nom_error::mode::OutputMode;
use nom_traits::input::Items;
use nom_traits::view::Viewed;

/// The parser that `map` returns. A closure maps its outputs, and is called only if outputs are built.
#[derive(Drop)]
pub struct Map<F, G> {
    pub parser: F,
    pub map: G,
}

impl<I: Items, A: Drop, F: Parser<I, Output = A> + Drop, O: Drop, G: Fn(A) -> O> Parser<I>
    for Map<F, G> {
    type Output = O;

    type Error = F::Error;

    ghost State = { F.State × G };

    ghost state = { λ p. (F.state p.parser, p.map) };

    ghost Tree = { F.Tree };

    ghost grammar = { λ s. map_by (G.pre s.1) (G.post s.1) (F.grammar s.0) };

    ghost word = { λ s. Words.map_of (Words.mapping (G.pre s.1) (G.post s.1)) (F.word s.0) };

    ghost worded = { λ s. Words.map_worded (G.pre s.1) (G.post s.1) (F.worded s.0) };

    ghost SideCondition = { λ mode old new. F.SideCondition mode old.parser new.parser };

    #[inline(always)]
    fn process<OM: OutputMode>(&mut self, input: I) -> PResult<I, O, F::Error> {
        let (rest, output) = self.parser.process::<OM>(input)?;
        match output {
            Some(output) => Ok((rest, Some((self.map)(output)))),
            None => Ok((rest, None)),
        }
    }

    #[inline(always)]
    fn width(&self) -> usize {
        self.parser.width()
    }

    ghost lawful = { λ s k. map_lawful (F.lawful s.0 k) };
}

impl<
    I: Items,
    A: Viewed + Drop,
    F: StreamParser<I, Output = A> + Drop,
    O: Viewed + Drop,
    G: Fn(A) -> O,
> StreamParser<I> for Map<F, G> {
    ghost Pins = { λ p. F.Pins p.parser × SeesConsistently A.view O.view (G.post p.map) };

    ghost pinned = { λ p k h. given_pinned (F.pinned p.parser k h.0) h.1 };

    ghost steady = { λ s k. map_steady (F.steady s.0 k) };
}
