//! A combinator of a user's own: a parser between two runs of another, as what stands between quotes. Its meaning is
//! that of two sequences, and its laws are those of sequences, of the laws of its parts.
ghost use Rattle.std.specs.Prelude.{◌≡◌};
ghost use Rattle.nom_sequence.specs.Sequences.{preceded_of, terminated_of};
ghost use Rattle.nom_sequence.specs.laws.SequenceLaws.{preceded_lawful, preceded_steady, terminated_lawful, terminated_steady};
ghost use Rattle.nom_sequence.specs.Words as Words;

use nom::{Check, Items, OutputM, OutputMode, PResult, Parser, StreamParser};

/// A parser between two runs of another, with its output; made by `around`.
#[derive(Drop)]
pub struct Enclosed<F, G> {
    pub mark: F,
    pub parser: G,
}

/// A parser between two runs of another, with its output; of the marks nothing is built.
pub fn around<F, G>(mark: F, parser: G) -> Enclosed<F, G>
    ensures mark { result.mark ≡ mark }
    ensures parser { result.parser ≡ parser }
{
    Enclosed { mark, parser }
}

impl<I: Items, F: Parser<I> + Drop, G: Parser<I, Error = F::Error> + Drop> Parser<I>
    for Enclosed<F, G> {
    type Output = G::Output;

    type Error = F::Error;

    ghost State = { F.State × G.State };

    ghost state = { λ p. (F.state p.mark, G.state p.parser) };

    ghost Tree = { G.Tree };

    ghost grammar = { λ s. preceded_of I.model (F.grammar s.0) (terminated_of I.model (G.grammar s.1) (F.grammar s.0)) };

    ghost word = { λ s. Words.preceded_of I.model (F.word s.0) (Words.terminated_of I.model (G.word s.1) (F.word s.0)) };

    ghost worded = { λ s. Words.preceded_worded I.model (F.worded s.0) (Words.terminated_worded I.model (G.worded s.1) (F.worded s.0)) };

    fn process<OM: OutputMode>(&mut self, input: I) -> PResult<I, Self::Output, Self::Error> {
        let (rest, _) = self
            .mark
            .process::<OutputM<Check, OM::Error, OM::Incomplete>>(input)?;
        let (rest, output) = self.parser.process::<OM>(rest)?;
        let (rest, _) = self
            .mark
            .process::<OutputM<Check, OM::Error, OM::Incomplete>>(rest)?;
        Ok((rest, output))
    }

    ghost lawful = { λ s k. preceded_lawful I.lawful (F.lawful s.0 k.0) (terminated_lawful I.lawful (G.lawful s.1 k.1.0) (F.lawful s.0 k.1.1)) };
}

impl<I: Items, F: StreamParser<I> + Drop, G: StreamParser<I, Error = F::Error> + Drop> StreamParser<
    I,
> for Enclosed<F, G> {
    ghost Pins = { λ p. G.Pins p.parser };

    ghost pinned = { λ p k h. G.pinned p.parser k.1.0 h };

    ghost steady = { λ s k. preceded_steady I.lawful (F.steady s.0 k.0) (terminated_steady I.lawful (G.steady s.1 k.1.0) (F.steady s.0 k.1.1)) };
}
