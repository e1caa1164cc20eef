//! Data after a length.
ghost use Rattle.nom_internal.specs.Prelude.{Slice};
ghost use Rattle.nom_multi.specs.Lengths.{length_data_of};
ghost use Rattle.nom_multi.specs.LengthWords as Words;

use nom_bytes::take;
use nom_error::answer::PResult;
use nom_error::mode::{Emit, OutputM, OutputMode};
use nom_error::value::ParseError;
use nom_internal::parser::{Parser, StreamParser};
use nom_traits::convert::ToUsize;
use nom_traits::input::{Input, Items};

/// The parser that `length_data` returns: a length, and that many items after it.
#[derive(Drop)]
pub struct LengthData<F> {
    pub parser: F,
}

impl<I: Input, F: Parser<I, Output: ToUsize> + Drop> Parser<I> for LengthData<F> {
    ghost use Rattle.nom_multi.specs.laws.LengthLaws.{length_data_lawful};

    type Output = I;

    type Error = F::Error;

    ghost State = { F.State };

    ghost state = { λ p. F.state p.parser };

    // The tree of the length, and the items.
    ghost Tree = { F.Tree × Slice I.model };

    ghost grammar = { λ s. length_data_of I.model F.Error.errors I.lack F.Output.size (F.grammar s) };

    ghost word = { λ s. Words.length_data_of I.model F.Error.errors I.lack F.Output.size (F.word s) };

    ghost worded = { λ s. Words.length_data_worded I.model F.Error.errors I.lack F.Output.size (F.worded s) };

    #[inline(always)]
    fn process<OM: OutputMode>(&mut self, input: I) -> PResult<I, I, F::Error> {
        let (rest, length) = self
            .parser
            .process::<OutputM<Emit, OM::Error, OM::Incomplete>>(input)?;
        match length {
            Some(length) => {
                let mut data = take::<F::Output, I, F::Error>(length);
                data.process::<OM>(rest)
            }
            None => unreachable!(),
        }
    }

    ghost lawful = { λ s k. length_data_lawful I.lawful F.Error.errors I.lack k.1.1 (F.lawful s k.0) };
}

impl<I: Input, F: StreamParser<I, Output: ToUsize> + Drop> StreamParser<I> for LengthData<F> {
    ghost use Rattle.nom_internal.specs.Pinned.{slice_pinned};
    ghost use Rattle.nom_multi.specs.laws.LengthLaws.{length_data_steady};

    ghost pinned = { λ p k h. record { one_view = λ t. (slice_pinned I.views).one_view t.1 } };

    ghost steady = { λ s k. length_data_steady I.lawful F.Error.errors I.lack k.1.1 (F.steady s k.0) };
}
