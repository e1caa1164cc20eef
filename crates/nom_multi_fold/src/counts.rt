//! The number of items.
ghost use Rattle.std.specs.Prelude.{◌^◌, ◌<◌, ℕ, List};
ghost use Rattle.nom_internal.specs.Prelude.{input_len};
ghost use Rattle.nom_multi_fold.specs.Counts.{many0_count_of, many1_count_of, many_m_n_count_of};
ghost use Rattle.nom_multi_fold.specs.Words as Words;

use crate::dropped::Dropped;
use nom_error::answer::PResult;
use nom_error::kind::ErrorKind;
use nom_error::mode::{Check, OutputMode};
use nom_error::value::ParseError;
use nom_internal::built::built;
use nom_internal::parser::{Parser, StreamParser};
use nom_repeat::accumulator::Accumulator;
use nom_repeat::bounds::{any_items, bounded_items, one_item};
use nom_repeat::inverted::failure;
use nom_repeat::items::TooFew;
use nom_traits::input::{Input, Items};

/// The parser that `many0_count` returns.
#[derive(Drop)]
pub struct Many0Count<F> {
    pub item: Dropped<F>,
}

impl<I: Input, F: Parser<I> + Drop> Parser<I> for Many0Count<F> {
    ghost use Rattle.nom_multi_fold.specs.laws.CountLaws.{many0_count_lawful};

    type Output = usize;

    type Error = F::Error;

    ghost State = { F.State };

    ghost state = { λ p. F.state p.item.parser };

    ghost Tree = { List F.Tree };

    ghost grammar = { λ s. many0_count_of I.model F.Error.errors (F.grammar s) };

    ghost word = { λ s. Words.many0_count_of I.model F.Error.errors (F.word s) };

    ghost worded = { λ s. Words.many0_count_worded I.model F.Error.errors (F.worded s) };

    #[inline]
    fn process<OM: OutputMode>(&mut self, input: I) -> PResult<I, usize, F::Error> {
        fits(input);
        let none = built::<OM::Output, usize>(0);
        any_items::<OM, I, Dropped<F>, usize>(&mut self.item, input, none, ErrorKind::Many0Count)
    }

    ghost lawful = { λ s k. many0_count_lawful I.lawful F.Error.errors (F.lawful s k) };
}

impl<I: Input, F: StreamParser<I> + Drop> StreamParser<I> for Many0Count<F> {
    ghost use Rattle.nom_multi_fold.specs.laws.CountLaws.{number_pinned, many0_count_steady};

    ghost pinned = { λ p k h. number_pinned };

    ghost steady = { λ s k. many0_count_steady I.lawful F.Error.errors (F.steady s k) };
}

/// The parser that `many1_count` returns.
#[derive(Drop)]
pub struct Many1Count<F> {
    pub item: Dropped<F>,
}

impl<I: Input, F: Parser<I> + Drop> Parser<I> for Many1Count<F> {
    ghost use Rattle.nom_multi_fold.specs.laws.CountLaws.{many1_count_lawful};

    type Output = usize;

    type Error = F::Error;

    ghost State = { F.State };

    ghost state = { λ p. F.state p.item.parser };

    ghost Tree = { List F.Tree };

    ghost grammar = { λ s. many1_count_of I.model F.Error.errors (F.grammar s) };

    ghost word = { λ s. Words.many1_count_of I.model F.Error.errors (F.word s) };

    ghost worded = { λ s. Words.many1_count_worded I.model F.Error.errors (F.worded s) };

    #[inline]
    fn process<OM: OutputMode>(&mut self, input: I) -> PResult<I, usize, F::Error> {
        fits(input);
        let none = built::<OM::Output, usize>(0);
        let (rest, first) = one_item::<OM, Check, I, Dropped<F>, usize>(
            &mut self.item,
            input,
            none,
            TooFew::Fresh(ErrorKind::Many1Count),
            true,
        )?;
        any_items::<OM, I, Dropped<F>, usize>(&mut self.item, rest, first, ErrorKind::Many1Count)
    }

    ghost lawful = { λ s k. many1_count_lawful I.lawful F.Error.errors (F.lawful s k.0) };
}

impl<I: Input, F: StreamParser<I> + Drop> StreamParser<I> for Many1Count<F> {
    ghost use Rattle.nom_multi_fold.specs.laws.CountLaws.{counted_pinned, many1_count_steady};

    ghost pinned = { λ p k h. counted_pinned };

    ghost steady = { λ s k. many1_count_steady I.lawful F.Error.errors (F.steady s k.0) };
}

/// The parser that `many_m_n_count` returns.
#[derive(Drop)]
pub struct ManyMNCount<F> {
    pub min: usize,
    pub max: usize,
    pub item: Dropped<F>,
}

impl<I: Input, F: Parser<I> + Drop> Parser<I> for ManyMNCount<F> {
    ghost use Rattle.nom_multi_fold.specs.laws.CountLaws.{many_m_n_count_lawful};

    type Output = usize;

    type Error = F::Error;

    ghost State = { ℕ × ℕ × F.State };

    ghost state = { λ p. (p.min, p.max, F.state p.item.parser) };

    ghost Tree = { List F.Tree };

    ghost grammar = { λ s. many_m_n_count_of I.model F.Error.errors s.0 s.1 (F.grammar s.2) };

    ghost word = { λ s. Words.many_m_n_count_of I.model F.Error.errors s.0 s.1 (F.word s.2) };

    ghost worded = { λ s. Words.many_m_n_count_worded I.model F.Error.errors s.0 s.1 (F.worded s.2) };

    #[inline]
    fn process<OM: OutputMode>(&mut self, input: I) -> PResult<I, usize, F::Error> {
        if self.max < self.min {
            return Err(failure(input, ErrorKind::ManyMN));
        }
        fits(input);
        let none = built::<OM::Output, usize>(0);
        bounded_items::<OM, I, Dropped<F>, usize>(
            &mut self.item,
            input,
            none,
            ErrorKind::ManyMN,
            self.min,
            self.max,
        )
    }

    ghost lawful = { λ s k. many_m_n_count_lawful I.lawful F.Error.errors s.0 s.1 (F.lawful s.2 k) };
}

impl<I: Input, F: StreamParser<I> + Drop> StreamParser<I> for ManyMNCount<F> {
    ghost use Rattle.nom_multi_fold.specs.laws.CountLaws.{number_pinned, many_m_n_count_steady};

    ghost pinned = { λ p k h. number_pinned };

    ghost steady = { λ s k. many_m_n_count_steady I.lawful F.Error.errors s.0 s.1 (F.steady s.2 k) };
}

/// Proves that an input is known, and that its length is a `usize`.
#[inline(always)]
fn fits<I: Input>(input: I)
    ensures known { I.model.IsKnown input }
    ensures fits { input_len I.model input < 2 ^ 64 }
{
    input.known();
    let _length = input.input_len();
}
