//! Exactly n items, or a number of items within bounds.
ghost use Rattle.std.specs.Prelude.{ℕ, List};
ghost use Rattle.nom_multi.specs.Bounded.{count_of, many_m_n_of};
ghost use Rattle.nom_multi.specs.Words as Words;

use nom_error::answer::{Err, PResult};
use nom_error::kind::ErrorKind;
use nom_error::mode::OutputMode;
use nom_error::value::ParseError;
use nom_internal::parser::{Parser, StreamParser};
use nom_repeat::ahead::list_ahead;
use nom_repeat::bounds::bounded_items;
use nom_repeat::exact::items_exactly;
use nom_repeat::inverted::failure;
use nom_traits::input::{Input, Items};
use std::alloc::Allocator;

/// The parser that `count` returns: exactly n items.
#[derive(Drop)]
pub struct Count<A, F> {
    pub alloc: A,
    pub parser: F,
    pub count: usize,
}

impl<I: Items, A: Allocator + Copy, F: Parser<I> + Drop> Parser<I> for Count<A, F> {
    ghost use Rattle.nom_multi.specs.laws.BoundedLaws.{count_lawful};

    type Output = Vec<F::Output, A>;

    type Error = F::Error;

    ghost State = { ℕ × F.State };

    ghost state = { λ p. (p.count, F.state p.parser) };

    ghost Tree = { List F.Tree };

    ghost grammar = { λ s. count_of I.model F.Error.errors s.0 (F.grammar s.1) };

    ghost word = { λ s. Words.count_of I.model F.Error.errors s.0 (F.word s.1) };

    ghost worded = { λ s. Words.count_worded I.model F.Error.errors s.0 (F.worded s.1) };

    #[inline]
    fn process<OM: OutputMode>(&mut self, input: I) -> PResult<I, Self::Output, Self::Error> {
        match list_ahead::<OM, I, F, A>(&mut self.parser, input, self.alloc, self.count) {
            Ok(none) => items_exactly::<OM, I, F, A>(&mut self.parser, input, none, self.count),
            Err(_) => Err(Err::OutOfMemory),
        }
    }

    ghost lawful = { λ s k. count_lawful I.lawful F.Error.errors s.0 (F.lawful s.1 k) };
}

impl<I: Items, A: Allocator + Copy, F: StreamParser<I> + Drop> StreamParser<I> for Count<A, F> {
    ghost use Rattle.nom_repeat.specs.Lists.{list_pinned};
    ghost use Rattle.nom_multi.specs.laws.BoundedLaws.{count_steady};

    ghost Pins = { λ p. F.Pins p.parser };

    ghost pinned = { λ p k h. list_pinned (F.pinned p.parser k h) };

    ghost steady = { λ s k. count_steady I.lawful F.Error.errors s.0 (F.steady s.1 k) };
}

/// The parser that `many_m_n` returns: items until one is refused, within the bounds.
#[derive(Drop)]
pub struct ManyMN<A, F> {
    pub alloc: A,
    pub min: usize,
    pub max: usize,
    pub parser: F,
}

impl<I: Input, A: Allocator + Copy, F: Parser<I> + Drop> Parser<I> for ManyMN<A, F> {
    ghost use Rattle.nom_multi.specs.laws.BoundedLaws.{many_m_n_lawful};

    type Output = Vec<F::Output, A>;

    type Error = F::Error;

    ghost State = { ℕ × ℕ × F.State };

    ghost state = { λ p. (p.min, p.max, F.state p.parser) };

    ghost Tree = { List F.Tree };

    ghost grammar = { λ s. many_m_n_of I.model F.Error.errors s.0 s.1 (F.grammar s.2) };

    ghost word = { λ s. Words.many_m_n_of I.model F.Error.errors s.0 s.1 (F.word s.2) };

    ghost worded = { λ s. Words.many_m_n_worded I.model F.Error.errors s.0 s.1 (F.worded s.2) };

    #[inline]
    fn process<OM: OutputMode>(&mut self, input: I) -> PResult<I, Self::Output, Self::Error> {
        if self.max < self.min {
            return Err(failure(input, ErrorKind::ManyMN));
        }
        match list_ahead::<OM, I, F, A>(&mut self.parser, input, self.alloc, self.max) {
            Ok(none) => bounded_items::<OM, I, F, Vec<F::Output, A>>(
                &mut self.parser,
                input,
                none,
                ErrorKind::ManyMN,
                self.min,
                self.max,
            ),
            Err(_) => Err(Err::OutOfMemory),
        }
    }

    ghost lawful = { λ s k. many_m_n_lawful I.lawful F.Error.errors s.0 s.1 (F.lawful s.2 k) };
}

impl<I: Input, A: Allocator + Copy, F: StreamParser<I> + Drop> StreamParser<I> for ManyMN<A, F> {
    ghost use Rattle.nom_repeat.specs.Lists.{list_pinned};
    ghost use Rattle.nom_multi.specs.laws.BoundedLaws.{many_m_n_steady};

    ghost Pins = { λ p. F.Pins p.parser };

    ghost pinned = { λ p k h. list_pinned (F.pinned p.parser k h) };

    ghost steady = { λ s k. many_m_n_steady I.lawful F.Error.errors s.0 s.1 (F.steady s.2 k) };
}
