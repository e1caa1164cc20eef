//! Words in place of a decimal fraction.
ghost use Rattle.std.specs.Prelude.{◌⊎◌};
ghost use Rattle.nom_internal.specs.Prelude.{Slice};
ghost use Rattle.nom_number_text.specs.Exceptions.{exceptions_of};
ghost use Rattle.nom_number_text.specs.laws.WordLaws.{exceptions_lawful, exceptions_steady, exceptions_pinned};
ghost use Rattle.nom_number_text.specs.Words as Words;

use crate::word::{Exception, Word};
use nom_error::answer::PResult;
use nom_error::kind::ErrorKind;
use nom_error::mode::OutputMode;
use nom_error::value::ParseError;
use nom_internal::choice::{close, next_branch};
use nom_internal::parser::{Parser, StreamParser};
use nom_traits::character::AsChar;
use nom_traits::input::Input;
use std::marker::PhantomData;

/// The parser that `recognize_float_or_exceptions` returns: `parser`, or, if it refuses, `nan`, `infinity` or
/// `inf`.
#[derive(Drop)]
pub struct OrExceptions<F> {
    pub parser: F,
}

impl<I: Input, F: Parser<I, Output = I> + Drop> Parser<I> for OrExceptions<F>
where
    I::Item: AsChar,
{
    type Output = I;

    type Error = F::Error;

    ghost State = { F.State };

    ghost state = { λ p. F.state p.parser };

    // The branch that is taken, and its tree.
    ghost Tree = { ((F.Tree ⊎ Slice I.model) ⊎ Slice I.model) ⊎ Slice I.model };

    ghost grammar = { λ s. exceptions_of I.model I.Item.code F.Error.errors (F.grammar s) };

    ghost word = { λ s. Words.exceptions_of I.model F.Error.errors I.Item.code (F.word s) };

    ghost worded = { λ s. Words.exceptions_worded I.model F.Error.errors I.Item.code (F.worded s) };

    #[inline(always)]
    fn process<OM: OutputMode>(&mut self, input: I) -> PResult<I, I, F::Error> {
        let mut nan = Word::<I, F::Error> {
            word: Exception::Nan,
            error: PhantomData,
        };
        let mut infinity = Word::<I, F::Error> {
            word: Exception::Infinity,
            error: PhantomData,
        };
        let mut inf = Word::<I, F::Error> {
            word: Exception::Inf,
            error: PhantomData,
        };
        let answer = self.parser.process::<OM>(input);
        let answer = next_branch::<I, Word<I, F::Error>, OM>(answer, &mut nan, input);
        let answer = next_branch::<I, Word<I, F::Error>, OM>(answer, &mut infinity, input);
        let answer = next_branch::<I, Word<I, F::Error>, OM>(answer, &mut inf, input);
        close(answer, input, ErrorKind::Alt)
    }

    ghost lawful = { λ s k. exceptions_lawful I.model I.Item.code F.Error.errors (F.lawful s k.0.0.0) };
}

impl<I: Input, F: StreamParser<I, Output = I> + Drop> StreamParser<I> for OrExceptions<F>
where
    I::Item: AsChar,
{
    ghost Pins = { λ p. F.Pins p.parser };

    ghost pinned = { λ p k h. exceptions_pinned I.views (F.pinned p.parser k.0.0.0 h) };

    ghost steady = { λ s k. exceptions_steady I.model I.Item.code F.Error.errors (F.steady s k.0.0.0) };
}
