//! Binary integers.
ghost use Rattle.std.specs.Prelude.{◌≡◌, ◌<◌, ◌∷◌, ℕ, List, length};
ghost use Rattle.nom_internal.specs.Prelude.{Built, value_pinned, value_of, valued};
ghost use Rattle.nom_internal.specs.laws.CaseLaws.{labelled_lawful, labelled_steady};
ghost use Rattle.nom_bytes.specs.laws.TakeLaws.{take_lawful, take_steady};
ghost use Rattle.nom_number.specs.declared.order.Endianness.{Endianness};
ghost use Rattle.nom_number.specs.Numbers.{bytes_lack, number_meaning};
ghost use Rattle.nom_number.specs.Words as Words;

use nom_error::answer::{Err, Needed, PResult};
use nom_error::kind::ErrorKind;
use nom_error::mode::{IsStreaming, Mode, OutputMode};
use nom_error::value::{ParseError, refusal};
use nom_internal::parser::{Parser, StreamParser};
use nom_traits::input::Input;
use std::marker::PhantomData;

/// Returns the first byte of the input, if outputs are built.
#[inline(always)]
fn first_byte<M: Mode, I: Input<Item = u8>>(input: I) -> Option<u8>
    requires { 0 < length (I.model.elements input) }
    ensures { Built M.BUILDS (λ b. (rest : List ℕ) × (I.model.elements input ≡ b ∷ rest)) result }
{
    if M::BUILDS {
        input.iter_elements().next()
    } else {
        None
    }
}

/// The parser that `be_u8` returns: one byte as a number.
#[derive(Drop)]
pub struct BeU8<I, E> {
    pub error: PhantomData<(I, E)>,
}

impl<I: Input<Item = u8>, E: ParseError<I>> Parser<I> for BeU8<I, E> {
    type Output = u8;

    type Error = E;

    ghost State = { Unit {0} };

    ghost state = { λ _. tt };

    ghost Tree = { ℕ };

    ghost grammar = { λ _. valued (number_meaning I.model E.errors (value_of 256) 1) };

    ghost word = { λ _. Words.number_of I.model E.errors (λ n. n) Endianness.Big 1 };

    ghost worded = { λ _. Words.number_worded I.model E.errors (λ n. n) Endianness.Big 1 };

    #[inline(always)]
    fn process<OM: OutputMode>(&mut self, input: I) -> PResult<I, u8, E> {
        match input.slice_index(1) {
            Ok(n) => Ok((input.take_from(n), first_byte::<OM::Output, I>(input))),
            Err(_) if OM::Incomplete::STREAMING => Err(Err::Incomplete(Needed::new(1))),
            Err(_) => Err(refusal::<OM::Error, I, E>(input, ErrorKind::Eof)),
        }
    }

    #[inline(always)]
    fn width(&self) -> usize {
        1
    }

    ghost lawful = { λ _ k. labelled_lawful (take_lawful I.model E.errors (bytes_lack I.model) 1) };
}

impl<I: Input<Item = u8>, E: ParseError<I>> StreamParser<I> for BeU8<I, E> {
    ghost pinned = { λ p k h. value_pinned };

    ghost steady = { λ _ k. labelled_steady (take_steady I.model E.errors (bytes_lack I.model) 1) };
}
