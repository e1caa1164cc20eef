//! Numbers in hexadecimal digits.
ghost use Rattle.std.specs.Prelude.{◌≡◌, ◌≤◌, ◌<◌, ℕ, length, take};
ghost use Rattle.nom_internal.specs.Prelude.{Built, value_pinned, valued};
ghost use Rattle.nom_number_text.specs.Hex.{hex_value, hex_number, hex_meaning};
ghost use Rattle.nom_number_text.specs.laws.HexLaws.{hex_stream};
ghost use Rattle.nom_number_text.specs.Words as Words;

use nom_character::ClassRun;
use nom_error::answer::PResult;
use nom_error::kind::ErrorKind;
use nom_error::mode::{Emit, Mode, OutputM, OutputMode};
use nom_error::value::ParseError;
use nom_internal::parser::{Parser, StreamParser};
use nom_traits::character::{AsChar, AsciiClass};
use nom_traits::input::Input;
use std::marker::PhantomData;

/// Returns the value of an item as a hexadecimal digit, or 0 if it isn't one.
#[inline(always)]
fn digit_of<C: AsChar>(item: C) -> u32
    ensures { result ≡ hex_value (C.code item) }
{
    let code = item.as_char() as u32;
    if 48 <= code && code <= 57 {
        code - 48
    } else if 65 <= code && code <= 70 {
        code - 55
    } else if 97 <= code && code <= 102 {
        code - 87
    } else {
        0
    }
}

/// Returns the number that at most eight hexadecimal digits write.
#[inline(always)]
fn number_of<I: Input>(digits: I) -> u32
where
    I::Item: AsChar,
    requires { length (I.model.elements digits) ≤ 8 }
    ensures { result ≡ hex_number I.Item.code (I.model.elements digits) }
{
    let mut value = 0u32;
    for item in digits.iter_elements() {
        let digit = digit_of(item);
        value = 16 * value + digit;
    }
    value
}

/// Returns the first eight items of the input, or all if there are fewer.
#[inline(always)]
fn first_eight<I: Input>(digits: I) -> I
    ensures items { I.model.elements result ≡ take 8 (I.model.elements digits) }
{
    match digits.slice_index(8) {
        Ok(n) => digits.take(n),
        Err(_) => digits,
    }
}

/// Returns the number that at most eight hexadecimal digits write, if outputs are built.
#[inline(always)]
fn number_built<M: Mode, I: Input>(digits: I) -> Option<u32>
where
    I::Item: AsChar,
    requires { length (I.model.elements digits) ≤ 8 }
    ensures { Built M.BUILDS (λ v. v ≡ hex_number I.Item.code (I.model.elements digits)) result }
{
    if M::BUILDS {
        Some(number_of(digits))
    } else {
        None
    }
}

/// A parser of a number of at most eight hexadecimal digits.
#[derive(Drop)]
pub struct HexU32<I, E> {
    pub error: PhantomData<(I, E)>,
}

impl<I: Input, E: ParseError<I>> Parser<I> for HexU32<I, E>
where
    I::Item: AsChar,
{
    type Output = u32;

    type Error = E;

    ghost State = { Unit {0} };

    ghost state = { λ _. tt };

    ghost Tree = { ℕ };

    ghost grammar = { λ _. valued (hex_meaning I.model I.Item.code E.errors) };

    ghost word = { λ _. Words.hex_u32_of I.model E.errors I.Item.code };

    ghost worded = { λ _. Words.hex_u32_worded I.model E.errors I.Item.code };

    #[inline(always)]
    fn process<OM: OutputMode>(&mut self, input: I) -> PResult<I, u32, E> {
        let mut run = ClassRun::<I, E> {
            class: AsciiClass::HexDigit,
            wanted: Some(ErrorKind::IsA),
            error: PhantomData,
        };
        let (_, run) = run.process::<OutputM<Emit, OM::Error, OM::Incomplete>>(input)?;
        let digits = match run {
            Some(run) => first_eight(run),
            None => unreachable!(),
        };
        let rest = input.take_from(digits.input_len());
        Ok((rest, number_built::<OM::Output, I>(digits)))
    }

    ghost lawful = { λ _ k. (hex_stream I.model I.Item.code I.Item.IsValue I.values E.errors).lawful };
}

impl<I: Input, E: ParseError<I>> StreamParser<I> for HexU32<I, E>
where
    I::Item: AsChar,
{
    ghost pinned = { λ p k h. value_pinned };

    ghost steady = { λ _ k. (hex_stream I.model I.Item.code I.Item.IsValue I.values E.errors).steady };
}
