//! Numbers in a bounded count of digits, in any base.
ghost use Rattle.std.specs.Prelude.{◌≡◌, ◌<◌, ◌≤◌, ◌+◌, ◌*◌, ◌-◌, ℕ, max, false, true, MatchOption};
ghost use Rattle.std.proofs.Common.{sym, ◌∙◌, ap};
ghost use Rattle.std.specs.Char.{digit_value};
ghost use Rattle.nom_internal.specs.Prelude.{Built};
ghost use Rattle.nom_character_integer.specs.CountedDigits.{digits_meaning, is_digit_in};
ghost use Rattle.nom_character_integer.specs.CountedRead.{IsRun, IsTooGreat};
ghost use Rattle.nom_character_integer.specs.laws.DigitsLaws.{digits_lawful, digits_steady};
ghost use Rattle.nom_character_integer.specs.DigitWords as Words;

use nom_error::answer::{Err, Needed, PResult};
use nom_error::kind::ErrorKind;
use nom_error::mode::{IsStreaming, Mode, OutputMode};
use nom_error::value::{ParseError, refusal};
use nom_internal::parser::{Parser, StreamParser};
use nom_traits::character::AsChar;
use nom_traits::input::Input;
use nom_traits::view::Viewed;
use std::marker::PhantomData;

/// An unsigned integer of at most 64 bits.
pub trait Unsigned: Viewed + Drop {
    ghost GREATEST: { ℕ };

    /// The greatest number of the type.
    const GREATEST: u64;

    /// The value of a number.
    ghost of_number: { ℕ → Self };

    /// Returns the value of a number.
    fn from_number(number: u64) -> Self
        requires { number ≤ GREATEST }
        ensures { result ≡ of_number number };
}

impl Unsigned for u8 {
    ghost GREATEST = { 255 };

    const GREATEST: u64 = 255;

    ghost of_number = { λ n. n };

    #[inline(always)]
    fn from_number(number: u64) -> u8 {
        number as u8
    }
}

impl Unsigned for u16 {
    ghost GREATEST = { 65_535 };

    const GREATEST: u64 = 65_535;

    ghost of_number = { λ n. n };

    #[inline(always)]
    fn from_number(number: u64) -> u16 {
        number as u16
    }
}

impl Unsigned for u32 {
    ghost GREATEST = { 4_294_967_295 };

    const GREATEST: u64 = 4_294_967_295;

    ghost of_number = { λ n. n };

    #[inline(always)]
    fn from_number(number: u64) -> u32 {
        number as u32
    }
}

impl Unsigned for u64 {
    ghost GREATEST = { 18_446_744_073_709_551_615 };

    const GREATEST: u64 = 18_446_744_073_709_551_615;

    ghost of_number = { λ n. n };

    #[inline(always)]
    fn from_number(number: u64) -> u64 {
        number
    }
}

/// Returns the value of an item that is a digit of the base.
#[inline(always)]
fn digit_of<C: AsChar>(item: C, base: u32) -> Option<u32>
    ensures { MatchOption result (is_digit_in base (C.code item) ≡ false) (λ d. (is_digit_in base (C.code item) ≡ true) × (d ≡ digit_value (C.code item))) }
{
    let code = item.as_char() as u32;
    let value = match code {
        48..=57 => code - 48,
        65..=90 => code - 55,
        97..=122 => code - 87,
        _ => return None,
    };
    if value < base { Some(value) } else { None }
}

/// Returns `value` with one more digit appended, or `None` if that is above the greatest number.
#[inline(always)]
fn followed_by(value: u64, digit: u32, base: u32, greatest: u64) -> Option<u64>
    ensures { MatchOption result (greatest < value * base + digit) (λ more. (more ≡ value * base + digit) × (more ≤ greatest)) }
{
    let more = value.checked_mul(base as u64)?.checked_add(digit as u64)?;
    if more <= greatest { Some(more) } else { None }
}

/// The digits at the start of an input.
#[derive(Drop)]
pub struct Run {
    /// The number that they write.
    pub value: u64,
    /// The length of the digits.
    pub length: usize,
    /// The count of the digits.
    pub count: usize,
    /// Whether no digit can follow: another item does, or there are as many as allowed.
    pub ended: bool,
}

/// Returns the digits at the start, at most `most` of them, or `None` if their number is above `greatest`.
#[inline(always)]
fn run_at<I: Input>(input: I, base: u32, most: usize, greatest: u64) -> Option<Run>
where
    I::Item: AsChar,
    ensures { MatchOption result (IsTooGreat I.model I.Item.code base most greatest input) (IsRun I.model I.Item.code base most greatest input) }
{
    if most == 0 {
        return Some(Run {
            value: 0,
            length: 0,
            count: 0,
            ended: true,
        });
    }
    let _whole = input.input_len();
    let mut value = 0u64;
    let mut length = 0usize;
    let mut count = 0usize;
    for item in input.iter_elements() {
        match digit_of(item, base) {
            None => {
                return Some(Run {
                    value,
                    length,
                    count,
                    ended: true,
                });
            }
            Some(digit) => match followed_by(value, digit, base, greatest) {
                None => return None,
                Some(more) => value = more,
            },
        }
        length += input.item_len(&item);
        count += 1;
        if count == most {
            return Some(Run {
                value,
                length,
                count,
                ended: true,
            });
        }
    }
    Some(Run {
        value,
        length,
        count,
        ended: false,
    })
}

/// Returns how much `count` is short of `least`, and at least 1.
#[inline(always)]
fn lack(least: usize, count: usize) -> usize
    ensures { result ≡ max 1 (least - count) }
{
    if least > count { least - count } else { 1 }
}

/// Returns the value of a number, if outputs are built.
#[inline(always)]
fn built<M: Mode, T: Unsigned>(number: u64) -> Option<T>
    requires { number ≤ T.GREATEST }
    ensures { Built M.BUILDS (λ x. x ≡ T.of_number number) result }
{
    if M::BUILDS {
        Some(T::from_number(number))
    } else {
        None
    }
}

/// The parser that `digits` and `digits_m_n` return: a number in `m` to `n` digits, of the type `T`.
#[derive(Drop)]
pub struct Digits<T, I, E> {
    /// The base.
    pub radix: u32,
    /// The least count of digits.
    pub m: usize,
    /// The greatest count of digits.
    pub n: usize,
    /// The types of the number, of the input and of the error.
    pub types: PhantomData<(T, I, E)>,
}

impl<I: Input, T: Unsigned, E: ParseError<I>> Parser<I> for Digits<T, I, E>
where
    I::Item: AsChar,
{
    type Output = T;

    type Error = E;

    ghost State = { ℕ × ℕ × ℕ };

    ghost state = { λ p. (p.radix, p.m, p.n) };

    ghost Tree = { ℕ };

    ghost grammar = { λ s. record {
      meaning = digits_meaning I.model I.Item.code s.0 s.1 s.2 T.GREATEST E.errors;
      IsOutput = λ v x. x ≡ T.of_number v;
    } };

    ghost word = { λ s. Words.digits_of I.model E.errors I.Item.code T.of_number T.GREATEST s.0 s.1 s.2 };

    ghost worded = { λ s. Words.digits_worded I.model E.errors I.Item.code T.of_number T.GREATEST s.0 s.1 s.2 };

    #[inline(always)]
    fn process<OM: OutputMode>(&mut self, input: I) -> PResult<I, T, E> {
        match run_at::<I>(input, self.radix, self.n, T::GREATEST) {
            None => Err(refusal::<OM::Error, I, E>(input, ErrorKind::Digit)),
            Some(run) if !run.ended && OM::Incomplete::STREAMING => {
                Err(Err::Incomplete(Needed::new(lack(self.m, run.count))))
            }
            Some(run) if run.count < self.m => {
                Err(refusal::<OM::Error, I, E>(input, ErrorKind::Digit))
            }
            Some(run) => Ok((
                input.take_from(run.length),
                built::<OM::Output, T>(run.value),
            )),
        }
    }

    ghost lawful = { λ s k. digits_lawful I.model I.Item.code s.0 s.1 s.2 T.GREATEST E.errors };
}

impl<I: Input, T: Unsigned, E: ParseError<I>> StreamParser<I> for Digits<T, I, E>
where
    I::Item: AsChar,
{
    ghost pinned = { λ p k h. record { one_view = λ t x y f g. ap T.view.value (f ∙ sym g) } };

    ghost steady = { λ s k. digits_steady I.model I.Item.code s.0 s.1 s.2 T.GREATEST E.errors };
}
