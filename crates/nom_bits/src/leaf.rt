//! Parsers of bit fields.
ghost use Rattle.std.specs.Prelude.{◌≡◌, ℕ, Bool};
ghost use Rattle.std.specs.Result.{IfOk};
ghost use Rattle.std.proofs.Common.{sym, ◌∙◌, ap};
ghost use Rattle.nom_internal.specs.Prelude.{modes, bits_model, ShowsMeaning, value_pinned, OfRest, valued};
ghost use Rattle.nom_bits.specs.BitRests.{StandsAfter};
ghost use Rattle.nom_bits.specs.Fields.{take_meaning, tag_meaning, bool_meaning};
ghost use Rattle.nom_bits.specs.laws.FieldLaws.{take_lawful, take_steady, tag_lawful, tag_steady, bool_lawful, bool_steady};
ghost use Rattle.nom_bits.specs.Words as Words;

use crate::field::{next_field, spelling};
use crate::number::{BitUint, number_built};
use nom_error::answer::{Err, Needed, PResult};
use nom_error::kind::ErrorKind;
use nom_error::mode::{IsStreaming, Mode, OutputMode};
use nom_error::value::{ParseError, refusal};
use nom_internal::built::built;
use nom_internal::parser::{Parser, StreamParser};
use nom_traits::input::Input;
use std::marker::PhantomData;

/// The parser that `take` returns: the number in the next `count` bits.
#[derive(Drop)]
pub struct Take<I, O, E> {
    pub count: usize,
    pub types: PhantomData<(I, O, E)>,
}

impl<I: Input<Item = u8>, O: BitUint, E: ParseError<(I, usize)>> Parser<(I, usize)>
    for Take<I, O, E> {
    type Output = O;

    type Error = E;

    ghost State = { ℕ };

    ghost state = { λ p. p.count };

    ghost Tree = { ℕ };

    /// The pair that is left.
    ghost SideCondition = { λ _ old _ i. OfRest (StandsAfter I.model i old.count) };

    ghost grammar = { λ count. record {
      meaning = take_meaning I.model E.errors O.WIDTH count;
      IsOutput = λ t v. v ≡ O.of_bits t;
    } };

    ghost word = { λ count. Words.take_of I.model E.errors O.WIDTH O.of_bits count };

    ghost worded = { λ count. Words.take_worded I.model E.errors O.WIDTH O.of_bits count };

    #[inline(always)]
    fn process<OM: OutputMode>(&mut self, input: (I, usize)) -> PResult<(I, usize), O, E>
        requires runs { (take_meaning I.model E.errors O.WIDTH self.old.count).Runs }
        ensures shown { ShowsMeaning (bits_model I.model) (λ t v. v ≡ O.of_bits t) (take_meaning I.model E.errors O.WIDTH self.old.count)
            (modes OM.Output.BUILDS OM.Error.BUILDS OM.Incomplete.STREAMING) input result }
        ensures kept { self.new.count ≡ self.old.count }
        // The pair that is left.
        ensures pair { IfOk result (λ accepted. StandsAfter I.model input self.old.count accepted.0) }
    {
        match next_field(input, self.count) {
            Some(found) => {
                let number = spelling(found.start, self.count);
                Ok((found.rest, number_built::<OM::Output, O>(number)))
            }
            None if OM::Incomplete::STREAMING => Err(Err::Incomplete(Needed::new(self.count))),
            None => Err(refusal::<OM::Error, (I, usize), E>(input, ErrorKind::Eof)),
        }
    }

    ghost lawful = { λ count k. take_lawful I.model E.errors O.WIDTH count };
}

impl<I: Input<Item = u8>, O: BitUint, E: ParseError<(I, usize)>> StreamParser<(I, usize)>
    for Take<I, O, E> {
    ghost pinned = { λ p k h. record { one_view = λ t a b x y. ap O.view.value (x ∙ sym y) } };

    ghost steady = { λ count k. take_steady I.model E.errors O.WIDTH count };
}

/// The parser that `tag` returns: an expected number in the next `count` bits.
#[derive(Drop)]
pub struct Tag<I, O, E> {
    /// The expected number.
    pub pattern: u128,
    pub count: usize,
    pub types: PhantomData<(I, O, E)>,
}

impl<I: Input<Item = u8>, O: BitUint, E: ParseError<(I, usize)>> Parser<(I, usize)>
    for Tag<I, O, E> {
    type Output = O;

    type Error = E;

    ghost State = { ℕ × ℕ };

    ghost state = { λ p. (p.pattern, p.count) };

    ghost Tree = { ℕ };

    /// The pair that is left.
    ghost SideCondition = { λ _ old _ i. OfRest (StandsAfter I.model i old.count) };

    ghost grammar = { λ s. record {
      meaning = tag_meaning I.model E.errors O.WIDTH s.0 s.1;
      IsOutput = λ t v. v ≡ O.of_bits t;
    } };

    ghost word = { λ s. Words.tag_of I.model E.errors O.WIDTH O.of_bits s.0 s.1 };

    ghost worded = { λ s. Words.tag_worded I.model E.errors O.WIDTH O.of_bits s.0 s.1 };

    #[inline(always)]
    fn process<OM: OutputMode>(&mut self, input: (I, usize)) -> PResult<(I, usize), O, E>
        requires runs { (tag_meaning I.model E.errors O.WIDTH self.old.pattern self.old.count).Runs }
        ensures shown { ShowsMeaning (bits_model I.model) (λ t v. v ≡ O.of_bits t) (tag_meaning I.model E.errors O.WIDTH self.old.pattern self.old.count)
            (modes OM.Output.BUILDS OM.Error.BUILDS OM.Incomplete.STREAMING) input result }
        ensures kept { ◌≡◌ {A = ℕ × ℕ} (self.new.pattern, self.new.count) (self.old.pattern, self.old.count) }
        // The pair that is left.
        ensures pair { IfOk result (λ accepted. StandsAfter I.model input self.old.count accepted.0) }
    {
        match next_field(input, self.count) {
            Some(found) => {
                let number = spelling(found.start, self.count);
                if number == self.pattern {
                    Ok((found.rest, number_built::<OM::Output, O>(number)))
                } else {
                    Err(refusal::<OM::Error, (I, usize), E>(input, ErrorKind::TagBits))
                }
            }
            None if OM::Incomplete::STREAMING => Err(Err::Incomplete(Needed::new(self.count))),
            None => Err(refusal::<OM::Error, (I, usize), E>(input, ErrorKind::Eof)),
        }
    }

    ghost lawful = { λ s k. tag_lawful I.model E.errors O.WIDTH s.0 s.1 };
}

impl<I: Input<Item = u8>, O: BitUint, E: ParseError<(I, usize)>> StreamParser<(I, usize)>
    for Tag<I, O, E> {
    ghost pinned = { λ p k h. record { one_view = λ t a b x y. ap O.view.value (x ∙ sym y) } };

    ghost steady = { λ s k. tag_steady I.model E.errors O.WIDTH s.0 s.1 };
}

/// The parser that `bool` returns: the next bit.
#[derive(Drop)]
pub struct Bool<I, E> {
    pub types: PhantomData<(I, E)>,
}

impl<I: Input<Item = u8>, E: ParseError<(I, usize)>> Parser<(I, usize)> for Bool<I, E> {
    type Output = bool;

    type Error = E;

    ghost State = { Unit {0} };

    ghost state = { λ _. tt };

    ghost Tree = { Bool };

    /// The pair that is left.
    ghost SideCondition = { λ _ _ _ i. OfRest (StandsAfter I.model i 1) };

    ghost grammar = { λ _. valued (bool_meaning I.model E.errors) };

    ghost word = { λ _. Words.bool_of I.model E.errors };

    ghost worded = { λ _. Words.bool_worded I.model E.errors };

    #[inline(always)]
    fn process<OM: OutputMode>(&mut self, input: (I, usize)) -> PResult<(I, usize), bool, E>
        requires runs { (bool_meaning I.model E.errors).Runs }
        ensures shown { ShowsMeaning (bits_model I.model) (λ t v. v ≡ t) (bool_meaning I.model E.errors)
            (modes OM.Output.BUILDS OM.Error.BUILDS OM.Incomplete.STREAMING) input result }
        // The pair that is left.
        ensures pair { IfOk result (λ accepted. StandsAfter I.model input 1 accepted.0) }
    {
        match next_field(input, 1) {
            Some(found) => {
                let number = spelling(found.start, 1);
                Ok((found.rest, built::<OM::Output, bool>(number == 1)))
            }
            None if OM::Incomplete::STREAMING => Err(Err::Incomplete(Needed::new(1))),
            None => Err(refusal::<OM::Error, (I, usize), E>(input, ErrorKind::Eof)),
        }
    }

    ghost lawful = { λ _ k. bool_lawful I.model E.errors };
}

impl<I: Input<Item = u8>, E: ParseError<(I, usize)>> StreamParser<(I, usize)> for Bool<I, E> {
    ghost pinned = { λ p k h. value_pinned };

    ghost steady = { λ _ k. bool_steady I.model E.errors };
}
