//! Texts with escapes, returned as they appear in the input.
ghost use Rattle.std.specs.Prelude.{◌≡◌, ℕ};
ghost use Rattle.nom_internal.specs.Prelude.{Slice, sliced};
ghost use Rattle.nom_bytes_escaped.specs.Escapes.{escaped_meaning};
ghost use Rattle.nom_bytes_escaped.specs.Words as Words;

use crate::next_piece::{NextPiece, piece_at};
use nom_error::answer::{Err, Needed, PResult};
use nom_error::kind::ErrorKind;
use nom_error::mode::{Check, OutputM, OutputMode};
use nom_error::value::refusal;
use nom_internal::built::emitted;
use nom_internal::parser::{Parser, StreamParser};
use nom_internal::slices::before;
use nom_traits::character::AsChar;
use nom_traits::input::Input;

/// The parser that `escaped` returns.
#[derive(Drop)]
pub struct Escaped<F, G> {
    pub normal: F,
    pub control_char: char,
    pub escapable: G,
}

impl<I: Input, F: Parser<I> + Drop, G: Parser<I, Error = F::Error> + Drop> Parser<I>
    for Escaped<F, G>
where
    I::Item: AsChar,
{
    ghost use Rattle.nom_bytes_escaped.specs.laws.EscapeLaws.{escaped_lawful};

    type Output = I;

    type Error = F::Error;

    ghost State = { F.State × ℕ × G.State };

    ghost state = { λ p. (F.state p.normal, p.control_char, G.state p.escapable) };

    ghost Tree = { Slice I.model };

    ghost grammar = { λ s. sliced I.model (escaped_meaning I.model F.Error.errors (λ x. I.Item.code x ≡ s.1) (F.grammar s.0).meaning (G.grammar s.2).meaning) };

    ghost word = { λ s. Words.escaped_of I.model F.Error.errors I.Item.code (F.word s.0) s.1 (G.word s.2) };

    ghost worded = { λ s. Words.escaped_worded I.model F.Error.errors I.Item.code s.1 (F.worded s.0) (G.worded s.2) };

    // Inlined, so that what `normal` takes is a constant: its lists and classes are known where the parser is made.
    #[inline(always)]
    fn process<OM: OutputMode>(&mut self, input: I) -> PResult<I, I, F::Error> {
        input.known();
        let lack = Needed::new(1);
        let mut rest = input;
        loop {
            let (next, next_piece) = piece_at::<OutputM<Check, OM::Error, OM::Incomplete>, I, F, G>(
                &mut self.normal,
                self.control_char,
                &mut self.escapable,
                lack,
                rest,
            )?;
            match emitted(next_piece) {
                NextPiece::Found(_) => {
                    if next.input_len() == rest.input_len() {
                        return Ok((rest, before::<OM::Output, I>(input, rest)));
                    }
                    rest = next;
                }
                NextPiece::Other => {
                    if rest.input_len() == input.input_len() {
                        return Err(refusal::<OM::Error, I, F::Error>(input, ErrorKind::Escaped));
                    }
                    return Ok((rest, before::<OM::Output, I>(input, rest)));
                }
                NextPiece::Dangling => {
                    return Err(refusal::<OM::Error, I, F::Error>(input, ErrorKind::Escaped));
                }
                NextPiece::Done => return Ok((rest, before::<OM::Output, I>(input, rest))),
            }
        }
    }

    ghost lawful = { λ s k. escaped_lawful I.lawful F.Error.errors (λ x. I.Item.code x ≡ s.1) (F.lawful s.0 k.1.0) (G.lawful s.2 k.1.1.1) };
}

impl<I: Input, F: StreamParser<I> + Drop, G: StreamParser<I, Error = F::Error> + Drop> StreamParser<
    I,
> for Escaped<F, G>
where
    I::Item: AsChar,
{
    ghost use Rattle.nom_internal.specs.Pinned.{slice_pinned};
    ghost use Rattle.nom_bytes_escaped.specs.laws.EscapeLaws.{escaped_steady};

    ghost pinned = { λ p k h. slice_pinned I.views };

    ghost steady = { λ s k. escaped_steady I.lawful F.Error.errors (λ x. I.Item.code x ≡ s.1) (F.steady s.0 k.1.0) (G.steady s.2 k.1.1.1) };
}
