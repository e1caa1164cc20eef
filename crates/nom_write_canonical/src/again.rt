//! Outputs that are written again.
ghost use Rattle.std.specs.Prelude.{◌≡◌, ◌≤◌, ◌++◌, IfOk, List, Ok, true, ℕ};
ghost use Rattle.nom_error.specs.Answers.{IResult};
ghost use Rattle.nom_internal.specs.Prelude.{Parses};
ghost use Rattle.nom_sink.specs.Written.{Written};
ghost use Rattle.nom_write_canonical.specs.Forms.{IsWrittenAgain};

use crate::canonical::Canonical;
use nom_error::answer::IResult;
use nom_traits::input::Items;
use nom_write::{Sink, SliceSink, WriteError};
use std::alloc::Allocator;

/// A sink whose bytes can be read.
pub trait ByteSink: Sink<u8> {
    /// The bytes that it holds.
    fn as_bytes(&self) -> &[u8]
        ensures { result.now ≡ Self.model.items self.now };
}

impl<A: Allocator> ByteSink for Vec<u8, A> {
    #[inline(always)]
    fn as_bytes(&self) -> &[u8] {
        self.as_slice()
    }
}

impl<'a> ByteSink for SliceSink<'a, u8> {
    #[inline(always)]
    fn as_bytes(&self) -> &[u8] {
        self.written()
    }
}

/// Writes an output that was parsed: adds the bytes to `out` that were consumed, those of `input` before `rest`. On an error `out`
/// holds what it did.
pub fn write_back<I: Items<Item = u8>, P: Canonical<I>, S: ByteSink>(
    parser: &P,
    input: I,
    rest: I,
    value: &P::Output,
    out: &mut S,
) -> Result<(), WriteError>
    requires can { P.CanWrite parser.now }
    requires canonical { P.IsCanonical parser.now }
    requires read { Parses I.model (P.grammar (P.state parser.now)) true input (Ok (rest, value.now)) }
    ensures written { Written (λ xs. I.model.elements input ≡ xs ++ I.model.elements rest) (P.Fails parser.now value.now) S.model out.old out.new result }
    ensures room { S.model.room out.old ≤ S.model.room out.new }
    ensures loan { S.model.loan out.new ≡ S.model.loan out.old }
{
    input.known();
    match parser.write(value, out) {
        Ok(()) => {
            out.as_bytes().known();
            Ok(())
        }
        Err(error) => Err(error),
    }
}

/// Parses, and writes the output again: adds the bytes to `out` that were consumed. The answer is that of `parse`, with what came of
/// writing beside the output. Where `parse` accepts nothing, or writing fails, `out` holds what it did.
///
/// A call keeps the parser's meaning, and may change the parser. So any parser of that meaning must be one that can write.
pub fn parse_and_write_back<I: Items<Item = u8>, P: Canonical<I>, S: ByteSink>(
    parser: &mut P,
    input: I,
    out: &mut S,
) -> IResult<I, (P::Output, Result<(), WriteError>), P::Error>
    requires runs { (P.grammar (P.state parser.old)).meaning.Runs }
    requires can { (p : P) → P.state p ≡ P.state parser.old → P.CanWrite p }
    requires canonical { (p : P) → P.state p ≡ P.state parser.old → P.IsCanonical p }
    ensures shown { (answer : IResult I P.Output P.Error) × Parses I.model (P.grammar (P.state parser.old)) true input answer ×
        IsWrittenAgain I.model S.model (P.Fails parser.new) out.old out.new input answer result }
    ensures again { IfOk result (λ r. IfOk r.1.1 (λ _. (xs : List ℕ) × (S.model.items out.new ≡ S.model.items out.old ++ xs) ×
        (I.model.elements input ≡ xs ++ I.model.elements r.0))) }
    ensures kept { P.state parser.new ≡ P.state parser.old }
{
    match parser.parse(input) {
        Ok(accepted) => {
            let (rest, value) = accepted;
            let written = write_back::<I, P, S>(parser, input, rest, &value, out);
            Ok((rest, (value, written)))
        }
        Err(error) => Err(error),
    }
}
