//! The places of a permutation's members, and the way a round fills them.
ghost use Rattle.std.specs.Prelude.{◌≡◌, true, false, Option};
ghost use Rattle.nom_internal.specs.Prelude.{modes};
ghost use Rattle.nom_choose.specs.Tries.{Fills, TriesFirst, TriesNext, Tries};
ghost use Rattle.nom_choose.specs.declared.slots.Slot.TheVariants.{Waiting, Applied};

use nom_error::answer::{Err, PResult};
use nom_error::mode::OutputMode;
use nom_internal::choice::join;
use nom_internal::parser::Parser;
use nom_traits::input::Items;

/// A member's place: waiting, or applied with its output if outputs are built.
#[derive(Drop)]
pub enum Slot<O> {
    Waiting,
    Applied(Option<O>),
}

/// The answer of a round: the rest after the member that it applied.
pub type Round<I, E> = Result<I, Err<E, Option<E>>>;

/// Puts an accepted output into its place.
#[inline(always)]
fn fill<I, O: Drop, E>(answer: PResult<I, O, E>, slot: &mut Slot<O>) -> Round<I, E>
    ensures { Fills slot.old answer slot.new result }
{
    match answer {
        Ok((rest, value)) => {
            *slot = Slot::Applied(value);
            Ok(rest)
        }
        Err(fault) => Err(fault),
    }
}

/// Runs the first try of a round.
#[inline(always)]
fn try_first<I: Items, P: Parser<I>, OM: OutputMode>(
    slot: &mut Slot<P::Output>,
    member: &mut P,
    input: I,
) -> Round<I, P::Error>
    requires { (P.grammar (P.state member.old)).meaning.Runs }
    ensures shown { TriesFirst I.model (P.grammar (P.state member.old)).IsOutput (P.grammar (P.state member.old)).meaning
        (modes OM.Output.BUILDS OM.Error.BUILDS OM.Incomplete.STREAMING) input slot.old slot.new result }
    ensures kept { P.state member.new ≡ P.state member.old }
{
    let answer = member.process::<OM>(input);
    fill(answer, slot)
}

/// Runs a try after refusals, whose error is `error`.
#[inline(always)]
fn try_next<I: Items, P: Parser<I>, OM: OutputMode>(
    error: Option<P::Error>,
    slot: &mut Slot<P::Output>,
    member: &mut P,
    input: I,
) -> Round<I, P::Error>
    requires { (P.grammar (P.state member.old)).meaning.Runs }
    ensures shown { TriesNext I.model (P.grammar (P.state member.old)).IsOutput P.Error.errors.joined P.Error.errors.grows
        (P.grammar (P.state member.old)).meaning
        (modes OM.Output.BUILDS OM.Error.BUILDS OM.Incomplete.STREAMING) input error slot.old slot.new result }
    ensures kept { P.state member.new ≡ P.state member.old }
{
    let answer = join(error, member.process::<OM>(input));
    fill(answer, slot)
}

/// Returns whether a member isn't applied yet.
#[inline(always)]
fn is_waiting<O>(slot: &Slot<O>) -> bool
    ensures waiting { result ≡ true → slot.now ≡ Waiting }
    ensures applied { result ≡ false → (b : Option O) × (slot.now ≡ Applied b) }
{
    match slot {
        Slot::Waiting => true,
        Slot::Applied(_) => false,
    }
}

/// Runs one member's part in a round. The round is `None` before its first try.
#[inline(always)]
pub fn try_slot<I: Items, P: Parser<I>, OM: OutputMode>(
    round: Option<Round<I, P::Error>>,
    slot: &mut Slot<P::Output>,
    member: &mut P,
    input: I,
) -> Option<Round<I, P::Error>>
    requires { (P.grammar (P.state member.old)).meaning.Runs }
    ensures shown { Tries I.model (P.grammar (P.state member.old)).IsOutput P.Error.errors.joined P.Error.errors.grows (P.grammar (P.state member.old)).meaning
        (modes OM.Output.BUILDS OM.Error.BUILDS OM.Incomplete.STREAMING) input slot.old round slot.new result }
    ensures kept { P.state member.new ≡ P.state member.old }
{
    // By what the round answered, and then by the place: so an acceptance passes the members after it by
    // without a look at their places.
    match round {
        None => {
            if is_waiting(slot) {
                Some(try_first::<I, P, OM>(slot, member, input))
            } else {
                None
            }
        }
        Some(Ok(rest)) => Some(Ok(rest)),
        Some(Err(Err::Error(error))) => {
            if is_waiting(slot) {
                Some(try_next::<I, P, OM>(error, slot, member, input))
            } else {
                Some(Err(Err::Error(error)))
            }
        }
        Some(Err(Err::Incomplete(needed))) => Some(Err(Err::Incomplete(needed))),
        Some(Err(Err::Failure(error))) => Some(Err(Err::Failure(error))),
        Some(Err(Err::OutOfMemory)) => Some(Err(Err::OutOfMemory)),
    }
}

/// Returns the output that a place holds, if its member is applied.
#[inline(always)]
pub fn taken<O: Drop>(slot: Slot<O>) -> Option<O>
    ensures { (b : Option O) → slot ≡ Applied b → result ≡ b }
{
    match slot {
        Slot::Waiting => None,
        Slot::Applied(value) => value,
    }
}
