//! The rounds of a permutation.
ghost use Rattle.std.specs.Prelude.{◌≡◌};
ghost use Rattle.nom_error.specs.declared.kind.ErrorKind.TheVariants as Kind;
ghost use Rattle.nom_internal.specs.Prelude.{modes, ShowsMeaning};
ghost use Rattle.nom_branch.specs.Members.{AllRun};
ghost use Rattle.nom_branch.specs.Permutation.{permutation_meaning};
ghost use Rattle.nom_branch.specs.Rounds.{FlatOutput};

use crate::members::Nested;
use nom_error::answer::PResult;
use nom_error::kind::ErrorKind;
use nom_error::mode::OutputMode;
use nom_internal::choice::close;
use nom_internal::flat::{Flat, made_flat};
use nom_traits::input::Items;

/// Applies each member once, round by round, and returns their outputs as a flat tuple.
#[inline(always)]
pub fn rounds<I: Items, N: Nested<I>, OM: OutputMode>(
    members: &mut N,
    input: I,
) -> PResult<I, <N::Outputs as Flat>::Tuple, N::Error>
where
    N::Outputs: Flat,
    requires { AllRun (N.members (N.state members.old)) }
    ensures shown { ShowsMeaning I.model (FlatOutput (N.AreOutputs (N.state members.old)) N.Outputs.pairs)
        (permutation_meaning I.model N.Error.errors.joined (λ i. N.Error.errors.appended i Kind.Permutation) N.Error.errors.grows
        (N.members (N.state members.old)) N.none) (modes OM.Output.BUILDS OM.Error.BUILDS OM.Incomplete.STREAMING) input result }
    ensures kept { N.state members.new ≡ N.state members.old }
{
    input.known();
    let mut slots = N::slots();
    let mut rest = input;
    loop {
        match members.round::<OM>(&mut slots, rest) {
            None => return Ok((rest, made_flat(N::outputs(slots)))),
            Some(round) => match close(round, rest, ErrorKind::Permutation) {
                Ok(next) => rest = next,
                Err(fault) => {
                    N::discard(slots);
                    return Err(fault);
                }
            },
        }
    }
}
