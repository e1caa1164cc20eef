//! The choice among the branches of a list.
ghost use Rattle.std.specs.Prelude.{◌≡◌, map};
ghost use Rattle.nom_internal.specs.Prelude.{modes, Shows};
ghost use Rattle.nom_choose.specs.Lists.{list_of};

use nom_error::answer::PResult;
use nom_error::kind::ErrorKind;
use nom_error::mode::OutputMode;
use nom_error::value::refusal;
use nom_internal::choice::{close, next_branch};
use nom_internal::parser::Parser;
use nom_traits::input::Items;

/// Returns the answer of the first branch that doesn't refuse.
#[inline(always)]
pub fn choose<I: Items, A: Parser<I>, OM: OutputMode>(
    branches: &mut [A],
    input: I,
) -> PResult<I, A::Output, A::Error>
    requires { (list_of A.Error.errors A.grammar (map A.state branches.old)).meaning.Runs }
    ensures shown { Shows I.model (list_of A.Error.errors A.grammar (map A.state branches.old))
        (modes OM.Output.BUILDS OM.Error.BUILDS OM.Incomplete.STREAMING) input result }
    ensures kept { map A.state branches.new ≡ map A.state branches.old }
{
    if branches.is_empty() {
        return Err(refusal::<OM::Error, I, A::Error>(input, ErrorKind::Alt));
    }
    let mut answer = branches[0].process::<OM>(input);
    for k in 1..branches.len() {
        answer = next_branch::<I, A, OM>(answer, &mut branches[k], input);
    }
    close(answer, input, ErrorKind::Alt)
}
