//! The promises of a permutation, in addition to those of every parser. The function does nothing: its
//! contract is the promise.
ghost use Rattle.nom_branch.specs.Once.{AcceptsEachOrder, AppliesEachOnce};
ghost use Rattle.nom_branch.specs.Permutation.{once_each_of};

use crate::members::Nested;
use crate::permutations::OnceEach;
use nom_internal::flat::Flat;
use nom_traits::input::Items;

/// A permutation accepts exactly the inputs that its members accept in turn, each once.
///
/// At each turn, the first member that isn't applied yet and accepts is applied. At the end all members are
/// applied.
pub fn applies_each_once<I: Items, N: Nested<I>>(_parser: &OnceEach<N>)
where
    N::Outputs: Flat,
    ensures once { AppliesEachOnce I.model (N.members (N.state _parser.now.members)) N.none
        (once_each_of I.model N.Error.errors (N.members (N.state _parser.now.members)) N.none
        (N.AreOutputs (N.state _parser.now.members)) N.Outputs.pairs).meaning }
    ensures every { AcceptsEachOrder I.model (N.members (N.state _parser.now.members)) N.none
        (once_each_of I.model N.Error.errors (N.members (N.state _parser.now.members)) N.none
        (N.AreOutputs (N.state _parser.now.members)) N.Outputs.pairs).meaning }
{}
