//! Promises of reports about choices. These functions do nothing: their contracts are the promises.
ghost use Rattle.std.specs.Prelude.{map};
ghost use Rattle.nom_choose.specs.Lists.{Each};
ghost use Rattle.nom_report.specs.Furthest.{TellsOfEach, TellsOfErrors};
ghost use Rattle.nom_report.specs.Within.{StaysWithin};

use crate::branches::Branches;
use crate::place::Placed;
use crate::value::Report;
use nom_internal::parser::Parser;

/// A report that is made at a rest of an input is neither before the start of the input nor after its end.
///
/// A choice or a context makes reports of reports. If these are in an input, the new report is in it too.
pub fn stays_within<I: Placed>(_input: I)
    ensures { StaysWithin I.model I.place }
{}

/// If a choice among a tuple of parsers refuses, its report is at the furthest place of the reports of its branches.
///
/// It has every expectation of a branch at that place, unless it reports that there were more.
pub fn furthest_of_branches<I: Placed, C: Branches<I>>(_choice: &C)
    requires { (C.grammar (C.state _choice.now)).meaning.IsSound }
    ensures { (s : _) → TellsOfErrors I.place I.model (C.AllRefuse _choice.now s) (C.grammar (C.state _choice.now)).meaning s }
{}

/// Promises the same for a choice among the parsers of a list, which has at least one.
pub fn furthest_of_each<I: Placed, A: Parser<I, Error = Report<I>>>(_branches: &[A])
    requires { Each (λ s. (A.grammar s).meaning.IsSound) (map A.state _branches.now) }
    ensures { (s : _) → TellsOfEach I.place I.model (λ t. (A.grammar t).meaning) (map A.state _branches.now) s }
{}
