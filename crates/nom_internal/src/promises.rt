//! Promises of every parser. These functions do nothing: their contracts are the promises.
ghost use Rattle.nom_internal.specs.Promises.{StaysOnLonger, HasOneOutcome, AcceptsFronts, IsCompleteToo, NeverRunsOut, HasNoFailure, AnswersStay};
ghost use Rattle.nom_internal.specs.Promises.{AnswersComplete};

use crate::parser::{Parser, StreamParser};
use nom_traits::input::Items;

/// A decided streaming outcome on an input is the outcome on every input that extends it.
pub fn stays_on_longer<I: Items, P: StreamParser<I>>(_parser: &P)
    requires { (P.grammar (P.state _parser.now)).meaning.IsSound }
    ensures { StaysOnLonger I.model (P.grammar (P.state _parser.now)).meaning }
{}

/// The answers of `parse` on an input and on an input that extends it agree.
///
/// - An acceptance stays an acceptance of the same length. If the parser pins, the outputs have equal views.
/// - A refusal stays a refusal.
/// - A failure stays a failure, unless the parser fails because the amount lacking is too large.
///   `has_no_failure` can rule this out.
///
/// These promises don't cover `OutOfMemory`.
pub fn answers_stay<I: Items, P: StreamParser<I>>(_parser: &P)
    requires { (P.grammar (P.state _parser.now)).meaning.IsSound }
    ensures { AnswersStay I.model P.Output.view (P.Pins _parser.now) (P.grammar (P.state _parser.now)).IsOutput (P.grammar (P.state _parser.now)).meaning }
{}

/// Inputs that are equal as models have one outcome in each mode, and it is the same for all of them.
pub fn has_one_outcome<I: Items, P: Parser<I>>(_parser: &P)
    requires { (P.grammar (P.state _parser.now)).meaning.IsSound }
    ensures { HasOneOutcome I.model (P.grammar (P.state _parser.now)).meaning }
{}

/// An accepted part is a prefix of the input, and a rest of the input is left.
pub fn accepts_fronts<I: Items, P: Parser<I>>(_parser: &P)
    requires { (P.grammar (P.state _parser.now)).meaning.IsSound }
    ensures { AcceptsFronts I.model (P.grammar (P.state _parser.now)).meaning }
{}

/// If the parser's condition for it holds, a decided streaming outcome is the complete one. The errors of
/// both are the same.
pub fn is_complete_too<I: Items, P: Parser<I>>(_parser: &P)
    requires sound { (P.grammar (P.state _parser.now)).meaning.IsSound }
    requires settles { (P.grammar (P.state _parser.now)).meaning.Settles }
    ensures { IsCompleteToo I.model (P.grammar (P.state _parser.now)).meaning }
{}

/// The answers of `parse` and `parse_complete` on one input agree, if the parser's condition for it holds and
/// the first is decided.
///
/// - Both accept, with equal rests. If the parser pins, the outputs have equal views.
/// - Or both refuse.
/// - Or both fail, unless `parse` fails because the amount lacking is too large.
///
/// The error of either is one that the parser blames in both modes. These promises don't cover `OutOfMemory`.
pub fn answers_complete<I: Items, P: StreamParser<I>>(_parser: &P)
    requires sound { (P.grammar (P.state _parser.now)).meaning.IsSound }
    requires settles { (P.grammar (P.state _parser.now)).meaning.Settles }
    ensures { AnswersComplete I.model P.Output.view (P.Pins _parser.now) (P.grammar (P.state _parser.now)).IsOutput (P.grammar (P.state _parser.now)).meaning }
{}

/// If the parser is frugal, memory never runs out.
pub fn never_runs_out<I: Items, P: Parser<I>>(_parser: &P)
    requires { (P.grammar (P.state _parser.now)).meaning.IsSound }
    ensures { NeverRunsOut I.model (P.grammar (P.state _parser.now)).meaning }
{}

/// If the parser never fails for a cause, it has no failure of that cause.
///
/// The causes are the parser itself, and an amount lacking that is too large.
pub fn has_no_failure<I: Items, P: Parser<I>>(_parser: &P)
    requires { (P.grammar (P.state _parser.now)).meaning.IsSound }
    ensures { HasNoFailure I.model (P.grammar (P.state _parser.now)).meaning }
{}
