//! The promises that a caller has of any sound parser that settles, whatever it is made of.
ghost use Rattle.nom_internal.specs.Promises.{AcceptsFronts, AnswersStay, HasNoFailure, HasOneOutcome, IsCompleteToo, NeverRunsOut, StaysOnLonger};

use nom::promises::{
    accepts_fronts, answers_stay, has_no_failure, has_one_outcome, is_complete_too, never_runs_out,
    stays_on_longer,
};
use nom::{Items, StreamParser};

/// Does nothing: its contract is all that nom promises of the parser.
pub fn promised<I: Items, P: StreamParser<I>>(parser: &P)
    requires sound { (P.grammar (P.state parser.now)).meaning.IsSound }
    requires settles { (P.grammar (P.state parser.now)).meaning.Settles }
    ensures decided { StaysOnLonger I.model (P.grammar (P.state parser.now)).meaning }
    ensures answers { AnswersStay I.model P.Output.view (P.Pins parser.now) (P.grammar (P.state parser.now)).IsOutput
        (P.grammar (P.state parser.now)).meaning }
    ensures consistent { HasOneOutcome I.model (P.grammar (P.state parser.now)).meaning }
    ensures fronts { AcceptsFronts I.model (P.grammar (P.state parser.now)).meaning }
    ensures complete { IsCompleteToo I.model (P.grammar (P.state parser.now)).meaning }
    ensures frugal { NeverRunsOut I.model (P.grammar (P.state parser.now)).meaning }
    ensures failures { HasNoFailure I.model (P.grammar (P.state parser.now)).meaning }
{
    stays_on_longer(parser);
    answers_stay(parser);
    has_one_outcome(parser);
    accepts_fronts(parser);
    is_complete_too(parser);
    never_runs_out(parser);
    has_no_failure(parser);
}
