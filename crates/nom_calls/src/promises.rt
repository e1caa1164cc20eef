//! The promises of the items of every parser. These functions do nothing: their contracts are the promises.
ghost use Rattle.nom_calls.specs.Iterated.{ItemsAreOne, ItemsFit, ItemsStay, OutputsStay};
ghost use Rattle.nom_calls.specs.Steps.{GivesItems, EndsThere, FinishesSo, StaysEnded};

use crate::items::ParserIterator;
use nom_error::value::ParseError;
use nom_internal::parser::{Parser, StreamParser};
use nom_traits::input::Items;

/// The items of an input, up to any limit, are the first items of every input that extends it.
///
/// If `Pins` holds for the parser, the same is true of the views of their outputs.
pub fn items_stay<I: Items, P: StreamParser<I>>(_parser: &P)
    requires { (P.grammar (P.state _parser.now)).meaning.IsSound }
    ensures items { ItemsStay I.model (P.grammar (P.state _parser.now)).meaning }
    ensures outputs { OutputsStay I.model (P.grammar (P.state _parser.now)).meaning P.Output.view (P.Pins _parser.now)
        (P.grammar (P.state _parser.now)).IsOutput }
{}

/// Inputs that are equal as models have the same items, up to any limit.
pub fn items_are_one<I: Items, P: Parser<I>>(_parser: &P)
    requires { (P.grammar (P.state _parser.now)).meaning.IsSound }
    ensures { ItemsAreOne I.model (P.grammar (P.state _parser.now)).meaning }
{}

/// An input has no more items than its length, if each acceptance consumes something. A limit of that length
/// therefore covers all of them.
pub fn items_fit<I: Items, P: Parser<I>>(_parser: &P)
    ensures { ItemsFit I.model (P.grammar (P.state _parser.now)).meaning }
{}

/// Calls of `next` return the outputs of items, each of which begins where the one before ended.
///
/// While the iterator runs, a call returns `None` only if the parser doesn't accept, or if memory runs out.
/// The iterator then holds that answer. Every later call returns `None`, and nothing changes.
pub fn gives_items<I: Items, E: ParseError<I>, F: Parser<I, Error = E> + Drop>(
    _iterator: &ParserIterator<I, E, F>,
)
    requires { (F.grammar (F.state _iterator.now.parser)).meaning.IsSound }
    ensures items { GivesItems I.model F.grammar (λ s. F.state s.parser) (λ s. s.input) (λ s. s.state) _iterator.now }
    ensures ends { EndsThere I.model F.grammar (λ s. F.state s.parser) (λ s. s.input) (λ s. s.state) _iterator.now }
    ensures stays { StaysEnded I.model F.grammar (λ s. F.state s.parser) (λ s. s.input) (λ s. s.state) _iterator.now }
{}

/// `finish` returns the place that is reached, as long as a running iterator returns items.
///
/// After a call that returned `None`, it returns the same place if the parser refuses there. Otherwise it
/// answers the parser's failure, the parser's need, or `OutOfMemory`.
pub fn finishes_so<I: Items, E: ParseError<I>, F: Parser<I, Error = E> + Drop>(
    _iterator: &ParserIterator<I, E, F>,
)
    requires { (F.grammar (F.state _iterator.now.parser)).meaning.IsSound }
    ensures { FinishesSo I.model F.grammar (λ s. F.state s.parser) (λ s. s.input) (λ s. s.state) _iterator.now }
{}
