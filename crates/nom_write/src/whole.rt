//! Whole inputs that are read back.
ghost use Rattle.std.specs.Prelude.{◌≡◌, ℕ, false, List, []};
ghost use Rattle.nom_internal.specs.Prelude.{Parses};
ghost use Rattle.nom_combinator.specs.Ends.{all_consuming_of};
ghost use Rattle.nom_write.specs.Reads.{IsReadBack};

use crate::ending::Ending;
use crate::writer::Writer;
use nom_combinator::AllConsuming;
use nom_error::answer::IResult;
use nom_internal::parser::Parser;
use nom_traits::input::Input;

/// Parses like `parse_complete`. On an input that is a form of a value, it returns that value, and an empty rest.
///
/// The form must be one that may end an input.
pub fn parse_whole_back<I: Input, P: Writer<I> + Drop>(
    parser: &mut AllConsuming<P>,
    input: I,
) -> IResult<I, P::Output, P::Error>
    requires runs { (all_consuming_of I.model P.Error.errors (P.grammar (P.state parser.old.parser))).meaning.Runs }
    requires sound { (P.grammar (P.state parser.old.parser)).meaning.IsSound }
    requires can { P.CanWrite parser.old.parser }
    ensures shown { Parses I.model (all_consuming_of I.model P.Error.errors (P.grammar (P.state parser.old.parser))) false input result }
    ensures kept { P.state parser.new.parser ≡ P.state parser.old.parser }
    ensures back { (v : P.Output) (xs : List I.Item) → P.Form parser.old.parser v xs → I.model.elements input ≡ xs → P.Follow parser.old.parser [] →
        IsReadBack I.model P.Output.view (P.Pins parser.old.parser) (all_consuming_of I.model P.Error.errors
        (P.grammar (P.state parser.old.parser))) v xs [] input result }
{
    input.known();
    parser.parse_complete(input)
}

/// Parses like `parse_whole_back`. A form that ends in a list, an option, a number in digits or a run is read back, too.
pub fn parse_end_back<I: Input, P: Ending<I> + Drop>(
    parser: &mut AllConsuming<P>,
    input: I,
) -> IResult<I, P::Output, P::Error>
    requires runs { (all_consuming_of I.model P.Error.errors (P.grammar (P.state parser.old.parser))).meaning.Runs }
    requires sound { (P.grammar (P.state parser.old.parser)).meaning.IsSound }
    requires can { P.CanWrite parser.old.parser }
    requires may { P.MayEnd parser.old.parser }
    ensures shown { Parses I.model (all_consuming_of I.model P.Error.errors (P.grammar (P.state parser.old.parser))) false input result }
    ensures kept { P.state parser.new.parser ≡ P.state parser.old.parser }
    ensures back { (v : P.Output) (xs : List I.Item) → P.Form parser.old.parser v xs → I.model.elements input ≡ xs →
        IsReadBack I.model P.Output.view (P.Pins parser.old.parser) (all_consuming_of I.model P.Error.errors
        (P.grammar (P.state parser.old.parser))) v xs [] input result }
{
    input.known();
    parser.parse_complete(input)
}
