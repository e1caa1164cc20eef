//! The promises of a writer and its parser together.
ghost use Rattle.std.specs.Prelude.{◌≡◌, ℕ, List, ◌++◌, true};
ghost use Rattle.nom_internal.specs.Prelude.{Parses};
ghost use Rattle.nom_write.specs.Reads.{IsReadBack, ReadsBack};

use crate::writer::Writer;
use nom_error::answer::IResult;
use nom_traits::input::Items;

/// Promises that each form of a value is read back, in both modes, on every input where something follows that may follow.
///
/// The parser accepts exactly the form, and the rest is what follows. The output is equal to the value by its view, if the
/// parser pins. Or the answer is `OutOfMemory`. The function does nothing; its contract is the promise.
pub fn reads_back<I: Items, P: Writer<I>>(_parser: &P)
    requires sound { (P.grammar (P.state _parser.now)).meaning.IsSound }
    requires can { P.CanWrite _parser.now }
    ensures { ReadsBack I.model P.Output.view (P.Pins _parser.now) (P.grammar (P.state _parser.now)) (P.Form _parser.now) (P.Follow _parser.now) }
{}

/// Parses like `parse`. On an input that begins with a form of a value, it returns that value, and what follows.
pub fn parse_back<I: Items, P: Writer<I>>(
    parser: &mut P,
    input: I,
) -> IResult<I, P::Output, P::Error>
    requires runs { (P.grammar (P.state parser.old)).meaning.Runs }
    requires sound { (P.grammar (P.state parser.old)).meaning.IsSound }
    requires can { P.CanWrite parser.old }
    ensures shown { Parses I.model (P.grammar (P.state parser.old)) true input result }
    ensures kept { P.state parser.new ≡ P.state parser.old }
    ensures back { (v : P.Output) (xs rest : List I.Item) → P.Form parser.old v xs → I.model.elements input ≡ xs ++ rest → P.Follow parser.old rest →
        IsReadBack I.model P.Output.view (P.Pins parser.old) (P.grammar (P.state parser.old)) v xs rest input result }
{
    input.known();
    parser.parse(input)
}
