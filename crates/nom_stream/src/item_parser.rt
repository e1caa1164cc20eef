//! The grammar of an item.
ghost use Rattle.std.specs.Prelude.{◌≡◌, ℕ, List};
ghost use Rattle.std.specs.Borrow.{Bor};
ghost use Rattle.nom_error.specs.declared.value.Error.{Error};
ghost use Rattle.nom_internal.specs.Grammar as Grammars;
ghost use Rattle.nom_internal.specs.Prelude.{IsLawful, IsSteady};
ghost use Rattle.nom_stream.specs.Items.{ParsesItem};

use nom_error::answer::IResult;
use nom_error::value::Error;
use nom_internal::parser::StreamParser;
use nom_traits::input::Items;

/// A parser of items, and the value of each.
///
/// An item owns its content, or holds lengths and offsets of its bytes. Values that borrow from the input are
/// used within `item`.
pub trait ItemParser {
    /// The value of an item.
    type Item: Drop;

    /// The part of the grammar on which its meaning depends.
    ghost State: { Type 0 };

    ghost state: { Self → State };

    /// The parse trees of items.
    ghost Tree: { Type 0 };

    /// The grammar over bytes: its meaning, and the item that a tree represents.
    ghost grammar: { State → Grammars.Grammar (Bor (List ℕ)) Tree Self.Item (Error (Bor (List ℕ))) };

    /// Parses one item at the start of the input. `more` says whether more input may come.
    ///
    /// The laws of the meaning come with the answer. `parse_item` provides them for every stream parser.
    fn item<'a>(&mut self, input: &'a [u8], more: bool) -> IResult<&'a [u8], Self::Item>
        requires runs { (grammar (state self.old)).meaning.Runs }
        ensures parses { ParsesItem (grammar (state self.old)) more input.entry result }
        ensures kept { state self.new ≡ state self.old };
}

// The laws of a stream parser, where it is sound.
fn laws_of<I: Items, P: StreamParser<I>>(_parser: &P)
    ensures lawful { (P.grammar (P.state _parser.now)).meaning.IsSound → IsLawful I.model (P.grammar (P.state _parser.now)).meaning }
    ensures steady { (P.grammar (P.state _parser.now)).meaning.IsSound → IsSteady I.model (P.grammar (P.state _parser.now)).meaning }
{}

/// Returns the answer of a stream parser at an input. `more` says whether more input may come.
///
/// It is the body of `ItemParser::item` for any parser of this library.
#[inline(always)]
pub fn parse_item<'a, P: StreamParser<&'a [u8], Error = Error<&'a [u8]>> + Drop>(
    mut parser: P,
    input: &'a [u8],
    more: bool,
) -> IResult<&'a [u8], P::Output>
    requires runs { (P.grammar (P.state parser)).meaning.Runs }
    ensures parses { ParsesItem (P.grammar (P.state parser)) more input.entry result }
{
    laws_of(&parser);
    if more {
        parser.parse(input)
    } else {
        parser.parse_complete(input)
    }
}
