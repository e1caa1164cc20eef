//! One item from the held bytes.
ghost use Rattle.std.specs.Prelude.{◌≡◌, MatchOption};
ghost use Rattle.nom_stream.specs.Held.{held_of};
ghost use Rattle.nom_stream.specs.Items.{HoldsLast, IsUndecided, Stays, Takes, undecided, without_input};

use crate::held::Held;
use crate::item_parser::ItemParser;
use nom_error::answer::{Err, Needed};
use nom_error::kind::ErrorKind;
use nom_error::value::Error;
use nom_traits::input::Items;
use std::alloc::Allocator;

/// The result of one parse of the held bytes: an item with the number of its bytes, which are no longer held, or
/// why there is none. Of an error it has the kind, and the length of the input that the error holds.
pub type Taken<T> = Result<(usize, T), Err<(ErrorKind, usize)>>;

// What is told of an answer where nothing is accepted.
fn stopped(stop: Err<Error<&[u8]>>) -> Err<(ErrorKind, usize)>
    ensures { result ≡ without_input stop.entry }
{
    match stop {
        Err::Incomplete(needed) => Err::Incomplete(needed),
        Err::Error(error) => Err::Error((error.code, error.input.len())),
        Err::Failure(error) => Err::Failure((error.code, error.input.len())),
        Err::OutOfMemory => Err::OutOfMemory,
    }
}

/// Parses the held bytes, and takes the bytes of an accepted item.
///
/// `more` says whether more bytes may come. Nothing else is taken.
#[inline(always)]
pub fn take<A: Allocator, G: ItemParser>(
    held: &mut Held<A>,
    grammar: &mut G,
    more: bool,
) -> Taken<G::Item>
    requires runs { (G.grammar (G.state grammar.old)).meaning.Runs }
    ensures kept { G.state grammar.new ≡ G.state grammar.old }
    ensures takes { Takes (G.grammar (G.state grammar.old)) more (held_of held.old) (held_of held.new) result }
    ensures last { HoldsLast (held_of held.old) held.new result }
    ensures bytes { held.new.bytes ≡ held.old.bytes }
    ensures stays { Stays held.old held.new result }
{
    let input = held.as_slice();
    input.known();
    let len = input.len();
    match grammar.item(input, more) {
        Ok((rest, item)) => {
            let left = rest.len();
            held.leave(left);
            Ok((len - left, item))
        }
        Err(stop) => Err(stopped(stop)),
    }
}

/// Returns what is needed, if the bytes don't decide.
#[inline(always)]
pub fn needed_of<T>(taken: &Taken<T>) -> Option<Needed>
    ensures { MatchOption result (IsUndecided taken.now → ⊥) (λ k. taken.now ≡ undecided k) }
{
    match taken {
        Err(Err::Incomplete(needed)) => Some(*needed),
        Err(Err::Error(_)) => None,
        Err(Err::Failure(_)) => None,
        Err(Err::OutOfMemory) => None,
        Ok(_) => None,
    }
}
