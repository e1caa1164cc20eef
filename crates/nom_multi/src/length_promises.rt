//! The promise of a list after its length, in addition to those of every parser. The function does nothing:
//! its contract is the promise.
ghost use Rattle.nom_multi.specs.Lengths.{HasSize};
ghost use Rattle.nom_multi.specs.LengthPromises.{AcceptsCounted};

use crate::counted::LengthCount;
use nom_internal::parser::Parser;
use nom_traits::convert::ToUsize;
use nom_traits::input::Items;
use std::alloc::Allocator;

/// `length_count` accepts a length that its first part accepts, and then exactly that many items that its
/// second part accepts.
///
/// The items follow one another, and may be of any length.
pub fn length_count_accepts<
    I: Items,
    A: Allocator + Copy,
    F: Parser<I, Output: ToUsize> + Drop,
    G: Parser<I, Error = F::Error> + Drop,
>(_parser: &LengthCount<A, F, G>)
    ensures { AcceptsCounted I.model (HasSize (F.grammar (F.state _parser.now.length)).IsOutput F.Output.size) (F.grammar (F.state _parser.now.length)).meaning
        (G.grammar (G.state _parser.now.parser)).meaning
        (⟦<LengthCount<A, F, G> as Parser<I>>⟧.grammar (F.state _parser.now.length, G.state _parser.now.parser)).meaning }
{}
