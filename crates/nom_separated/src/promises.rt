//! The promises of lists with a separator, in addition to those of every parser. These functions do nothing:
//! their contracts are the promises.
ghost use Rattle.nom_repeat.specs.Accepted.{AcceptsOneAndMore};
ghost use Rattle.nom_sequence.specs.Sequences.{preceded_meaning};
ghost use Rattle.nom_separated.specs.Promises.{AcceptsNoneOrMore};

use crate::separated_lists::{SeparatedList0, SeparatedList1};
use nom_internal::parser::Parser;
use nom_traits::input::Input;
use std::alloc::Allocator;

/// `separated_list1` accepts a first item, and after it exactly the accepted pairs of a separator and an
/// item.
///
/// The pairs follow one another, and none of them is empty. They end where a separator or the item after it
/// refuses.
pub fn separated_list1_accepts<
    I: Input,
    A: Allocator + Copy,
    F: Parser<I> + Drop,
    G: Parser<I, Error = F::Error> + Drop,
>(_parser: &SeparatedList1<A, G, F>)
    ensures { AcceptsOneAndMore I.model (F.grammar (F.state _parser.now.next.second)).meaning
        (preceded_meaning I.model (G.grammar (G.state _parser.now.next.first)).meaning (F.grammar (F.state _parser.now.next.second)).meaning)
        (⟦<SeparatedList1<A, G, F> as Parser<I>>⟧.grammar (G.state _parser.now.next.first, F.state _parser.now.next.second)).meaning }
{}

/// `separated_list0` accepts without items, and consumes nothing, if the first item is refused. Otherwise it
/// accepts exactly what `separated_list1` accepts.
pub fn separated_list0_accepts<
    I: Input,
    A: Allocator + Copy,
    F: Parser<I> + Drop,
    G: Parser<I, Error = F::Error> + Drop,
>(_parser: &SeparatedList0<A, G, F>)
    ensures { AcceptsNoneOrMore I.model (F.grammar (F.state _parser.now.next.second)).meaning
        (preceded_meaning I.model (G.grammar (G.state _parser.now.next.first)).meaning (F.grammar (F.state _parser.now.next.second)).meaning)
        (⟦<SeparatedList0<A, G, F> as Parser<I>>⟧.grammar (G.state _parser.now.next.first, F.state _parser.now.next.second)).meaning }
{}
