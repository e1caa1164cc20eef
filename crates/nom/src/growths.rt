//! Promises about when lists and texts may run out of memory. These functions do nothing: their contracts are
//! the promises.
//!
//! All say the same, provided that the parts are frugal and the error type takes no memory. Memory runs out
//! only if outputs are built and a first item was accepted. A call that fails with nothing to keep is
//! therefore wrong.
ghost use Rattle.std.specs.Prelude.{◌≡◌};
ghost use Rattle.nom.specs.Growths.{GrowsByCounted, GrowsByItems, GrowsByPieces, GrowsBySeparated, GrowsUntil};

use nom_bytes_escaped::EscapedTransform;
use nom_internal::parser::Parser;
use nom_multi::{Count, LengthCount, Many0, Many1, ManyMN, ManyTill};
use nom_multi_fold::Many;
use nom_search::collection::Collection;
use nom_search::extend::{Builder, ExtendInto};
use nom_separated::{SeparatedList0, SeparatedList1};
use nom_traits::character::AsChar;
use nom_traits::convert::ToUsize;
use nom_traits::input::{Input, Items, Value};
use nom_values::range::NomRange;
use std::alloc::Allocator;

/// `many0` runs out of memory only for an item: its first item is accepted.
pub fn many0_grows_by_items<I: Input, A: Allocator + Copy, F: Parser<I> + Drop>(
    _parser: &Many0<A, F>,
)
    requires { (F.grammar (F.state _parser.now.parser)).meaning.IsSound }
    ensures { GrowsByItems I.model F.Error.errors (F.grammar (F.state _parser.now.parser)).meaning
        (⟦<Many0<A, F> as Parser<I>>⟧.grammar (F.state _parser.now.parser)).meaning }
{}

/// `many1` runs out of memory only for an item: its first item is accepted.
pub fn many1_grows_by_items<I: Input, A: Allocator + Copy, F: Parser<I> + Drop>(
    _parser: &Many1<A, F>,
)
    requires { (F.grammar (F.state _parser.now.parser)).meaning.IsSound }
    ensures { GrowsByItems I.model F.Error.errors (F.grammar (F.state _parser.now.parser)).meaning
        (⟦<Many1<A, F> as Parser<I>>⟧.grammar (F.state _parser.now.parser)).meaning }
{}

/// `count` runs out of memory only for an item: its first item is accepted.
pub fn count_grows_by_items<I: Items, A: Allocator + Copy, F: Parser<I> + Drop>(
    _parser: &Count<A, F>,
)
    requires { (F.grammar (F.state _parser.now.parser)).meaning.IsSound }
    ensures { GrowsByItems I.model F.Error.errors (F.grammar (F.state _parser.now.parser)).meaning
        (⟦<Count<A, F> as Parser<I>>⟧.grammar (_parser.now.count, F.state _parser.now.parser)).meaning }
{}

/// `many_m_n` runs out of memory only for an item: its first item is accepted.
pub fn many_m_n_grows_by_items<I: Input, A: Allocator + Copy, F: Parser<I> + Drop>(
    _parser: &ManyMN<A, F>,
)
    requires { (F.grammar (F.state _parser.now.parser)).meaning.IsSound }
    ensures { GrowsByItems I.model F.Error.errors (F.grammar (F.state _parser.now.parser)).meaning
        (⟦<ManyMN<A, F> as Parser<I>>⟧.grammar (_parser.now.min, _parser.now.max, F.state _parser.now.parser)).meaning }
{}

/// `many` runs out of memory only for an item: its first item is accepted.
pub fn many_grows_by_items<
    I: Input,
    A: Allocator + Copy,
    R: NomRange<usize> + Drop,
    F: Parser<I> + Drop,
    C: Collection<F::Output, A>,
>(_parser: &Many<A, R, F, C>)
    requires { (F.grammar (F.state _parser.now.parser)).meaning.IsSound }
    ensures { GrowsByItems I.model F.Error.errors (F.grammar (F.state _parser.now.parser)).meaning
        (⟦<Many<A, R, F, C> as Parser<I>>⟧.grammar (F.state _parser.now.parser, _parser.now.range)).meaning }
{}

/// `separated_list1` runs out of memory only for an item: its first item is accepted.
pub fn separated_list1_grows_by_items<
    I: Input,
    A: Allocator + Copy,
    F: Parser<I> + Drop,
    G: Parser<I, Error = F::Error> + Drop,
>(_parser: &SeparatedList1<A, G, F>)
    requires separator { (G.grammar (G.state _parser.now.next.first)).meaning.IsSound }
    requires item { (F.grammar (F.state _parser.now.next.second)).meaning.IsSound }
    ensures { GrowsBySeparated I.model F.Error.errors (G.grammar (G.state _parser.now.next.first)).meaning (F.grammar (F.state _parser.now.next.second)).meaning
        (⟦<SeparatedList1<A, G, F> as Parser<I>>⟧.grammar (G.state _parser.now.next.first, F.state _parser.now.next.second)).meaning }
{}

/// `separated_list0` runs out of memory only for an item: its first item is accepted.
pub fn separated_list0_grows_by_items<
    I: Input,
    A: Allocator + Copy,
    F: Parser<I> + Drop,
    G: Parser<I, Error = F::Error> + Drop,
>(_parser: &SeparatedList0<A, G, F>)
    requires separator { (G.grammar (G.state _parser.now.next.first)).meaning.IsSound }
    requires item { (F.grammar (F.state _parser.now.next.second)).meaning.IsSound }
    ensures { GrowsBySeparated I.model F.Error.errors (G.grammar (G.state _parser.now.next.first)).meaning (F.grammar (F.state _parser.now.next.second)).meaning
        (⟦<SeparatedList0<A, G, F> as Parser<I>>⟧.grammar (G.state _parser.now.next.first, F.state _parser.now.next.second)).meaning }
{}

/// `many_till` runs out of memory only for an item: its end refuses at the start, and its first item is accepted.
pub fn many_till_grows_by_items<
    I: Input,
    A: Allocator + Copy,
    F: Parser<I> + Drop,
    G: Parser<I, Error = F::Error> + Drop,
>(_parser: &ManyTill<A, F, G>)
    requires item { (F.grammar (F.state _parser.now.parser)).meaning.IsSound }
    requires end { (G.grammar (G.state _parser.now.end)).meaning.IsSound }
    ensures { GrowsUntil I.model F.Error.errors (F.grammar (F.state _parser.now.parser)).meaning (G.grammar (G.state _parser.now.end)).meaning
        (⟦<ManyTill<A, F, G> as Parser<I>>⟧.grammar (F.state _parser.now.parser, G.state _parser.now.end)).meaning }
{}

/// `length_count` runs out of memory only for an item: its length is accepted, and its first item on the
/// rest.
pub fn length_count_grows_by_items<
    I: Items,
    A: Allocator + Copy,
    F: Parser<I, Output: ToUsize> + Drop,
    G: Parser<I, Error = F::Error> + Drop,
>(_parser: &LengthCount<A, F, G>)
    requires length { (F.grammar (F.state _parser.now.length)).meaning.IsSound }
    requires item { (G.grammar (G.state _parser.now.parser)).meaning.IsSound }
    ensures { GrowsByCounted I.model F.Error.errors (F.grammar (F.state _parser.now.length)).meaning (G.grammar (G.state _parser.now.parser)).meaning
        (⟦<LengthCount<A, F, G> as Parser<I>>⟧.grammar (F.state _parser.now.length, G.state _parser.now.parser)).meaning }
{}

/// `escaped_transform` runs out of memory only for a piece.
///
/// Either its normal part accepts at the start, or that part refuses and the control character is there. In
/// the second case, the other part accepts on the rest.
pub fn escaped_transform_grows_by_pieces<
    A: Allocator + Copy,
    X: Builder + Drop,
    C: AsChar + Value,
    I: Input<Item = C> + ExtendInto<A, Extender = X>,
    F: Parser<I> + Drop,
    G: Parser<I, Error = F::Error> + Drop,
>(_parser: &EscapedTransform<A, F, G>)
where
    F::Output: ExtendInto<A, Extender = X>,
    G::Output: ExtendInto<A, Extender = X>,
    requires normal { (F.grammar (F.state _parser.now.normal)).meaning.IsSound }
    requires transform { (G.grammar (G.state _parser.now.transform)).meaning.IsSound }
    ensures { GrowsByPieces I.model (λ x. C.code x ≡ _parser.now.control_char) F.Error.errors (F.grammar (F.state _parser.now.normal)).meaning
        (G.grammar (G.state _parser.now.transform)).meaning (⟦<EscapedTransform<A, F, G> as Parser<I>>⟧.grammar (
          F.state _parser.now.normal,
          _parser.now.control_char,
          G.state _parser.now.transform,
        )).meaning }
{}
