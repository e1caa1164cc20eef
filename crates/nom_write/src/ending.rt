//! Formats that end a complete input. A list, an option, a number in digits and a run are read back there, though more input could make
//! them longer.
ghost use Rattle.std.specs.Prelude.{◌≡◌, false, None, Some, List, []};
ghost use Rattle.std.specs.Fn.{FnReturnsAt};
ghost use Rattle.nom_character.specs.ClassRuns.{IsOf, class_lawful, least_of, wanted_error, wanted_grows};
ghost use Rattle.nom_character_integer.specs.laws.IntegerLaws.{integer_lawful, range_of};
ghost use Rattle.nom_error.specs.declared.kind.ErrorKind.TheVariants as Kind;
ghost use Rattle.nom_traits.specs.declared.character.AsciiClass.TheVariants as Class;
ghost use Rattle.nom_write.specs.Reads.{NoItemIn, ReadsAtEnd};
ghost use Rattle.nom_write.specs.laws.ChoiceReads.{map_back_ends, opt_ends};
ghost use Rattle.nom_write.specs.laws.DecimalReads.{decimal_ends};
ghost use Rattle.nom_write.specs.laws.LeafReads.{binary_reads, byte_reads};
ghost use Rattle.nom_write.specs.laws.ListReads.{many0_ends};
ghost use Rattle.nom_write.specs.laws.RunReads.{run_ends, test_ends};
ghost use Rattle.nom_write.specs.laws.SeparatedReads.{many1_ends};
ghost use Rattle.nom_write.specs.laws.SequenceReads.{first_end, followed_ends, last_end, next_end, pair_ends, preceded_ends, tuple_ends};

use crate::map::MapBoth;
use crate::unmarked::Unmarked;
use crate::writer::{Constant, Writer};
use nom_bytes::predicate::Predicate;
use nom_bytes::{SplitPosition, SplitPosition1, TakeWhileMN};
use nom_character::{ClassRun, Digit1};
use nom_character_integer::Integer;
use nom_combinator::Opt;
use nom_error::value::ParseError;
use nom_internal::sequence::And;
use nom_multi::{Many0, Many1};
use nom_number::{BeU8, Binary};
use nom_sequence::Preceded;
use nom_sink::bits::ToBits;
use nom_sink::decimal::Decimal;
use nom_sink::radix::OfCode;
use nom_traits::character::AsChar;
use nom_traits::input::{Input, Items};
use nom_traits::view::Viewed;
use std::alloc::Allocator;

/// A writer whose forms are read back at the end of a complete input.
pub trait Ending<I: Items>: Writer<I> {
    /// What a caller of `parse_end_back` must prove: that the last part is read back at the end, and that it may follow the one before.
    ghost MayEnd: { Self → Type 0 } = { λ _. Unit {0} };

    /// Does nothing. A value is written through `Writer`.
    #[inline(always)]
    fn ending() {}

    /// Each form that ends a complete input is read back as its value.
    ghost ends: { (p : Self) → (Self.grammar (Self.state p)).meaning.IsSound → Self.CanWrite p → MayEnd p → ReadsAtEnd I.model
        (Self.grammar (Self.state p)) (Self.Form p) };
}

impl<I: Input<Item = u8>, E: ParseError<I>> Ending<I> for BeU8<I, E> {
    ghost ends = { λ p k c e. followed_ends tt (byte_reads I.model E.errors) };
}

impl<F: ToBits, I: Input<Item = u8>, E: ParseError<I>> Ending<I> for Binary<F, I, E> {
    ghost ends = { λ p k c e. followed_ends tt (binary_reads I.model E.errors F.of_bits p.endian F.BYTES) };
}

impl<I: Unmarked, P: Predicate<I::Item>, E: ParseError<I>> Ending<I> for SplitPosition<P, I, E> {
    ghost ends = { λ p k c e. let s = P.state p.predicate in test_ends I.model I.values (P.fixed s k) (P.Runs s) (P.IsSound s) None 0 (λ _ _. ⊥) ⊥ I.one_mark };
}

impl<I: Unmarked, P: Predicate<I::Item>, E: ParseError<I>> Ending<I> for SplitPosition1<P, I, E> {
    ghost ends = { λ p k c e. let s = P.state p.predicate in test_ends I.model I.values (P.fixed s k) (P.Runs s) (P.IsSound s) None 1 (λ i. E.errors.of_kind i
        p.kind) E.errors.grows I.one_mark };
}

impl<I: Unmarked, P: Predicate<I::Item>, E: ParseError<I>> Ending<I> for TakeWhileMN<P, I, E> {
    ghost ends = { λ p k c e. let s = P.state p.predicate in test_ends I.model I.values (P.fixed s k) (P.Runs s) (P.IsSound s) (Some p.n) p.m (λ i.
        E.errors.of_kind i Kind.TakeWhileMN) E.errors.grows I.one_mark };
}

impl<I: Unmarked, E: ParseError<I>> Ending<I> for ClassRun<I, E>
where
    I::Item: AsChar,
{
    ghost ends = { λ p k c e. run_ends I.model (IsOf I.Item.code p.class) (least_of p.wanted) None (wanted_error E.errors p.wanted)
        (wanted_grows E.errors p.wanted) (class_lawful I.model I.Item.IsValue I.values I.Item.code E.errors p.class p.wanted) I.one_mark };
}

impl<I: Unmarked, E: ParseError<I>> Ending<I> for Digit1<I, E>
where
    I::Item: AsChar,
{
    ghost ends = { λ p k c e. run_ends I.model (IsOf I.Item.code Class.Digit) 1 None (wanted_error E.errors (Some Kind.Digit))
        (wanted_grows E.errors (Some Kind.Digit))
        (class_lawful I.model I.Item.IsValue I.values I.Item.code E.errors Class.Digit (Some Kind.Digit)) I.one_mark };
}

impl<I: Input, T: Decimal, E: ParseError<I>> Ending<I> for Integer<T, I, E>
where
    I::Item: AsChar + OfCode,
{
    ghost ends = { λ p k c e. decimal_ends I.Item.code I.Item.of_code I.Item.coded I.model p.signed T.value T.fits E.errors
        (integer_lawful I.model I.Item.code p.signed T.fits (range_of T.fits T.exact T.exact_law T.small_fits_law T.between_law) E.errors) };
}

/// The item must be refused at the end.
impl<I: Input, M: Allocator + Copy, G: Writer<I> + Drop> Ending<I> for Many0<M, G> {
    ghost MayEnd = { λ p. NoItemIn I.model (G.grammar (G.state p.parser)).meaning false [] };

    ghost ends = { λ p k c e. many0_ends I.lawful G.Error.errors c.1 (G.reads p.parser k c.0) e };
}

/// The item must be refused at the end.
impl<I: Input, M: Allocator + Copy, G: Writer<I> + Drop> Ending<I> for Many1<M, G> {
    ghost MayEnd = { λ p. NoItemIn I.model (G.grammar (G.state p.parser)).meaning false [] };

    ghost ends = { λ p k c e. many1_ends I.lawful G.Error.errors c.1 (G.reads p.parser k.0 c.0) e };
}

/// The part must be refused at the end.
impl<I: Items, F: Ending<I> + Drop> Ending<I> for Opt<F> {
    ghost MayEnd = { λ p. F.MayEnd p.parser × NoItemIn I.model (F.grammar (F.state p.parser)).meaning false [] };

    ghost ends = { λ p k c e. opt_ends (F.ends p.parser k c e.0) e.1 };
}

impl<
    I: Items,
    F: Ending<I> + Drop,
    O: Viewed + Drop,
    G: Fn(F::Output) -> O,
    H: Fn(&O) -> Option<F::Output>,
> Ending<I> for MapBoth<F, G, H> {
    ghost MayEnd = { λ p. F.MayEnd p.map.parser };

    ghost ends = { λ p k c e. map_back_ends (G.pre p.map.map) (G.post p.map.map) (λ v x. FnReturnsAt H.Fn p.back v (Some x)) c.2 (F.ends
        p.map.parser k c.0 e) };
}

impl<I: Items, F: Constant<I> + Drop, G: Ending<I, Error = F::Error> + Drop> Ending<I>
    for Preceded<F, G> {
    ghost MayEnd = { λ p. G.MayEnd p.second };

    ghost ends = { λ p k c e. preceded_ends I.lawful (F.accepts p.first k.0 c.0) (G.ends p.second k.1 c.1 e) };
}

impl<I: Items, F: Writer<I> + Drop, G: Ending<I, Error = F::Error> + Drop> Ending<I> for And<F, G> {
    ghost MayEnd = { λ p. G.MayEnd p.second × ((b : G.Output) (ys : List I.Item) → G.Form p.second b ys → F.Follow p.first ys) };

    ghost ends = { λ p k c e. pair_ends I.lawful e.1 (F.reads p.first k.0 c.0) (G.ends p.second k.1 c.1 e.0) };
}

impl<I: Items, P: Writer<I>, Q: Ending<I, Error = P::Error>> Ending<I> for (P, Q) {
    ghost MayEnd = { λ p. Q.MayEnd p.1 × ((b : Q.Output) (ys : List I.Item) → Q.Form p.1 b ys → P.Follow p.0 ys) };

    ghost ends = { λ p k c e. tuple_ends (λ o. (o.0, o.1)) (first_end (P.reads p.0 k.0 c.0.0) (last_end I.lawful e.1 (Q.ends p.1 k.1 c.0.1 e.0))) };
}

impl<I: Items, P: Writer<I>, Q: Writer<I, Error = P::Error>, R: Ending<I, Error = P::Error>> Ending<
    I,
> for (P, Q, R) {
    ghost MayEnd = { λ p. R.MayEnd p.2 × ((b : R.Output) (ys : List I.Item) → R.Form p.2 b ys → Q.Follow p.1 ys) };

    ghost ends = { λ p k c e. tuple_ends (λ o. (o.0, (o.1, o.2))) (first_end (P.reads p.0 k.0 c.0.0) (next_end c.1 (Q.reads p.1 k.1.0 c.0.1) (last_end I.lawful
        e.1 (R.ends p.2 k.1.1 c.0.2 e.0)))) };
}

impl<
    I: Items,
    P: Writer<I>,
    Q: Writer<I, Error = P::Error>,
    R: Writer<I, Error = P::Error>,
    S: Ending<I, Error = P::Error>,
> Ending<I> for (P, Q, R, S) {
    ghost MayEnd = { λ p. S.MayEnd p.3 × ((b : S.Output) (ys : List I.Item) → S.Form p.3 b ys → R.Follow p.2 ys) };

    ghost ends = { λ p k c e. tuple_ends (λ o. (o.0, (o.1, (o.2, o.3)))) (first_end (P.reads p.0 k.0 c.0.0) (next_end c.1 (Q.reads p.1 k.1.0 c.0.1) (next_end
        c.2 (R.reads p.2 k.1.1.0 c.0.2) (last_end I.lawful e.1 (S.ends p.3 k.1.1.1 c.0.3 e.0))))) };
}

impl<
    I: Items,
    P: Writer<I>,
    Q: Writer<I, Error = P::Error>,
    R: Writer<I, Error = P::Error>,
    S: Writer<I, Error = P::Error>,
    T: Ending<I, Error = P::Error>,
> Ending<I> for (P, Q, R, S, T) {
    ghost MayEnd = { λ p. T.MayEnd p.4 × ((b : T.Output) (ys : List I.Item) → T.Form p.4 b ys → S.Follow p.3 ys) };

    ghost ends = { λ p k c e. tuple_ends (λ o. (o.0, (o.1, (o.2, (o.3, o.4))))) (first_end (P.reads p.0 k.0 c.0.0) (next_end c.1 (Q.reads p.1 k.1.0 c.0.1)
        (next_end c.2 (R.reads p.2 k.1.1.0 c.0.2) (next_end c.3 (S.reads p.3 k.1.1.1.0 c.0.3) (last_end I.lawful e.1 (T.ends p.4 k.1.1.1.1 c.0.4 e.0)))))) };
}

impl<
    I: Items,
    P: Writer<I>,
    Q: Writer<I, Error = P::Error>,
    R: Writer<I, Error = P::Error>,
    S: Writer<I, Error = P::Error>,
    T: Writer<I, Error = P::Error>,
    U: Ending<I, Error = P::Error>,
> Ending<I> for (P, Q, R, S, T, U) {
    ghost MayEnd = { λ p. U.MayEnd p.5 × ((b : U.Output) (ys : List I.Item) → U.Form p.5 b ys → T.Follow p.4 ys) };

    ghost ends = { λ p k c e. tuple_ends (λ o. (o.0, (o.1, (o.2, (o.3, (o.4, o.5)))))) (first_end (P.reads p.0 k.0 c.0.0) (next_end c.1 (Q.reads p.1 k.1.0
        c.0.1) (next_end c.2 (R.reads p.2 k.1.1.0 c.0.2) (next_end c.3 (S.reads p.3 k.1.1.1.0 c.0.3) (next_end c.4 (T.reads p.4 k.1.1.1.1.0 c.0.4) (last_end
        I.lawful e.1 (U.ends p.5 k.1.1.1.1.1 c.0.5 e.0))))))) };
}

impl<
    I: Items,
    P: Writer<I>,
    Q: Writer<I, Error = P::Error>,
    R: Writer<I, Error = P::Error>,
    S: Writer<I, Error = P::Error>,
    T: Writer<I, Error = P::Error>,
    U: Writer<I, Error = P::Error>,
    V: Ending<I, Error = P::Error>,
> Ending<I> for (P, Q, R, S, T, U, V) {
    ghost MayEnd = { λ p. V.MayEnd p.6 × ((b : V.Output) (ys : List I.Item) → V.Form p.6 b ys → U.Follow p.5 ys) };

    ghost ends = { λ p k c e. tuple_ends (λ o. (o.0, (o.1, (o.2, (o.3, (o.4, (o.5, o.6))))))) (first_end (P.reads p.0 k.0 c.0.0) (next_end c.1 (Q.reads p.1
        k.1.0 c.0.1) (next_end c.2 (R.reads p.2 k.1.1.0 c.0.2) (next_end c.3 (S.reads p.3 k.1.1.1.0 c.0.3) (next_end c.4 (T.reads p.4 k.1.1.1.1.0 c.0.4)
        (next_end c.5 (U.reads p.5 k.1.1.1.1.1.0 c.0.5) (last_end I.lawful e.1 (V.ends p.6 k.1.1.1.1.1.1 c.0.6 e.0)))))))) };
}

impl<
    I: Items,
    P: Writer<I>,
    Q: Writer<I, Error = P::Error>,
    R: Writer<I, Error = P::Error>,
    S: Writer<I, Error = P::Error>,
    T: Writer<I, Error = P::Error>,
    U: Writer<I, Error = P::Error>,
    V: Writer<I, Error = P::Error>,
    W: Ending<I, Error = P::Error>,
> Ending<I> for (P, Q, R, S, T, U, V, W) {
    ghost MayEnd = { λ p. W.MayEnd p.7 × ((b : W.Output) (ys : List I.Item) → W.Form p.7 b ys → V.Follow p.6 ys) };

    ghost ends = { λ p k c e. tuple_ends (λ o. (o.0, (o.1, (o.2, (o.3, (o.4, (o.5, (o.6, o.7)))))))) (first_end (P.reads p.0 k.0 c.0.0) (next_end c.1 (Q.reads
        p.1 k.1.0 c.0.1) (next_end c.2 (R.reads p.2 k.1.1.0 c.0.2) (next_end c.3 (S.reads p.3 k.1.1.1.0 c.0.3) (next_end c.4 (T.reads p.4 k.1.1.1.1.0 c.0.4)
        (next_end c.5 (U.reads p.5 k.1.1.1.1.1.0 c.0.5) (next_end c.6 (V.reads p.6 k.1.1.1.1.1.1.0 c.0.6) (last_end I.lawful e.1 (W.ends p.7 k.1.1.1.1.1.1.1
        c.0.7 e.0))))))))) };
}
