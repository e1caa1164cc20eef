//! Runs of items that meet a test.
ghost use Rattle.std.specs.Prelude.{◌≤◌, None, Some};
ghost use Rattle.nom_error.specs.declared.kind.ErrorKind.TheVariants as Kind;
ghost use Rattle.nom_traits.specs.declared.character.AsciiClass.TheVariants as Class;
ghost use Rattle.nom_character.specs.ClassRuns.{IsOf, least_of, wanted_error, wanted_grows};
ghost use Rattle.nom_write_canonical.specs.laws.RunForms.{premised_accepts, run_accepts, run_one};

use crate::canonical::Canonical;
use nom_bytes::predicate::Predicate;
use nom_bytes::{SplitPosition, SplitPosition1, TakeWhileMN};
use nom_character::{ClassRun, Digit1};
use nom_error::value::ParseError;
use nom_traits::character::AsChar;
use nom_write::unmarked::Unmarked;

impl<I: Unmarked, P: Predicate<I::Item>, E: ParseError<I>> Canonical<I> for SplitPosition<P, I, E> {
    ghost accepts_forms = { λ p c. premised_accepts (P.Runs (P.state p.predicate)) (P.IsSound (P.state p.predicate))
        (run_accepts I.model (P.answers (P.state p.predicate)) 0 None (λ _ _. ⊥) ⊥ tt) };

    ghost one_form = { λ p c v. run_one };
}

impl<I: Unmarked, P: Predicate<I::Item>, E: ParseError<I>> Canonical<I>
    for SplitPosition1<P, I, E> {
    ghost accepts_forms = { λ p c. premised_accepts (P.Runs (P.state p.predicate)) (P.IsSound (P.state p.predicate))
        (run_accepts I.model (P.answers (P.state p.predicate)) 1 None (λ i. E.errors.of_kind i p.kind) E.errors.grows tt) };

    ghost one_form = { λ p c v. run_one };
}

/// With bounds the wrong way round, a run below the least number is accepted before another item.
impl<I: Unmarked, P: Predicate<I::Item>, E: ParseError<I>> Canonical<I> for TakeWhileMN<P, I, E> {
    ghost IsCanonical = { λ p. p.m ≤ p.n };

    ghost accepts_forms = { λ p c. premised_accepts (P.Runs (P.state p.predicate)) (P.IsSound (P.state p.predicate))
        (run_accepts I.model (P.answers (P.state p.predicate)) p.m (Some p.n) (λ i. E.errors.of_kind i Kind.TakeWhileMN) E.errors.grows c) };

    ghost one_form = { λ p c v. run_one };
}

impl<I: Unmarked, E: ParseError<I>> Canonical<I> for ClassRun<I, E>
where
    I::Item: AsChar,
{
    ghost accepts_forms = { λ p c. run_accepts I.model (IsOf I.Item.code p.class) (least_of p.wanted) None (wanted_error E.errors p.wanted)
        (wanted_grows E.errors p.wanted) tt };

    ghost one_form = { λ p c v. run_one };
}

impl<I: Unmarked, E: ParseError<I>> Canonical<I> for Digit1<I, E>
where
    I::Item: AsChar,
{
    ghost accepts_forms = { λ p c. run_accepts I.model (IsOf I.Item.code Class.Digit) 1 None (wanted_error E.errors (Some Kind.Digit))
        (wanted_grows E.errors (Some Kind.Digit)) tt };

    ghost one_form = { λ p c v. run_one };
}
