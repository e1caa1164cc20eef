//! Choices. No branch writes a value that an earlier one writes. What two branches exclude their choice excludes, by `both_exclude` of
//! `specs/laws/ChoiceForms.antt`.
ghost use Rattle.nom_write_canonical.specs.Forms.{Excludes, first_exclusive, or_exclusive};
ghost use Rattle.nom_write_canonical.specs.laws.CaseForms.{alt_accepts};
ghost use Rattle.nom_write_canonical.specs.laws.ChoiceForms.{either_accepts, either_one, or_accepts, or_one};

use crate::canonical::Canonical;
use nom_branch::Choice;
use nom_internal::either::Or;
use nom_traits::input::Items;

impl<
    I: Items,
    F: Canonical<I> + Drop,
    G: Canonical<I, Output = F::Output, Error = F::Error> + Drop,
> Canonical<I> for Or<F, G> {
    ghost IsCanonical = { λ p. F.IsCanonical p.first × G.IsCanonical p.second × Excludes (F.Form p.first) (F.Fails p.first) (G.Form p.second) };

    ghost accepts_forms = { λ p c. either_accepts F.Error.errors c.2 (F.accepts_forms p.first c.0) (G.accepts_forms p.second c.1) };

    ghost one_form = { λ p c v. either_one ((c.2).apart v) (F.one_form p.first c.0 v) (G.one_form p.second c.1 v) };
}

impl<I: Items, P: Canonical<I>, Q: Canonical<I, Error = P::Error, Output = P::Output>> Canonical<I>
    for Choice<(P, Q)> {
    ghost IsCanonical = { λ p. let b = p.parsers in (P.IsCanonical b.0 × Q.IsCanonical b.1) × (or_exclusive (first_exclusive P.Form P.Fails b.0) Q.Form Q.Fails
        b.1).AreExclusive };

    ghost accepts_forms = { λ p c. let b = p.parsers in let e = P.Error.errors in alt_accepts e (or_accepts e (λ d. P.accepts_forms b.0 c.0.0) (Q.accepts_forms
        b.1 c.0.1) c.1) };

    ghost one_form = { λ p c. let b = p.parsers in or_one (λ d. P.one_form b.0 c.0.0) (Q.one_form b.1 c.0.1) c.1 };
}

impl<
    I: Items,
    P: Canonical<I>,
    Q: Canonical<I, Error = P::Error, Output = P::Output>,
    R: Canonical<I, Error = P::Error, Output = P::Output>,
> Canonical<I> for Choice<(P, Q, R)> {
    ghost IsCanonical = { λ p. let b = p.parsers in (P.IsCanonical b.0 × Q.IsCanonical b.1 × R.IsCanonical b.2) × (or_exclusive (or_exclusive (first_exclusive
        P.Form P.Fails b.0) Q.Form Q.Fails b.1) R.Form R.Fails b.2).AreExclusive };

    ghost accepts_forms = { λ p c. let b = p.parsers in let e = P.Error.errors in alt_accepts e (or_accepts e (or_accepts e (λ d. P.accepts_forms b.0 c.0.0)
        (Q.accepts_forms b.1 c.0.1)) (R.accepts_forms b.2 c.0.2) c.1) };

    ghost one_form = { λ p c. let b = p.parsers in or_one (or_one (λ d. P.one_form b.0 c.0.0) (Q.one_form b.1 c.0.1)) (R.one_form b.2 c.0.2) c.1 };
}

impl<
    I: Items,
    P: Canonical<I>,
    Q: Canonical<I, Error = P::Error, Output = P::Output>,
    R: Canonical<I, Error = P::Error, Output = P::Output>,
    S: Canonical<I, Error = P::Error, Output = P::Output>,
> Canonical<I> for Choice<(P, Q, R, S)> {
    ghost IsCanonical = { λ p. let b = p.parsers in (P.IsCanonical b.0 × Q.IsCanonical b.1 × R.IsCanonical b.2 × S.IsCanonical b.3) × (or_exclusive
        (or_exclusive (or_exclusive (first_exclusive P.Form P.Fails b.0) Q.Form Q.Fails b.1) R.Form R.Fails b.2) S.Form S.Fails b.3).AreExclusive };

    ghost accepts_forms = { λ p c. let b = p.parsers in let e = P.Error.errors in alt_accepts e (or_accepts e (or_accepts e (or_accepts e (λ d. P.accepts_forms
        b.0 c.0.0) (Q.accepts_forms b.1 c.0.1)) (R.accepts_forms b.2 c.0.2)) (S.accepts_forms b.3 c.0.3) c.1) };

    ghost one_form = { λ p c. let b = p.parsers in or_one (or_one (or_one (λ d. P.one_form b.0 c.0.0) (Q.one_form b.1 c.0.1)) (R.one_form b.2 c.0.2))
        (S.one_form b.3 c.0.3) c.1 };
}

impl<
    I: Items,
    P: Canonical<I>,
    Q: Canonical<I, Error = P::Error, Output = P::Output>,
    R: Canonical<I, Error = P::Error, Output = P::Output>,
    S: Canonical<I, Error = P::Error, Output = P::Output>,
    T: Canonical<I, Error = P::Error, Output = P::Output>,
> Canonical<I> for Choice<(P, Q, R, S, T)> {
    ghost IsCanonical = { λ p. let b = p.parsers in (P.IsCanonical b.0 × Q.IsCanonical b.1 × R.IsCanonical b.2 × S.IsCanonical b.3 × T.IsCanonical b.4) ×
        (or_exclusive (or_exclusive (or_exclusive (or_exclusive (first_exclusive P.Form P.Fails b.0) Q.Form Q.Fails b.1) R.Form R.Fails b.2) S.Form S.Fails b.3)
        T.Form T.Fails b.4).AreExclusive };

    ghost accepts_forms = { λ p c. let b = p.parsers in let e = P.Error.errors in alt_accepts e (or_accepts e (or_accepts e (or_accepts e (or_accepts e (λ d.
        P.accepts_forms b.0 c.0.0) (Q.accepts_forms b.1 c.0.1)) (R.accepts_forms b.2 c.0.2)) (S.accepts_forms b.3 c.0.3)) (T.accepts_forms b.4 c.0.4) c.1) };

    ghost one_form = { λ p c. let b = p.parsers in or_one (or_one (or_one (or_one (λ d. P.one_form b.0 c.0.0) (Q.one_form b.1 c.0.1)) (R.one_form b.2 c.0.2))
        (S.one_form b.3 c.0.3)) (T.one_form b.4 c.0.4) c.1 };
}

impl<
    I: Items,
    P: Canonical<I>,
    Q: Canonical<I, Error = P::Error, Output = P::Output>,
    R: Canonical<I, Error = P::Error, Output = P::Output>,
    S: Canonical<I, Error = P::Error, Output = P::Output>,
    T: Canonical<I, Error = P::Error, Output = P::Output>,
    U: Canonical<I, Error = P::Error, Output = P::Output>,
> Canonical<I> for Choice<(P, Q, R, S, T, U)> {
    ghost IsCanonical = { λ p. let b = p.parsers in (P.IsCanonical b.0 × Q.IsCanonical b.1 × R.IsCanonical b.2 × S.IsCanonical b.3 × T.IsCanonical b.4 ×
        U.IsCanonical b.5) × (or_exclusive (or_exclusive (or_exclusive (or_exclusive (or_exclusive (first_exclusive P.Form P.Fails b.0) Q.Form Q.Fails b.1)
        R.Form R.Fails b.2) S.Form S.Fails b.3) T.Form T.Fails b.4) U.Form U.Fails b.5).AreExclusive };

    ghost accepts_forms = { λ p c. let b = p.parsers in let e = P.Error.errors in alt_accepts e (or_accepts e (or_accepts e (or_accepts e (or_accepts e
        (or_accepts e (λ d. P.accepts_forms b.0 c.0.0) (Q.accepts_forms b.1 c.0.1)) (R.accepts_forms b.2 c.0.2)) (S.accepts_forms b.3 c.0.3)) (T.accepts_forms
        b.4 c.0.4)) (U.accepts_forms b.5 c.0.5) c.1) };

    ghost one_form = { λ p c. let b = p.parsers in or_one (or_one (or_one (or_one (or_one (λ d. P.one_form b.0 c.0.0) (Q.one_form b.1 c.0.1)) (R.one_form b.2
        c.0.2)) (S.one_form b.3 c.0.3)) (T.one_form b.4 c.0.4)) (U.one_form b.5 c.0.5) c.1 };
}

impl<
    I: Items,
    P: Canonical<I>,
    Q: Canonical<I, Error = P::Error, Output = P::Output>,
    R: Canonical<I, Error = P::Error, Output = P::Output>,
    S: Canonical<I, Error = P::Error, Output = P::Output>,
    T: Canonical<I, Error = P::Error, Output = P::Output>,
    U: Canonical<I, Error = P::Error, Output = P::Output>,
    V: Canonical<I, Error = P::Error, Output = P::Output>,
> Canonical<I> for Choice<(P, Q, R, S, T, U, V)> {
    ghost IsCanonical = { λ p. let b = p.parsers in (P.IsCanonical b.0 × Q.IsCanonical b.1 × R.IsCanonical b.2 × S.IsCanonical b.3 × T.IsCanonical b.4 ×
        U.IsCanonical b.5 × V.IsCanonical b.6) × (or_exclusive (or_exclusive (or_exclusive (or_exclusive (or_exclusive (or_exclusive (first_exclusive P.Form
        P.Fails b.0) Q.Form Q.Fails b.1) R.Form R.Fails b.2) S.Form S.Fails b.3) T.Form T.Fails b.4) U.Form U.Fails b.5) V.Form V.Fails b.6).AreExclusive };

    ghost accepts_forms = { λ p c. let b = p.parsers in let e = P.Error.errors in alt_accepts e (or_accepts e (or_accepts e (or_accepts e (or_accepts e
        (or_accepts e (or_accepts e (λ d. P.accepts_forms b.0 c.0.0) (Q.accepts_forms b.1 c.0.1)) (R.accepts_forms b.2 c.0.2)) (S.accepts_forms b.3 c.0.3))
        (T.accepts_forms b.4 c.0.4)) (U.accepts_forms b.5 c.0.5)) (V.accepts_forms b.6 c.0.6) c.1) };

    ghost one_form = { λ p c. let b = p.parsers in or_one (or_one (or_one (or_one (or_one (or_one (λ d. P.one_form b.0 c.0.0) (Q.one_form b.1 c.0.1))
        (R.one_form b.2 c.0.2)) (S.one_form b.3 c.0.3)) (T.one_form b.4 c.0.4)) (U.one_form b.5 c.0.5)) (V.one_form b.6 c.0.6) c.1 };
}

impl<
    I: Items,
    P: Canonical<I>,
    Q: Canonical<I, Error = P::Error, Output = P::Output>,
    R: Canonical<I, Error = P::Error, Output = P::Output>,
    S: Canonical<I, Error = P::Error, Output = P::Output>,
    T: Canonical<I, Error = P::Error, Output = P::Output>,
    U: Canonical<I, Error = P::Error, Output = P::Output>,
    V: Canonical<I, Error = P::Error, Output = P::Output>,
    W: Canonical<I, Error = P::Error, Output = P::Output>,
> Canonical<I> for Choice<(P, Q, R, S, T, U, V, W)> {
    ghost IsCanonical = { λ p. let b = p.parsers in (P.IsCanonical b.0 × Q.IsCanonical b.1 × R.IsCanonical b.2 × S.IsCanonical b.3 × T.IsCanonical b.4 ×
        U.IsCanonical b.5 × V.IsCanonical b.6 × W.IsCanonical b.7) × (or_exclusive (or_exclusive (or_exclusive (or_exclusive (or_exclusive (or_exclusive
        (or_exclusive (first_exclusive P.Form P.Fails b.0) Q.Form Q.Fails b.1) R.Form R.Fails b.2) S.Form S.Fails b.3) T.Form T.Fails b.4) U.Form U.Fails b.5)
        V.Form V.Fails b.6) W.Form W.Fails b.7).AreExclusive };

    ghost accepts_forms = { λ p c. let b = p.parsers in let e = P.Error.errors in alt_accepts e (or_accepts e (or_accepts e (or_accepts e (or_accepts e
        (or_accepts e (or_accepts e (or_accepts e (λ d. P.accepts_forms b.0 c.0.0) (Q.accepts_forms b.1 c.0.1)) (R.accepts_forms b.2 c.0.2)) (S.accepts_forms
        b.3 c.0.3)) (T.accepts_forms b.4 c.0.4)) (U.accepts_forms b.5 c.0.5)) (V.accepts_forms b.6 c.0.6)) (W.accepts_forms b.7 c.0.7) c.1) };

    ghost one_form = { λ p c. let b = p.parsers in or_one (or_one (or_one (or_one (or_one (or_one (or_one (λ d. P.one_form b.0 c.0.0) (Q.one_form b.1 c.0.1))
        (R.one_form b.2 c.0.2)) (S.one_form b.3 c.0.3)) (T.one_form b.4 c.0.4)) (U.one_form b.5 c.0.5)) (V.one_form b.6 c.0.6)) (W.one_form b.7 c.0.7) c.1 };
}
