//! Choices whose reports tell of their branches.
ghost use Rattle.std.specs.Prelude.{◌∷◌, [], Bool, List};
ghost use Rattle.nom_report.specs.Furthest.{EachRefuses, TellsOfErrors, refuses_with};
ghost use Rattle.nom_report.specs.declared.value.Report.{Report};
ghost use Rattle.nom_report.specs.laws.Branches.{closed, first, next};

use crate::place::Placed;
use crate::value::Report;
use nom_branch::Choice;
use nom_internal::parser::Parser;

/// A choice among a tuple of parsers, whose report tells of its branches.
pub trait Branches<I: Placed>: Parser<I, Error = Report<I>> {
    /// Each branch refuses an input, with an error of its own.
    ghost AllRefuse: { Self → Bool → I → List (Report I) → Type 0 };

    /// Where the choice refuses, so does each branch, and the choice's report tells what theirs do.
    ghost tells: { (p : Self) → (Self.grammar (Self.state p)).meaning.IsSound → (s : Bool) → TellsOfErrors I.place I.model (AllRefuse p s)
        (Self.grammar (Self.state p)).meaning s };
}

impl<
    I: Placed,
    A: Parser<I, Error = Report<I>>,
    B: Parser<I, Error = Report<I>, Output = A::Output>,
> Branches<I> for Choice<(A, B)> {
    ghost AllRefuse = { λ p s. EachRefuses (refuses_with s (A.grammar (A.state p.parsers.0)).meaning ∷ refuses_with s (B.grammar (B.state
        p.parsers.1)).meaning ∷ []) };

    ghost tells = { λ p k s. closed (next (B.lawful (B.state p.parsers.1) k.1) (first (A.lawful (A.state p.parsers.0) k.0))) };
}

impl<
    I: Placed,
    A: Parser<I, Error = Report<I>>,
    B: Parser<I, Error = Report<I>, Output = A::Output>,
    C: Parser<I, Error = Report<I>, Output = A::Output>,
> Branches<I> for Choice<(A, B, C)> {
    ghost AllRefuse = { λ p s. EachRefuses (refuses_with s (A.grammar (A.state p.parsers.0)).meaning ∷ refuses_with s (B.grammar (B.state
        p.parsers.1)).meaning ∷ refuses_with s (C.grammar (C.state p.parsers.2)).meaning ∷ []) };

    ghost tells = { λ p k s. closed (next (C.lawful (C.state p.parsers.2) k.1) (next (B.lawful (B.state p.parsers.1) k.0.1) (first (A.lawful (A.state
        p.parsers.0) k.0.0)))) };
}

impl<
    I: Placed,
    A: Parser<I, Error = Report<I>>,
    B: Parser<I, Error = Report<I>, Output = A::Output>,
    C: Parser<I, Error = Report<I>, Output = A::Output>,
    D: Parser<I, Error = Report<I>, Output = A::Output>,
> Branches<I> for Choice<(A, B, C, D)> {
    ghost AllRefuse = { λ p s. EachRefuses (refuses_with s (A.grammar (A.state p.parsers.0)).meaning ∷ refuses_with s (B.grammar (B.state
        p.parsers.1)).meaning ∷ refuses_with s (C.grammar (C.state p.parsers.2)).meaning ∷ refuses_with s (D.grammar (D.state p.parsers.3)).meaning ∷
        []) };

    ghost tells = { λ p k s. closed (next (D.lawful (D.state p.parsers.3) k.1) (next (C.lawful (C.state p.parsers.2) k.0.1) (next (B.lawful (B.state
        p.parsers.1) k.0.0.1) (first (A.lawful (A.state p.parsers.0) k.0.0.0))))) };
}

impl<
    I: Placed,
    A: Parser<I, Error = Report<I>>,
    B: Parser<I, Error = Report<I>, Output = A::Output>,
    C: Parser<I, Error = Report<I>, Output = A::Output>,
    D: Parser<I, Error = Report<I>, Output = A::Output>,
    E: Parser<I, Error = Report<I>, Output = A::Output>,
> Branches<I> for Choice<(A, B, C, D, E)> {
    ghost AllRefuse = { λ p s. EachRefuses (refuses_with s (A.grammar (A.state p.parsers.0)).meaning ∷ refuses_with s (B.grammar (B.state
        p.parsers.1)).meaning ∷ refuses_with s (C.grammar (C.state p.parsers.2)).meaning ∷ refuses_with s (D.grammar (D.state p.parsers.3)).meaning ∷
        refuses_with s (E.grammar (E.state p.parsers.4)).meaning ∷ []) };

    ghost tells = { λ p k s. closed (next (E.lawful (E.state p.parsers.4) k.1) (next (D.lawful (D.state p.parsers.3) k.0.1) (next (C.lawful (C.state
        p.parsers.2) k.0.0.1) (next (B.lawful (B.state p.parsers.1) k.0.0.0.1) (first (A.lawful (A.state p.parsers.0) k.0.0.0.0)))))) };
}

impl<
    I: Placed,
    A: Parser<I, Error = Report<I>>,
    B: Parser<I, Error = Report<I>, Output = A::Output>,
    C: Parser<I, Error = Report<I>, Output = A::Output>,
    D: Parser<I, Error = Report<I>, Output = A::Output>,
    E: Parser<I, Error = Report<I>, Output = A::Output>,
    F: Parser<I, Error = Report<I>, Output = A::Output>,
> Branches<I> for Choice<(A, B, C, D, E, F)> {
    ghost AllRefuse = { λ p s. EachRefuses (refuses_with s (A.grammar (A.state p.parsers.0)).meaning ∷ refuses_with s (B.grammar (B.state
        p.parsers.1)).meaning ∷ refuses_with s (C.grammar (C.state p.parsers.2)).meaning ∷ refuses_with s (D.grammar (D.state p.parsers.3)).meaning ∷
        refuses_with s (E.grammar (E.state p.parsers.4)).meaning ∷ refuses_with s (F.grammar (F.state p.parsers.5)).meaning ∷ []) };

    ghost tells = { λ p k s. closed (next (F.lawful (F.state p.parsers.5) k.1) (next (E.lawful (E.state p.parsers.4) k.0.1) (next (D.lawful (D.state
        p.parsers.3) k.0.0.1) (next (C.lawful (C.state p.parsers.2) k.0.0.0.1) (next (B.lawful (B.state p.parsers.1) k.0.0.0.0.1) (first (A.lawful
        (A.state p.parsers.0) k.0.0.0.0.0))))))) };
}

impl<
    I: Placed,
    A: Parser<I, Error = Report<I>>,
    B: Parser<I, Error = Report<I>, Output = A::Output>,
    C: Parser<I, Error = Report<I>, Output = A::Output>,
    D: Parser<I, Error = Report<I>, Output = A::Output>,
    E: Parser<I, Error = Report<I>, Output = A::Output>,
    F: Parser<I, Error = Report<I>, Output = A::Output>,
    G: Parser<I, Error = Report<I>, Output = A::Output>,
> Branches<I> for Choice<(A, B, C, D, E, F, G)> {
    ghost AllRefuse = { λ p s. EachRefuses (refuses_with s (A.grammar (A.state p.parsers.0)).meaning ∷ refuses_with s (B.grammar (B.state
        p.parsers.1)).meaning ∷ refuses_with s (C.grammar (C.state p.parsers.2)).meaning ∷ refuses_with s (D.grammar (D.state p.parsers.3)).meaning ∷
        refuses_with s (E.grammar (E.state p.parsers.4)).meaning ∷ refuses_with s (F.grammar (F.state p.parsers.5)).meaning ∷ refuses_with s
        (G.grammar (G.state p.parsers.6)).meaning ∷ []) };

    ghost tells = { λ p k s. closed (next (G.lawful (G.state p.parsers.6) k.1) (next (F.lawful (F.state p.parsers.5) k.0.1) (next (E.lawful (E.state
        p.parsers.4) k.0.0.1) (next (D.lawful (D.state p.parsers.3) k.0.0.0.1) (next (C.lawful (C.state p.parsers.2) k.0.0.0.0.1) (next (B.lawful
        (B.state p.parsers.1) k.0.0.0.0.0.1) (first (A.lawful (A.state p.parsers.0) k.0.0.0.0.0.0)))))))) };
}

impl<
    I: Placed,
    A: Parser<I, Error = Report<I>>,
    B: Parser<I, Error = Report<I>, Output = A::Output>,
    C: Parser<I, Error = Report<I>, Output = A::Output>,
    D: Parser<I, Error = Report<I>, Output = A::Output>,
    E: Parser<I, Error = Report<I>, Output = A::Output>,
    F: Parser<I, Error = Report<I>, Output = A::Output>,
    G: Parser<I, Error = Report<I>, Output = A::Output>,
    H: Parser<I, Error = Report<I>, Output = A::Output>,
> Branches<I> for Choice<(A, B, C, D, E, F, G, H)> {
    ghost AllRefuse = { λ p s. EachRefuses (refuses_with s (A.grammar (A.state p.parsers.0)).meaning ∷ refuses_with s (B.grammar (B.state
        p.parsers.1)).meaning ∷ refuses_with s (C.grammar (C.state p.parsers.2)).meaning ∷ refuses_with s (D.grammar (D.state p.parsers.3)).meaning ∷
        refuses_with s (E.grammar (E.state p.parsers.4)).meaning ∷ refuses_with s (F.grammar (F.state p.parsers.5)).meaning ∷ refuses_with s
        (G.grammar (G.state p.parsers.6)).meaning ∷ refuses_with s (H.grammar (H.state p.parsers.7)).meaning ∷ []) };

    ghost tells = { λ p k s. closed (next (H.lawful (H.state p.parsers.7) k.1) (next (G.lawful (G.state p.parsers.6) k.0.1) (next (F.lawful (F.state
        p.parsers.5) k.0.0.1) (next (E.lawful (E.state p.parsers.4) k.0.0.0.1) (next (D.lawful (D.state p.parsers.3) k.0.0.0.0.1) (next (C.lawful
        (C.state p.parsers.2) k.0.0.0.0.0.1) (next (B.lawful (B.state p.parsers.1) k.0.0.0.0.0.0.1) (first (A.lawful (A.state p.parsers.0)
        k.0.0.0.0.0.0.0))))))))) };
}
