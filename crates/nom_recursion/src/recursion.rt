//! Grammars of rules that contain each other, to a depth.
ghost use Rattle.std.specs.Prelude.{◌≡◌};
ghost use Rattle.nom_internal.specs.Word.{Answers, Word};
ghost use Rattle.nom_recursion.specs.Recursion.{recursive_rule_of, too_deep_of};

use nom_calls::func_in::FuncIn;
use nom_error::answer::{Err, IResult};
use nom_error::kind::ErrorKind;
use nom_error::mode::IsStreaming;
use nom_error::value::ParseError;
use nom_internal::parser::Parser;
use nom_traits::input::Items;
use nom_traits::rests::CutRest;
use nom_traits::view::Viewed;
use std::marker::PhantomData;

/// A grammar of rules that contain each other, such as a value, an array and an object.
///
/// A rule is an ordinary parser over the parsers of the rules inside it. Those are one layer deeper.
pub trait Rules<I: Items> {
    /// Names the rules.
    type Rule: Copy;

    /// The output of each rule.
    type Output: Viewed + Drop;

    /// The error of each rule.
    type Error: ParseError<I>;

    /// The word of a rule, by the words of the rules inside it.
    ghost rule_of: { Self → (Self.Rule → Word I Self.Output Self.Error) → Self.Rule → Word I Self.Output Self.Error };

    /// Parses a rule in the mode `S`. `inner.of(other)` is the parser of another rule inside it.
    fn rule<
        S: IsStreaming,
        P: Parser<I, Output = Self::Output, Error = Self::Error> + OfRule<Self::Rule>,
    >(&self, rule: Self::Rule, inner: P, input: I) -> IResult<I, Self::Output, Self::Error>
        requires runs { (r : Self.Rule) → (P.grammar (P.state (P.at inner r))).meaning.Runs }
        ensures { Answers I.model (rule_of self.now (λ r. P.word (P.state (P.at inner r))) rule) S.STREAMING input result };
}

/// A parser of any of the rules of a grammar.
pub trait OfRule<R>: Copy {
    /// The parser of a rule.
    ghost at: { Self → R → Self };

    /// Returns the parser of a rule.
    fn of(self, rule: R) -> Self
        ensures { result ≡ at self rule };
}

impl<R: Copy, F: Copy, I, O, E> OfRule<R> for FuncIn<R, F, I, O, E> {
    ghost at = { λ p r. record { alloc = r; f = p.f; of = p.of } };

    #[inline(always)]
    fn of(self, rule: R) -> FuncIn<R, F, I, O, E> {
        FuncIn {
            alloc: rule,
            f: self.f,
            of: PhantomData,
        }
    }
}

/// Parses an input in the mode `S`, like the method `parse_in`.
///
/// A rule ends with it. It takes the parser by value, because the borrow checker doesn't cover a `&mut` of a parser that
/// holds texts of different lifetimes.
#[inline(always)]
pub fn parse_in<S: IsStreaming, I: Items, P: Parser<I> + Drop>(
    mut parser: P,
    input: I,
) -> IResult<I, P::Output, P::Error>
    requires runs { (P.grammar (P.state parser)).meaning.Runs }
    ensures { Answers I.model (P.word (P.state parser)) S.STREAMING input result }
{
    parser.parse_in::<S>(input)
}

/// Fails with `TooLarge` at the start.
#[cold]
pub(crate) fn too_deep<S: IsStreaming, I: Items, O: Drop, E: ParseError<I>>(
    input: I,
) -> IResult<I, O, E>
    ensures { Answers I.model (too_deep_of E.errors) S.STREAMING input result }
{
    match E::from_error_kind(input, ErrorKind::TooLarge) {
        Ok(error) => Err(Err::Failure(error)),
        Err(_) => Err(Err::OutOfMemory),
    }
}

/// Parses a rule of a grammar, in the mode `S`, where at most `depth` rules may lie in each other.
///
/// A rule that would lie deeper fails with `TooLarge` at its start, so the stack is bounded.
pub fn recursive_rule<S: IsStreaming, I: CutRest, G: Rules<I>>(
    grammar: &G,
    rule: G::Rule,
    depth: usize,
    input: I,
) -> IResult<I, G::Output, G::Error>
    ensures { Answers I.model (recursive_rule_of I.model G.Error.errors G.Output.view S.STREAMING (G.rule_of grammar.now) depth rule) S.STREAMING input result }
{
    if depth == 0 {
        return too_deep::<S, I, G::Output, G::Error>(input);
    }
    let below = depth - 1;
    let inside = |rule: G::Rule, input: I|
        ensures { Answers I.model (recursive_rule_of I.model G.Error.errors G.Output.view S.STREAMING (G.rule_of grammar.entry.now) below rule)
            S.STREAMING input result }
    { recursive_rule::<S, I, G>(grammar, rule, below, input) };
    let inner = FuncIn {
        alloc: rule,
        f: inside,
        of: PhantomData,
    };
    grammar.rule::<S, _>(rule, inner, input)
}
