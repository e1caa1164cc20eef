//! Grammars of one rule that contains itself, to a depth.
ghost use Rattle.nom_internal.specs.Word.{Answers, Word};
ghost use Rattle.nom_recursion.specs.Recursion.{recursive_of};

use crate::recursion::{OfRule, Rules, recursive_rule};
use nom_error::answer::IResult;
use nom_error::mode::IsStreaming;
use nom_error::value::ParseError;
use nom_internal::parser::Parser;
use nom_traits::input::Items;
use nom_traits::rests::CutRest;
use nom_traits::view::Viewed;

/// A grammar of one rule that contains itself, by one of its layers.
///
/// A layer is an ordinary parser over the parser of the layers inside it. Of nested brackets it is one pair.
pub trait Layer<I: Items> {
    /// The output of each layer.
    type Output: Viewed + Drop;

    /// The error of each layer.
    type Error: ParseError<I>;

    /// The word of a layer, by the word of the layers inside it.
    ghost layer_of: { Self → Word I Self.Output Self.Error → Word I Self.Output Self.Error };

    /// Parses one layer in the mode `S`. `inner` is the parser of the layers inside it.
    fn layer<S: IsStreaming, P: Parser<I, Output = Self::Output, Error = Self::Error> + Copy>(
        &self,
        inner: P,
        input: I,
    ) -> IResult<I, Self::Output, Self::Error>
        requires runs { (P.grammar (P.state inner)).meaning.Runs }
        ensures { Answers I.model (layer_of self.now (P.word (P.state inner))) S.STREAMING input result };
}

/// A grammar of layers, as one of a single rule.
#[derive(Drop)]
struct OneRule<'g, G> {
    grammar: &'g G,
}

impl<I: Items, G: Layer<I>> Rules<I> for OneRule<'_, G> {
    type Rule = ();

    type Output = G::Output;

    type Error = G::Error;

    ghost rule_of = { λ g inner _. G.layer_of g.grammar.now (inner tt) };

    #[inline(always)]
    fn rule<S: IsStreaming, P: Parser<I, Output = G::Output, Error = G::Error> + OfRule<()>>(
        &self,
        _rule: (),
        inner: P,
        input: I,
    ) -> IResult<I, G::Output, G::Error> {
        self.grammar.layer::<S, P>(inner.of(()), input)
    }
}

/// Parses a grammar that contains itself, in the mode `S`, where at most `depth` layers may lie in each other.
///
/// A layer that would lie deeper fails with `TooLarge` at its start, so the stack is bounded.
#[inline(always)]
pub fn recursive<S: IsStreaming, I: CutRest, G: Layer<I>>(
    grammar: &G,
    depth: usize,
    input: I,
) -> IResult<I, G::Output, G::Error>
    ensures { Answers I.model (recursive_of I.model G.Error.errors G.Output.view S.STREAMING (G.layer_of grammar.now) depth) S.STREAMING input result }
{
    recursive_rule::<S, I, OneRule<'_, G>>(&OneRule { grammar }, (), depth, input)
}
