//! Grammars that contain themselves as stream parsers: a decided answer stays on every longer input.
ghost use Rattle.std.specs.Prelude.{◌≡◌};
ghost use Rattle.nom_internal.specs.Prelude.{NeverTooLarge};
ghost use Rattle.nom_internal.specs.Word.{Word};
ghost use Rattle.nom_recursion.specs.Recursion.{too_deep_of};
ghost use Rattle.nom_recursion.specs.Streams.{StreamsAs, stream_rule_of};

use crate::recursion::{OfRule, too_deep};
use nom_calls::answer::stream_answer;
use nom_calls::func_in::{FuncIn, StreamFuncIn};
use nom_error::answer::IResult;
use nom_error::mode::Streaming;
use nom_error::value::ParseError;
use nom_internal::parser::StreamParser;
use nom_traits::input::Items;
use nom_traits::rests::CutRest;
use nom_traits::view::Viewed;
use std::marker::PhantomData;

/// A grammar of rules that contain each other, for inputs of which more may come.
///
/// It is `Rules` with more promised: an answer of it is that of a stream parser. A grammar of one rule has `type Rule = ();`.
pub trait StreamRules<I: Items> {
    /// Names the rules.
    type Rule: Copy;

    /// The output of each rule.
    type Output: Viewed + Drop;

    /// The error of each rule.
    type Error: ParseError<I>;

    /// The word of a rule, by the words of the rules inside it.
    ghost rule_of: { Self → (Self.Rule → Word I Self.Output Self.Error) → Self.Rule → Word I Self.Output Self.Error };

    /// Parses a rule, and ends with `stream_answer_as`. `inner.of(other)` is the parser of another rule inside it.
    fn rule<P: StreamParser<I, Output = Self::Output, Error = Self::Error> + OfRule<Self::Rule>>(
        &self,
        rule: Self::Rule,
        inner: P,
        input: I,
    ) -> IResult<I, Self::Output, Self::Error>
        requires runs { (r : Self.Rule) → (P.grammar (P.state (P.at inner r))).meaning.Runs }
        requires sound { (r : Self.Rule) → (P.grammar (P.state (P.at inner r))).meaning.IsSound }
        requires pins { (r : Self.Rule) → P.Pins (P.at inner r) }
        requires never_too_large { (r : Self.Rule) → NeverTooLarge (P.grammar (P.state (P.at inner r))).meaning }
        ensures { StreamsAs I.model Self.Output.view (rule_of self.now (λ r. P.word (P.state (P.at inner r))) rule) input result };
}

impl<R: Copy, F: Copy, I, O, E> OfRule<R> for StreamFuncIn<R, F, I, O, E> {
    ghost at = { λ p r. record { func = record { alloc = r; f = p.func.f; of = p.func.of } } };

    #[inline(always)]
    fn of(self, rule: R) -> StreamFuncIn<R, F, I, O, E> {
        StreamFuncIn {
            func: FuncIn {
                alloc: rule,
                f: self.func.f,
                of: PhantomData,
            },
        }
    }
}

/// Runs a parser on an input of which more may come, like `stream_answer`, and ensures that answer by the parser's word.
#[inline(always)]
pub fn stream_answer_as<I: Items, P: StreamParser<I> + Drop>(
    mut parser: P,
    input: I,
) -> IResult<I, P::Output, P::Error>
    requires runs { (P.grammar (P.state parser)).meaning.Runs }
    requires sound { (P.grammar (P.state parser)).meaning.IsSound }
    requires pins { P.Pins parser }
    requires never_too_large { NeverTooLarge (P.grammar (P.state parser)).meaning }
    ensures { StreamsAs I.model P.Output.view (P.word (P.state parser)) input result }
{
    stream_answer(&mut parser, input)
}

/// Parses a rule of a grammar, where at most `depth` rules may lie in each other. More input may come.
///
/// A rule that would lie deeper fails with `TooLarge` at its start. `stream_func` of it is a stream parser.
pub fn stream_recursive_rule<I: CutRest, G: StreamRules<I>>(
    grammar: &G,
    rule: G::Rule,
    depth: usize,
    input: I,
) -> IResult<I, G::Output, G::Error>
    ensures { StreamsAs I.model G.Output.view (stream_rule_of I.model G.Error.errors G.Output.view (G.rule_of grammar.now) depth rule) input result }
{
    if depth == 0 {
        return too_deep::<Streaming, I, G::Output, G::Error>(input);
    }
    let below = depth - 1;
    let inside = |rule: G::Rule, input: I|
        ensures { StreamsAs I.model G.Output.view (stream_rule_of I.model G.Error.errors G.Output.view (G.rule_of grammar.entry.now) below rule) input result }
    { stream_recursive_rule::<I, G>(grammar, rule, below, input) };
    let inner = StreamFuncIn {
        func: FuncIn {
            alloc: rule,
            f: inside,
            of: PhantomData,
        },
    };
    grammar.rule::<_>(rule, inner, input)
}
