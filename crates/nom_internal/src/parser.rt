//! Parsers.
ghost use Rattle.std.specs.Prelude.{◌≡◌, true, false, Option};
ghost use Rattle.nom_error.specs.Modes.{Modes, modes};
ghost use Rattle.nom_internal.specs.Grammar.{Grammar, Parses, Shows};
ghost use Rattle.nom_internal.specs.Meaning.{IsLawful, IsSteady};
ghost use Rattle.nom_internal.specs.Pinned.{IsPinned};
ghost use Rattle.nom_internal.specs.Results.{IsFull, HoldsSame, rest_of};
ghost use Rattle.nom_internal.specs.Width.{HasWidth};
ghost use Rattle.nom_internal.specs.Word.{Answers, Word};

use crate::and_then::AndThen;
use crate::either::Or;
use crate::flat_map::FlatMap;
use crate::into::Into;
use crate::judged::{MapOpt, MapRes};
use crate::map::Map;
use crate::sequence::And;
use nom_error::answer::{Err, IResult, PResult};
use nom_error::mode::{Complete, Emit, IsStreaming, Mode, OutputM, OutputMode, Streaming};
use nom_error::outside::FromExternalError;
use nom_error::value::ParseError;
use nom_traits::input::Items;
use nom_traits::view::Viewed;
use std::marker::PhantomData;

/// A parser over inputs of type `I`.
///
/// Its meaning is one fixed function from a mode, streaming or complete, and an input to an outcome.
/// `process` shows that outcome.
pub trait Parser<I: Items>: Sized {
    /// The output of an acceptance.
    type Output: Drop;

    /// The error of a refusal or a failure.
    type Error: ParseError<I>;

    /// The part of the parser on which its meaning depends.
    ghost State: { Type 0 };

    ghost state: { Self → State };

    /// The parse trees of accepted input.
    ghost Tree: { Type 0 };

    /// The grammar of the parser: its meaning, and the outputs that a tree represents.
    ghost grammar: { State → Grammar I Tree Self.Output Self.Error };

    /// The word of that grammar. A contract that states it is found to hold.
    ghost word: { State → Word I Self.Output Self.Error };

    ghost worded: { (s : State) → word s ≡ record { Tree = Tree; grammar = grammar s } };

    /// The condition that a call must prove in addition to its outcome.
    ///
    /// It depends on the mode, the parser before and after, the input, and the accepted rest.
    ghost SideCondition: { Modes → Self → Self → I → Option I → Type 0 } = { λ _ _ _ _ _. Unit {0} };

    /// Runs the parser in the mode `OM`.
    ///
    /// The mode determines whether the output and the error are built, and whether more input may come.
    fn process<OM: OutputMode>(&mut self, input: I) -> PResult<I, Self::Output, Self::Error>
        requires runs { (grammar (state self.old)).meaning.Runs }
        ensures shown { Shows I.model (grammar (state self.old)) (modes OM.Output.BUILDS OM.Error.BUILDS OM.Incomplete.STREAMING) input result }
        // A call keeps the meaning.
        ensures kept { state self.new ≡ state self.old }
        ensures side_condition { SideCondition (modes OM.Output.BUILDS OM.Error.BUILDS OM.Incomplete.STREAMING) self.old self.new input (rest_of result) };

    /// Returns the number of items that the parser takes from every input that has so many, or 0 if there is no
    /// such number.
    #[inline(always)]
    fn width(&self) -> usize
        ensures { HasWidth I.model (grammar (state self.now)).meaning result }
    {
        0
    }

    /// The laws of a sound parser.
    ///
    /// - Each mode and input has one outcome.
    /// - Only prefixes of the input are accepted.
    /// - If the parser is frugal, memory never runs out.
    /// - If the parser settles, decided streaming outcomes are the complete ones.
    /// - If the parser never fails, there is no failure.
    ghost lawful: { (s : State) → (grammar s).meaning.IsSound → IsLawful I.model (grammar s).meaning };

    /// Parses an input in streaming mode: more input may come.
    #[inline(always)]
    final fn parse(&mut self, input: I) -> IResult<I, Self::Output, Self::Error>
        requires runs { (grammar (state self.old)).meaning.Runs }
        ensures written { Answers I.model (word (state self.old)) true input result }
        ensures shown { Parses I.model (grammar (state self.old)) true input result }
        ensures kept { state self.new ≡ state self.old }
        ensures side_condition { SideCondition (modes true true true) self.old self.new input (rest_of result) }
    {
        full(self.process::<OutputM<Emit, Emit, Streaming>>(input))
    }

    /// Parses an input in complete mode: no more input comes.
    #[inline(always)]
    final fn parse_complete(&mut self, input: I) -> IResult<I, Self::Output, Self::Error>
        requires runs { (grammar (state self.old)).meaning.Runs }
        ensures written { Answers I.model (word (state self.old)) false input result }
        ensures shown { Parses I.model (grammar (state self.old)) false input result }
        ensures kept { state self.new ≡ state self.old }
        ensures side_condition { SideCondition (modes true true false) self.old self.new input (rest_of result) }
    {
        full(self.process::<OutputM<Emit, Emit, Complete>>(input))
    }

    /// Parses an input in the mode `S`: like `parse` for `Streaming`, and like `parse_complete` for `Complete`.
    ///
    /// A function that is generic over its mode calls it.
    #[inline(always)]
    final fn parse_in<S: IsStreaming>(&mut self, input: I) -> IResult<I, Self::Output, Self::Error>
        requires runs { (grammar (state self.old)).meaning.Runs }
        ensures written { Answers I.model (word (state self.old)) S.STREAMING input result }
        ensures shown { Parses I.model (grammar (state self.old)) S.STREAMING input result }
        ensures kept { state self.new ≡ state self.old }
        ensures side_condition { SideCondition (modes true true S.STREAMING) self.old self.new input (rest_of result) }
    {
        full(self.process::<OutputM<Emit, Emit, S>>(input))
    }

    /// Runs this parser and then another, and returns both outputs.
    ///
    /// `tag("a").and(tag("b"))` on `"abc"` returns `("a", "b")` and leaves `"c"`.
    final fn and<G: Parser<I, Error = Self::Error>>(self, second: G) -> And<Self, G>
        ensures first { result.first ≡ self }
        ensures second { result.second ≡ second }
    {
        And {
            first: self,
            second,
        }
    }

    /// Runs this parser, and then on the rest the parser that a closure returns for its output.
    #[inline(always)]
    final fn flat_map<H: Parser<I, Error = Self::Error>, G: Fn(Self::Output) -> H>(
        self,
        make: G,
    ) -> FlatMap<Self, G>
        ensures first { result.first ≡ self }
        ensures make { result.make ≡ make }
    {
        FlatMap { first: self, make }
    }

    /// Runs this parser, and another one if it refuses.
    ///
    /// `tag("a").or(tag("b"))` on `"bc"` returns `"b"` and leaves `"c"`.
    #[inline(always)]
    final fn or<G: Parser<I, Output = Self::Output, Error = Self::Error>>(
        self,
        other: G,
    ) -> Or<Self, G>
        ensures first { result.first ≡ self }
        ensures second { result.second ≡ other }
    {
        Or {
            first: self,
            second: other,
        }
    }

    /// Runs this parser, and another one on its output alone. It returns the output of the other, and the
    /// rest of this one.
    #[inline(always)]
    final fn and_then<G: Parser<Self::Output, Error = Self::Error>>(
        self,
        next: G,
    ) -> AndThen<Self, G>
    where
        Self::Output: Items,
        Self::Error: ParseError<Self::Output>,
        ensures first { result.first ≡ self }
        ensures second { result.second ≡ next }
    {
        AndThen {
            first: self,
            second: next,
        }
    }

    /// Maps the output of this parser with a closure. The closure is called only if outputs are built.
    #[inline(always)]
    final fn map<O: Drop, G: Fn(Self::Output) -> O>(self, map: G) -> Map<Self, G>
        ensures parser { result.parser ≡ self }
        ensures map { result.map ≡ map }
    {
        Map { parser: self, map }
    }

    /// Maps the output of this parser with a closure.
    ///
    /// If the closure returns `None`, the input is refused at its start with `MapOpt`.
    #[inline(always)]
    final fn map_opt<O: Drop, G: Fn(Self::Output) -> Option<O>>(self, map: G) -> MapOpt<Self, G>
        ensures parser { result.parser ≡ self }
        ensures map { result.map ≡ map }
    {
        MapOpt { parser: self, map }
    }

    /// Maps the output of this parser with a closure.
    ///
    /// If the closure returns an error, the input is refused at its start. `from_external_error` makes the
    /// error of the refusal from it, with `MapRes`.
    #[inline(always)]
    final fn map_res<O: Drop, X: Drop, G: Fn(Self::Output) -> Result<O, X>>(
        self,
        map: G,
    ) -> MapRes<Self, G>
    where
        Self::Error: FromExternalError<I, X>,
        ensures parser { result.parser ≡ self }
        ensures map { result.map ≡ map }
    {
        MapRes { parser: self, map }
    }

    /// Converts the output and the error of this parser by `From`.
    #[inline(always)]
    final fn into<O: From<Self::Output>, E: From<Self::Error>>(self) -> Into<Self, O, E>
        ensures { result.parser ≡ self }
    {
        Into {
            parser: self,
            of: PhantomData,
        }
    }
}

/// A parser whose decided streaming outcomes hold on every longer input. Its outputs are compared by a view.
pub trait StreamParser<I: Items>: Parser<I, Output: Viewed> {
    /// The condition under which the outputs that a tree represents have equal views.
    ///
    /// It is that closures return results with equal views for arguments with equal views.
    ghost Pins: { Self → Type 0 } = { λ _. Unit {0} };

    /// Does nothing. A parser is called through `Parser`.
    #[inline(always)]
    fn streams(&self) {}

    /// If the parser pins, two outputs of one tree have equal views.
    ghost pinned: { (p : Self) → (Self.grammar (Self.state p)).meaning.IsSound → Self.StreamParser.Pins p →
        IsPinned Self.Output.view (Self.grammar (Self.state p)).IsOutput };

    /// A decided streaming outcome holds on every longer input.
    ghost steady: { (s : Self.State) → (Self.grammar s).meaning.IsSound → IsSteady I.model (Self.grammar s).meaning };
}

/// Removes the options from a result in which outputs and errors are built.
#[inline(always)]
pub fn full<I: Drop, O: Drop, E: Drop>(answer: PResult<I, O, E>) -> IResult<I, O, E>
    requires { IsFull answer }
    ensures { HoldsSame answer result }
{
    match answer {
        Ok(accepted) => {
            let (rest, output) = accepted;
            match output {
                Some(output) => Ok((rest, output)),
                None => unreachable!(),
            }
        }
        Err(Err::Incomplete(needed)) => Err(Err::Incomplete(needed)),
        Err(Err::Error(Some(error))) => Err(Err::Error(error)),
        Err(Err::Error(None)) => unreachable!(),
        Err(Err::Failure(error)) => Err(Err::Failure(error)),
        Err(Err::OutOfMemory) => Err(Err::OutOfMemory),
    }
}
