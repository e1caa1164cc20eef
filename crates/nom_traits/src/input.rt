//! Inputs.
ghost use Rattle.std.specs.Prelude.{◌≡◌, ◌<◌, ℕ, List, cond, length, Option, true, false, not, MatchOption, MatchResult};
ghost use Rattle.std.specs.Char.{IsScalar};
ghost use Rattle.std.specs.Iterator.{AlwaysYields, IsFinite};
ghost use Rattle.nom_error.specs.Answers.{size_of, Refuses};
ghost use Rattle.nom_traits.specs.Classes.{has_code, IsIn, IsInside, IsNotIn, IsOutside};
ghost use Rattle.nom_traits.specs.Input.{Model, InputLaws, AreValues, HasGroups, placed, IsBoundary, IsPrefixOf, IsSuffixOf, IsSame, input_len};
ghost use Rattle.nom_traits.specs.Slices.{IsCount};
ghost use Rattle.nom_traits.specs.Runs.{IsPosition};
ghost use Rattle.nom_traits.specs.Splits.{Splits, Never, RefusesWith, FrontBuilt};

use crate::character::{AsChar, AsciiClass, CodeSet};
use crate::split::{front_built, refused, run_len};
use crate::view::Viewed;
use nom_error::answer::{Err, IResult, Needed, PResult};
use nom_error::kind::ErrorKind;
use nom_error::mode::{Complete, OutputMode, Streaming};
use nom_error::value::{ParseError, refusal};

/// A type of items.
pub trait Value {
    /// The values in contracts that are values of the type.
    ghost IsValue: { Self → Type 0 };

    /// The code point of a value that represents a character, 1 or 0 for a bit, and 0 for any other value.
    ghost code: { Self → ℕ } = { λ _. 0 };
}

impl Value for u8 {
    ghost IsValue = { λ b. b < 256 };

    ghost code = { λ b. b };
}

impl Value for char {
    ghost IsValue = { λ c. IsScalar c };

    ghost code = { λ c. c };
}

impl Value for bool {
    ghost IsValue = { λ _. Unit {0} };

    ghost code = { λ b. cond b 1 0 };
}

/// Treats a reference as the value that it points to.
impl<T: Value> Value for &T {
    ghost IsValue = { λ r. T.IsValue r.now };

    ghost code = { λ r. T.code r.now };
}

/// A value whose model is a list of items with a mark. Each item has a length of at least 1.
pub trait Items: Copy {
    /// The type of the items.
    type Item: Value;

    /// The model of the values.
    ghost model: { Model Self Self.Item };

    /// Changes nothing. Its contract states that a value of the type is an input.
    fn known(self)
        ensures { model.IsKnown self };

    /// Returns a number of groups of `width` items that the input has, at most `most`. It may have more of them.
    #[inline(always)]
    fn group_count(&self, width: usize, most: usize) -> usize
        ensures { HasGroups model self.now width most result }
    {
        0
    }

    /// Each item has a length, and the mark after some items follows from the items.
    ghost lawful: { InputLaws model };

    /// The items are values of their type.
    ghost values: { (i : Self) → model.IsKnown i → AreValues Self.Item.IsValue (model.elements i) };
}

/// An input that can be cut at the places between its items.
pub trait Input: Items + Viewed {
    /// The size that is needed if a list has fewer items than a count, or `None` if it is unknown.
    ghost lack: { ℕ → List Self.Item → Option ℕ };

    /// An iterator over the items.
    type Iter: Iterator<Item = Self::Item>;

    /// An iterator over the items, each with its place.
    type IterIndices: Iterator<Item = (usize, Self::Item)>;

    /// Returns the length: the sum of the lengths of the items.
    fn input_len(&self) -> usize
        ensures { result ≡ input_len Self.model self.now };

    /// Returns the first items, of total length `index`.
    fn take(&self, index: usize) -> Self
        requires { IsBoundary Self.model self.now index }
        ensures { IsPrefixOf Self.model self.now index result };

    /// Returns the rest after the first items, of total length `index`.
    fn take_from(&self, index: usize) -> Self
        requires { IsBoundary Self.model self.now index }
        ensures { IsSuffixOf Self.model self.now index result };

    /// Returns the length of the first `count` items, or the size needed if there are fewer.
    fn slice_index(&self, count: usize) -> Result<usize, Needed>
        ensures { MatchResult result
            (λ n. IsCount Self.model self.now count n)
            (λ k. (length (Self.model.elements self.now) < count) × (size_of k ≡ lack count (Self.model.elements self.now))) };

    /// Returns the length of an item.
    fn item_len(&self, item: &Self::Item) -> usize
        ensures { result ≡ Self.model.item_len item.now };

    /// Returns an iterator over the items.
    fn iter_elements(&self) -> Self::Iter
        ensures gives { AlwaysYields Self.Iter.next_gives (λ x. x) result (Self.model.elements self.now) }
        ensures can { Self.Iter.can_next result }
        ensures ends { IsFinite (Self.Iter.remaining result) };

    /// Returns an iterator over the items, each with its place.
    fn iter_indices(&self) -> Self::IterIndices
        ensures gives { AlwaysYields Self.IterIndices.next_gives (λ x. x) result (placed Self.model.item_len 0 (Self.model.elements self.now)) }
        ensures can { Self.IterIndices.can_next result }
        ensures ends { IsFinite (Self.IterIndices.remaining result) };

    /// Returns whether `iter_indices` is faster than adding up lengths. This is a hint, and promises nothing.
    #[inline(always)]
    fn knows_places(&self) -> bool {
        false
    }

    /// Returns the place of the first item whose code isn't in the set, if the input has a faster way than
    /// item by item.
    ///
    /// The inner option is `None` if all codes are in the set. The outer one is `None` if there is no faster
    /// way.
    fn run_end(&self, set: CodeSet<'_>) -> Option<Option<usize>>
        ensures { MatchOption result (Unit {0})
            (λ place. IsPosition Self.model (λ x. IsIn set.entry (Self.Item.code x)) (λ x. IsNotIn set.entry (Self.Item.code x)) self.now place) }
    {
        None
    }

    /// Any items may follow.
    ghost more: { (xs : List Self.Item) → Self.model.IsMore xs };

    /// Inputs that are equal as models have equal views.
    ghost views: { (x y : Self) → IsSame Self.model x y → Self.view.value x ≡ Self.view.value y };

    /// Inputs that have equal views are equal as models: they have the same items and the same mark.
    ghost view_injective: { (x y : Self) → Self.view.value x ≡ Self.view.value y → IsSame Self.model x y };

    /// Returns the rest and then the first items, of total length `index`.
    #[inline(always)]
    final fn take_split(&self, index: usize) -> (Self, Self)
        requires { IsBoundary Self.model self.now index }
        ensures rest { IsSuffixOf Self.model self.now index result.0 }
        ensures front { IsPrefixOf Self.model self.now index result.1 }
    {
        (self.take_from(index), self.take(index))
    }

    /// Returns the place of the first item for which the predicate returns true, or `None` if there is none.
    #[inline(always)]
    final fn position<P: Fn(Self::Item) -> bool>(&self, predicate: P) -> Option<usize>
        requires { P.IsAlwaysCallable predicate }
        ensures { IsPosition Self.model (λ x. P.post predicate x false) (λ x. P.post predicate x true) self.now result }
    {
        if self.knows_places() {
            first_place(self, predicate)
        } else {
            length_before(self, predicate)
        }
    }

    /// Returns the place of the first item that isn't in the class, or `None` if all are.
    #[inline(always)]
    final fn position_outside(&self, class: AsciiClass) -> Option<usize>
    where
        Self::Item: AsChar,
        ensures { IsPosition Self.model (λ x. IsInside class (Self.Item.code x)) (λ x. IsOutside class (Self.Item.code x)) self.now result }
    {
        match self.run_end(CodeSet::Class(class)) {
            Some(place) => place,
            None => {
                let is_outside = |item: Self::Item| -> bool
                    ensures { result ≡ not (has_code class (Self.Item.code item)) }
                { !class.has(item) };
                self.position(is_outside)
            }
        }
    }

    /// Splits the input before the first item for which the predicate returns true. The rest comes first in
    /// the result.
    ///
    /// If there is no such item, more input is needed.
    #[inline(always)]
    final fn split_at_position<P: Fn(Self::Item) -> bool, E: ParseError<Self>>(
        &self,
        predicate: P,
    ) -> IResult<Self, Self, E>
        requires { P.IsAlwaysCallable predicate }
        ensures { Splits Self.model (λ x. P.post predicate x false) (λ x. P.post predicate x true) true self.now false (IsPrefixOf Self.model) Never result }
    {
        match run_len::<Self, Streaming, P>(*self, predicate) {
            Some(n) => Ok(self.take_split(n)),
            None => Err(Err::Incomplete(Needed::new(1))),
        }
    }

    /// Splits the input like `split_at_position`, after at least one item.
    ///
    /// If the predicate returns true for the first item, it refuses with `kind`.
    #[inline(always)]
    final fn split_at_position1<P: Fn(Self::Item) -> bool, E: ParseError<Self>>(
        &self,
        predicate: P,
        kind: ErrorKind,
    ) -> IResult<Self, Self, E>
        requires { P.IsAlwaysCallable predicate }
        ensures { Splits Self.model (λ x. P.post predicate x false) (λ x. P.post predicate x true) true self.now true (IsPrefixOf Self.model)
            (RefusesWith (E.errors.of_kind self.now kind) E.errors.grows) result }
    {
        match run_len::<Self, Streaming, P>(*self, predicate) {
            Some(n) if n == 0 => Err(refused(*self, kind)),
            Some(n) => Ok(self.take_split(n)),
            None => Err(Err::Incomplete(Needed::new(1))),
        }
    }

    /// Splits the input like `split_at_position`, but in complete mode: no more input may come.
    ///
    /// If the predicate returns true for no item, the whole input is taken.
    #[inline(always)]
    final fn split_at_position_complete<P: Fn(Self::Item) -> bool, E: ParseError<Self>>(
        &self,
        predicate: P,
    ) -> IResult<Self, Self, E>
        requires { P.IsAlwaysCallable predicate }
        ensures { Splits Self.model (λ x. P.post predicate x false) (λ x. P.post predicate x true) false self.now false (IsPrefixOf Self.model) Never result }
    {
        match run_len::<Self, Complete, P>(*self, predicate) {
            Some(n) => Ok(self.take_split(n)),
            None => unreachable!(),
        }
    }

    /// Splits the input like `split_at_position_complete`, after at least one item.
    ///
    /// If the input is empty, or the predicate returns true for the first item, it refuses with `kind`.
    #[inline(always)]
    final fn split_at_position1_complete<P: Fn(Self::Item) -> bool, E: ParseError<Self>>(
        &self,
        predicate: P,
        kind: ErrorKind,
    ) -> IResult<Self, Self, E>
        requires { P.IsAlwaysCallable predicate }
        ensures { Splits Self.model (λ x. P.post predicate x false) (λ x. P.post predicate x true) false self.now true (IsPrefixOf Self.model)
            (RefusesWith (E.errors.of_kind self.now kind) E.errors.grows) result }
    {
        match run_len::<Self, Complete, P>(*self, predicate) {
            Some(n) if n == 0 => Err(refused(*self, kind)),
            Some(n) => Ok(self.take_split(n)),
            None => unreachable!(),
        }
    }

    /// Splits the input like `split_at_position` or `split_at_position_complete`, depending on the mode.
    ///
    /// The items are returned only if outputs are built.
    #[inline(always)]
    final fn split_at_position_mode<OM: OutputMode, P: Fn(Self::Item) -> bool, E: ParseError<Self>>(
        &self,
        predicate: P,
    ) -> PResult<Self, Self, E>
        requires { P.IsAlwaysCallable predicate }
        ensures { Splits Self.model (λ x. P.post predicate x false)
            (λ x. P.post predicate x true) OM.Incomplete.STREAMING self.now false (FrontBuilt Self.model OM.Output.BUILDS) Never result }
    {
        match run_len::<Self, OM::Incomplete, P>(*self, predicate) {
            Some(n) => Ok((self.take_from(n), front_built::<OM::Output, Self>(*self, n))),
            None => Err(Err::Incomplete(Needed::new(1))),
        }
    }

    /// Splits the input like `split_at_position1` or `split_at_position1_complete`, depending on the mode.
    ///
    /// The items are returned only if outputs are built, and the error only if errors are built.
    #[inline(always)]
    final fn split_at_position_mode1<
        OM: OutputMode,
        P: Fn(Self::Item) -> bool,
        E: ParseError<Self>,
    >(&self, predicate: P, kind: ErrorKind) -> PResult<Self, Self, E>
        requires { P.IsAlwaysCallable predicate }
        ensures { Splits Self.model (λ x. P.post predicate x false)
            (λ x. P.post predicate x true) OM.Incomplete.STREAMING self.now true (FrontBuilt Self.model OM.Output.BUILDS)
            (Refuses (E.errors.of_kind self.now kind) E.errors.grows OM.Error.BUILDS) result }
    {
        match run_len::<Self, OM::Incomplete, P>(*self, predicate) {
            Some(n) if n == 0 => Err(refusal::<OM::Error, Self, E>(*self, kind)),
            Some(n) => Ok((self.take_from(n), front_built::<OM::Output, Self>(*self, n))),
            None => Err(Err::Incomplete(Needed::new(1))),
        }
    }
}

/// Returns the place of the first item for which the predicate returns true, from the places of the items.
#[inline(always)]
fn first_place<I: Input, P: Fn(I::Item) -> bool>(input: &I, predicate: P) -> Option<usize>
    requires { P.IsAlwaysCallable predicate }
    ensures { IsPosition I.model (λ x. P.post predicate x false) (λ x. P.post predicate x true) input.now result }
{
    for (place, item) in input.iter_indices() {
        if predicate(item) {
            return Some(place);
        }
    }
    None
}

/// Returns the place of the first item for which the predicate returns true, from the lengths of the items.
#[inline(always)]
fn length_before<I: Input, P: Fn(I::Item) -> bool>(input: &I, predicate: P) -> Option<usize>
    requires { P.IsAlwaysCallable predicate }
    ensures { IsPosition I.model (λ x. P.post predicate x false) (λ x. P.post predicate x true) input.now result }
{
    // The length is the bound of each place; it is read and not used.
    let _length = input.input_len();
    let mut place = 0;
    for item in input.iter_elements() {
        let after = place + input.item_len(&item);
        if predicate(item) {
            return Some(place);
        }
        place = after;
    }
    None
}
