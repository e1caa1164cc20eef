//! The traits of parsers that also write.
ghost use Rattle.std.specs.Prelude.{Option, None, ◌≡◌, ◌≤◌, List, length};
ghost use Rattle.nom_write.specs.FirstSets.{HasFirst, StartsWith, CodeWords};
ghost use Rattle.nom_write.specs.Reads.{Reads, ReadsSome};
ghost use Rattle.nom_sink.specs.Written.{LacksRoom, Space, Written};

use nom_internal::parser::StreamParser;
use nom_sink::error::WriteError;
use nom_sink::sink::Sink;
use nom_traits::input::Items;

/// A parser that also writes. What it writes for a value, it reads back as that value.
pub trait Writer<I: Items>: StreamParser<I> {
    ghost use Rattle.nom_sink.specs.declared.error.WriteError.{WriteError};

    /// The items that stand for a value, such as bytes: its forms.
    ghost Form: { Self → Self.Output → List I.Item → Type 0 };

    /// Why a value isn't written, by the length and the room of the sink.
    ghost Fails: { Self → Self.Output → Space → WriteError → Type 0 };

    /// What may follow a form: the follow set.
    ghost Follow: { Self → List I.Item → Type 0 } = { λ _ _. Unit {0} };

    /// What a caller of `write` must prove: that the form of each part may follow the part before it.
    ghost CanWrite: { Self → Type 0 } = { λ _. Unit {0} };

    /// What forms begin with, if the parser alone determines it: the first set. It has words, each the codes of some items. The parser
    /// refuses as many other items.
    ///
    /// Branches are kept apart if their words differ. The code of a byte is the byte, that of a character its code point, and that of a
    /// bit 1 or 0.
    ghost First: { Self → Option CodeWords } = { λ _. None };

    /// Adds a form of a value to `out`. On an error, `out` is as it was.
    fn write<S: Sink<I::Item>>(&self, value: &Self::Output, out: &mut S) -> Result<(), WriteError>
        requires { CanWrite self.now }
        ensures written { Written (Form self.now value.now) (Fails self.now value.now) S.model out.old out.new result }
        ensures room { S.model.room out.old ≤ S.model.room out.new }
        ensures loan { S.model.loan out.new ≡ S.model.loan out.old };

    /// Each form of a value is read back as that value.
    ghost reads: { (p : Self) → (Self.grammar (Self.state p)).meaning.IsSound → CanWrite p → Reads I.model (Self.grammar (Self.state p))
        (Form p) (Follow p) };

    /// Each form begins with a word of `First`, and other items are refused.
    ghost begins: { (p : Self) → HasFirst I.model I.Item.code (Self.grammar (Self.state p)) (Form p) (First p) };
}

/// A parser that also writes without a value, as a tag does. Parts whose output is dropped must be constants.
pub trait Constant<I: Items>: StreamParser<I> {
    /// The items.
    ghost items: { Self → List I.Item };

    /// What the items begin with, if it tells them apart: as for `First` of a `Writer`.
    ghost Start: { Self → Option CodeWords } = { λ _. None };

    /// What a caller of `write_constant` must prove: that the parser accepts the items.
    ghost Fits: { Self → Type 0 } = { λ _. Unit {0} };

    /// Adds the items to `out`. On an error, `out` is as it was.
    fn write_constant<S: Sink<I::Item>>(&self, out: &mut S) -> Result<(), WriteError>
        requires { Fits self.now }
        ensures written { Written (λ xs. xs ≡ items self.now) (LacksRoom (length (items self.now))) S.model out.old out.new result }
        ensures room { S.model.room out.old ≤ S.model.room out.new }
        ensures loan { S.model.loan out.new ≡ S.model.loan out.old };

    /// The items are accepted, whatever follows.
    ghost accepts: { (p : Self) → (Self.grammar (Self.state p)).meaning.IsSound → Fits p → ReadsSome I.model (Self.grammar (Self.state p)) (items p) };

    /// The items begin with a word of `Start`, and other items are refused.
    ghost others: { (p : Self) → StartsWith I.model I.Item.code (Self.grammar (Self.state p)).meaning (items p) (Start p) };
}
