//! The scans of the classes, each of which is compiled on its own.
//!
//! A scan in blocks is large. If it were inlined where a run is parsed, the parsers around it would be too large to be inlined.
ghost use Rattle.nom_internal.specs.Prelude.{IsInside, IsOutside, IsPosition};
ghost use Rattle.nom_traits.specs.declared.character.AsciiClass.{AsciiClass};
ghost use Rattle.nom_traits.specs.declared.character.AsciiClass.TheVariants as Class;

use nom_traits::character::{AsChar, AsciiClass};
use nom_traits::input::Input;

/// A class that is known where a scan is compiled.
trait KnownClass {
    ghost CLASS: { AsciiClass };

    const CLASS: AsciiClass;
}

struct Alpha;

impl KnownClass for Alpha {
    ghost CLASS = { Class.Alpha };

    const CLASS: AsciiClass = AsciiClass::Alpha;
}

struct Digit;

impl KnownClass for Digit {
    ghost CLASS = { Class.Digit };

    const CLASS: AsciiClass = AsciiClass::Digit;
}

struct HexDigit;

impl KnownClass for HexDigit {
    ghost CLASS = { Class.HexDigit };

    const CLASS: AsciiClass = AsciiClass::HexDigit;
}

struct OctDigit;

impl KnownClass for OctDigit {
    ghost CLASS = { Class.OctDigit };

    const CLASS: AsciiClass = AsciiClass::OctDigit;
}

struct BinDigit;

impl KnownClass for BinDigit {
    ghost CLASS = { Class.BinDigit };

    const CLASS: AsciiClass = AsciiClass::BinDigit;
}

struct Alphanumeric;

impl KnownClass for Alphanumeric {
    ghost CLASS = { Class.Alphanumeric };

    const CLASS: AsciiClass = AsciiClass::Alphanumeric;
}

struct Space;

impl KnownClass for Space {
    ghost CLASS = { Class.Space };

    const CLASS: AsciiClass = AsciiClass::Space;
}

struct MultiSpace;

impl KnownClass for MultiSpace {
    ghost CLASS = { Class.MultiSpace };

    const CLASS: AsciiClass = AsciiClass::MultiSpace;
}

/// Returns the place of the first item outside a class that is known.
#[inline]
fn scan<I: Input, C: KnownClass>(input: I) -> Option<usize>
where
    I::Item: AsChar,
    ensures { IsPosition I.model (λ x. IsInside C.CLASS (I.Item.code x)) (λ x. IsOutside C.CLASS (I.Item.code x)) input result }
{
    input.position_outside(C::CLASS)
}

/// Returns the place of the first item outside the class.
#[inline(always)]
pub(crate) fn first_outside<I: Input>(input: I, class: AsciiClass) -> Option<usize>
where
    I::Item: AsChar,
    ensures { IsPosition I.model (λ x. IsInside class (I.Item.code x)) (λ x. IsOutside class (I.Item.code x)) input result }
{
    match class {
        AsciiClass::Alpha => scan::<I, Alpha>(input),
        AsciiClass::Digit => scan::<I, Digit>(input),
        AsciiClass::HexDigit => scan::<I, HexDigit>(input),
        AsciiClass::OctDigit => scan::<I, OctDigit>(input),
        AsciiClass::BinDigit => scan::<I, BinDigit>(input),
        AsciiClass::Alphanumeric => scan::<I, Alphanumeric>(input),
        AsciiClass::Space => scan::<I, Space>(input),
        AsciiClass::MultiSpace => scan::<I, MultiSpace>(input),
    }
}
