//! Conversions of errors between parsers of bits and parsers of bytes.
ghost use Rattle.std.specs.Prelude.{◌≡◌};

use nom_error::kind::ErrorKind;
use nom_error::value::Error;

/// An error that can be converted to an `E`.
///
/// An input of bits becomes the input of bytes that contains the bits. An input of bytes becomes its bits,
/// from the first one on.
pub trait ErrorConvert<E> {
    /// The errors to which an error is converted.
    ghost converts: { Self → E → Type 0 };

    /// Returns the converted error.
    fn convert(self) -> E
        ensures { converts self result };
}

impl<I> ErrorConvert<(I, ErrorKind)> for ((I, usize), ErrorKind) {
    ghost converts = { λ e f. f ≡ (e.0.0, e.1) };

    #[inline(always)]
    fn convert(self) -> (I, ErrorKind) {
        let (input, kind) = self;
        let (bytes, _) = input;
        (bytes, kind)
    }
}

impl<I> ErrorConvert<((I, usize), ErrorKind)> for (I, ErrorKind) {
    ghost converts = { λ e f. f ≡ ((e.0, 0), e.1) };

    #[inline(always)]
    fn convert(self) -> ((I, usize), ErrorKind) {
        let (bytes, kind) = self;
        ((bytes, 0), kind)
    }
}

impl<I> ErrorConvert<Error<I>> for Error<(I, usize)> {
    ghost converts = { λ e f. f ≡ record { input = e.input.0; code = e.code } };

    #[inline(always)]
    fn convert(self) -> Error<I> {
        let (bytes, _) = self.input;
        Error {
            input: bytes,
            code: self.code,
        }
    }
}

impl<I> ErrorConvert<Error<(I, usize)>> for Error<I> {
    ghost converts = { λ e f. f ≡ record { input = (e.input, 0); code = e.code } };

    #[inline(always)]
    fn convert(self) -> Error<(I, usize)> {
        Error {
            input: (self.input, 0),
            code: self.code,
        }
    }
}

impl ErrorConvert<()> for () {
    ghost converts = { λ _ _. Unit {0} };

    #[inline(always)]
    fn convert(self) {}
}
