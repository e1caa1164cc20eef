//! Values that are written to slices.
ghost use Rattle.std.specs.Prelude.{◌≡◌, ◌≤◌, ℕ, IfErr, IfOk, length, take};
ghost use Rattle.nom_sink.specs.Written.Lack.{OfSpace};

use crate::piece::OneValue;
use crate::writer::Writer;
use nom_sink::error::WriteError;
use nom_sink::piece::put_in_slice;
use nom_traits::input::Items;
use std::marker::PhantomData;

/// Writes a form of a value to the start of a slice, and returns the number of its items. Without room for it, the answer is `Full`.
#[inline]
pub fn write_to_slice<I: Items, P: Writer<I>>(
    parser: &P,
    value: &P::Output,
    buffer: &mut [I::Item],
) -> Result<usize, WriteError>
where
    I::Item: Copy,
    requires { P.CanWrite parser.now }
    ensures written { IfOk result (λ n. (n ≤ length buffer.new) × P.Form parser.now value.now (take n buffer.new)) }
    ensures length { length buffer.new ≡ length buffer.old }
    ensures fails { IfErr result (λ e. (room : ℕ) × (length buffer.old ≤ room) ×
        P.Fails parser.now value.now (record { lack = OfSpace; room = room; start = 0 }) e) }
{
    put_in_slice(&OneValue::<I, P>(parser, value, PhantomData), buffer)
}
