//! The places of inputs that know their line and column.
ghost use Rattle.nom_located.specs.laws.LocatedLaws.{rest_offset};

use crate::place::Placed;
use nom_located::Located;
use nom_search::bytes::ByteItems;

/// Uses the offset as the place. In a piece that was cut out of the whole, it is still the offset in the
/// whole.
impl<I: ByteItems, X: Copy> Placed for Located<I, X> {
    ghost place = { λ x. x.offset };

    #[inline(always)]
    fn place(&self) -> usize {
        self.location_offset()
    }

    ghost rests = { λ i j n k p. rest_offset I.model I.read I.reading (λ x. x.fragment)
        (λ x. record { offset = x.offset; line = x.line; column = x.column }) (λ x. x.extra) i j n p };
}
