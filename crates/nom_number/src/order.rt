//! Byte orders.
ghost use Rattle.std.specs.Prelude.{◌≡◌};
ghost use Rattle.nom_number.specs.Orders.{is_big};

/// The order of a number's bytes.
#[derive(Debug, Clone, Copy, PartialEq, Eq)]
pub enum Endianness {
    /// Big-endian: the most significant byte comes first.
    Big,
    /// Little-endian: the least significant byte comes first.
    Little,
    /// The order of the machine, which is assumed to be little-endian.
    Native,
}

impl Endianness {
    /// Returns whether the most significant byte comes first.
    #[inline(always)]
    pub fn is_big(self) -> bool
        ensures { result ≡ is_big self }
    {
        match self {
            Endianness::Big => true,
            Endianness::Little => false,
            Endianness::Native => false,
        }
    }
}
