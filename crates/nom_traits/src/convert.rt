//! Numbers as counts and lengths.
ghost use Rattle.std.specs.Prelude.{◌≡◌, ℕ};

/// A whole number of at least 0, as a count or a length.
pub trait ToUsize {
    /// The number.
    ghost size: { Self → ℕ };

    /// Returns the number as a `usize`. Each one fits, because a `usize` has 64 bits.
    fn to_usize(&self) -> usize
        ensures { result ≡ size self.now };
}

impl ToUsize for u8 {
    ghost size = { λ n. n };

    #[inline(always)]
    fn to_usize(&self) -> usize {
        *self as usize
    }
}

impl ToUsize for u16 {
    ghost size = { λ n. n };

    #[inline(always)]
    fn to_usize(&self) -> usize {
        *self as usize
    }
}

impl ToUsize for u32 {
    ghost size = { λ n. n };

    #[inline(always)]
    fn to_usize(&self) -> usize {
        *self as usize
    }
}

impl ToUsize for u64 {
    ghost size = { λ n. n };

    #[inline(always)]
    fn to_usize(&self) -> usize {
        *self as usize
    }
}

impl ToUsize for usize {
    ghost size = { λ n. n };

    #[inline(always)]
    fn to_usize(&self) -> usize {
        *self
    }
}
