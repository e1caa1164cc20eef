//! A count that never ends.
ghost use Rattle.std.specs.Prelude.{◌≡◌, ◌+◌, ◌-◌, ◌^◌, min, Some};

/// An iterator that counts on from `count`, and stays at `usize::MAX`.
#[derive(Drop)]
pub struct SaturatingIterator {
    pub count: usize,
}

impl Iterator for SaturatingIterator {
    type Item = usize;

    ghost next_gives = { λ s r t. (r ≡ Some s.count) × (t.count ≡ min (s.count + 1) (2 ^ 64 - 1)) };

    fn next(&mut self) -> Option<usize> {
        let count = self.count;
        self.count = count.saturating_add(1);
        Some(count)
    }
}
