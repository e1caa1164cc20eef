//! Slices of bytes as inputs. The items are the bytes, each of length 1.
ghost use Rattle.std.specs.Prelude.{◌-◌, length, Some, refl};
ghost use Rattle.nom_traits.specs.Bytes.{bytes_model, bytes_lawful};

use crate::character::CodeSet;
use crate::elements::{ByteIndices, Bytes};
use crate::input::{Input, Items};
use crate::lanes::bytes_outside;
use nom_error::answer::Needed;

impl Items for &[u8] {
    type Item = u8;

    ghost model = { bytes_model };

    #[inline(always)]
    fn known(self) {
        let _n = self.len();
    }

    #[inline(always)]
    fn group_count(&self, width: usize, most: usize) -> usize {
        if width == 0 {
            return 0;
        }
        let groups = most.min(self.len() / width);
        match groups.checked_mul(width) {
            Some(count) if count <= self.len() => groups,
            _ => 0,
        }
    }

    ghost lawful = { bytes_lawful };

    ghost values = { λ i h. h.0 };
}

impl<'a> Input for &'a [u8] {
    ghost lack = { λ count xs. Some (count - length xs) };

    type Iter = Bytes<'a>;

    type IterIndices = ByteIndices<'a>;

    #[inline(always)]
    fn input_len(&self) -> usize {
        self.len()
    }

    #[inline(always)]
    fn take(&self, index: usize) -> Self {
        let slice = *self;
        slice.known();
        &slice[..index]
    }

    #[inline(always)]
    fn take_from(&self, index: usize) -> Self {
        let slice = *self;
        slice.known();
        &slice[index..]
    }

    #[inline(always)]
    fn slice_index(&self, count: usize) -> Result<usize, Needed> {
        if self.len() >= count {
            Ok(count)
        } else {
            Err(Needed::new(count - self.len()))
        }
    }

    #[inline(always)]
    fn item_len(&self, _item: &u8) -> usize {
        1
    }

    #[inline(always)]
    fn iter_elements(&self) -> Bytes<'a> {
        Bytes::new(self)
    }

    #[inline(always)]
    fn iter_indices(&self) -> ByteIndices<'a> {
        ByteIndices::new(self)
    }

    #[inline(always)]
    fn run_end(&self, set: CodeSet<'_>) -> Option<Option<usize>> {
        Some(bytes_outside(self, set))
    }

    ghost more = { λ _. tt };

    ghost views = { λ x y h. h.elements_are };

    ghost view_injective = { λ x y e. record { elements_are = e; mark_is = refl } };
}
