//! A set of numbers below 64: one word, with nothing over it.
ghost use Rattle.std.specs.Prelude.{◌≡◌, ◌∷◌, []};

use crate::upper::Upper;
use lv_geometry::Refusal;
use std::alloc::Global;

/// A bit for each number.
#[derive(Drop)]
pub struct OneWord {
    bits: u64,
}

impl Upper for OneWord {
    ghost words = { λ a. a.bits ∷ [] };

    ghost capacity = { λ _. 64 };

    fn new(_alloc: Global) -> OneWord {
        OneWord { bits: 0 }
    }

    fn reserve(&mut self, marks: u32) -> Result<(), Refusal> {
        if marks <= 64 {
            Ok(())
        } else {
            Err(Refusal::NoMemory)
        }
    }

    fn grow(&mut self, _marks: u32) {}

    #[inline(always)]
    fn set(&mut self, i: u32) {
        self.bits |= 1 << i;
    }

    #[inline(always)]
    fn clear(&mut self, i: u32) {
        self.bits &= !(1 << i);
    }

    #[inline(always)]
    fn least(&self) -> Option<u32> {
        if self.bits == 0 {
            return None;
        }
        Some(self.bits.trailing_zeros())
    }
}
