//! Numbers that cost only addresses until they are written.
ghost use Rattle.std.specs.Prelude.{◌≡◌, ◌<◌, ◌≤◌, [], length, replicate, true, slice_get, slice_set, Some};
ghost use Rattle.lv_summary.specs.Inner.{lengthened};

use crate::late_rows::LateRows;
use std::alloc::Global;
use std::marker::Model;

/// How many numbers are side by side in one item.
const SIDE: usize = 8;

/// A list of numbers that is written in part; the rest of it is 0, and costs only addresses until it is written. Eight numbers are one item of
/// `LateRows`, so a piece has 4,096 of them: an allocator writes to each page in which a piece begins.
#[derive(Drop)]
pub struct LateNumbers {
    eights: LateRows<[u32; 8]>,
    count: usize,
}

impl Model for LateNumbers {
    ghost use Rattle.std.specs.Prelude.{◌≡◌, ℕ, ◌*◌, ◌≤◌, length, slice_index};
    ghost use Rattle.lv_summary.specs.Inner.{LateNumbersState, number_at, numbers_in};

    ghost Value = { LateNumbersState };

    ghost view = { λ a. record { items = numbers_in a.eights a.count; capacity = 8 * a.eights.capacity } };

    ghost invariant = { λ a. (a.count ≤ 8 * length a.eights.items)
        × ((k : ℕ) → a.count ≤ k → number_at a.eights k ≡ 0)
        × ((k : ℕ) → slice_index a.eights.blank k ≡ 0) };
}

impl LateNumbers {
    /// An empty list. Takes no memory.
    pub fn new(alloc: Global) -> LateNumbers
        ensures { result.items ≡ [] }
    {
        LateNumbers {
            eights: LateRows::new(alloc, [0; 8]),
            count: 0,
        }
    }

    /// Makes memory for so many numbers in all, and says whether there is. The list stays as it is.
    pub fn reserve(&mut self, items: usize) -> bool
        ensures items { self.new.items ≡ self.old.items }
        ensures room { result ≡ true → items ≤ self.new.capacity }
    {
        self.eights.reserve(items.div_ceil(SIDE))
    }

    /// Adds zeros, so that there are so many numbers in all, if there are fewer. Writes none of them.
    pub fn fill(&mut self, items: usize)
        requires { items ≤ self.old.capacity }
        ensures { self.new.items ≡ lengthened self.old.items items 0 }
    {
        self.eights.fill(items.div_ceil(SIDE));
        self.count = self.count.max(items);
    }

    /// How many numbers there are.
    pub fn len(&self) -> usize
        ensures { result ≡ length self.now.items }
    {
        self.count
    }

    /// Makes every number 0. Writes none of them.
    pub fn forget(&mut self)
        ensures { self.new.items ≡ replicate (length self.old.items) 0 }
    {
        self.eights.forget();
    }

    /// The number at a place.
    #[inline(always)]
    pub fn at(&self, place: usize) -> u32
        requires { place < length self.now.items }
        ensures { slice_get self.now.items place ≡ Some result }
    {
        self.eights.get(place / SIDE)[place % SIDE]
    }

    /// Puts a number at a place.
    #[inline(always)]
    pub fn set(&mut self, place: usize, x: u32)
        requires { place < length self.old.items }
        ensures { self.new.items ≡ slice_set self.old.items place x }
    {
        let mut eight = self.eights.at(place / SIDE);
        eight[place % SIDE] = x;
        self.eights.set(place / SIDE, eight);
    }
}
