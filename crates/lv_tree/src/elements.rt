//! Elements in order, wherever they are kept: a vector's, or those of one array.
ghost use Rattle.std.specs.Prelude.{◌≡◌, ℤ, ◌+◌, ◌^◌, ◌<◌, ◌≤◌, List, All, length};
ghost use Rattle.std.specs.List.{slice_index_or, slice_range};
ghost use Rattle.lv_geometry.specs.Elements.{IsElement};

use lv_edits::Edits;
use std::marker::Model;

/// Elements in order, read by their place: at most 2^61 numbers of 64 bits.
pub trait Elements {
    // The elements, in order.
    ghost listed: { Self → List ℤ };

    /// The element at a place.
    fn read(&self, at: usize) -> i64
        requires { at < length (listed self.now) }
        ensures { result ≡ slice_index_or (listed self.now) at result };

    /// The elements from place `lo` on, before `hi`, lent without a copy: as many as are side by side there. There may be none; `read` returns
    /// the element then.
    fn run(&self, lo: usize, hi: usize) -> &[i64]
        requires order { lo < hi }
        requires inside { hi ≤ length (listed self.now) }
        ensures elements { result.now ≡ slice_range (listed self.now) lo (lo + length result.now) }
        ensures few { lo + length result.now ≤ hi };

    /// What holds of them all. Computes nothing.
    fn bounds(&self)
        ensures few { length (listed self.now) ≤ 2 ^ 61 }
        ensures elements { All IsElement (listed self.now) };
}

impl Elements for Edits {
    ghost use Rattle.lv_edits.specs.History.{list_of};

    ghost listed = { λ h. list_of h.journal };

    #[inline(always)]
    fn read(&self, at: usize) -> i64 {
        // By this there are known to be few.
        let _edit = self.edit();
        Edits::read(self, at as u32)
    }

    #[inline(always)]
    fn run(&self, lo: usize, hi: usize) -> &[i64] {
        let _edit = self.edit();
        self.stretch(lo as u32, hi as u32)
    }

    #[inline(always)]
    fn bounds(&self) {
        let _edit = self.edit();
    }
}

/// The elements of an array, side by side.
#[derive(Drop)]
pub struct Items<'a> {
    items: &'a [i64],
}

impl<'a> Model for Items<'a> {
    ghost use Rattle.std.specs.Prelude.{ℤ, List, All};
    ghost use Rattle.lv_geometry.specs.Elements.{IsElement};

    ghost Value = { List ℤ };

    ghost view = { λ a. a.items.now };

    ghost invariant = { λ a. All IsElement a.items.now };
}

impl<'a> Items<'a> {
    /// The elements of a slice. Copies nothing.
    #[inline(always)]
    pub fn new(items: &'a [i64]) -> Items<'a>
        requires { All IsElement items.now }
        ensures { result ≡ items.now }
    {
        Items { items }
    }
}

impl<'a> Elements for Items<'a> {
    ghost listed = { λ xs. xs };

    #[inline(always)]
    fn read(&self, at: usize) -> i64 {
        let items = self.items;
        items[at]
    }

    #[inline(always)]
    fn run(&self, lo: usize, hi: usize) -> &[i64] {
        &self.items[lo..hi]
    }

    #[inline(always)]
    fn bounds(&self) {
        let _items = self.items;
    }
}
