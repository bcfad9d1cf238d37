//! The series: a list that goes on, and whose front may be dropped.
ghost use Rattle.std.specs.Prelude.{◌≡◌, ◌^◌, ◌≤◌, [], length, All};
ghost use Rattle.lv_geometry.specs.Elements.{IsElement};
ghost use Rattle.lv_bodies.specs.Automata.{table_of};
ghost use Rattle.lv_series.specs.Plain.{plain_series};
ghost use Rattle.lv_series.specs.Series.{size_of};

use crate::trees::Trees;
use lv_bodies::Automaton;
use std::alloc::Global;
use std::marker::Model;

/// The most that an index behind the last element may be: 2^62.
pub const MOST: u64 = 1 << 62;

/// A list of `i64` that goes on: in practice its elements and edits are bounded by memory only, since there are 2^62 indices and 2^64 - 1 edits.
/// Elements at its front may expire. Elements are kept under the indices from `first` up to `size`. An element takes 8 bytes of memory, and at
/// most 16 when the array has just grown. A tree takes 2 bytes an element more (of the best run 16), and at most 6 (45) when it has grown or its
/// window slides. Expired elements give their memory back: if more than half of the array would be idle it shrinks, and each tree is made anew
/// over the elements that are left, if there is memory for that.
#[derive(Drop)]
pub struct Series {
    // The block that is first in memory.
    pub(crate) base: u64,
    pub(crate) first: u64,
    pub(crate) edits: u64,
    pub(crate) elements: Vec<i64>,
    pub(crate) trees: Trees,
}

impl Model for Series {
    ghost use Rattle.lv_series.specs.Blocks.{IsWindow};
    ghost use Rattle.lv_series.specs.Plain.{SeriesState};
    ghost use Rattle.lv_series.specs.Series.{held_in};
    ghost use Rattle.lv_series.specs.Trees.{AreOver, kinds_in, table_in};

    ghost Value = { SeriesState };

    ghost view = { λ a. record {
      table = table_in a.trees;
      kinds = kinds_in a.trees;
      held = held_in a.base a.first a.elements.items;
      edits = a.edits;
    } };

    ghost invariant = { λ a. IsWindow a.base a.first a.elements.items × AreOver a.base a.first a.elements.items a.trees };
}

impl Series {
    /// A series without elements, and without trees. `automaton` is the one by which the kind of that name folds. Takes no memory.
    pub fn new(alloc: Global, automaton: Automaton) -> Series
        ensures { result ≡ plain_series (table_of automaton) [] }
    {
        Series {
            base: 0,
            first: 0,
            edits: 0,
            elements: Vec::new(alloc),
            trees: Trees::new(alloc, automaton),
        }
    }

    /// The index of the first element that is kept, or of the next one if none is.
    #[inline(always)]
    pub fn first(&self) -> u64
        ensures { result ≡ self.now.held.first }
    {
        self.first
    }

    /// The index behind the last element.
    #[inline(always)]
    pub fn size(&self) -> u64
        ensures { result ≡ size_of self.now.held }
    {
        8 * self.base + self.elements.len() as u64
    }

    /// The number of the last accepted edit, 0 before any.
    #[inline(always)]
    pub fn edits(&self) -> u64
        ensures { result ≡ self.now.edits }
    {
        self.edits
    }

    /// The automaton by which the kind of that name folds.
    pub fn automaton(&self) -> Automaton
        ensures { table_of result ≡ self.now.table }
    {
        self.trees.states.body()
    }

    /// For how many elements there is memory. After an expiry these are at most twice those that are kept, and 64.
    pub fn room(&self) -> usize {
        self.elements.capacity()
    }

    /// What holds of every series, for a caller who continues a scan: each element has 64 bits, and no index is above 2^62. Computes nothing.
    pub fn holds(&self)
        ensures elements { All IsElement self.now.held.elements }
        ensures few { size_of self.now.held ≤ 2 ^ 62 }
        ensures room { length self.now.held.elements ≤ 2 ^ 59 }
    {
        let _len = self.elements.len();
    }
}
