//! Searches for a position in a range of a vector with standing queries.
ghost use Rattle.lv_bodies.specs.declared.kinds.Kind.TheVariants as kind;
ghost use Rattle.lv_standing.specs.Standings.{Searches};
ghost use Rattle.lv_tree.specs.Where.{IsEndReached, IsFirstIndex, IsLastIndex, IsPlaceOfBest, IsPlaceOfGreatest, IsPlaceOfLeast, IsStartReached, kind_within};

use crate::standing::Standing;
use lv_geometry::Refusal;
use lv_tree::{Bound, Placed, Run};

impl Standing {
    /// The least element from index `lo` up to `hi`, and the first index that has it, or none if the range is empty. O(log n), once the kind
    /// `Least` has followed the edits since its last question. Refused with `BadRange`, then `OutOfRange`. Takes no memory.
    pub fn first_least(&mut self, lo: u32, hi: u32) -> Result<Option<Placed>, Refusal>
        ensures { Searches IsPlaceOfLeast kind.Least self.old lo hi result self.new }
    {
        lv_tree::first_least(self.live.view().cells, &mut self.kinds, lo, hi)
    }

    /// The greatest element from index `lo` up to `hi`, and the first index that has it. Asked and refused as `first_least` is, by the kind
    /// `Greatest`.
    pub fn first_greatest(&mut self, lo: u32, hi: u32) -> Result<Option<Placed>, Refusal>
        ensures { Searches IsPlaceOfGreatest kind.Greatest self.old lo hi result self.new }
    {
        lv_tree::first_greatest(self.live.view().cells, &mut self.kinds, lo, hi)
    }

    /// The run with the maximum sum from index `lo` up to `hi`, or none if the range is empty. Of several it is the one that ends first, and
    /// of those the shortest. Asked and refused as `first_least` is, by the kind `Best`.
    pub fn best_run(&mut self, lo: u32, hi: u32) -> Result<Option<Run>, Refusal>
        ensures { Searches IsPlaceOfBest kind.Best self.old lo hi result self.new }
    {
        lv_tree::best_run(self.live.view().cells, &mut self.kinds, lo, hi)
    }

    /// The first index from `lo` up to `hi` whose element is within a bound, or none. Asked and refused as `first_least` is.
    pub fn first_index(&mut self, bound: Bound, lo: u32, hi: u32) -> Result<Option<u32>, Refusal>
        ensures { Searches (IsFirstIndex bound) (kind_within bound) self.old lo hi result self.new }
    {
        lv_tree::first_index(self.live.view().cells, &mut self.kinds, bound, lo, hi)
    }

    /// The last index from `lo` up to `hi` whose element is within a bound, or none. Asked and refused as `first_least` is.
    pub fn last_index(&mut self, bound: Bound, lo: u32, hi: u32) -> Result<Option<u32>, Refusal>
        ensures { Searches (IsLastIndex bound) (kind_within bound) self.old lo hi result self.new }
    {
        lv_tree::last_index(self.live.view().cells, &mut self.kinds, bound, lo, hi)
    }

    /// The least end, from `lo` to `hi`, for which the elements from index `lo` up to that end add up to at least `sum`, or none. Elements
    /// may be negative, and no sum wraps. Asked by the kind `Best`, and refused as `first_least` is.
    pub fn reaches(&mut self, lo: u32, hi: u32, sum: i128) -> Result<Option<u32>, Refusal>
        ensures { Searches (λ xs lo hi. IsEndReached xs lo hi sum) kind.Best self.old lo hi result self.new }
    {
        lv_tree::reaches(self.live.view().cells, &mut self.kinds, lo, hi, sum)
    }

    /// The greatest start, from `hi` down to `lo`, for which the elements from that start up to index `hi` add up to at least `sum`, or none.
    /// Asked and refused as `reaches` is.
    pub fn reaches_back(&mut self, lo: u32, hi: u32, sum: i128) -> Result<Option<u32>, Refusal>
        ensures { Searches (λ xs lo hi. IsStartReached xs lo hi sum) kind.Best self.old lo hi result self.new }
    {
        lv_tree::reaches_back(self.live.view().cells, &mut self.kinds, lo, hi, sum)
    }
}
