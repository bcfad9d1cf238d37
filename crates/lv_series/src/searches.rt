//! The place at which a range of a series comes to have what a search looks for, by the tree of the search's kind.
ghost use Rattle.std.specs.Prelude.{◌≡◌, ◌+◌, ◌*◌, ◌≤◌, true, length};
ghost use Rattle.lv_series.specs.Blocks.{IsWindow};
ghost use Rattle.lv_series.specs.Places.{Finds, FindsIn, IsSearchable};
ghost use Rattle.lv_series.specs.Series.{keeps_kind};
ghost use Rattle.lv_series.specs.Trees.{AreOver, kinds_in};
ghost use Rattle.lv_tree.specs.Sought.{kind_for};

use crate::series::Series;
use crate::trees::Trees;
use lv_tree::{AtLeast, AtMost, Beginning, Ending, RunOf, Sought};

impl Trees {
    // The end at which the range from a place on comes to have what is sought, at most `to`, or none. Looking `back` it is the start at
    // which the range up to a place does, at least `from`.
    fn find(
        &self,
        sought: Sought,
        elements: &[i64],
        base: u64,
        first: u64,
        from: usize,
        to: usize,
        back: bool,
    ) -> Option<usize>
        requires window { IsWindow base first elements.now }
        requires over { AreOver base first elements.now self.now }
        requires kept { keeps_kind (kinds_in self.now) (kind_for sought) ≡ true }
        requires low { first ≤ 8 * base + from }
        requires order { from ≤ to }
        requires high { to ≤ length elements.now }
        ensures { Finds back sought elements.now from to result }
    {
        match sought {
            Sought::AtMost(bound) => {
                self.least
                    .find(elements, base, first, &AtMost(bound), from, to, back)
            }
            Sought::AtLeast(bound) => {
                self.greatest
                    .find(elements, base, first, &AtLeast(bound), from, to, back)
            }
            Sought::Run(bound) => {
                self.best
                    .find(elements, base, first, &RunOf(bound), from, to, back)
            }
            Sought::Beginning(bound) => {
                self.best
                    .find(elements, base, first, &Beginning(bound), from, to, back)
            }
            Sought::Ending(bound) => {
                self.best
                    .find(elements, base, first, &Ending(bound), from, to, back)
            }
        }
    }
}

impl Series {
    // The end at which the range from index `lo` on comes to have what is sought, at most `hi`, or none. Looking `back` it is the start at
    // which the range up to index `hi` does, at least `lo`.
    #[tactic(auto, using(crate::proofs::PlaceLaws::found_in, crate::proofs::PlaceLaws::none_found_in, crate::proofs::FreeLaws::free_range))]
    pub(crate) fn find(&self, sought: Sought, lo: u64, hi: u64, back: bool) -> Option<u64>
        requires { IsSearchable self.now (kind_for sought) lo hi }
        ensures { FindsIn back sought self.now.held lo hi result }
    {
        let gone = 8 * self.base;
        let elements = self.elements.as_slice();
        let (from, to) = ((lo - gone) as usize, (hi - gone) as usize);
        match self
            .trees
            .find(sought, elements, self.base, self.first, from, to, back)
        {
            Some(place) => Some(gone + place as u64),
            None => None,
        }
    }
}
