//! Searches for a position in a range of a series: that of the least and the greatest element, of the best run, and of an element within a bound,
//! and the index at which a sum from the range's start on, or up to its end, is reached.
//!
//! Each answer is stated in terms of the plain list of the elements that are kept. A search first makes the tree of one kind, if there is none,
//! and asks it for the place at which a test on folds becomes true: this takes O(log n) joins. It changes no element.
ghost use Rattle.std.specs.Prelude.{◌≡◌, false, IfSome};
ghost use Rattle.lv_bodies.specs.declared.kinds.Kind.TheVariants as kind;
ghost use Rattle.lv_series.specs.Places.{FindsIn, IsEndReachedIn, IsFirstIndexIn, IsLastIndexIn, IsPlaceOfBestIn, IsPlaceOfGreatestIn, IsPlaceOfLeastIn, IsSearchable, IsStartReachedIn, Searches, end_of};
ghost use Rattle.lv_series.specs.Series.{slice_of};
ghost use Rattle.lv_tree.specs.KindSummaries.{summary_by};
ghost use Rattle.lv_tree.specs.Sought.{kind_for};
ghost use Rattle.lv_tree.specs.Where.{kind_within};

use crate::refusals::LongRefusal;
use crate::series::Series;
use lv_bodies::Kind;
use lv_tree::{Bound, KindSummary, Sought, best_of, greatest_of, least_of};

/// An element with its index.
#[derive(Clone, Copy, PartialEq, Eq)]
pub struct LongPlaced {
    pub index: u64,
    pub value: i64,
}

/// Elements side by side, from index `from` up to `to`, `to` excluded, and what they add up to.
#[derive(Clone, Copy, PartialEq, Eq)]
pub struct LongRun {
    pub from: u64,
    pub to: u64,
    pub sum: i128,
}

impl Series {
    /// The first index from `lo` up to `hi` whose element is within a bound, or none. A lower bound uses the tree of the kind `Greatest`, and an
    /// upper bound that of `Least`. That tree is made first, if there is none. Refused with `BadRange`, then `OutOfRange`, then `NoMemory`:
    /// nothing has changed then.
    pub fn first_index(
        &mut self,
        bound: Bound,
        lo: u64,
        hi: u64,
    ) -> Result<Option<u64>, LongRefusal>
        ensures { Searches (IsFirstIndexIn bound) self.old (kind_within bound) lo hi result self.new }
    {
        match self.prepare_for(kind_of(bound), lo, hi) {
            Ok(()) => Ok(self.first_inside(bound, lo, hi)),
            Err(refusal) => Err(refusal),
        }
    }

    /// What `first_index` answers, of a range that `prepare_for` has accepted for the kind. Takes no memory, changes nothing.
    #[inline(always)]
    pub fn first_inside(&self, bound: Bound, lo: u64, hi: u64) -> Option<u64>
        requires { IsSearchable self.now (kind_within bound) lo hi }
        ensures { IsFirstIndexIn bound self.now.held lo hi result }
    {
        match self.find(bound.sought(), lo, hi, false) {
            Some(end) => Some(end - 1),
            None => None,
        }
    }

    /// The last index from `lo` up to `hi` whose element is within a bound, or none. It is asked and refused as `first_index` is.
    pub fn last_index(&mut self, bound: Bound, lo: u64, hi: u64) -> Result<Option<u64>, LongRefusal>
        ensures { Searches (IsLastIndexIn bound) self.old (kind_within bound) lo hi result self.new }
    {
        match self.prepare_for(kind_of(bound), lo, hi) {
            Ok(()) => Ok(self.last_inside(bound, lo, hi)),
            Err(refusal) => Err(refusal),
        }
    }

    /// What `last_index` answers, of a range that `prepare_for` has accepted for the kind. Takes no memory, changes nothing.
    #[inline(always)]
    pub fn last_inside(&self, bound: Bound, lo: u64, hi: u64) -> Option<u64>
        requires { IsSearchable self.now (kind_within bound) lo hi }
        ensures { IsLastIndexIn bound self.now.held lo hi result }
    {
        self.find(bound.sought(), lo, hi, true)
    }

    /// The least end, from `lo` to `hi`, up to which the elements from index `lo` on add up to `sum` at least, or none. Elements may be
    /// negative, and no sum wraps. It uses the tree of the kind `Best`, and is refused as `first_index` is.
    pub fn reaches(&mut self, lo: u64, hi: u64, sum: i128) -> Result<Option<u64>, LongRefusal>
        ensures { Searches (IsEndReachedIn sum) self.old kind.Best lo hi result self.new }
    {
        match self.prepare_for(Kind::Best, lo, hi) {
            Ok(()) => Ok(self.end_inside(lo, hi, sum)),
            Err(refusal) => Err(refusal),
        }
    }

    /// What `reaches` answers, of a range that `prepare_for` has accepted for the kind. Takes no memory, changes nothing.
    #[tactic(auto, using(crate::proofs::PlaceLaws::end_reached_in))]
    #[inline(always)]
    pub fn end_inside(&self, lo: u64, hi: u64, sum: i128) -> Option<u64>
        requires { IsSearchable self.now kind.Best lo hi }
        ensures { IsEndReachedIn sum self.now.held lo hi result }
    {
        if sum <= 0 {
            return Some(lo);
        }
        self.find(Sought::Beginning(sum), lo, hi, false)
    }

    /// The greatest start, from `hi` down to `lo`, from which on the elements up to `hi` add up to `sum` at least, or none. It is `hi` itself if
    /// `sum` is 0 or less. It uses the tree of the kind `Best`, and is refused as `first_index` is.
    pub fn reaches_back(&mut self, lo: u64, hi: u64, sum: i128) -> Result<Option<u64>, LongRefusal>
        ensures { Searches (IsStartReachedIn sum) self.old kind.Best lo hi result self.new }
    {
        match self.prepare_for(Kind::Best, lo, hi) {
            Ok(()) => Ok(self.start_inside(lo, hi, sum)),
            Err(refusal) => Err(refusal),
        }
    }

    /// What `reaches_back` answers, of a range that `prepare_for` has accepted for the kind. Takes no memory, changes nothing.
    #[tactic(auto, using(crate::proofs::PlaceLaws::start_reached_in))]
    #[inline(always)]
    pub fn start_inside(&self, lo: u64, hi: u64, sum: i128) -> Option<u64>
        requires { IsSearchable self.now kind.Best lo hi }
        ensures { IsStartReachedIn sum self.now.held lo hi result }
    {
        if sum <= 0 {
            return Some(hi);
        }
        self.find(Sought::Ending(sum), lo, hi, true)
    }

    /// The first of the least elements from index `lo` up to `hi`, with its index; none if there are no elements. It uses the tree of the kind
    /// `Least`, and is refused as `first_index` is.
    pub fn first_least(&mut self, lo: u64, hi: u64) -> Result<Option<LongPlaced>, LongRefusal>
        ensures { Searches IsPlaceOfLeastIn self.old kind.Least lo hi result self.new }
    {
        match self.prepare_for(Kind::Least, lo, hi) {
            Ok(()) => Ok(self.least_inside(lo, hi)),
            Err(refusal) => Err(refusal),
        }
    }

    /// What `first_least` answers, of a range that `prepare_for` has accepted for the kind. Takes no memory, changes nothing.
    #[inline(always)]
    pub fn least_inside(&self, lo: u64, hi: u64) -> Option<LongPlaced>
        requires { IsSearchable self.now kind.Least lo hi }
        ensures { IsPlaceOfLeastIn self.now.held lo hi result }
    {
        match least_of(self.summary(Kind::Least, lo, hi)) {
            Some(least) => self.first_placed(Sought::AtMost(least), least, lo, hi),
            None => None,
        }
    }

    /// The first of the greatest elements from index `lo` up to `hi`, with its index; none if there are no elements. It uses the tree of the kind
    /// `Greatest`, and is refused as `first_index` is.
    pub fn first_greatest(&mut self, lo: u64, hi: u64) -> Result<Option<LongPlaced>, LongRefusal>
        ensures { Searches IsPlaceOfGreatestIn self.old kind.Greatest lo hi result self.new }
    {
        match self.prepare_for(Kind::Greatest, lo, hi) {
            Ok(()) => Ok(self.greatest_inside(lo, hi)),
            Err(refusal) => Err(refusal),
        }
    }

    /// What `first_greatest` answers, of a range that `prepare_for` has accepted for the kind. Takes no memory, changes nothing.
    #[inline(always)]
    pub fn greatest_inside(&self, lo: u64, hi: u64) -> Option<LongPlaced>
        requires { IsSearchable self.now kind.Greatest lo hi }
        ensures { IsPlaceOfGreatestIn self.now.held lo hi result }
    {
        match greatest_of(self.summary(Kind::Greatest, lo, hi)) {
            Some(greatest) => self.first_placed(Sought::AtLeast(greatest), greatest, lo, hi),
            None => None,
        }
    }

    /// The best run from index `lo` up to `hi`: elements side by side, one at least, that add up to the most. Of several it is the one that ends
    /// first, and of those the shortest. There is none if there are no elements. It uses the tree of the kind `Best`, and is refused as
    /// `first_index` is.
    pub fn best_run(&mut self, lo: u64, hi: u64) -> Result<Option<LongRun>, LongRefusal>
        ensures { Searches IsPlaceOfBestIn self.old kind.Best lo hi result self.new }
    {
        match self.prepare_for(Kind::Best, lo, hi) {
            Ok(()) => Ok(self.best_inside(lo, hi)),
            Err(refusal) => Err(refusal),
        }
    }

    /// What `best_run` answers, of a range that `prepare_for` has accepted for the kind. Takes no memory, changes nothing.
    #[inline(always)]
    pub fn best_inside(&self, lo: u64, hi: u64) -> Option<LongRun>
        requires { IsSearchable self.now kind.Best lo hi }
        ensures { IsPlaceOfBestIn self.now.held lo hi result }
    {
        let Some(totals) = best_of(self.summary(Kind::Best, lo, hi)) else {
            return None;
        };
        let sum = totals.best;
        match self.find(Sought::Run(sum), lo, hi, false) {
            Some(to) => match self.find(Sought::Run(sum), lo, to, true) {
                Some(from) => Some(LongRun { from, to, sum }),
                None => unreachable!(),
            },
            None => unreachable!(),
        }
    }

    // The first element of a range with which it comes to have what is sought, returned with the given `value`; none if it never does.
    #[inline(always)]
    fn first_placed(&self, sought: Sought, value: i64, lo: u64, hi: u64) -> Option<LongPlaced>
        requires { IsSearchable self.now (kind_for sought) lo hi }
        ensures finds { FindsIn false sought self.now.held lo hi (end_of result) }
        ensures value { IfSome result (λ p. p.value ≡ value) }
    {
        match self.find(sought, lo, hi, false) {
            Some(end) => Some(LongPlaced {
                index: end - 1,
                value,
            }),
            None => None,
        }
    }

    // The summary by a kind of a range that can be searched.
    fn summary(&self, kind: Kind, lo: u64, hi: u64) -> KindSummary
        requires { IsSearchable self.now kind lo hi }
        ensures { result ≡ summary_by self.now.table kind (slice_of self.now.held lo hi) }
    {
        match self.value(kind, lo, hi) {
            Ok(answer) => answer.value,
            Err(_) => unreachable!(),
        }
    }
}

// The kind by which an element within a bound is looked for.
fn kind_of(bound: Bound) -> Kind
    ensures { result ≡ kind_within bound }
{
    match bound {
        Bound::AtLeast(_) => Kind::Greatest,
        Bound::AtMost(_) => Kind::Least,
    }
}
