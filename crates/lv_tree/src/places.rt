//! Searches for a position in a range of a vector: that of its first least and first greatest element, of its best run, of the first and the last
//! element within a bound, and the index at which a sum from the range's start on, or up to its end, is reached.
//!
//! Each answer is stated in terms of the plain list of elements. A search asks the tree of one kind for the place at which a test on folds
//! becomes true: once that tree has followed the edits, this takes O(log n) joins. It changes no element, and takes no memory.
ghost use Rattle.std.specs.Prelude.{◌≡◌, ◌-◌, ◌<◌, ◌≤◌, None, Some, IfErr, IfOk, length};
ghost use Rattle.lv_bodies.specs.declared.kinds.Kind.TheVariants as kind;
ghost use Rattle.lv_edits.specs.History.{list_of};
ghost use Rattle.lv_edits.specs.Kept.{IsLegalInLimits};
ghost use Rattle.lv_edits.specs.Ranges.{range_refusal, slice_of};
ghost use Rattle.lv_tree.specs.KindSummaries.{summary_by};
ghost use Rattle.lv_tree.specs.Kinds.{AreReady, LeavesOthers};
ghost use Rattle.lv_tree.specs.Sought.{best_in, greatest_in, least_in, sought_within};
ghost use Rattle.lv_tree.specs.Where.{IsEndReached, IsFirstIndex, IsLastIndex, IsPlaceOfBest, IsPlaceOfGreatest, IsPlaceOfLeast, IsStartReached, kind_within};

use crate::kind_summaries::KindSummary;
use crate::kinds::Kinds;
use crate::sought::Sought;
use lv_bodies::{Kind, RunTotals};
use lv_edits::{Edits, refusal_of};
use lv_geometry::Refusal;

/// An element with its index.
#[derive(Clone, Copy, PartialEq, Eq)]
pub struct Placed {
    pub index: u32,
    pub value: i64,
}

impl Placed {
    /// The last element before an end.
    fn before(end: u32, value: i64) -> Placed
        requires { 0 < end }
        ensures { result ≡ record { index = end - 1; value = value } }
    {
        Placed {
            index: end - 1,
            value,
        }
    }
}

/// Elements side by side, from index `from` up to `to`, `to` excluded, and what they add up to.
#[derive(Clone, Copy, PartialEq, Eq)]
pub struct Run {
    pub from: u32,
    pub to: u32,
    pub sum: i128,
}

/// A bound of elements.
#[derive(Clone, Copy, PartialEq, Eq)]
pub enum Bound {
    /// An element is at least this.
    AtLeast(i64),
    /// An element is at most this.
    AtMost(i64),
}

impl Bound {
    /// An element within the bound, as what is sought.
    #[inline(always)]
    pub fn sought(self) -> Sought
        ensures { result ≡ sought_within self }
    {
        match self {
            Bound::AtLeast(bound) => Sought::AtLeast(bound),
            Bound::AtMost(bound) => Sought::AtMost(bound),
        }
    }
}

/// The first of the least elements from index `lo` up to `hi`, with its index; none if there are no elements. It uses the tree of the kind
/// `Least`. Refused with `BadRange`, then `OutOfRange`. Takes no memory.
pub fn first_least(
    cells: &Edits,
    kinds: &mut Kinds,
    lo: u32,
    hi: u32,
) -> Result<Option<Placed>, Refusal>
    requires ready { AreReady kinds.old.table cells.now.journal kinds.old }
    ensures ok { IfOk result (λ place. IsPlaceOfLeast (list_of cells.now.journal) lo hi place) }
    ensures granted { IfOk result (λ _. range_refusal cells.now.journal lo hi ≡ None) }
    ensures err { IfErr result (λ refusal. range_refusal cells.now.journal lo hi ≡ Some refusal) }
    ensures ready { AreReady kinds.old.table cells.now.journal kinds.new }
    ensures others { LeavesOthers kind.Least kinds.old kinds.new }
{
    if let Some(refusal) = refusal_of(cells, lo, hi) {
        return Err(refusal);
    }
    Ok(least_inside(cells, kinds, lo, hi))
}

// The first of the least elements of a range that the vector has.
fn least_inside(cells: &Edits, kinds: &mut Kinds, lo: u32, hi: u32) -> Option<Placed>
    requires ready { AreReady kinds.old.table cells.now.journal kinds.old }
    requires limits { IsLegalInLimits cells.now }
    requires order { lo ≤ hi }
    requires inside { hi ≤ length (list_of cells.now.journal) }
    ensures place { IsPlaceOfLeast (list_of cells.now.journal) lo hi result }
    ensures ready { AreReady kinds.old.table cells.now.journal kinds.new }
    ensures others { LeavesOthers kind.Least kinds.old kinds.new }
{
    let Some(least) = least_of(summary(cells, kinds, Kind::Least, lo, hi)) else {
        return None;
    };
    match kinds.find_end(cells, Sought::AtMost(least), lo, hi) {
        Some(end) => Some(Placed::before(end, least)),
        None => unreachable!(),
    }
}

/// The first of the greatest elements from index `lo` up to `hi`, with its index; none if there are no elements. It uses the tree of the kind
/// `Greatest`, and is refused as `first_least` is. Takes no memory.
pub fn first_greatest(
    cells: &Edits,
    kinds: &mut Kinds,
    lo: u32,
    hi: u32,
) -> Result<Option<Placed>, Refusal>
    requires ready { AreReady kinds.old.table cells.now.journal kinds.old }
    ensures ok { IfOk result (λ place. IsPlaceOfGreatest (list_of cells.now.journal) lo hi place) }
    ensures granted { IfOk result (λ _. range_refusal cells.now.journal lo hi ≡ None) }
    ensures err { IfErr result (λ refusal. range_refusal cells.now.journal lo hi ≡ Some refusal) }
    ensures ready { AreReady kinds.old.table cells.now.journal kinds.new }
    ensures others { LeavesOthers kind.Greatest kinds.old kinds.new }
{
    if let Some(refusal) = refusal_of(cells, lo, hi) {
        return Err(refusal);
    }
    Ok(greatest_inside(cells, kinds, lo, hi))
}

// The first of the greatest elements of a range that the vector has.
fn greatest_inside(cells: &Edits, kinds: &mut Kinds, lo: u32, hi: u32) -> Option<Placed>
    requires ready { AreReady kinds.old.table cells.now.journal kinds.old }
    requires limits { IsLegalInLimits cells.now }
    requires order { lo ≤ hi }
    requires inside { hi ≤ length (list_of cells.now.journal) }
    ensures place { IsPlaceOfGreatest (list_of cells.now.journal) lo hi result }
    ensures ready { AreReady kinds.old.table cells.now.journal kinds.new }
    ensures others { LeavesOthers kind.Greatest kinds.old kinds.new }
{
    let Some(greatest) = greatest_of(summary(cells, kinds, Kind::Greatest, lo, hi)) else {
        return None;
    };
    match kinds.find_end(cells, Sought::AtLeast(greatest), lo, hi) {
        Some(end) => Some(Placed::before(end, greatest)),
        None => unreachable!(),
    }
}

/// The best run from index `lo` up to `hi`: elements side by side, one at least, that add up to the most. Of several it is the one that ends
/// first, and of those the shortest. There is none if there are no elements. It uses the tree of the kind `Best`, and is refused as `first_least`
/// is. Takes no memory.
pub fn best_run(cells: &Edits, kinds: &mut Kinds, lo: u32, hi: u32) -> Result<Option<Run>, Refusal>
    requires ready { AreReady kinds.old.table cells.now.journal kinds.old }
    ensures ok { IfOk result (λ place. IsPlaceOfBest (list_of cells.now.journal) lo hi place) }
    ensures granted { IfOk result (λ _. range_refusal cells.now.journal lo hi ≡ None) }
    ensures err { IfErr result (λ refusal. range_refusal cells.now.journal lo hi ≡ Some refusal) }
    ensures ready { AreReady kinds.old.table cells.now.journal kinds.new }
    ensures others { LeavesOthers kind.Best kinds.old kinds.new }
{
    if let Some(refusal) = refusal_of(cells, lo, hi) {
        return Err(refusal);
    }
    Ok(best_inside(cells, kinds, lo, hi))
}

// The best run of a range that the vector has.
fn best_inside(cells: &Edits, kinds: &mut Kinds, lo: u32, hi: u32) -> Option<Run>
    requires ready { AreReady kinds.old.table cells.now.journal kinds.old }
    requires limits { IsLegalInLimits cells.now }
    requires order { lo ≤ hi }
    requires inside { hi ≤ length (list_of cells.now.journal) }
    ensures place { IsPlaceOfBest (list_of cells.now.journal) lo hi result }
    ensures ready { AreReady kinds.old.table cells.now.journal kinds.new }
    ensures others { LeavesOthers kind.Best kinds.old kinds.new }
{
    let Some(totals) = best_of(summary(cells, kinds, Kind::Best, lo, hi)) else {
        return None;
    };
    let sum = totals.best;
    match kinds.find_end(cells, Sought::Run(sum), lo, hi) {
        Some(to) => match kinds.find_start(cells, Sought::Run(sum), lo, to) {
            Some(from) => Some(Run { from, to, sum }),
            None => unreachable!(),
        },
        None => unreachable!(),
    }
}

/// The least end, from `lo` to `hi`, up to which the elements from index `lo` on add up to `sum` at least, or none. Elements may be
/// negative, and no sum wraps. It uses the tree of the kind `Best`, and is refused as `first_least` is. Takes no memory.
pub fn reaches(
    cells: &Edits,
    kinds: &mut Kinds,
    lo: u32,
    hi: u32,
    sum: i128,
) -> Result<Option<u32>, Refusal>
    requires ready { AreReady kinds.old.table cells.now.journal kinds.old }
    ensures ok { IfOk result (λ place. IsEndReached (list_of cells.now.journal) lo hi sum place) }
    ensures granted { IfOk result (λ _. range_refusal cells.now.journal lo hi ≡ None) }
    ensures err { IfErr result (λ refusal. range_refusal cells.now.journal lo hi ≡ Some refusal) }
    ensures ready { AreReady kinds.old.table cells.now.journal kinds.new }
    ensures others { LeavesOthers kind.Best kinds.old kinds.new }
{
    if let Some(refusal) = refusal_of(cells, lo, hi) {
        return Err(refusal);
    }
    Ok(end_inside(cells, kinds, lo, hi, sum))
}

// The least end up to which the elements of a range that the vector has add up to `sum` at least, or none.
fn end_inside(cells: &Edits, kinds: &mut Kinds, lo: u32, hi: u32, sum: i128) -> Option<u32>
    requires ready { AreReady kinds.old.table cells.now.journal kinds.old }
    requires limits { IsLegalInLimits cells.now }
    requires order { lo ≤ hi }
    requires inside { hi ≤ length (list_of cells.now.journal) }
    ensures place { IsEndReached (list_of cells.now.journal) lo hi sum result }
    ensures ready { AreReady kinds.old.table cells.now.journal kinds.new }
    ensures others { LeavesOthers kind.Best kinds.old kinds.new }
{
    if sum <= 0 {
        return Some(lo);
    }
    kinds.find_end(cells, Sought::Beginning(sum), lo, hi)
}

/// The greatest start, from `hi` down to `lo`, from which on the elements up to `hi` add up to `sum` at least, or none. It is `hi` itself if
/// `sum` is 0 or less. It uses the tree of the kind `Best`, and is refused as `first_least` is. Takes no memory.
pub fn reaches_back(
    cells: &Edits,
    kinds: &mut Kinds,
    lo: u32,
    hi: u32,
    sum: i128,
) -> Result<Option<u32>, Refusal>
    requires ready { AreReady kinds.old.table cells.now.journal kinds.old }
    ensures ok { IfOk result (λ place. IsStartReached (list_of cells.now.journal) lo hi sum place) }
    ensures granted { IfOk result (λ _. range_refusal cells.now.journal lo hi ≡ None) }
    ensures err { IfErr result (λ refusal. range_refusal cells.now.journal lo hi ≡ Some refusal) }
    ensures ready { AreReady kinds.old.table cells.now.journal kinds.new }
    ensures others { LeavesOthers kind.Best kinds.old kinds.new }
{
    if let Some(refusal) = refusal_of(cells, lo, hi) {
        return Err(refusal);
    }
    Ok(start_inside(cells, kinds, lo, hi, sum))
}

// The greatest start from which on the elements of a range that the vector has add up to `sum` at least, or none.
fn start_inside(cells: &Edits, kinds: &mut Kinds, lo: u32, hi: u32, sum: i128) -> Option<u32>
    requires ready { AreReady kinds.old.table cells.now.journal kinds.old }
    requires limits { IsLegalInLimits cells.now }
    requires order { lo ≤ hi }
    requires inside { hi ≤ length (list_of cells.now.journal) }
    ensures place { IsStartReached (list_of cells.now.journal) lo hi sum result }
    ensures ready { AreReady kinds.old.table cells.now.journal kinds.new }
    ensures others { LeavesOthers kind.Best kinds.old kinds.new }
{
    if sum <= 0 {
        return Some(hi);
    }
    kinds.find_start(cells, Sought::Ending(sum), lo, hi)
}

/// The first index from `lo` up to `hi` whose element is within a bound, or none. A lower bound uses the tree of the kind `Greatest`, and an
/// upper bound that of `Least`. It is refused as `first_least` is. Takes no memory.
pub fn first_index(
    cells: &Edits,
    kinds: &mut Kinds,
    bound: Bound,
    lo: u32,
    hi: u32,
) -> Result<Option<u32>, Refusal>
    requires ready { AreReady kinds.old.table cells.now.journal kinds.old }
    ensures ok { IfOk result (λ place. IsFirstIndex bound (list_of cells.now.journal) lo hi place) }
    ensures granted { IfOk result (λ _. range_refusal cells.now.journal lo hi ≡ None) }
    ensures err { IfErr result (λ refusal. range_refusal cells.now.journal lo hi ≡ Some refusal) }
    ensures ready { AreReady kinds.old.table cells.now.journal kinds.new }
    ensures others { LeavesOthers (kind_within bound) kinds.old kinds.new }
{
    if let Some(refusal) = refusal_of(cells, lo, hi) {
        return Err(refusal);
    }
    match kinds.find_end(cells, bound.sought(), lo, hi) {
        Some(end) => Ok(Some(end - 1)),
        None => Ok(None),
    }
}

/// The last index from `lo` up to `hi` whose element is within a bound, or none. It is asked and refused as `first_index` is. Takes no
/// memory.
pub fn last_index(
    cells: &Edits,
    kinds: &mut Kinds,
    bound: Bound,
    lo: u32,
    hi: u32,
) -> Result<Option<u32>, Refusal>
    requires ready { AreReady kinds.old.table cells.now.journal kinds.old }
    ensures ok { IfOk result (λ place. IsLastIndex bound (list_of cells.now.journal) lo hi place) }
    ensures granted { IfOk result (λ _. range_refusal cells.now.journal lo hi ≡ None) }
    ensures err { IfErr result (λ refusal. range_refusal cells.now.journal lo hi ≡ Some refusal) }
    ensures ready { AreReady kinds.old.table cells.now.journal kinds.new }
    ensures others { LeavesOthers (kind_within bound) kinds.old kinds.new }
{
    if let Some(refusal) = refusal_of(cells, lo, hi) {
        return Err(refusal);
    }
    Ok(kinds.find_start(cells, bound.sought(), lo, hi))
}

// The summary by a kind of a range that there is.
fn summary(cells: &Edits, kinds: &mut Kinds, kind: Kind, lo: u32, hi: u32) -> KindSummary
    requires ready { AreReady kinds.old.table cells.now.journal kinds.old }
    requires order { lo ≤ hi }
    requires inside { hi ≤ length (list_of cells.now.journal) }
    ensures value { result ≡ summary_by kinds.old.table kind (slice_of cells.now.journal lo hi) }
    ensures ready { AreReady kinds.old.table cells.now.journal kinds.new }
    ensures others { LeavesOthers kind kinds.old kinds.new }
{
    match kinds.ask(cells, kind, lo, hi) {
        Ok(answer) => answer.summary,
        Err(_) => unreachable!(),
    }
}

/// The least element that a summary has; none if it is of another kind, or of no elements.
pub fn least_of(summary: KindSummary) -> Option<i64>
    ensures { result ≡ least_in summary }
{
    match summary {
        KindSummary::Least(least) => least,
        _ => None,
    }
}

/// The greatest element that a summary has; none if it is of another kind, or of no elements.
pub fn greatest_of(summary: KindSummary) -> Option<i64>
    ensures { result ≡ greatest_in summary }
{
    match summary {
        KindSummary::Greatest(greatest) => greatest,
        _ => None,
    }
}

/// The best run that a summary has; none if it is of another kind, or of no elements.
pub fn best_of(summary: KindSummary) -> Option<RunTotals>
    ensures { result ≡ best_in summary }
{
    match summary {
        KindSummary::Best(best) => best,
        _ => None,
    }
}
