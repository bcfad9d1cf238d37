//! Spans: which elements of a vector a standing query is about.
ghost use Rattle.std.specs.Prelude.{◌≡◌, ◌+◌, ◌-◌, ◌≤◌, ℕ, ℤ, List, length};
ghost use Rattle.std.specs.List.{slice_range};
ghost use Rattle.lv_standing.specs.Askable.{span_from};
ghost use Rattle.lv_standing.specs.Inner.{has_changed, has_index, has_written};
ghost use Rattle.lv_standing.specs.Queries.{is_backwards};

use crate::changes::Changed;
use lv_live::Touched;

/// Which elements a query is about.
#[derive(Clone, Copy, PartialEq, Eq)]
pub enum Span {
    /// The elements from index `lo` up to `hi`, `hi` excluded. The range may reach past the end: only existing elements count.
    Between { lo: u64, hi: u64 },
    /// The last so many elements, or all if there are fewer.
    Last(u64),
}

/// The indices from `lo` up to `hi`, `hi` excluded.
#[derive(Clone, Copy)]
pub struct Indices {
    pub lo: u64,
    pub hi: u64,
}

impl Span {
    /// The indices of its elements, if the index after the last element is `size`. They are right whatever index the first element has.
    #[inline(always)]
    pub fn indices_in(&self, size: u64) -> Indices
        ensures order { result.lo ≤ result.hi }
        ensures inside { result.hi ≤ size }
        ensures same { (first : ℕ) (xs : List ℤ) → first + length xs ≡ size → slice_range xs (result.lo - first) (result.hi - first) ≡ span_from first self.now xs }
    {
        match *self {
            Span::Between { lo, hi } => {
                let hi = hi.min(size);
                Indices { lo: lo.min(hi), hi }
            }
            Span::Last(count) => Indices {
                lo: size - count.min(size),
                hi: size,
            },
        }
    }

    /// Whether it is a range whose end is before its start.
    pub fn is_backwards(&self) -> bool
        ensures { result ≡ is_backwards self.now }
    {
        match *self {
            Span::Between { lo, hi } => hi < lo,
            Span::Last(_) => false,
        }
    }

    /// Whether it has an element that changed. The last so many elements also change with each edit that changes the size.
    #[inline(always)]
    pub fn has_changed(&self, changed: Changed) -> bool
        ensures { result ≡ has_changed self.now changed }
    {
        let Changed {
            written,
            from,
            to,
            ..
        } = changed;
        let (before, after) = (u64::from(to), u64::from(from));
        match *self {
            Span::Between { lo, hi } => {
                has_written(lo, hi, written) || lo.max(after) < hi.min(before)
            }
            Span::Last(count) => {
                before != after || has_written(before.saturating_sub(count), before, written)
            }
        }
    }
}

// Whether a range contains an index at which an edit wrote. An element that is swapped with itself doesn't count.
#[inline(always)]
fn has_written(lo: u64, hi: u64, written: Touched) -> bool
    ensures { result ≡ has_written lo hi written }
{
    match written {
        Touched::Nothing => false,
        Touched::One(i) => has_index(lo, hi, i),
        Touched::Two(i, j) => i != j && (has_index(lo, hi, i) || has_index(lo, hi, j)),
    }
}

// Whether a range contains an index.
#[inline(always)]
fn has_index(lo: u64, hi: u64, i: u32) -> bool
    ensures { result ≡ has_index lo hi i }
{
    lo <= u64::from(i) && u64::from(i) < hi
}
