//! A series that is asked by queries.
ghost use Rattle.std.specs.Prelude.{◌≡◌, ◌-◌, ◌≤◌, None};
ghost use Rattle.lv_series.specs.Series.{range_refused, size_of, slice_of};
ghost use Rattle.lv_standing.specs.Askable.{value_between};
ghost use Rattle.lv_script.specs.SampleQueries.{asked_series};

use lv_bodies::{Kind, Shown};
use lv_series::Series;
use lv_standing::{Askable, Indices};

/// A series that is lent to queries. A kind without a tree goes over the elements: `Series::prepare` makes one.
#[derive(Clone, Copy)]
pub struct AskedSeries<'s> {
    pub series: &'s Series,
}

impl Askable for AskedSeries<'_> {
    ghost use Rattle.lv_script.specs.SampleQueries.{asked_series};

    ghost state = { λ a. asked_series a.series.now };

    fn size(&self) -> u64 {
        self.series.size()
    }

    fn edit(&self) -> u64 {
        self.series.edits()
    }

    fn value(&mut self, kind: Kind, lo: u64, hi: u64) -> Shown {
        value_kept(self.series, kind, lo, hi)
    }
}

/// The value of a kind over what is kept of a range.
pub fn value_kept(series: &Series, kind: Kind, lo: u64, hi: u64) -> Shown
    requires order { lo ≤ hi }
    requires inside { hi ≤ size_of series.now.held }
    ensures { result ≡ value_between (asked_series series.now) kind lo hi }
{
    let kept = kept_of(series, lo, hi);
    match series.value(kind, kept.lo, kept.hi) {
        Ok(answer) => answer.value.shown(),
        Err(_) => unreachable!(),
    }
}

// The part of a range that is kept.
fn kept_of(series: &Series, lo: u64, hi: u64) -> Indices
    requires order { lo ≤ hi }
    requires inside { hi ≤ size_of series.now.held }
    ensures granted { range_refused series.now.held result.lo result.hi ≡ None }
    ensures same { slice_of series.now.held result.lo result.hi ≡ slice_of series.now.held lo hi }
{
    let first = series.first();
    Indices {
        lo: lo.max(first),
        hi: hi.max(first),
    }
}
