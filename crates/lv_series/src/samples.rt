//! Samples: values with times that do not fall, and queries of windows of time.
ghost use Rattle.std.specs.Prelude.{◌≡◌, [], All, IfErr, IfOk, None, Some, length};
ghost use Rattle.lv_geometry.specs.Elements.{IsElement};
ghost use Rattle.lv_bodies.specs.Automata.{table_of};
ghost use Rattle.lv_series.specs.Samples.{IsRising, newest_in, plain_samples, sample_at, times_of};
ghost use Rattle.lv_series.specs.Series.{range_refused};

use crate::refusals::LongRefusal;
use crate::restored::tell_elements;
use crate::sample_edits::Sample;
use crate::series::Series;
use lv_bodies::Automaton;
use std::alloc::Global;
use std::marker::Model;

/// Samples in order of their times, each under an index of 64 bits. A sample takes 16 bytes, and at most 32 when the arrays have just grown; a
/// tree of a kind takes as much as that of a `Series`. Times are `i64` in a unit of the caller's.
#[derive(Drop)]
pub struct Samples {
    pub(crate) series: Series,
    // The times in memory. The first `gone` of them belong to samples that expired.
    pub(crate) times: Vec<i64>,
    pub(crate) gone: usize,
}

impl Model for Samples {
    ghost use Rattle.std.specs.Prelude.{◌≡◌, ◌+◌, drop, length};
    ghost use Rattle.lv_series.specs.Samples.{IsRising, SamplesState};

    ghost Value = { SamplesState };

    ghost view = { λ a. record { series = a.series; times = drop a.gone a.times.items } };

    ghost invariant = { λ a. (a.gone + length a.series.held.elements ≡ length a.times.items) × IsRising (drop a.gone a.times.items) };
}

/// The indices of the samples of a window of time, side by side: from `lo` up to `hi`.
#[derive(Clone, Copy, PartialEq, Eq)]
pub struct Window {
    pub lo: u64,
    pub hi: u64,
}

impl Samples {
    /// No samples. `automaton` is the one by which the kind of that name folds. Takes no memory.
    pub fn new(alloc: Global, automaton: Automaton) -> Samples
        ensures { result ≡ plain_samples (table_of automaton) [] }
    {
        Samples {
            series: Series::new(alloc, automaton),
            times: Vec::new(alloc),
            gone: 0,
        }
    }

    /// The series of the values. The values of a window are its elements under the window's indices: it is what scans and searches take.
    pub fn series(&self) -> &Series
        ensures { result.now ≡ self.now.series }
    {
        &self.series
    }

    /// What holds of all samples, for a caller who saves them: a time for each value, in order, of 64 bits. Computes nothing.
    pub fn holds(&self)
        ensures paired { length self.now.times ≡ length self.now.series.held.elements }
        ensures rising { IsRising self.now.times }
        ensures times { All IsElement self.now.times }
    {
        tell_elements(self.kept());
    }

    // The times of the samples that are kept.
    pub(crate) fn kept(&self) -> &[i64]
        ensures times { result.now ≡ self.now.times }
        ensures count { length result.now ≡ length self.now.series.held.elements }
        ensures rising { IsRising result.now }
    {
        &self.times[self.gone..]
    }

    /// The times of the samples from index `lo` up to `hi`, as they are side by side in memory. O(1). Refused with `BadRange`, then
    /// `OutOfRange`.
    pub fn times(&self, lo: u64, hi: u64) -> Result<&[i64], LongRefusal>
        ensures ok { IfOk result (λ times. (range_refused self.now.series.held lo hi ≡ None) × (times.now ≡ times_of self.now lo hi)) }
        ensures err { IfErr result (λ refusal. range_refused self.now.series.held lo hi ≡ Some refusal) }
    {
        if let Some(refusal) = self.series.range_refusal(lo, hi) {
            return Err(refusal);
        }
        let first = self.series.first();
        Ok(&self.kept()[(lo - first) as usize..(hi - first) as usize])
    }

    /// The sample under an index. Refused with `OutOfRange`.
    pub fn get(&self, index: u64) -> Result<Sample, LongRefusal>
        ensures { result ≡ sample_at self.now index }
    {
        match self.series.get(index) {
            Err(refusal) => Err(refusal),
            Ok(value) => Ok(Sample {
                time: self.kept()[(index - self.series.first()) as usize],
                value,
            }),
        }
    }

    /// The time of the last sample, or none if there is no sample.
    pub fn newest(&self) -> Option<i64>
        ensures { result ≡ newest_in self.now.times }
    {
        let times = self.kept();
        match times.len() {
            0 => None,
            count => Some(times[count - 1]),
        }
    }
}
