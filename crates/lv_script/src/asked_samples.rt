//! Samples that are asked by queries.
use crate::asked_series::value_kept;
use lv_bodies::{Kind, Shown};
use lv_series::Samples;
use lv_standing::Askable;

/// Samples that are lent to queries. Indices are those of their values. A kind without a tree goes over the values: `Samples::prepare`
/// makes one.
#[derive(Clone, Copy)]
pub struct AskedSamples<'s> {
    pub samples: &'s Samples,
}

impl Askable for AskedSamples<'_> {
    ghost use Rattle.lv_script.specs.SampleQueries.{asked_series};

    ghost state = { λ a. asked_series a.samples.now.series };

    fn size(&self) -> u64 {
        self.samples.series().size()
    }

    fn edit(&self) -> u64 {
        self.samples.series().edits()
    }

    fn value(&mut self, kind: Kind, lo: u64, hi: u64) -> Shown {
        value_kept(self.samples.series(), kind, lo, hi)
    }
}
