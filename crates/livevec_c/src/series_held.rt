//! The series in a slot: the slot holds a series, or samples, whose values are a series.
ghost use Rattle.std.specs.Prelude.{◌≡◌, IfErr, OnErr, OnOk, option_map};
ghost use Rattle.lv_series.specs.Places.{IsSearchable};
ghost use Rattle.lv_series.specs.Series.{Asks, RefusesAsked, with_kind};
ghost use Rattle.livevec_c.specs.SeriesHeld.{Long, series_in};

use crate::objects::Object;
use lv_bodies::Kind;
use lv_series::{LongAnswer, LongRefusal, Samples, Series};
use lv_tree::KindSummary;

/// Something that has a series, for which trees can be made.
pub trait HasSeries {
    /// Its series.
    ghost series_of: { Self → Long };

    /// This object with another series in place of its own.
    ghost with_series: { Long → Self → Self };

    /// With its own series it is unchanged. With another it has that one, and the last series that it is given counts.
    ghost own_series: { (h : Self) → with_series (series_of h) h ≡ h };

    ghost given_series: { (s : Long) (h : Self) → series_of (with_series s h) ≡ s };

    ghost last_series: { (s t : Long) (h : Self) → with_series s (with_series t h) ≡ with_series s h };

    /// Its series.
    fn series(&self) -> &Series
        ensures { result.now ≡ series_of self.now };

    /// Makes the tree of a kind, if there is none.
    fn prepare(&mut self, kind: Kind) -> Result<(), LongRefusal>
        ensures ok { OnOk result (self.new ≡ with_series (record (series_of self.old) { kinds = with_kind kind (series_of self.old).kinds }) self.old) }
        ensures same { OnErr result (self.new ≡ self.old) }
        ensures err { IfErr result (λ refusal. refusal ≡ LongRefusal.NoMemory) };

    /// Makes the tree of a kind for queries of a range, if there is none. The range can then be searched by the kind.
    fn prepare_for(&mut self, kind: Kind, lo: u64, hi: u64) -> Result<(), LongRefusal>
        ensures searchable { OnOk result (IsSearchable (series_of self.new) kind lo hi) }
        ensures ok { OnOk result (self.new ≡ with_series (record (series_of self.old) { kinds = with_kind kind (series_of self.old).kinds }) self.old) }
        ensures err { IfErr result (λ refusal. RefusesAsked (series_of self.old) kind lo hi refusal (series_of self.new)) }
        ensures same { OnErr result (self.new ≡ self.old) };

    /// The summary by a kind of a range. The kind's tree is made first if there is none.
    fn ask(&mut self, kind: Kind, lo: u64, hi: u64) -> Result<LongAnswer<KindSummary>, LongRefusal>
        ensures asked { Asks (series_of self.old) kind lo hi result (series_of self.new) }
        ensures kept { self.new ≡ with_series (series_of self.new) self.old };
}

impl HasSeries for Series {
    ghost use Rattle.std.specs.Prelude.{refl};

    ghost series_of = { λ s. s };

    ghost with_series = { λ s _. s };

    ghost own_series = { λ _. refl };

    ghost given_series = { λ _ _. refl };

    ghost last_series = { λ _ _ _. refl };

    #[inline(always)]
    fn series(&self) -> &Series {
        self
    }

    #[inline(always)]
    fn prepare(&mut self, kind: Kind) -> Result<(), LongRefusal> {
        self.prepare(kind)
    }

    #[inline(always)]
    fn prepare_for(&mut self, kind: Kind, lo: u64, hi: u64) -> Result<(), LongRefusal> {
        self.prepare_for(kind, lo, hi)
    }

    #[inline(always)]
    fn ask(
        &mut self,
        kind: Kind,
        lo: u64,
        hi: u64,
    ) -> Result<LongAnswer<KindSummary>, LongRefusal> {
        self.ask(kind, lo, hi)
    }
}

impl HasSeries for Samples {
    ghost use Rattle.std.specs.Prelude.{refl};

    ghost series_of = { λ s. s.series };

    ghost with_series = { λ series s. record s { series = series } };

    ghost own_series = { λ _. refl };

    ghost given_series = { λ _ _. refl };

    ghost last_series = { λ _ _ _. refl };

    fn series(&self) -> &Series {
        self.series()
    }

    fn prepare(&mut self, kind: Kind) -> Result<(), LongRefusal> {
        self.prepare(kind)
    }

    fn prepare_for(&mut self, kind: Kind, lo: u64, hi: u64) -> Result<(), LongRefusal> {
        self.prepare_for(kind, lo, hi)
    }

    #[inline(always)]
    fn ask(
        &mut self,
        kind: Kind,
        lo: u64,
        hi: u64,
    ) -> Result<LongAnswer<KindSummary>, LongRefusal> {
        self.ask(kind, lo, hi)
    }
}

/// The series of an object: that of the values, if it is samples.
#[inline(always)]
pub fn series_of(object: &Object) -> Option<&Series>
    ensures { option_map (λ series. series.now) result ≡ series_in object.now }
{
    match object {
        Object::Series(series) => Some(series),
        Object::Samples(samples) => Some(samples.series()),
        _ => None,
    }
}
