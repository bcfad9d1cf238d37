//! The targets of standing queries: a vector, a series, or samples.
ghost use Rattle.std.specs.Prelude.{◌≡◌, ◌+◌, ℤ, List, length, nat_lt};
ghost use Rattle.lv_script.specs.SampleQueries.{sample_answer};
ghost use Rattle.lv_series.specs.Samples.{SamplesState};
ghost use Rattle.lv_standing.specs.Askable.{span_from};
ghost use Rattle.livevec_c.specs.Targets.{has_some as has_some_in};

use crate::kind_vectors::KindVector;
use lv_bodies::Shown;
use lv_script::{AskedSamples, AskedSeries, SampleQuery, SampleSpan};
use lv_series::{Series, Window};
use lv_standing::{Askable, Asks, Indices, Span, value_in_span};

/// Something that standing queries are asked of. Asking it changes nothing that contracts see.
pub trait Target: Askable {
    // What it has, as samples; without times, if it has none.
    ghost seen: { Self → SamplesState };

    /// The number of its last edit.
    fn edits(&self) -> u64
        ensures { result ≡ (seen self.now).series.edits };

    /// Whether a span has an element. A window of time has none if the target has no times.
    fn has_some(&self, span: SampleSpan) -> bool
        ensures { result ≡ has_some_in (seen self.now) span };

    /// The answer to a query. Takes no memory.
    fn answer(&mut self, query: &SampleQuery) -> Shown
        ensures value { result ≡ sample_answer (seen self.old) query.now }
        ensures same { self.new ≡ self.old };
}

impl Target for KindVector {
    ghost use Rattle.livevec_c.specs.Targets.{seen_vector};

    ghost seen = { seen_vector };

    fn edits(&self) -> u64 {
        u64::from(self.live().edit())
    }

    fn has_some(&self, span: SampleSpan) -> bool {
        match span {
            SampleSpan::Among(span) => has_some_from(0, u64::from(self.live().size()), span),
            SampleSpan::Within(_) => false,
        }
    }

    fn answer(&mut self, query: &SampleQuery) -> Shown {
        match query.span {
            SampleSpan::Among(span) => value_in_span(self, query.kind, span),
            SampleSpan::Within(_) => value_in_span(self, query.kind, Span::Last(0)),
        }
    }
}

impl Target for AskedSeries<'_> {
    ghost use Rattle.livevec_c.specs.Targets.{seen_series};

    ghost seen = { λ a. seen_series a.series.now };

    fn edits(&self) -> u64 {
        self.series.edits()
    }

    fn has_some(&self, span: SampleSpan) -> bool {
        match span {
            SampleSpan::Among(span) => some_kept(self.series, span),
            SampleSpan::Within(_) => false,
        }
    }

    fn answer(&mut self, query: &SampleQuery) -> Shown {
        match query.span {
            SampleSpan::Among(span) => value_in_span(self, query.kind, span),
            SampleSpan::Within(_) => value_in_span(self, query.kind, Span::Last(0)),
        }
    }
}

impl Target for AskedSamples<'_> {
    ghost use Rattle.livevec_c.specs.Targets.{seen_samples};

    ghost seen = { λ a. seen_samples a.samples.now };

    fn edits(&self) -> u64 {
        self.samples.series().edits()
    }

    fn has_some(&self, span: SampleSpan) -> bool {
        match span {
            SampleSpan::Among(span) => some_kept(self.samples.series(), span),
            SampleSpan::Within(time) => {
                let Window { lo, hi } = self.samples.last(time);
                lo < hi
            }
        }
    }

    fn answer(&mut self, query: &SampleQuery) -> Shown {
        query.answer_by(self)
    }
}

// Whether a span has an element of a series.
fn some_kept(series: &Series, span: Span) -> bool
    ensures { result ≡ nat_lt 0 (length (span_from series.now.held.first span series.now.held.elements)) }
{
    has_some_from(series.first(), series.size(), span)
}

// Whether a span has one of the elements from index `first` up to `size`.
fn has_some_from(first: u64, size: u64, span: Span) -> bool
    ensures { (xs : List ℤ) → first + length xs ≡ size → result ≡ nat_lt 0 (length (span_from first span xs)) }
{
    let Indices { lo, hi } = span.indices_in(size);
    lo.max(first) < hi
}
