//! Windows of time, and what samples are asked of one.
ghost use Rattle.std.specs.Prelude.{◌≡◌, ◌+◌, ◌-◌, ◌≤◌, All, false, drop, int_lt, length, take, true};
ghost use Rattle.lv_series.specs.Samples.{AnswersCount, AnswersValue, AnswersWindow, IsSampleValue, IsWindowOf, is_among_last, is_between, newest_of};
ghost use Rattle.lv_series.specs.Series.{size_of, slice_of};
ghost use Rattle.lv_tree.specs.KindSummaries.{summary_by};

use crate::answers::LongAnswer;
use crate::refusals::LongRefusal;
use crate::samples::{Samples, Window};
use crate::times::place_of;
use lv_bodies::Kind;
use lv_tree::KindSummary;

impl Samples {
    // The index of the first sample whose time isn't before another, or the one behind the last sample.
    pub(crate) fn index_since(&self, time: i128) -> u64
        ensures from { self.now.series.held.first ≤ result }
        ensures to { result ≤ size_of self.now.series.held }
        ensures paired { length self.now.times ≡ length self.now.series.held.elements }
        ensures before { All (λ t. int_lt t time ≡ true) (take (result - self.now.series.held.first) self.now.times) }
        ensures behind { All (λ t. int_lt t time ≡ false) (drop (result - self.now.series.held.first) self.now.times) }
    {
        self.series.holds();
        self.series.first() + place_of(self.kept(), time) as u64
    }

    /// The samples from time `since` up to `until`: one at `since` is among them, one at `until` isn't. O(log n). Refused with `BadRange` if
    /// `until` is before `since`. Takes no memory.
    pub fn between(&self, since: i64, until: i64) -> Result<Window, LongRefusal>
        ensures { AnswersWindow self.now since until result }
    {
        if until < since {
            return Err(LongRefusal::BadRange);
        }
        Ok(self.window(since, until))
    }

    // The samples between two times. The second one must not be before the first.
    fn window(&self, since: i64, until: i64) -> Window
        requires { int_lt until since ≡ false }
        ensures { IsWindowOf self.now (is_between since until) result.lo result.hi }
    {
        Window {
            lo: self.index_since(i128::from(since)),
            hi: self.index_since(i128::from(until)),
        }
    }

    /// The samples of the last `span` of time: those whose times are above that of the last sample less `span`. So of no span there is
    /// none, and of one it is those with the last one's time. O(log n). Takes no memory.
    pub fn last(&self, span: u64) -> Window
        ensures { IsWindowOf self.now (is_among_last (newest_of self.now.times) span) result.lo result.hi }
    {
        let newest = i128::from(self.newest().unwrap_or(0));
        Window {
            lo: self.index_since(newest - i128::from(span) + 1),
            hi: self.series.size(),
        }
    }

    /// The summary by a kind of the values from time `since` up to `until`, with the number of the last edit. By the kind's tree it takes
    /// O(log n) joins; without one it goes over the window. Refused as `between` is. Takes no memory.
    pub fn value(
        &self,
        kind: Kind,
        since: i64,
        until: i64,
    ) -> Result<LongAnswer<KindSummary>, LongRefusal>
        ensures { AnswersValue self.now kind since until result }
    {
        match self.between(since, until) {
            Err(refusal) => Err(refusal),
            Ok(window) => Ok(self.value_in(kind, window)),
        }
    }

    /// The summary by a kind of the values of the last `span` of time, as `last` has it, with the number of the last edit. Cost and memory are
    /// those of `value`.
    pub fn value_of_last(&self, kind: Kind, span: u64) -> LongAnswer<KindSummary>
        ensures { IsSampleValue self.now kind (is_among_last (newest_of self.now.times) span) result }
    {
        self.value_in(kind, self.last(span))
    }

    // The summary by a kind of the values of a window.
    fn value_in(&self, kind: Kind, window: Window) -> LongAnswer<KindSummary>
        requires from { self.now.series.held.first ≤ window.lo }
        requires order { window.lo ≤ window.hi }
        requires to { window.hi ≤ size_of self.now.series.held }
        ensures edit { result.edit ≡ self.now.series.edits }
        ensures value { result.value ≡ summary_by self.now.series.table kind (slice_of self.now.series.held window.lo window.hi) }
    {
        match self.series.value(kind, window.lo, window.hi) {
            Ok(answer) => answer,
            Err(_) => unreachable!(),
        }
    }

    /// How many samples there are from time `since` up to `until`. O(log n). Refused as `between` is. Takes no memory.
    pub fn count(&self, since: i64, until: i64) -> Result<u64, LongRefusal>
        ensures { AnswersCount self.now since until result }
    {
        match self.between(since, until) {
            Err(refusal) => Err(refusal),
            Ok(window) => Ok(window.hi - window.lo),
        }
    }
}
