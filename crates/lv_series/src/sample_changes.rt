//! The edits of samples. Each returns its number, and is refused with nothing changed.
ghost use Rattle.std.specs.Prelude.{◌≡◌, ◌+◌, IfErr, OnErr, OnOk};
ghost use Rattle.lv_series.specs.Samples.{AnswersSample, count_before, sample_refused};
ghost use Rattle.lv_series.specs.Places.{IsSearchable};
ghost use Rattle.lv_series.specs.Series.{Asks, RefusesAsked, with_kind};
ghost use Rattle.lv_series.specs.declared.sample_edits.SampleEdit.TheVariants as asked;

use crate::answers::LongAnswer;
use crate::edits::LongEdit;
use crate::receipts::LongReceipt;
use crate::refusals::LongRefusal;
use crate::sample_edits::{SampleEdit, SampleRefusal};
use crate::samples::Samples;
use crate::times::forget_times;
use lv_bodies::Kind;
use lv_tree::KindSummary;

impl Samples {
    /// Makes an edit, whichever it is.
    pub fn apply(&mut self, edit: &SampleEdit) -> Result<LongReceipt, SampleRefusal>
        ensures { AnswersSample self.old edit.now result self.new }
    {
        match *edit {
            SampleEdit::Push { time, value } => self.push(time, value),
            SampleEdit::Pop => self.pop(),
            SampleEdit::Write { index, value } => self.write(index, value),
            SampleEdit::Expire(index) => self.expire(index),
            SampleEdit::Truncate(size) => self.truncate(size),
        }
    }

    // Why a sample would be refused at the end, except for memory.
    fn push_refusal(&self, time: i64, value: i64) -> Option<SampleRefusal>
        ensures { result ≡ sample_refused self.now (asked.Push time value) }
    {
        if let Some(refusal) = self.series.verdict(&LongEdit::Push(value)) {
            return Some(SampleRefusal::Refused(refusal));
        }
        match self.newest() {
            Some(newest) if time < newest => Some(SampleRefusal::Earlier { newest }),
            _ => None,
        }
    }

    /// Puts a sample at the end, and returns its index. O(1) amortised, and O(1) joins for each tree. Refused as `Series::push` is with `Worn`
    /// and `Full`, then with `Earlier` if its time is before that of the last sample, then with `NoMemory`.
    pub fn push(&mut self, time: i64, value: i64) -> Result<LongReceipt, SampleRefusal>
        ensures { AnswersSample self.old (asked.Push time value) result self.new }
    {
        if let Some(refusal) = self.push_refusal(time, value) {
            return Err(refusal);
        }
        if self.times.push(time).is_err() {
            return Err(SampleRefusal::Refused(LongRefusal::NoMemory));
        }
        match self.series.push(value) {
            Ok(receipt) => Ok(receipt),
            Err(refusal) => {
                self.times.truncate(self.times.len() - 1);
                Err(SampleRefusal::Refused(refusal))
            }
        }
    }

    /// Drops the last sample, and returns its value. O(1). Refused as `Series::pop` is, with `Worn`, then `Empty`. Takes no memory.
    pub fn pop(&mut self) -> Result<LongReceipt, SampleRefusal>
        ensures { AnswersSample self.old asked.Pop result self.new }
    {
        match self.series.pop() {
            Err(refusal) => Err(SampleRefusal::Refused(refusal)),
            Ok(receipt) => {
                self.times.truncate(self.times.len() - 1);
                Ok(receipt)
            }
        }
    }

    /// Overwrites the value under an index, and returns the one before; the time stays. O(log n) joins for each tree. Refused as
    /// `Series::write` is, with `Worn`, then `OutOfRange`. Takes no memory.
    pub fn write(&mut self, index: u64, value: i64) -> Result<LongReceipt, SampleRefusal>
        ensures { AnswersSample self.old (asked.Write index value) result self.new }
    {
        match self.series.write(index, value) {
            Err(refusal) => Err(SampleRefusal::Refused(refusal)),
            Ok(receipt) => Ok(receipt),
        }
    }

    /// Drops the samples from an index on, and returns how many they were. O(1). Refused as `Series::truncate` is, with `Worn`, then
    /// `OutOfRange`. Takes no memory.
    pub fn truncate(&mut self, size: u64) -> Result<LongReceipt, SampleRefusal>
        ensures { AnswersSample self.old (asked.Truncate size) result self.new }
    {
        match self.series.truncate(size) {
            Err(refusal) => Err(SampleRefusal::Refused(refusal)),
            Ok(receipt) => {
                let kept = (size - self.series.first()) as usize;
                self.times.truncate(self.gone + kept);
                Ok(receipt)
            }
        }
    }

    /// Drops the samples before an index, and returns how many they were; the others keep their indices. O(1) amortised. Refused as
    /// `Series::expire` is, with `Worn`, then `OutOfRange`, and gives memory back as that does.
    pub fn expire(&mut self, index: u64) -> Result<LongReceipt, SampleRefusal>
        ensures { AnswersSample self.old (asked.Expire index) result self.new }
    {
        let first = self.series.first();
        match self.series.expire(index) {
            Err(refusal) => Err(SampleRefusal::Refused(refusal)),
            Ok(receipt) => {
                let dropped = (index - first) as usize;
                self.gone = forget_times(&mut self.times, self.gone + dropped);
                Ok(receipt)
            }
        }
    }

    /// Drops the samples that were taken before a time, and returns how many they were; the others keep their indices. O(log n), and O(1)
    /// amortised. Refused with `Worn`. Gives memory back as `Series::expire` does.
    pub fn expire_before(&mut self, time: i64) -> Result<LongReceipt, SampleRefusal>
        ensures { AnswersSample self.old (asked.Expire (self.old.series.held.first + count_before time self.old.times)) result self.new }
    {
        let index = self.index_since(i128::from(time));
        self.expire(index)
    }

    /// Makes the tree of a kind over the values, if there is none: from then on a value by that kind takes O(log n) joins, and each edit renews
    /// the tree. O(n). Refused with `NoMemory`, and nothing has changed then.
    pub fn prepare(&mut self, kind: Kind) -> Result<(), LongRefusal>
        ensures ok { OnOk result (self.new ≡ record self.old { series = record self.old.series { kinds = with_kind kind self.old.series.kinds } }) }
        ensures same { OnErr result (self.new ≡ self.old) }
        ensures err { IfErr result (λ refusal. refusal ≡ LongRefusal.NoMemory) }
    {
        self.series.prepare(kind)
    }

    /// Makes the tree of a kind for queries of the values from index `lo` up to `hi`, if there is none: that range of `series()` can be searched
    /// by the kind then. Refused with `BadRange`, then `OutOfRange`, then `NoMemory`: nothing has changed then.
    pub fn prepare_for(&mut self, kind: Kind, lo: u64, hi: u64) -> Result<(), LongRefusal>
        ensures searchable { OnOk result (IsSearchable self.new.series kind lo hi) }
        ensures ok { OnOk result (self.new ≡ record self.old { series = record self.old.series { kinds = with_kind kind self.old.series.kinds } }) }
        ensures err { IfErr result (λ refusal. RefusesAsked self.old.series kind lo hi refusal self.new.series) }
        ensures same { OnErr result (self.new ≡ self.old) }
    {
        self.series.prepare_for(kind, lo, hi)
    }

    /// The summary by a kind of the values from index `lo` up to `hi`, with the number of the last edit, as `Series::ask` gives it. The kind's
    /// tree is made first, if there is none. O(log n) joins then. Refused as `prepare_for` is.
    #[inline(always)]
    pub fn ask(
        &mut self,
        kind: Kind,
        lo: u64,
        hi: u64,
    ) -> Result<LongAnswer<KindSummary>, LongRefusal>
        ensures asked { Asks self.old.series kind lo hi result self.new.series }
        ensures times { self.new.times ≡ self.old.times }
    {
        self.series.ask(kind, lo, hi)
    }
}
