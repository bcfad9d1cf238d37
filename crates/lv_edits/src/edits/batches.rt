//! Many pushes, or many writes, in one call, which makes all of them or none.
ghost use Rattle.std.specs.Prelude.{◌≡◌, ℤ, List, length};
ghost use Rattle.lv_edits.specs.Batches.{AnswersEdits, verdict_of_edits, writes_at};
ghost use Rattle.lv_edits.specs.Kept.{IsLegalInLimits};
ghost use Rattle.lv_edits.specs.Pushes.{AnswersAll, verdict_of_pushes};

use crate::edits::Edits;
use crate::pushing::make_pushes;
use crate::writing::make_writes;
use lv_geometry::Refusal;

impl Edits {
    /// Pushes values in order, all of them or none, and returns the number of the last edit. Refused with the error of the first push
    /// that would be rejected, `Worn` or `Full`, then with `NoMemory`. After an error nothing has changed.
    pub fn push_all(&mut self, values: &[i64]) -> Result<u32, Refusal>
        ensures answer { AnswersAll self.old values.now result self.new }
        ensures limits { IsLegalInLimits self.new }
    {
        let _ = &self.store;
        match self.verdict_of_pushes(values) {
            Some(refusal) => Err(refusal),
            None => make_pushes(&mut self.store, &mut self.journal, values),
        }
    }

    /// The error of the first push that would be rejected if the values were pushed one after another and memory sufficed, or none.
    pub fn verdict_of_pushes(&self, values: &[i64]) -> Option<Refusal>
        ensures { result ≡ verdict_of_pushes self.now values.now }
    {
        let limits = self.store.limits();
        let edits = limits.edits() - self.edit();
        let cells = limits.capacity() - self.size();
        if values.len() <= edits.min(cells) as usize {
            None
        } else if edits <= cells {
            Some(Refusal::Worn)
        } else {
            Some(Refusal::Full)
        }
    }

    /// Writes values at indices in order, all of them or none, and returns the number of the last edit. If an index comes twice, the
    /// later value stays. Refused with the error of the first write that would be rejected, `Worn` or `OutOfRange`, then with
    /// `NoMemory`. After an error nothing has changed.
    pub fn write_all(&mut self, indices: &[u32], values: &[i64]) -> Result<u32, Refusal>
        requires paired { length indices.now ≡ length values.now }
        ensures answer { AnswersEdits self.old (writes_at indices.now values.now) result self.new }
        ensures limits { IsLegalInLimits self.new }
    {
        let _ = &self.store;
        match self.verdict_of_writes(indices) {
            Some(refusal) => Err(refusal),
            None => make_writes(&mut self.store, &mut self.journal, indices, values),
        }
    }

    /// The error of the first write that would be rejected if writes were made at the indices one after another and memory sufficed,
    /// or none.
    pub fn verdict_of_writes(&self, indices: &[u32]) -> Option<Refusal>
        ensures { (xs : List ℤ) → length indices.now ≡ length xs → result ≡ verdict_of_edits self.now (writes_at indices.now xs) }
    {
        let left = (self.store.limits().edits() - self.edit()) as usize;
        let size = self.size();
        for place in 0..indices.len() {
            if place == left {
                return Some(Refusal::Worn);
            }
            if indices[place] >= size {
                return Some(Refusal::OutOfRange { size });
            }
        }
        None
    }
}
