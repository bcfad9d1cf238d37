//! Many edits at once: all of them are made, or none.
ghost use Rattle.std.specs.Prelude.{◌≡◌, ◌+◌, ◌*◌, ◌^◌, ◌≤◌, ◌++◌, true, None, Ok, EachIndex, fold, length, slice_index, take};
ghost use Rattle.lv_series.specs.Batches.{AnswersEdits, pushes_of, verdict_of_edits, writes_at};
ghost use Rattle.lv_series.specs.Blocks.{IsWindow};
ghost use Rattle.lv_series.specs.Series.{changed, held_in, is_kept};
ghost use Rattle.lv_series.specs.Trees.{AreOver, KeepsKinds};

use crate::blocks::{cut, push_into, write_into};
use crate::refusals::LongRefusal;
use crate::series::{MOST, Series};
use crate::trees::Trees;

impl Series {
    /// Puts elements at the end, in order, all of them or none, and returns the number of the last edit. Refused as the first push that
    /// would be refused, with `Worn` or `Full`, then with `NoMemory`.
    pub fn push_all(&mut self, values: &[i64]) -> Result<u64, LongRefusal>
        ensures { AnswersEdits self.old (pushes_of values.now) result self.new }
    {
        match self.verdict_of_pushes(values) {
            Some(refusal) => Err(refusal),
            None => self.make_pushes(values),
        }
    }

    /// Why pushes, one after another, would be refused, except for memory; none if all would be accepted.
    #[tactic(auto, using(crate::proofs::BatchLaws::full_or_none, crate::proofs::BatchLaws::worn_or_none, crate::proofs::KeptLaws::size_in))]
    pub fn verdict_of_pushes(&self, values: &[i64]) -> Option<LongRefusal>
        ensures { result ≡ verdict_of_edits self.now (pushes_of values.now) }
    {
        let count = values.len() as u64;
        let edits = u64::MAX - self.edits;
        let room = MOST - self.size();
        if edits <= room {
            (count > edits).then_some(LongRefusal::Worn)
        } else {
            (count > room).then_some(LongRefusal::Full)
        }
    }

    /// Writes values under indices, in order, all of them or none, and returns the number of the last edit. Refused as the first write that
    /// would be refused, with `Worn` or `OutOfRange`. Takes no memory.
    pub fn write_all(&mut self, indices: &[u64], values: &[i64]) -> Result<u64, LongRefusal>
        requires paired { length indices.now ≡ length values.now }
        ensures { AnswersEdits self.old (writes_at indices.now values.now) result self.new }
    {
        match self.verdict_of_writes(indices, values) {
            Some(refusal) => Err(refusal),
            None => Ok(self.make_writes(indices, values)),
        }
    }
    /// Why writes, one after another, would be refused; none if all would be accepted.
    #[tactic(auto, using(crate::proofs::WriteLaws::judged_more, crate::proofs::WriteLaws::judged_none, crate::proofs::WriteLaws::judged_out, crate::proofs::WriteLaws::judged_worn, crate::proofs::WriteLaws::verdict_judged))]
    pub fn verdict_of_writes(&self, indices: &[u64], values: &[i64]) -> Option<LongRefusal>
        requires paired { length indices.now ≡ length values.now }
        ensures { result ≡ verdict_of_edits self.now (writes_at indices.now values.now) }
    {
        let left = u64::MAX - self.edits;
        for k in 0..indices.len() {
            if k as u64 == left {
                return Some(LongRefusal::Worn);
            }
            if !self.keeps(indices[k]) {
                return Some(self.out_of_range());
            }
        }
        None
    }

    // Puts elements at the end, if nothing refuses that. If memory runs out, nothing has changed.
    #[tactic(auto, using(crate::proofs::BatchLaws::all_accepted, crate::proofs::BatchLaws::count_pushes, crate::proofs::BatchLaws::free_pushes, crate::proofs::BatchLaws::pushes_made, crate::proofs::KeptLaws::more_in, crate::proofs::KeptLaws::size_in))]
    fn make_pushes(&mut self, values: &[i64]) -> Result<u64, LongRefusal>
        requires { verdict_of_edits self.old (pushes_of values.now) ≡ None }
        ensures { AnswersEdits self.old (pushes_of values.now) result self.new }
    {
        let len = self.elements.len();
        if !push_each(
            &mut self.elements,
            &mut self.trees,
            self.base,
            self.first,
            values,
        ) {
            cut(
                &mut self.elements,
                &mut self.trees,
                self.base,
                self.first,
                len,
            );
            return Err(LongRefusal::NoMemory);
        }
        self.edits += values.len() as u64;
        Ok(self.edits)
    }

    // Writes values under indices, if nothing refuses that.
    #[tactic(auto, using(crate::proofs::BatchLaws::all_accepted, crate::proofs::WriteLaws::count_writes, crate::proofs::WriteLaws::judged_few, crate::proofs::WriteLaws::judged_kept, crate::proofs::WriteLaws::verdict_judged))]
    fn make_writes(&mut self, indices: &[u64], values: &[i64]) -> u64
        requires free { verdict_of_edits self.old (writes_at indices.now values.now) ≡ None }
        requires paired { length indices.now ≡ length values.now }
        ensures { AnswersEdits self.old (writes_at indices.now values.now) (Ok result) self.new }
    {
        write_each(
            &mut self.elements,
            &mut self.trees,
            self.base,
            self.first,
            indices,
            values,
        );
        self.edits += indices.len() as u64;
        self.edits
    }
}

// Adds elements at the end, up to the first for which there is no memory. Returns whether there was memory for all.
fn push_each(
    elements: &mut Vec<i64>,
    trees: &mut Trees,
    base: u64,
    first: u64,
    values: &[i64],
) -> bool
    requires window { IsWindow base first elements.old.items }
    requires over { AreOver base first elements.old.items trees.old }
    requires numbered { 8 * base + length elements.old.items + length values.now ≤ 2 ^ 62 }
    ensures pushed { result ≡ true → elements.new.items ≡ elements.old.items ++ values.now }
    ensures more { length elements.old.items ≤ length elements.new.items }
    ensures front { take (length elements.old.items) elements.new.items ≡ elements.old.items }
    ensures window { IsWindow base first elements.new.items }
    ensures over { AreOver base first elements.new.items trees.new }
    ensures kinds { KeepsKinds trees.old trees.new }
{
    for k in 0..values.len() {
        if !push_into(elements, trees, base, first, values[k]) {
            return false;
        }
    }
    true
}

// Overwrites the elements under indices that are kept, one after another.
#[tactic(auto, using(crate::proofs::KeptLaws::kept_inside, crate::proofs::KeptLaws::write_in, crate::proofs::SeriesLaws::kept_twice, crate::proofs::WriteLaws::writes_more))]
fn write_each(
    elements: &mut Vec<i64>,
    trees: &mut Trees,
    base: u64,
    first: u64,
    indices: &[u64],
    values: &[i64],
)
    requires window { IsWindow base first elements.old.items }
    requires over { AreOver base first elements.old.items trees.old }
    requires paired { length indices.now ≡ length values.now }
    requires kept { EachIndex indices.now (λ k. is_kept (held_in base first elements.old.items) (slice_index indices.now k) ≡ true) }
    ensures written { held_in base first elements.new.items ≡ fold changed (held_in base first elements.old.items) (writes_at indices.now values.now) }
    ensures window { IsWindow base first elements.new.items }
    ensures over { AreOver base first elements.new.items trees.new }
    ensures kinds { KeepsKinds trees.old trees.new }
{
    for k in 0..indices.len() {
        let at = (indices[k] - 8 * base) as usize;
        write_into(elements, trees, base, first, at, values[k]);
    }
}
