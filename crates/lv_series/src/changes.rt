//! The edits of a series. Each returns its number. A refused one changes nothing.
ghost use Rattle.lv_series.specs.declared.edits.LongEdit.TheVariants as asked;
ghost use Rattle.lv_series.specs.Series.{Answers};

use crate::blocks::{cut, forget, push_into, swap_into, write_into};
use crate::edits::LongEdit;
use crate::receipts::LongReceipt;
use crate::refusals::LongRefusal;
use crate::series::Series;

impl Series {
    /// Makes an edit, whichever it is.
    pub fn apply(&mut self, edit: &LongEdit) -> Result<LongReceipt, LongRefusal>
        ensures { Answers self.old edit.now result self.new }
    {
        match *edit {
            LongEdit::Push(value) => self.push(value),
            LongEdit::Pop => self.pop(),
            LongEdit::Write { index, value } => self.write(index, value),
            LongEdit::Expire(index) => self.expire(index),
            LongEdit::Swap { first, second } => self.swap(first, second),
            LongEdit::Truncate(size) => self.truncate(size),
        }
    }

    /// Puts an element at the end, and returns its index. O(1) amortised, and O(1) joins for each tree. Refused with `Worn`, `Full`, then
    /// `NoMemory`.
    #[tactic(auto, using(crate::proofs::KeptLaws::push_in, crate::proofs::SeriesLaws::accepted))]
    #[inline(always)]
    pub fn push(&mut self, value: i64) -> Result<LongReceipt, LongRefusal>
        ensures { Answers self.old (asked.Push value) result self.new }
    {
        if let Some(refusal) = self.verdict(&LongEdit::Push(value)) {
            return Err(refusal);
        }
        let index = self.size();
        if !push_into(
            &mut self.elements,
            &mut self.trees,
            self.base,
            self.first,
            value,
        ) {
            return Err(LongRefusal::NoMemory);
        }
        self.edits += 1;
        Ok(LongReceipt::Pushed {
            edit: self.edits,
            index,
        })
    }

    /// Drops the last element, and returns it. O(1). Refused with `Worn`, then `Empty`. Takes no memory.
    #[tactic(auto, using(crate::proofs::KeptLaws::pop_in, crate::proofs::FreeLaws::free_pop, crate::proofs::FreeLaws::free_edit, crate::proofs::SeriesLaws::accepted))]
    pub fn pop(&mut self) -> Result<LongReceipt, LongRefusal>
        ensures { Answers self.old asked.Pop result self.new }
    {
        if let Some(refusal) = self.verdict(&LongEdit::Pop) {
            return Err(refusal);
        }
        let value = self.read(self.size() - 1);
        let kept = self.elements.len() - 1;
        cut(
            &mut self.elements,
            &mut self.trees,
            self.base,
            self.first,
            kept,
        );
        self.edits += 1;
        Ok(LongReceipt::Popped {
            edit: self.edits,
            value,
        })
    }

    /// Overwrites the element under an index, and returns the one before. O(log n) joins for each tree. Refused with `Worn`, then
    /// `OutOfRange`. Takes no memory.
    #[tactic(auto, using(crate::proofs::KeptLaws::write_in, crate::proofs::FreeLaws::free_write, crate::proofs::FreeLaws::free_edit, crate::proofs::SeriesLaws::accepted))]
    #[inline(always)]
    pub fn write(&mut self, index: u64, value: i64) -> Result<LongReceipt, LongRefusal>
        ensures { Answers self.old (asked.Write index value) result self.new }
    {
        if let Some(refusal) = self.verdict(&LongEdit::Write { index, value }) {
            return Err(refusal);
        }
        let before = self.read(index);
        let at = (index - 8 * self.base) as usize;
        write_into(
            &mut self.elements,
            &mut self.trees,
            self.base,
            self.first,
            at,
            value,
        );
        self.edits += 1;
        Ok(LongReceipt::Written {
            edit: self.edits,
            before,
        })
    }

    /// Exchanges the elements under two indices, which may be one, and returns what is there now. O(log n) joins for each tree. Refused
    /// with `Worn`, then `OutOfRange`. Takes no memory.
    pub fn swap(&mut self, first: u64, second: u64) -> Result<LongReceipt, LongRefusal>
        ensures { Answers self.old (asked.Swap first second) result self.new }
    {
        if let Some(refusal) = self.verdict(&LongEdit::Swap { first, second }) {
            return Err(refusal);
        }
        let (value, other) = (self.read(second), self.read(first));
        let a = (first - 8 * self.base) as usize;
        let b = (second - 8 * self.base) as usize;
        swap_into(
            &mut self.elements,
            &mut self.trees,
            self.base,
            self.first,
            a,
            b,
        );
        self.edits += 1;
        Ok(LongReceipt::Swapped {
            edit: self.edits,
            first: value,
            second: other,
        })
    }

    /// Drops the elements from an index on, and returns how many they were. O(1). Refused with `Worn`, then `OutOfRange`. Takes no memory.
    #[tactic(auto, using(crate::proofs::KeptLaws::truncate_in, crate::proofs::FreeLaws::free_cut, crate::proofs::FreeLaws::free_edit, crate::proofs::SeriesLaws::accepted))]
    pub fn truncate(&mut self, size: u64) -> Result<LongReceipt, LongRefusal>
        ensures { Answers self.old (asked.Truncate size) result self.new }
    {
        if let Some(refusal) = self.verdict(&LongEdit::Truncate(size)) {
            return Err(refusal);
        }
        let dropped = self.size() - size;
        let kept = (size - 8 * self.base) as usize;
        cut(
            &mut self.elements,
            &mut self.trees,
            self.base,
            self.first,
            kept,
        );
        self.edits += 1;
        Ok(LongReceipt::Truncated {
            edit: self.edits,
            dropped,
        })
    }

    /// Drops the elements before an index, and returns how many they were; the others keep their indices. O(1) amortised, and O(1) joins for each
    /// tree. There is memory for at most twice the elements that are left, and 64, then. If the array gives memory back, the trees are made anew,
    /// and those for which there is no memory stay. Refused with `Worn`, then `OutOfRange`, and never for memory.
    #[tactic(auto, using(crate::proofs::KeptLaws::expire_in, crate::proofs::FreeLaws::free_cut, crate::proofs::FreeLaws::free_edit, crate::proofs::SeriesLaws::accepted))]
    pub fn expire(&mut self, index: u64) -> Result<LongReceipt, LongRefusal>
        ensures { Answers self.old (asked.Expire index) result self.new }
    {
        if let Some(refusal) = self.verdict(&LongEdit::Expire(index)) {
            return Err(refusal);
        }
        let dropped = index - self.first;
        let base = forget(
            &mut self.elements,
            &mut self.trees,
            self.base,
            self.first,
            index,
        );
        self.base = base;
        self.first = index;
        self.edits += 1;
        Ok(LongReceipt::Expired {
            edit: self.edits,
            dropped,
        })
    }
}
