//! What a series keeps under an index, and what it refuses.
ghost use Rattle.std.specs.Prelude.{◌≡◌, true};
ghost use Rattle.lv_series.specs.Series.{element_at, element_of, is_border, is_kept, range_refused, refused, refused_on, size_of};

use crate::edits::LongEdit;
use crate::refusals::LongRefusal;
use crate::series::{MOST, Series};

impl Series {
    /// Why an edit would be refused, except for memory; none if it would be accepted.
    #[inline(always)]
    pub fn verdict(&self, edit: &LongEdit) -> Option<LongRefusal>
        ensures { result ≡ refused self.now edit.now }
    {
        if self.edits == u64::MAX {
            return Some(LongRefusal::Worn);
        }
        self.verdict_on(edit)
    }

    // Why an edit would be refused, except for memory, while edits are left; none if it would be accepted.
    #[inline(always)]
    fn verdict_on(&self, edit: &LongEdit) -> Option<LongRefusal>
        ensures { result ≡ refused_on self.now.held edit.now }
    {
        match *edit {
            LongEdit::Push(_) => (self.size() >= MOST).then_some(LongRefusal::Full),
            LongEdit::Pop => (self.first() == self.size()).then_some(LongRefusal::Empty),
            LongEdit::Write { index, .. } => (!self.keeps(index)).then_some(self.out_of_range()),
            LongEdit::Expire(index) => (!self.borders(index)).then_some(self.out_of_range()),
            LongEdit::Swap { first, second } => {
                (!(self.keeps(first) && self.keeps(second))).then_some(self.out_of_range())
            }
            LongEdit::Truncate(size) => (!self.borders(size)).then_some(self.out_of_range()),
        }
    }

    /// Why a range is refused, or none.
    #[inline(always)]
    pub fn range_refusal(&self, lo: u64, hi: u64) -> Option<LongRefusal>
        ensures { result ≡ range_refused self.now.held lo hi }
    {
        if hi < lo {
            return Some(LongRefusal::BadRange);
        }
        let kept = self.borders(lo) && self.borders(hi);
        (!kept).then_some(self.out_of_range())
    }

    // Whether an element is kept under an index.
    #[inline(always)]
    pub(crate) fn keeps(&self, index: u64) -> bool
        ensures { result ≡ is_kept self.now.held index }
    {
        self.first() <= index && index < self.size()
    }

    // Whether what is kept may begin or end at an index.
    #[inline(always)]
    fn borders(&self, index: u64) -> bool
        ensures { result ≡ is_border self.now.held index }
    {
        self.first() <= index && index <= self.size()
    }

    // That an index isn't kept, with what is.
    pub(crate) fn out_of_range(&self) -> LongRefusal
        ensures { result ≡ LongRefusal.OutOfRange self.now.held.first (size_of self.now.held) }
    {
        LongRefusal::OutOfRange {
            first: self.first(),
            size: self.size(),
        }
    }

    /// The element under an index. Refused with `OutOfRange`.
    #[inline(always)]
    pub fn get(&self, index: u64) -> Result<i64, LongRefusal>
        ensures { result ≡ element_at self.now.held index }
    {
        if self.keeps(index) {
            Ok(self.read(index))
        } else {
            Err(self.out_of_range())
        }
    }

    // The element under an index that is kept.
    #[tactic(auto, using(crate::proofs::KeptLaws::element_in, crate::proofs::KeptLaws::kept_inside))]
    #[inline(always)]
    pub(crate) fn read(&self, index: u64) -> i64
        requires { is_kept self.now.held index ≡ true }
        ensures { result ≡ element_of self.now.held index }
    {
        self.elements.as_slice()[(index - 8 * self.base) as usize]
    }
}
