//! The sum that was returned last: it is returned again, without a walk over the tree, if its range is asked for again.
ghost use Rattle.std.specs.Prelude.{◌≡◌, ◌+◌, ◌≤◌, ◌++◌, ◌∷◌, [], List, Some, IfSome, length};
ghost use Rattle.lv_edits.specs.declared.edit.Edit.{Edit as AnEdit};
ghost use Rattle.lv_edits.specs.declared.edit.Edit.TheVariants.{Write};
ghost use Rattle.lv_edits.specs.History.{History, list_of, replayed, with_edit};
ghost use Rattle.lv_tree.specs.LastSum.{IsDifference, IsSumOfRange, IsWriteOver, sum_of_range};

use lv_edits::Edit;

/// The sum of a range, its end excluded, modulo 2^64.
#[derive(Clone, Copy)]
pub struct LastSum {
    pub lo: u32,
    pub hi: u32,
    pub value: u64,
}

impl LastSum {
    /// The sum of no elements, which every vector has.
    #[inline(always)]
    pub fn none() -> LastSum
        ensures { (edits : List AnEdit) → IsSumOfRange edits result }
    {
        LastSum {
            lo: 0,
            hi: 0,
            value: 0,
        }
    }

    /// The sum of a range.
    #[inline(always)]
    pub fn new(lo: u32, hi: u32, value: u64) -> LastSum
        ensures { result ≡ record { lo = lo; hi = hi; value = value } }
    {
        LastSum { lo, hi, value }
    }

    /// The sum, if it is that of this range.
    #[inline(always)]
    pub fn of(&self, lo: u32, hi: u32) -> Option<u64>
        ensures sum { (edits : List AnEdit) → IsSumOfRange edits self.now → IfSome result (λ value. value ≡ sum_of_range edits lo hi) }
        ensures range { IfSome result (λ _. (self.now.lo ≡ lo) × (self.now.hi ≡ hi)) }
        ensures told { self.now.lo ≡ lo → self.now.hi ≡ hi → result ≡ Some self.now.value }
    {
        if self.lo == lo && self.hi == hi {
            Some(self.value)
        } else {
            None
        }
    }

    /// Takes note of a write that was accepted: if the range has the index, the difference to the element before is added.
    #[inline(always)]
    pub fn follow_write(&mut self, index: u32, before: i64, x: i64)
        ensures { (h : History) → IsWriteOver h index before → IsSumOfRange h.journal self.old → IsSumOfRange (with_edit h (Write index x)).journal self.new }
    {
        if self.lo <= index && index < self.hi {
            self.value = self.value.wrapping_add(difference(before, x));
        }
    }

    /// Takes note of an edit that was accepted: the sum is forgotten if the edit may change an element of its range.
    #[inline(always)]
    pub fn follow(&mut self, edit: &Edit)
        ensures { (edits : List AnEdit) → replayed (edits ++ edit.now ∷ []) ≡ Some (list_of (edits ++ edit.now ∷ [])) → IsSumOfRange edits self.old → IsSumOfRange (edits ++ edit.now ∷ []) self.new }
    {
        match *edit {
            Edit::Push(_) => {}
            Edit::Reserve(_) => {}
            Edit::Truncate(count) => {
                if count < self.hi {
                    *self = LastSum::none();
                }
            }
            _ => *self = LastSum::none(),
        }
    }
}

/// The number that is to be added to a sum when one element takes another's place.
#[inline(always)]
fn difference(before: i64, x: i64) -> u64
    ensures { IsDifference before x result }
{
    x.cast_unsigned().wrapping_sub(before.cast_unsigned())
}
