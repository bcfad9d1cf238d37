//! A vector with its operation log (*journal*): precondition checks (*verdicts*), results of edits (*receipts*), and reads.
ghost use Rattle.std.specs.Prelude.{◌≡◌, ◌+◌, ◌*◌, ◌<◌, ◌≤◌, None, [], length, take, drop};
ghost use Rattle.std.specs.List.{slice_index_or, slice_range};
ghost use Rattle.lv_edits.specs.Capacity.{capacity_after, IsCapacityAfter};
ghost use Rattle.lv_edits.specs.History.{History, list_of};
ghost use Rattle.lv_edits.specs.Kept.{IsLegalInLimits};
ghost use Rattle.lv_edits.specs.Touch.{LastWroteAt};
ghost use Rattle.lv_edits.specs.Verdict.{Answers, element_at, verdict_of};

mod batches;

use crate::edit::Edit;
use crate::journal::Journal;
use crate::making::make_edit;
use crate::receipt::Receipt;
use crate::writing::make_write_through;
use lv_geometry::{Limits, Refusal, capacity};
use lv_store::Store;
use std::alloc::Global;
use std::marker::Model;

/// A vector of `i64` with the journal of its edits.
#[derive(Drop)]
pub struct Edits {
    store: Store,
    journal: Journal,
}

impl Model for Edits {
    ghost use Rattle.lv_edits.specs.History.{History};

    ghost Value = { History };

    ghost use Rattle.lv_edits.specs.Inner.{HoldsReplay, noted};

    ghost view = { λ a. record { limits = a.store.limits; journal = noted a.journal } };

    ghost invariant = { λ a. HoldsReplay a.store (noted a.journal) };
}

impl Edits {
    /// An empty vector, with no bucket open. Takes no memory.
    pub fn new(alloc: Global, limits: Limits) -> Edits
        ensures history { result ≡ record { limits = limits; journal = [] } }
        ensures limits { IsLegalInLimits result }
    {
        Edits {
            store: Store::new(alloc, limits),
            journal: Journal::empty(alloc),
        }
    }

    /// All edits that were accepted, the first of them first.
    pub fn journal(&self) -> &[Edit]
        ensures value { result.now ≡ self.now.journal }
        ensures limits { IsLegalInLimits self.now }
    {
        self.journal.as_slice()
    }

    /// Puts `x` at the end. Refused with `Worn`, `Full`, then `NoMemory`.
    pub fn push(&mut self, x: i64) -> Result<Receipt, Refusal>
        ensures answer { Answers self.old (Edit.Push x) result self.new }
        ensures limits { IsLegalInLimits self.new }
    {
        self.apply(Edit::Push(x))
    }

    /// Drops the last element. Refused with `Worn`, `Empty`, then `NoMemory`. No bucket is closed.
    pub fn pop(&mut self) -> Result<Receipt, Refusal>
        ensures answer { Answers self.old Edit.Pop result self.new }
        ensures limits { IsLegalInLimits self.new }
    {
        self.apply(Edit::Pop)
    }

    /// Overwrites the element at `index`. Refused with `Worn`, `OutOfRange`, then `NoMemory`.
    pub fn write(&mut self, index: u32, value: i64) -> Result<Receipt, Refusal>
        ensures answer { Answers self.old (Edit.Write index value) result self.new }
        ensures limits { IsLegalInLimits self.new }
    {
        self.apply(Edit::Write { index, value })
    }

    /// Opens the buckets that `cells` elements need. Refused with `Worn`, `TooLarge`, then `NoMemory`. Within the
    /// capacity it opens none, and is an edit like any other.
    pub fn reserve(&mut self, cells: u32) -> Result<Receipt, Refusal>
        ensures answer { Answers self.old (Edit.Reserve cells) result self.new }
        ensures limits { IsLegalInLimits self.new }
    {
        self.apply(Edit::Reserve(cells))
    }

    /// Exchanges the elements at two indices. Refused with `Worn`, `OutOfRange`, then `NoMemory`. If the indices are equal it
    /// changes no element, and is an edit like any other.
    pub fn swap(&mut self, first: u32, second: u32) -> Result<Receipt, Refusal>
        ensures answer { Answers self.old (Edit.Swap first second) result self.new }
        ensures limits { IsLegalInLimits self.new }
    {
        self.apply(Edit::Swap { first, second })
    }

    /// Keeps the first `count` elements and drops the others. Refused with `Worn`, `OutOfRange`, then `NoMemory`. No bucket is
    /// closed, and no element is read.
    pub fn truncate(&mut self, count: u32) -> Result<Receipt, Refusal>
        ensures answer { Answers self.old (Edit.Truncate count) result self.new }
        ensures limits { IsLegalInLimits self.new }
    {
        self.apply(Edit::Truncate(count))
    }

    /// Makes an edit of any kind if no error applies to it. The check is made once.
    pub fn apply(&mut self, edit: Edit) -> Result<Receipt, Refusal>
        ensures answer { Answers self.old edit result self.new }
        ensures limits { IsLegalInLimits self.new }
    {
        // If the edit is rejected, the list stays within its limits: a look at a field gives the proof the invariant.
        let _ = &self.store;
        match self.verdict(&edit) {
            Some(refusal) => Err(refusal),
            None => self.make(edit),
        }
    }

    /// Makes an edit that the verdict allows, so that its only error is `NoMemory`. The room in the journal, then the bucket, is
    /// made before anything changes.
    #[inline(always)]
    pub fn make(&mut self, edit: Edit) -> Result<Receipt, Refusal>
        requires { verdict_of self.old.limits self.old.journal edit ≡ None }
        ensures answer { Answers self.old edit result self.new }
        ensures limits { IsLegalInLimits self.new }
    {
        make_edit(&mut self.store, &mut self.journal, edit)
    }

    /// Overwrites the element at `index`, as `write` does, and completes the write at once, so that nothing is pending afterwards.
    /// Refused as `write` is.
    #[inline(always)]
    pub fn write_through(&mut self, index: u32, value: i64) -> Result<Receipt, Refusal>
        ensures answer { Answers self.old (Edit.Write index value) result self.new }
        ensures limits { IsLegalInLimits self.new }
    {
        let _ = &self.store;
        match self.verdict(&Edit::Write { index, value }) {
            Some(refusal) => Err(refusal),
            None => make_write_through(&mut self.store, &mut self.journal, index, value),
        }
    }

    /// The first error other than `NoMemory` that applies to an edit, or none.
    #[inline(always)]
    pub fn verdict(&self, edit: &Edit) -> Option<Refusal>
        ensures { result ≡ verdict_of self.now.limits self.now.journal edit.now }
    {
        let limits = self.store.limits();
        if self.edit() == limits.edits() {
            return Some(Refusal::Worn);
        }
        let size = self.size();
        let limit = limits.capacity();
        match *edit {
            Edit::Push(_) => (size == limit).then_some(Refusal::Full),
            Edit::Pop => (size == 0).then_some(Refusal::Empty),
            Edit::Write { index, .. } => (index >= size).then_some(Refusal::OutOfRange { size }),
            Edit::Reserve(cells) => (cells > limit).then_some(Refusal::TooLarge { limit }),
            Edit::Swap { first, second } => {
                (first >= size || second >= size).then_some(Refusal::OutOfRange { size })
            }
            Edit::Truncate(count) => (count > size).then_some(Refusal::OutOfRange { size }),
        }
    }

    /// Completes the write of the last edit, if it is still pending. Every edit does so for the one before it.
    pub fn settle(&mut self)
        ensures { self.new ≡ self.old }
    {
        self.store.settle();
    }

    /// The element at index `i`. Refused with `OutOfRange`.
    pub fn get(&self, i: u32) -> Result<i64, Refusal>
        ensures { result ≡ element_at self.now.journal i }
    {
        if i < self.size() {
            Ok(self.read(i))
        } else {
            Err(Refusal::OutOfRange { size: self.size() })
        }
    }

    /// The element at an index that is below the size.
    #[inline(always)]
    pub fn read(&self, i: u32) -> i64
        requires { i < length (list_of self.now.journal) }
        ensures value { result ≡ slice_index_or (list_of self.now.journal) i result }
        ensures limits { IsLegalInLimits self.now }
    {
        self.store.read(i)
    }

    /// The elements of a block, all of whose indices are below the size.
    #[inline(always)]
    pub fn block(&self, block: u32) -> [i64; 8]
        requires { (block + 1) * 8 ≤ length (list_of self.now.journal) }
        ensures value { result ≡ take 8 (drop (block * 8) (list_of self.now.journal)) }
        ensures limits { IsLegalInLimits self.now }
    {
        self.store.cells(block)
    }

    /// A slice of elements from index `from` on, before `to`: as many as are contiguous in memory with no pending write among them.
    /// Nothing is copied. It is empty only if the last edit wrote at `from` and that write isn't in its cell yet: then `read` returns
    /// the element.
    #[tactic(auto, using(crate::proofs::HoldsLaws::wrote_last))]
    pub fn stretch(&self, from: u32, to: u32) -> &[i64]
        requires order { from < to }
        requires inside { to ≤ length (list_of self.now.journal) }
        ensures elements { result.now ≡ slice_range (list_of self.now.journal) from (from + length result.now) }
        ensures few { from + length result.now ≤ to }
        ensures some { length result.now ≡ 0 → LastWroteAt self.now.journal from }
        ensures limits { IsLegalInLimits self.now }
    {
        self.store.stretch(from, to)
    }

    /// How many elements there are.
    #[inline(always)]
    pub fn size(&self) -> u32
        ensures value { result ≡ length (list_of self.now.journal) }
        ensures limits { IsLegalInLimits self.now }
    {
        self.store.size()
    }

    /// How many elements the open buckets hold.
    pub fn capacity(&self) -> u32
        ensures value { result ≡ capacity_after self.now.journal }
        ensures least { IsCapacityAfter self.now.journal result }
        ensures limits { IsLegalInLimits self.now }
    {
        capacity(self.store.buckets())
    }

    /// The number of the last edit, 0 before the first.
    #[inline(always)]
    pub fn edit(&self) -> u32
        ensures value { result ≡ length self.now.journal }
        ensures limits { IsLegalInLimits self.now }
    {
        self.store.edit()
    }

    /// The limits that the vector was made with.
    pub fn limits(&self) -> Limits
        ensures { result ≡ self.now.limits }
    {
        self.store.limits()
    }
}
