//! The list that the edits of a journal make, and the values of its ranges, folded from the elements themselves.
ghost use Rattle.std.specs.Prelude.{◌≡◌, ◌^◌, ◌≤◌, ◌<◌, Some, IsSome, [], IfOk, ℤ, length, take, slice_set, slice_range, OnOk, OnErr};
ghost use Rattle.std.specs.List.{swap};
ghost use Rattle.lv_bodies.specs.Plain.{plain_value};
ghost use Rattle.lv_edits.specs.History.{applied, list_of, replayed};
ghost use Rattle.lv_transcript.specs.Blocks.{AreKept};

use crate::kind_folds::KindFolds;
use lv_bodies::{Kind, Shown};
use lv_edits::Edit;
use std::alloc::{AllocError, Global};

/// The list after some edits of a journal, how many those are, and the folds of its blocks that were asked for.
#[derive(Drop)]
pub(crate) struct Replay {
    pub(crate) edit: u32,
    pub(crate) list: Vec<i64>,
    pub(crate) folds: KindFolds,
}

impl Replay {
    /// The list before any edit. Takes no memory.
    pub(crate) fn new(alloc: Global) -> Replay
        ensures edit { result.edit ≡ 0 }
        ensures list { result.list.items ≡ [] }
        ensures kept { AreKept result.folds result.list.items }
    {
        Replay {
            edit: 0,
            list: Vec::new(alloc),
            folds: KindFolds::new(alloc),
        }
    }

    /// Makes the updates of an operation log up to one of them. If there is no memory for all, the first of them are made.
    pub(crate) fn bring_up(&mut self, journal: &[Edit], edit: u32) -> Result<(), AllocError>
        requires list { self.old.list.items ≡ list_of (take self.old.edit journal.now) }
        requires before { self.old.edit ≤ edit }
        requires within { edit ≤ length journal.now }
        requires legal { replayed journal.now ≡ Some (list_of journal.now) }
        requires kept { AreKept self.old.folds self.old.list.items }
        ensures list { self.new.list.items ≡ list_of (take self.new.edit journal.now) }
        ensures within { self.new.edit ≤ edit }
        ensures reached { OnOk result (self.new.edit ≡ edit) }
        ensures kept { AreKept self.new.folds self.new.list.items }
    {
        for i in self.edit..edit {
            self.make(journal[i as usize])?;
            self.edit = i + 1;
        }
        Ok(())
    }

    /// The value of a kind over the elements from index `lo` up to `hi`. If there is no memory, nothing changes.
    pub(crate) fn value(&mut self, kind: Kind, lo: usize, hi: usize) -> Result<Shown, AllocError>
        requires few { length self.old.list.items ≤ 2 ^ 20 }
        requires order { lo ≤ hi }
        requires inside { hi ≤ length self.old.list.items }
        requires kept { AreKept self.old.folds self.old.list.items }
        ensures value { IfOk result (λ shown. shown ≡ plain_value kind (slice_range self.old.list.items lo hi)) }
        ensures edit { self.new.edit ≡ self.old.edit }
        ensures list { self.new.list.items ≡ self.old.list.items }
        ensures kept { AreKept self.new.folds self.new.list.items }
    {
        self.folds.value(kind, self.list.as_slice(), lo, hi)
    }

    // Makes an edit that is possible.
    fn make(&mut self, edit: Edit) -> Result<(), AllocError>
        requires possible { IsSome (applied self.old.list.items edit) }
        requires kept { AreKept self.old.folds self.old.list.items }
        ensures ok { OnOk result (applied self.old.list.items edit ≡ Some self.new.list.items) }
        ensures err { OnErr result (self.new.list.items ≡ self.old.list.items) }
        ensures edit { self.new.edit ≡ self.old.edit }
        ensures kept { AreKept self.new.folds self.new.list.items }
    {
        match edit {
            Edit::Push(x) => self.list.push(x)?,
            Edit::Pop => {
                let count = self.list.len().saturating_sub(1);
                self.keep(count);
            }
            Edit::Write { index, value } => self.write(index as usize, value),
            Edit::Reserve(_) => {}
            Edit::Swap { first, second } => self.swap(first as usize, second as usize),
            Edit::Truncate(kept) => self.keep(kept as usize),
        }
        Ok(())
    }

    // Keeps the first so many elements.
    fn keep(&mut self, count: usize)
        requires { AreKept self.old.folds self.old.list.items }
        ensures list { self.new.list.items ≡ take count self.old.list.items }
        ensures edit { self.new.edit ≡ self.old.edit }
        ensures kept { AreKept self.new.folds self.new.list.items }
    {
        self.list.truncate(count);
        self.folds.cut(count);
    }

    // Overwrites an element.
    fn write(&mut self, index: usize, value: i64)
        requires inside { index < length self.old.list.items }
        requires kept { AreKept self.old.folds self.old.list.items }
        ensures list { self.new.list.items ≡ slice_set self.old.list.items index value }
        ensures edit { self.new.edit ≡ self.old.edit }
        ensures kept { AreKept self.new.folds self.new.list.items }
    {
        self.list[index] = value;
        self.folds.forget(index);
    }

    // Exchanges two elements.
    fn swap(&mut self, first: usize, second: usize)
        requires first { first < length self.old.list.items }
        requires second { second < length self.old.list.items }
        requires kept { AreKept self.old.folds self.old.list.items }
        ensures list { self.new.list.items ≡ swap self.old.list.items first second }
        ensures edit { self.new.edit ≡ self.old.edit }
        ensures kept { AreKept self.new.folds self.new.list.items }
    {
        self.list.swap(first, second);
        self.folds.forget(first);
        self.folds.forget(second);
    }
}
