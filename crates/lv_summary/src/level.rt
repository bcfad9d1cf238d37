//! The rows of one level: which edit touched a node, and what is kept for it.
ghost use Rattle.std.specs.Prelude.{◌≡◌, ℕ, ◌+◌, ◌-◌, ◌%◌, ◌<◌, ◌≤◌, ◌++◌, ◌==◌, length, replicate, true, false, slice_index, slice_get, Some, OnOk, IfErr, IfSome, IfNone, vec_len, vec_capacity};
ghost use Rattle.std.specs.List.{list_all, range_with_len};
ghost use Rattle.lv_summary.specs.Inner.{AreEight, HasItems, HasPart, KeepsRows, filled, with_kept, with_touch};
ghost use Rattle.lv_summary.specs.Table.{no_rows};

use crate::late_rows::LateRows;
use lv_geometry::Refusal;
use std::alloc::Global;
use std::marker::Model;

/// The rows of one level, in separate lists for speed: a reduction looks at two numbers before it reads a summary.
#[derive(Drop)]
pub struct Level<S> {
    touched: Vec<u32>,
    stamps: Vec<u32>,
    kept: LateRows<S>,
}

impl<S> Model for Level<S> {
    ghost use Rattle.std.specs.Prelude.{min, vec_capacity};
    ghost use Rattle.lv_summary.specs.Inner.{LevelState};

    ghost Value = { LevelState S };

    ghost view = { λ a. record { rows = record { touched = a.touched.items; stamps = a.stamps.items; kept = a.kept.items }; capacity = min (min (vec_capacity a.touched) (vec_capacity a.stamps)) a.kept.capacity; blank = a.kept.blank } };
}

impl<S: Copy> Level<S> {
    /// A level with no rows, whose blank rows have `blank` for a summary. Takes no memory.
    pub fn new(alloc: Global, blank: S) -> Level<S>
        ensures rows { result.rows ≡ no_rows }
        ensures blank { result.blank ≡ blank }
    {
        Level {
            touched: Vec::new(alloc),
            stamps: Vec::new(alloc),
            kept: LateRows::new(alloc, blank),
        }
    }

    /// How many rows there are.
    pub fn rows(&self) -> usize
        ensures { result ≡ length self.now.rows.touched }
    {
        self.touched.len()
    }

    /// Makes memory for so many rows in all.
    pub fn reserve(&mut self, rows: u32) -> Result<(), Refusal>
        ensures rows { self.new.rows ≡ self.old.rows }
        ensures blank { self.new.blank ≡ self.old.blank }
        ensures ok { OnOk result (rows ≤ self.new.capacity) }
        ensures err { IfErr result (λ refusal. refusal ≡ Refusal.NoMemory) }
    {
        let rows = rows as usize;
        if make_room(&mut self.touched, rows)
            && make_room(&mut self.stamps, rows)
            && self.kept.reserve(rows)
        {
            Ok(())
        } else {
            Err(Refusal::NoMemory)
        }
    }

    /// Adds blank rows, so that there are so many in all, if there are fewer.
    pub fn fill(&mut self, rows: u32)
        requires { rows ≤ self.old.capacity }
        ensures { self.new.rows ≡ filled self.old.rows rows self.old.blank }
    {
        lengthen(&mut self.touched, rows as usize, 0);
        lengthen(&mut self.stamps, rows as usize, 0);
        self.kept.fill(rows as usize);
    }

    /// Notes the edit that touched a node last.
    #[inline(always)]
    pub fn touch(&mut self, number: u32, edit: u32)
        requires { number < length self.old.rows.touched }
        ensures { self.new.rows ≡ with_touch self.old.rows number edit }
    {
        self.touched[number as usize] = edit;
    }

    /// The number of the last edit that touched a node; 0 if it has no row.
    #[inline(always)]
    pub fn touched(&self, number: u32) -> u32
        ensures { result ≡ slice_index self.now.rows.touched number }
    {
        self.touched.get(number as usize).copied().unwrap_or(0)
    }

    /// One more than the version of the summary that was delivered for a node; 0 if none was.
    #[inline(always)]
    pub fn stamp(&self, number: u32) -> u32
        ensures { result ≡ slice_index self.now.rows.stamps number }
    {
        self.stamps.get(number as usize).copied().unwrap_or(0)
    }

    /// Whether what was delivered for a node has the number of the edit that touched it last.
    #[inline(always)]
    pub fn is_current(&self, number: u32) -> bool
        requires touched { number < length self.now.rows.touched }
        requires stamps { number < length self.now.rows.stamps }
        requires edit { slice_index self.now.rows.touched number ≤ 16777215 }
        ensures { result ≡ (slice_index self.now.rows.stamps number == slice_index self.now.rows.touched number + 1) }
    {
        let number = number as usize;
        self.stamps[number] == self.touched[number] + 1
    }

    /// The summary in the row of a node.
    #[inline(always)]
    pub fn kept(&self, number: u32) -> S
        requires { number < length self.now.rows.kept }
        ensures { slice_get self.now.rows.kept number ≡ Some result }
    {
        self.kept.at(number as usize)
    }

    /// The summaries in the rows of eight neighbours, from one on, as a slice; none if one of them was never written.
    #[inline(always)]
    pub fn eight(&self, first: u32) -> Option<&[S]>
        requires { first + 8 ≤ length self.now.rows.kept }
        ensures { IfSome result (λ eight. AreEight eight.now self.now.rows.kept first) }
    {
        self.kept.eight(first as usize)
    }

    /// Puts a summary of a version in the row of a node.
    #[inline(always)]
    pub fn keep(&mut self, number: u32, version: u32, s: S)
        requires stamps { number < length self.old.rows.stamps }
        requires kept { number < length self.old.rows.kept }
        requires version { version ≤ 16777215 }
        ensures { self.new.rows ≡ with_kept self.old.rows number version s }
    {
        self.stamps[number as usize] = version + 1;
        self.kept.set(number as usize, s);
    }

    /// Puts summaries of their nodes' touched numbers in the rows of nodes side by side, from one on.
    pub fn keep_run(&mut self, first: u32, summaries: &[S])
        requires touched { first + length summaries.now ≤ length self.old.rows.touched }
        requires stamps { first + length summaries.now ≤ length self.old.rows.stamps }
        requires kept { first + length summaries.now ≤ length self.old.rows.kept }
        requires edits { (k : ℕ) → k < length summaries.now → slice_index self.old.rows.touched (first + k) ≤ 16777215 }
        ensures { KeepsRows self.old.rows self.new.rows first summaries.now }
    {
        let first = first as usize;
        stamp_run(&mut self.stamps, &self.touched, first, summaries.len());
        put_run(&mut self.kept, first, summaries);
    }

    /// Puts summaries of their nodes' touched numbers in a whole piece of rows. Their memory takes the place of the rows' own.
    pub fn adopt(&mut self, first: u32, summaries: &mut Vec<S>)
        requires whole { length summaries.old.items ≡ 512 }
        requires aligned { first % 512 ≡ 0 }
        requires touched { first + 512 ≤ length self.old.rows.touched }
        requires stamps { first + 512 ≤ length self.old.rows.stamps }
        requires kept { first + 512 ≤ length self.old.rows.kept }
        requires edits { (k : ℕ) → k < 512 → slice_index self.old.rows.touched (first + k) ≤ 16777215 }
        ensures { KeepsRows self.old.rows self.new.rows first summaries.old.items }
    {
        let first = first as usize;
        stamp_run(&mut self.stamps, &self.touched, first, summaries.len());
        self.kept.adopt(first, summaries);
    }

    /// The number of the last edit that touched a node; none if the summary that was delivered for the node is of that number.
    #[inline(always)]
    pub fn due(&self, number: u32) -> Option<u32>
        requires touched { number < length self.now.rows.touched }
        requires stamps { number < length self.now.rows.stamps }
        requires edit { slice_index self.now.rows.touched number ≤ 16777215 }
        ensures some { IfSome result (λ edit. (edit ≡ slice_index self.now.rows.touched number)
            × ((slice_index self.now.rows.stamps number == slice_index self.now.rows.touched number + 1) ≡ false)) }
        ensures none { IfNone result ((slice_index self.now.rows.stamps number == slice_index self.now.rows.touched number + 1) ≡ true) }
    {
        let number = number as usize;
        let edit = self.touched[number];
        if self.stamps[number] == edit + 1 {
            None
        } else {
            Some(edit)
        }
    }

    /// Whether what was delivered for each of eight neighbours, from one on, has the number of the edit that touched it last. All
    /// are looked at, since a processor compares several at once.
    #[inline(always)]
    pub fn are_current(&self, first: u32) -> bool
        requires touched { first + 8 ≤ length self.now.rows.touched }
        requires stamps { first + 8 ≤ length self.now.rows.stamps }
        requires edits { (k : ℕ) → k < 8 → slice_index self.now.rows.touched (first + k) ≤ 16777215 }
        ensures { result ≡ list_all (λ k. slice_index self.now.rows.stamps (first + k) == slice_index self.now.rows.touched (first + k) + 1) (range_with_len 0 8) }
    {
        let first = first as usize;
        let mut current = true;
        for k in 0..8 {
            current &= self.stamps[first + k] == self.touched[first + k] + 1;
        }
        current
    }
}

// Makes memory for so many items in all, and says whether there is. The list stays as it is.
fn make_room<T>(list: &mut Vec<T>, items: usize) -> bool
    ensures items { list.new.items ≡ list.old.items }
    ensures room { result ≡ true → items ≤ vec_capacity list.new }
{
    let more = items.saturating_sub(list.len());
    list.reserve(more).is_ok()
}

// Adds copies of an item, so that there are so many in all, if there are fewer.
fn lengthen<T: Copy>(list: &mut Vec<T>, items: usize, item: T)
    requires { items ≤ vec_capacity list.old }
    ensures { list.new.items ≡ list.old.items ++ replicate (items - vec_len list.old) item }
{
    let items = items.max(list.len());
    let Ok(()) = list.resize(items, item) else {
        unreachable!()
    };
}

// Notes that summaries of the touched numbers were delivered for so many nodes, from one on.
fn stamp_run(stamps: &mut Vec<u32>, touched: &[u32], first: usize, count: usize)
    requires touched { first + count ≤ length touched.now }
    requires stamps { first + count ≤ length stamps.old.items }
    requires edits { (k : ℕ) → k < count → slice_index touched.now (first + k) ≤ 16777215 }
    ensures { HasItems stamps.old.items stamps.new.items first count (λ k. Some (slice_index touched.now (first + k) + 1)) }
{
    for k in 0..count {
        stamps[first + k] = touched[first + k] + 1;
    }
}

// Puts summaries in rows side by side, from one on.
fn put_run<S: Copy>(kept: &mut LateRows<S>, first: usize, summaries: &[S])
    requires inside { first + length summaries.now ≤ length kept.old.items }
    requires fits { first + length summaries.now < 18446744073709551616 }
    ensures items { HasPart kept.old.items kept.new.items first summaries.now }
    ensures blank { kept.new.blank ≡ kept.old.blank }
{
    for k in 0..summaries.len() {
        kept.set(first + k, summaries[k]);
    }
}
