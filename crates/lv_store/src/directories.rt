//! Buckets of cells, which are opened in order and never move in memory.
ghost use Rattle.std.specs.Prelude.{◌≡◌, ◌+◌, ◌-◌, ◌*◌, ◌^◌, ◌<◌, ◌≤◌, [], length, min, replicate, take, drop, OnOk, OnErr, IfOk, IfErr};
ghost use Rattle.std.specs.List.{slice_index_or};
ghost use Rattle.lv_geometry.specs.Cells.{capacity_of};
ghost use Rattle.lv_store.specs.Directory.{first_buckets, with_bucket, with_buckets, with_cell};

use lv_geometry::{Refusal, place};
use std::alloc::Global;
use std::marker::Model;

/// A two-level array: a directory of buckets. The first bucket has 8 cells, and each later one has twice as many as the one
/// before it. Buckets never move once they are open.
#[derive(Drop)]
pub struct Directory<T> {
    buckets: Vec<Vec<T>>,
    alloc: Global,
}

impl<T> Model for Directory<T> {
    ghost use Rattle.std.specs.Prelude.{length, map};
    ghost use Rattle.std.specs.List.{flat_map};
    ghost use Rattle.lv_store.specs.Directory.{Cells};
    ghost use Rattle.lv_store.specs.Inner.{AreBuckets};

    ghost Value = { Cells T };

    ghost view = { λ a. record { buckets = length a.buckets.items; cells = flat_map (λ b. b.items) a.buckets.items } };

    ghost invariant = { λ a. AreBuckets (map (λ b. b.items) a.buckets.items) };
}

impl<T: Copy> Directory<T> {
    /// A directory with no bucket open. Takes no memory.
    pub fn new(alloc: Global) -> Directory<T>
        ensures { result ≡ record { buckets = 0; cells = [] } }
    {
        Directory {
            buckets: Vec::new(alloc),
            alloc,
        }
    }

    /// Opens the next bucket, with a blank in each of its cells. Refused with `NoMemory`.
    pub fn open(&mut self, blank: T) -> Result<(), Refusal>
        requires room { self.old.buckets < 17 }
        ensures ok { OnOk result (self.new ≡ with_bucket self.old blank) }
        ensures err { IfErr result (λ refusal. refusal ≡ Refusal.NoMemory) }
        ensures unchanged { OnErr result (self.new ≡ self.old) }
    {
        let Ok(()) = self.buckets.reserve(1) else {
            return Err(Refusal::NoMemory);
        };
        let bucket = blank_bucket(self.alloc, self.buckets.len() as u32, blank)?;
        self.buckets.push_reserved(bucket);
        Ok(())
    }

    /// Opens buckets until so many are open, with a blank in each of their cells. Refused with `NoMemory`, after which none of
    /// them is open.
    pub fn open_to(&mut self, buckets: u32, blank: T) -> Result<(), Refusal>
        requires few { buckets ≤ 17 }
        ensures ok { OnOk result (self.new ≡ with_buckets self.old buckets blank) }
        ensures err { IfErr result (λ refusal. refusal ≡ Refusal.NoMemory) }
        ensures unchanged { OnErr result (self.new ≡ self.old) }
    {
        let before = self.buckets();
        for _ in before..buckets {
            if let Err(refusal) = self.open(blank) {
                self.close_to(before);
                return Err(refusal);
            }
        }
        Ok(())
    }

    /// Gives back all buckets but the first so many.
    pub fn close_to(&mut self, buckets: u32)
        requires open { buckets ≤ self.old.buckets }
        ensures { self.new ≡ first_buckets self.old buckets }
    {
        self.buckets.truncate(buckets as usize);
    }

    /// How many buckets are open.
    #[inline(always)]
    pub fn buckets(&self) -> u32
        ensures value { result ≡ self.now.buckets }
        ensures few { result ≤ 17 }
        ensures cells { length self.now.cells ≡ capacity_of self.now.buckets }
    {
        self.buckets.len() as u32
    }

    /// What is in the cell of an index.
    #[inline(always)]
    pub fn get(&self, i: u32) -> T
        requires inside { i < length self.now.cells }
        ensures { result ≡ slice_index_or self.now.cells i result }
    {
        let buckets = &self.buckets;
        let place = place(i);
        buckets[place.bucket as usize][place.cell as usize]
    }

    /// The contents of the eight cells of a block, all open. They are contiguous, since a block never crosses a bucket.
    #[inline(always)]
    pub fn block(&self, block: u32) -> [T; 8]
        requires inside { 8 * block + 8 ≤ length self.now.cells }
        ensures { result ≡ take 8 (drop (8 * block) self.now.cells) }
    {
        let buckets = &self.buckets;
        let place = place(8 * block);
        eight_from(&buckets[place.bucket as usize], place.cell as usize)
    }

    /// A slice of the cells from an index to the end of its bucket, but at most `most` of them. Nothing is copied.
    pub fn slice_from(&self, i: u32, most: u32) -> &[T]
        requires open { i < length self.now.cells }
        requires inside { i + most ≤ length self.now.cells }
        ensures cells { result.now ≡ take (length result.now) (drop i self.now.cells) }
        ensures few { length result.now ≤ most }
        ensures some { 0 < most → 0 < length result.now }
    {
        let buckets = &self.buckets;
        let place = place(i);
        neighbours(
            &buckets[place.bucket as usize],
            place.cell as usize,
            most as usize,
        )
    }

    /// Puts a value into the cell of an index.
    #[inline(always)]
    pub fn set(&mut self, i: u32, x: T)
        requires inside { i < length self.old.cells }
        ensures { self.new ≡ with_cell self.old i x }
    {
        let buckets = &mut self.buckets;
        let place = place(i);
        let bucket = &mut buckets[place.bucket as usize];
        bucket[place.cell as usize] = x;
    }
}

// A bucket of a number, with a blank in each of its cells.
fn blank_bucket<T: Copy>(alloc: Global, number: u32, blank: T) -> Result<Vec<T>, Refusal>
    requires { number ≤ 16 }
    ensures ok { IfOk result (λ bucket. bucket.items ≡ replicate (8 * 2 ^ number) blank) }
    ensures err { IfErr result (λ refusal. refusal ≡ Refusal.NoMemory) }
{
    let mut bucket = Vec::new(alloc);
    match bucket.resize(8 << number, blank) {
        Ok(()) => Ok(bucket),
        Err(_) => Err(Refusal::NoMemory),
    }
}

// Eight neighbours.
#[inline(always)]
fn eight_from<T: Copy>(cells: &[T], from: usize) -> [T; 8]
    requires { from + 8 ≤ length cells.now }
    ensures { result ≡ take 8 (drop from cells.now) }
{
    let mut eight = [cells[from]; 8];
    eight.copy_from_slice(&cells[from..from + 8]);
    eight
}

// The cells of a bucket from one on, at most so many.
fn neighbours<T: Copy>(cells: &[T], from: usize, most: usize) -> &[T]
    requires { from < length cells.now }
    ensures { result.now ≡ take (min most (length cells.now - from)) (drop from cells.now) }
{
    let count = most.min(cells.len() - from);
    &cells[from..from + count]
}
