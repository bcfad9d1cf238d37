//! The store: its cells, a version for each block, and the descriptor of the last edit.
ghost use Rattle.std.specs.Prelude.{All, ◌≡◌, ◌≢◌, ◌+◌, ◌*◌, ◌/◌, ◌<◌, ◌≤◌, None, Some, [], ◌∷◌, ◌++◌, length, map, replicate, true, is_some, OnOk, OnErr, IfErr, IfSome, IsSomeAnd, vec_capacity, vec_len};
ghost use Rattle.std.specs.List.{range_with_len};
ghost use Rattle.lv_geometry.specs.Cells.{capacity_of};
ghost use Rattle.lv_geometry.specs.Elements.{IsElement};
ghost use Rattle.lv_store.specs.Announced.{Announcements, Shows, pushes_at};
ghost use Rattle.lv_store.specs.Inner.{IsStore};
ghost use Rattle.lv_store.specs.State.{Opens, announced, are_at, are_in, block_version, empty_store, indices_of, pushed_all, settled, value_in, writes_of, written, written_through};

use crate::descriptors::Descriptor;
use crate::directories::Directory;
use crate::pending::{are_in, end_before_writes, put, put_among, writes_of};
use crate::pushing::put_all;
use lv_geometry::{Limits, Refusal, buckets_for, capacity};
use std::alloc::Global;
use std::marker::Model;

/// The cells of a vector, a version for each block, and the descriptor of its last edit.
#[derive(Drop)]
pub struct Store {
    values: Directory<i64>,
    // One version for each block, in one list that moves when it grows: it has at most 512 KB, and no part of it is ever lent out.
    versions: Vec<u32>,
    descriptor: Descriptor,
    limits: Limits,
}

impl Model for Store {
    ghost use Rattle.lv_store.specs.Inner.{IsStore};
    ghost use Rattle.lv_store.specs.State.{StoreState};

    ghost Value = { StoreState };

    ghost view = { λ a. record { limits = a.limits; descriptor = a.descriptor; buckets = a.values.buckets; values = a.values.cells; versions = a.versions.items } };

    ghost invariant = { λ a. IsStore record { limits = a.limits; descriptor = a.descriptor; buckets = a.values.buckets; values = a.values.cells; versions = a.versions.items } };
}

impl Store {
    /// An empty store, with no bucket open. Takes no memory.
    pub fn new(alloc: Global, limits: Limits) -> Store
        ensures state { result ≡ empty_store limits }
        ensures shows { Shows result [] }
        ensures sound { IsStore result }
    {
        // This call tells the proof that the limits are allowed ones.
        let _allowed = limits.buckets();
        Store {
            values: Directory::new(alloc),
            versions: Vec::new(alloc),
            descriptor: Descriptor {
                edit: 0,
                size: 0,
                pending: None,
            },
            limits,
        }
    }

    /// Opens the buckets that so many cells need, and that are not open yet. Refused with `NoMemory`, after which none of them
    /// is open.
    pub fn open_to(&mut self, cells: u32) -> Result<(), Refusal>
        requires few { cells ≤ capacity_of self.old.limits.buckets }
        ensures ok { OnOk result (Opens self.old self.new cells) }
        ensures enough { OnOk result (cells ≤ capacity_of self.new.buckets) }
        ensures err { IfErr result (λ refusal. refusal ≡ Refusal.NoMemory) }
        ensures unchanged { OnErr result (self.new ≡ self.old) }
        ensures shows { (all : Announcements) → Shows self.old all → Shows self.new all }
        ensures sound { IsStore self.new }
    {
        let open = self.versions.len();
        let buckets = buckets_for(cells);
        let more = ((capacity(buckets) / 8) as usize).saturating_sub(open);
        let Ok(()) = self.versions.reserve(more) else {
            return Err(Refusal::NoMemory);
        };
        self.values.open_to(buckets, 0)?;
        add_blanks(&mut self.versions, more);
        Ok(())
    }

    /// The next edit: it has the next number, leaves so many elements, and announces writes, each of an element at an index: none, a
    /// first, or a first and a second at another index. They are pending until they are settled, both at once.
    #[inline(always)]
    pub fn announce(&mut self, first: Option<(u32, i64)>, second: Option<(u32, i64)>, size: u32)
        requires settled { self.old.descriptor.pending ≡ None }
        requires edit { self.old.descriptor.edit < self.old.limits.edits }
        requires index { IfSome first (λ write. write.0 < capacity_of self.old.buckets) }
        requires second { IfSome second (λ write. (write.0 < capacity_of self.old.buckets) × IsSomeAnd first (λ other. write.0 ≢ other.0)) }
        requires size { size ≤ capacity_of self.old.buckets }
        ensures state { self.new ≡ announced self.old first second size }
        ensures shows { (all : Announcements) → Shows self.old all → Shows self.new (all ++ writes_of first second ∷ []) }
        ensures sound { IsStore self.new }
    {
        self.descriptor = Descriptor {
            edit: self.descriptor.edit + 1,
            size,
            pending: writes_of(first, second),
        };
    }

    /// Makes one edit for each value, in order: it appends the value at the end and is completed at once.
    pub fn push_all(&mut self, values: &[i64])
        requires settled { self.old.descriptor.pending ≡ None }
        requires edits { self.old.descriptor.edit + length values.now ≤ self.old.limits.edits }
        requires room { self.old.descriptor.size + length values.now ≤ capacity_of self.old.buckets }
        ensures state { self.new ≡ pushed_all self.old values.now }
        ensures elements { All IsElement values.now }
        ensures shows { (all : Announcements) → Shows self.old all → Shows self.new (all ++ pushes_at self.old.descriptor.size values.now) }
        ensures sound { IsStore self.new }
    {
        let Descriptor { edit, size, .. } = self.descriptor;
        put_all(&mut self.values, &mut self.versions, edit, size, values);
        self.descriptor = Descriptor {
            edit: edit + values.len() as u32,
            size: size + values.len() as u32,
            pending: None,
        };
    }

    /// Completes the writes that are pending, if any are. Changes no answer.
    #[inline(always)]
    pub fn settle(&mut self)
        ensures state { self.new ≡ settled self.old }
        ensures shows { (all : Announcements) → Shows self.old all → Shows self.new all }
        ensures sound { IsStore self.new }
    {
        let Some(writes) = self.descriptor.pending else {
            return;
        };
        let edit = self.descriptor.edit;
        put(
            &mut self.values,
            &mut self.versions,
            edit,
            Some(writes.first),
        );
        put(&mut self.values, &mut self.versions, edit, writes.second);
        self.descriptor.pending = None;
    }

    /// Makes one more edit, which writes at an index and is completed at once. Returns the element that was there.
    #[inline(always)]
    pub fn write_through(&mut self, i: u32, x: i64) -> i64
        requires settled { self.old.descriptor.pending ≡ None }
        requires edit { self.old.descriptor.edit < self.old.limits.edits }
        requires index { i < capacity_of self.old.buckets }
        ensures before { result ≡ value_in self.old i }
        ensures state { self.new ≡ written_through self.old i x }
        ensures shows { (all : Announcements) → Shows self.old all → Shows self.new (all ++ writes_of (Some (i, x)) None ∷ []) }
        ensures sound { IsStore self.new }
    {
        let before = self.values.get(i);
        let edit = self.descriptor.edit + 1;
        put(&mut self.values, &mut self.versions, edit, Some((i, x)));
        self.descriptor.edit = edit;
        before
    }

    /// Whether a write is pending.
    #[inline(always)]
    pub fn is_pending(&self) -> bool
        ensures { result ≡ is_some self.now.descriptor.pending }
    {
        self.descriptor.pending.is_some()
    }

    /// The element that was written last at an index, whether its write is pending or not, or 0 if none was written.
    #[inline(always)]
    pub fn read(&self, i: u32) -> i64
        requires inside { i < capacity_of self.now.buckets }
        ensures { result ≡ value_in self.now i }
    {
        if let Some(writes) = self.descriptor.pending {
            if let Some((index, element)) = writes.second {
                if index == i {
                    return element;
                }
            }
            let (index, element) = writes.first;
            if index == i {
                return element;
            }
        }
        self.values.get(i)
    }

    /// The elements of a block, all of whose indices are below the size.
    #[inline(always)]
    pub fn cells(&self, block: u32) -> [i64; 8]
        requires whole { 8 * block + 8 ≤ self.now.descriptor.size }
        ensures { result ≡ map (value_in self.now) (indices_of block) }
    {
        let mut cells = self.values.block(block);
        if let Some(writes) = self.descriptor.pending {
            put_among(&mut cells, block, Some(writes.first));
            put_among(&mut cells, block, writes.second);
        }
        cells
    }

    /// A slice of the elements from index `from` to the end of the bucket, to the first index at which a write is pending, or to `to`,
    /// whichever comes first. Nothing is copied. It is empty only if a write is pending at `from` itself.
    pub fn stretch(&self, from: u32, to: u32) -> &[i64]
        requires order { from < to }
        requires inside { to ≤ capacity_of self.now.buckets }
        ensures items { result.now ≡ map (value_in self.now) (range_with_len from (length result.now)) }
        ensures few { from + length result.now ≤ to }
        ensures some { length result.now ≡ 0 → are_at from self.now.descriptor.pending ≡ true }
    {
        let end = end_before_writes(self.descriptor.pending, from, to);
        self.values.slice_from(from, end - from)
    }

    /// The number of the last edit that wrote in a block, whether its write is pending or not, or 0 if none did.
    #[inline(always)]
    pub fn version(&self, block: u32) -> u32
        ensures { result ≡ block_version self.now block }
    {
        if are_in(block, self.descriptor.pending) {
            return self.descriptor.edit;
        }
        self.versions.get(block as usize).copied().unwrap_or(0)
    }

    /// The number of the last edit, 0 before the first.
    #[inline(always)]
    pub fn edit(&self) -> u32
        ensures value { result ≡ self.now.descriptor.edit }
        ensures sound { IsStore self.now }
    {
        self.descriptor.edit
    }

    /// How many elements there are.
    #[inline(always)]
    pub fn size(&self) -> u32
        ensures value { result ≡ self.now.descriptor.size }
        ensures sound { IsStore self.now }
    {
        self.descriptor.size
    }

    /// How many buckets are open.
    #[inline(always)]
    pub fn buckets(&self) -> u32
        ensures value { result ≡ self.now.buckets }
        ensures sound { IsStore self.now }
    {
        self.values.buckets()
    }

    /// The limits that it was made with.
    pub fn limits(&self) -> Limits
        ensures { result ≡ self.now.limits }
    {
        self.limits
    }

    /// What the last edit changed.
    #[inline(always)]
    pub fn descriptor(&self) -> Descriptor
        ensures value { result ≡ self.now.descriptor }
        ensures sound { IsStore self.now }
    {
        self.descriptor
    }
}

// Adds `more` versions, each 0, for blocks without a write. There is room for them.
fn add_blanks(versions: &mut Vec<u32>, more: usize)
    requires { vec_len versions.old + more ≤ vec_capacity versions.old }
    ensures { versions.new.items ≡ versions.old.items ++ replicate more 0 }
{
    let Ok(()) = versions.resize(versions.len() + more, 0) else {
        unreachable!()
    };
}
