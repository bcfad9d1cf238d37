//! The table of summaries: what is kept for each node.
ghost use Rattle.std.specs.Prelude.{◌≡◌, ℕ, length, slice_get, ◌+◌, ◌/◌, ◌%◌, ◌*◌, ◌^◌, ◌<◌, ◌≤◌, ◌&&◌, not, true, false, option_map, Some, None, OnOk, OnErr, IfErr, IfSome, IfNone};
ghost use Rattle.std.specs.List.{list_all, range_with_len};
ghost use Rattle.lv_geometry.specs.Nodes.{child};
ghost use Rattle.lv_summary.specs.declared.accepted.Accepted.TheVariants.{Installed};
ghost use Rattle.lv_summary.specs.Inner.{AreFilled, HaveRoom, HaveSameRows};
ghost use Rattle.lv_summary.specs.Changes.{AfterDelivery, AnswersAlike, HasSize, Keeps, KeepsRun, Touches};
ghost use Rattle.lv_summary.specs.Table.{blocks_in, delivery_in, entry_in, fresh_in, kept_in, touched_in, whole_in};

use crate::accepted::Accepted;
use crate::delivery::{deliver, delivery, is_fresh, last_touch, level_of, whole_level};
use crate::level::Level;
use lv_geometry::{Levels, Node, Refusal, rows_of};
use std::alloc::Global;
use std::marker::Model;

/// What is kept for each node.
#[derive(Drop)]
pub struct Summaries<S> {
    levels: Levels<Level<S>>,
    size: u32,
}

impl<S> Model for Summaries<S> {
    ghost use Rattle.lv_summary.specs.Table.{Table};
    ghost use Rattle.lv_summary.specs.Inner.{IsSound, table_of};

    ghost Value = { Table S };

    ghost view = { λ a. table_of a.size a.levels };

    ghost invariant = { λ a. IsSound (table_of a.size a.levels) };
}

impl<S: Copy> Summaries<S> {
    /// A table with no rows, for a vector with no element. `blank` fills rows for which nothing is kept yet; it is
    /// never given out. Takes no memory.
    pub fn new(alloc: Global, blank: S) -> Summaries<S>
        ensures size { result.size ≡ 0 }
        ensures blocks { blocks_in result ≡ 0 }
        ensures untouched { (n : Node) → touched_in result n ≡ 0 }
        ensures nothing_kept { (n : Node) → kept_in result n ≡ None }
    {
        Summaries {
            levels: Levels {
                level_1: Level::new(alloc, blank),
                level_2: Level::new(alloc, blank),
                level_3: Level::new(alloc, blank),
                level_4: Level::new(alloc, blank),
                level_5: Level::new(alloc, blank),
                level_6: Level::new(alloc, blank),
            },
            size: 0,
        }
    }

    /// Makes rows for so many blocks, and for the nodes above them. Refused with `NoMemory`.
    pub fn grow(&mut self, blocks: u32) -> Result<(), Refusal>
        requires { blocks ≤ 131071 }
        ensures alike { AnswersAlike self.old self.new }
        ensures more { blocks_in self.old ≤ blocks_in self.new }
        ensures ok { OnOk result (blocks ≤ blocks_in self.new) }
        ensures err { IfErr result (λ refusal. refusal ≡ Refusal.NoMemory) }
        ensures unchanged { OnErr result (self.new ≡ self.old) }
    {
        let rows = rows_of(blocks);
        reserve_levels(&mut self.levels, &rows)?;
        fill_levels(&mut self.levels, &rows);
        Ok(())
    }

    /// Notes how many elements the vector has, which decides the nodes that are whole.
    pub fn set_size(&mut self, size: u32)
        requires { size ≤ 8 * blocks_in self.old }
        ensures { HasSize self.old self.new size }
    {
        self.size = size;
    }

    /// Notes that an edit touched index `i`, and so every node that has it.
    #[inline(always)]
    pub fn touch(&mut self, i: u32, edit: u32)
        requires inside { i / 8 < blocks_in self.old }
        requires edit { edit ≤ 16777215 }
        ensures { Touches self.old self.new i edit }
    {
        self.levels.level_1.touch(i / 8, edit);
        self.levels.level_2.touch(i / 64, edit);
        self.levels.level_3.touch(i / 512, edit);
        self.levels.level_4.touch(i / 4096, edit);
        self.levels.level_5.touch(i / 32768, edit);
        self.levels.level_6.touch(i / 262144, edit);
    }

    /// How many elements the vector has.
    #[inline(always)]
    pub fn size(&self) -> u32
        ensures value { result ≡ self.now.size }
        ensures room { result ≤ 8 * blocks_in self.now }
    {
        self.size
    }

    /// How many blocks have rows.
    pub fn blocks(&self) -> u32
        ensures value { result ≡ blocks_in self.now }
        ensures bound { result ≤ 131071 }
    {
        self.levels.level_1.rows() as u32
    }

    /// The number of the last edit that touched a node; 0 if none did, and outside the table.
    #[inline(always)]
    pub fn touched(&self, node: Node) -> u32
        ensures value { result ≡ touched_in self.now node }
        ensures bound { result ≤ 16777215 }
    {
        last_touch(&self.levels, self.size, node)
    }

    /// Whether every index of a node is below the size.
    #[inline(always)]
    pub fn whole(&self, node: Node) -> bool
        ensures { result ≡ whole_in self.now node }
    {
        node.is_whole(self.size)
    }

    /// Whether a node is whole, and what is kept for it has the number of the last edit that touched it.
    #[inline(always)]
    pub fn fresh(&self, node: Node) -> bool
        ensures { result ≡ fresh_in self.now node }
    {
        is_fresh(&self.levels, self.size, node)
    }

    /// The summary of a node, if it is fresh.
    #[inline(always)]
    pub fn entry(&self, node: Node) -> Option<S>
        ensures { result ≡ entry_in self.now node }
    {
        let level = whole_level(&self.levels, self.size, node)?;
        if level.is_current(node.number) {
            Some(level.kept(node.number))
        } else {
            None
        }
    }

    /// The number of the edit that touched a node last, if the node is whole and not fresh; else none.
    #[inline(always)]
    pub fn due(&self, node: Node) -> Option<u32>
        ensures some { IfSome result (λ edit. (whole_in self.now node ≡ true) × (fresh_in self.now node ≡ false) × (edit ≡ touched_in self.now node)) }
        ensures none { IfNone result ((whole_in self.now node && not (fresh_in self.now node)) ≡ false) }
        ensures bound { IfSome result (λ edit. edit ≤ 16777215) }
    {
        match whole_level(&self.levels, self.size, node) {
            Some(level) => level.due(node.number),
            None => None,
        }
    }

    /// Whether the eight children of a whole node are fresh.
    #[inline(always)]
    pub fn children_fresh(&self, node: Node) -> bool
        requires whole { whole_in self.now node ≡ true }
        requires above { 1 < node.level }
        ensures { result ≡ list_all (λ k. fresh_in self.now (child node k)) (range_with_len 0 8) }
    {
        self.levels.at(node.level - 1).are_current(8 * node.number)
    }

    /// The summary of a fresh node.
    #[inline(always)]
    pub fn summary(&self, node: Node) -> S
        requires { fresh_in self.now node ≡ true }
        ensures { entry_in self.now node ≡ Some result }
    {
        self.levels.at(node.level).kept(node.number)
    }

    /// The summaries of the eight children of a whole node, in order, as a slice; none if one of them was never written. Each is that of its
    /// child if the child is fresh.
    #[inline(always)]
    pub fn children(&self, node: Node) -> Option<&[S]>
        requires whole { whole_in self.now node ≡ true }
        requires above { 1 < node.level }
        ensures eight { IfSome result (λ summaries. length summaries.now ≡ 8) }
        ensures entries { IfSome result (λ summaries. (k : ℕ) → k < 8 → fresh_in self.now (child node k) ≡ true → slice_get summaries.now k ≡ entry_in self.now (child node k)) }
    {
        match self.levels.at(node.level - 1).eight(8 * node.number) {
            Some(summaries) => Some(summaries),
            None => None,
        }
    }

    /// The version of the summary that was delivered for a node, fresh or not; none if none was.
    pub fn kept_version(&self, node: Node) -> Option<u32>
        ensures { result ≡ option_map (λ kept. kept.0) (kept_in self.now node) }
    {
        let stamp = level_of(&self.levels, self.size, node)?.stamp(node.number);
        if stamp == 0 { None } else { Some(stamp - 1) }
    }

    /// What would become of a summary of a version that is delivered to a node. It is installed if the node is whole, was touched last by the
    /// edit of that number, and has no summary of that version yet.
    pub fn delivery(&self, node: Node, version: u32) -> Accepted
        ensures { result ≡ delivery_in self.now node version }
    {
        delivery(&self.levels, self.size, node, version)
    }

    /// Delivers a summary of a version to a node, and returns what became of it.
    pub fn install(&mut self, node: Node, version: u32, s: S) -> Accepted
        ensures answer { result ≡ delivery_in self.old node version }
        ensures after { AfterDelivery self.old self.new node version s result }
    {
        deliver(&mut self.levels, self.size, node, version, s)
    }

    /// Installs a summary that is known to be due, as `install` would.
    #[inline(always)]
    pub fn install_due(&mut self, node: Node, version: u32, s: S)
        requires { delivery_in self.old node version ≡ Installed }
        ensures { Keeps self.old self.new node version s }
    {
        self.levels.at_mut(node.level).keep(node.number, version, s);
    }

    /// Keeps summaries of their nodes' touched numbers for nodes of a level side by side, from one on. Takes no memory.
    pub fn keep_run(&mut self, level: u32, first: u32, summaries: &[S])
        requires low { 1 ≤ level }
        requires high { level ≤ 6 }
        requires inside { (first + length summaries.now) * 8 ^ level ≤ self.old.size }
        ensures { KeepsRun self.old self.new level first summaries.now }
    {
        self.levels.at_mut(level).keep_run(first, summaries);
    }

    /// Keeps summaries of their nodes' touched numbers for 512 blocks, from a multiple of 512 on, by taking the memory of these summaries: none
    /// is copied. The memory of the rows that they replace goes to the caller, with whatever was in it. Takes no memory.
    pub fn adopt_blocks(&mut self, first: u32, summaries: &mut Vec<S>)
        requires whole { length summaries.old.items ≡ 512 }
        requires aligned { first % 512 ≡ 0 }
        requires inside { (first + 512) * 8 ≤ self.old.size }
        ensures { KeepsRun self.old self.new 1 first summaries.old.items }
    {
        self.levels.level_1.adopt(first, summaries);
    }
}

// Makes memory for so many rows on each level. No row changes.
fn reserve_levels<S: Copy>(levels: &mut Levels<Level<S>>, rows: &Levels<u32>) -> Result<(), Refusal>
    ensures rows { HaveSameRows levels.old levels.new }
    ensures ok { OnOk result (HaveRoom levels.new rows.now) }
    ensures err { IfErr result (λ refusal. refusal ≡ Refusal.NoMemory) }
{
    for level in 1..=6 {
        levels.at_mut(level).reserve(*rows.at(level))?;
    }
    Ok(())
}

// Adds blank rows on each level, so that there are so many in all, if there are fewer.
fn fill_levels<S: Copy>(levels: &mut Levels<Level<S>>, rows: &Levels<u32>)
    requires { HaveRoom levels.old rows.now }
    ensures { AreFilled levels.old levels.new rows.now }
{
    for level in 1..=6 {
        levels.at_mut(level).fill(*rows.at(level));
    }
}
