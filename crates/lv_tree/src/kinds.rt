//! What a vector keeps of what it was asked, a tree a kind.
ghost use Rattle.std.specs.Prelude.{◌≡◌, ◌⊎◌, ℕ, ℤ, ◌+◌, ◌≤◌, ◌++◌, ◌∷◌, [], Some, None, List, length, IfErr, IfOk, OnErr, OnOk};
ghost use Rattle.lv_bodies.specs.Automata.{table_of};
ghost use Rattle.lv_edits.specs.declared.edit.Edit.{Edit as AnEdit};
ghost use Rattle.lv_edits.specs.declared.edit.Edit.TheVariants.{Write};
ghost use Rattle.lv_edits.specs.History.{History, list_of, with_edit};
ghost use Rattle.lv_edits.specs.Kept.{IsLegalInLimits};
ghost use Rattle.lv_edits.specs.Verdict.{receipt_of, verdict_of};
ghost use Rattle.lv_edits.specs.Ranges.{range_refusal};
ghost use Rattle.lv_bodies.specs.AffineMaps.{affine_operations};
ghost use Rattle.lv_bodies.specs.Extremes.{highest_operations, lowest_operations};
ghost use Rattle.lv_bodies.specs.RunTotals.{runs_operations};
ghost use Rattle.lv_bodies.specs.Sums.{sum_operations};
ghost use Rattle.lv_bodies.specs.Tables.{automaton_operations};
ghost use Rattle.lv_tree.specs.Follows.{HasFollowed, IsLate, KeepsLeaves};
ghost use Rattle.lv_tree.specs.LastSum.{IsWriteOver};
ghost use Rattle.lv_tree.specs.Asked.{IsKindAnswer};
ghost use Rattle.lv_tree.specs.Kinds.{AreKept, AreReady, HaveRoomFor, IsCaughtUp, IsNear, KeepsAlike, LeavesAll, LeavesOrFollows, LeavesOthers};
ghost use Rattle.lv_tree.specs.Searches.{FindsEnd, FindsStart};
ghost use Rattle.lv_tree.specs.Sought.{kind_for};

use crate::kind_summaries::KindSummary;
use crate::last_sum::LastSum;
use crate::late::Late;
use crate::prefixes::Prefixes;
use crate::questions::{ask_by, ask_sum};
use crate::sought::{AtLeast, AtMost, Beginning, Ending, RunOf, Sought};
use crate::trees::FoldTree;
use lv_bodies::{Affine, Automaton, Highest, Kind, Lowest, Runs, Sum};
use lv_edits::{Edit, Edits, Receipt};
use lv_geometry::Refusal;
use std::alloc::Global;
use std::marker::Model;

/// What is kept of a vector's queries, by kind. Whoever keeps it together with a vector reports each edit to it.
#[derive(Drop)]
pub struct Kinds {
    // Each kind has room for so many blocks.
    room: u32,
    // At this edit the kinds follow what they haven't yet, though none is asked.
    due: u32,
    last: LastSum,
    sums: Late<Prefixes>,
    least: Late<FoldTree<Lowest>>,
    greatest: Late<FoldTree<Highest>>,
    best: Late<FoldTree<Runs>>,
    maps: Late<FoldTree<Affine>>,
    states: Late<FoldTree<Automaton>>,
}

impl Model for Kinds {
    ghost use Rattle.lv_bodies.specs.Automata.{table_of};
    ghost use Rattle.lv_tree.specs.Inner.{IsRoomy};
    ghost use Rattle.lv_tree.specs.Kinds.{KindsState};

    ghost Value = { KindsState };

    ghost view = { λ a. record { table = table_of a.states.body; room = a.room; last = a.last; sums = a.sums; least = a.least; greatest = a.greatest; best = a.best; maps = a.maps; states = a.states } };

    ghost invariant = { λ a. IsRoomy record { table = table_of a.states.body; room = a.room; last = a.last; sums = a.sums; least = a.least; greatest = a.greatest; best = a.best; maps = a.maps; states = a.states } };
}

/// The number of the last edit, and the summary of a range by a kind.
#[derive(Clone, Copy)]
pub struct KindAnswer {
    pub edit: u32,
    pub summary: KindSummary,
}

impl Kinds {
    /// Nothing is kept, for a vector without elements. Takes no memory.
    pub fn new(alloc: Global, automaton: Automaton) -> Kinds
        ensures kept { AreKept (table_of automaton) [] result }
        ensures table { result.table ≡ table_of automaton }
    {
        Kinds {
            room: 0,
            due: 0,
            last: LastSum::none(),
            sums: Late::new(alloc, Sum),
            least: Late::new(alloc, Lowest),
            greatest: Late::new(alloc, Highest),
            best: Late::new(alloc, Runs),
            maps: Late::new(alloc, Affine),
            states: Late::new(alloc, automaton),
        }
    }

    /// Makes memory for all that can be asked of so many elements. Refused with `NoMemory`. What is kept stays.
    #[inline(always)]
    pub fn make_room(&mut self, size: u32) -> Result<(), Refusal>
        requires { size ≤ 1048568 }
        ensures alike { KeepsAlike self.old self.new }
        ensures ok { OnOk result (HaveRoomFor self.new size) }
        ensures err { IfErr result (λ refusal. refusal ≡ Refusal.NoMemory) }
    {
        if size < 8 * self.room + 8 {
            return Ok(());
        }
        self.grow(size)
    }

    // Makes memory for all that can be asked of so many elements, if there isn't room yet. It grows by doubling, so that memory that nobody wrote
    // to isn't copied often.
    #[inline(never)]
    fn grow(&mut self, size: u32) -> Result<(), Refusal>
        requires { size ≤ 1048568 }
        ensures alike { KeepsAlike self.old self.new }
        ensures ok { OnOk result (HaveRoomFor self.new size) }
        ensures err { IfErr result (λ refusal. refusal ≡ Refusal.NoMemory) }
    {
        let blocks = (size.div_ceil(512) * 64).max(2 * self.room).min(131_071);
        match reserve_each(
            &mut self.sums,
            &mut self.least,
            &mut self.greatest,
            &mut self.best,
            &mut self.maps,
            &mut self.states,
            blocks,
        ) {
            Ok(()) => {
                self.room = blocks;
                Ok(())
            }
            Err(refusal) => Err(refusal),
        }
    }

    /// Takes note of an edit that was accepted and returned this receipt.
    #[inline(always)]
    pub fn follow_made(&mut self, edit: &Edit, receipt: &Receipt)
        ghost before: { History }
        requires legal { IsLegalInLimits before }
        requires accepted { verdict_of before.limits before.journal edit.now ≡ None }
        requires answered { receipt.now ≡ receipt_of before.journal edit.now }
        ensures kept { (table : List (List ℕ)) → AreKept table before.journal self.old → AreKept table (before.journal ++ edit.now ∷ []) self.new }
        ensures leaves { LeavesAll self.old self.new }
    {
        match (edit, receipt) {
            (Edit::Write { index, value }, Receipt::Written { before, .. }) => {
                self.last.follow_write(*index, *before, *value);
            }
            _ => self.last.follow(edit),
        }
    }

    /// Takes note of a write that was accepted.
    #[inline(always)]
    pub fn follow_write(&mut self, index: u32, before: i64, x: i64)
        ensures kept { (table : List (List ℕ)) (h : History) → IsWriteOver h index before → AreKept table h.journal self.old → AreKept table (with_edit h (Write index x)).journal self.new }
        ensures leaves { LeavesAll self.old self.new }
    {
        self.last.follow_write(index, before, x);
    }

    /// Takes note that there may have been edits since, whichever they were.
    #[inline(always)]
    pub fn forget_sum(&mut self)
        ensures kept { (table : List (List ℕ)) (edits more : List AnEdit) → AreKept table edits self.old → AreKept table (edits ++ more) self.new }
        ensures leaves { LeavesAll self.old self.new }
    {
        self.last = LastSum::none();
    }

    /// Lets the kinds follow the edits that have waited, if these have become many: 64, and one for each 512 elements. So no query has to follow
    /// more than those. Only sums continue to wait: the sum returned last doesn't need them, and a sum costs little to follow. Whoever keeps this
    /// together with a vector calls it after edits. Takes no memory.
    #[inline(always)]
    pub fn follow_waiting(&mut self, cells: &Edits)
        requires kept { AreKept self.old.table cells.now.journal self.old }
        ensures kept { AreKept self.old.table cells.now.journal self.new }
        ensures leaves { LeavesOrFollows cells.now.journal self.old self.new }
    {
        if cells.edit() < self.due {
            return;
        }
        self.follow_all(cells);
    }

    // Each kind but sums follows all edits.
    #[inline(never)]
    fn follow_all(&mut self, cells: &Edits)
        requires kept { AreKept self.old.table cells.now.journal self.old }
        ensures kept { AreKept self.old.table cells.now.journal self.new }
        ensures leaves { LeavesOrFollows cells.now.journal self.old self.new }
    {
        self.due = due_after(cells);
        catch_up_each(
            &mut self.least,
            &mut self.greatest,
            &mut self.best,
            &mut self.maps,
            &mut self.states,
            cells,
        );
    }

    /// The summary by a kind of the elements from index `lo` up to `hi`, with the number of the last edit. The kind follows all edits first,
    /// unless the range is short or it is the one whose sum was returned last. Refused with `BadRange`, then `OutOfRange`: nothing has changed
    /// then. Takes no memory.
    #[inline(always)]
    pub fn ask(
        &mut self,
        cells: &Edits,
        kind: Kind,
        lo: u32,
        hi: u32,
    ) -> Result<KindAnswer, Refusal>
        requires kept { AreKept self.old.table cells.now.journal self.old }
        requires room { HaveRoomFor self.old (length (list_of cells.now.journal)) }
        ensures ok { IfOk result (λ answer. IsKindAnswer self.old.table cells.now.journal kind lo hi answer) }
        ensures err { IfErr result (λ refusal. range_refusal cells.now.journal lo hi ≡ Some refusal) }
        ensures unchanged { OnErr result (self.new ≡ self.old) }
        ensures kept { AreKept self.old.table cells.now.journal self.new }
        ensures others { LeavesOthers kind self.old self.new }
        ensures caught_up { IfOk result (λ _. IsNear kind lo hi self.old ⊎ IsCaughtUp cells.now.journal kind hi self.new) }
    {
        match kind {
            Kind::Sum => ask_sum(&mut self.sums, &mut self.last, cells, lo, hi),
            Kind::Least => ask_by(&mut self.least, cells, lo, hi),
            Kind::Greatest => ask_by(&mut self.greatest, cells, lo, hi),
            Kind::Best => ask_by(&mut self.best, cells, lo, hi),
            Kind::Affine => ask_by(&mut self.maps, cells, lo, hi),
            Kind::Automaton => ask_by(&mut self.states, cells, lo, hi),
        }
    }

    /// The end at which the range from index `lo` on comes to have what is sought, at most `hi`, or none. The kind by which it is looked
    /// for follows all edits first, unless the range is short. Takes no memory.
    pub(crate) fn find_end(
        &mut self,
        cells: &Edits,
        sought: Sought,
        lo: u32,
        hi: u32,
    ) -> Option<u32>
        requires ready { AreReady self.old.table cells.now.journal self.old }
        requires limits { IsLegalInLimits cells.now }
        requires order { lo ≤ hi }
        requires inside { hi ≤ length (list_of cells.now.journal) }
        ensures finds { FindsEnd sought (list_of cells.now.journal) lo hi result }
        ensures ready { AreReady self.old.table cells.now.journal self.new }
        ensures others { LeavesOthers (kind_for sought) self.old self.new }
        ensures caught_up { (hi ≤ lo + 64) ⊎ IsCaughtUp cells.now.journal (kind_for sought) hi self.new }
    {
        match sought {
            Sought::AtMost(bound) => self.least.find_end(cells, lo, hi, &AtMost(bound)),
            Sought::AtLeast(bound) => self.greatest.find_end(cells, lo, hi, &AtLeast(bound)),
            Sought::Run(bound) => self.best.find_end(cells, lo, hi, &RunOf(bound)),
            Sought::Beginning(bound) => self.best.find_end(cells, lo, hi, &Beginning(bound)),
            Sought::Ending(bound) => self.best.find_end(cells, lo, hi, &Ending(bound)),
        }
    }

    /// The start at which the range up to index `hi` comes to have what is sought, at least `lo`, or none.
    pub(crate) fn find_start(
        &mut self,
        cells: &Edits,
        sought: Sought,
        lo: u32,
        hi: u32,
    ) -> Option<u32>
        requires ready { AreReady self.old.table cells.now.journal self.old }
        requires limits { IsLegalInLimits cells.now }
        requires order { lo ≤ hi }
        requires inside { hi ≤ length (list_of cells.now.journal) }
        ensures finds { FindsStart sought (list_of cells.now.journal) lo hi result }
        ensures ready { AreReady self.old.table cells.now.journal self.new }
        ensures others { LeavesOthers (kind_for sought) self.old self.new }
        ensures caught_up { (hi ≤ lo + 64) ⊎ IsCaughtUp cells.now.journal (kind_for sought) hi self.new }
    {
        match sought {
            Sought::AtMost(bound) => self.least.find_start(cells, lo, hi, &AtMost(bound)),
            Sought::AtLeast(bound) => self.greatest.find_start(cells, lo, hi, &AtLeast(bound)),
            Sought::Run(bound) => self.best.find_start(cells, lo, hi, &RunOf(bound)),
            Sought::Beginning(bound) => self.best.find_start(cells, lo, hi, &Beginning(bound)),
            Sought::Ending(bound) => self.best.find_start(cells, lo, hi, &Ending(bound)),
        }
    }
}

// How many edits the kinds let wait from now on, as the number of the last of them.
fn due_after(cells: &Edits) -> u32 {
    cells.edit().saturating_add(64 + cells.size() / 512)
}

// Each of these trees follows all edits.
fn catch_up_each(
    least: &mut Late<FoldTree<Lowest>>,
    greatest: &mut Late<FoldTree<Highest>>,
    best: &mut Late<FoldTree<Runs>>,
    maps: &mut Late<FoldTree<Affine>>,
    states: &mut Late<FoldTree<Automaton>>,
    cells: &Edits,
)
    requires least { IsLate lowest_operations cells.now.journal least.old }
    requires greatest { IsLate highest_operations cells.now.journal greatest.old }
    requires best { IsLate runs_operations cells.now.journal best.old }
    requires maps { IsLate affine_operations cells.now.journal maps.old }
    requires states { IsLate (automaton_operations (table_of states.old.body)) cells.now.journal states.old }
    ensures least { HasFollowed lowest_operations cells.now.journal least.old least.new }
    ensures greatest { HasFollowed highest_operations cells.now.journal greatest.old greatest.new }
    ensures best { HasFollowed runs_operations cells.now.journal best.old best.new }
    ensures maps { HasFollowed affine_operations cells.now.journal maps.old maps.new }
    ensures states { HasFollowed (automaton_operations (table_of states.old.body)) cells.now.journal states.old states.new }
{
    least.catch_up(cells);
    greatest.catch_up(cells);
    best.catch_up(cells);
    maps.catch_up(cells);
    states.catch_up(cells);
}

// Makes room for so many blocks in each tree.
fn reserve_each(
    sums: &mut Late<Prefixes>,
    least: &mut Late<FoldTree<Lowest>>,
    greatest: &mut Late<FoldTree<Highest>>,
    best: &mut Late<FoldTree<Runs>>,
    maps: &mut Late<FoldTree<Affine>>,
    states: &mut Late<FoldTree<Automaton>>,
    blocks: u32,
) -> Result<(), Refusal>
    ensures sums { KeepsLeaves sums.old sums.new }
    ensures least { KeepsLeaves least.old least.new }
    ensures greatest { KeepsLeaves greatest.old greatest.new }
    ensures best { KeepsLeaves best.old best.new }
    ensures maps { KeepsLeaves maps.old maps.new }
    ensures states { KeepsLeaves states.old states.new }
    ensures some_sums { OnOk result (blocks ≤ sums.new.room) }
    ensures some_least { OnOk result (blocks ≤ least.new.room) }
    ensures some_greatest { OnOk result (blocks ≤ greatest.new.room) }
    ensures some_best { OnOk result (blocks ≤ best.new.room) }
    ensures some_maps { OnOk result (blocks ≤ maps.new.room) }
    ensures some_states { OnOk result (blocks ≤ states.new.room) }
    ensures err { IfErr result (λ refusal. refusal ≡ Refusal.NoMemory) }
{
    sums.reserve(blocks)?;
    least.reserve(blocks)?;
    greatest.reserve(blocks)?;
    best.reserve(blocks)?;
    maps.reserve(blocks)?;
    states.reserve(blocks)
}
