//! A tree over the blocks of a vector, and up to which edit it has followed the vector's journal: what a range is asked by it.
ghost use Rattle.std.specs.Prelude.{◌≡◌, ◌⊎◌, ◌+◌, ◌*◌, ◌≤◌, ◌++◌, [], List, length, IfErr, MatchOption, OnOk};
ghost use Rattle.std.specs.List.{slice_range};
ghost use Rattle.lv_bodies.specs.Body.{fold_of};
ghost use Rattle.lv_edits.specs.declared.edit.Edit.{Edit as AnEdit};
ghost use Rattle.lv_edits.specs.History.{list_of};
ghost use Rattle.lv_tree.specs.Blocks.{AreLeaves};
ghost use Rattle.lv_tree.specs.Follows.{HasRoomFor, IsLate, IsUpTo, KeepsLeaves, KeepsRoom};
ghost use Rattle.lv_tree.specs.Turns.{HasNoEnd, IsEndAt, IsStartAt};

use crate::blocks::{bring_up, reach};
use crate::element_folds::fold_elements;
use crate::find::Test;
use crate::ranges::{FEW, fold_by_blocks};
use crate::tree::Tree;
use crate::trees::FoldTree;
use crate::turns::{end_by_blocks, end_in_turn, start_by_blocks, start_in_turn};
use lv_bodies::{Body, LongBody};
use lv_edits::Edits;
use lv_geometry::Refusal;
use std::alloc::Global;
use std::marker::Model;

/// A tree over the blocks of a vector, how many of its edits it has followed, and how many elements there were then.
#[derive(Drop)]
pub struct Late<T: Tree> {
    tree: T,
    seen: usize,
    size: u32,
}

impl<T: Tree> Model for Late<T> {
    ghost use Rattle.lv_tree.specs.Follows.{Following};

    ghost Value = { Following T.B T.B.S };

    ghost view = { λ a. record { body = T.by a.tree; sums = T.sums a.tree; room = T.room a.tree; seen = a.seen; size = a.size } };
}

impl<T: Tree> Late<T> {
    /// A tree without leaves, which has followed no edit. Takes no memory.
    pub fn new(alloc: Global, body: T::B) -> Late<T>
        ensures body { result.body ≡ body }
        ensures sums { result.sums ≡ [] }
        ensures seen { result.seen ≡ 0 }
        ensures late { IsLate (T.B.operations result.body) [] result }
    {
        Late {
            tree: T::new(alloc, body),
            seen: 0,
            size: 0,
        }
    }

    /// A tree that follows a journal does so whichever edits come, without being told of them. Computes nothing.
    pub fn stays(&self)
        ensures { (edits more : List AnEdit) → IsLate (T.B.operations self.now.body) edits self.now → IsLate (T.B.operations self.now.body) (edits ++ more) self.now }
    {}

    /// Makes room for so many blocks in all. Refused with `NoMemory`. Nothing else changes.
    pub fn reserve(&mut self, blocks: u32) -> Result<(), Refusal>
        ensures kept { KeepsLeaves self.old self.new }
        ensures room { OnOk result (blocks ≤ self.new.room) }
        ensures err { IfErr result (λ refusal. refusal ≡ Refusal.NoMemory) }
    {
        self.tree.reserve(blocks as usize)
    }

    /// Follows what was edited since. Takes in no further block, and no memory.
    pub fn catch_up(&mut self, cells: &Edits)
        requires late { IsLate (T.B.operations self.old.body) cells.now.journal self.old }
        ensures late { IsLate (T.B.operations self.old.body) cells.now.journal self.new }
        ensures seen { self.new.seen ≡ length cells.now.journal }
        ensures kept { KeepsRoom self.old self.new }
    {
        let edit = cells.edit();
        bring_up(&mut self.tree, cells, self.seen, self.size);
        self.seen = edit as usize;
        self.size = cells.size();
    }

    /// The fold of the elements from index `lo` up to `hi`, from left to right. A range of at most 64 elements is folded directly, without the
    /// tree. Before any other, the tree follows the edits made since, and takes in the blocks that are missing. There must be room for all whole
    /// blocks.
    #[inline(always)]
    pub fn ask(&mut self, cells: &Edits, lo: u32, hi: u32) -> <T::B as Body>::S
        requires order { lo ≤ hi }
        requires inside { hi ≤ length (list_of cells.now.journal) }
        requires room { HasRoomFor self.old (length (list_of cells.now.journal)) }
        requires late { IsLate (T.B.operations self.old.body) cells.now.journal self.old }
        ensures value { result ≡ fold_of (T.B.operations self.old.body) (slice_range (list_of cells.now.journal) lo hi) }
        ensures late { IsLate (T.B.operations self.old.body) cells.now.journal self.new }
        ensures kept { KeepsRoom self.old self.new }
        ensures up_to { (hi ≤ lo + 64) ⊎ IsUpTo cells.now.journal hi self.new }
        ensures short { hi ≤ lo + 64 → self.new ≡ self.old }
    {
        // By this the history is known to be legal and within its limits.
        let _edit = cells.edit();
        if (hi - lo) as usize <= FEW {
            let body = self.tree.body();
            return fold_elements(&body, cells, lo as usize, hi as usize);
        }
        self.follow_to(cells, hi);
        fold_by_blocks(&self.tree, cells, lo as usize, hi as usize)
    }

    // Follows what was edited since, and takes in the whole blocks before an index.
    #[inline(always)]
    fn follow_to(&mut self, cells: &Edits, hi: u32)
        requires inside { hi ≤ length (list_of cells.now.journal) }
        requires room { HasRoomFor self.old (length (list_of cells.now.journal)) }
        requires late { IsLate (T.B.operations self.old.body) cells.now.journal self.old }
        ensures late { IsLate (T.B.operations self.old.body) cells.now.journal self.new }
        ensures leaves { AreLeaves (T.B.operations self.old.body) (list_of cells.now.journal) self.new.sums }
        ensures kept { KeepsRoom self.old self.new }
        ensures up_to { IsUpTo cells.now.journal hi self.new }
    {
        let edit = cells.edit();
        bring_up(&mut self.tree, cells, self.seen, self.size);
        reach(&mut self.tree, cells, hi / 8);
        self.seen = edit as usize;
        self.size = cells.size();
    }
}

impl<B: LongBody> Late<FoldTree<B>> {
    /// The least end of the range from index `lo` up to `hi` at which a test on the fold of the elements from `lo` on becomes true, if it does. A
    /// smaller end can pass only if the test is not monotone; one may then pass though none is found. A range of at most 64 is walked an element
    /// at a time. Before any other the tree follows what was edited since, as in `ask`; the search then takes about two joins for each doubling
    /// of the range, and reads at most 16 elements. Takes no memory: there is room for all whole blocks.
    pub fn find_end<T: Test<B::S>>(
        &mut self,
        cells: &Edits,
        lo: u32,
        hi: u32,
        test: &T,
    ) -> Option<u32>
        requires order { lo ≤ hi }
        requires inside { hi ≤ length (list_of cells.now.journal) }
        requires room { HasRoomFor self.old (length (list_of cells.now.journal)) }
        requires late { IsLate (B.operations self.old.body) cells.now.journal self.old }
        ensures finds { let o = B.operations self.old.body in let xs = list_of cells.now.journal in
            MatchOption result (HasNoEnd o (T.passes test.now) xs lo hi) (λ end. IsEndAt o (T.passes test.now) xs lo hi end) }
        ensures late { IsLate (B.operations self.old.body) cells.now.journal self.new }
        ensures kept { KeepsRoom self.old self.new }
        ensures up_to { (hi ≤ lo + 64) ⊎ IsUpTo cells.now.journal hi self.new }
    {
        // As in `ask`.
        let _edit = cells.edit();
        if (hi - lo) as usize <= FEW {
            let body = self.tree.body();
            return match end_in_turn(&body, cells, test, lo as usize, hi as usize) {
                Some(end) => Some(end as u32),
                None => None,
            };
        }
        self.follow_to(cells, hi);
        match end_by_blocks(&self.tree, cells, test, lo as usize, hi as usize) {
            Some(end) => Some(end as u32),
            None => None,
        }
    }

    /// The greatest start of the range from index `lo` up to `hi` at which a test on the fold of the elements up to `hi` becomes true, if it
    /// does. Cost and conditions are those of `find_end`, from the other end.
    pub fn find_start<T: Test<B::S>>(
        &mut self,
        cells: &Edits,
        lo: u32,
        hi: u32,
        test: &T,
    ) -> Option<u32>
        requires order { lo ≤ hi }
        requires inside { hi ≤ length (list_of cells.now.journal) }
        requires room { HasRoomFor self.old (length (list_of cells.now.journal)) }
        requires late { IsLate (B.operations self.old.body) cells.now.journal self.old }
        ensures finds { let o = B.operations self.old.body in let xs = list_of cells.now.journal in
            MatchOption result (HasNoEnd o (T.passes test.now) xs lo hi) (λ start. IsStartAt o (T.passes test.now) xs lo hi start) }
        ensures late { IsLate (B.operations self.old.body) cells.now.journal self.new }
        ensures kept { KeepsRoom self.old self.new }
        ensures up_to { (hi ≤ lo + 64) ⊎ IsUpTo cells.now.journal hi self.new }
    {
        // As in `ask`.
        let _edit = cells.edit();
        if (hi - lo) as usize <= FEW {
            let body = self.tree.body();
            return match start_in_turn(&body, cells, test, lo as usize, hi as usize) {
                Some(start) => Some(start as u32),
                None => None,
            };
        }
        self.follow_to(cells, hi);
        match start_by_blocks(&self.tree, cells, test, lo as usize, hi as usize) {
            Some(start) => Some(start as u32),
            None => None,
        }
    }
}
