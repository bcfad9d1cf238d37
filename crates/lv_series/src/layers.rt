//! The tree of one kind over the blocks of a series, if it is kept.
ghost use Rattle.std.specs.Prelude.{◌≡◌, ◌+◌, ◌-◌, ◌*◌, ◌/◌, ◌^◌, ◌≤◌, [], true, false, if◌then◌else◌, length, All, IfSome};
ghost use Rattle.std.specs.List.{slice_range};
ghost use Rattle.lv_bodies.specs.Body.{fold_of};
ghost use Rattle.lv_geometry.specs.Elements.{IsElement};
ghost use Rattle.lv_series.specs.Blocks.{CanCut, CanGrow, CanRenew, CoversBlocks, IsOver, IsWindow, before_block, from_block, with_leaf, with_leaf_at, without_last};
ghost use Rattle.lv_series.specs.Places.{Finds};
ghost use Rattle.lv_tree.specs.Blocks.{AreLeaves};

use crate::blocks::BLOCK;
use lv_bodies::{LongBody, fold_long, long_laws};
use lv_tree::{
    CachedTree, FoldTree, Items, TestFor, find_sought_end, find_sought_start, fold_range,
};
use std::alloc::Global;
use std::marker::Model;

// A range of at most so many elements is folded directly, without the tree.
const FEW: usize = 64;

/// A fold tree whose leaves are blocks of eight elements, or none.
#[derive(Drop)]
pub struct Layer<B: LongBody> {
    kept: bool,
    tree: CachedTree<B>,
}

impl<B: LongBody> Model for Layer<B> {
    ghost use Rattle.lv_series.specs.Blocks.{Layered};

    ghost Value = { Layered B B.S };

    ghost view = { λ a. record { body = a.tree.body; kept = a.kept; first = a.tree.first; sums = a.tree.sums } };
}

impl<B: LongBody> Layer<B> {
    /// No tree. Takes no memory.
    pub fn new(alloc: Global, body: B) -> Layer<B>
        ensures { result ≡ record { body = body; kept = false; first = 0; sums = [] } }
    {
        Layer {
            kept: false,
            tree: CachedTree::new(alloc, body, 0),
        }
    }

    /// By which body the tree folds.
    #[inline(always)]
    pub fn body(&self) -> B
        ensures { result ≡ self.now.body }
    {
        self.tree.body()
    }

    /// Whether there is a tree.
    #[inline(always)]
    pub fn is_kept(&self) -> bool
        ensures { result ≡ self.now.kept }
    {
        self.kept
    }

    /// Adds the leaf of a block behind the others, if `before` says that this was done in the trees before. If there is no memory, nothing has
    /// changed, and the result is false.
    #[inline(always)]
    pub fn grow(&mut self, block: &[i64], before: bool) -> bool
        requires eight { length block.now ≡ 8 }
        requires can { CanGrow (B.operations self.old.body) block.now self.old }
        ensures before { result ≡ true → before ≡ true }
        ensures grown { result ≡ true → self.new ≡ with_leaf (fold_of (B.operations self.old.body) block.now) self.old }
        ensures same { result ≡ false → self.new ≡ self.old }
    {
        if !before {
            return false;
        }
        if !self.kept {
            return true;
        }
        let sum = self.tree.body().fold_eight(block);
        self.tree.push(sum).is_ok()
    }

    /// Takes the last leaf away again, if the tree has `grown` by one.
    #[inline(always)]
    pub fn take_back(&mut self, grown: bool)
        ensures { self.new ≡ (if grown then without_last self.old else self.old) }
    {
        if grown && self.kept {
            let count = self.tree.len();
            self.tree.truncate(count.saturating_sub(1));
        }
    }

    /// Folds the leaf of a block anew.
    #[inline(always)]
    pub fn renew(&mut self, block: u64, elements: &[i64])
        requires eight { length elements.now ≡ 8 }
        requires can { CanRenew (B.operations self.old.body) block elements.now self.old }
        ensures { self.new ≡ with_leaf_at block (fold_of (B.operations self.old.body) elements.now) self.old }
    {
        if self.kept {
            let sum = self.tree.body().fold_eight(elements);
            self.tree.set(block, sum);
        }
    }

    /// Keeps the leaves of the blocks before this one.
    #[inline(always)]
    pub fn truncate(&mut self, block: u64)
        requires { CanCut block self.old }
        ensures { self.new ≡ before_block block self.old }
    {
        if self.kept {
            let first = self.tree.first();
            self.tree.truncate((block - first) as usize);
        }
    }

    /// Drops the leaves of the blocks before this one.
    #[inline(always)]
    pub fn expire(&mut self, block: u64)
        requires { CanCut block self.old }
        ensures { self.new ≡ from_block block self.old }
    {
        if self.kept {
            self.tree.expire(block);
        }
    }

    /// Makes the tree, with a leaf for each block that is whole, if there is none. If there is no memory, nothing has changed, and the result is
    /// false.
    #[inline(always)]
    pub fn make(&mut self, elements: &Vec<i64>, base: u64, first: u64) -> bool
        requires window { IsWindow base first elements.now.items }
        requires over { IsOver (B.operations self.old.body) base first elements.now.items self.old }
        ensures made { result ≡ true → self.new.kept ≡ true }
        ensures kept { self.old.kept ≡ true → result ≡ true }
        ensures same { result ≡ false → self.new ≡ self.old }
        ensures over { IsOver (B.operations self.old.body) base first elements.now.items self.new }
        ensures body { self.new.body ≡ self.old.body }
    {
        self.kept || self.make_anew(elements, base, first)
    }

    // Makes the tree anew, whether there is one or not, with a leaf for each block that is whole. The new tree has no memory for blocks that have
    // expired. If there is no memory, nothing has changed, and the result is false.
    fn make_anew(&mut self, elements: &Vec<i64>, base: u64, first: u64) -> bool
        requires window { IsWindow base first elements.now.items }
        requires over { IsOver (B.operations self.old.body) base first elements.now.items self.old }
        ensures made { result ≡ true → self.new.kept ≡ true }
        ensures same { result ≡ false → self.new ≡ self.old }
        ensures over { IsOver (B.operations self.old.body) base first elements.now.items self.new }
        ensures body { self.new.body ≡ self.old.body }
    {
        let body = self.tree.body();
        match grown_over(
            *elements.allocator(),
            &body,
            elements.as_slice(),
            base,
            first,
        ) {
            None => false,
            Some(tree) => {
                self.tree = CachedTree::of(tree);
                self.kept = true;
                true
            }
        }
    }

    /// Gives the memory of blocks that are gone back, if the tree is kept: it is made anew. It stays if there is no memory for that.
    pub fn shrink(&mut self, elements: &Vec<i64>, base: u64, first: u64)
        requires window { IsWindow base first elements.now.items }
        requires over { IsOver (B.operations self.old.body) base first elements.now.items self.old }
        ensures over { IsOver (B.operations self.old.body) base first elements.now.items self.new }
        ensures body { self.new.body ≡ self.old.body }
        ensures kept { self.new.kept ≡ self.old.kept }
    {
        if self.kept {
            let _made = self.make_anew(elements, base, first);
        }
    }

    /// The fold of the elements from a place up to another: by the tree, if it is kept, or else over the range.
    #[inline(always)]
    pub fn fold(&self, elements: &[i64], base: u64, first: u64, from: usize, to: usize) -> B::S
        requires window { IsWindow base first elements.now }
        requires over { IsOver (B.operations self.now.body) base first elements.now self.now }
        requires low { first ≤ 8 * base + from }
        requires order { from ≤ to }
        requires high { to ≤ length elements.now }
        ensures { result ≡ fold_of (B.operations self.now.body) (slice_range elements.now from to) }
    {
        if !self.kept {
            let body = self.tree.body();
            return fold_long(&body, &elements[from..to]);
        }
        let gone = gone_before(base, first);
        let items = Items::new(&elements[gone..]);
        fold_range(self.tree.tree(), &items, from - gone, to - gone)
    }

    /// The fold of the elements from a place up to another, as `fold` gives it. The whole blocks of a long range are remembered until others are
    /// asked for.
    #[inline(always)]
    pub fn ask(&mut self, elements: &[i64], base: u64, first: u64, from: usize, to: usize) -> B::S
        requires window { IsWindow base first elements.now }
        requires over { IsOver (B.operations self.old.body) base first elements.now self.old }
        requires low { first ≤ 8 * base + from }
        requires order { from ≤ to }
        requires high { to ≤ length elements.now }
        ensures same { self.new ≡ self.old }
        ensures value { result ≡ fold_of (B.operations self.old.body) (slice_range elements.now from to) }
    {
        if !self.kept || to - from <= FEW {
            return self.fold(elements, base, first, from, to);
        }
        let start = from + (BLOCK - from % BLOCK) % BLOCK;
        let end = to - to % BLOCK;
        let middle = self.ask_blocks(elements, base, first, start / BLOCK, end / BLOCK);
        let body = self.tree.body();
        join_ends(&body, elements, from, to, start, end, middle)
    }

    // The fold of the elements of the whole blocks from the one at place `from` on up to that at place `to`, by the tree.
    #[inline(always)]
    fn ask_blocks(
        &mut self,
        _elements: &[i64],
        base: u64,
        _first: u64,
        from: usize,
        to: usize,
    ) -> B::S
        requires window { IsWindow base _first _elements.now }
        requires over { IsOver (B.operations self.old.body) base _first _elements.now self.old }
        requires kept { self.old.kept ≡ true }
        requires low { _first ≤ 8 * base + 8 * from }
        requires order { from ≤ to }
        requires high { 8 * to ≤ length _elements.now }
        ensures same { self.new ≡ self.old }
        ensures value { result ≡ fold_of (B.operations self.old.body) (slice_range _elements.now (8 * from) (8 * to)) }
    {
        self.tree.ask(base + from as u64, base + to as u64)
    }

    /// The end at which the range from a place on comes to have what a test seeks, at most `to`, or none, by the tree. Looking `back` it is
    /// the start at which the range up to a place does, at least `from`.
    #[tactic(auto, using(crate::proofs::SearchLaws::found_in_all, crate::proofs::SearchLaws::none_in_all))]
    pub fn find<T: TestFor<B>>(
        &self,
        elements: &[i64],
        base: u64,
        first: u64,
        test: &T,
        from: usize,
        to: usize,
        back: bool,
    ) -> Option<usize>
        requires window { IsWindow base first elements.now }
        requires over { IsOver (B.operations self.now.body) base first elements.now self.now }
        requires kept { self.now.kept ≡ true }
        requires low { first ≤ 8 * base + from }
        requires order { from ≤ to }
        requires high { to ≤ length elements.now }
        ensures { Finds back (T.seeks test.now) elements.now from to result }
    {
        let gone = gone_before(base, first);
        let items = Items::new(&elements[gone..]);
        match find_sought(self.tree.tree(), &items, test, from - gone, to - gone, back) {
            Some(place) => Some(gone + place),
            None => None,
        }
    }
}

// What a test seeks in elements, by a tree over their blocks: from a place on, or back from another.
#[inline(always)]
fn find_sought<B: LongBody, T: TestFor<B>>(
    tree: &FoldTree<B>,
    items: &Items,
    test: &T,
    lo: usize,
    hi: usize,
    back: bool,
) -> Option<usize>
    requires order { lo ≤ hi }
    requires inside { hi ≤ length items.now }
    requires leaves { AreLeaves (B.operations tree.now.body) items.now tree.now.sums }
    requires blocks { hi / 8 ≤ length tree.now.sums }
    ensures { Finds back (T.seeks test.now) items.now lo hi result }
{
    if back {
        return find_sought_start(tree, items, test, lo, hi);
    }
    find_sought_end(tree, items, test, lo, hi)
}

// The fold of a range from that of the elements between two places in it, and those at its two ends.
#[inline(always)]
fn join_ends<B: LongBody>(
    body: &B,
    elements: &[i64],
    from: usize,
    to: usize,
    start: usize,
    end: usize,
    middle: B::S,
) -> B::S
    requires elements { All IsElement elements.now }
    requires few { length elements.now ≤ 2 ^ 59 }
    requires low { from ≤ start }
    requires order { start ≤ end }
    requires high { end ≤ to }
    requires inside { to ≤ length elements.now }
    requires middle { middle ≡ fold_of (B.operations body.now) (slice_range elements.now start end) }
    ensures { result ≡ fold_of (B.operations body.now) (slice_range elements.now from to) }
{
    long_laws(body);
    let front = fold_long(body, &elements[from..start]);
    let back = fold_long(body, &elements[end..to]);
    let joined = body.combine_long(front, middle);
    body.combine_long(joined, back)
}

// How many elements in memory are before the block of the first that is kept, which is that of a tree's first leaf.
#[inline(always)]
fn gone_before(base: u64, first: u64) -> usize
    requires low { 8 * base ≤ first }
    requires few { first ≤ 8 * base + 2 ^ 61 }
    ensures { result ≡ 8 * (first / 8 - base) }
{
    BLOCK * (first / BLOCK as u64 - base) as usize
}

// A tree with a leaf for each block that is whole, from that of `first` on; none if there is no memory.
fn grown_over<B: LongBody>(
    alloc: Global,
    body: &B,
    elements: &[i64],
    base: u64,
    first: u64,
) -> Option<FoldTree<B>>
    requires window { IsWindow base first elements.now }
    ensures { IfSome result (λ tree. (tree.body ≡ body.now) × CoversBlocks (B.operations body.now) base first elements.now record { body = tree.body; kept = true; first = tree.first; sums = tree.sums }) }
{
    let block = first / BLOCK as u64;
    let mut tree = FoldTree::new(alloc, *body, block);
    for k in (block - base) as usize..elements.len() / BLOCK {
        let sum = body.fold_eight(&elements[BLOCK * k..BLOCK * k + BLOCK]);
        if tree.push(sum).is_err() {
            return None;
        }
    }
    Some(tree)
}
