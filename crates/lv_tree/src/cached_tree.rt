//! A fold tree with a cache of one answer: what the run of leaves that was asked for last came to.
ghost use Rattle.std.specs.Prelude.{◌≡◌, ℕ, ℤ, ◌+◌, ◌-◌, ◌^◌, ◌<◌, ◌≤◌, List, [], ◌∷◌, ◌++◌, length, take, drop, slice_set, OnErr, OnOk, IfErr};
ghost use Rattle.lv_bodies.specs.Body.{fold_of};
ghost use Rattle.lv_tree.specs.CachedTrees.{leaves_joined};
ghost use Rattle.lv_tree.specs.Folds.{AreFolds, AreFoldsOf, end_to_end, leaf_range};

use crate::tree::Tree;
use crate::trees::FoldTree;
use lv_bodies::{LongBody, long_laws};
use lv_geometry::Refusal;
use std::alloc::Global;
use std::marker::Model;

/// What the leaves from number `from` up to `to` came to.
#[derive(Clone, Copy)]
struct CachedRun<S> {
    from: u64,
    to: u64,
    sum: S,
}

// No leaves.
#[inline(always)]
fn no_run<B: LongBody>(body: &B) -> CachedRun<B::S>
    ensures { result ≡ record { from = 0; to = 0; sum = (B.operations body.now).identity } }
{
    CachedRun {
        from: 0,
        to: 0,
        sum: body.identity(),
    }
}

/// A fold tree, and the summary of the run of its leaves that was asked for last. That is remembered as long as those leaves are unchanged.
#[derive(Drop)]
pub struct CachedTree<B: LongBody> {
    tree: FoldTree<B>,
    run: CachedRun<B::S>,
}

impl<B: LongBody> Model for CachedTree<B> {
    ghost use Rattle.lv_tree.specs.CachedTrees.{IsCached};
    ghost use Rattle.lv_tree.specs.Folds.{Leaves};

    ghost Value = { Leaves B B.S };

    ghost view = { λ a. a.tree };

    ghost invariant = { λ a. IsCached (B.operations a.tree.body) a.tree.first a.tree.sums a.run.from a.run.to a.run.sum };
}

impl<B: LongBody> CachedTree<B> {
    /// No leaves. The first one will have the number `first`. Takes no memory.
    pub fn new(alloc: Global, body: B, first: u64) -> CachedTree<B>
        ensures { result ≡ record { body = body; first = first; room = 0; sums = [] } }
    {
        CachedTree::of(FoldTree::new(alloc, body, first))
    }

    /// A tree for which no run is remembered yet.
    #[inline(always)]
    pub fn of(tree: FoldTree<B>) -> CachedTree<B>
        ensures { result ≡ tree }
    {
        let run = no_run(&tree.body());
        CachedTree { tree, run }
    }

    /// The tree, to be searched.
    #[inline(always)]
    pub fn tree(&self) -> &FoldTree<B>
        ensures { result.now ≡ self.now }
    {
        &self.tree
    }

    /// By which body it folds.
    #[inline(always)]
    pub fn body(&self) -> B
        ensures { result ≡ self.now.body }
    {
        self.tree.body()
    }

    /// The number of the first leaf, or of the next one if there is none.
    #[inline(always)]
    pub fn first(&self) -> u64
        ensures { result ≡ self.now.first }
    {
        self.tree.first()
    }

    /// How many leaves there are.
    #[inline(always)]
    pub fn len(&self) -> usize
        ensures { result ≡ length self.now.sums }
    {
        self.tree.len()
    }

    /// Adds a leaf behind the last one.
    ///
    /// # Errors
    /// `NoMemory` if there is none, and nothing has changed then.
    #[inline(always)]
    pub fn push(&mut self, summary: B::S) -> Result<(), Refusal>
        requires folds { AreFolds (B.operations self.old.body) (self.old.sums ++ summary ∷ []) }
        requires numbered { self.old.first + length self.old.sums + 1 < 2 ^ 64 }
        ensures ok { OnOk result (self.new ≡ record self.old { room = self.new.room; sums = self.old.sums ++ summary ∷ [] }) }
        ensures same { OnErr result (self.new ≡ self.old) }
        ensures err { IfErr result (λ refusal. refusal ≡ Refusal.NoMemory) }
    {
        self.tree.push(summary)
    }

    /// Puts another summary in the place of a leaf's, and forgets a run that has the leaf. Takes no memory.
    #[inline(always)]
    pub fn set(&mut self, leaf: u64, summary: B::S)
        requires low { self.old.first ≤ leaf }
        requires high { leaf < self.old.first + length self.old.sums }
        requires folds { AreFolds (B.operations self.old.body) (slice_set self.old.sums (leaf - self.old.first) summary) }
        ensures { self.new ≡ record self.old { sums = slice_set self.old.sums (leaf - self.old.first) summary } }
    {
        if leaf < self.run.from || self.run.to <= leaf {
            self.tree.set(leaf, summary);
            return;
        }
        self.run = no_run(&self.tree.body());
        self.tree.set(leaf, summary);
    }

    /// Keeps the first `count` leaves, and drops the others; forgets a run that had some of these.
    #[inline(always)]
    pub fn truncate(&mut self, count: usize)
        requires { count ≤ length self.old.sums }
        ensures { self.new ≡ record self.old { sums = take count self.old.sums } }
    {
        self.tree.truncate(count);
        if self.run.to.saturating_sub(self.tree.first()) <= count as u64 {
            return;
        }
        self.run = no_run(&self.tree.body());
    }

    /// Drops the leaves before a number, all of them if it is past the last one: the next leaf has that number then.
    #[inline(always)]
    pub fn expire(&mut self, to: u64)
        requires { self.old.first ≤ to }
        ensures { self.new ≡ record { body = self.old.body; first = to; room = self.new.room; sums = drop (to - self.old.first) self.old.sums } }
    {
        self.tree.expire(to);
    }

    /// The summary of the elements of the leaves from number `from` up to `to`: the remembered one, if that is the run. Any other takes at most
    /// two joins for each doubling of its leaves; if it begins where the remembered run does and is longer, of only those behind that. Takes no
    /// memory.
    #[inline(always)]
    pub fn ask(&mut self, from: u64, to: u64) -> B::S
        requires folds { AreFolds (B.operations self.old.body) self.old.sums }
        requires first { self.old.first ≤ from }
        requires order { from ≤ to }
        requires last { to ≤ self.old.first + length self.old.sums }
        ensures same { self.new ≡ self.old }
        ensures sum { (lists : List (List ℤ)) → AreFoldsOf (B.operations self.old.body) lists self.old.sums
            → result ≡ fold_of (B.operations self.old.body) (end_to_end (leaf_range self.old.first lists from to)) }
    {
        long_laws(&self.tree.body());
        if self.run.from == from && self.run.to == to {
            return self.run.sum;
        }
        let sum = self.fold(from, to);
        self.run = CachedRun { from, to, sum };
        sum
    }

    // What a run comes to. It is continued from the remembered run, if that begins alike.
    fn fold(&self, from: u64, to: u64) -> B::S
        requires folds { AreFolds (B.operations self.now.body) self.now.sums }
        requires first { self.now.first ≤ from }
        requires order { from ≤ to }
        requires last { to ≤ self.now.first + length self.now.sums }
        ensures { result ≡ leaves_joined (B.operations self.now.body) self.now.first self.now.sums from to }
    {
        let body = self.tree.body();
        long_laws(&body);
        if self.run.from != from || self.run.to > to {
            return self.tree.fold(from, to);
        }
        let more = self.tree.fold(self.run.to, to);
        body.combine_long(self.run.sum, more)
    }
}
