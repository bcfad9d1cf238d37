//! A fold tree.
ghost use Rattle.std.specs.Prelude.{◌≡◌, ℕ, ℤ, ◌+◌, ◌-◌, ◌^◌, ◌<◌, ◌≤◌, List, [], ◌∷◌, ◌++◌, length, take, drop, slice_set, slice_index_or, OnErr, OnOk, IfErr, IfSome, MatchOption, false, true};
ghost use Rattle.lv_bodies.specs.Body.{fold_of};
ghost use Rattle.lv_tree.specs.Folds.{AreFolds, AreFoldsOf, end_to_end, leaf_range};
ghost use Rattle.lv_tree.specs.Parts.{AreBefore, AreInOrder, joined_on};
ghost use Rattle.lv_tree.specs.Tests.{HasNoLastTurn, HasNoTurn, IsLastTurn, IsTurn};
ghost use Rattle.std.specs.List.{slice_range};

use crate::find::{Reached, Test, find_turn};
use crate::folds::fold_between;
use crate::joins::join_laws;
use crate::leaves::{add_leaf, set_leaf};
use crate::rooms::{opened, with_room, with_rooms};
use crate::tree::Tree;
use lv_bodies::LongBody;
use lv_geometry::Refusal;
use std::alloc::Global;
use std::marker::Model;

/// Summaries in order, each under a number. Any range of them is joined in at most two joins for each doubling of how many they are.
#[derive(Drop)]
pub struct FoldTree<B: LongBody> {
    body: B,
    first: u64,
    lo: usize,
    hi: usize,
    room: usize,
    cells: Vec<B::S>,
}

impl<B: LongBody> Model for FoldTree<B> {
    ghost use Rattle.std.specs.Prelude.{◌-◌, vec_capacity};
    ghost use Rattle.lv_tree.specs.Folds.{Leaves};
    ghost use Rattle.lv_tree.specs.Nodes.{IsKept};
    ghost use Rattle.lv_tree.specs.Parts.{run_of};

    ghost Value = { Leaves B B.S };

    ghost view = { λ a. record { body = a.body; first = a.first; room = a.room; sums = run_of a.cells.items a.lo (a.hi - a.lo) } };

    ghost invariant = { λ a. IsKept (B.operations a.body) a.lo a.hi a.room (vec_capacity a.cells) a.cells.items };
}

impl<B: LongBody> FoldTree<B> {
    /// No leaves. The first one will have the number `first`. Takes no memory.
    pub fn new(alloc: Global, body: B, first: u64) -> FoldTree<B>
        ensures { result ≡ record { body = body; first = first; room = 0; sums = [] } }
    {
        FoldTree {
            body,
            first,
            lo: 0,
            hi: 0,
            room: 0,
            cells: Vec::new(alloc),
        }
    }

    /// The number of the first leaf, or of the next one if there is none.
    #[inline(always)]
    pub fn first(&self) -> u64
        ensures { result ≡ self.now.first }
    {
        self.first
    }

    /// How many leaves there are.
    #[inline(always)]
    pub fn len(&self) -> usize
        ensures { result ≡ length self.now.sums }
    {
        self.hi - self.lo
    }

    /// The summary of a leaf.
    #[inline(always)]
    pub fn get(&self, leaf: u64) -> B::S
        requires low { self.now.first ≤ leaf }
        requires high { leaf < self.now.first + length self.now.sums }
        ensures { result ≡ slice_index_or self.now.sums (leaf - self.now.first) result }
    {
        self.cells[(leaf - self.first) as usize + self.lo]
    }

    /// Adds a leaf behind the last one.
    ///
    /// # Errors
    /// `NoMemory` if there is none, and nothing has changed then.
    pub fn push(&mut self, summary: B::S) -> Result<(), Refusal>
        requires folds { AreFolds (B.operations self.old.body) (self.old.sums ++ summary ∷ []) }
        requires numbered { self.old.first + length self.old.sums + 1 < 2 ^ 64 }
        ensures ok { OnOk result (self.new ≡ record self.old { room = self.new.room; sums = self.old.sums ++ summary ∷ [] }) }
        ensures same { OnErr result (self.new ≡ self.old) }
        ensures err { IfErr result (λ refusal. refusal ≡ Refusal.NoMemory) }
    {
        match with_room(
            &self.body,
            &mut self.cells,
            self.lo,
            self.hi,
            self.room,
            summary,
        ) {
            None => Err(Refusal::NoMemory),
            Some(to) => {
                self.hi = to + (self.hi - self.lo);
                self.lo = to;
                self.room = self.cells.len() - to;
                add_leaf(
                    &self.body,
                    self.cells.as_mut_slice(),
                    self.lo,
                    self.hi,
                    summary,
                );
                self.hi += 1;
                Ok(())
            }
        }
    }

    /// Puts another summary in the place of a leaf's. Takes no memory.
    pub fn set(&mut self, leaf: u64, summary: B::S)
        requires low { self.old.first ≤ leaf }
        requires high { leaf < self.old.first + length self.old.sums }
        requires folds { AreFolds (B.operations self.old.body) (slice_set self.old.sums (leaf - self.old.first) summary) }
        ensures { self.new ≡ record self.old { sums = slice_set self.old.sums (leaf - self.old.first) summary } }
    {
        let at = (leaf - self.first) as usize + self.lo;
        set_leaf(
            &self.body,
            self.cells.as_mut_slice(),
            self.lo,
            self.hi,
            at,
            summary,
        );
    }

    /// Keeps the first `count` leaves, and drops the others. Computes nothing.
    pub fn truncate(&mut self, count: usize)
        requires { count ≤ length self.old.sums }
        ensures { self.new ≡ record self.old { sums = take count self.old.sums } }
    {
        self.hi = self.lo + count;
    }

    /// Drops the leaves before a number, all of them if it is past the last one: the next leaf has that number then.
    pub fn expire(&mut self, to: u64)
        requires { self.old.first ≤ to }
        ensures { self.new ≡ record { body = self.old.body; first = to; room = self.new.room; sums = drop (to - self.old.first) self.old.sums } }
    {
        let all = (self.hi - self.lo) as u64;
        let count = (to - self.first).min(all);
        self.lo += count as usize;
        self.room -= count as usize;
        self.first = to;
    }

    /// The summary of the elements of the leaves from number `from` up to `to`: at most two joins for each doubling of their
    /// number. Takes no memory.
    pub fn fold(&self, from: u64, to: u64) -> B::S
        requires folds { AreFolds (B.operations self.now.body) self.now.sums }
        requires first { self.now.first ≤ from }
        requires order { from ≤ to }
        requires last { to ≤ self.now.first + length self.now.sums }
        ensures { (lists : List (List ℤ)) → AreFoldsOf (B.operations self.now.body) lists self.now.sums
            → result ≡ fold_of (B.operations self.now.body) (end_to_end (leaf_range self.now.first lists from to)) }
    {
        join_laws(&self.body);
        let start = (from - self.first) as usize + self.lo;
        let end = (to - self.first) as usize + self.lo;
        fold_between(
            &self.body,
            self.cells.as_slice(),
            start,
            end,
            from == self.first,
        )
    }

    /// The first of the leaves from number `from` up to `to` with which a test on the join of `start` and the leaves from `from` on becomes true,
    /// if it does. An earlier one can pass only if the test is not monotone. Takes no memory.
    pub fn find<T: Test<B::S>>(&self, from: u64, to: u64, start: B::S, test: &T) -> Option<u64>
        requires folds { AreInOrder (B.operations self.now.body) start (leaf_range self.now.first self.now.sums from to) }
        requires first { self.now.first ≤ from }
        requires order { from ≤ to }
        requires last { to ≤ self.now.first + length self.now.sums }
        ensures low { IfSome result (λ leaf. from ≤ leaf) }
        ensures turn { let leaves = leaf_range self.now.first self.now.sums from to in
            MatchOption result (HasNoTurn (B.operations self.now.body) (T.passes test.now) start leaves)
            (λ leaf. IsTurn (B.operations self.now.body) (T.passes test.now) start leaves (leaf - from)) }
    {
        let a = (from - self.first) as usize + self.lo;
        let b = (to - self.first) as usize + self.lo;
        let place = find_turn(&self.body, self.cells.as_slice(), test, start, a, b, false);
        if place.at == b {
            return None;
        }
        Some(from + (place.at - a) as u64)
    }

    /// The last of the leaves from number `from` up to `to` with which a test on the join of the leaves from there on and `end` becomes true, if
    /// it does. A later one can pass only if the test is not monotone. Takes no memory.
    pub fn find_last<T: Test<B::S>>(&self, from: u64, to: u64, end: B::S, test: &T) -> Option<u64>
        requires folds { AreBefore (B.operations self.now.body) (leaf_range self.now.first self.now.sums from to) end }
        requires first { self.now.first ≤ from }
        requires order { from ≤ to }
        requires last { to ≤ self.now.first + length self.now.sums }
        ensures low { IfSome result (λ leaf. from ≤ leaf) }
        ensures turn { let leaves = leaf_range self.now.first self.now.sums from to in
            MatchOption result (HasNoLastTurn (B.operations self.now.body) (T.passes test.now) end leaves)
            (λ leaf. IsLastTurn (B.operations self.now.body) (T.passes test.now) end leaves (leaf - from)) }
    {
        let a = (from - self.first) as usize + self.lo;
        let b = (to - self.first) as usize + self.lo;
        let place = find_turn(&self.body, self.cells.as_slice(), test, end, a, b, true);
        if place.at == a {
            return None;
        }
        Some(from + (place.at - 1 - a) as u64)
    }

    /// The place of the first of the leaves from place `from` up to `to` with which a test on the join of `start` and the leaves from `from` on
    /// becomes true; `to` if it does not. With it the join of `start` and the leaves before that place. Takes no memory.
    pub(crate) fn turn_up<T: Test<B::S>>(
        &self,
        from: usize,
        to: usize,
        start: B::S,
        test: &T,
    ) -> Reached<B::S>
        requires folds { AreInOrder (B.operations self.now.body) start (slice_range self.now.sums from to) }
        requires order { from ≤ to }
        requires last { to ≤ length self.now.sums }
        ensures low { from ≤ result.at }
        ensures high { result.at ≤ to }
        ensures sum { result.sum ≡ joined_on (B.operations self.now.body) start (slice_range self.now.sums from result.at) }
        ensures before { from < result.at → T.passes test.now result.sum ≡ false }
        ensures after { result.at < to → T.passes test.now (joined_on (B.operations self.now.body) start (slice_range self.now.sums from (result.at + 1))) ≡ true }
    {
        let a = from + self.lo;
        let b = to + self.lo;
        let place = find_turn(&self.body, self.cells.as_slice(), test, start, a, b, false);
        Reached {
            at: place.at - self.lo,
            sum: place.sum,
        }
    }

    /// The place behind the last of the leaves from place `from` up to `to` with which a test on the join of the leaves from there on and `end`
    /// becomes true; `from` if it does not. With it the join of the leaves from that place on and `end`. Takes no memory.
    pub(crate) fn turn_down<T: Test<B::S>>(
        &self,
        from: usize,
        to: usize,
        end: B::S,
        test: &T,
    ) -> Reached<B::S>
        requires folds { AreBefore (B.operations self.now.body) (slice_range self.now.sums from to) end }
        requires order { from ≤ to }
        requires last { to ≤ length self.now.sums }
        ensures low { from ≤ result.at }
        ensures high { result.at ≤ to }
        ensures sum { let o = B.operations self.now.body in result.sum ≡ o.join (joined_on o o.identity (slice_range self.now.sums result.at to)) end }
        ensures before { result.at < to → T.passes test.now result.sum ≡ false }
        ensures after { let o = B.operations self.now.body in from < result.at → T.passes test.now (o.join (joined_on o o.identity (slice_range self.now.sums (result.at - 1) to)) end) ≡ true }
    {
        let a = from + self.lo;
        let b = to + self.lo;
        let place = find_turn(&self.body, self.cells.as_slice(), test, end, a, b, true);
        Reached {
            at: place.at - self.lo,
            sum: place.sum,
        }
    }
}

impl<B: LongBody> Tree for FoldTree<B> {
    type B = B;

    ghost sums = { λ t. t.sums };

    ghost room = { λ t. t.room };

    ghost by = { λ t. t.body };

    fn new(alloc: Global, body: B) -> FoldTree<B> {
        FoldTree {
            body,
            first: 0,
            lo: 0,
            hi: 0,
            room: 0,
            cells: Vec::new(alloc),
        }
    }

    #[inline(always)]
    fn body(&self) -> B {
        self.body
    }

    #[inline(always)]
    fn len(&self) -> usize {
        self.hi - self.lo
    }

    fn reserve(&mut self, leaves: usize) -> Result<(), Refusal> {
        if leaves <= self.room {
            return Ok(());
        }
        let room = leaves.max(2 * self.room);
        match with_rooms(&self.body, &mut self.cells, self.lo, self.hi, room) {
            None => Err(Refusal::NoMemory),
            Some(to) => {
                self.hi = to + (self.hi - self.lo);
                self.lo = to;
                self.room = room;
                Ok(())
            }
        }
    }

    fn push(&mut self, summary: B::S) {
        let to = opened(
            &self.body,
            &mut self.cells,
            self.lo,
            self.hi,
            self.room,
            summary,
        );
        self.hi = to + (self.hi - self.lo);
        self.lo = to;
        add_leaf(
            &self.body,
            self.cells.as_mut_slice(),
            self.lo,
            self.hi,
            summary,
        );
        self.hi += 1;
    }

    fn set(&mut self, leaf: usize, summary: B::S) {
        let at = leaf + self.lo;
        set_leaf(
            &self.body,
            self.cells.as_mut_slice(),
            self.lo,
            self.hi,
            at,
            summary,
        );
    }

    fn truncate(&mut self, count: usize) {
        self.hi = self.lo + count;
    }

    fn fold(&self, from: usize, to: usize) -> B::S {
        join_laws(&self.body);
        fold_between(
            &self.body,
            self.cells.as_slice(),
            from + self.lo,
            to + self.lo,
            from == 0,
        )
    }
}
