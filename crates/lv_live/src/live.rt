//! The live vector: what it holds, its edits, and its simple reads.
ghost use Rattle.std.specs.Prelude.{◌≡◌, ℤ, None, List, [], length};
ghost use Rattle.lv_geometry.specs.declared.nodes.Node.{Node};
ghost use Rattle.lv_edits.specs.declared.edit.Edit.{Edit as AnEdit};
ghost use Rattle.lv_edits.specs.Batches.{AnswersEdits, verdict_of_edits, writes_at};
ghost use Rattle.lv_edits.specs.Capacity.{capacity_after};
ghost use Rattle.lv_edits.specs.History.{list_of};
ghost use Rattle.lv_edits.specs.Kept.{IsLegalInLimits};
ghost use Rattle.lv_edits.specs.Pushes.{AnswersAll, verdict_of_pushes};
ghost use Rattle.lv_edits.specs.Verdict.{Answers, element_at, verdict_of};
ghost use Rattle.lv_live.specs.Kept.{IsLive};
ghost use Rattle.lv_live.specs.State.{Remembers, SameLive, SameRefresh, recorded};

mod batches;
mod questions;
mod refreshing;
mod subtrees;

use crate::following::{Touched, follow, make_room, touched_indices};
use crate::pushing::follow_pushes;
use crate::writing::follow_writes;
use lv_bodies::Body;
use lv_edits::{Edit, Edits, Receipt};
use lv_geometry::{Limits, Node, Refusal};
use lv_refresh::Claims;
use lv_summary::Summaries;
use std::alloc::Global;
use std::marker::Model;

/// A vector whose reductions and scans stay current while it is edited.
#[derive(Drop)]
pub struct Live<B: Body> {
    body: B,
    history: Edits,
    table: Summaries<B::S>,
    claims: Claims,
}

impl<B: Body> Model for Live<B> {
    ghost use Rattle.lv_live.specs.Kept.{IsLive};
    ghost use Rattle.lv_live.specs.State.{LiveState};

    ghost Value = { LiveState B B.S };

    ghost view = { λ a. record { body = a.body; history = a.history; table = a.table; claims = a.claims } };

    ghost invariant = { λ a. IsLive (B.operations a.body) record { body = a.body; history = a.history; table = a.table; claims = a.claims } };
}

impl<B: Body> Live<B> {
    /// An empty vector, for which nothing is claimed and nothing kept. Takes no memory.
    pub fn new(alloc: Global, limits: Limits, body: B) -> Live<B>
        ensures body { result.body ≡ body }
        ensures history { result.history ≡ record { limits = limits; journal = [] } }
        ensures limits { IsLegalInLimits result.history }
        ensures unclaimed { (n : Node) → (recorded result).claimed n ≡ None }
        ensures nothing_kept { (n : Node) → (recorded result).kept n ≡ None }
    {
        let blank = body.identity();
        Live {
            body,
            history: Edits::new(alloc, limits),
            table: Summaries::new(alloc, blank),
            claims: Claims::new(alloc),
        }
    }

    /// The accepted edits, in order.
    pub fn journal(&self) -> &[Edit]
        ensures { result.now ≡ self.now.history.journal }
    {
        self.history.journal()
    }

    /// Makes an edit. Refused as `verdict` says, else with `NoMemory`, and nothing has changed then.
    pub fn apply(&mut self, edit: Edit) -> Result<Receipt, Refusal>
        ensures answer { Answers self.old.history edit result self.new.history }
        ensures limits { IsLegalInLimits self.new.history }
        ensures refresh { SameRefresh self.old self.new }
        ensures remembers { Remembers self.old self.new }
    {
        match self.history.verdict(&edit) {
            Some(refusal) => Err(refusal),
            None => self.make(edit),
        }
    }

    /// Makes an edit that the verdict allows, so that `NoMemory` is its only refusal. Room for summaries, claims, element and journal is made
    /// before anything changes.
    // Inlined with all that it calls: who knows the edit's kind is left with what that kind needs.
    #[inline(always)]
    pub fn make(&mut self, edit: Edit) -> Result<Receipt, Refusal>
        requires { verdict_of self.old.history.limits self.old.history.journal edit ≡ None }
        ensures answer { Answers self.old.history edit result self.new.history }
        ensures limits { IsLegalInLimits self.new.history }
        ensures refresh { SameRefresh self.old self.new }
        ensures remembers { Remembers self.old self.new }
    {
        let touched = touched_indices(&edit, self.table.size());
        make_room(&mut self.table, &mut self.claims, touched)?;
        let receipt = self.history.make(edit)?;
        follow(
            &mut self.table,
            &mut self.claims,
            touched,
            self.history.edit(),
            self.history.size(),
        );
        Ok(receipt)
    }

    /// Overwrites the element at an index, as `apply` does, and completes that at once. Refused as it is.
    // Inlined: its rows are there already, and so it takes no more than a write needs.
    #[inline(always)]
    pub fn write_through(&mut self, index: u32, value: i64) -> Result<Receipt, Refusal>
        ensures answer { Answers self.old.history (AnEdit.Write index value) result self.new.history }
        ensures limits { IsLegalInLimits self.new.history }
        ensures refresh { SameRefresh self.old self.new }
        ensures remembers { Remembers self.old self.new }
    {
        let size = self.table.size();
        match self.history.write_through(index, value) {
            Err(refusal) => Err(refusal),
            Ok(receipt) => {
                follow(
                    &mut self.table,
                    &mut self.claims,
                    Touched::One(index),
                    self.history.edit(),
                    size,
                );
                Ok(receipt)
            }
        }
    }

    /// Pushes values in order, all of them or none, and returns the number of the last edit. Refused as the first push that would be refused,
    /// then with `NoMemory`: nothing has changed then. Room for summaries, claims, elements and journal is made before anything changes.
    pub fn push_all(&mut self, values: &[i64]) -> Result<u32, Refusal>
        ensures answer { AnswersAll self.old.history values.now result self.new.history }
        ensures limits { IsLegalInLimits self.new.history }
        ensures refresh { SameRefresh self.old self.new }
        ensures remembers { Remembers self.old self.new }
    {
        if let Some(refusal) = self.history.verdict_of_pushes(values) {
            return Err(refusal);
        }
        if values.is_empty() {
            return Ok(self.history.edit());
        }
        let first = self.history.size();
        let edit = self.history.edit();
        let count = values.len() as u32;
        make_room(
            &mut self.table,
            &mut self.claims,
            Touched::One(first + count - 1),
        )?;
        let last = self.history.push_all(values)?;
        follow_pushes(&mut self.table, &mut self.claims, first, edit, count);
        Ok(last)
    }

    /// Writes values at indices in order, all of them or none, and returns the number of the last edit. An index may come twice: the later value
    /// stays. Refused as the first write that would be refused, with `Worn` or `OutOfRange`, then with `NoMemory`: nothing has changed then.
    pub fn write_all(&mut self, indices: &[u32], values: &[i64]) -> Result<u32, Refusal>
        requires paired { length indices.now ≡ length values.now }
        ensures answer { AnswersEdits self.old.history (writes_at indices.now values.now) result self.new.history }
        ensures limits { IsLegalInLimits self.new.history }
        ensures refresh { SameRefresh self.old self.new }
        ensures remembers { Remembers self.old self.new }
    {
        let edit = self.history.edit();
        let last = self.history.write_all(indices, values)?;
        follow_writes(&mut self.table, &mut self.claims, indices, edit);
        Ok(last)
    }

    /// Why an edit would be refused, except for memory; none if it would be accepted.
    #[inline(always)]
    pub fn verdict(&self, edit: &Edit) -> Option<Refusal>
        ensures { result ≡ verdict_of self.now.history.limits self.now.history.journal edit.now }
    {
        self.history.verdict(edit)
    }

    /// Why pushes, one after another, would be refused, except for memory; none if all would be accepted.
    pub fn verdict_of_pushes(&self, values: &[i64]) -> Option<Refusal>
        ensures { result ≡ verdict_of_pushes self.now.history values.now }
    {
        self.history.verdict_of_pushes(values)
    }

    /// Why writes at indices, one after another, would be refused, except for memory; none if all would be accepted.
    pub fn verdict_of_writes(&self, indices: &[u32]) -> Option<Refusal>
        ensures { (xs : List ℤ) → length indices.now ≡ length xs → result ≡ verdict_of_edits self.now.history (writes_at indices.now xs) }
    {
        self.history.verdict_of_writes(indices)
    }

    /// Completes what is pending. Changes no answer.
    pub fn settle(&mut self)
        ensures same { SameLive self.old self.new }
        ensures remembers { Remembers self.old self.new }
    {
        self.history.settle();
    }

    /// The element at an index. Refused with `OutOfRange`.
    pub fn get(&self, i: u32) -> Result<i64, Refusal>
        ensures { result ≡ element_at self.now.history.journal i }
    {
        self.history.get(i)
    }

    /// How many elements there are.
    pub fn size(&self) -> u32
        ensures { result ≡ length (list_of self.now.history.journal) }
    {
        self.history.size()
    }

    /// How many elements fit into the open buckets.
    pub fn capacity(&self) -> u32
        ensures { result ≡ capacity_after self.now.history.journal }
    {
        self.history.capacity()
    }

    /// The number of the last accepted edit, 0 before any.
    pub fn edit(&self) -> u32
        ensures { result ≡ length self.now.history.journal }
    {
        self.history.edit()
    }

    /// The body by which it reduces.
    #[inline(always)]
    pub fn body(&self) -> B
        ensures { result ≡ self.now.body }
    {
        self.body
    }

    /// States the invariant of every vector for a caller who doesn't see it: it is a live one. Computes nothing.
    #[inline(always)]
    pub fn keeps(&self)
        ensures { IsLive (B.operations self.now.body) self.now }
    {
        let _ = &self.body;
    }
}
