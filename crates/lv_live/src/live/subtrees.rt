//! Subtrees of a live vector: their elements are copied, and their summaries taken in.
ghost use Rattle.std.specs.Prelude.{◌≡◌, ◌↔◌, IsTrue, true, false, None, length, IfOk, IfErr, IfSome, IfNone};
ghost use Rattle.lv_edits.specs.History.{list_of};
ghost use Rattle.lv_edits.specs.Touch.{elements_under, is_whole};
ghost use Rattle.lv_refresh.specs.Inner.{node_at};
ghost use Rattle.lv_refresh.specs.Subtrees.{IsInside};
ghost use Rattle.lv_live.specs.State.{Remembers, recorded};
ghost use Rattle.lv_live.specs.Subtrees.{CanTake, HasSubtree, SubtreeStands, Takes, subtree_job, wants_subtree};

use crate::batches::block_at;
use crate::live::Live;
use crate::vouching::has_elements;
use lv_bodies::Body;
use lv_edits::Edits;
use lv_geometry::{Node, Refusal};
use lv_refresh::{SUBTREE_BLOCKS, SUBTREE_ELEMENTS, SubtreeJob, SubtreeOutcome};
use std::alloc::{AllocError, Global};

impl<B: Body> Live<B> {
    /// Copies the elements of a node of level 4, so that all summaries of it and of the nodes below it may be computed elsewhere, if it is whole,
    /// and neither its first block nor its last is fresh. No node is claimed by it. Refused with `NoMemory`.
    pub fn copy_subtree(&self, alloc: Global, number: u32) -> Result<Option<SubtreeJob<B>>, Refusal>
        ensures ok { IfOk result (λ job. job ≡ subtree_job self.now.body (recorded self.now) number) }
        ensures err { IfErr result (λ refusal. refusal ≡ Refusal.NoMemory) }
    {
        if !self.wants_subtree(number) {
            return Ok(None);
        }
        match elements_of(&self.history, alloc, number) {
            Err(AllocError) => Err(Refusal::NoMemory),
            Ok(elements) => Ok(Some(SubtreeJob::new(number, elements, self.body))),
        }
    }

    // Whether a subtree is worth a job.
    fn wants_subtree(&self, number: u32) -> bool
        ensures { result ≡ wants_subtree (recorded self.now) number }
    {
        if !self.has_subtree(number) {
            return false;
        }
        // The elements are few enough for their indices to be of 32 bits.
        let _size = self.history.size();
        let first = SUBTREE_BLOCKS * number;
        !self.table.fresh(block_at(first))
            && !self.table.fresh(block_at(first + SUBTREE_BLOCKS - 1))
    }

    // Whether a node of level 4 is whole.
    fn has_subtree(&self, number: u32) -> bool
        ensures { result ≡ is_whole self.now.history.journal (node_at 4 number) }
    {
        self.table.whole(Node { level: 4, number })
    }

    /// Keeps all summaries that a subtree's job gave, each with the number of the edit that touched its node last, if what the job carried is
    /// still current: then it returns true, and the outcome is spent. Else it returns false, and nothing has changed. An outcome of another
    /// vector may be given: its elements are compared. Takes no memory.
    pub fn accept_subtree(&mut self, outcome: &mut SubtreeOutcome<B>) -> bool
        ensures answer { IsTrue result ↔ CanTake (λ body. B.meaning self.old.body ≡ B.meaning body) self.old.history.journal outcome.old }
        ensures kept { result ≡ true → IfSome outcome.old (λ copied. HasSubtree self.old self.new copied.number) }
        ensures spent { result ≡ true → outcome.new ≡ None }
        ensures refused { result ≡ false → (self.new ≡ self.old) × (outcome.new ≡ outcome.old) }
        ensures remembers { Remembers self.old self.new }
    {
        let Some(number) = self.taken_number(outcome) else {
            return false;
        };
        outcome.install(&mut self.table);
        self.claims.pass_subtree(number);
        true
    }

    // The number of the subtree of an outcome, if that may be taken in.
    fn taken_number(&self, outcome: &SubtreeOutcome<B>) -> Option<u32>
        ensures some { IfSome result (λ number. Takes (λ body. B.meaning self.now.body ≡ B.meaning body) self.now.history.journal outcome.now number) }
        ensures none { IfNone result (¬ CanTake (λ body. B.meaning self.now.body ≡ B.meaning body) self.now.history.journal outcome.now) }
    {
        let Some(job) = outcome.job() else {
            return None;
        };
        if self.subtree_stands(job) {
            Some(job.number())
        } else {
            None
        }
    }

    // Whether what a subtree's job carried is current.
    fn subtree_stands(&self, job: &SubtreeJob<B>) -> bool
        ensures { IsTrue result ↔ SubtreeStands (λ body. B.meaning self.now.body ≡ B.meaning body) self.now.history.journal job.now }
    {
        self.has_subtree(job.number())
            && self.body.same(job.body())
            && has_elements(&self.history, job.number(), job.elements())
    }
}

// The elements of a whole node of level 4, copied, with room made at once.
fn elements_of(history: &Edits, alloc: Global, number: u32) -> Result<Vec<i64>, AllocError>
    requires { IsInside number (length (list_of history.now.journal)) }
    ensures elements { IfOk result (λ elements. elements.items ≡ elements_under history.now.journal (node_at 4 number)) }
    ensures many { IfOk result (λ elements. length elements.items ≡ 4096) }
{
    // The elements are few enough for their indices to be of 32 bits.
    let _size = history.size();
    let first = SUBTREE_BLOCKS * number;
    let mut elements = Vec::with_capacity(alloc, SUBTREE_ELEMENTS)?;
    for k in 0..SUBTREE_BLOCKS {
        elements.extend_from_slice(&history.block(first + k))?;
    }
    Ok(elements)
}
