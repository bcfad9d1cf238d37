//! Batches of a live vector: jobs of the blocks of a range, and what becomes of their outcomes.
ghost use Rattle.std.specs.Prelude.{◌≡◌, ◌↔◌, ◌+◌, ◌-◌, ◌/◌, ◌^◌, ◌<◌, ◌++◌, IsTrue, length, min, IfOk, IfErr, OnOk};
ghost use Rattle.lv_bodies.specs.Body.{fold_of};
ghost use Rattle.lv_edits.specs.History.{list_of};
ghost use Rattle.lv_refresh.specs.declared.contents.Contents.TheVariants.{Elements};
ghost use Rattle.lv_refresh.specs.Delivery.{delivery_of};
ghost use Rattle.lv_refresh.specs.Honesty.{Vouched};
ghost use Rattle.lv_refresh.specs.Inner.{node_at};
ghost use Rattle.lv_live.specs.Batches.{DeliversEach, DeliversOne, all_told, due_at, due_jobs};
ghost use Rattle.lv_live.specs.State.{HasDelivery, recorded};

use crate::batches::{Batch, BatchOutcome, Batched, BlockJob, BlockOutcome, block_at};
use crate::live::Live;
use crate::vouching::have_elements;
use lv_bodies::Body;
use lv_geometry::Refusal;
use lv_summary::Accepted;
use std::alloc::{AllocError, Global};

impl<B: Body> Live<B> {
    /// Copies each block that is whole and not fresh, of at most so many from one on, so that its summary may be computed elsewhere. No node is
    /// claimed by it: if a range is copied twice, its jobs are handed out twice. Refused with `NoMemory`; the room for all is made at once.
    pub fn copy_blocks(&self, alloc: Global, first: u32, blocks: u32) -> Result<Batch<B>, Refusal>
        ensures ok { IfOk result (λ batch. batch ≡ due_jobs self.now.body (recorded self.now) first (min blocks (length (list_of self.now.history.journal) / 8 - first))) }
        ensures err { IfErr result (λ refusal. refusal ≡ Refusal.NoMemory) }
    {
        let count = blocks.min((self.history.size() / 8).saturating_sub(first));
        match self.due_blocks(alloc, first, count) {
            Err(AllocError) => Err(Refusal::NoMemory),
            Ok(jobs) => Ok(Batch { jobs }),
        }
    }

    // The jobs of the blocks that want one, of so many from one on.
    fn due_blocks(
        &self,
        alloc: Global,
        first: u32,
        count: u32,
    ) -> Result<Vec<BlockJob<B>>, AllocError>
        requires { first + count < 2 ^ 32 }
        ensures { IfOk result (λ jobs. jobs.items ≡ due_jobs self.now.body (recorded self.now) first count) }
    {
        let mut jobs = Vec::with_capacity(alloc, count as usize)?;
        for k in 0..count {
            self.push_due(&mut jobs, first + k)?;
        }
        Ok(jobs)
    }

    // Adds the job of a block, if it is whole and not fresh.
    #[inline(always)]
    fn push_due(&self, jobs: &mut Vec<BlockJob<B>>, number: u32) -> Result<(), AllocError>
        ensures { OnOk result (jobs.new.items ≡ jobs.old.items ++ due_at self.now.body (recorded self.now) number) }
    {
        let Some(version) = self.table.due(block_at(number)) else {
            return Ok(());
        };
        jobs.push(BlockJob {
            number,
            version,
            elements: self.history.block(number),
            body: self.body,
        })?;
        Ok(())
    }

    /// Takes each outcome in, in order, as `accept` would if `vet` says yes; one of another vector changes nothing. Takes no memory.
    pub fn accept_batch(&mut self, outcomes: &BatchOutcome<B>) -> Batched
        ensures delivers { DeliversEach (B.operations self.old.body) (λ body. B.meaning self.old.body ≡ B.meaning body) outcomes.now self.old self.new result }
        ensures body { self.new.body ≡ self.old.body }
        ensures history { self.new.history ≡ self.old.history }
    {
        self.accept_each(&outcomes.outcomes)
    }

    // Takes each of the outcomes in, in order, as `accept_batch` says.
    fn accept_each(&mut self, outcomes: &[BlockOutcome<B>]) -> Batched
        ensures delivers { DeliversEach (B.operations self.old.body) (λ body. B.meaning self.old.body ≡ B.meaning body) outcomes.now self.old self.new result }
        ensures body { self.new.body ≡ self.old.body }
        ensures history { self.new.history ≡ self.old.history }
    {
        let mut told = Batched {
            installed: 0,
            held: 0,
            stale: 0,
            strangers: 0,
        };
        for outcome in outcomes {
            told = self.accept_next(outcome, told);
        }
        told
    }

    // Delivers an outcome if it is vouched for, and counts what became of it.
    #[inline(always)]
    fn accept_next(&mut self, outcome: &BlockOutcome<B>, told: Batched) -> Batched
        requires { all_told told < 2 ^ 64 - 1 }
        ensures { DeliversOne (B.operations self.old.body) (λ body. B.meaning self.old.body ≡ B.meaning body) outcome.now self.old self.new told result }
    {
        let mut told = told;
        if !self.vet_block(outcome) {
            told.strangers += 1;
            return told;
        }
        match self.accept_block(outcome) {
            Accepted::Installed => told.installed += 1,
            Accepted::Held => told.held += 1,
            Accepted::Stale { .. } => told.stale += 1,
        }
        told
    }

    // Whether an outcome may be accepted: its block isn't whole, or was touched by another edit last, or has these elements now while the
    // outcome's body is the vector's. Elements are compared here, so that it doesn't matter where the outcome comes from.
    #[inline(always)]
    fn vet_block(&self, outcome: &BlockOutcome<B>) -> bool
        ensures { IsTrue result ↔ Vouched (B.operations self.now.body) (recorded self.now)
            (B.meaning self.now.body ≡ B.meaning outcome.now.body) (node_at 1 outcome.now.number) outcome.now.version (Elements outcome.now.elements) }
    {
        let job = outcome.job();
        let block = block_at(job.number);
        if !self.table.whole(block) || self.table.touched(block) != job.version {
            return true;
        }
        self.body.same(&job.body) && have_elements(&self.history, block, &job.elements)
    }

    // Delivers an outcome: it is stale, or held already, or its summary is installed.
    #[inline(always)]
    fn accept_block(&mut self, outcome: &BlockOutcome<B>) -> Accepted
        requires { Vouched (B.operations self.old.body) (recorded self.old)
            (B.meaning self.old.body ≡ B.meaning outcome.now.body) (node_at 1 outcome.now.number) outcome.now.version (Elements outcome.now.elements) }
        ensures accepted { result ≡ delivery_of (recorded self.old) (node_at 1 outcome.now.number) outcome.now.version }
        ensures delivered { HasDelivery self.old self.new (node_at 1 outcome.now.number) outcome.now.version result }
    {
        let job = outcome.job();
        let block = block_at(job.number);
        let accepted = self.table.install(block, job.version, outcome.summary());
        if let Accepted::Installed = accepted {
            self.claims.hint_parent(block);
        }
        accepted
    }
}
