//! Jobs of blocks, many together. Each is narrow: it carries eight elements, and no room for summaries.
ghost use Rattle.std.specs.Prelude.{◌≡◌, ◌^◌, length, IfOk, IfErr};
ghost use Rattle.lv_bodies.specs.Body.{fold_of};

use lv_bodies::{Body, fold_slice};
use lv_geometry::{Node, Refusal};
use std::alloc::{AllocError, Global};
use std::marker::Model;

/// A block's elements, copied, so that its summary may be computed elsewhere, with the number of the edit that touched it last then.
pub struct BlockJob<B> {
    pub number: u32,
    pub version: u32,
    pub elements: [i64; 8],
    pub body: B,
}

impl<B: Copy> Clone for BlockJob<B> {
    ghost use Rattle.std.specs.Prelude.{◌≡◌, ⊤};

    ghost is_clone = { λ x y. y ≡ x };

    ghost is_infallible = { λ _. ⊤ };

    fn clone(&self) -> Result<BlockJob<B>, AllocError> {
        Ok(*self)
    }
}

impl<B: Copy> Copy for BlockJob<B> {}

/// The outcome of a block's job: the job, and the fold of its elements. Only `of` makes one, so that it can hold no other summary.
pub struct BlockOutcomeOf<B: Body<S = S>, S> {
    job: BlockJob<B>,
    summary: S,
}

/// An outcome by a body.
pub type BlockOutcome<B> = BlockOutcomeOf<B, <B as Body>::S>;

impl<B: Body<S = S>, S> Model for BlockOutcomeOf<B, S> {
    ghost use Rattle.std.specs.Prelude.{◌≡◌};
    ghost use Rattle.std.proofs.Common.{ap, sym};
    ghost use Rattle.lv_bodies.specs.Body.{fold_of};
    ghost use Rattle.lv_live.specs.declared.batches.BlockJob.{BlockJob};

    ghost Value = { BlockJob B };

    ghost view = { λ a. a.job };

    ghost invariant = { λ a. a.summary ≡ fold_of (B.operations a.job.body) a.job.elements };

    ghost inverse = { λ d. record { job = d; summary = fold_of (B.operations d.body) d.elements } };

    ghost inverse_ok = { λ a h. ap (λ s. record a { summary = s }) (sym h) };
}

impl<B: Body<S = S>, S: Copy> Clone for BlockOutcomeOf<B, S> {
    ghost use Rattle.std.specs.Prelude.{◌≡◌, ⊤};

    ghost is_clone = { λ x y. y ≡ x };

    ghost is_infallible = { λ _. ⊤ };

    fn clone(&self) -> Result<BlockOutcomeOf<B, S>, AllocError> {
        Ok(*self)
    }
}

impl<B: Body<S = S>, S: Copy> Copy for BlockOutcomeOf<B, S> {}

impl<B: Body<S = S>, S: Copy> BlockOutcomeOf<B, S> {
    /// The outcome of a block's job.
    pub fn of(job: &BlockJob<B>) -> BlockOutcomeOf<B, S>
        ensures { result ≡ job.now }
    {
        let summary = fold_slice(&job.body, &job.elements);
        BlockOutcomeOf { job: *job, summary }
    }

    /// The job that it is of.
    #[inline(always)]
    pub fn job(&self) -> &BlockJob<B>
        ensures { result.now ≡ self.now }
    {
        &self.job
    }

    /// The fold of the elements.
    #[inline(always)]
    pub fn summary(&self) -> S
        ensures { result ≡ fold_of (B.operations self.now.body) self.now.elements }
    {
        self.summary
    }
}

/// The block of a number.
#[inline(always)]
pub fn block_at(number: u32) -> Node
    ensures { result ≡ record { level = 1; number = number } }
{
    Node { level: 1, number }
}

/// Jobs of blocks, in the order of their numbers.
#[derive(Drop)]
pub struct Batch<B> {
    pub(crate) jobs: Vec<BlockJob<B>>,
}

impl<B> Model for Batch<B> {
    ghost use Rattle.std.specs.Prelude.{List};
    ghost use Rattle.lv_live.specs.declared.batches.BlockJob.{BlockJob};

    ghost Value = { List (BlockJob B) };

    ghost view = { λ a. a.jobs.items };
}

impl<B: Body> Batch<B> {
    /// How many jobs there are.
    pub fn len(&self) -> usize
        ensures { result ≡ length self.now }
    {
        self.jobs.len()
    }

    /// Computes all. The outcomes are of the same jobs, in order. Refused with `NoMemory`.
    pub fn run(&self, alloc: Global) -> Result<BatchOutcome<B>, Refusal>
        ensures ok { IfOk result (λ outcomes. outcomes ≡ self.now) }
        ensures err { IfErr result (λ refusal. refusal ≡ Refusal.NoMemory) }
    {
        match outcomes_of(alloc, &self.jobs) {
            Err(AllocError) => Err(Refusal::NoMemory),
            Ok(outcomes) => Ok(BatchOutcomeOf { outcomes }),
        }
    }
}

// The outcome of each job, in order, with room made at once.
fn outcomes_of<B: Body>(
    alloc: Global,
    jobs: &[BlockJob<B>],
) -> Result<Vec<BlockOutcome<B>>, AllocError>
    ensures { IfOk result (λ outcomes. outcomes.items ≡ jobs.now) }
{
    let mut outcomes = Vec::with_capacity(alloc, jobs.len())?;
    for job in jobs {
        outcomes.push(BlockOutcomeOf::of(job))?;
    }
    Ok(outcomes)
}

/// The outcomes of jobs of blocks, in the same order.
#[derive(Drop)]
pub struct BatchOutcomeOf<B: Body<S = S>, S> {
    pub(crate) outcomes: Vec<BlockOutcomeOf<B, S>>,
}

/// Outcomes by a body.
pub type BatchOutcome<B> = BatchOutcomeOf<B, <B as Body>::S>;

impl<B: Body<S = S>, S> Model for BatchOutcomeOf<B, S> {
    ghost use Rattle.std.specs.Prelude.{List};
    ghost use Rattle.lv_live.specs.declared.batches.BlockJob.{BlockJob};

    ghost Value = { List (BlockJob B) };

    ghost view = { λ a. a.outcomes.items };
}

/// What became of outcomes: how many were installed, how many were held already, how many were stale, and how many are not of this
/// vector.
#[derive(Clone, Copy)]
pub struct Batched {
    pub installed: usize,
    pub held: usize,
    pub stale: usize,
    pub strangers: usize,
}
