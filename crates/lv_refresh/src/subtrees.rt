//! Jobs of whole subtrees: a node of level 4 and all nodes below it, 4,096 elements and 585 summaries.
ghost use Rattle.std.specs.Prelude.{◌≡◌, ℕ, ◌+◌, ◌*◌, ◌/◌, ◌^◌, ◌≤◌, Some, None, option_map, [], All, fold, length, slice_range, vec_len, vec_capacity, IfOk, IfErr, IfSome, IfNone};
ghost use Rattle.lv_bodies.specs.Body.{CanFold};
ghost use Rattle.lv_refresh.specs.Subtrees.{AreFolds, IsInside, KeepsSubtree};

use lv_bodies::{Body, fold_slice};
use lv_summary::Summaries;
use std::alloc::{AllocError, Global};
use std::marker::Model;

/// How many blocks a subtree has.
pub const SUBTREE_BLOCKS: u32 = 512;

/// How many elements.
pub const SUBTREE_ELEMENTS: usize = 4096;

/// How many summaries.
pub const SUBTREE_SUMMARIES: u32 = 585;

/// The elements of a subtree, copied, so that all its summaries may be computed elsewhere: plain values, which hold nothing of the vector.
#[derive(Drop)]
pub struct SubtreeJob<B> {
    number: u32,
    elements: Vec<i64>,
    body: B,
}

impl<B> Model for SubtreeJob<B> {
    ghost use Rattle.lv_refresh.specs.Subtrees.{Copied, IsCopied};

    ghost Value = { Copied B };

    ghost view = { λ a. record { number = a.number; elements = a.elements.items; body = a.body } };

    ghost invariant = { λ a. IsCopied record { number = a.number; elements = a.elements.items; body = a.body } };
}

/// What a subtree's job gave: all that it carried, and the folds of it. Only `SubtreeJob::run` makes one.
#[derive(Drop)]
pub struct SubtreeOutcomeOf<B: Body<S = S>, S> {
    job: SubtreeJob<B>,
    is_spent: bool,
    blocks: Vec<S>,
    level_2: Vec<S>,
    level_3: Vec<S>,
    level_4: Vec<S>,
}

/// An outcome by a body.
pub type SubtreeOutcome<B> = SubtreeOutcomeOf<B, <B as Body>::S>;

impl<B: Body<S = S>, S> Model for SubtreeOutcomeOf<B, S> {
    ghost use Rattle.std.specs.Prelude.{◌≡◌, ◌*◌, false, Option};
    ghost use Rattle.lv_refresh.specs.Subtrees.{AreFolds, Copied, IsCopied, unless_spent};

    ghost Value = { Option (Copied B) };

    ghost view = { λ a. unless_spent a.is_spent a.job };

    ghost invariant = { λ a. a.is_spent ≡ false → IsCopied a.job
        × AreFolds (B.operations a.job.body) a.job.elements 8 a.blocks.items
        × AreFolds (B.operations a.job.body) a.job.elements 64 a.level_2.items
        × AreFolds (B.operations a.job.body) a.job.elements 512 a.level_3.items
        × AreFolds (B.operations a.job.body) a.job.elements 4096 a.level_4.items };
}

impl<B: Body> SubtreeJob<B> {
    /// The job of a subtree.
    pub fn new(number: u32, elements: Vec<i64>, body: B) -> SubtreeJob<B>
        requires { length elements.items ≡ 4096 }
        ensures { result ≡ record { number = number; elements = elements.items; body = body } }
    {
        SubtreeJob {
            number,
            elements,
            body,
        }
    }

    /// Computes all summaries. The outcome is of the same elements. If memory runs out, the job is given back.
    pub fn run(self, alloc: Global) -> Result<SubtreeOutcome<B>, SubtreeJob<B>>
        ensures ok { IfOk result (λ outcome. outcome ≡ Some self) }
        ensures err { IfErr result (λ job. job ≡ self) }
    {
        match levels_of(alloc, &self.body, &self.elements) {
            Err(AllocError) => Err(self),
            Ok((blocks, level_2, level_3, level_4)) => Ok(SubtreeOutcomeOf {
                job: self,
                is_spent: false,
                blocks,
                level_2,
                level_3,
                level_4,
            }),
        }
    }
}

impl<B: Body> SubtreeJob<B> {
    /// The number of its node of level 4: the elements are those from index 4096 * number on.
    pub fn number(&self) -> u32
        ensures { result ≡ self.now.number }
    {
        self.number
    }

    /// The elements.
    pub fn elements(&self) -> &[i64]
        ensures elements { result.now ≡ self.now.elements }
        ensures many { length result.now ≡ 4096 }
    {
        &self.elements
    }

    /// The body to fold them by.
    pub fn body(&self) -> &B
        ensures { result.now ≡ self.now.body }
    {
        &self.body
    }
}

impl<B: Body<S = S>, S: Copy> SubtreeOutcomeOf<B, S> {
    /// The job that it is of; none once it was installed.
    pub fn job(&self) -> Option<&SubtreeJob<B>>
        ensures { self.now ≡ option_map (λ job. job.now) result }
    {
        if self.is_spent { None } else { Some(&self.job) }
    }

    /// Keeps each summary of the subtree, with the number of the edit that touched its node last; the outcome is then spent. The summaries of
    /// blocks are not copied: the table takes their memory, and that of what was kept comes here, so that it can be freed where nobody waits for
    /// it. An outcome that is spent already changes nothing. Takes no memory.
    pub fn install(&mut self, table: &mut Summaries<S>)
        requires { IfSome self.old (λ copied. IsInside copied.number table.old.size) }
        ensures keeps { IfSome self.old (λ copied. KeepsSubtree (B.operations copied.body) table.old table.new copied) }
        ensures spent { self.new ≡ None }
        ensures same { IfNone self.old (table.new ≡ table.old) }
    {
        if self.is_spent {
            return;
        }
        // The elements are few enough for their nodes to have numbers of 32 bits.
        let _size = table.size();
        let number = self.job.number();
        table.adopt_blocks(SUBTREE_BLOCKS * number, &mut self.blocks);
        table.keep_run(2, 64 * number, &self.level_2);
        table.keep_run(3, 8 * number, &self.level_3);
        table.keep_run(4, number, &self.level_4);
        self.is_spent = true;
    }
}

// The summaries of the four levels of a subtree: of its blocks from its elements, and of each level above from those of the level below.
fn levels_of<B: Body>(
    alloc: Global,
    body: &B,
    elements: &[i64],
) -> Result<(Vec<B::S>, Vec<B::S>, Vec<B::S>, Vec<B::S>), AllocError>
    requires { length elements.now ≡ 4096 }
    ensures blocks { IfOk result (λ levels. AreFolds (B.operations body.now) elements.now 8 levels.0.items) }
    ensures level_2 { IfOk result (λ levels. AreFolds (B.operations body.now) elements.now 64 levels.1.items) }
    ensures level_3 { IfOk result (λ levels. AreFolds (B.operations body.now) elements.now 512 levels.2.items) }
    ensures level_4 { IfOk result (λ levels. AreFolds (B.operations body.now) elements.now 4096 levels.3.items) }
{
    let blocks = folds_of(alloc, body, elements)?;
    let level_2 = joins_of(alloc, body, elements, 8, &blocks)?;
    let level_3 = joins_of(alloc, body, elements, 64, &level_2)?;
    let level_4 = joins_of(alloc, body, elements, 512, &level_3)?;
    Ok((blocks, level_2, level_3, level_4))
}

// The fold of each eight elements, with room made at once.
fn folds_of<B: Body>(alloc: Global, body: &B, elements: &[i64]) -> Result<Vec<B::S>, AllocError>
    requires { length elements.now ≡ 4096 }
    ensures folds { IfOk result (λ folds. AreFolds (B.operations body.now) elements.now 8 folds.items) }
    ensures can_fold { IfOk result (λ folds. CanFold elements.now) }
{
    let mut folds = Vec::with_capacity(alloc, SUBTREE_BLOCKS as usize)?;
    push_folds(body, elements, &mut folds);
    Ok(folds)
}

// Puts the fold of each eight elements into an empty vector that has room for all.
fn push_folds<B: Body>(body: &B, elements: &[i64], folds: &mut Vec<B::S>)
    requires many { length elements.now ≡ 4096 }
    requires empty { folds.old.items ≡ [] }
    requires room { vec_len folds.old + 512 ≤ vec_capacity folds.old }
    ensures folds { AreFolds (B.operations body.now) elements.now 8 folds.new.items }
    ensures can_fold { CanFold elements.now }
{
    for k in 0..SUBTREE_BLOCKS as usize {
        let block = eight_from(elements, 8 * k);
        folds.push_reserved(fold_slice(body, block));
    }
}

// The join of each eight summaries, with room made at once. The elements, and of how many of them each summary is, only say what they
// are.
fn joins_of<B: Body>(
    alloc: Global,
    body: &B,
    _elements: &[i64],
    _each: usize,
    summaries: &[B::S],
) -> Result<Vec<B::S>, AllocError>
    requires can_fold { CanFold _elements.now }
    requires folds { AreFolds (B.operations body.now) _elements.now _each summaries.now }
    requires eights { 8 * (length summaries.now / 8) ≡ length summaries.now }
    ensures { IfOk result (λ joins. AreFolds (B.operations body.now) _elements.now (8 * _each) joins.items) }
{
    let mut joins = Vec::with_capacity(alloc, summaries.len() / 8)?;
    push_joins(body, _elements, _each, summaries, &mut joins);
    Ok(joins)
}

// Puts the join of each eight summaries into an empty vector that has room for all.
fn push_joins<B: Body>(
    body: &B,
    _elements: &[i64],
    _each: usize,
    summaries: &[B::S],
    joins: &mut Vec<B::S>,
)
    requires can_fold { CanFold _elements.now }
    requires folds { AreFolds (B.operations body.now) _elements.now _each summaries.now }
    requires eights { 8 * (length summaries.now / 8) ≡ length summaries.now }
    requires empty { joins.old.items ≡ [] }
    requires room { vec_len joins.old + length summaries.now / 8 ≤ vec_capacity joins.old }
    ensures { AreFolds (B.operations body.now) _elements.now (8 * _each) joins.new.items }
{
    for k in 0..summaries.len() / 8 {
        let eight = eight_from(summaries, 8 * k);
        joins.push_reserved(join_in_order(body, eight));
    }
}

// Summaries joined from left to right.
#[inline(always)]
fn join_in_order<B: Body>(body: &B, summaries: &[B::S]) -> B::S
    requires can_join { (count : ℕ) × (length summaries.now * count ≤ 2 ^ 20) × All (λ s. B.is_within body.now s count) summaries.now }
    ensures { result ≡ fold (B.operations body.now).join (B.operations body.now).identity summaries.now }
{
    let mut sum = body.identity();
    for summary in summaries {
        sum = body.combine(sum, *summary);
    }
    sum
}

// Eight neighbours, by reference.
#[inline(always)]
fn eight_from<T: Copy>(cells: &[T], from: usize) -> &[T]
    requires { from + 8 ≤ length cells.now }
    ensures { result.now ≡ slice_range cells.now from (from + 8) }
{
    &cells[from..from + 8]
}
