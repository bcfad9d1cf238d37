//! Calls under way, by the step that comes next.
ghost use Rattle.std.specs.Prelude.{◌≡◌, ⊤};

use crate::outcomes::Said;
use lv_edits::Edit;
use std::alloc::AllocError;

/// The goal of a call. Its updates have elements of 16 bits.
#[derive(Clone, Copy)]
pub enum Goal {
    Edit(Edit),
    Get(u32),
    Size,
    Reduce { lo: u32, hi: u32 },
    Refresh(u32),
}

/// A reduction under way: the aggregate of the elements from `lo` up to `at`, and what was read for it.
#[derive(Copy)]
pub struct Walk<S> {
    pub lo: u32,
    pub at: u32,
    pub hi: u32,
    pub sum: S,
    pub cells: u32,
    pub summaries: u32,
}

/// The parts of a block's aggregate, of a version. `number` is the next one.
#[derive(Clone, Copy)]
pub struct Parts {
    pub version: u32,
    pub number: u32,
    pub values: [u32; 4],
}

/// A refresh under way: the aggregate of the block's elements before index `at`, and the block's mark.
#[derive(Copy)]
pub struct Keep<S> {
    pub block: u32,
    pub version: u32,
    pub at: u32,
    pub sum: S,
}

/// A call under way, named by the step that comes next, with what its steps have loaded so far.
#[derive(Copy)]
pub enum Task<S> {
    /// Loads the descriptor.
    Look(Goal),
    /// Completes the cell of the write that is pending.
    CompleteCell(Goal),
    /// Completes the mark of that cell's block.
    CompleteMark(Goal),
    /// Loads the cell that a pop drops or a write overwrites.
    ReadBefore { edit: Edit, index: u32 },
    /// Compare-and-swap of the descriptor. `before` is the element that the update drops or overwrites.
    Exchange { edit: Edit, before: i64 },
    /// Loads the cell that is asked for.
    ReadCell(u32),
    /// Loads the cell at the walk's position.
    SumCell(Walk<S>),
    /// Loads the mark of the block at the walk's position.
    SumMark(Walk<S>),
    /// Loads a part of that block. Those before it were loaded.
    SumPart { walk: Walk<S>, parts: Parts },
    /// Loads the mark of the block that is refreshed.
    KeepMark(u32),
    /// Loads a cell of that block.
    KeepCell(Keep<S>),
    /// Raises a part of that block to its new value, if that is greater.
    KeepPart { block: u32, parts: Parts },
}

/// How a call proceeds by a step: it continues, or has ended.
#[derive(Copy)]
pub enum Advance<S> {
    Goes(Task<S>),
    Ends(Said<S>),
}

impl<S: Copy> Clone for Walk<S> {
    ghost is_clone = { λ x y. y ≡ x };

    ghost is_infallible = { λ _. ⊤ };

    fn clone(&self) -> Result<Walk<S>, AllocError> {
        Ok(*self)
    }
}

impl<S: Copy> Clone for Keep<S> {
    ghost is_clone = { λ x y. y ≡ x };

    ghost is_infallible = { λ _. ⊤ };

    fn clone(&self) -> Result<Keep<S>, AllocError> {
        Ok(*self)
    }
}

impl<S: Copy> Clone for Task<S> {
    ghost is_clone = { λ x y. y ≡ x };

    ghost is_infallible = { λ _. ⊤ };

    fn clone(&self) -> Result<Task<S>, AllocError> {
        Ok(*self)
    }
}

impl<S: Copy> Clone for Advance<S> {
    ghost is_clone = { λ x y. y ≡ x };

    ghost is_infallible = { λ _. ⊤ };

    fn clone(&self) -> Result<Advance<S>, AllocError> {
        Ok(*self)
    }
}
