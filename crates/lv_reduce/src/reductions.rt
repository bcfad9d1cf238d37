//! A reduction: from fresh summaries, and from cells if there are none.
ghost use Rattle.std.specs.Prelude.{◌≡◌, ⊤, ◌+◌, ◌-◌, ◌*◌, ◌/◌, ◌%◌, ◌^◌, ◌<◌, ◌≤◌, ℕ, length, true, false, IfOk, IfErr, IfSome, IfNone};
ghost use Rattle.lv_bodies.specs.Body.{CanJoin};
ghost use Rattle.lv_edits.specs.Ranges.{range_refusal};
ghost use Rattle.lv_summary.specs.Agrees.{Agrees};
ghost use Rattle.lv_summary.specs.Table.{fresh_in};
ghost use Rattle.lv_reduce.specs.Answer.{IsAnswer};
ghost use Rattle.lv_reduce.specs.Cost.{IsCost, IsFew};
ghost use Rattle.lv_reduce.specs.Pieces.{Fits, IsGreatestFresh, NoneFresh};

use crate::views::View;
use lv_bodies::{Body, fold_more};
use lv_edits::refusal_of;
use lv_geometry::{Node, Refusal, width};
use lv_summary::Summaries;
use std::alloc::AllocError;

/// The answer to a reduction: the number of the last edit, the fold of the range's elements, and how many cells and
/// summaries were read for it.
#[derive(Copy, PartialEq, Eq)]
pub struct Answer<S> {
    pub edit: u32,
    pub value: S,
    pub cells_read: u32,
    pub summaries_read: u32,
}

impl<S: Copy> Clone for Answer<S> {
    ghost is_clone = { λ x y. y ≡ x };

    ghost is_infallible = { λ _. ⊤ };

    fn clone(&self) -> Result<Answer<S>, AllocError> {
        Ok(*self)
    }
}

// The summary of a fresh node, and the node's level.
#[derive(Copy)]
pub struct Piece<S> {
    pub level: u32,
    pub summary: S,
}

impl<S: Copy> Clone for Piece<S> {
    ghost is_clone = { λ x y. y ≡ x };

    ghost is_infallible = { λ _. ⊤ };

    fn clone(&self) -> Result<Piece<S>, AllocError> {
        Ok(*self)
    }
}

/// The fold of the elements from index `lo` up to `hi`, `hi` excluded. Refused with `BadRange`, then `OutOfRange`.
/// Takes no memory, and lifts the cells that it counts, no others.
pub fn reduce<B: Body>(
    view: View<'_, B::S>,
    body: &B,
    lo: u32,
    hi: u32,
) -> Result<Answer<B::S>, Refusal>
    requires { Agrees (B.operations body.now) view.cells.now.journal view.table.now }
    ensures ok { IfOk result (λ answer. IsAnswer (B.operations body.now) view.entry.cells.now.journal lo hi answer) }
    ensures err { IfErr result (λ refusal. range_refusal view.entry.cells.now.journal lo hi ≡ Some refusal) }
    ensures cost { IfOk result (λ answer. IsCost (fresh_in view.entry.table.now) lo hi answer.cells_read answer.summaries_read) }
    ensures few { IfOk result (λ answer. IsFew (fresh_in view.entry.table.now) lo hi answer.cells_read answer.summaries_read) }
{
    if let Some(refusal) = refusal_of(view.cells, lo, hi) {
        return Err(refusal);
    }
    let mut value = body.identity();
    let mut cells_read = 0;
    let mut summaries_read = 0;
    let mut at = lo;
    while at < hi {
        if let Some(piece) = greatest_fresh(view.table, at, hi) {
            value = join(body, value, piece.summary);
            at += width(piece.level);
            summaries_read += 1;
        } else {
            value = fold_more(body, value, view.cells.read(at));
            at += 1;
            cells_read += 1;
        }
    }
    Ok(Answer {
        edit: view.cells.edit(),
        value,
        cells_read,
        summaries_read,
    })
}

// The greatest fresh node that begins at index `at` and ends at or before `hi`, or none.
#[inline]
pub fn greatest_fresh<S: Copy>(table: &Summaries<S>, at: u32, hi: u32) -> Option<Piece<S>>
    requires { at < hi }
    ensures some { IfSome result (λ piece. IsGreatestFresh table.now at hi piece.level piece.summary) }
    ensures none { IfNone result (NoneFresh (fresh_in table.now) at hi 0) }
{
    for level in (1..=greatest_level(at, hi)).rev() {
        if let Some(summary) = table.entry(Node::over(level, at)) {
            return Some(Piece { level, summary });
        }
    }
    None
}

/// The greatest level, at most 6, at which a node begins at index `at` and ends at or before `hi`; 0 means a single cell.
#[inline(always)]
pub fn greatest_level(at: u32, hi: u32) -> u32
    requires { at < hi }
    ensures bound { result ≤ 6 }
    ensures fits { Fits at hi result }
    ensures greatest { (level : ℕ) → level ≤ 6 → Fits at hi level → level ≤ result }
{
    at.trailing_zeros().min((hi - at).ilog2()).min(18) / 3
}

/// A fold with the fold of what follows joined at its end.
#[inline(always)]
pub fn join<B: Body>(body: &B, sum: B::S, more: B::S) -> B::S
    requires { CanJoin (B.is_within body.now) sum more }
    ensures value { result ≡ (B.operations body.now).join sum more }
    ensures within { (n m : ℕ) → B.is_within body.now sum n → B.is_within body.now more m
        → n + m ≤ 2 ^ 20 → B.is_within body.now result (n + m) }
{
    body.combine(sum, more)
}
