//! Elements that aren't copied, and the left fold of a range of them by one thread.
ghost use Rattle.std.specs.Prelude.{◌≡◌, ◌+◌, ◌≤◌, ◌^◌, ℕ, length};
ghost use Rattle.std.specs.List.{slice_range};
ghost use Rattle.lv_bodies.specs.Body.{CanFold, fold_of};
ghost use Rattle.lv_edits.specs.History.{list_of};
ghost use Rattle.lv_edits.specs.Ranges.{slice_of};
ghost use Rattle.lv_reduce.specs.Running.{CanGoOn, reached};
ghost use Rattle.lv_reduce.specs.Rows.{elements_in};

use crate::views::run_at;
use lv_bodies::{Body, fold_more, fold_slice};
use lv_edits::Edits;

/// Elements in a row: those of a vector, or of a slice.
#[derive(Clone, Copy)]
pub enum Row<'a> {
    Cells(&'a Edits),
    Slice(&'a [i64]),
}

/// The elements of a row from index `lo` up to `hi`.
#[derive(Clone, Copy)]
pub struct Part<'a> {
    pub row: Row<'a>,
    pub lo: u32,
    pub hi: u32,
}

/// The fold of the elements of a row from index `lo` up to `hi`.
pub fn fold_range<B: Body>(row: Row<'_>, body: &B, lo: u32, hi: u32) -> B::S
    requires can { CanFold (elements_in row) }
    requires order { lo ≤ hi }
    requires inside { hi ≤ length (elements_in row) }
    ensures { result ≡ fold_of (B.operations body.now) (slice_range (elements_in row.entry) lo hi) }
{
    match row {
        Row::Cells(history) => fold_cells(history, body, lo, hi),
        Row::Slice(xs) => fold_slice(body, &xs[lo as usize..hi as usize]),
    }
}

// The fold of a range of a vector, by runs of neighbouring cells.
fn fold_cells<B: Body>(history: &Edits, body: &B, lo: u32, hi: u32) -> B::S
    requires can { CanFold (list_of history.now.journal) }
    requires order { lo ≤ hi }
    requires inside { hi ≤ length (list_of history.now.journal) }
    ensures { result ≡ fold_of (B.operations body.now) (slice_of history.now.journal lo hi) }
{
    let mut sum = body.identity();
    let mut cell = [0];
    let mut at = lo;
    while at < hi {
        let run = run_at(history, at, hi, &mut cell);
        sum = fold_on(body, sum, run);
        at += run.len() as u32;
    }
    sum
}

// A fold that goes on over the elements of a slice.
#[inline(always)]
fn fold_on<B: Body>(body: &B, before: B::S, xs: &[i64]) -> B::S
    requires { CanGoOn (B.is_within body.now) before (length xs.now) }
    ensures { result ≡ reached (B.operations body.now) before xs.now }
{
    let mut sum = before;
    for x in xs {
        sum = fold_more(body, sum, *x);
    }
    sum
}
