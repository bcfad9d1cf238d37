//! What a reduction reads, counted without reading it: whole blocks that are not fresh are counted at once.
ghost use Rattle.std.specs.Prelude.{◌≡◌, ◌⊎◌, ◌+◌, ◌%◌, ◌<◌, ◌≤◌, None, IfOk, IfErr, OnOk};
ghost use Rattle.lv_edits.specs.Ranges.{range_refusal};
ghost use Rattle.lv_summary.specs.Table.{fresh_in};
ghost use Rattle.lv_reduce.specs.Cost.{IsCost};

use crate::reductions::{greatest_fresh, greatest_level};
use crate::views::View;
use lv_edits::refusal_of;
use lv_geometry::{Refusal, width};
use lv_summary::Summaries;

/// How many cells and summaries a reduction reads.
#[derive(Clone, Copy, PartialEq, Eq)]
pub struct Reads {
    pub cells: u32,
    pub summaries: u32,
}

/// How many cells and summaries `reduce` reads for the elements from index `lo` up to `hi`. It reads none of them itself: eight
/// cells that no fresh node has are counted at once. Refused with `BadRange`, then `OutOfRange`. Takes no memory.
pub fn cost<S: Copy>(view: View<'_, S>, lo: u32, hi: u32) -> Result<Reads, Refusal>
    ensures ok { IfOk result (λ reads. IsCost (fresh_in view.entry.table.now) lo hi reads.cells reads.summaries) }
    ensures granted { OnOk result (range_refusal view.entry.cells.now.journal lo hi ≡ None) }
    ensures err { IfErr result (λ refusal. range_refusal view.entry.cells.now.journal lo hi ≡ Some refusal) }
{
    match refusal_of(view.cells, lo, hi) {
        Some(refusal) => Err(refusal),
        None => Ok(count_reads(view.table, lo, hi)),
    }
}

// How many cells and summaries are read for a range that is not refused.
fn count_reads<S: Copy>(table: &Summaries<S>, lo: u32, hi: u32) -> Reads
    requires { lo ≤ hi }
    ensures { IsCost (fresh_in table.now) lo hi result.cells result.summaries }
{
    let mut cells = 0;
    let mut summaries = 0;
    let mut at = lo;
    while at < hi {
        if let Some(piece) = greatest_fresh(table, at, hi) {
            at += width(piece.level);
            summaries += 1;
        } else {
            let unread = cells_from(at, hi);
            at += unread;
            cells += unread;
        }
    }
    Reads { cells, summaries }
}

// How many cells there are up to the next index where a node can begin and end at or before `hi`: those of the block that begins here, or only
// this one.
#[inline(always)]
fn cells_from(at: u32, hi: u32) -> u32
    requires { at < hi }
    ensures block { (result ≡ 1) ⊎ ((result ≡ 8) × (at % 8 ≡ 0)) }
    ensures inside { at + result ≤ hi }
{
    if greatest_level(at, hi) == 0 {
        return 1;
    }
    8
}
