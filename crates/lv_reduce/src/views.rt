//! What a query reads, which ranges it refuses, and runs of elements that aren't copied.
ghost use Rattle.std.specs.Prelude.{◌≡◌, ⊤, ◌+◌, ◌<◌, ◌≤◌, length, IfNone};
ghost use Rattle.std.specs.List.{slice_range};
ghost use Rattle.lv_edits.specs.History.{list_of};
ghost use Rattle.lv_edits.specs.Kept.{IsLegalInLimits};
ghost use Rattle.lv_edits.specs.Ranges.{range_refusal};

use lv_edits::Edits;
use lv_geometry::Refusal;
use lv_summary::Summaries;
use std::alloc::AllocError;

/// What a query reads: the vector's cells, and the table of summaries that are kept for them.
pub struct View<'a, S> {
    pub cells: &'a Edits,
    pub table: &'a Summaries<S>,
}

impl<'a, S> Clone for View<'a, S> {
    ghost is_clone = { λ x y. y ≡ x };

    ghost is_infallible = { λ _. ⊤ };

    fn clone(&self) -> Result<View<'a, S>, AllocError> {
        Ok(View {
            cells: self.cells,
            table: self.table,
        })
    }
}

impl<'a, S> Copy for View<'a, S> {}

/// Elements from index `at` on, before `hi`, at least one: a run of neighbouring cells; or, if the last edit's write of the element at `at` isn't
/// in its cell yet, only that element, which is put into `cell`.
#[inline(always)]
pub fn run_at<'a>(history: &'a Edits, at: u32, hi: u32, cell: &'a mut [i64; 1]) -> &'a [i64]
    requires order { at < hi }
    requires inside { hi ≤ length (list_of history.now.journal) }
    ensures elements { result.now ≡ slice_range (list_of history.now.journal) at (at + length result.now) }
    ensures some { 0 < length result.now }
    ensures few { at + length result.now ≤ hi }
{
    let run = history.stretch(at, hi);
    if run.is_empty() {
        *cell = [history.read(at)];
        return &cell[..];
    }
    run
}
