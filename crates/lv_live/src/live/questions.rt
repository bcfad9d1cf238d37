//! Queries of a live vector: folds and running folds of a range, and what they cost.
ghost use Rattle.std.specs.Prelude.{◌≡◌, Some, IfOk, IfErr, true, false};
ghost use Rattle.lv_edits.specs.Ranges.{range_refusal};
ghost use Rattle.lv_refresh.specs.Record.{is_fresh};
ghost use Rattle.lv_reduce.specs.Answer.{IsScanRefusal, IsAnswerPair};
ghost use Rattle.lv_reduce.specs.Cost.{IsFew};
ghost use Rattle.lv_reduce.specs.Stretch.{IsStretch};
ghost use Rattle.lv_live.specs.State.{recorded};
ghost use Rattle.lv_live.specs.Step.{Costs, Reduces, Scans};

use crate::live::Live;
use lv_bodies::Body;
use lv_geometry::Refusal;
use lv_reduce::{Answer, Reads, Scan, Stretch, View};
use std::alloc::Global;

impl<B: Body> Live<B> {
    /// How many cells and summaries `reduce` reads for the elements from index `lo` up to `hi`, which is counted without reading them.
    /// Refused with `BadRange`, then `OutOfRange`. Takes no memory.
    pub fn cost(&self, lo: u32, hi: u32) -> Result<Reads, Refusal>
        ensures { Costs (recorded self.now) lo hi result }
    {
        // The summaries agree with the journal.
        let _ = &self.table;
        lv_reduce::cost(self.view(), lo, hi)
    }

    /// The fold of the elements from index `lo` up to `hi` by any body, with the number of the last edit. It folds the elements themselves and
    /// reads no summary, so it is meant for ranges that are so short that their summaries would cost more. Refused with `BadRange`, then
    /// `OutOfRange`. Takes no memory.
    pub fn fold_by<K: Body>(&self, body: &K, lo: u32, hi: u32) -> Result<(u32, K::S), Refusal>
        ensures ok { IfOk result (λ answer. IsAnswerPair (K.operations body.now) self.now.history.journal lo hi answer) }
        ensures err { IfErr result (λ refusal. range_refusal self.now.history.journal lo hi ≡ Some refusal) }
    {
        lv_reduce::fold_elements(&self.history, body, lo, hi)
    }

    /// The running folds of the elements from index `lo` up to `hi`, each with its own. Refused with `BadRange`, `OutOfRange`,
    /// then `NoMemory`.
    pub fn scan_inclusive(&self, alloc: Global, lo: u32, hi: u32) -> Result<Scan<B::S>, Refusal>
        ensures { Scans (B.operations self.now.body) (recorded self.now) lo hi true result }
    {
        lv_reduce::scan_inclusive(alloc, self.view(), &self.body, lo, hi)
    }

    /// The running folds of the elements from index `lo` up to `hi`, each without its own. Refused as the inclusive scan is.
    pub fn scan_exclusive(&self, alloc: Global, lo: u32, hi: u32) -> Result<Scan<B::S>, Refusal>
        ensures { Scans (B.operations self.now.body) (recorded self.now) lo hi false result }
    {
        lv_reduce::scan_exclusive(alloc, self.view(), &self.body, lo, hi)
    }

    /// The elements from index `lo` up to `hi`, copied, to be scanned while the vector is edited. Refused as a scan is.
    pub fn copy_range(&self, alloc: Global, lo: u32, hi: u32) -> Result<Stretch<B>, Refusal>
        ensures ok { IfOk result (λ stretch. IsStretch self.now.history.journal lo hi stretch) }
        ensures body { IfOk result (λ stretch. stretch.body ≡ self.now.body) }
        ensures err { IfErr result (λ refusal. IsScanRefusal self.now.history.journal lo hi refusal) }
    {
        Stretch::copy(alloc, &self.history, self.body, lo, hi)
    }
}

impl<B: Body> Live<B> {
    /// The fold of the elements from index `lo` up to `hi`, at the last edit. Refused with `BadRange`, then `OutOfRange`.
    /// Takes no memory.
    pub fn reduce(&self, lo: u32, hi: u32) -> Result<Answer<B::S>, Refusal>
        ensures answer { Reduces (B.operations self.now.body) (recorded self.now) lo hi result }
        ensures few { IfOk result (λ answer. IsFew (is_fresh (recorded self.now)) lo hi answer.cells_read answer.summaries_read) }
    {
        lv_reduce::reduce(self.view(), &self.body, lo, hi)
    }

    /// What a query reads: the elements, and the summaries that are kept for them.
    #[inline(always)]
    pub fn view(&self) -> View<'_, B::S>
        ensures cells { result.cells.now ≡ self.now.history }
        ensures table { result.table.now ≡ self.now.table }
    {
        View {
            cells: &self.history,
            table: &self.table,
        }
    }
}
