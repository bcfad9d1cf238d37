//! What a series is asked of a range.
ghost use Rattle.std.specs.Prelude.{◌≡◌, false, None, Some, IfErr, IfOk, OnErr, OnOk};
ghost use Rattle.lv_series.specs.Places.{IsSearchable};
ghost use Rattle.lv_series.specs.Series.{Asks, IsLongValue, Reduces, RefusesAsked, Values, keeps_kind, range_refused, slice_of, with_kind};

use crate::answers::LongAnswer;
use crate::refusals::LongRefusal;
use crate::series::Series;
use lv_bodies::{Kind, LongBody, fold_long};
use lv_tree::KindSummary;

impl Series {
    /// Makes the tree of a kind, if there is none: from then on a value by that kind takes O(log n) joins, and each edit renews the tree. O(n).
    /// Refused with `NoMemory`, and nothing has changed then.
    #[inline(always)]
    pub fn prepare(&mut self, kind: Kind) -> Result<(), LongRefusal>
        ensures ok { OnOk result (self.new ≡ record self.old { kinds = with_kind kind self.old.kinds }) }
        ensures same { OnErr result (self.new ≡ self.old) }
        ensures err { IfErr result (λ refusal. refusal ≡ LongRefusal.NoMemory) }
        ensures missing { OnErr result (keeps_kind self.old.kinds kind ≡ false) }
    {
        if !self.trees.make(kind, &self.elements, self.base, self.first) {
            return Err(LongRefusal::NoMemory);
        }
        Ok(())
    }

    /// The summary by a kind of the elements from index `lo` up to `hi`, with the number of the last edit. By the kind's tree it takes
    /// O(log n) joins; without one it goes over the range. Refused with `BadRange`, then `OutOfRange`. Takes no memory.
    #[tactic(auto, using(crate::proofs::KeptLaws::range_in, crate::proofs::FreeLaws::free_range))]
    #[inline(always)]
    pub fn value(
        &self,
        kind: Kind,
        lo: u64,
        hi: u64,
    ) -> Result<LongAnswer<KindSummary>, LongRefusal>
        ensures { Values self.now kind lo hi result }
    {
        if let Some(refusal) = self.range_refusal(lo, hi) {
            return Err(refusal);
        }
        let from = (lo - 8 * self.base) as usize;
        let to = (hi - 8 * self.base) as usize;
        let value = self.trees.value(
            kind,
            self.elements.as_slice(),
            self.base,
            self.first,
            from,
            to,
        );
        Ok(LongAnswer {
            edit: self.edits,
            value,
        })
    }

    /// Answers as `value` does, and first makes the kind's tree, if there is none. The tree remembers the whole blocks of eight elements that
    /// were asked for last: as long as a range has just these, or some more behind them, it takes no joins for them. Refused as `value` is, then
    /// with `NoMemory`; nothing has changed then.
    #[tactic(auto, using(crate::proofs::AskLaws::asks_after))]
    #[inline(always)]
    pub fn ask(
        &mut self,
        kind: Kind,
        lo: u64,
        hi: u64,
    ) -> Result<LongAnswer<KindSummary>, LongRefusal>
        ensures { Asks self.old kind lo hi result self.new }
    {
        match self.prepare_for(kind, lo, hi) {
            Ok(()) => Ok(self.asked(kind, lo, hi)),
            Err(refusal) => Err(refusal),
        }
    }

    // The summary by a kind of a range that is kept, with the number of the last edit.
    #[tactic(auto, using(crate::proofs::KeptLaws::range_in, crate::proofs::FreeLaws::free_range))]
    #[inline(always)]
    fn asked(&mut self, kind: Kind, lo: u64, hi: u64) -> LongAnswer<KindSummary>
        requires granted { range_refused self.old.held lo hi ≡ None }
        ensures same { self.new ≡ self.old }
        ensures value { IsLongValue self.old kind lo hi result }
    {
        let from = (lo - 8 * self.base) as usize;
        let to = (hi - 8 * self.base) as usize;
        let value = self.trees.ask(
            kind,
            self.elements.as_slice(),
            self.base,
            self.first,
            from,
            to,
        );
        LongAnswer {
            edit: self.edits,
            value,
        }
    }

    /// Makes the tree of a kind for queries of the elements from index `lo` up to `hi`, if there is none: the range can be searched by that kind
    /// then. Refused as `ask` is.
    #[inline(always)]
    pub fn prepare_for(&mut self, kind: Kind, lo: u64, hi: u64) -> Result<(), LongRefusal>
        ensures searchable { OnOk result (IsSearchable self.new kind lo hi) }
        ensures ok { OnOk result (self.new ≡ record self.old { kinds = with_kind kind self.old.kinds }) }
        ensures err { IfErr result (λ refusal. RefusesAsked self.old kind lo hi refusal self.new) }
    {
        if let Some(refusal) = self.range_refusal(lo, hi) {
            return Err(refusal);
        }
        self.prepare(kind)
    }

    /// The fold of the elements from index `lo` up to `hi` by a body of the caller's, which goes over the range. Refused with `BadRange`,
    /// then `OutOfRange`. Takes no memory.
    pub fn reduce<B: LongBody>(
        &self,
        body: &B,
        lo: u64,
        hi: u64,
    ) -> Result<LongAnswer<B::S>, LongRefusal>
        ensures { Reduces (B.operations body.now) self.now lo hi result }
    {
        match self.elements(lo, hi) {
            Err(refusal) => Err(refusal),
            Ok(elements) => Ok(LongAnswer {
                edit: self.edits,
                value: fold_long(body, elements),
            }),
        }
    }

    /// The elements from index `lo` up to `hi`, as they are side by side in memory. O(1). Refused with `BadRange`, then `OutOfRange`.
    #[tactic(auto, using(crate::proofs::KeptLaws::range_in, crate::proofs::FreeLaws::free_range))]
    pub fn elements(&self, lo: u64, hi: u64) -> Result<&[i64], LongRefusal>
        ensures ok { IfOk result (λ elements. (range_refused self.now.held lo hi ≡ None) × (elements.now ≡ slice_of self.now.held lo hi)) }
        ensures err { IfErr result (λ refusal. range_refused self.now.held lo hi ≡ Some refusal) }
    {
        if let Some(refusal) = self.range_refusal(lo, hi) {
            return Err(refusal);
        }
        let from = (lo - 8 * self.base) as usize;
        let to = (hi - 8 * self.base) as usize;
        Ok(&self.elements.as_slice()[from..to])
    }
}
