//! The folds of a list's blocks by each kind that was asked for, and the values of ranges that follow from them.
ghost use Rattle.std.specs.Prelude.{◌≡◌, ◌^◌, ◌≤◌, ℤ, List, IfOk, length, take, slice_set, slice_range};
ghost use Rattle.lv_bodies.specs.Plain.{plain_value};
ghost use Rattle.lv_transcript.specs.Blocks.{AreFolds, AreKept};

use crate::block_folds::{cut, fold_range, forget};
use lv_bodies::{
    Affine, AffineMap, Automaton, Best, Greatest, Kind, Least, RunTotals, Shown, Single, Sum,
};
use std::alloc::{AllocError, Global};

/// The folds of blocks by each kind; by one that was never asked for there are none.
#[derive(Drop)]
pub(crate) struct KindFolds {
    sum: Vec<Option<u64>>,
    least: Vec<Option<Option<i64>>>,
    greatest: Vec<Option<Option<i64>>>,
    best: Vec<Option<Option<RunTotals>>>,
    affine: Vec<Option<AffineMap>>,
    automaton: Vec<Option<[u8; 8]>>,
}

impl KindFolds {
    /// No folds, which are those of any list. Takes no memory.
    pub(crate) fn new(alloc: Global) -> KindFolds
        ensures { (xs : List ℤ) → AreKept result xs }
    {
        KindFolds {
            sum: Vec::new(alloc),
            least: Vec::new(alloc),
            greatest: Vec::new(alloc),
            best: Vec::new(alloc),
            affine: Vec::new(alloc),
            automaton: Vec::new(alloc),
        }
    }

    /// Forgets the folds of the block that has an index. The others remain right for each list that differs only at this index.
    pub(crate) fn forget(&mut self, index: usize)
        ensures { (xs : List ℤ) (x : ℤ) → AreKept self.old xs → AreKept self.new (slice_set xs index x) }
    {
        forget(&mut self.sum, index);
        forget(&mut self.least, index);
        forget(&mut self.greatest, index);
        forget(&mut self.best, index);
        forget(&mut self.affine, index);
        forget(&mut self.automaton, index);
    }

    /// Forgets the folds of the blocks that end after so many elements. The others remain right for the list that is cut there.
    pub(crate) fn cut(&mut self, count: usize)
        ensures { (xs : List ℤ) → AreKept self.old xs → AreKept self.new (take count xs) }
    {
        cut(&mut self.sum, count);
        cut(&mut self.least, count);
        cut(&mut self.greatest, count);
        cut(&mut self.best, count);
        cut(&mut self.affine, count);
        cut(&mut self.automaton, count);
    }

    /// The value of a kind over the elements from index `lo` up to `hi`. The folds of blocks that it needs are computed if they are not known, and
    /// kept.
    pub(crate) fn value(
        &mut self,
        kind: Kind,
        list: &[i64],
        lo: usize,
        hi: usize,
    ) -> Result<Shown, AllocError>
        requires few { length list.now ≤ 2 ^ 20 }
        requires order { lo ≤ hi }
        requires inside { hi ≤ length list.now }
        requires kept { AreKept self.old list.now }
        ensures value { IfOk result (λ shown. shown ≡ plain_value kind (slice_range list.now lo hi)) }
        ensures kept { AreKept self.new list.now }
    {
        match kind {
            Kind::Sum => shown_fold(&Sum, list, &mut self.sum, lo, hi),
            Kind::Least => shown_fold(&Least, list, &mut self.least, lo, hi),
            Kind::Greatest => shown_fold(&Greatest, list, &mut self.greatest, lo, hi),
            Kind::Best => shown_fold(&Best, list, &mut self.best, lo, hi),
            Kind::Affine => shown_fold(&Affine, list, &mut self.affine, lo, hi),
            Kind::Automaton => shown_fold(&Automaton::program(), list, &mut self.automaton, lo, hi),
        }
    }
}

// The output of a monoid instance (body) of one kind for some elements.
fn shown_fold<B: Single>(
    body: &B,
    list: &[i64],
    folds: &mut Vec<Option<B::S>>,
    lo: usize,
    hi: usize,
) -> Result<Shown, AllocError>
    requires few { length list.now ≤ 2 ^ 20 }
    requires order { lo ≤ hi }
    requires inside { hi ≤ length list.now }
    requires folds { AreFolds (B.operations body.now) list.now folds.old.items }
    ensures value { IfOk result (λ shown. shown ≡ B.plain body.now (slice_range list.now lo hi)) }
    ensures folds { AreFolds (B.operations body.now) list.now folds.new.items }
{
    let fold = fold_range(body, list, folds, lo, hi)?;
    Ok(body.shown(fold))
}
