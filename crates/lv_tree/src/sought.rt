//! What a search looks for, and the tests on folds that say whether it is there.
ghost use Rattle.std.specs.Prelude.{int_le};
ghost use Rattle.lv_tree.specs.declared.sought.Sought.{Sought as WhatIsSought};
ghost use Rattle.lv_tree.specs.SoughtLaws.{Tells};

use crate::find::Test;
use lv_bodies::{Highest, LongBody, Lowest, RunTotals, Runs};

/// What some elements side by side may have.
#[derive(Clone, Copy)]
pub enum Sought {
    /// An element that is at most this.
    AtMost(i64),
    /// An element that is at least this.
    AtLeast(i64),
    /// A run whose total is at least this.
    Run(i128),
    /// A beginning whose total is at least this.
    Beginning(i128),
    /// An ending whose total is at least this.
    Ending(i128),
}

/// A test that says, by the fold of some elements by a body, whether they have what is sought.
pub trait TestFor<B: LongBody>: Test<B::S> {
    // What is sought.
    ghost seeks: { Self → WhatIsSought };

    /// What is sought. Computes nothing.
    fn tells(&self, body: &B)
        ensures { Tells (B.operations body.now) (Self.passes self.now) (seeks self.now) };
}

/// Whether the lowest of some elements is at most this.
#[derive(Clone, Copy)]
pub struct AtMost(pub i64);

impl Test<i64> for AtMost {
    ghost passes = { λ bound lowest. int_le lowest bound.0 };

    #[inline(always)]
    fn test(&self, lowest: i64) -> bool {
        lowest <= self.0
    }
}

impl TestFor<Lowest> for AtMost {
    ghost use Rattle.lv_tree.specs.declared.sought.Sought.TheVariants as sought;

    ghost seeks = { λ bound. sought.AtMost bound.0 };

    #[inline(always)]
    fn tells(&self, _body: &Lowest) {}
}

/// Whether the highest of some elements is at least this.
#[derive(Clone, Copy)]
pub struct AtLeast(pub i64);

impl Test<i64> for AtLeast {
    ghost passes = { λ bound highest. int_le bound.0 highest };

    #[inline(always)]
    fn test(&self, highest: i64) -> bool {
        self.0 <= highest
    }
}

impl TestFor<Highest> for AtLeast {
    ghost use Rattle.lv_tree.specs.declared.sought.Sought.TheVariants as sought;

    ghost seeks = { λ bound. sought.AtLeast bound.0 };

    #[inline(always)]
    fn tells(&self, _body: &Highest) {}
}

/// Whether the best run of some elements adds up to this at least.
#[derive(Clone, Copy)]
pub struct RunOf(pub i128);

impl Test<RunTotals> for RunOf {
    ghost passes = { λ bound runs. int_le bound.0 runs.best };

    #[inline(always)]
    fn test(&self, runs: RunTotals) -> bool {
        self.0 <= runs.best
    }
}

impl TestFor<Runs> for RunOf {
    ghost use Rattle.lv_tree.specs.declared.sought.Sought.TheVariants as sought;

    ghost seeks = { λ bound. sought.Run bound.0 };

    #[inline(always)]
    fn tells(&self, _body: &Runs) {}
}

/// Whether some beginning of them does.
#[derive(Clone, Copy)]
pub struct Beginning(pub i128);

impl Test<RunTotals> for Beginning {
    ghost passes = { λ bound runs. int_le bound.0 runs.prefix };

    #[inline(always)]
    fn test(&self, runs: RunTotals) -> bool {
        self.0 <= runs.prefix
    }
}

impl TestFor<Runs> for Beginning {
    ghost use Rattle.lv_tree.specs.declared.sought.Sought.TheVariants as sought;

    ghost seeks = { λ bound. sought.Beginning bound.0 };

    #[inline(always)]
    fn tells(&self, _body: &Runs) {}
}

/// Whether some ending of them does.
#[derive(Clone, Copy)]
pub struct Ending(pub i128);

impl Test<RunTotals> for Ending {
    ghost passes = { λ bound runs. int_le bound.0 runs.suffix };

    #[inline(always)]
    fn test(&self, runs: RunTotals) -> bool {
        self.0 <= runs.suffix
    }
}

impl TestFor<Runs> for Ending {
    ghost use Rattle.lv_tree.specs.declared.sought.Sought.TheVariants as sought;

    ghost seeks = { λ bound. sought.Ending bound.0 };

    #[inline(always)]
    fn tells(&self, _body: &Runs) {}
}
