//! The best run, as a body whose summaries are never missing.
use crate::best::RunTotals;
use crate::bodies::Body;
use crate::long::LongBody;

/// The totals of the best run. No elements have a total of 0, and a run so low that it never counts.
#[derive(Clone, Copy, PartialEq, Eq)]
pub struct Runs;

impl Body for Runs {
    ghost use Rattle.std.proofs.Common.{refl};
    ghost use Rattle.lv_bodies.specs.RunTotals.{runs_operations, AreRuns};
    ghost use Rattle.lv_bodies.specs.RunLaws.{runs_laws};
    ghost use Rattle.lv_bodies.specs.TotalsLaws.{exact_totals};

    type S = RunTotals;

    ghost Meaning = { Unit {0} };

    ghost meaning = { λ _. tt };

    ghost operations = { λ _. runs_operations };

    ghost decided = { λ _ _ _. refl };

    ghost is_within = { λ _. AreRuns };

    ghost laws = { λ _. runs_laws };

    #[inline(always)]
    fn identity(&self) -> RunTotals {
        RunTotals::of_none()
    }

    #[inline(always)]
    fn lift(&self, x: i64) -> RunTotals {
        RunTotals::of(x)
    }

    #[inline(always)]
    fn combine(&self, a: RunTotals, b: RunTotals) -> RunTotals {
        a.join(b)
    }

    fn same(&self, _other: &Runs) -> bool {
        true
    }

    ghost equal = { exact_totals };
}

impl LongBody for Runs {
    ghost use Rattle.lv_bodies.specs.RunLaws.{runs_long};

    #[inline(always)]
    fn combine_long(&self, a: RunTotals, b: RunTotals) -> RunTotals {
        a.join(b)
    }

    #[inline(always)]
    fn extend_long(&self, s: RunTotals, x: i64) -> RunTotals {
        s.push(x)
    }

    // Equal totals of different elements are rare.
    #[inline(always)]
    fn is_surely(_a: RunTotals, _b: RunTotals) -> bool {
        false
    }

    ghost long = { λ _. runs_long };
}
