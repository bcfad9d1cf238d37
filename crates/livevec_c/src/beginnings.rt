//! The value that a piece of a series' scan starts from: the fold of the elements before the piece, which the series gives for each kind.
ghost use Rattle.std.specs.Prelude.{◌≡◌, ℕ, ℤ, List, None};
ghost use Rattle.lv_bodies.specs.Body.{fold_of};
ghost use Rattle.lv_bodies.specs.declared.kinds.Kind.{Kind as AKind};
ghost use Rattle.lv_series.specs.Series.{range_refused, slice_of};
ghost use Rattle.lv_tree.specs.KindSummaries.{summary_by};
ghost use Rattle.lv_tree.specs.declared.kind_summaries.KindSummary.{KindSummary as APart};

use crate::cells::Celled;
use lv_bodies::{
    Affine, AffineMap, Automaton, Best, Body, Greatest, Kind, Least, RunTotals, SixPairs, Sum,
};
use lv_series::Series;
use lv_shards::Each;
use lv_tree::KindSummary;

/// The body of one kind.
pub trait OfOneKind: Celled {
    /// Which kind it is.
    ghost its_kind: { AKind };

    /// The kind's own summary.
    ghost own_of: { APart → Self.S };

    /// Which kind it is.
    fn kind() -> Kind
        ensures { result ≡ its_kind };

    /// The kind's own summary, out of one that is of this kind.
    fn own(part: KindSummary) -> Self::S
        ensures { result ≡ own_of part };

    /// The own summary of some elements is the body's fold of them.
    ghost own_is: { (b : Self) (table : List (List ℕ)) (xs : List ℤ) → Self.fits b table →
        own_of (summary_by table its_kind xs) ≡ fold_of (Self.operations b) xs };
}

/// A body that folds a range of a series by the series' trees.
pub trait Begins: Celled {
    /// The fold of a range that the series doesn't reject.
    fn begun(&self, series: &Series, lo: u64, hi: u64) -> Self::S
        requires fits { Self.fits self.now series.now.table }
        requires granted { range_refused series.now.held lo hi ≡ None }
        ensures { result ≡ fold_of (Self.operations self.now) (slice_of series.now.held lo hi) };
}

impl<B: OfOneKind> Begins for B {
    #[inline(always)]
    fn begun(&self, series: &Series, lo: u64, hi: u64) -> B::S {
        let Ok(answer) = series.value(B::kind(), lo, hi) else {
            unreachable!();
        };
        B::own(answer.value)
    }
}

impl Begins for SixPairs {
    #[inline(always)]
    fn begun(&self, series: &Series, lo: u64, hi: u64) -> Each {
        let automaton = self.second.second.second.second.second;
        let last = (
            Affine.begun(series, lo, hi),
            automaton.begun(series, lo, hi),
        );
        let later = (
            Greatest.begun(series, lo, hi),
            (Best.begun(series, lo, hi), last),
        );
        (
            Sum.begun(series, lo, hi),
            (Least.begun(series, lo, hi), later),
        )
    }
}

/// The cell of a range that the series doesn't reject.
pub fn cell_of<B: Begins>(series: &Series, lo: u64, hi: u64) -> B::Cell
    requires { range_refused series.now.held lo hi ≡ None }
    ensures { result ≡ B.plain_cell series.now.table (slice_of series.now.held lo hi) }
{
    let body = B::by(series.automaton());
    B::cell(body.begun(series, lo, hi))
}

impl OfOneKind for Sum {
    ghost use Rattle.lv_bodies.specs.declared.kinds.Kind.TheVariants as kinds;
    ghost use Rattle.lv_tree.specs.OfSixLaws.{sum-part};
    ghost use Rattle.livevec_c.specs.Cells.{sum_in};

    ghost its_kind = { kinds.Sum };

    ghost own_of = { sum_in };

    #[inline(always)]
    fn kind() -> Kind {
        Kind::Sum
    }

    #[inline(always)]
    fn own(part: KindSummary) -> u64 {
        match part {
            KindSummary::Sum(sum) => sum,
            _ => 0,
        }
    }

    ghost own_is = { λ _ table xs _. sum-part table xs };
}

impl OfOneKind for Least {
    ghost use Rattle.lv_bodies.specs.declared.kinds.Kind.TheVariants as kinds;
    ghost use Rattle.lv_tree.specs.OfSixLaws.{least-part};
    ghost use Rattle.livevec_c.specs.Cells.{least_in};

    ghost its_kind = { kinds.Least };

    ghost own_of = { least_in };

    #[inline(always)]
    fn kind() -> Kind {
        Kind::Least
    }

    #[inline(always)]
    fn own(part: KindSummary) -> Option<i64> {
        match part {
            KindSummary::Least(least) => least,
            _ => None,
        }
    }

    ghost own_is = { λ _ table xs _. least-part table xs };
}

impl OfOneKind for Greatest {
    ghost use Rattle.lv_bodies.specs.declared.kinds.Kind.TheVariants as kinds;
    ghost use Rattle.lv_tree.specs.OfSixLaws.{greatest-part};
    ghost use Rattle.livevec_c.specs.Cells.{greatest_in};

    ghost its_kind = { kinds.Greatest };

    ghost own_of = { greatest_in };

    #[inline(always)]
    fn kind() -> Kind {
        Kind::Greatest
    }

    #[inline(always)]
    fn own(part: KindSummary) -> Option<i64> {
        match part {
            KindSummary::Greatest(greatest) => greatest,
            _ => None,
        }
    }

    ghost own_is = { λ _ table xs _. greatest-part table xs };
}

impl OfOneKind for Best {
    ghost use Rattle.lv_bodies.specs.declared.kinds.Kind.TheVariants as kinds;
    ghost use Rattle.lv_tree.specs.OfSixLaws.{best-part};
    ghost use Rattle.livevec_c.specs.Cells.{best_in};

    ghost its_kind = { kinds.Best };

    ghost own_of = { best_in };

    #[inline(always)]
    fn kind() -> Kind {
        Kind::Best
    }

    #[inline(always)]
    fn own(part: KindSummary) -> Option<RunTotals> {
        match part {
            KindSummary::Best(best) => best,
            _ => None,
        }
    }

    ghost own_is = { λ _ table xs _. best-part table xs };
}

impl OfOneKind for Affine {
    ghost use Rattle.lv_bodies.specs.declared.kinds.Kind.TheVariants as kinds;
    ghost use Rattle.lv_tree.specs.OfSixLaws.{affine-part};
    ghost use Rattle.livevec_c.specs.Cells.{map_in};

    ghost its_kind = { kinds.Affine };

    ghost own_of = { map_in };

    #[inline(always)]
    fn kind() -> Kind {
        Kind::Affine
    }

    #[inline(always)]
    fn own(part: KindSummary) -> AffineMap {
        match part {
            KindSummary::Affine(map) => map,
            _ => Affine.identity(),
        }
    }

    ghost own_is = { λ _ table xs _. affine-part table xs };
}

impl OfOneKind for Automaton {
    ghost use Rattle.lv_bodies.specs.declared.kinds.Kind.TheVariants as kinds;
    ghost use Rattle.std.proofs.Common.{ap, ◌∙◌};
    ghost use Rattle.lv_bodies.specs.Body.{fold_of};
    ghost use Rattle.lv_bodies.specs.Tables.{automaton_operations};
    ghost use Rattle.lv_tree.specs.OfSixLaws.{automaton-part};
    ghost use Rattle.livevec_c.specs.Cells.{states_in};

    ghost its_kind = { kinds.Automaton };

    ghost own_of = { states_in };

    #[inline(always)]
    fn kind() -> Kind {
        Kind::Automaton
    }

    #[inline(always)]
    fn own(part: KindSummary) -> [u8; 8] {
        match part {
            KindSummary::Automaton(states) => states,
            _ => [0; 8],
        }
    }

    ghost own_is = { λ _ table xs is. automaton-part table xs ∙ ap (λ t. fold_of (automaton_operations t) xs) is };
}
