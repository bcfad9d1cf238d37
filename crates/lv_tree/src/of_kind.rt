//! The bodies by which the kinds are kept. Those of the least, the greatest and the best run are bare: a fold of no elements isn't missing, so
//! the caller says whether there are elements.
ghost use Rattle.std.specs.Prelude.{◌≡◌, ℕ, ℤ, List, All, length, nat_lt};
ghost use Rattle.lv_geometry.specs.Elements.{IsElement};
ghost use Rattle.lv_bodies.specs.Body.{fold_of};
ghost use Rattle.lv_tree.specs.KindSummaries.{summary_by};

use crate::kind_summaries::KindSummary;
use lv_bodies::{Affine, AffineMap, Automaton, Highest, LongBody, Lowest, RunTotals, Runs, Sum};

/// A body whose folds give the summary by one of the six kinds.
pub trait OfKind: LongBody {
    ghost use Rattle.lv_bodies.specs.declared.kinds.Kind.{Kind};

    /// The kind that its folds give.
    ghost told_kind: { Kind };

    /// Whether they give it with an automaton by a table.
    ghost fits: { Self → List (List ℕ) → Type 0 };

    /// The summary by that kind of the elements whose fold this is. `some` says whether there are any.
    fn tell(some: bool, s: Self::S) -> KindSummary
        ensures { (b : Self) (table : List (List ℕ)) (xs : List ℤ) → fits b table → All IsElement xs →
            some ≡ nat_lt 0 (length xs) → s ≡ fold_of (Self.operations b) xs → result ≡ summary_by table told_kind xs };
}

impl OfKind for Sum {
    ghost use Rattle.lv_bodies.specs.declared.kinds.Kind.TheVariants as kind;

    ghost told_kind = { kind.Sum };

    ghost fits = { λ _ _. Unit {0} };

    #[inline(always)]
    fn tell(_some: bool, s: u64) -> KindSummary {
        KindSummary::Sum(s)
    }
}

impl OfKind for Lowest {
    ghost use Rattle.lv_bodies.specs.declared.kinds.Kind.TheVariants as kind;

    ghost told_kind = { kind.Least };

    ghost fits = { λ _ _. Unit {0} };

    #[inline(always)]
    fn tell(some: bool, s: i64) -> KindSummary {
        KindSummary::Least(some.then_some(s))
    }
}

impl OfKind for Highest {
    ghost use Rattle.lv_bodies.specs.declared.kinds.Kind.TheVariants as kind;

    ghost told_kind = { kind.Greatest };

    ghost fits = { λ _ _. Unit {0} };

    #[inline(always)]
    fn tell(some: bool, s: i64) -> KindSummary {
        KindSummary::Greatest(some.then_some(s))
    }
}

impl OfKind for Runs {
    ghost use Rattle.lv_bodies.specs.declared.kinds.Kind.TheVariants as kind;

    ghost told_kind = { kind.Best };

    ghost fits = { λ _ _. Unit {0} };

    #[inline(always)]
    fn tell(some: bool, s: RunTotals) -> KindSummary {
        KindSummary::Best(some.then_some(s))
    }
}

impl OfKind for Affine {
    ghost use Rattle.lv_bodies.specs.declared.kinds.Kind.TheVariants as kind;

    ghost told_kind = { kind.Affine };

    ghost fits = { λ _ _. Unit {0} };

    #[inline(always)]
    fn tell(_some: bool, s: AffineMap) -> KindSummary {
        KindSummary::Affine(s)
    }
}

impl OfKind for Automaton {
    ghost use Rattle.lv_bodies.specs.Automata.{table_of};
    ghost use Rattle.lv_bodies.specs.declared.kinds.Kind.TheVariants as kind;

    ghost told_kind = { kind.Automaton };

    ghost fits = { λ b table. table ≡ table_of b };

    #[inline(always)]
    fn tell(_some: bool, s: [u8; 8]) -> KindSummary {
        KindSummary::Automaton(s)
    }
}
