//! The best run: the greatest total of one or more neighbours.
ghost use Rattle.std.specs.Prelude.{◌≡◌};

use crate::bodies::Body;
use crate::kinds::{Kind, Shown};
use crate::parts::{Parted, low_bits, with_sign};
use crate::singles::Single;

/// The totals that are kept of one or more neighbours.
#[derive(Clone, Copy, PartialEq, Eq)]
pub struct RunTotals {
    /// All of them added up.
    pub total: i128,
    /// The greatest total of some that begin with the first.
    pub prefix: i128,
    /// The greatest total of some that end with the last.
    pub suffix: i128,
    /// The greatest total of some neighbours among them.
    pub best: i128,
}

impl RunTotals {
    ghost use Rattle.lv_bodies.specs.RunTotals.{totals_of, join_totals, runs_operations, AreSmall};

    /// The run of one element.
    #[inline(always)]
    pub(crate) fn of(x: i64) -> RunTotals
        ensures { result ≡ totals_of x }
    {
        let x = i128::from(x);
        RunTotals {
            total: x,
            prefix: x,
            suffix: x,
            best: x,
        }
    }

    /// The run of no elements: a total of 0, and no run.
    #[inline(always)]
    pub(crate) fn of_none() -> RunTotals
        ensures { result ≡ runs_operations.identity }
    {
        RunTotals {
            total: 0,
            prefix: NO_RUN,
            suffix: NO_RUN,
            best: NO_RUN,
        }
    }

    /// The run of neighbours and of those after them.
    #[inline(always)]
    pub(crate) fn join(self, next: RunTotals) -> RunTotals
        requires left { AreSmall self }
        requires right { AreSmall next }
        ensures { result ≡ join_totals self next }
    {
        RunTotals {
            total: self.total + next.total,
            prefix: self.prefix.max(self.total + next.prefix),
            suffix: next.suffix.max(next.total + self.suffix),
            best: self.best.max(next.best).max(self.suffix + next.prefix),
        }
    }

    /// The run of neighbours and of one element after them.
    #[inline(always)]
    pub(crate) fn push(self, x: i64) -> RunTotals
        requires { AreSmall self }
        ensures { result ≡ join_totals self (totals_of x) }
    {
        let x = i128::from(x);
        let total = self.total + x;
        // A run that ends here continues the one before, or begins anew if that was below 0.
        let suffix = self.suffix.max(0) + x;
        RunTotals {
            total,
            prefix: self.prefix.max(total),
            suffix,
            best: self.best.max(suffix),
        }
    }
}

/// The total of a run of no elements: lower than any of elements can be, by so much that it never counts.
const NO_RUN: i128 = -(1 << 120);

/// The greatest total of at least one neighbour, if there is one.
#[derive(Clone, Copy, PartialEq, Eq)]
pub struct Best;

impl Body for Best {
    ghost use Rattle.std.proofs.Common.{refl};
    ghost use Rattle.lv_bodies.specs.RunTotals.{best_operations, IsBest};
    ghost use Rattle.lv_bodies.specs.TotalsLaws.{best_laws, exact_totals};
    ghost use Rattle.lv_bodies.specs.EqualLaws.{exact_option};

    type S = Option<RunTotals>;

    ghost Meaning = { Unit {0} };

    ghost meaning = { λ _. tt };

    ghost operations = { λ _. best_operations };

    ghost decided = { λ _ _ _. refl };

    ghost is_within = { λ _. IsBest };

    ghost laws = { λ _. best_laws };

    #[inline(always)]
    fn identity(&self) -> Option<RunTotals> {
        None
    }

    #[inline(always)]
    fn lift(&self, x: i64) -> Option<RunTotals> {
        Some(RunTotals::of(x))
    }

    #[inline(always)]
    fn combine(&self, a: Option<RunTotals>, b: Option<RunTotals>) -> Option<RunTotals> {
        match (a, b) {
            (Some(run), Some(next)) => Some(run.join(next)),
            (None, t) => t,
            (s, None) => s,
        }
    }

    fn same(&self, _other: &Best) -> bool {
        true
    }

    ghost equal = { exact_option _ exact_totals };
}

impl Single for Best {
    ghost use Rattle.std.specs.Prelude.{option_map};
    ghost use Rattle.std.proofs.Common.{ap};
    ghost use Rattle.lv_bodies.specs.declared.kinds.Kind.TheVariants as kind;
    ghost use Rattle.lv_bodies.specs.declared.kinds.Shown.TheVariants as shown;
    ghost use Rattle.lv_bodies.specs.Plain.{plain_best};
    ghost use Rattle.lv_bodies.specs.BestLaws.{fold_of-best};

    ghost the_kind = { kind.Best };

    ghost shown_as = { λ _ s. shown.Best (option_map (λ r. r.best) s) };

    ghost plain = { λ _ xs. shown.Best (plain_best xs) };

    fn kind(&self) -> Kind {
        Kind::Best
    }

    fn shown(&self, s: Option<RunTotals>) -> Shown {
        Shown::Best(s.map(|run| run.best))
    }

    ghost shows_plain = { λ _ xs _. ap shown.Best (fold_of-best xs) };
}

impl Parted for Best {
    ghost use Rattle.lv_bodies.specs.Parts.{best_parts, best_of_parts};
    ghost use Rattle.lv_bodies.specs.PartsLaws.{best-are_parts, best-has_parts};
    ghost use Rattle.std.proofs.Common.{lit≤};

    ghost PARTS = { 4 };

    const PARTS: u32 = 4;

    ghost some = { (lit≤ tt, lit≤ tt) };

    ghost parts_of = { best_parts };

    ghost whole_of = { best_of_parts };

    ghost are_parts = { best-are_parts };

    fn to_parts(s: Option<RunTotals>) -> [u32; 4] {
        let Some(run) = s else {
            return [0; 4];
        };
        [
            low_bits(run.total),
            low_bits(run.prefix),
            low_bits(run.suffix),
            low_bits(run.best),
        ]
    }

    fn of_parts(parts: [u32; 4]) -> Option<RunTotals> {
        let [total, prefix, suffix, best] = parts;
        Some(RunTotals {
            total: with_sign(total),
            prefix: with_sign(prefix),
            suffix: with_sign(suffix),
            best: with_sign(best),
        })
    }

    ghost has_parts = { λ _. best-has_parts };
}
