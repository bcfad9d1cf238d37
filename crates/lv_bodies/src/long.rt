//! Bodies whose summaries may be those of up to 2^62 elements.
ghost use Rattle.std.specs.Prelude.{◌≡◌, true, length};
ghost use Rattle.lv_bodies.specs.Body.{fold_of};
ghost use Rattle.lv_bodies.specs.Long.{CanJoinLong, CanGrowLong, LongLaws};

use crate::affine::{Affine, AffineMap};
use crate::automata::Automaton;
use crate::best::{Best, RunTotals};
use crate::bodies::Body;
use crate::extremes::{Greatest, Least};
use crate::halves::fold_by_halves;
use crate::pairs::Pair;
use crate::sixes::{Six, SixByTable, SixSummary, by_program};
use crate::sums::Sum;

/// A body whose summaries may be those of up to 2^62 elements, while `combine` goes up to 2^20.
pub trait LongBody: Body {
    /// The summary of the elements of `a`, then those of `b`: at most 2^62 together.
    fn combine_long(&self, a: Self::S, b: Self::S) -> Self::S
        requires { CanJoinLong (Self.is_within self.now) a b }
        ensures { result ≡ (Self.operations self.now).join a b };

    /// The summary of the elements of `s`, then of one more: at most 2^62 together.
    #[inline(always)]
    fn extend_long(&self, s: Self::S, x: i64) -> Self::S
        requires { CanGrowLong (Self.is_within self.now) s }
        ensures { let o = Self.operations self.now in result ≡ o.join s (o.lift x) }
    {
        self.combine_long(s, self.lift(x))
    }

    /// The fold of eight elements.
    #[inline(always)]
    fn fold_eight(&self, xs: &[i64]) -> Self::S
        requires { length xs.now ≡ 8 }
        ensures fold { result ≡ fold_of (Self.operations self.now) xs.now }
        ensures within { Self.is_within self.now result 8 }
    {
        let mut sum = self.identity();
        for i in 0..8 {
            sum = self.extend_long(sum, xs[i]);
        }
        sum
    }

    /// Whether two summaries are surely equal. If it says no, they may be equal too.
    #[inline(always)]
    fn is_surely(a: Self::S, b: Self::S) -> bool
        ensures { result ≡ true → a ≡ b }
    {
        a == b
    }

    ghost long: { (b : Self) → LongLaws (Self.operations b) (Self.is_within b) };
}

/// The laws of a body, up to 2^62 elements. Computes nothing.
#[inline(always)]
pub fn long_laws<B: LongBody>(body: &B)
    ensures { LongLaws (B.operations body.now) (B.is_within body.now) }
{}

impl LongBody for Sum {
    ghost use Rattle.lv_bodies.specs.LongLaws.{sum_long};

    #[inline(always)]
    fn combine_long(&self, a: u64, b: u64) -> u64 {
        self.combine(a, b)
    }

    #[inline(always)]
    fn fold_eight(&self, xs: &[i64]) -> u64 {
        fold_by_halves(self, xs)
    }

    // Equal sums of different elements are rare.
    #[inline(always)]
    fn is_surely(_a: u64, _b: u64) -> bool {
        false
    }

    ghost long = { λ _. sum_long };
}

impl LongBody for Best {
    ghost use Rattle.lv_bodies.specs.LongLaws.{best_long};

    #[inline(always)]
    fn combine_long(&self, a: Option<RunTotals>, b: Option<RunTotals>) -> Option<RunTotals> {
        match (a, b) {
            (Some(run), Some(next)) => Some(run.join(next)),
            (None, t) => t,
            (s, None) => s,
        }
    }

    #[inline(always)]
    fn extend_long(&self, s: Option<RunTotals>, x: i64) -> Option<RunTotals> {
        match s {
            Some(run) => Some(run.push(x)),
            None => Some(RunTotals::of(x)),
        }
    }

    // Equal totals of different elements are rare.
    #[inline(always)]
    fn is_surely(_a: Option<RunTotals>, _b: Option<RunTotals>) -> bool {
        false
    }

    ghost long = { λ _. best_long };
}

impl LongBody for Affine {
    ghost use Rattle.lv_bodies.specs.LongLaws.{affine_long};

    #[inline(always)]
    fn combine_long(&self, a: AffineMap, b: AffineMap) -> AffineMap {
        self.combine(a, b)
    }

    #[inline(always)]
    fn fold_eight(&self, xs: &[i64]) -> AffineMap {
        fold_by_halves(self, xs)
    }

    ghost long = { λ _. affine_long };
}

impl LongBody for Automaton {
    ghost use Rattle.lv_bodies.specs.LongLaws.{automaton_long};

    #[inline(always)]
    fn combine_long(&self, a: [u8; 8], b: [u8; 8]) -> [u8; 8] {
        self.combine(a, b)
    }

    #[inline(always)]
    fn extend_long(&self, s: [u8; 8], x: i64) -> [u8; 8] {
        self.step(s, x)
    }

    ghost long = { λ a. automaton_long a.table a.valid };
}

impl<A: LongBody, B: LongBody> LongBody for Pair<A, B> {
    ghost use Rattle.lv_bodies.specs.LongLaws.{pair_long};

    #[inline(always)]
    fn combine_long(&self, a: (A::S, B::S), b: (A::S, B::S)) -> (A::S, B::S) {
        (
            self.first.combine_long(a.0, b.0),
            self.second.combine_long(a.1, b.1),
        )
    }

    #[inline(always)]
    fn extend_long(&self, s: (A::S, B::S), x: i64) -> (A::S, B::S) {
        (
            self.first.extend_long(s.0, x),
            self.second.extend_long(s.1, x),
        )
    }

    #[inline(always)]
    fn is_surely(a: (A::S, B::S), b: (A::S, B::S)) -> bool {
        A::is_surely(a.0, b.0) && B::is_surely(a.1, b.1)
    }

    ghost long = { λ p. pair_long _ _ _ _ (A.long p.first) (B.long p.second) };
}

impl LongBody for SixByTable {
    ghost use Rattle.lv_bodies.specs.LongLaws.{six_long_by};

    #[inline(always)]
    fn combine_long(&self, a: SixSummary, b: SixSummary) -> SixSummary {
        let (sum, (least, (greatest, (best, (affine, states))))) = a.each;
        let (next_sum, (next_least, (next_greatest, (next_best, (next_affine, next_states))))) =
            b.each;
        let last = (
            Affine.combine_long(affine, next_affine),
            self.automaton.combine_long(states, next_states),
        );
        let later = (
            Greatest.combine_long(greatest, next_greatest),
            (Best.combine_long(best, next_best), last),
        );
        SixSummary {
            each: (
                Sum.combine_long(sum, next_sum),
                (Least.combine_long(least, next_least), later),
            ),
        }
    }

    ghost long = { λ b. six_long_by b.automaton.table b.automaton.valid };
}

impl LongBody for Six {
    ghost use Rattle.lv_bodies.specs.LongLaws.{six_long};

    #[inline(always)]
    fn combine_long(&self, a: SixSummary, b: SixSummary) -> SixSummary {
        by_program().combine_long(a, b)
    }

    ghost long = { λ _. six_long };
}
