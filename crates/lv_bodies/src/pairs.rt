//! Two bodies side by side, as one.
use crate::bodies::Body;
use std::alloc::AllocError;

/// Two bodies side by side: both are computed of the same elements.
#[derive(PartialEq, Eq)]
pub struct Pair<A, B> {
    pub first: A,
    pub second: B,
}

impl<A: Copy, B: Copy> Clone for Pair<A, B> {
    ghost use Rattle.std.specs.Prelude.{◌≡◌, ⊤};

    ghost is_clone = { λ x y. y ≡ x };

    ghost is_infallible = { λ _. ⊤ };

    fn clone(&self) -> Result<Pair<A, B>, AllocError> {
        Ok(*self)
    }
}

impl<A: Copy, B: Copy> Copy for Pair<A, B> {}

impl<A: Body, B: Body> Body for Pair<A, B> {
    ghost use Rattle.std.proofs.Common.{ap, ap₂};
    ghost use Rattle.lv_bodies.specs.Pairs.{pair_operations, IsPairWithin};
    ghost use Rattle.lv_bodies.specs.PairLaws.{pair_laws, exact_pair};

    type S = (A::S, B::S);

    ghost Meaning = { A.Meaning × B.Meaning };

    ghost meaning = { λ p. (A.meaning p.first, B.meaning p.second) };

    ghost operations = { λ p. pair_operations (A.operations p.first) (B.operations p.second) };

    ghost decided = { λ p q same. ap₂ pair_operations (A.decided p.first q.first (ap (λ m. m.0) same)) (B.decided p.second q.second (ap (λ m. m.1) same)) };

    ghost is_within = { λ p. IsPairWithin (A.is_within p.first) (B.is_within p.second) };

    ghost laws = { λ p. pair_laws _ _ _ _ (A.laws p.first) (B.laws p.second) };

    #[inline(always)]
    fn identity(&self) -> (A::S, B::S) {
        (self.first.identity(), self.second.identity())
    }

    #[inline(always)]
    fn lift(&self, x: i64) -> (A::S, B::S) {
        (self.first.lift(x), self.second.lift(x))
    }

    #[inline(always)]
    fn combine(&self, a: (A::S, B::S), b: (A::S, B::S)) -> (A::S, B::S) {
        (self.first.combine(a.0, b.0), self.second.combine(a.1, b.1))
    }

    fn same(&self, other: &Pair<A, B>) -> bool {
        self.first.same(&other.first) && self.second.same(&other.second)
    }

    ghost equal = { exact_pair _ _ A.equal B.equal };
}
