//! The left fold of a slice by a body.
ghost use Rattle.std.specs.Prelude.{◌≡◌, ◌+◌, ◌^◌, ◌≤◌, ℕ, ℤ, length, All};
ghost use Rattle.lv_geometry.specs.Elements.{IsElement};
ghost use Rattle.lv_bodies.specs.Body.{fold_of, CanGrow};

use crate::bodies::Body;

/// A fold with one more element at its end.
#[inline(always)]
pub fn fold_more<B: Body>(body: &B, sum: B::S, x: i64) -> B::S
    requires { CanGrow (B.is_within body.now) sum }
    ensures value { let o = B.operations body.now in result ≡ o.join sum (o.lift x) }
    ensures within { (n : ℕ) → B.is_within body.now sum n → n + 1 ≤ 2 ^ 20
        → B.is_within body.now result (n + 1) }
    ensures element { IsElement x }
{
    body.combine(sum, body.lift(x))
}

/// The left fold of a slice, without a copy of it.
pub fn fold_slice<B: Body>(body: &B, xs: &[i64]) -> B::S
    requires { length xs.now ≤ 2 ^ 20 }
    ensures fold { result ≡ fold_of (B.operations body.now) xs.now }
    ensures within { B.is_within body.now result (length xs.now) }
    ensures elements { All IsElement xs.now }
{
    let mut sum = body.identity();
    for x in xs {
        sum = fold_more(body, sum, *x);
    }
    sum
}
