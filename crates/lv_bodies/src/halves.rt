//! The fold of eight elements by halves: only three joins wait for one another, while in turn all would.
ghost use Rattle.std.specs.Prelude.{◌≡◌, length, All};
ghost use Rattle.lv_geometry.specs.Elements.{IsElement};
ghost use Rattle.lv_bodies.specs.Body.{fold_of};

use crate::bodies::Body;

// The fold of two elements.
#[inline(always)]
fn fold_two<B: Body>(body: &B, xs: &[i64]) -> B::S
    requires { length xs.now ≡ 2 }
    ensures fold { result ≡ fold_of (B.operations body.now) xs.now }
    ensures within { B.is_within body.now result 2 }
    ensures elements { All IsElement xs.now }
{
    body.combine(body.lift(xs[0]), body.lift(xs[1]))
}

// The fold of four elements, by halves.
#[inline(always)]
fn fold_four<B: Body>(body: &B, xs: &[i64]) -> B::S
    requires { length xs.now ≡ 4 }
    ensures fold { result ≡ fold_of (B.operations body.now) xs.now }
    ensures within { B.is_within body.now result 4 }
    ensures elements { All IsElement xs.now }
{
    let (front, back) = xs.split_at(2);
    body.combine(fold_two(body, front), fold_two(body, back))
}

/// The fold of eight elements, by halves.
#[inline(always)]
pub(crate) fn fold_by_halves<B: Body>(body: &B, xs: &[i64]) -> B::S
    requires { length xs.now ≡ 8 }
    ensures fold { result ≡ fold_of (B.operations body.now) xs.now }
    ensures within { B.is_within body.now result 8 }
{
    let (front, back) = xs.split_at(4);
    body.combine(fold_four(body, front), fold_four(body, back))
}
