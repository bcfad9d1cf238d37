//! The left fold of a slice of up to 2^62 elements.
ghost use Rattle.std.specs.Prelude.{◌≡◌, ◌≤◌, ◌^◌, length, All};
ghost use Rattle.lv_geometry.specs.Elements.{IsElement};
ghost use Rattle.lv_bodies.specs.Body.{fold_of};

use crate::long::{LongBody, long_laws};

/// The left fold of a slice, of at most 2^62 elements.
#[inline(always)]
pub fn fold_long<B: LongBody>(body: &B, xs: &[i64]) -> B::S
    requires { length xs.now ≤ 2 ^ 62 }
    ensures fold { result ≡ fold_of (B.operations body.now) xs.now }
    ensures within { B.is_within body.now result (length xs.now) }
    ensures elements { All IsElement xs.now }
{
    long_laws(body);
    let mut sum = body.identity();
    for x in xs {
        sum = body.extend_long(sum, *x);
    }
    sum
}
