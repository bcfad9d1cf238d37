//! The first of eight elements by an order, by halves: only three choices wait for one another, while in turn all would.
ghost use Rattle.std.specs.Prelude.{◌≡◌, Some, length, All};
ghost use Rattle.lv_geometry.specs.Elements.{IsElement};
ghost use Rattle.lv_bodies.specs.Body.{fold_of};
ghost use Rattle.lv_bodies.specs.Extremes.{extreme_operations};

use crate::orders::Order;

// The first of two elements.
#[inline(always)]
fn first_of_two<O: Order>(xs: &[i64]) -> i64
    requires { length xs.now ≡ 2 }
    ensures first { Some result ≡ fold_of (extreme_operations O.first) xs.now }
    ensures elements { All IsElement xs.now }
{
    O::first_of(xs[0], xs[1])
}

// The first of four elements, by halves.
#[inline(always)]
fn first_of_four<O: Order>(xs: &[i64]) -> i64
    requires { length xs.now ≡ 4 }
    ensures first { Some result ≡ fold_of (extreme_operations O.first) xs.now }
    ensures elements { All IsElement xs.now }
{
    let (front, back) = xs.split_at(2);
    O::first_of(first_of_two::<O>(front), first_of_two::<O>(back))
}

/// The first of eight elements, by halves.
#[inline(always)]
pub(crate) fn first_of_eight<O: Order>(xs: &[i64]) -> i64
    requires { length xs.now ≡ 8 }
    ensures first { Some result ≡ fold_of (extreme_operations O.first) xs.now }
    ensures elements { All IsElement xs.now }
{
    let (front, back) = xs.split_at(4);
    O::first_of(first_of_four::<O>(front), first_of_four::<O>(back))
}
