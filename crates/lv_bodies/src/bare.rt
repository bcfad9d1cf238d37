//! The first element by an order, as a body whose summaries are never missing: the lowest and the highest.
use crate::bodies::Body;
use crate::first_halves::first_of_eight;
use crate::long::LongBody;
use crate::orders::{Downward, Order, Upward};
use std::alloc::AllocError;

/// The element that comes first by an order, or the last that there can be if there are no elements.
#[derive(PartialEq, Eq)]
pub struct BareExtreme<O> {
    order: O,
}

/// The least element, or 2^63 - 1 if there are no elements.
pub type Lowest = BareExtreme<Upward>;

/// The greatest element, or -2^63 if there are no elements.
pub type Highest = BareExtreme<Downward>;

/// The least element, or 2^63 - 1 if there are no elements.
#[allow(non_upper_case_globals)]
pub const Lowest: Lowest = BareExtreme { order: Upward };

/// The greatest element, or -2^63 if there are no elements.
#[allow(non_upper_case_globals)]
pub const Highest: Highest = BareExtreme { order: Downward };

impl<O: Copy> Clone for BareExtreme<O> {
    ghost use Rattle.std.specs.Prelude.{◌≡◌, ⊤};

    ghost is_clone = { λ x y. y ≡ x };

    ghost is_infallible = { λ _. ⊤ };

    fn clone(&self) -> Result<BareExtreme<O>, AllocError> {
        Ok(*self)
    }
}

impl<O: Copy> Copy for BareExtreme<O> {}

impl<O: Order + Send + Sync> Body for BareExtreme<O> {
    ghost use Rattle.std.proofs.Common.{refl};
    ghost use Rattle.std.proofs.lemmas.Bool.Decides.{Decides-int_eq};
    ghost use Rattle.lv_bodies.specs.Extremes.{bare_operations, IsBareExtreme};
    ghost use Rattle.lv_bodies.specs.ExtremeLaws.{bare_laws};

    type S = i64;

    ghost Meaning = { Unit {0} };

    ghost meaning = { λ _. tt };

    ghost operations = { λ _. bare_operations O.first O.last };

    ghost decided = { λ _ _ _. refl };

    ghost is_within = { λ _. IsBareExtreme };

    ghost laws = { λ _. bare_laws O.first O.last O.lawful };

    #[inline(always)]
    fn identity(&self) -> i64 {
        O::last()
    }

    #[inline(always)]
    fn lift(&self, x: i64) -> i64 {
        x
    }

    #[inline(always)]
    fn combine(&self, a: i64, b: i64) -> i64 {
        O::first_of(a, b)
    }

    fn same(&self, _other: &BareExtreme<O>) -> bool {
        true
    }

    ghost equal = { Decides-int_eq };
}

impl<O: Order + Send + Sync> LongBody for BareExtreme<O> {
    ghost use Rattle.lv_bodies.specs.LongLaws.{bare_long};

    #[inline(always)]
    fn combine_long(&self, a: i64, b: i64) -> i64 {
        O::first_of(a, b)
    }

    #[inline(always)]
    fn fold_eight(&self, xs: &[i64]) -> i64 {
        first_of_eight::<O>(xs)
    }

    ghost long = { λ _. bare_long O.first O.last O.lawful };
}
