//! The first element by an order, as a body: the least and the greatest.
use crate::bodies::Body;
use crate::first_halves::first_of_eight;
use crate::kinds::{Kind, Shown};
use crate::long::LongBody;
use crate::orders::{Downward, Order, Upward};
use crate::parts::{Parted, low_bits};
use crate::singles::Single;
use std::alloc::AllocError;

/// The element that comes first by an order, if there is one.
#[derive(PartialEq, Eq)]
pub struct Extreme<O> {
    order: O,
}

/// The least element, if there is one.
pub type Least = Extreme<Upward>;

/// The greatest element, if there is one.
pub type Greatest = Extreme<Downward>;

/// The least element, if there is one.
#[allow(non_upper_case_globals)]
pub const Least: Least = Extreme { order: Upward };

/// The greatest element, if there is one.
#[allow(non_upper_case_globals)]
pub const Greatest: Greatest = Extreme { order: Downward };

impl<O: Copy> Clone for Extreme<O> {
    ghost use Rattle.std.specs.Prelude.{◌≡◌, ⊤};

    ghost is_clone = { λ x y. y ≡ x };

    ghost is_infallible = { λ _. ⊤ };

    fn clone(&self) -> Result<Extreme<O>, AllocError> {
        Ok(*self)
    }
}

impl<O: Copy> Copy for Extreme<O> {}

impl<O: Order + Send + Sync> Body for Extreme<O> {
    ghost use Rattle.std.proofs.Common.{rules, refl};
    ghost use Rattle.lv_bodies.specs.Extremes.{extreme_operations, IsExtreme};
    ghost use Rattle.lv_bodies.specs.ExtremeLaws.{extreme_laws};

    type S = Option<i64>;

    ghost Meaning = { Unit {0} };

    ghost meaning = { λ _. tt };

    ghost operations = { λ _. extreme_operations O.first };

    ghost decided = { λ _ _ _. refl };

    ghost is_within = { λ _. IsExtreme };

    ghost laws = { λ _. extreme_laws O.first O.last O.lawful };

    #[inline(always)]
    fn identity(&self) -> Option<i64> {
        None
    }

    #[inline(always)]
    fn lift(&self, x: i64) -> Option<i64> {
        Some(x)
    }

    #[inline(always)]
    fn combine(&self, a: Option<i64>, b: Option<i64>) -> Option<i64> {
        match (a, b) {
            (Some(x), Some(y)) => Some(O::first_of(x, y)),
            (None, t) => t,
            (s, None) => s,
        }
    }

    fn same(&self, _other: &Extreme<O>) -> bool {
        true
    }

    ghost equal = { λ s t. Prim.search rules };
}

impl<O: Order + Send + Sync> Single for Extreme<O> {
    ghost use Rattle.std.specs.List.{reduce};
    ghost use Rattle.std.proofs.Common.{ap};
    ghost use Rattle.lv_bodies.specs.ExtremeLaws.{fold_of-choice};

    ghost the_kind = { O.first_kind };

    ghost shown_as = { λ _ s. O.first_shown s };

    ghost plain = { λ _ xs. O.first_shown (reduce O.first xs) };

    fn kind(&self) -> Kind {
        O::kind_of_first()
    }

    fn shown(&self, s: Option<i64>) -> Shown {
        O::show_first(s)
    }

    ghost shows_plain = { λ _ xs _. ap O.first_shown (fold_of-choice O.first xs) };
}

impl<O: Order + Send + Sync> Parted for Extreme<O> {
    ghost use Rattle.lv_bodies.specs.Parts.{extreme_parts, extreme_of_parts};
    ghost use Rattle.lv_bodies.specs.PartsLaws.{extreme-are_parts, extreme-has_parts};
    ghost use Rattle.std.proofs.Common.{lit≤};

    ghost PARTS = { 1 };

    const PARTS: u32 = 1;

    ghost some = { (lit≤ tt, lit≤ tt) };

    ghost parts_of = { extreme_parts };

    ghost whole_of = { extreme_of_parts };

    ghost are_parts = { extreme-are_parts };

    fn to_parts(s: Option<i64>) -> [u32; 4] {
        [low_bits(i128::from(s.unwrap_or(0))), 0, 0, 0]
    }

    fn of_parts(parts: [u32; 4]) -> Option<i64> {
        Some(i64::from(parts[0].cast_signed()))
    }

    ghost has_parts = { λ _. extreme-has_parts O.first O.last O.lawful };
}

impl<O: Order + Send + Sync> LongBody for Extreme<O> {
    ghost use Rattle.lv_bodies.specs.LongLaws.{extreme_long};

    #[inline(always)]
    fn combine_long(&self, a: Option<i64>, b: Option<i64>) -> Option<i64> {
        self.combine(a, b)
    }

    #[inline(always)]
    fn fold_eight(&self, xs: &[i64]) -> Option<i64> {
        Some(first_of_eight::<O>(xs))
    }

    ghost long = { λ _. extreme_long O.first O.last O.lawful };
}
