//! The sum modulo 2^64, as a body.
ghost use Rattle.std.specs.Prelude.{◌≡◌, ◌↔◌, ℕ, ℤ, IsTrue};

use crate::bodies::Body;
use crate::kinds::{Kind, Shown};
use crate::parts::Parted;
use crate::singles::Single;

/// The sum of the elements modulo 2^64.
#[derive(Clone, Copy, PartialEq, Eq)]
pub struct Sum;

impl Body for Sum {
    ghost use Rattle.lv_bodies.specs.Sums.{sum_operations, IsSum};
    ghost use Rattle.std.proofs.Common.{rules, refl};
    ghost use Rattle.lv_bodies.specs.SumLaws.{sum_laws};

    type S = u64;

    ghost Meaning = { Unit {0} };

    ghost meaning = { λ _. tt };

    ghost operations = { λ _. sum_operations };

    ghost decided = { λ _ _ _. refl };

    ghost is_within = { λ _. IsSum };

    ghost laws = { λ _. sum_laws };

    #[inline(always)]
    fn identity(&self) -> u64 {
        0
    }

    #[inline(always)]
    fn lift(&self, x: i64) -> u64 {
        x.cast_unsigned()
    }

    #[inline(always)]
    fn combine(&self, a: u64, b: u64) -> u64 {
        a.wrapping_add(b)
    }

    fn same(&self, _other: &Sum) -> bool {
        true
    }

    ghost equal = { λ s t. Prim.search rules };
}

impl Single for Sum {
    ghost use Rattle.lv_bodies.specs.declared.kinds.Kind.TheVariants as kind;
    ghost use Rattle.lv_bodies.specs.declared.kinds.Shown.TheVariants as shown;
    ghost use Rattle.lv_bodies.specs.Plain.{plain_sum};
    ghost use Rattle.lv_bodies.specs.SumLaws.{fold_of-sum};
    ghost use Rattle.std.proofs.Common.{ap};

    ghost the_kind = { kind.Sum };

    ghost shown_as = { λ _ s. shown.Sum s };

    ghost plain = { λ _ xs. shown.Sum (plain_sum xs) };

    fn kind(&self) -> Kind {
        Kind::Sum
    }

    fn shown(&self, s: u64) -> Shown {
        Shown::Sum(s)
    }

    ghost shows_plain = { λ _ xs _. ap shown.Sum (fold_of-sum xs) };
}

impl Parted for Sum {
    ghost use Rattle.lv_bodies.specs.Parts.{sum_parts, sum_of_parts};
    ghost use Rattle.lv_bodies.specs.PartsLaws.{sum-are_parts, sum-has_parts};
    ghost use Rattle.std.proofs.Common.{lit≤};

    ghost PARTS = { 1 };

    const PARTS: u32 = 1;

    ghost some = { (lit≤ tt, lit≤ tt) };

    ghost parts_of = { sum_parts };

    ghost whole_of = { sum_of_parts };

    ghost are_parts = { sum-are_parts };

    fn to_parts(s: u64) -> [u32; 4] {
        [(s % (1 << 32)) as u32, 0, 0, 0]
    }

    fn of_parts(parts: [u32; 4]) -> u64 {
        i64::from(parts[0].cast_signed()).cast_unsigned()
    }

    ghost has_parts = { λ _. sum-has_parts };
}
