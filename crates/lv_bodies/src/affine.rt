//! The affine body: the map that the elements are in turn, modulo 2^32.
ghost use Rattle.std.specs.Prelude.{◌≡◌};

use crate::bodies::Body;
use crate::kinds::{Kind, Shown};
use crate::parts::Parted;
use crate::singles::Single;

/// The map `y -> a * y + b` modulo 2^32.
#[derive(Clone, Copy, PartialEq, Eq)]
pub struct AffineMap {
    pub a: u32,
    pub b: u32,
}

impl AffineMap {
    ghost use Rattle.lv_bodies.specs.AffineMaps.{map_of, join_maps};

    /// The map of one element: by its number of 256s, rounded down, and the rest.
    #[inline(always)]
    fn of(x: i64) -> AffineMap
        ensures { result ≡ map_of x }
    {
        let bits = x.cast_unsigned();
        AffineMap {
            a: (bits / 256 % (1 << 32)) as u32,
            b: (bits % 256) as u32,
        }
    }

    /// This map, and then the next.
    #[inline(always)]
    fn then(self, next: AffineMap) -> AffineMap
        ensures { result ≡ join_maps self next }
    {
        AffineMap {
            a: self.a.wrapping_mul(next.a),
            b: next.a.wrapping_mul(self.b).wrapping_add(next.b),
        }
    }
}

/// The map that the elements are in turn, each as `y -> a * y + b` modulo 2^32 for `a` its number of 256s, rounded
/// down, and `b` the rest.
#[derive(Clone, Copy, PartialEq, Eq)]
pub struct Affine;

impl Body for Affine {
    ghost use Rattle.std.proofs.Common.{refl};
    ghost use Rattle.lv_bodies.specs.AffineMaps.{affine_operations, IsAffineMap};
    ghost use Rattle.lv_bodies.specs.AffineLaws.{affine_laws, exact_maps};

    type S = AffineMap;

    ghost Meaning = { Unit {0} };

    ghost meaning = { λ _. tt };

    ghost operations = { λ _. affine_operations };

    ghost decided = { λ _ _ _. refl };

    ghost is_within = { λ _. IsAffineMap };

    ghost laws = { λ _. affine_laws };

    #[inline(always)]
    fn identity(&self) -> AffineMap {
        AffineMap { a: 1, b: 0 }
    }

    #[inline(always)]
    fn lift(&self, x: i64) -> AffineMap {
        AffineMap::of(x)
    }

    #[inline(always)]
    fn combine(&self, a: AffineMap, b: AffineMap) -> AffineMap {
        a.then(b)
    }

    fn same(&self, _other: &Affine) -> bool {
        true
    }

    ghost equal = { exact_maps };
}

impl Single for Affine {
    ghost use Rattle.lv_bodies.specs.declared.kinds.Kind.TheVariants as kind;
    ghost use Rattle.lv_bodies.specs.declared.kinds.Shown.TheVariants as shown;
    ghost use Rattle.lv_bodies.specs.Plain.{plain_affine};
    ghost use Rattle.lv_bodies.specs.AffineLaws.{fold_of-affine, shown_alike};

    ghost the_kind = { kind.Affine };

    ghost shown_as = { λ _ s. shown.Affine s.a s.b };

    ghost plain = { λ _ xs. shown.Affine (plain_affine xs).0 (plain_affine xs).1 };

    fn kind(&self) -> Kind {
        Kind::Affine
    }

    fn shown(&self, s: AffineMap) -> Shown {
        Shown::Affine { a: s.a, b: s.b }
    }

    ghost shows_plain = { λ _ xs can. let same = fold_of-affine xs can in shown_alike _ _ _ _ same.0 same.1 };
}

impl Parted for Affine {
    ghost use Rattle.lv_bodies.specs.Parts.{affine_parts, affine_of_parts};
    ghost use Rattle.lv_bodies.specs.PartsLaws.{affine-are_parts, affine-has_parts};
    ghost use Rattle.std.proofs.Common.{lit≤};

    ghost PARTS = { 2 };

    const PARTS: u32 = 2;

    ghost some = { (lit≤ tt, lit≤ tt) };

    ghost parts_of = { affine_parts };

    ghost whole_of = { affine_of_parts };

    ghost are_parts = { affine-are_parts };

    fn to_parts(s: AffineMap) -> [u32; 4] {
        [s.a, s.b, 0, 0]
    }

    fn of_parts(parts: [u32; 4]) -> AffineMap {
        AffineMap {
            a: parts[0],
            b: parts[1],
        }
    }

    ghost has_parts = { λ _. affine-has_parts };
}
