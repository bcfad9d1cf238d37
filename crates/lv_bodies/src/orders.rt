//! The two orders of elements: by which of two one comes first.
ghost use Rattle.std.specs.Prelude.{◌≡◌, ℤ, Option, List};
ghost use Rattle.std.specs.List.{reduce};
ghost use Rattle.lv_bodies.specs.Extremes.{OrderLaws};

use crate::kinds::{Kind, Shown};

/// An order of the elements. The first of some elements by it is a kind of its own.
pub trait Order: Copy {
    ghost use Rattle.lv_bodies.specs.declared.kinds.Kind.{Kind};
    ghost use Rattle.lv_bodies.specs.declared.kinds.Shown.{Shown};

    // The one of two that comes first.
    ghost first: { ℤ → ℤ → ℤ };

    // The element after which none comes.
    ghost last: { ℤ };

    ghost lawful: { OrderLaws first last };

    ghost first_kind: { Kind };

    ghost first_shown: { Option ℤ → Shown };

    /// The one of two elements that comes first.
    fn first_of(a: i64, b: i64) -> i64
        ensures { result ≡ first a b };

    /// The element after which none comes.
    fn last() -> i64
        ensures { result ≡ last };

    /// The kind that asks for the first of all.
    fn kind_of_first() -> Kind
        ensures { result ≡ first_kind };

    /// Shows the first of all, if there is one.
    fn show_first(s: Option<i64>) -> Shown
        ensures { result ≡ first_shown s };
}

/// The smaller comes first.
#[derive(Clone, Copy, PartialEq, Eq)]
pub struct Upward;

/// The greater comes first.
#[derive(Clone, Copy, PartialEq, Eq)]
pub struct Downward;

impl Order for Upward {
    ghost use Rattle.std.specs.Prelude.{pos, ◌-◌, ◌^◌};
    ghost use Rattle.std.specs.Int.{int_min};
    ghost use Rattle.lv_bodies.specs.ExtremeLaws.{upward};
    ghost use Rattle.lv_bodies.specs.declared.kinds.Kind.TheVariants as kind;
    ghost use Rattle.lv_bodies.specs.declared.kinds.Shown.TheVariants as shown;

    ghost first = { int_min };

    ghost last = { pos (2 ^ 63 - 1) };

    ghost lawful = { upward };

    ghost first_kind = { kind.Least };

    ghost first_shown = { shown.Least };

    #[inline(always)]
    fn first_of(a: i64, b: i64) -> i64 {
        a.min(b)
    }

    #[inline(always)]
    fn last() -> i64 {
        i64::MAX
    }

    fn kind_of_first() -> Kind {
        Kind::Least
    }

    fn show_first(s: Option<i64>) -> Shown {
        Shown::Least(s)
    }
}

impl Order for Downward {
    ghost use Rattle.std.specs.Prelude.{negsuc, ◌-◌, ◌^◌};
    ghost use Rattle.std.specs.Int.{int_max};
    ghost use Rattle.lv_bodies.specs.ExtremeLaws.{downward};
    ghost use Rattle.lv_bodies.specs.declared.kinds.Kind.TheVariants as kind;
    ghost use Rattle.lv_bodies.specs.declared.kinds.Shown.TheVariants as shown;

    ghost first = { int_max };

    ghost last = { negsuc (2 ^ 63 - 1) };

    ghost lawful = { downward };

    ghost first_kind = { kind.Greatest };

    ghost first_shown = { shown.Greatest };

    #[inline(always)]
    fn first_of(a: i64, b: i64) -> i64 {
        a.max(b)
    }

    #[inline(always)]
    fn last() -> i64 {
        i64::MIN
    }

    fn kind_of_first() -> Kind {
        Kind::Greatest
    }

    fn show_first(s: Option<i64>) -> Shown {
        Shown::Greatest(s)
    }
}
