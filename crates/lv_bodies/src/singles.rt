//! Bodies of one kind, whose summaries can be shown.
ghost use Rattle.std.specs.Prelude.{◌≡◌, ℤ, List};
ghost use Rattle.lv_bodies.specs.Body.{fold_of, CanFold};

use crate::bodies::Body;
use crate::kinds::{Kind, Shown};

/// A body of one kind, whose summaries can be shown.
pub trait Single: Body {
    ghost use Rattle.lv_bodies.specs.declared.kinds.Kind.{Kind};
    ghost use Rattle.lv_bodies.specs.declared.kinds.Shown.{Shown};

    /// Which kind it is.
    ghost the_kind: { Kind };

    /// How a summary is shown.
    ghost shown_as: { Self → Self.S → Shown };

    /// The plain value of a list, stated without any join.
    ghost plain: { Self → List ℤ → Shown };

    fn kind(&self) -> Kind
        ensures { result ≡ the_kind };

    /// Shows a summary.
    fn shown(&self, s: Self::S) -> Shown
        ensures { result ≡ shown_as self.now s };

    /// What is shown of a fold is the plain value.
    ghost shows_plain: { (b : Self) (xs : List ℤ) → CanFold xs →
        shown_as b (fold_of (Self.operations b) xs) ≡ plain b xs };
}
