//! Monoid instances for boards, and how a board stores the folds of blocks.
ghost use Rattle.std.specs.Prelude.{◌≡◌, refl};
ghost use Rattle.lv_machine.specs.Terms.{Folding};
ghost use Rattle.lv_board.specs.Rule.{folds};

use lv_bodies::Parted;

/// A monoid instance that a board can have. Each one that has parts is such an instance.
pub trait BoardBody: Parted {
    /// How a board stores the fold of a block: in parts, each in a word.
    ghost folding: { Self → Folding };

    ghost keeps_parts: { folding ≡ folds Self.PARTS Self.parts_of (λ b. Self.operations b) };
}

impl<B: Parted> BoardBody for B {
    ghost folding = { folds B.PARTS B.parts_of B.operations };

    ghost keeps_parts = { refl };
}
