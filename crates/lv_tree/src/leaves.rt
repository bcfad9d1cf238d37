//! A leaf more at the end, and another in the place of one.
ghost use Rattle.std.specs.Prelude.{◌≡◌, ◌+◌, ◌-◌, ◌*◌, ◌^◌, ◌<◌, ◌≤◌, ◌++◌, ◌∷◌, [], length, slice_set};
ghost use Rattle.lv_tree.specs.Folds.{AreFolds};
ghost use Rattle.lv_tree.specs.Nodes.{IsTree};
ghost use Rattle.lv_tree.specs.Parts.{run_of};

use crate::joins::Joins;
use crate::renewals::renew;

// Adds a leaf behind the last one, at place `hi`.
pub fn add_leaf<S: Copy, B: Joins<S>>(body: &B, cells: &mut [S], lo: usize, hi: usize, summary: S)
    requires tree { IsTree (B.operations body.now) lo hi cells.old }
    requires folds { AreFolds (B.operations body.now) (run_of cells.old lo (hi - lo) ++ summary ∷ []) }
    requires order { lo ≤ hi }
    requires inside { hi < length cells.old }
    requires octave { length cells.old ≤ 2 * lo }
    requires few { length cells.old ≤ 2 ^ 62 }
    ensures tree { IsTree (B.operations body.now) lo (hi + 1) cells.new }
    ensures leaves { run_of cells.new lo (hi + 1 - lo) ≡ run_of cells.old lo (hi - lo) ++ summary ∷ [] }
{
    cells[hi] = summary;
    renew(body, cells, lo, hi + 1, hi, false);
}

// Puts another summary in the place of the leaf at place `at`.
pub fn set_leaf<S: Copy, B: Joins<S>>(
    body: &B,
    cells: &mut [S],
    lo: usize,
    hi: usize,
    at: usize,
    summary: S,
)
    requires tree { IsTree (B.operations body.now) lo hi cells.old }
    requires were { AreFolds (B.operations body.now) (run_of cells.old lo (hi - lo)) }
    requires folds { AreFolds (B.operations body.now) (slice_set (run_of cells.old lo (hi - lo)) (at - lo) summary) }
    requires low { lo ≤ at }
    requires high { at < hi }
    requires inside { hi ≤ length cells.old }
    requires octave { length cells.old ≤ 2 * lo }
    requires few { length cells.old ≤ 2 ^ 62 }
    ensures tree { IsTree (B.operations body.now) lo hi cells.new }
    ensures leaves { run_of cells.new lo (hi - lo) ≡ slice_set (run_of cells.old lo (hi - lo)) (at - lo) summary }
{
    cells[at] = summary;
    renew(body, cells, lo, hi, at, true);
}
