//! What holds of the plain values and of the bodies' folds, each as a function of no effect that promises it.
ghost use Rattle.std.specs.Prelude.{◌≡◌, ◌<◌, ℤ, Some, List, length};
ghost use Rattle.lv_bodies.specs.Body.{fold_of};
ghost use Rattle.lv_bodies.specs.Extremes.{least_operations, greatest_operations, lowest_operations, highest_operations};
ghost use Rattle.lv_bodies.specs.Long.{CanFoldLong};
ghost use Rattle.lv_bodies.specs.RunTotals.{best_operations, runs_operations};
ghost use Rattle.lv_bodies.specs.Parts.{HasParts};
ghost use Rattle.lv_bodies.specs.Plain.{plain_least, plain_greatest, plain_best, IsPlainLeast, IsPlainGreatest, IsPlainBest};

use crate::bodies::Body;
use crate::pairs::Pair;
use crate::parts::Parted;

/// The plain least and greatest are bounds that are reached: there is none if and only if there are no elements, and else it is an element that
/// no element goes below, or above.
pub fn extremes_are_reached_bounds()
    ensures least { (xs : List ℤ) → IsPlainLeast xs (plain_least xs) }
    ensures greatest { (xs : List ℤ) → IsPlainGreatest xs (plain_greatest xs) }
{}

/// The plain best is the greatest total from some place up to a later one. There is none if and only if there are no elements.
pub fn best_is_the_best_run()
    ensures { (xs : List ℤ) → IsPlainBest xs (plain_best xs) }
{}

/// The fold of a pair is the pair of the folds.
pub fn pair_folds_apart<A: Body, B: Body>()
    ensures { (p : Pair A B) (xs : List ℤ) →
        fold_of (⟦<Pair<A, B> as Body>⟧.operations p) xs ≡ (fold_of (A.operations p.first) xs, fold_of (B.operations p.second) xs) }
{}

/// The fold of eight elements of 16 bits is the whole of its parts.
pub fn eight_come_back_from_parts<B: Parted>()
    ensures { (b : B) → HasParts B.parts_of B.whole_of (B.operations b) }
{}

/// If there are elements, the folds of the bare bodies are the values inside the folds that may be missing.
pub fn bare_folds_are_inside()
    ensures lowest { (xs : List ℤ) → 0 < length xs → CanFoldLong xs → Some (fold_of lowest_operations xs) ≡ fold_of least_operations xs }
    ensures highest { (xs : List ℤ) → 0 < length xs → CanFoldLong xs → Some (fold_of highest_operations xs) ≡ fold_of greatest_operations xs }
    ensures runs { (xs : List ℤ) → 0 < length xs → CanFoldLong xs → Some (fold_of runs_operations xs) ≡ fold_of best_operations xs }
{}
