//! What every tree over summaries can do, however its nodes are stored.
ghost use Rattle.std.specs.Prelude.{◌≡◌, ℕ, ℤ, ◌+◌, ◌^◌, ◌<◌, ◌≤◌, List, [], ◌∷◌, ◌++◌, length, take, slice_set, IfErr, OnOk};
ghost use Rattle.std.specs.List.{slice_range};
ghost use Rattle.lv_bodies.specs.Body.{fold_of};
ghost use Rattle.lv_tree.specs.Folds.{AreFolds, AreFoldsOf, end_to_end};

use lv_bodies::{Body, LongBody};
use lv_geometry::Refusal;
use std::alloc::Global;

/// Summaries of leaves in order. Any range of them is folded in few steps. Room is made beforehand: no other call takes memory.
pub trait Tree: Drop {
    type B: LongBody;

    // The summaries of its leaves, in order.
    ghost sums: { Self → List Self.B.S };

    // How many leaves there is room for.
    ghost room: { Self → ℕ };

    // By which body it folds.
    ghost by: { Self → Self.B };

    /// No leaves. Takes no memory.
    fn new(alloc: Global, body: Self::B) -> Self
        ensures sums { sums result ≡ [] }
        ensures by { by result ≡ body };

    /// By which body it folds.
    fn body(&self) -> Self::B
        ensures { result ≡ by self.now };

    /// How many leaves there are.
    fn len(&self) -> usize
        ensures { result ≡ length (sums self.now) };

    /// Makes room for so many leaves in all.
    ///
    /// # Errors
    /// `NoMemory` if there is none; what is kept stays.
    fn reserve(&mut self, leaves: usize) -> Result<(), Refusal>
        requires { leaves ≤ 2 ^ 40 }
        ensures sums { sums self.new ≡ sums self.old }
        ensures by { by self.new ≡ by self.old }
        ensures room { room self.old ≤ room self.new }
        ensures ok { OnOk result (leaves ≤ room self.new) }
        ensures err { IfErr result (λ refusal. refusal ≡ Refusal.NoMemory) };

    /// Adds a leaf behind the last one.
    fn push(&mut self, summary: <Self::B as Body>::S)
        requires folds { AreFolds (Self.B.operations (by self.old)) (sums self.old ++ summary ∷ []) }
        requires free { length (sums self.old) < room self.old }
        ensures sums { sums self.new ≡ sums self.old ++ summary ∷ [] }
        ensures by { by self.new ≡ by self.old }
        ensures room { room self.new ≡ room self.old };

    /// Puts another summary in the place of a leaf's.
    fn set(&mut self, leaf: usize, summary: <Self::B as Body>::S)
        requires within { leaf < length (sums self.old) }
        requires folds { AreFolds (Self.B.operations (by self.old)) (slice_set (sums self.old) leaf summary) }
        ensures sums { sums self.new ≡ slice_set (sums self.old) leaf summary }
        ensures by { by self.new ≡ by self.old }
        ensures room { room self.new ≡ room self.old };

    /// Keeps the first `count` leaves, and drops the others.
    fn truncate(&mut self, count: usize)
        requires { count ≤ length (sums self.old) }
        ensures sums { sums self.new ≡ take count (sums self.old) }
        ensures by { by self.new ≡ by self.old }
        ensures room { room self.new ≡ room self.old };

    /// The summary of the elements of the leaves from place `from` up to `to`.
    fn fold(&self, from: usize, to: usize) -> <Self::B as Body>::S
        requires folds { AreFolds (Self.B.operations (by self.now)) (sums self.now) }
        requires order { from ≤ to }
        requires last { to ≤ length (sums self.now) }
        ensures { (lists : List (List ℤ)) → AreFoldsOf (Self.B.operations (by self.now)) lists (sums self.now)
            → result ≡ fold_of (Self.B.operations (by self.now)) (end_to_end (slice_range lists from to)) };
}
