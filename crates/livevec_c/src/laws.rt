//! A law that states what the values are that C sees.
ghost use Rattle.std.specs.Prelude.{◌≡◌, ℕ, ℤ, List};
ghost use Rattle.lv_bodies.specs.Body.{fold_of};
ghost use Rattle.lv_bodies.specs.Six.{six_operations_by};
ghost use Rattle.livevec_c.specs.Answers.{spread};
ghost use Rattle.livevec_c.specs.Plainly.{AreValues};

/// The values that a reduction answers are the plain values of its range, by each of the six kinds.
pub fn values_are_plain()
    ensures { (table : List (List ℕ)) (xs : List ℤ) → AreValues table xs (spread (fold_of (six_operations_by table) xs)) }
{}
