//! A law about the bytes of all states.
ghost use Rattle.std.specs.Prelude.{◌≡◌};
ghost use Rattle.lv_saved.specs.Saved.{IsSaved, Saved, bytes_of};

/// No two states that may be saved have the same bytes. So bytes in which one was changed are those of no state, or of another one.
pub fn damage_shows()
    ensures { (s t : Saved) → IsSaved s → IsSaved t → bytes_of s ≡ bytes_of t → s ≡ t }
{}
