//! Why bytes are not loaded.

/// Why bytes are not taken in, or are not made a series.
#[derive(Clone, Copy, Debug, PartialEq, Eq)]
pub enum LoadRefusal {
    /// No series has these bytes: they were changed, or are too few or too many.
    Damaged,
    /// There was no memory.
    NoMemory,
}

impl LoadRefusal {
    ghost use Rattle.std.specs.Prelude.{◌≡◌};
    ghost use Rattle.lv_saved.specs.Numbers.{number_of};

    /// The number of the refusal, as the other refusals of this library have one.
    pub fn number(self) -> u32
        ensures { result ≡ number_of self }
    {
        match self {
            LoadRefusal::Damaged => 22,
            LoadRefusal::NoMemory => 6,
        }
    }
}
