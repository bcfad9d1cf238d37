/// Why a call on a series was refused. A refused call changes nothing.
#[derive(Clone, Copy, Debug, PartialEq, Eq)]
pub enum LongRefusal {
    /// 2^64 - 1 edits were accepted.
    Worn,
    /// There is nothing to pop.
    Empty,
    /// An index, or the end of a range, isn't kept: the indices from `first` up to `size` are.
    OutOfRange { first: u64, size: u64 },
    /// The last index there can be is taken, which is 2^62 - 1.
    Full,
    /// Memory was needed, and there was none.
    NoMemory,
    /// A range whose start is past its end.
    BadRange,
}

impl LongRefusal {
    ghost use Rattle.std.specs.Prelude.{◌≡◌};
    ghost use Rattle.lv_series.specs.Numbers.{number_of};

    /// The number that scripts show, the one that a vector's refusal of the same reason has.
    pub fn number(self) -> u32
        ensures { result ≡ number_of self }
    {
        match self {
            LongRefusal::Worn => 1,
            LongRefusal::Empty => 2,
            LongRefusal::OutOfRange { .. } => 3,
            LongRefusal::Full => 5,
            LongRefusal::NoMemory => 6,
            LongRefusal::BadRange => 7,
        }
    }
}
