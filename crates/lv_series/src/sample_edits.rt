//! Edits of samples, and why one is refused.
use crate::refusals::LongRefusal;

/// A value, and when it was taken. Times are numbers in a unit of the caller's.
#[derive(Clone, Copy, PartialEq, Eq)]
pub struct Sample {
    pub time: i64,
    pub value: i64,
}

/// One change of samples. Indices count from the first sample that was ever pushed.
#[derive(Clone, Copy, PartialEq, Eq)]
pub enum SampleEdit {
    /// Puts a sample at the end, whose time is at least that of the last one.
    Push { time: i64, value: i64 },
    /// Drops the last sample.
    Pop,
    /// Overwrites the value of the sample under an index. Its time stays.
    Write { index: u64, value: i64 },
    /// Drops the samples before an index. The others keep their indices.
    Expire(u64),
    /// Drops the samples from an index on.
    Truncate(u64),
}

/// Why an edit of samples was refused. A refused call changes nothing.
#[derive(Clone, Copy, PartialEq, Eq)]
pub enum SampleRefusal {
    /// As the series of values refuses it.
    Refused(LongRefusal),
    /// The time is before that of the last sample, which is `newest`.
    Earlier { newest: i64 },
}

impl SampleRefusal {
    ghost use Rattle.std.specs.Prelude.{◌≡◌};
    ghost use Rattle.lv_series.specs.Numbers.{sample_number_of};

    /// The number of the refusal: that of the series', or 21 of an earlier time.
    pub fn number(self) -> u32
        ensures { result ≡ sample_number_of self }
    {
        match self {
            SampleRefusal::Refused(refusal) => refusal.number(),
            SampleRefusal::Earlier { .. } => 21,
        }
    }
}
