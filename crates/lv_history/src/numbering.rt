//! The numbers by which updates are reported.
ghost use Rattle.std.specs.Prelude.{◌≡◌, ◌≤◌, ◌^◌};
ghost use Rattle.lv_history.specs.Numbering.{from_the_first, told_number};

use lv_transcript::LogHeading;

/// No log came before: each update of the hub has its own number.
pub fn from_the_first() -> LogHeading
    ensures { result ≡ from_the_first }
{
    LogHeading {
        base: 0,
        elements: 0,
    }
}

/// The number by which an update of the hub is reported.
#[inline(always)]
pub fn told_number(numbers: LogHeading, edit: u64) -> u64
    requires base { numbers.base ≤ 2 ^ 62 }
    requires few { edit ≤ 2 ^ 62 }
    ensures { result ≡ told_number numbers edit }
{
    numbers.base + edit.saturating_sub(numbers.elements.into())
}
