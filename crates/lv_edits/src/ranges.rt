//! Which ranges of a vector's elements are rejected.
ghost use Rattle.std.specs.Prelude.{◌≡◌, ◌≤◌, length, IfNone};
ghost use Rattle.lv_edits.specs.History.{list_of};
ghost use Rattle.lv_edits.specs.Kept.{IsLegalInLimits};
ghost use Rattle.lv_edits.specs.Ranges.{range_refusal};

use crate::edits::Edits;
use lv_geometry::Refusal;

/// Why the range from index `lo` up to `hi` is rejected, or none if it isn't. `BadRange` comes before `OutOfRange`.
pub fn refusal_of(history: &Edits, lo: u32, hi: u32) -> Option<Refusal>
    ensures value { result ≡ range_refusal history.now.journal lo hi }
    ensures limits { IsLegalInLimits history.now }
    ensures order { IfNone result (lo ≤ hi) }
    ensures inside { IfNone result (hi ≤ length (list_of history.now.journal)) }
{
    let size = history.size();
    if hi < lo {
        Some(Refusal::BadRange)
    } else if size < hi {
        Some(Refusal::OutOfRange { size })
    } else {
        None
    }
}
