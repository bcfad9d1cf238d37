//! Whether times do not fall.
ghost use Rattle.std.specs.Prelude.{◌↔◌, IsTrue};
ghost use Rattle.lv_series.specs.Samples.{IsRising};

/// Whether no time is less than the one before it. O(n).
pub fn are_rising(times: &[i64]) -> bool
    ensures { IsTrue result ↔ IsRising times.now }
{
    for k in 1..times.len() {
        if times[k] < times[k - 1] {
            return false;
        }
    }
    true
}
