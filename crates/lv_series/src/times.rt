//! The times of samples in an array, in which they do not fall.
ghost use Rattle.std.specs.Prelude.{◌≡◌, ◌≤◌, All, true, false, drop, int_lt, length, take};
ghost use Rattle.lv_series.specs.Samples.{IsRising};

use crate::windows::{is_wide, remove_and_shrink};

/// How many times are before another. They are in front of the others, so this is the place of the first one that isn't before it, or the
/// end. O(log n).
#[tactic(auto, using(crate::proofs::TimeLaws::sought_first, crate::proofs::TimeLaws::all_behind))]
pub fn place_of(times: &[i64], time: i128) -> usize
    requires { IsRising times.now }
    ensures within { result ≤ length times.now }
    ensures before { All (λ t. int_lt t time ≡ true) (take result times.now) }
    ensures behind { All (λ t. int_lt t time ≡ false) (drop result times.now) }
{
    let mut low = 0;
    let mut high = times.len();
    while low < high {
        let mid = low + (high - low) / 2;
        if i128::from(times[mid]) < time {
            low = mid + 1;
        } else {
            high = mid;
        }
    }
    low
}

/// Gives memory back when the first `gone` times are not kept any more. If those are a quarter of the ones that are left they are removed, so
/// that each that expires pays for four that move; and if more than half of the memory would be idle it is given back. Returns how many of the
/// times that are still in memory are not kept.
pub fn forget_times(times: &mut Vec<i64>, gone: usize) -> usize
    requires { gone ≤ length times.old.items }
    ensures within { result ≤ length times.new.items }
    ensures kept { drop result times.new.items ≡ drop gone times.old.items }
{
    let wide = is_wide(times, gone);
    if !wide && gone < (times.len() - gone) / 4 {
        return gone;
    }
    remove_and_shrink(times, gone, wide);
    0
}
