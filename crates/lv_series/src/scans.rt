//! Scans of a series, in pieces: running folds of a range, put into a buffer of the caller's.
ghost use Rattle.std.specs.Prelude.{◌≡◌, ◌-◌, true, false, length, min, All};
ghost use Rattle.lv_geometry.specs.Elements.{IsElement};
ghost use Rattle.lv_series.specs.Series.{Scans, StandsBefore, running_folds};

use crate::answers::LongScan;
use crate::refusals::LongRefusal;
use crate::series::Series;
use lv_bodies::{LongBody, long_laws};

impl Series {
    /// The running folds of a range by a body, each with its own element, as many as the buffer has room for. `before` is the fold of what
    /// comes in front of the piece: the identity, or what the piece before came to. Refused with `BadRange`, then `OutOfRange`, and the
    /// buffer is as it was then. Takes no memory.
    pub fn scan_inclusive<B: LongBody>(
        &self,
        body: &B,
        before: B::S,
        lo: u64,
        hi: u64,
        into: &mut [B::S],
    ) -> Result<LongScan, LongRefusal>
        requires { StandsBefore (B.operations body.now) before (min (length into.old) (hi - lo)) }
        ensures { Scans (B.operations body.now) self.now lo hi true before into.old result into.new }
    {
        self.scan(body, true, before, lo, hi, into)
    }

    /// The running folds of a range by a body, each without its own element. Everything else is as for `scan_inclusive`.
    pub fn scan_exclusive<B: LongBody>(
        &self,
        body: &B,
        before: B::S,
        lo: u64,
        hi: u64,
        into: &mut [B::S],
    ) -> Result<LongScan, LongRefusal>
        requires { StandsBefore (B.operations body.now) before (min (length into.old) (hi - lo)) }
        ensures { Scans (B.operations body.now) self.now lo hi false before into.old result into.new }
    {
        self.scan(body, false, before, lo, hi, into)
    }
    // The running folds of a range, each with its own element or without it.
    #[tactic(auto, using(crate::proofs::KeptLaws::slice_long, crate::proofs::KeptLaws::slice_start, crate::proofs::FreeLaws::free_range))]
    fn scan<B: LongBody>(
        &self,
        body: &B,
        inclusive: bool,
        before: B::S,
        lo: u64,
        hi: u64,
        into: &mut [B::S],
    ) -> Result<LongScan, LongRefusal>
        requires { StandsBefore (B.operations body.now) before (min (length into.old) (hi - lo)) }
        ensures { Scans (B.operations body.now) self.now lo hi inclusive before into.old result into.new }
    {
        match self.elements(lo, hi) {
            Err(refusal) => Err(refusal),
            Ok(elements) => {
                self.holds();
                let count = into.len().min(elements.len());
                fill(
                    body,
                    inclusive,
                    before,
                    &elements[..count],
                    &mut into[..count],
                );
                Ok(LongScan {
                    edit: self.edits,
                    count,
                })
            }
        }
    }
}

// The running folds of some elements, each behind `before`: one for each place of a buffer.
#[inline(always)]
fn fill<B: LongBody>(body: &B, inclusive: bool, before: B::S, elements: &[i64], into: &mut [B::S])
    requires paired { length elements.now ≡ length into.old }
    requires before { StandsBefore (B.operations body.now) before (length elements.now) }
    requires all { All IsElement elements.now }
    ensures { into.new ≡ running_folds inclusive (B.operations body.now) before elements.now }
{
    long_laws(body);
    let mut sum = before;
    for k in 0..into.len() {
        let sum_before = sum;
        sum = body.extend_long(sum_before, elements[k]);
        let value = if inclusive { sum } else { sum_before };
        into[k] = value;
    }
}
