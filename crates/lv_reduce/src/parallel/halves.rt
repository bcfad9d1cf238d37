//! Folds and scans by several threads: a row is halved until each thread has a part, and each half is worked on by a thread of
//! its own.
ghost use Rattle.std.specs.Prelude.{◌≡◌, ◌+◌, ◌<◌, ◌≤◌, ◌^◌, ℕ};
ghost use Rattle.std.specs.Thread.{IsSync, IsSend};
ghost use Rattle.lv_bodies.specs.Body.{fold_of};
ghost use Rattle.lv_reduce.specs.Rows.{IsPart, elements_of};

use crate::reductions::join;
use crate::rows::{Part, fold_range};
use lv_bodies::Body;
use rayon::current_num_threads;
use std::mem::size_of_val;
use std::thread;
use std::thread::Threads;

/// The number of elements from which on a row has two parts, however narrow its summaries are: only the caller knows how long a `lift` takes. If
/// it takes no time, two threads fold so many sums in 27 microseconds, while one takes 11.
const WORTH_TWO: u32 = 1 << 16;

/// How many bytes of summaries make a part that is worth a thread, if they are only folded. A thread takes about 10 microseconds to start and to
/// end, and the second level of halves 15 more; a sum takes 20 microseconds for so many bytes, a best run 25. So two parts pay from 2 MiB on, and
/// four from 4 MiB on. More parts than processors only cost.
pub const LEAST_FOLD: usize = 1 << 20;

/// How many bytes make a part that is worth a thread, if each summary is stored, as in a scan by three and more. There one thread has to fill the
/// room first, which is three quarters of a scan by one thread if summaries are wide; then all threads write it again. So it pays only if joins
/// take long.
pub const LEAST_SCAN: usize = 1 << 25;

/// Into how many parts a row of so many elements is cut: as many as have the least number of bytes of summaries that is worth a thread, and two
/// if the row is worth two. If they are more than two, they are at most one fewer than there are processors: when the machine has other work, all
/// wait for the thread that gets no processor. The number of processors is asked for only then, since that takes 20 microseconds.
pub fn parts_for<R: Threads, B: Body>(rt: &R, body: &B, len: u32, least: usize) -> usize
    requires { 0 < least }
    ensures { 0 < result }
{
    let two = if len < WORTH_TWO { 1 } else { 2 };
    let parts = size_of_val(&body.identity()).saturating_mul(len as usize) / least;
    if parts <= two {
        return two;
    }
    parts.min(current_num_threads(rt) - 1).max(two)
}

/// The fold of the elements of a part of a row, by so many threads. Each folds a part of it.
pub fn fold_halved<R: Threads + Sync, B: Body>(
    rt: &R,
    part: Part<'_>,
    body: &B,
    parts: usize,
) -> B::S
    requires part { IsPart part }
    ensures { result ≡ fold_of (B.operations body.now) (elements_of part.entry) }
{
    let Part { row, lo, hi } = part;
    if parts < 2 {
        return fold_range(row, body, lo, hi);
    }
    let low = parts / 2;
    let high = parts - low;
    let mid = cut(lo, hi, low, parts);
    let (first, second) = (Part { row, lo, hi: mid }, Part { row, lo: mid, hi });
    let (front, back) = thread::join(
        rt,
        || -> B::S
            requires { IsSync R.row × IsSync B.row × (0 < low) × IsPart first }
            ensures { result ≡ fold_of (B.operations body.entry.now) (elements_of first.entry) }
        { fold_halved(rt, first, body, low) },
        || -> B::S
            requires { IsSync R.row × IsSync B.row × (0 < high) × IsPart second }
            ensures { result ≡ fold_of (B.operations body.entry.now) (elements_of second.entry) }
        { fold_halved(rt, second, body, high) },
    );
    join(body, front, back)
}

/// The index at which the first few of so many parts of a range end. It is the start of a block, if one begins in them.
pub fn cut(lo: u32, hi: u32, few: usize, parts: usize) -> u32
    requires order { lo ≤ hi }
    requires some { 0 < parts }
    ensures low { lo ≤ result }
    ensures high { result ≤ hi }
{
    let wide = ((hi - lo) as usize / parts).saturating_mul(few);
    let end = wide.saturating_add(lo as usize) / 8 * 8;
    end.max(lo as usize).min(hi as usize) as u32
}
