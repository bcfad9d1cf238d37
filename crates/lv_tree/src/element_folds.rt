//! Folds of elements without a tree.
ghost use Rattle.std.specs.Prelude.{◌≡◌, ◌+◌, ◌*◌, ◌/◌, ◌≤◌, length};
ghost use Rattle.std.specs.Int.{div_ceil};
ghost use Rattle.std.specs.List.{slice_range};
ghost use Rattle.lv_bodies.specs.Body.{fold_of};

use crate::elements::Elements;
use lv_bodies::{LongBody, fold_long, long_laws};

/// The fold of the elements from place `lo` up to `hi`, without a tree and without a copy.
#[inline(always)]
pub fn fold_elements<B: LongBody, E: Elements>(body: &B, elements: &E, lo: usize, hi: usize) -> B::S
    requires order { lo ≤ hi }
    requires inside { hi ≤ length (E.listed elements.now) }
    ensures { result ≡ fold_of (B.operations body.now) (slice_range (E.listed elements.now) lo hi) }
{
    if lo == hi {
        return body.identity();
    }
    let run = elements.run(lo, hi);
    if run.len() == hi - lo {
        return fold_long(body, run);
    }
    fold_in_turn(body, elements, lo, hi)
}

// The fold of the elements from place `lo` up to `hi`, computed an element at a time, since they are not all side by side.
fn fold_in_turn<B: LongBody, E: Elements>(body: &B, elements: &E, lo: usize, hi: usize) -> B::S
    requires order { lo ≤ hi }
    requires inside { hi ≤ length (E.listed elements.now) }
    ensures { result ≡ fold_of (B.operations body.now) (slice_range (E.listed elements.now) lo hi) }
{
    long_laws(body);
    elements.bounds();
    let mut sum = body.identity();
    for i in lo..hi {
        sum = body.extend_long(sum, elements.read(i));
    }
    sum
}

/// The fold of a range from that of the blocks inside of it, and the elements at its two ends.
#[inline(always)]
pub fn join_ends<B: LongBody, E: Elements>(
    body: &B,
    elements: &E,
    lo: usize,
    hi: usize,
    middle: B::S,
) -> B::S
    requires apart { lo + 8 ≤ hi }
    requires inside { hi ≤ length (E.listed elements.now) }
    requires middle { middle ≡ fold_of (B.operations body.now) (slice_range (E.listed elements.now) (8 * div_ceil lo 8) (8 * (hi / 8))) }
    ensures { result ≡ fold_of (B.operations body.now) (slice_range (E.listed elements.now) lo hi) }
{
    long_laws(body);
    elements.bounds();
    let start = 8 * lo.div_ceil(8);
    let end = 8 * (hi / 8);
    let front = fold_elements(body, elements, lo, start);
    let back = fold_elements(body, elements, end, hi);
    let joined = body.combine_long(front, middle);
    body.combine_long(joined, back)
}
