//! The folds of a list's blocks by one body: each is computed once it is asked for, and forgotten once an edit touches its block.
ghost use Rattle.std.specs.Prelude.{◌≡◌, ◌+◌, ◌*◌, ◌/◌, ◌^◌, ◌<◌, ◌≤◌, None, IfOk, is_ok, if◌then◌else◌, length, take, slice_set, slice_range, vec_len};
ghost use Rattle.lv_transcript.specs.Blocks.{AreFolds, IsFold, block_elements, with_places};

use lv_bodies::{Body, fold_slice};
use std::alloc::AllocError;

/// How many elements a block has.
const BLOCK: usize = 1024;

/// Forgets the fold of the block that has an index.
pub(crate) fn forget<S: Copy>(folds: &mut Vec<Option<S>>, index: usize)
    ensures { folds.new.items ≡ slice_set folds.old.items (index / 1024) None }
{
    let block = index / BLOCK;
    if block < folds.len() {
        folds[block] = None;
    }
}

/// Forgets the folds of the blocks that end after so many elements.
pub(crate) fn cut<S: Copy>(folds: &mut Vec<Option<S>>, count: usize)
    ensures { folds.new.items ≡ take (count / 1024) folds.old.items }
{
    folds.truncate(count / BLOCK);
}

/// The fold of the elements from index `lo` up to `hi`, computed from the folds of the blocks between them. Folds that are not known are computed and
/// kept. If there is no memory to keep them, nothing changes.
pub(crate) fn fold_range<B: Body>(
    body: &B,
    list: &[i64],
    folds: &mut Vec<Option<B::S>>,
    lo: usize,
    hi: usize,
) -> Result<B::S, AllocError>
    requires few { length list.now ≤ 2 ^ 20 }
    requires order { lo ≤ hi }
    requires inside { hi ≤ length list.now }
    requires folds { AreFolds (B.operations body.now) list.now folds.old.items }
    ensures fold { IfOk result (IsFold (B.operations body.now) (slice_range list.now lo hi)) }
    ensures folds { AreFolds (B.operations body.now) list.now folds.new.items }
{
    let (first, last) = (lo.div_ceil(BLOCK), hi / BLOCK);
    if last <= first {
        return Ok(fold_slice(body, &list[lo..hi]));
    }
    make_room(folds, last)?;
    let sum = fold_blocks(body, list, folds, lo, first, last);
    let rest = fold_slice(body, &list[last * BLOCK..hi]);
    Ok(body.combine(sum, rest))
}

// Makes places for the folds of the first blocks, if there are fewer.
fn make_room<S: Copy>(folds: &mut Vec<Option<S>>, blocks: usize) -> Result<(), AllocError>
    ensures items { folds.new.items ≡ (if is_ok result then with_places folds.old.items blocks else folds.old.items) }
{
    folds.resize(blocks.max(folds.len()), None)
}

// The fold of the elements from an index up to the end of a block, from that of the elements before the first block and those of the
// blocks.
fn fold_blocks<B: Body>(
    body: &B,
    list: &[i64],
    folds: &mut Vec<Option<B::S>>,
    lo: usize,
    first: usize,
    last: usize,
) -> B::S
    requires few { length list.now ≤ 2 ^ 20 }
    requires before { lo ≤ first * 1024 }
    requires order { first ≤ last }
    requires inside { last * 1024 ≤ length list.now }
    requires room { last ≤ vec_len folds.old }
    requires folds { AreFolds (B.operations body.now) list.now folds.old.items }
    ensures fold { IsFold (B.operations body.now) (slice_range list.now lo (last * 1024)) result }
    ensures folds { AreFolds (B.operations body.now) list.now folds.new.items }
{
    let mut sum = fold_slice(body, &list[lo..first * BLOCK]);
    for block in first..last {
        let next = fold_block(body, list, folds, block);
        sum = body.combine(sum, next);
    }
    sum
}

// The fold of a block: what is known, or else computed from its elements, and kept.
fn fold_block<B: Body>(body: &B, list: &[i64], folds: &mut Vec<Option<B::S>>, block: usize) -> B::S
    requires few { length list.now ≤ 2 ^ 20 }
    requires room { block < vec_len folds.old }
    requires folds { AreFolds (B.operations body.now) list.now folds.old.items }
    ensures fold { IsFold (B.operations body.now) (block_elements list.now block) result }
    ensures folds { AreFolds (B.operations body.now) list.now folds.new.items }
    ensures room { vec_len folds.new ≡ vec_len folds.old }
{
    if let Some(fold) = folds[block] {
        return fold;
    }
    let fold = fold_slice(body, &list[block * BLOCK..(block + 1) * BLOCK]);
    folds[block] = Some(fold);
    fold
}
