//! The leaves of blocks: how they are folded anew, follow a journal, and are taken in.
ghost use Rattle.std.specs.Prelude.{◌≡◌, ◌+◌, ◌*◌, ◌/◌, ◌<◌, ◌≤◌, true, length, take, slice_set};
ghost use Rattle.lv_edits.specs.History.{list_of};
ghost use Rattle.lv_edits.specs.Kept.{IsLegalInLimits};
ghost use Rattle.lv_tree.specs.Folds.{AreFolds};
ghost use Rattle.lv_tree.specs.Follows.{Follows, FollowsAll, leaf_of};

use crate::tree::Tree;
use lv_bodies::LongBody;
use lv_edits::{Edit, Edits};

/// How many writes are followed at least, before it may be cheaper to take all blocks in anew.
const WRITES: usize = 64;

// The fold of a block, whose eight elements are there.
#[inline(always)]
fn fold_block<B: LongBody>(body: &B, cells: &Edits, block: u32) -> B::S
    requires limits { IsLegalInLimits cells.now }
    requires whole { 8 * block + 8 ≤ length (list_of cells.now.journal) }
    ensures { result ≡ leaf_of (B.operations body.now) cells.now.journal block }
{
    let run = cells.stretch(8 * block, 8 * block + 8);
    if run.len() == 8 {
        return body.fold_eight(run);
    }
    let copied = cells.block(block);
    body.fold_eight(&copied)
}

// Folds the leaf of a block anew, if it has one.
#[inline(always)]
fn renew<T: Tree>(tree: &mut T, cells: &Edits, block: u32)
    requires limits { IsLegalInLimits cells.now }
    requires whole { 8 * length (T.sums tree.old) ≤ length (list_of cells.now.journal) }
    requires folds { let o = T.B.operations (T.by tree.old) in AreFolds o (slice_set (T.sums tree.old) block (leaf_of o cells.now.journal block)) }
    ensures sums { T.sums tree.new ≡ slice_set (T.sums tree.old) block (leaf_of (T.B.operations (T.by tree.old)) cells.now.journal block) }
    ensures by { T.by tree.new ≡ T.by tree.old }
    ensures room { T.room tree.new ≡ T.room tree.old }
{
    if (block as usize) < tree.len() {
        let body = tree.body();
        let sum = fold_block(&body, cells, block);
        tree.set(block as usize, sum);
    }
}

// Keeps no more than the first so many leaves.
#[inline(always)]
fn keep<T: Tree>(tree: &mut T, blocks: u32)
    ensures sums { T.sums tree.new ≡ take blocks (T.sums tree.old) }
    ensures by { T.by tree.new ≡ T.by tree.old }
    ensures room { T.room tree.new ≡ T.room tree.old }
{
    if (blocks as usize) < tree.len() {
        tree.truncate(blocks as usize);
    }
}

// Follows one edit of a journal, before which there were `size` elements. Says how many there were after it.
#[inline(always)]
fn follow<T: Tree>(tree: &mut T, cells: &Edits, at: usize, size: u32) -> u32
    requires limits { IsLegalInLimits cells.now }
    requires inside { at < length cells.now.journal }
    requires whole { 8 * length (T.sums tree.old) ≤ length (list_of cells.now.journal) }
    requires late { Follows (T.B.operations (T.by tree.old)) cells.now.journal (T.sums tree.old) at size }
    ensures late { Follows (T.B.operations (T.by tree.old)) cells.now.journal (T.sums tree.new) (at + 1) result }
    ensures fewer { length (T.sums tree.new) ≤ length (T.sums tree.old) }
    ensures by { T.by tree.new ≡ T.by tree.old }
    ensures room { T.room tree.new ≡ T.room tree.old }
{
    match cells.journal()[at] {
        Edit::Push(_) => size + 1,
        Edit::Pop => {
            keep(tree, (size - 1) / 8);
            size - 1
        }
        Edit::Write { index, .. } => {
            renew(tree, cells, index / 8);
            size
        }
        Edit::Reserve(_) => size,
        Edit::Swap { first, second } => {
            renew(tree, cells, first / 8);
            renew(tree, cells, second / 8);
            size
        }
        Edit::Truncate(count) => {
            keep(tree, count / 8);
            count
        }
    }
}

// Whether an edit overwrites elements.
#[inline(always)]
fn overwrites(edit: &Edit) -> bool {
    matches!(edit, Edit::Write { .. } | Edit::Swap { .. })
}

// Follows a journal to its end, and says so; or finds that too many elements were overwritten.
fn walk<T: Tree>(tree: &mut T, cells: &Edits, seen: usize, size: u32) -> bool
    requires limits { IsLegalInLimits cells.now }
    requires whole { 8 * length (T.sums tree.old) ≤ length (list_of cells.now.journal) }
    requires late { Follows (T.B.operations (T.by tree.old)) cells.now.journal (T.sums tree.old) seen size }
    ensures late { result ≡ true → FollowsAll (T.B.operations (T.by tree.old)) cells.now.journal (T.sums tree.new) }
    ensures by { T.by tree.new ≡ T.by tree.old }
    ensures room { T.room tree.new ≡ T.room tree.old }
{
    let journal = cells.journal();
    let mut left = tree.len() / 8 + WRITES;
    let mut size = size;
    for at in seen..journal.len() {
        if overwrites(&journal[at]) {
            if left == 0 {
                return false;
            }
            left -= 1;
        }
        size = follow(tree, cells, at, size);
    }
    true
}

// Follows a journal to its end. If more was overwritten since than it would take to fold many of the blocks, no leaf is kept.
#[inline(never)]
fn catch_up<T: Tree>(tree: &mut T, cells: &Edits, seen: usize, size: u32)
    requires limits { IsLegalInLimits cells.now }
    requires late { Follows (T.B.operations (T.by tree.old)) cells.now.journal (T.sums tree.old) seen size }
    ensures late { FollowsAll (T.B.operations (T.by tree.old)) cells.now.journal (T.sums tree.new) }
    ensures by { T.by tree.new ≡ T.by tree.old }
    ensures room { T.room tree.new ≡ T.room tree.old }
{
    keep(tree, cells.size() / 8);
    if tree.len() == 0 {
        return;
    }
    if !walk(tree, cells, seen, size) {
        tree.truncate(0);
    }
}

// Adds leaves, so that there are at least so many, all of whole blocks.
#[inline(never)]
fn take_in<T: Tree>(tree: &mut T, cells: &Edits, blocks: u32)
    requires limits { IsLegalInLimits cells.now }
    requires whole { 8 * blocks ≤ length (list_of cells.now.journal) }
    requires room { blocks ≤ T.room tree.old }
    requires late { FollowsAll (T.B.operations (T.by tree.old)) cells.now.journal (T.sums tree.old) }
    ensures late { FollowsAll (T.B.operations (T.by tree.old)) cells.now.journal (T.sums tree.new) }
    ensures blocks { blocks ≤ length (T.sums tree.new) }
    ensures by { T.by tree.new ≡ T.by tree.old }
    ensures room { T.room tree.new ≡ T.room tree.old }
{
    let body = tree.body();
    for block in tree.len()..blocks as usize {
        let sum = fold_block(&body, cells, block as u32);
        tree.push(sum);
    }
}

/// Follows what was edited since.
#[inline(always)]
pub fn bring_up<T: Tree>(tree: &mut T, cells: &Edits, seen: usize, size: u32)
    requires limits { IsLegalInLimits cells.now }
    requires late { Follows (T.B.operations (T.by tree.old)) cells.now.journal (T.sums tree.old) seen size }
    ensures late { FollowsAll (T.B.operations (T.by tree.old)) cells.now.journal (T.sums tree.new) }
    ensures by { T.by tree.new ≡ T.by tree.old }
    ensures room { T.room tree.new ≡ T.room tree.old }
{
    if seen == cells.edit() as usize {
        return;
    }
    catch_up(tree, cells, seen, size);
}

/// Adds the leaves that are missing among the first so many.
#[inline(always)]
pub fn reach<T: Tree>(tree: &mut T, cells: &Edits, blocks: u32)
    requires limits { IsLegalInLimits cells.now }
    requires whole { 8 * blocks ≤ length (list_of cells.now.journal) }
    requires room { blocks ≤ T.room tree.old }
    requires late { FollowsAll (T.B.operations (T.by tree.old)) cells.now.journal (T.sums tree.old) }
    ensures late { FollowsAll (T.B.operations (T.by tree.old)) cells.now.journal (T.sums tree.new) }
    ensures blocks { blocks ≤ length (T.sums tree.new) }
    ensures by { T.by tree.new ≡ T.by tree.old }
    ensures room { T.room tree.new ≡ T.room tree.old }
{
    if blocks as usize <= tree.len() {
        return;
    }
    take_in(tree, cells, blocks);
}
