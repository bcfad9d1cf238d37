//! The fold of a range of elements, and the place in it at which a test on the fold becomes true, by a tree over the blocks of eight elements.
//! The leaf at place b of the tree is the fold of the elements from place 8 * b on, whichever its number.
ghost use Rattle.std.specs.Prelude.{◌≡◌, ◌+◌, ◌*◌, ◌/◌, ◌≤◌, length, MatchOption};
ghost use Rattle.std.specs.List.{slice_range};
ghost use Rattle.lv_bodies.specs.Body.{fold_of};
ghost use Rattle.lv_tree.specs.Blocks.{AreLeaves};
ghost use Rattle.lv_tree.specs.Searches.{FindsEnd, FindsStart};
ghost use Rattle.lv_tree.specs.Turns.{HasNoEnd, IsEndAt, IsStartAt};

use crate::element_folds::{fold_elements, join_ends};
use crate::elements::Elements;
use crate::find::Test;
use crate::sought::TestFor;
use crate::tree::Tree;
use crate::trees::FoldTree;
use crate::turns::{end_by_blocks, end_in_turn, start_by_blocks, start_in_turn};
use lv_bodies::{Body, LongBody};

/// A range of at most so many elements is folded, or walked, without the tree.
pub const FEW: usize = 64;

/// The fold of the elements from place `lo` up to `hi`, from left to right. A range of at most 64 is folded without the tree; any other takes at
/// most two joins for each doubling of its blocks, and reads at most 14 elements. Takes no memory.
#[inline(always)]
pub fn fold_range<T: Tree, E: Elements>(
    tree: &T,
    elements: &E,
    lo: usize,
    hi: usize,
) -> <T::B as Body>::S
    requires order { lo ≤ hi }
    requires inside { hi ≤ length (E.listed elements.now) }
    requires leaves { AreLeaves (T.B.operations (T.by tree.now)) (E.listed elements.now) (T.sums tree.now) }
    requires blocks { hi / 8 ≤ length (T.sums tree.now) }
    ensures { result ≡ fold_of (T.B.operations (T.by tree.now)) (slice_range (E.listed elements.now) lo hi) }
{
    if hi - lo <= FEW {
        let body = tree.body();
        return fold_elements(&body, elements, lo, hi);
    }
    fold_by_blocks(tree, elements, lo, hi)
}

/// The fold of the elements from place `lo` up to `hi`, by the tree's blocks, of any range of at least eight elements.
#[inline(always)]
pub fn fold_by_blocks<T: Tree, E: Elements>(
    tree: &T,
    elements: &E,
    lo: usize,
    hi: usize,
) -> <T::B as Body>::S
    requires apart { lo + 8 ≤ hi }
    requires inside { hi ≤ length (E.listed elements.now) }
    requires leaves { AreLeaves (T.B.operations (T.by tree.now)) (E.listed elements.now) (T.sums tree.now) }
    requires blocks { hi / 8 ≤ length (T.sums tree.now) }
    ensures { result ≡ fold_of (T.B.operations (T.by tree.now)) (slice_range (E.listed elements.now) lo hi) }
{
    let start = lo.div_ceil(8);
    let middle = fold_leaves(tree, elements, start, hi / 8);
    let body = tree.body();
    join_ends(&body, elements, lo, hi, middle)
}

// The fold of the elements of the blocks from `from` up to `to`. All these blocks have leaves.
#[inline(always)]
fn fold_leaves<T: Tree, E: Elements>(
    tree: &T,
    elements: &E,
    from: usize,
    to: usize,
) -> <T::B as Body>::S
    requires order { from ≤ to }
    requires blocks { to ≤ length (T.sums tree.now) }
    requires leaves { AreLeaves (T.B.operations (T.by tree.now)) (E.listed elements.now) (T.sums tree.now) }
    ensures { result ≡ fold_of (T.B.operations (T.by tree.now)) (slice_range (E.listed elements.now) (8 * from) (8 * to)) }
{
    elements.bounds();
    tree.fold(from, to)
}

/// The least end of the range from place `lo` up to `hi` at which a test on the fold of the elements from `lo` on becomes true, if it does. A
/// smaller end can pass only if the test is not monotone; one may then pass though none is found. A range of at most 64 is walked an element at a
/// time; any other takes about two joins for each doubling of its blocks, and reads at most 16 elements. Takes no memory.
pub fn find_end<B: LongBody, E: Elements, T: Test<B::S>>(
    tree: &FoldTree<B>,
    elements: &E,
    test: &T,
    lo: usize,
    hi: usize,
) -> Option<usize>
    requires order { lo ≤ hi }
    requires inside { hi ≤ length (E.listed elements.now) }
    requires leaves { AreLeaves (B.operations tree.now.body) (E.listed elements.now) tree.now.sums }
    requires blocks { hi / 8 ≤ length tree.now.sums }
    ensures { let o = B.operations tree.now.body in let xs = E.listed elements.now in
        MatchOption result (HasNoEnd o (T.passes test.now) xs lo hi) (λ end. IsEndAt o (T.passes test.now) xs lo hi end) }
{
    if hi - lo <= FEW {
        let body = tree.body();
        return end_in_turn(&body, elements, test, lo, hi);
    }
    end_by_blocks(tree, elements, test, lo, hi)
}

/// The greatest start of the range from place `lo` up to `hi` at which a test on the fold of the elements up to `hi` becomes true, if it does:
/// `find_end` from the other end.
pub fn find_start<B: LongBody, E: Elements, T: Test<B::S>>(
    tree: &FoldTree<B>,
    elements: &E,
    test: &T,
    lo: usize,
    hi: usize,
) -> Option<usize>
    requires order { lo ≤ hi }
    requires inside { hi ≤ length (E.listed elements.now) }
    requires leaves { AreLeaves (B.operations tree.now.body) (E.listed elements.now) tree.now.sums }
    requires blocks { hi / 8 ≤ length tree.now.sums }
    ensures { let o = B.operations tree.now.body in let xs = E.listed elements.now in
        MatchOption result (HasNoEnd o (T.passes test.now) xs lo hi) (λ start. IsStartAt o (T.passes test.now) xs lo hi start) }
{
    if hi - lo <= FEW {
        let body = tree.body();
        return start_in_turn(&body, elements, test, lo, hi);
    }
    start_by_blocks(tree, elements, test, lo, hi)
}

/// The end at which the range from place `lo` on comes to have what a test seeks, at most `hi`, or none. As `find_end`.
pub fn find_sought_end<B: LongBody, E: Elements, T: TestFor<B>>(
    tree: &FoldTree<B>,
    elements: &E,
    test: &T,
    lo: usize,
    hi: usize,
) -> Option<usize>
    requires order { lo ≤ hi }
    requires inside { hi ≤ length (E.listed elements.now) }
    requires leaves { AreLeaves (B.operations tree.now.body) (E.listed elements.now) tree.now.sums }
    requires blocks { hi / 8 ≤ length tree.now.sums }
    ensures { FindsEnd (T.seeks test.now) (E.listed elements.now) lo hi result }
{
    let body = tree.body();
    test.tells(&body);
    elements.bounds();
    find_end(tree, elements, test, lo, hi)
}

/// The start at which the range up to place `hi` comes to have what a test seeks, at least `lo`, or none. As `find_start`.
pub fn find_sought_start<B: LongBody, E: Elements, T: TestFor<B>>(
    tree: &FoldTree<B>,
    elements: &E,
    test: &T,
    lo: usize,
    hi: usize,
) -> Option<usize>
    requires order { lo ≤ hi }
    requires inside { hi ≤ length (E.listed elements.now) }
    requires leaves { AreLeaves (B.operations tree.now.body) (E.listed elements.now) tree.now.sums }
    requires blocks { hi / 8 ≤ length tree.now.sums }
    ensures { FindsStart (T.seeks test.now) (E.listed elements.now) lo hi result }
{
    let body = tree.body();
    test.tells(&body);
    elements.bounds();
    find_start(tree, elements, test, lo, hi)
}
