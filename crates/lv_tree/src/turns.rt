//! The place at which a test on the fold of elements becomes true, on the way up from the start of a range or down from its end.
ghost use Rattle.std.specs.Prelude.{◌≡◌, ◌+◌, ◌*◌, ◌/◌, ◌≤◌, length, MatchOption, MatchResult};
ghost use Rattle.lv_tree.specs.Blocks.{AreLeaves};
ghost use Rattle.lv_tree.specs.Turns.{HasNoEnd, IsEndAt, IsStartAt};
ghost use Rattle.lv_tree.specs.Walks.{HasWalkedDown, HasWalkedUp};

use crate::elements::Elements;
use crate::find::{Reached, Test};
use crate::tree::Tree;
use crate::trees::FoldTree;
use lv_bodies::{LongBody, long_laws};

// Goes on up an element at a time: to the end at which the test becomes true, or to `stop` without one.
fn walk_up<B: LongBody, E: Elements, T: Test<B::S>>(
    body: &B,
    elements: &E,
    test: &T,
    lo: usize,
    from: Reached<B::S>,
    stop: usize,
) -> Result<usize, B::S>
    requires order { from.at ≤ stop }
    requires inside { stop ≤ length (E.listed elements.now) }
    requires walked { HasWalkedUp (B.operations body.now) (T.passes test.now) (E.listed elements.now) lo from.at from.sum }
    ensures { let o = B.operations body.now in let xs = E.listed elements.now in
        MatchResult result (λ end. IsEndAt o (T.passes test.now) xs lo stop end) (λ sum. HasWalkedUp o (T.passes test.now) xs lo stop sum) }
{
    long_laws(body);
    elements.bounds();
    let mut sum = from.sum;
    for i in from.at..stop {
        sum = body.extend_long(sum, elements.read(i));
        if test.test(sum) {
            return Ok(i + 1);
        }
    }
    Err(sum)
}

// Goes on down an element at a time: to the start at which the test becomes true, or to `stop` without one.
fn walk_down<B: LongBody, E: Elements, T: Test<B::S>>(
    body: &B,
    elements: &E,
    test: &T,
    hi: usize,
    from: Reached<B::S>,
    stop: usize,
) -> Result<usize, B::S>
    requires order { stop ≤ from.at }
    requires inside { hi ≤ length (E.listed elements.now) }
    requires walked { HasWalkedDown (B.operations body.now) (T.passes test.now) (E.listed elements.now) from.at hi from.sum }
    ensures { let o = B.operations body.now in let xs = E.listed elements.now in
        MatchResult result (λ start. IsStartAt o (T.passes test.now) xs stop hi start) (λ sum. HasWalkedDown o (T.passes test.now) xs stop hi sum) }
{
    long_laws(body);
    elements.bounds();
    let mut at = from.at;
    let mut sum = from.sum;
    while at > stop {
        at -= 1;
        sum = body.combine_long(body.lift(elements.read(at)), sum);
        if test.test(sum) {
            return Ok(at);
        }
    }
    Err(sum)
}

// Goes on up over whole blocks, as far as the test does not become true.
fn pass_up<B: LongBody, E: Elements, T: Test<B::S>>(
    tree: &FoldTree<B>,
    elements: &E,
    test: &T,
    lo: usize,
    front: B::S,
    from: usize,
    to: usize,
) -> Reached<B::S>
    requires order { from ≤ to }
    requires blocks { to ≤ length tree.now.sums }
    requires leaves { AreLeaves (B.operations tree.now.body) (E.listed elements.now) tree.now.sums }
    requires walked { HasWalkedUp (B.operations tree.now.body) (T.passes test.now) (E.listed elements.now) lo (8 * from) front }
    ensures inside { result.at ≤ 8 * to }
    ensures walked { HasWalkedUp (B.operations tree.now.body) (T.passes test.now) (E.listed elements.now) lo result.at result.sum }
{
    let body = tree.body();
    long_laws(&body);
    elements.bounds();
    let passed = tree.turn_up(from, to, front, test);
    Reached {
        at: 8 * passed.at,
        sum: passed.sum,
    }
}

// Goes on down over whole blocks, as far as the test does not become true.
fn pass_down<B: LongBody, E: Elements, T: Test<B::S>>(
    tree: &FoldTree<B>,
    elements: &E,
    test: &T,
    hi: usize,
    back: B::S,
    from: usize,
    to: usize,
) -> Reached<B::S>
    requires order { from ≤ to }
    requires blocks { to ≤ length tree.now.sums }
    requires inside { hi ≤ length (E.listed elements.now) }
    requires leaves { AreLeaves (B.operations tree.now.body) (E.listed elements.now) tree.now.sums }
    requires walked { HasWalkedDown (B.operations tree.now.body) (T.passes test.now) (E.listed elements.now) (8 * to) hi back }
    ensures inside { 8 * from ≤ result.at }
    ensures walked { HasWalkedDown (B.operations tree.now.body) (T.passes test.now) (E.listed elements.now) result.at hi result.sum }
{
    let body = tree.body();
    long_laws(&body);
    elements.bounds();
    let passed = tree.turn_down(from, to, back, test);
    Reached {
        at: 8 * passed.at,
        sum: passed.sum,
    }
}

// The end at which the test becomes true, from a place on that a walk up has come to.
fn end_behind<B: LongBody, E: Elements, T: Test<B::S>>(
    body: &B,
    elements: &E,
    test: &T,
    lo: usize,
    from: Reached<B::S>,
    hi: usize,
) -> Option<usize>
    requires order { from.at ≤ hi }
    requires inside { hi ≤ length (E.listed elements.now) }
    requires walked { HasWalkedUp (B.operations body.now) (T.passes test.now) (E.listed elements.now) lo from.at from.sum }
    ensures { let o = B.operations body.now in let xs = E.listed elements.now in
        MatchOption result (HasNoEnd o (T.passes test.now) xs lo hi) (λ end. IsEndAt o (T.passes test.now) xs lo hi end) }
{
    walk_up(body, elements, test, lo, from, hi).ok()
}

// The start at which the test becomes true, from a place on that a walk down has come to.
fn start_before<B: LongBody, E: Elements, T: Test<B::S>>(
    body: &B,
    elements: &E,
    test: &T,
    hi: usize,
    from: Reached<B::S>,
    lo: usize,
) -> Option<usize>
    requires order { lo ≤ from.at }
    requires inside { hi ≤ length (E.listed elements.now) }
    requires walked { HasWalkedDown (B.operations body.now) (T.passes test.now) (E.listed elements.now) from.at hi from.sum }
    ensures { let o = B.operations body.now in let xs = E.listed elements.now in
        MatchOption result (HasNoEnd o (T.passes test.now) xs lo hi) (λ start. IsStartAt o (T.passes test.now) xs lo hi start) }
{
    walk_down(body, elements, test, hi, from, lo).ok()
}

/// The end of a range at which a test becomes true, an element at a time.
pub fn end_in_turn<B: LongBody, E: Elements, T: Test<B::S>>(
    body: &B,
    elements: &E,
    test: &T,
    lo: usize,
    hi: usize,
) -> Option<usize>
    requires order { lo ≤ hi }
    requires inside { hi ≤ length (E.listed elements.now) }
    ensures { let o = B.operations body.now in let xs = E.listed elements.now in
        MatchOption result (HasNoEnd o (T.passes test.now) xs lo hi) (λ end. IsEndAt o (T.passes test.now) xs lo hi end) }
{
    let from = Reached {
        at: lo,
        sum: body.identity(),
    };
    end_behind(body, elements, test, lo, from, hi)
}

/// The start of a range at which a test becomes true, an element at a time.
pub fn start_in_turn<B: LongBody, E: Elements, T: Test<B::S>>(
    body: &B,
    elements: &E,
    test: &T,
    lo: usize,
    hi: usize,
) -> Option<usize>
    requires order { lo ≤ hi }
    requires inside { hi ≤ length (E.listed elements.now) }
    ensures { let o = B.operations body.now in let xs = E.listed elements.now in
        MatchOption result (HasNoEnd o (T.passes test.now) xs lo hi) (λ start. IsStartAt o (T.passes test.now) xs lo hi start) }
{
    let from = Reached {
        at: hi,
        sum: body.identity(),
    };
    start_before(body, elements, test, hi, from, lo)
}

/// The end of a range of at least eight elements at which a test becomes true, by the leaves of its blocks.
pub fn end_by_blocks<B: LongBody, E: Elements, T: Test<B::S>>(
    tree: &FoldTree<B>,
    elements: &E,
    test: &T,
    lo: usize,
    hi: usize,
) -> Option<usize>
    requires apart { lo + 8 ≤ hi }
    requires inside { hi ≤ length (E.listed elements.now) }
    requires blocks { hi / 8 ≤ length tree.now.sums }
    requires leaves { AreLeaves (B.operations tree.now.body) (E.listed elements.now) tree.now.sums }
    ensures { let o = B.operations tree.now.body in let xs = E.listed elements.now in
        MatchOption result (HasNoEnd o (T.passes test.now) xs lo hi) (λ end. IsEndAt o (T.passes test.now) xs lo hi end) }
{
    let body = tree.body();
    let start = lo.div_ceil(8);
    let from = Reached {
        at: lo,
        sum: body.identity(),
    };
    match walk_up(&body, elements, test, lo, from, 8 * start) {
        Ok(end) => Some(end),
        Err(front) => {
            let behind = pass_up(tree, elements, test, lo, front, start, hi / 8);
            end_behind(&body, elements, test, lo, behind, hi)
        }
    }
}

/// The start of a range of at least eight elements at which a test becomes true, by the leaves of its blocks.
pub fn start_by_blocks<B: LongBody, E: Elements, T: Test<B::S>>(
    tree: &FoldTree<B>,
    elements: &E,
    test: &T,
    lo: usize,
    hi: usize,
) -> Option<usize>
    requires apart { lo + 8 ≤ hi }
    requires inside { hi ≤ length (E.listed elements.now) }
    requires blocks { hi / 8 ≤ length tree.now.sums }
    requires leaves { AreLeaves (B.operations tree.now.body) (E.listed elements.now) tree.now.sums }
    ensures { let o = B.operations tree.now.body in let xs = E.listed elements.now in
        MatchOption result (HasNoEnd o (T.passes test.now) xs lo hi) (λ start. IsStartAt o (T.passes test.now) xs lo hi start) }
{
    let body = tree.body();
    let end = hi / 8;
    let from = Reached {
        at: hi,
        sum: body.identity(),
    };
    match walk_down(&body, elements, test, hi, from, 8 * end) {
        Ok(start) => Some(start),
        Err(back) => {
            let before = pass_down(tree, elements, test, hi, back, lo.div_ceil(8), end);
            start_before(&body, elements, test, hi, before, lo)
        }
    }
}
