//! The place at which a test on joins becomes true, on the way up from the first of some leaves, or down from the last.
ghost use Rattle.std.specs.Prelude.{◌≡◌, ◌-◌, ◌+◌, ◌*◌, ◌^◌, ◌<◌, ◌≤◌, Bool, true, length, slice_index_or, MatchResult};
ghost use Rattle.lv_tree.specs.Nodes.{IsTree};
ghost use Rattle.lv_tree.specs.Parts.{run_of};
ghost use Rattle.lv_tree.specs.Tests.{AreOnWay, CanJoinWay, HasComeTo, SeeksShort, TurnsAt, begin_of, beyond, joined_way, left_of, next_of};

use crate::joins::{Joins, join_laws};

/// A test on summaries.
pub trait Test<S> {
    ghost passes: { Self → S → Bool };

    /// Whether a summary passes.
    fn test(&self, summary: S) -> bool
        ensures { result ≡ passes self.now summary };
}

/// A place that a search has come to, and what is joined up to there.
#[derive(Clone, Copy)]
pub struct Reached<S> {
    pub at: usize,
    pub sum: S,
}

// A place at which the next node makes a test true, and what is joined up to there.
#[derive(Clone, Copy)]
struct Turn<S> {
    sum: S,
    node: usize,
    width: usize,
}

// The place at which the way begins.
#[inline(always)]
fn first_place(from: usize, to: usize, down: bool) -> usize
    ensures { result ≡ begin_of down from to }
{
    if down { to } else { from }
}

// The place one node on.
#[inline(always)]
fn one_on(node: usize, down: bool) -> usize
    requires some { down ≡ true → 0 < node }
    requires few { node < 2 ^ 63 }
    ensures { result ≡ beyond down node 1 }
{
    if down { node - 1 } else { node + 1 }
}

// How far it is from a place to the end of the way.
#[inline(always)]
fn left(from: usize, to: usize, place: usize, down: bool) -> usize
    requires low { from ≤ place }
    requires high { place ≤ to }
    ensures { result ≡ left_of down from to place }
{
    if down { place - from } else { to - place }
}

// A summary joined with that of the node that comes next.
#[inline(always)]
fn joined_with<S: Copy, B: Joins<S>>(body: &B, sum: S, cells: &[S], node: usize, down: bool) -> S
    requires inside { next_of down node < length cells.now }
    requires some { down ≡ true → 0 < node }
    requires may { CanJoinWay down (B.is_within body.now) sum (slice_index_or cells.now (next_of down node) (B.operations body.now).identity) }
    ensures { let o = B.operations body.now in result ≡ joined_way down o sum (slice_index_or cells.now (next_of down node) o.identity) }
{
    if down {
        body.joined(cells[node - 1], sum)
    } else {
        body.joined(sum, cells[node])
    }
}

// From a place at which the next node makes the test true to one at which the next leaf does.
fn descend<S: Copy, B: Joins<S>, T: Test<S>>(
    body: &B,
    cells: &[S],
    test: &T,
    start: S,
    from: usize,
    to: usize,
    down: bool,
    turn: Turn<S>,
) -> Reached<S>
    requires tree { IsTree (B.operations body.now) from to cells.now }
    requires folds { AreOnWay down (B.operations body.now) start (run_of cells.now from (to - from)) }
    requires inside { to ≤ length cells.now }
    requires octave { to ≤ 2 * from }
    requires few { length cells.now ≤ 2 ^ 62 }
    requires turns { TurnsAt down (B.operations body.now) (T.passes test.now) cells.now start from to turn.node turn.width turn.sum }
    ensures { HasComeTo down (B.operations body.now) (T.passes test.now) cells.now start from to result.at result.sum }
{
    join_laws(body);
    let mut node = turn.node;
    let mut width = turn.width;
    let mut sum = turn.sum;
    while width > 1 {
        node *= 2;
        width /= 2;
        let next = joined_with(body, sum, cells, node, down);
        if !test.test(next) {
            sum = next;
            node = one_on(node, down);
        }
    }
    Reached { at: node, sum }
}

// On the way, by ever wider nodes: the first place at which the next one makes the test true, or one at which none as wide is left.
fn seek_wider<S: Copy, B: Joins<S>, T: Test<S>>(
    body: &B,
    cells: &[S],
    test: &T,
    start: S,
    from: usize,
    to: usize,
    down: bool,
) -> Result<Turn<S>, Turn<S>>
    requires tree { IsTree (B.operations body.now) from to cells.now }
    requires folds { AreOnWay down (B.operations body.now) start (run_of cells.now from (to - from)) }
    requires order { from ≤ to }
    requires inside { to ≤ length cells.now }
    requires few { length cells.now ≤ 2 ^ 62 }
    ensures { MatchResult result
        (λ turn. TurnsAt down (B.operations body.now) (T.passes test.now) cells.now start from to turn.node turn.width turn.sum)
        (λ place. SeeksShort down (B.operations body.now) (T.passes test.now) cells.now start from to place.node place.width place.sum) }
{
    join_laws(body);
    let mut node = first_place(from, to, down);
    let mut width = 1;
    let mut sum = start;
    'up: while width <= left(from, to, node * width, down) {
        if node % 2 == 0 {
            node /= 2;
            width *= 2;
            continue;
        }
        let next = joined_with(body, sum, cells, node, down);
        if test.test(next) {
            return Ok(Turn { sum, node, width });
        }
        sum = next;
        node = one_on(node, down) / 2;
        width *= 2;
    }
    Err(Turn { sum, node, width })
}

// From there on by ever narrower nodes: the first place at which the next one makes the test true, or the end of the way.
fn seek_narrower<S: Copy, B: Joins<S>, T: Test<S>>(
    body: &B,
    cells: &[S],
    test: &T,
    start: S,
    from: usize,
    to: usize,
    down: bool,
    place: Turn<S>,
) -> Result<Turn<S>, Reached<S>>
    requires tree { IsTree (B.operations body.now) from to cells.now }
    requires folds { AreOnWay down (B.operations body.now) start (run_of cells.now from (to - from)) }
    requires inside { to ≤ length cells.now }
    requires few { length cells.now ≤ 2 ^ 62 }
    requires short { SeeksShort down (B.operations body.now) (T.passes test.now) cells.now start from to place.node place.width place.sum }
    ensures { MatchResult result
        (λ turn. TurnsAt down (B.operations body.now) (T.passes test.now) cells.now start from to turn.node turn.width turn.sum)
        (λ end. HasComeTo down (B.operations body.now) (T.passes test.now) cells.now start from to end.at end.sum) }
{
    join_laws(body);
    let mut node = place.node;
    let mut width = place.width;
    let mut sum = place.sum;
    'down: while width > 1 {
        node *= 2;
        width /= 2;
        if left(from, to, node * width, down) < width {
            continue;
        }
        let next = joined_with(body, sum, cells, node, down);
        if test.test(next) {
            return Ok(Turn { sum, node, width });
        }
        sum = next;
        node = one_on(node, down);
    }
    Err(Reached { at: node, sum })
}

// The first place at which the largest node that comes next, and is within the two ends, makes the test true; or the end of the way.
fn seek<S: Copy, B: Joins<S>, T: Test<S>>(
    body: &B,
    cells: &[S],
    test: &T,
    start: S,
    from: usize,
    to: usize,
    down: bool,
) -> Result<Turn<S>, Reached<S>>
    requires tree { IsTree (B.operations body.now) from to cells.now }
    requires folds { AreOnWay down (B.operations body.now) start (run_of cells.now from (to - from)) }
    requires order { from ≤ to }
    requires inside { to ≤ length cells.now }
    requires few { length cells.now ≤ 2 ^ 62 }
    ensures { MatchResult result
        (λ turn. TurnsAt down (B.operations body.now) (T.passes test.now) cells.now start from to turn.node turn.width turn.sum)
        (λ end. HasComeTo down (B.operations body.now) (T.passes test.now) cells.now start from to end.at end.sum) }
{
    match seek_wider(body, cells, test, start, from, to, down) {
        Ok(turn) => Ok(turn),
        Err(place) => seek_narrower(body, cells, test, start, from, to, down, place),
    }
}

/// The first place on the way between two at which the next leaf makes a test true, or the end of the way, with what is joined up to there.
pub fn find_turn<S: Copy, B: Joins<S>, T: Test<S>>(
    body: &B,
    cells: &[S],
    test: &T,
    start: S,
    from: usize,
    to: usize,
    down: bool,
) -> Reached<S>
    requires tree { IsTree (B.operations body.now) from to cells.now }
    requires folds { AreOnWay down (B.operations body.now) start (run_of cells.now from (to - from)) }
    requires order { from ≤ to }
    requires inside { to ≤ length cells.now }
    requires octave { to ≤ 2 * from }
    requires few { length cells.now ≤ 2 ^ 62 }
    ensures { HasComeTo down (B.operations body.now) (T.passes test.now) cells.now start from to result.at result.sum }
{
    match seek(body, cells, test, start, from, to, down) {
        Err(end) => end,
        Ok(turn) => descend(body, cells, test, start, from, to, down, turn),
    }
}
