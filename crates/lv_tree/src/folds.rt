//! The join of a range of leaves, by the largest nodes that are within the range.
ghost use Rattle.std.specs.Prelude.{◌≡◌, ◌+◌, ◌-◌, ◌/◌, ◌%◌, ◌^◌, ◌<◌, ◌≤◌, true, length, slice_index_or};
ghost use Rattle.std.specs.Mem.{type_size};
ghost use Rattle.lv_bodies.specs.Long.{CanJoinLong};
ghost use Rattle.lv_tree.specs.Folds.{AreFolds};
ghost use Rattle.lv_tree.specs.Nodes.{IsTree};
ghost use Rattle.lv_tree.specs.Parts.{part_of, run_of};

use crate::joins::{Joins, join_laws};
use std::mem::size_of_val;

// Whether summaries are so narrow that a choice between two is cheaper than a branch that isn't foreseen.
#[inline(always)]
fn is_narrow<S: Copy>(summary: &S) -> bool
    ensures { result ≡ true → type_size S.row ≤ 16 }
{
    size_of_val(summary) <= 16
}

// One of two narrow summaries, the second for an odd number: it takes no branch.
#[inline(always)]
fn by_parity<S: Copy>(number: usize, even: S, odd: S) -> S
    requires { type_size S.row ≤ 16 }
    ensures odd { number % 2 ≡ 1 → result ≡ odd }
    ensures even { number % 2 ≡ 0 → result ≡ even }
{
    let both = [even, odd];
    both[number % 2]
}

// A summary joined with that of a node behind it, if the node is the right one of its two. A branch is taken only if it is likely to be
// `foreseen`; else the summary is joined with nothing if there is no such node.
#[inline(always)]
fn with_node_behind<S: Copy, B: Joins<S>>(
    body: &B,
    front: S,
    cells: &[S],
    low: usize,
    foreseen: bool,
) -> S
    requires inside { low < length cells.now }
    requires may { let o = B.operations body.now in CanJoinLong (B.is_within body.now) front (slice_index_or cells.now low o.identity) }
    ensures odd { let o = B.operations body.now in low % 2 ≡ 1 → result ≡ o.join front (slice_index_or cells.now low o.identity) }
    ensures even { low % 2 ≡ 0 → result ≡ front }
{
    join_laws(body);
    if foreseen || !is_narrow(&front) {
        if low % 2 == 1 {
            return body.joined(front, cells[low]);
        }
        return front;
    }
    let node = by_parity(low, body.nothing(), cells[low]);
    body.joined(front, node)
}

// The summary of the node before a place joined with a summary behind it, if the node is the left one of its two; otherwise only the latter.
// Branches are taken as in `with_node_behind`.
#[inline(always)]
fn with_node_before<S: Copy, B: Joins<S>>(
    body: &B,
    back: S,
    cells: &[S],
    high: usize,
    foreseen: bool,
) -> S
    requires some { 0 < high }
    requires inside { high ≤ length cells.now }
    requires may { let o = B.operations body.now in CanJoinLong (B.is_within body.now) (slice_index_or cells.now (high - 1) o.identity) back }
    ensures odd { let o = B.operations body.now in high % 2 ≡ 1 → result ≡ o.join (slice_index_or cells.now (high - 1) o.identity) back }
    ensures even { high % 2 ≡ 0 → result ≡ back }
{
    join_laws(body);
    if foreseen || !is_narrow(&back) {
        if high % 2 == 1 {
            return body.joined(cells[high - 1], back);
        }
        return back;
    }
    let node = by_parity(high, body.nothing(), cells[high - 1]);
    body.joined(node, back)
}

// The join of the leaves from place `from` up to `to`: two joins a level, and one. Which nodes are joined can't be foreseen, unless the
// range is likely to be the one before.
pub fn fold_between<S: Copy, B: Joins<S>>(
    body: &B,
    cells: &[S],
    from: usize,
    to: usize,
    foreseen: bool,
) -> S
    requires tree { IsTree (B.operations body.now) from to cells.now }
    requires folds { AreFolds (B.operations body.now) (run_of cells.now from (to - from)) }
    requires order { from ≤ to }
    requires inside { to ≤ length cells.now }
    requires few { length cells.now ≤ 2 ^ 62 }
    ensures { result ≡ part_of (B.operations body.now) cells.now from to }
{
    join_laws(body);
    let mut low = from;
    let mut high = to;
    let mut front = body.nothing();
    let mut back = body.nothing();
    while low < high {
        front = with_node_behind(body, front, cells, low, foreseen);
        back = with_node_before(body, back, cells, high, foreseen);
        low = (low + 1) / 2;
        high /= 2;
    }
    body.joined(front, back)
}
