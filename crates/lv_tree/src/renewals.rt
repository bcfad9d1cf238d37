//! The nodes over a leaf, joined anew.
ghost use Rattle.std.specs.Prelude.{◌≡◌, true, false, ◌+◌, ◌-◌, ◌*◌, ◌^◌, ◌<◌, ◌≤◌, length, drop, slice_index_or};
ghost use Rattle.lv_bodies.specs.Long.{CanJoinLong};
ghost use Rattle.lv_tree.specs.Folds.{AreFolds};
ghost use Rattle.lv_tree.specs.Nodes.{IsTree, IsTreeBut, WasTree};
ghost use Rattle.lv_tree.specs.Parts.{run_of};

use crate::joins::{Joins, join_laws};

// The join of the two below a node.
#[inline(always)]
fn join_below<S: Copy, B: Joins<S>>(body: &B, cells: &[S], node: usize) -> S
    requires inside { 2 * node + 1 < length cells.now }
    requires few { length cells.now < 2 ^ 63 }
    requires may { let o = B.operations body.now in CanJoinLong (B.is_within body.now) (slice_index_or cells.now (2 * node) o.identity) (slice_index_or cells.now (2 * node + 1) o.identity) }
    ensures { let o = B.operations body.now in result ≡ o.join (slice_index_or cells.now (2 * node) o.identity) (slice_index_or cells.now (2 * node + 1) o.identity) }
{
    body.joined(cells[2 * node], cells[2 * node + 1])
}

// Whether a node is known to keep its value after a leaf below it was replaced. If it is, this node and those above it are right already.
#[inline(always)]
fn settles<S: Copy, B: Joins<S>>(replaced: bool, was: S, is: S) -> bool
    ensures known { result ≡ true → replaced ≡ true }
    ensures same { result ≡ true → was ≡ is }
{
    replaced && B::stays(was, is)
}

// Whether a node covers places without leaves. It covers the leaves from a place on, as many as it is wide.
#[inline(always)]
fn is_past(lo: usize, hi: usize, start: usize, width: usize) -> bool
    requires { start ≤ hi }
    ensures past { result ≡ true → lo ≤ start → hi < start + width }
    ensures low { result ≡ false → lo ≤ start }
    ensures high { result ≡ false → start + width ≤ hi }
{
    start < lo || hi - start < width
}

// Makes each node over a leaf the join of the two below it, from the lowest to the last one all of whose leaves are there. If the leaf was
// `replaced`, and all nodes were right before, it ends at the first one that stays what it was.
pub fn renew<S: Copy, B: Joins<S>>(
    body: &B,
    cells: &mut [S],
    lo: usize,
    hi: usize,
    at: usize,
    replaced: bool,
)
    requires but { IsTreeBut (B.operations body.now) lo hi at 0 cells.old }
    requires folds { AreFolds (B.operations body.now) (run_of cells.old lo (hi - lo)) }
    requires was { replaced ≡ true → WasTree (B.operations body.now) lo hi at cells.old }
    requires low { lo ≤ at }
    requires high { at < hi }
    requires inside { hi ≤ length cells.old }
    requires octave { hi ≤ 2 * lo }
    requires few { length cells.old ≤ 2 ^ 62 }
    ensures tree { IsTree (B.operations body.now) lo hi cells.new }
    ensures same { drop lo cells.new ≡ drop lo cells.old }
{
    join_laws(body);
    let mut node = at;
    let mut width = 1;
    'up: loop {
        node /= 2;
        width *= 2;
        if is_past(lo, hi, node * width, width) {
            return;
        }
        let next = join_below(body, cells, node);
        if settles::<S, B>(replaced, cells[node], next) {
            return;
        }
        cells[node] = next;
    }
}
