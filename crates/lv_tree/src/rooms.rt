//! Room for leaves, in memory where no cell is written before the first leaf comes. When it is full, the leaves move to the front of their cells
//! if they fill at most three eighths of them, and else to twice as many cells. So a window that slides keeps its cells.
ghost use Rattle.std.specs.Prelude.{◌≡◌, ℕ, ◌+◌, ◌-◌, ◌*◌, ◌^◌, ◌<◌, ◌≤◌, [], length, drop, IfSome, MatchOption, vec_capacity};
ghost use Rattle.lv_tree.specs.Folds.{AreFolds};
ghost use Rattle.lv_tree.specs.Nodes.{HasCells, HasLeaves, HasRoom, HasRooms, IsTree};
ghost use Rattle.lv_tree.specs.Parts.{run_of};

use crate::joins::Joins;
use crate::renewals::renew;
use std::alloc::Global;

// Joins all nodes over leaves anew.
fn build<S: Copy, B: Joins<S>>(body: &B, cells: &mut [S], lo: usize, hi: usize)
    requires folds { AreFolds (B.operations body.now) (run_of cells.old lo (hi - lo)) }
    requires order { lo ≤ hi }
    requires inside { hi ≤ length cells.old }
    requires octave { hi ≤ 2 * lo }
    requires few { length cells.old ≤ 2 ^ 62 }
    ensures tree { IsTree (B.operations body.now) lo hi cells.new }
    ensures same { drop lo cells.new ≡ drop lo cells.old }
{
    for at in lo..hi {
        renew(body, cells, lo, at + 1, at, false);
    }
}

// Moves all cells towards the front, so that the cell at place `lo` comes to place `to`.
fn slide<S: Copy>(cells: &mut [S], lo: usize, to: usize)
    requires back { to ≤ lo }
    requires inside { lo ≤ length cells.old }
    ensures { (count : ℕ) → lo + count ≤ length cells.old → run_of cells.new to count ≡ run_of cells.old lo count }
{
    cells.rotate_left(lo - to);
}

// Moves the leaves towards the front, to place `to` and on, and joins their nodes anew.
fn close_up<S: Copy, B: Joins<S>>(body: &B, cells: &mut [S], lo: usize, hi: usize, to: usize)
    requires folds { AreFolds (B.operations body.now) (run_of cells.old lo (hi - lo)) }
    requires order { lo ≤ hi }
    requires inside { hi ≤ length cells.old }
    requires back { to ≤ lo }
    requires room { to + (hi - lo) < length cells.old }
    requires octave { length cells.old ≤ 2 * to }
    requires few { length cells.old ≤ 2 ^ 62 }
    ensures { HasRoom (B.operations body.now) cells.old cells.new lo (hi - lo) to }
{
    slide(cells, lo, to);
    build(body, cells, to, to + (hi - lo));
}

// Twice `room` cells: those from `room` on are copies of some leaves, and the others hold nothing of use yet.
fn larger<S: Copy>(cells: &Vec<S>, lo: usize, hi: usize, room: usize, other: S) -> Option<Vec<S>>
    requires order { lo ≤ hi }
    requires inside { hi ≤ length cells.now.items }
    requires fits { hi - lo ≤ room }
    requires few { room ≤ 2 ^ 61 }
    ensures { MatchOption result (Unit {0}) (λ more. HasLeaves cells.now.items more.items lo (hi - lo) room) }
{
    let mut more = Vec::with_capacity(*cells.allocator(), 2 * room).ok()?;
    more.resize(room, other).ok()?;
    more.extend_from_slice(&cells[lo..hi]).ok()?;
    more.resize(2 * room, other).ok()?;
    Some(more)
}

// The place of the first leaf, when there is room for one more. If no cell is written yet, they are written now.
pub fn opened<S: Copy, B: Joins<S>>(
    _body: &B,
    cells: &mut Vec<S>,
    lo: usize,
    hi: usize,
    room: usize,
    other: S,
) -> usize
    requires tree { IsTree (B.operations _body.now) lo hi cells.old.items }
    requires order { lo ≤ hi }
    requires inside { hi ≤ length cells.old.items }
    requires octave { length cells.old.items ≤ 2 * lo }
    requires few { length cells.old.items ≤ 2 ^ 62 }
    requires free { hi - lo < room }
    requires has_cells { HasCells room lo (length cells.old.items) (vec_capacity cells.old) }
    ensures has_room { HasRoom (B.operations _body.now) cells.old.items cells.new.items lo (hi - lo) result }
    ensures whole { result + room ≤ length cells.new.items }
{
    if cells.is_empty() {
        let _ = cells.resize(2 * room, other);
        return room;
    }
    lo
}

// Makes room for one more leaf, and returns the place at which the leaves begin then; none if there is no memory, and nothing has changed then.
pub fn with_room<S: Copy, B: Joins<S>>(
    body: &B,
    cells: &mut Vec<S>,
    lo: usize,
    hi: usize,
    room: usize,
    other: S,
) -> Option<usize>
    requires tree { IsTree (B.operations body.now) lo hi cells.old.items }
    requires folds { AreFolds (B.operations body.now) (run_of cells.old.items lo (hi - lo)) }
    requires order { lo ≤ hi }
    requires inside { hi ≤ length cells.old.items }
    requires octave { length cells.old.items ≤ 2 * lo }
    requires few { length cells.old.items ≤ 2 ^ 62 }
    requires has_cells { HasCells room lo (length cells.old.items) (vec_capacity cells.old) }
    ensures { MatchOption result ((cells.new.items ≡ cells.old.items) × (vec_capacity cells.new ≡ vec_capacity cells.old)) (λ to. HasRoom (B.operations body.now) cells.old.items cells.new.items lo (hi - lo) to) }
{
    let all = cells.len();
    let count = hi - lo;
    if count < room {
        return Some(opened(body, cells, lo, hi, room, other));
    }
    let to = all - all / 2;
    if 1 < all && count <= all / 8 * 3 {
        close_up(body, cells.as_mut_slice(), lo, hi, to);
        return Some(to);
    }
    let more_room = all.max(8);
    if more_room > 1 << 61 {
        return None;
    }
    let mut more = larger(cells, lo, hi, more_room, other)?;
    build(body, more.as_mut_slice(), more_room, more_room + count);
    *cells = more;
    Some(more_room)
}

// Memory for twice `room` cells. None is written yet.
fn unwritten<S: Copy>(alloc: Global, room: usize) -> Option<Vec<S>>
    requires few { room ≤ 2 ^ 61 }
    ensures none { IfSome result (λ more. more.items ≡ []) }
    ensures room { IfSome result (λ more. 2 * room ≤ vec_capacity more) }
{
    Vec::with_capacity(alloc, 2 * room).ok()
}

// Takes memory for `room` leaves, moves those that are there to it, and returns the place at which they begin then. None if there is no memory,
// and nothing has changed then.
pub fn with_rooms<S: Copy, B: Joins<S>>(
    body: &B,
    cells: &mut Vec<S>,
    lo: usize,
    hi: usize,
    room: usize,
) -> Option<usize>
    requires folds { AreFolds (B.operations body.now) (run_of cells.old.items lo (hi - lo)) }
    requires order { lo ≤ hi }
    requires inside { hi ≤ length cells.old.items }
    requires fits { hi - lo ≤ room }
    requires few { room ≤ 2 ^ 61 }
    ensures { MatchOption result ((cells.new.items ≡ cells.old.items) × (vec_capacity cells.new ≡ vec_capacity cells.old)) (λ to. HasRooms (B.operations body.now) cells.old.items cells.new.items lo (hi - lo) to room (vec_capacity cells.new)) }
{
    if lo == hi {
        *cells = unwritten(*cells.allocator(), room)?;
        return Some(0);
    }
    let mut more = larger(cells, lo, hi, room, body.nothing())?;
    build(body, more.as_mut_slice(), room, room + (hi - lo));
    *cells = more;
    Some(room)
}
