//! A shared board, with those of its seats that aren't taken.
ghost use Rattle.std.specs.Prelude.{◌<◌, ◌≤◌, map, nat_eq, vec_capacity, All};
ghost use Rattle.std.specs.Arc.{arc_value};
ghost use Rattle.std.specs.List.{IsDistinct};
ghost use Rattle.std.proofs.Props.{props};
ghost use Rattle.lv_board.specs.Closing.{AreAt};
ghost use Rattle.lv_board.specs.Tells.{actor_of};

use crate::board::Board;
use crate::bodies::BoardBody;
use crate::seats::Seat;
use std::alloc::Global;
use std::sync::Arc;

/// A shared board, and those of its seats that nobody has taken. Its stamp distinguishes it from other boards.
#[derive(Drop)]
pub struct Opened<B: BoardBody> {
    pub(crate) stamp: u64,
    pub(crate) board: Arc<Board<B>, Global>,
    pub(crate) seats: Vec<Seat<B>>,
    ghost at: { AreAt (arc_value board).table.shared.table_id (arc_value board).terms seats.items },
    ghost below: { All (λ s. (actor_of s).number < (arc_value board).terms.seats) seats.items },
    ghost apart: { IsDistinct nat_eq (map (λ s. (actor_of s).number) seats.items) } by { Prim.hlevel props },
    ghost room: { (arc_value board).terms.seats ≤ vec_capacity seats },
}
