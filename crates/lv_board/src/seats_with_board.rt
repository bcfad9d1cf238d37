//! A seat with its share of the board.
ghost use Rattle.std.specs.Prelude.{◌<◌};
ghost use Rattle.std.specs.Arc.{arc_value};
ghost use Rattle.lv_board.specs.Tells.{actor_of, IsAt};

use crate::board::Board;
use crate::bodies::BoardBody;
use crate::seats::Seat;
use std::alloc::Global;
use std::sync::Arc;

/// A seat with its share of the board, and the board's stamp. Whoever has one needs nothing else, in any thread.
#[derive(Drop)]
pub struct SeatWithBoard<B: BoardBody> {
    pub(crate) stamp: u64,
    pub(crate) board: Arc<Board<B>, Global>,
    pub(crate) seat: Seat<B>,
    ghost at: { IsAt (arc_value board).table.shared.table_id (arc_value board).terms seat },
    ghost below: { (actor_of seat).number < (arc_value board).terms.seats },
}
