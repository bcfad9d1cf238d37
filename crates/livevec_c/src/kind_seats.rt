//! A seat of any of the six kinds.
use lv_board::SeatWithBoard;
use lv_bodies::{Affine, Automaton, Best, Greatest, Least, Sum};

/// A seat with its share of the board, by the board's kind.
#[derive(Drop)]
pub enum KindSeat {
    Sum(SeatWithBoard<Sum>),
    Least(SeatWithBoard<Least>),
    Greatest(SeatWithBoard<Greatest>),
    Best(SeatWithBoard<Best>),
    Affine(SeatWithBoard<Affine>),
    Automaton(SeatWithBoard<Automaton>),
}
