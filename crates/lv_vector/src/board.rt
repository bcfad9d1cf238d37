//! The lock-free form: a board, at which each thread has a seat.

pub use lv_board::{
    Board, Closed, Elements, Look, Opened, Seat, SeatWithBoard, Unclosed, Unseated,
    a_board_has_one_history,
};
pub use lv_machine::{Read, Refreshed, Sized};
