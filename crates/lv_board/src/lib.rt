//! The lock-free form, shared by threads: a board of words, and a seat for each thread.
#![tactic(auto)]

mod actors;
mod answering;
mod board;
mod bodies;
mod calls;
mod closing;
mod exchanges;
mod gets;
mod installs;
mod laws;
mod loads;
mod looks;
mod marks;
mod meetings;
mod opened;
mod opening;
mod plays;
mod reductions;
mod refreshes;
mod remains;
mod retrying;
mod rules;
mod seats;
mod seats_with_board;
mod sessions;
mod sharing;
mod steps;
mod tries;
mod underway;
mod verdicts;
mod words;

pub use actors::{Actor, Basis, InstalledPart, View};
pub use board::Board;
pub use bodies::BoardBody;
pub use laws::a_board_has_one_history;
pub use looks::Look;
pub use meetings::Met;
pub use opened::Opened;
pub use remains::{Closed, Elements};
pub use seats::Seat;
pub use seats_with_board::SeatWithBoard;
pub use sessions::run_board_session;
pub use sharing::{Unclosed, Unseated};
