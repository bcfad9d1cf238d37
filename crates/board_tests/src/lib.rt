//! What only the library can show of the board: its calls as values, threads, readers and writers that fail, memory that is refused.
#![tactic(auto)]

#[cfg(test)]
mod board;
#[cfg(test)]
mod board_refreshes;
#[cfg(test)]
mod board_sessions;
#[cfg(test)]
mod board_threads;
#[cfg(test)]
mod boards_of_two;
#[cfg(test)]
mod same;
