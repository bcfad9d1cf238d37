//! The table of summaries: for each node of six levels, by which edit it was touched last, and the summary that is kept for it with its version.
//!
//! Its model is a map from nodes, stated node by node (`touched_in`, `kept_in`, `fresh_in`), and a size. How rows are stored is private to the
//! crate. It does not compute summaries, and its calls know nothing of elements. `Agrees` says when a table agrees with a journal of edits, and
//! laws say that it goes on to do so: through growth, each edit, and each summary that is delivered.
#![tactic(auto)]

mod accepted;
mod delivery;
mod late_numbers;
mod late_rows;
mod level;
mod pieces;
mod summaries;

pub use accepted::Accepted;
pub use late_numbers::LateNumbers;
pub use late_rows::LateRows;
pub use summaries::Summaries;
