//! The geometry of the vector: the bucket and cell of an index, how much the buckets hold, the nodes for which
//! aggregates (*summaries*) are stored, the limits of a vector, and every error (*refusal*) with its number.
//!
//! Nothing here keeps state or takes memory, and no element is stored. The model is plain numbers: `place` and
//! `index` are inverse to each other, and `k` open buckets hold `8 * (2 ^ k - 1)` cells.
#![tactic(auto)]

mod cells;
mod levels;
mod limits;
mod nodes;
mod places;
mod refusals;

pub use cells::{buckets_for, capacity, index, place};
pub use levels::{Levels, rows_of};
pub use limits::Limits;
pub use nodes::{Node, block_of, width};
pub use places::Place;
pub use refusals::Refusal;
