//! Aggregates (*summaries*) that travel: those of a shard's elements by each of the six kinds. Combining them keeps the order of elements.
//!
//! The model of a `ShardSummary` is a count, a version (*edit*), the six aggregates and a table. Its contracts speak of the
//! lists that it is the summary of. It knows of no vector, takes no memory, and sends nothing.
#![tactic(auto)]

mod bytes;
mod extending;
mod filled;
mod joins;
mod laws;
mod numbers;
mod reading;
mod refusals;
mod shard;
mod sixfold;

pub use extending::automaton_by;
pub use joins::join_all;
pub use laws::{
    joins_may_be_grouped, shards_come_to_the_fold_of_all, the_empty_summary_changes_nothing,
};
pub use numbers::{CHECKSUM_OF_NONE, SUMMARY_BYTES, checksum, checksum_more, number_at};
pub use refusals::{JoinRefusal, ReadRefusal};
pub use shard::ShardSummary;
pub use sixfold::{Each, Leads, leads_by, leads_by_numbers};
