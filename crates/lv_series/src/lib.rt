//! A series: a list that goes on. In practice its elements and edits are bounded by memory only, and elements at its front may expire.
//!
//! The elements are in one array, each under an index of 64 bits that it keeps for as long as it is kept. For each of the six kinds that is
//! asked for there is a fold tree over blocks of eight elements, which every edit brings up to date at once. So a value of a range takes
//! O(log n) joins, takes no memory and changes nothing. The model of a series is the list that it keeps, the number of its edits, its
//! automaton's table, and which kinds have a tree.
#![tactic(auto)]

mod answers;
mod batches;
mod blocks;
mod changes;
mod edits;
mod layers;
mod places;
mod receipts;
mod refusals;
mod restored;
mod sample_changes;
mod sample_edits;
mod sample_theorems;
mod sample_windows;
mod samples;
mod scans;
mod searches;
mod series;
mod theorems;
mod times;
mod trees;
mod values;
mod verdicts;
mod windows;

pub use answers::{LongAnswer, LongScan};
pub use edits::LongEdit;
pub use lv_tree::Bound;
pub use places::{LongPlaced, LongRun};
pub use receipts::LongReceipt;
pub use refusals::LongRefusal;
pub use sample_edits::{Sample, SampleEdit, SampleRefusal};
pub use sample_theorems::every_sample_answer_is_plain;
pub use samples::{Samples, Window};
pub use series::Series;
pub use theorems::{every_answer_is_plain, refusals_change_nothing};
