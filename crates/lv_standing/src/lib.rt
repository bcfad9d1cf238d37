//! Continuous (*standing*) queries: named questions about a live vector, and notifications (*notes*) of the edits that change an answer.
//!
//! The model is the live vector's state and the list of the queries, in the order of their registration. Each answer is the plain value
//! of the elements that the query's span has at the last edit. An edit sends one note for each query, in order, whose answer it changed.
//! If a query has a bound, a note is sent when its answer begins or ceases to be within the bound. For each query the aggregate
//! (*summary*) of its elements is stored, by the query's own kind, so that a push costs one join for a range that ends with it.
//! What is stored by kind follows the edits when a question is asked: an edit costs a kind something only if that kind is asked after it.
//! A caller that keeps kinds with a live vector makes edits by `apply_beside` and the similar functions, and asks by `value_beside`. A
//! set of queries can be asked of anything that is `Askable`.
//! This crate parses no text and starts no thread.
#![tactic(auto)]

mod askable;
mod asking;
mod beside;
mod changes;
mod edits;
mod notes;
mod queries;
mod query_set;
mod questions;
mod spans;
mod standing;
mod thresholds;
mod values;
mod watches;

pub use askable::{Askable, value_in_span};
pub use beside::{apply_beside, make_beside, push_all_beside, write_all_beside, write_beside};
pub use lv_bodies::Name;
pub use notes::{Answered, Note};
pub use queries::Query;
pub use query_set::QuerySet;
pub use questions::{Asks, Question, Terms};
pub use spans::{Indices, Span};
pub use standing::Standing;
pub use thresholds::is_due;
pub use values::value_beside;
