//! The vector's edits: push, pop, overwrite, reserve, swap and truncate. Each has a number, a precondition check (*verdict*) and a
//! result (*receipt*).
//!
//! The model of `Edits` is its limits and its operation log (*journal*), and nothing else: the list is the journal replayed
//! (`list_of`), and each contract speaks of that list. The elements are stored in the cells of a store, where the last edit's
//! writes may be pending. Aggregates (*summaries*) are kept elsewhere.
#![tactic(auto)]

mod edit;
mod edits;
mod journal;
mod logs;
mod making;
mod pushing;
mod ranges;
mod receipt;
mod writing;

pub use edit::Edit;
pub use edits::Edits;
pub use logs::Log;
pub use ranges::refusal_of;
pub use receipt::Receipt;
