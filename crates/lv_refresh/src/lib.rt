//! Refresh: which summary is to be computed next, and its computation away from the vector.
//!
//! `Claims` hands out jobs, the least node first; a `Job` is run anywhere, and gives an `Outcome` of the same node, version, contents and body.
//! Which job comes next is stated on a record of all that the vector has seen, and a job's contents are those of its node then. If a job is to be
//! done at once, `Claims::refresh_next` makes none: it claims the node and keeps its summary. The crate doesn't know who runs a job, or when.
#![tactic(auto)]

mod claims;
mod computing;
mod contents;
mod gathering;
mod jobs;
mod level;
mod marks;
mod one_word;
mod outcomes;
mod subtrees;
mod upper;
mod wants;

pub use claims::Claims;
pub use computing::refresh_node;
pub use contents::{Contents, Eight};
pub use gathering::children_of;
pub use jobs::{Job, JobOf};
pub use outcomes::{Outcome, OutcomeOf};
pub use subtrees::{
    SUBTREE_BLOCKS, SUBTREE_ELEMENTS, SUBTREE_SUMMARIES, SubtreeJob, SubtreeOutcome,
    SubtreeOutcomeOf,
};
