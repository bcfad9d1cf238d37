//! The vector as one crate: it re-exports what a program needs, each item from the crate that defines it. `CALLING.md` says which call promises
//! what.
#![tactic(auto)]

pub mod board;
pub mod hub;
pub mod series;
pub mod transcript;

pub use lv_bodies::{
    Affine, Automaton, Best, Body, Greatest, Kind, Least, LongBody, Pair, Shown, Six, SixSummary,
    Sum, fold_slice,
};
pub use lv_edits::{Edit, Receipt};
pub use lv_geometry::{Limits, Node, Refusal};
pub use lv_live::{
    Batch, BatchOutcome, Batched, Live, answers_are_plain, refresh_changes_no_answer,
    refusals_change_nothing,
};
pub use lv_reduce::{Answer, Reads, Scan};
pub use lv_refresh::{Job, Outcome, SubtreeJob, SubtreeOutcome};
pub use lv_standing::{
    Answered, Askable, Asks, Name, Note, Query, QuerySet, Question, Span, Standing, Terms,
};
pub use lv_summary::Accepted;
pub use lv_tree::{
    Bound, KindAnswer, Kinds, Placed, Run, best_run, first_greatest, first_index, first_least,
    last_index, reaches, reaches_back,
};
