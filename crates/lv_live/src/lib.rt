//! The live vector: edits, queries and refresh, one event after another.
//!
//! A vector's record is all that it has seen: the accepted edits, the jobs issued, what is claimed and what is kept. Each
//! event is one step on the record; a run is a list of steps. `run` carries the theorem: after any list of events each
//! answer is the plain left fold at its edit. No thread is started here, and nothing waits.
#![tactic(auto)]

mod batches;
mod delivering;
mod events;
mod following;
mod issued;
mod live;
mod playing;
mod pushing;
mod replies;
mod theorems;
mod vouching;
mod worlds;
mod writing;

pub use batches::{
    Batch, BatchOutcome, BatchOutcomeOf, Batched, BlockJob, BlockOutcome, BlockOutcomeOf,
};
pub use events::Event;
pub use following::{Touched, touched_indices};
pub use issued::Issued;
pub use live::Live;
pub use playing::{claim, deliver};
pub use replies::{Reply, ReplyOf};
pub use theorems::{
    answers_are_plain, every_run_is_true_of_its_edits, honest_outcomes_are_vouched_for,
    honesty_lasts, honesty_lasts_through_batches, jobs_stay_vouched_for, refresh_changes_no_answer,
    refusals_change_nothing, runs_have_one_outcome,
};
pub use worlds::{World, run};
