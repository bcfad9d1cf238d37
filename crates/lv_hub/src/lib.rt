//! The hub: many threads on one live vector, under one lock.
//!
//! The value in the lock is a desk. It has a live vector, the ledger's book of how many updates were accepted, the history of the updates with
//! the only permit to add to it, and which workers and subscribers sleep. Each thread has a share, which counts the updates that the thread made,
//! and has seen a prefix of the history. All shares together count all updates, so the hub's calls speak of one list of updates. A desk's calls
//! are the vector's calls, and none of them waits. A call on the hub takes the lock, makes one call of the desk and releases the lock.
//!
//! Workers claim jobs and deliver their outcomes, and compute without holding the lock. Workers that attend sleep while no node needs a job,
//! until an update wakes them or they are dismissed. A session answers the lines of a script through the hub's calls. A log, if there is one,
//! records its updates and answers. A subscriber is notified of the updates that change the answers to its questions. A watcher is a subscriber
//! with the writer of its notifications. It runs until the workers are dismissed, and writes its last notification from the vector of the closed
//! hub. `read_questions` reads what the lines of its file ask. Nothing here says that a thread makes progress, or in which order threads run.
#![tactic(auto)]

mod answering;
mod attending;
mod desks;
mod ended;
mod gates;
mod hubs;
mod kept_answers;
mod laws;
mod leaving;
mod log_entry;
mod notices;
mod operation_log;
mod questions;
mod renewed;
mod replying;
mod session_logs;
mod sessions;
mod shares;
mod sleeping;
mod subscribers;
mod tap;
mod told;
mod watchers;
mod worked;
mod workers;

pub use attending::attend;
pub use desks::Desk;
pub use ended::Ended;
pub use gates::{Gate, OpenGate};
pub use hubs::Hub;
pub use kept_answers::KeptAnswers;
pub use laws::{
    lines_are_plain_answers_of_one_list, replies_are_true_of_one_list,
    what_goes_on_behind_a_log_is_a_log,
};
pub use leaving::{Leaving, Left, Watched, leave_all};
pub use log_entry::LogEntry;
pub use lv_history::{HistoryPrefix, Naming, Opened, WithBody, from_the_first};
pub use lv_standing::Query;
pub use lv_transcript::LogHeading;
pub use notices::Notices;
pub use operation_log::{Begun, OperationLog};
pub use questions::{Damage, Unasked, read_questions};
pub use replying::SessionPlace;
pub use session_logs::{NoLog, SessionLog};
pub use sessions::{in_order, run_session};
pub use shares::Share;
pub use subscribers::{MOST_QUERIES, Subscriber};
pub use told::Told;
pub use watchers::{Watch, Watcher, subscribe_all};
pub use worked::Worked;
pub use workers::work;
