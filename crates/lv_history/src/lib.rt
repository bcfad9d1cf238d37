//! The history of a hub's updates, in the proofs: who may add an update, and which prefix of the list a thread has seen.
//!
//! A history is one list to which only its head adds (`Opened`, `Head`). A `HistoryPrefix` is a prefix of it that was seen. `Naming` says to
//! which hub they belong, and by which numbers its updates are reported. When the program runs, only the length of a history exists.
#![tactic(auto)]

mod entries;
mod histories;
mod naming;
mod numbering;

pub use histories::{Head, HistoryPrefix, Opened};
pub use naming::{Naming, WithBody};
pub use numbering::{from_the_first, told_number};
