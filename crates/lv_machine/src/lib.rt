//! The lock-free form of the vector as a plain value that makes one atomic step at a time, and as plain data: its words, the histories that they
//! show, and its atomic steps.
//!
//! A machine has the words of the lock-free form and, for each actor, the descriptor that it last saw and its call, if one is under way. An event
//! starts a call or does its next step, and nothing happens between events. The machine's updates are those whose compare-and-swap found the
//! descriptor unchanged, in that order. They are not stored. No thread is started here, and nothing waits.
#![tactic(auto)]

mod actors;
mod advances;
mod entries;
mod events;
mod exchanges;
mod laws;
mod looks;
mod machines;
mod moves;
mod outcomes;
mod packing;
mod refreshes;
mod schedules;
mod start;
mod steps;
mod tasks;
mod verdicts;
mod walks;

pub use entries::Entry;
pub use events::{Call, Event};
pub use laws::{descriptors_tell_the_edit, earlier_edits_come_first, reachable_words_show_history};
pub use machines::Machine;
pub use moves::Move;
pub use outcomes::{Outcome, Read, Refreshed, Said, Sized};
pub use packing::{
    cell_place_of, edit_in, element, fits_short, index_in, look_after, mark_place_of, pack,
    pack_cell, pack_part, part_place_of, part_value_in, part_version_in, size_in, value_in,
    version_in,
};
pub use schedules::every_event_is_one_move;
pub use start::{first_descriptor, first_words};
pub use verdicts::refused_by_size;
