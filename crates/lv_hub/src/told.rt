//! A notification.
use lv_standing::Note;

/// What a subscriber is notified of: an edit number of the hub's own, and a note for each name whose answer there differs from the last one that
/// was reported.
#[derive(Drop)]
pub struct Told {
    pub edit: u64,
    pub notes: Vec<Note>,
}
