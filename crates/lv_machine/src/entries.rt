//! An entry of a history: an update, and who made it.
use lv_edits::Edit;

/// One accepted update of a history, and the number of the actor that made it.
#[derive(Clone, Copy, PartialEq, Eq)]
pub struct Entry {
    pub actor: u32,
    pub edit: Edit,
}
