//! An entry of a hub's log.
use lv_edits::Edit;
use lv_script::Claimed;

/// What a log has of a hub, in the order of time.
#[derive(Clone, Copy)]
pub enum LogEntry {
    /// An update that was accepted.
    Edit(Edit),
    /// A reduction that was answered.
    Answer(Claimed),
}
