//! An entry of the history.
use lv_edits::Edit;

/// An entry of a book: an update, the permit with which it was added, and the permit that takes its place. It exists only in the proofs.
pub struct Entry {
    pub by: u64,
    pub next: u64,
    pub edit: Edit,
}
