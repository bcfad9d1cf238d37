//! What is recorded of the reductions that a session is answered.

/// What is recorded of the reductions that a session is answered.
#[derive(Clone, Copy, PartialEq, Eq)]
pub enum KeptAnswers {
    /// They are recorded in the hub's log, and the session lists at most this many for a transcript. A reduction that finds no room in the list
    /// is refused.
    Listed(usize),
    /// They are recorded in the hub's log, and not listed.
    Logged,
    /// They are not recorded.
    Nothing,
}
