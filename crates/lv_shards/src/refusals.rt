//! Errors about summaries.

/// The reason that two summaries can't be combined.
#[derive(Clone, Copy, Debug, PartialEq, Eq)]
pub enum JoinRefusal {
    /// They are by automata of two tables.
    OtherTable,
    /// They are of more than 2^62 elements together.
    TooLong,
}

/// Why bytes are not read as a summary.
#[derive(Clone, Copy, Debug, PartialEq, Eq)]
pub enum ReadRefusal {
    /// They are of another version of the layout, or no summary at all.
    OtherVersion,
    /// They were changed, or say what no elements come to.
    Damaged,
}
