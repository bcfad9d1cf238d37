//! How a log begins.

/// The numbers in the first line of a log.
#[derive(Clone, Copy, PartialEq, Eq)]
pub struct LogHeading {
    /// How many edits came before this file.
    pub base: u64,
    /// How many of its updates represent the elements that there were then.
    pub elements: u32,
}
