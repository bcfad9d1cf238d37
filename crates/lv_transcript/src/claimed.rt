//! A reduction as it was answered.
use lv_bodies::{Kind, Shown};

/// A reduction as it was answered: at which edit, of what kind, over which elements, and by which value.
#[derive(Clone, Copy, PartialEq, Eq)]
pub struct Claimed {
    /// The number of the last edit before the answer.
    pub edit: u32,
    /// The kind that was asked for.
    pub kind: Kind,
    /// The first index of the range.
    pub lo: u32,
    /// The index after its last.
    pub hi: u32,
    /// The answer.
    pub value: Shown,
}
