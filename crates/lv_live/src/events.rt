//! Events: the calls of a live vector, as plain values.
use lv_edits::Edit;

/// What may happen to a live vector.
#[derive(Clone, Copy, PartialEq, Eq)]
pub enum Event {
    /// An edit is asked for.
    Edit(Edit),
    /// What is pending is completed.
    Settle,
    /// A job is asked for.
    Claim,
    /// The outcome of a job is handed back. Jobs have the numbers 1, 2, 3 and so on, in the order of their claims.
    Deliver(u64),
    /// All claims are forgotten. Jobs handed out before stay good.
    Forget,
    /// The fold of the elements from index `lo` up to `hi` is asked for.
    Reduce { lo: u32, hi: u32 },
    /// The running folds of that range are asked for.
    Scan { lo: u32, hi: u32, inclusive: bool },
}
