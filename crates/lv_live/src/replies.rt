//! Replies to events.
use lv_bodies::Body;
use lv_edits::Receipt;
use lv_geometry::{Node, Refusal};
use lv_reduce::{Answer, Scan};
use lv_summary::Accepted;

/// What an event is answered, by summaries of a type.
#[derive(Drop)]
pub enum ReplyOf<S> {
    /// An edit was accepted.
    Did(Receipt),
    /// Nothing is pending.
    Settled,
    /// A job was handed out, and has this number.
    Claimed { k: u64, node: Node, version: u32 },
    /// No node wants a job.
    Idle,
    /// An outcome was delivered.
    Gave(Accepted),
    /// No node is claimed.
    Forgotten,
    /// The answer to a reduction: its fold, and how much was read for it.
    Answered(Answer<S>),
    /// The running folds that were asked for.
    Scanned(Scan<S>),
    /// The event was refused, and nothing has changed.
    Refused(Refusal),
}

/// What an event is answered, by a body.
pub type Reply<B> = ReplyOf<<B as Body>::S>;
