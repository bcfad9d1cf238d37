//! Transcripts and their auditor.
//!
//! A transcript is the text of an operation log (journal) and of the reductions that were answered. `write_transcript` writes it. `audit`
//! answers yes if and only if the bytes are a transcript whose every line is true. It folds blocks of the plain list, and keeps each fold
//! until an update touches the block. Of the vector it uses only the verdicts on updates. A `TranscriptWriter` writes the lines of a
//! transcript entry by entry, as they come. It may write to a `LogWriter` if the log goes on for long.
//!
//! All of that also works on a caller's memory. `copy_edits` copies an operation log in pieces as plain numbers, and `put_transcript` puts
//! a transcript's text into the caller's bytes. `audit_text`, `audit_front_text` and `front_in` treat bytes as `audit`, `audit_front` and
//! `read_front` treat an input.
#![tactic(auto)]

mod auditor;
mod block_folds;
mod claimed;
mod compaction;
mod flat_edits;
mod fronts;
mod kind_folds;
mod log_heading;
mod log_writer;
mod logs;
mod plain_ranges;
mod queues;
mod seals;
mod text_audits;
mod text_buffers;
mod transcript_lines;
mod transcript_writer;
mod transcripts;
mod unsealer;
mod whole_lines;

pub use auditor::{Verdict, audit};
pub use claimed::Claimed;
pub use compaction::{compact_log, compacted_heading};
pub use flat_edits::{FlatEdit, copy_edits, flat_edit};
pub use fronts::{FoundFront, FrontVerdict, audit_front, read_front};
pub use log_heading::LogHeading;
pub use log_writer::LogWriter;
pub use logs::{MOST_ELEMENTS, write_log};
pub use queues::Queue;
pub use seals::{SEAL_BYTES, put_sealed, sealed_length};
pub use text_audits::{Unread, audit_front_text, audit_text, front_in};
pub use text_buffers::{Unput, are_in_order, put_transcript};
pub use transcript_writer::TranscriptWriter;
pub use transcripts::{write_joined_transcript, write_transcript};
