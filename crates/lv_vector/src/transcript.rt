//! Transcripts: a journal with the answers that were given, written, audited and read again.
pub use lv_transcript::{
    Claimed, FlatEdit, FoundFront, FrontVerdict, LogHeading, Queue, TranscriptWriter, Unput,
    Unread, Verdict, are_in_order, audit, audit_front, audit_front_text, audit_text, copy_edits,
    flat_edit, front_in, put_transcript, read_front, write_joined_transcript, write_transcript,
};
