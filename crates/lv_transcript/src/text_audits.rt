//! Audits of bytes in memory.
ghost use Rattle.std.specs.Prelude.{◌≡◌};
ghost use Rattle.lv_transcript.specs.ReadTexts.{AuditsFront, AuditsText, FindsFront, unread_by};

use crate::auditor::{Verdict, audit};
use crate::fronts::{FoundFront, FrontVerdict, audit_front, read_front};
use lv_lines::{Fault, MOST_READ};
use std::alloc::Global;
use std::io;

/// Why bytes got no verdict.
#[derive(Clone, Copy, PartialEq, Eq)]
pub enum Unread {
    /// There was no memory for the edits.
    NoMemory,
    /// There are more than 2^30 bytes.
    TooLong,
}

// The reason that bytes in memory got no verdict, given the fault of an audit of an input. No read and no write can fail there.
fn why_unread(fault: Fault) -> Unread
    ensures { result ≡ unread_by fault }
{
    match fault {
        Fault::TooLong => Unread::TooLong,
        _ => Unread::NoMemory,
    }
}

/// Audits bytes as a transcript, as `audit` does it. Memory grows with the operation log.
pub fn audit_text(alloc: Global, text: &[u8]) -> Result<Verdict, Unread>
    ensures { AuditsText text.now result }
{
    let mut reader = text;
    match audit(alloc, &mut reader, &mut io::sink()) {
        Ok(verdict) => Ok(verdict),
        Err(fault) => Err(why_unread(fault)),
    }
}

/// Audits bytes as a prefix of a transcript, or as a log, as `audit_front` does it. Memory grows with the operation log.
pub fn audit_front_text(alloc: Global, text: &[u8]) -> Result<FrontVerdict, Unread>
    ensures { AuditsFront text.now result }
{
    match audit_front(alloc, MOST_READ, text, &mut io::sink()) {
        Ok(verdict) => Ok(verdict),
        Err(fault) => Err(why_unread(fault)),
    }
}

/// Audits bytes as `audit_front_text` does, and returns the updates that were read too.
pub fn front_in(alloc: Global, text: &[u8]) -> Result<FoundFront, Unread>
    ensures { FindsFront text.now result }
{
    match read_front(alloc, MOST_READ, text) {
        Ok(found) => Ok(found),
        Err(fault) => Err(why_unread(fault)),
    }
}
