//! Audits of the text of a transcript, or of a prefix of one, that is in the caller's memory.
ghost use Rattle.std.specs.Prelude.{◌≡◌};
ghost use Rattle.livevec_c.specs.Audits.{Audits, AuditsFrontFor, AuditsFor, fronted_by, no_front, unaudited, unread_number, verdict_for};

use crate::results::NO_MEMORY;
use lv_transcript::{FrontVerdict, Unread, Verdict, audit_front_text, audit_text};
use std::alloc::Global;

/// The number for a text of more than 2^30 bytes.
pub const TOO_LONG: u32 = 112;

/// The number for a text that is no prefix of a transcript.
pub const NO_FRONT: u32 = 116;

/// The answer of an audit, and of a restoration.
#[repr(C)]
#[derive(Clone, Copy)]
pub struct Audited {
    pub refusal: u32,
    pub detail: u32,
    pub verdict: u32,
    pub line: u32,
    pub edits: u32,
    pub answers: u32,
}

/// The answer if there is no verdict.
pub fn not_audited(refusal: u32) -> Audited
    ensures { result ≡ unaudited refusal }
{
    Audited {
        refusal,
        detail: 0,
        verdict: 0,
        line: 0,
        edits: 0,
        answers: 0,
    }
}

// The answer that names a line, or none: 1 yes, 2 no, 3 bad.
fn verdict_at(verdict: u32, line: u32) -> Audited
    ensures { result ≡ record (unaudited 0) { verdict = verdict; line = line } }
{
    let mut answer = not_audited(0);
    answer.verdict = verdict;
    answer.line = line;
    answer
}

// The answer for a verdict on a transcript.
fn verdict_answer(verdict: Verdict) -> Audited
    ensures { result ≡ verdict_for verdict }
{
    match verdict {
        Verdict::Yes => verdict_at(1, 0),
        Verdict::No(line) => verdict_at(2, line),
        Verdict::Bad(line) => verdict_at(3, line),
    }
}

/// The answer for a verdict on a prefix of a transcript.
pub fn front_answer(verdict: FrontVerdict) -> Audited
    ensures { result ≡ fronted_by verdict }
{
    match verdict {
        FrontVerdict::Front { edits, answers } => {
            let mut answer = verdict_at(1, 0);
            answer.edits = edits;
            answer.answers = answers;
            answer
        }
        FrontVerdict::No(line) => verdict_at(2, line),
        FrontVerdict::Bad(line) => verdict_at(3, line),
    }
}

/// The answer that refuses a text which is no prefix of a transcript, with the verdict on it.
pub fn front_refused(verdict: FrontVerdict) -> Audited
    ensures { result ≡ no_front verdict }
{
    let mut answer = front_answer(verdict);
    answer.refusal = NO_FRONT;
    answer
}

/// The number for why bytes got no verdict.
pub fn unread_number(why: Unread) -> u32
    ensures { result ≡ unread_number why }
{
    match why {
        Unread::NoMemory => NO_MEMORY,
        Unread::TooLong => TOO_LONG,
    }
}

// Audits bytes as a transcript.
fn audit_whole(alloc: Global, text: &[u8]) -> Audited
    ensures { AuditsFor text.now result }
{
    match audit_text(alloc, text) {
        Ok(verdict) => verdict_answer(verdict),
        Err(why) => not_audited(unread_number(why)),
    }
}

// Audits bytes as the prefix of some transcript.
fn audit_front(alloc: Global, text: &[u8]) -> Audited
    ensures { AuditsFrontFor text.now result }
{
    match audit_front_text(alloc, text) {
        Ok(verdict) => front_answer(verdict),
        Err(why) => not_audited(unread_number(why)),
    }
}

/// Audits bytes as a transcript, or as the prefix of some transcript.
#[unsafe(no_mangle)]
pub extern "C" fn livevec_proved_audit(alloc: Global, text: &[u8], front: bool) -> Audited
    ensures { Audits front text.now result }
{
    if front {
        audit_front(alloc, text)
    } else {
        audit_whole(alloc, text)
    }
}
