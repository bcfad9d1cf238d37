//! The audit of a prefix (*front*) of a transcript, or of a log: updates and answers in the order of time, as far as they were written.
ghost use Rattle.std.specs.Prelude.{◌≡◌, ◌≤◌, ◌++◌, None, Some, IfOk, MatchResult, length};
ghost use Rattle.lv_lines.specs.Output.{HasRoom};
ghost use Rattle.lv_lines.specs.declared.replies.TheConstants.{LINE};
ghost use Rattle.lv_transcript.specs.Auditing.{IsFoundAt, IsToldOf};
ghost use Rattle.lv_transcript.specs.Audits.{FrontAudited, ReadsFront, counts_text, front_text};
ghost use Rattle.lv_transcript.specs.Fronts.{elements_of};
ghost use Rattle.lv_transcript.specs.Seals.{bytes_in_file};

use crate::auditor::{Auditor, Stage, elements_of};
use crate::log_heading::LogHeading;
use crate::seals::SEAL_BYTES;
use crate::whole_lines::WholeLines;
use lv_edits::Edits;
use lv_lines::{Fault, LINE, MOST_NUMBERED, put, put_bad, put_number, serve_lines, write_whole};
use std::alloc::Global;
use std::io;
use std::io::{Read, Write};

/// The verdict of an audit of a prefix of a transcript, or of a log.
#[derive(Clone, Copy, PartialEq, Eq)]
pub enum FrontVerdict {
    /// It is a prefix, with so many updates and answers.
    Front {
        /// How many updates were accepted.
        edits: u32,
        /// How many answers are true.
        answers: u32,
    },
    /// The line of this number is the first fault: it has the right form, and is false.
    No(u32),
    /// The line of this number is the first fault: it is missing, or not of a form that may come there.
    Bad(u32),
}

/// The findings about an input: the verdict, and what was read.
#[derive(Drop)]
pub struct FoundFront {
    /// Whether it is a prefix.
    pub verdict: FrontVerdict,
    /// Its updates, up to the first fault.
    pub edits: Edits,
    /// What its first line says, if it is a log.
    pub heading: Option<LogHeading>,
    /// How many bytes of the input the first line and the lines of its updates and answers are.
    pub whole: u64,
    /// The checksum of these bytes, if each line ends in one.
    pub hash: Option<u64>,
}

/// Audits a prefix (*front*) of a transcript, or a log: reads it to its end, and writes the verdict as a line. An input of more than `most`
/// bytes is `TooLong`.
///
/// A prefix has whole lines of a transcript from the first on. Its updates and answers may be in the order of time, each answer after the
/// updates that it is true of. The bytes after the last LF do not count. Faults are those of `audit`.
pub fn audit_front<R: Read + Drop, W: Write>(
    alloc: Global,
    most: usize,
    reader: R,
    writer: &mut W,
) -> Result<FrontVerdict, Fault>
    requires { most ≤ MOST_NUMBERED }
    ensures { FrontAudited most (R.remaining reader) (W.contents writer.old) (W.contents writer.new) result }
{
    let Ok(mut held) = Vec::with_capacity(alloc, LINE) else {
        return Err(Fault::NoMemory);
    };
    let found = read_front(alloc, most, reader)?;
    let verdict = found.verdict;
    let heading = found.heading;
    drop(found);
    put_front(&mut held, heading, verdict);
    write_whole(writer, held.as_slice())?;
    Ok(verdict)
}

// Puts the line of a verdict on a text with this heading after what is held.
fn put_front(held: &mut Vec<u8>, heading: Option<LogHeading>, verdict: FrontVerdict)
    requires { HasRoom held.old LINE }
    ensures { held.new.items ≡ held.old.items ++ front_text heading verdict }
{
    match verdict {
        FrontVerdict::Front { edits, answers } => match heading {
            Some(heading) => put_log(held, heading, edits, answers),
            None => put_counts(held, edits, answers),
        },
        FrontVerdict::No(line) => {
            put(held, b"no ");
            put_number(held, line.into());
            put(held, b"\n");
        }
        FrontVerdict::Bad(line) => put_bad(held, line),
    }
}

// Puts the line of a prefix with so many updates and answers.
fn put_counts(held: &mut Vec<u8>, edits: u32, answers: u32)
    requires { HasRoom held.old LINE }
    ensures { held.new.items ≡ held.old.items ++ counts_text None edits answers }
{
    put(held, b"front ");
    put_number(held, edits.into());
    put(held, b" edits ");
    put_number(held, answers.into());
    put(held, b" answers\n");
}

// Puts the line of a log with so many updates and answers. The updates that represent elements do not count.
fn put_log(held: &mut Vec<u8>, heading: LogHeading, edits: u32, answers: u32)
    requires { HasRoom held.old LINE }
    ensures { held.new.items ≡ held.old.items ++ counts_text (Some heading) edits answers }
{
    put(held, b"log ");
    put_number(held, heading.base);
    put(held, b" base ");
    put_number(held, heading.elements.into());
    put(held, b" elements ");
    put_number(held, edits.saturating_sub(heading.elements).into());
    put(held, b" edits ");
    put_number(held, answers.into());
    put(held, b" answers\n");
}

/// Reads an input to its end as a prefix of a transcript, or as a log. Faults are those of `audit_front`, except that nothing is written.
pub fn read_front<R: Read + Drop>(
    alloc: Global,
    most: usize,
    reader: R,
) -> Result<FoundFront, Fault>
    requires { most ≤ MOST_NUMBERED }
    ensures { ReadsFront most (R.remaining reader) result }
{
    let Ok(mut auditor) = Auditor::new(alloc, true) else {
        return Err(Fault::NoMemory);
    };
    let Ok(mut whole) = WholeLines::new(alloc, reader) else {
        return Err(Fault::NoMemory);
    };
    match serve_lines(most, alloc, &mut auditor, &mut whole, &mut io::sink()) {
        Err(Fault::ReadFault) => {
            if whole.is_at_end() {
                return auditor.found(whole.hash());
            }
            Err(Fault::ReadFault)
        }
        Err(fault) => Err(fault),
        // Never: the reader fails at its end.
        Ok(()) => Err(Fault::ReadFault),
    }
}

impl Auditor {
    // The findings, once all lines were read.
    fn found(self, hash: Option<u64>) -> Result<FoundFront, Fault>
        ensures hash { IfOk result (λ found. found.hash ≡ hash) }
        ensures found { MatchResult result (λ found. (found.edits ≡ self.edits) × (found.heading ≡ self.heading) × (found.whole ≡ bytes_in_file found.hash self.whole self.lines)
            × IsFoundAt self.stage (elements_of self.heading) self.lines (length self.edits.journal) found.verdict) (λ fault. fault ≡ Fault.NoMemory) }
    {
        let verdict = self.front_verdict()?;
        let Auditor {
            edits,
            heading,
            whole,
            lines,
            ..
        } = self;
        Ok(FoundFront {
            verdict,
            edits,
            heading,
            whole: in_file(whole, lines, hash),
            hash,
        })
    }

    // The verdict.
    fn front_verdict(&self) -> Result<FrontVerdict, Fault>
        ensures { MatchResult result (IsFoundAt self.now.stage (elements_of self.now.heading) self.now.lines (length self.now.edits.journal)) (λ fault. fault ≡ Fault.NoMemory) }
    {
        let edits = self.edits.edit();
        match self.stage {
            Stage::Start => Ok(front_of(0, 0)),
            Stage::Edits | Stage::AnswersFollow => {
                let entries = self.lines.saturating_sub(1);
                Ok(told_of(elements_of(self.heading), self.lines, edits, entries))
            }
            Stage::End => Ok(front_of(edits, self.lines.saturating_sub(2).saturating_sub(edits))),
            Stage::No(line) => Ok(FrontVerdict::No(line)),
            Stage::Bad(line) => Ok(FrontVerdict::Bad(line)),
            Stage::NoMemory => Err(Fault::NoMemory),
        }
    }
}

// How many bytes of a file are so many bytes of its text, which are so many lines.
fn in_file(bytes: u64, lines: u32, hash: Option<u64>) -> u64
    ensures { result ≡ bytes_in_file hash bytes lines }
{
    match hash {
        Some(_) => bytes.saturating_add(u64::from(lines) * SEAL_BYTES as u64),
        None => bytes,
    }
}

// The verdict on so many lines with so many updates and entries. If there are fewer updates than elements, the next line is missing.
fn told_of(elements: u32, lines: u32, edits: u32, entries: u32) -> FrontVerdict
    ensures { IsToldOf elements lines edits entries result }
{
    if edits < elements {
        return FrontVerdict::Bad(lines.saturating_add(1));
    }
    front_of(edits, entries.saturating_sub(edits))
}

// A prefix with so many updates and answers.
fn front_of(edits: u32, answers: u32) -> FrontVerdict
    ensures { result ≡ FrontVerdict.Front edits answers }
{
    FrontVerdict::Front { edits, answers }
}
