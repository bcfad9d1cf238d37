//! The audit of a transcript: each edit is made anew, and each answer computed.
ghost use Rattle.std.proofs.Common.{inl};
ghost use Rattle.std.specs.Prelude.{◌≡◌, ◌↔◌, ℕ, ◌^◌, ◌≤◌, ◌++◌, ◌⊎◌, [], IfOk, MatchOption, MatchResult, IsTrue, length, take, vec_capacity};
ghost use Rattle.lv_lines.specs.Output.{HasRoom};
ghost use Rattle.lv_lines.specs.Texts.{shown_text};
ghost use Rattle.lv_edits.specs.History.{list_of};
ghost use Rattle.lv_lines.specs.declared.replies.TheConstants.{LINE};
ghost use Rattle.lv_lines.specs.Replies.{most_read};
ghost use Rattle.lv_transcript.specs.Auditing.{AnswerBecomes, CountedState, counted_at, counted_start, state_of, Audits, CountedStep, CountsBytes, AnswerLineBecomes, EditBecomes, Becomes, HasLaterForm, IsLast, IsVerdictAt, MayCome, MayEdit, MayEnd, Takes, TakesEdit, TakesLater};
ghost use Rattle.lv_transcript.specs.Blocks.{AreKept};
ghost use Rattle.lv_transcript.specs.Audits.{Audited, IsRight, ReadsInput, verdict_text};
ghost use Rattle.lv_transcript.specs.Fronts.{IsFirst, IsPush, MayBegin, elements_of};
ghost use Rattle.lv_transcript.specs.Transcript.{greatest, heading_line, HasEditForm};

use crate::log_heading::LogHeading;
use crate::plain_ranges::Replay;
use crate::transcript_lines::{Question, read_answer, read_edit, read_heading};
use lv_bodies::Shown;
use lv_edits::{Edit, Edits};
use lv_geometry::Limits;
use lv_lines::{
    Fault, LINE, LineHandler, MOST_READ, ReplyBuffer, put, put_bad, put_number, put_shown,
    serve_lines, write_whole,
};
use std::alloc::{AllocError, Global};
use std::io;
use std::io::{Read, Write};

/// The verdict of an audit of a transcript.
#[derive(Clone, Copy, PartialEq, Eq)]
pub enum Verdict {
    /// It is sound.
    Yes,
    /// The line of this number is the first fault: it has the right form, and is false.
    No(u32),
    /// The line of this number is the first fault: it is missing, or not of a form that may come there.
    Bad(u32),
}

/// Audits a transcript: reads it to its end, and writes the verdict as a line.
///
/// Each update is made again, and each answer's value is the left fold of the elements of its range. It is combined from folds of blocks
/// of 1,024 elements, which are kept until an update touches them. Memory grows with the operation log, not with the text.
/// Nothing is written if a read fails (`ReadFault`), if the input has more than 2^30 bytes (`TooLong`), or if there is no memory
/// (`NoMemory`). A failed write, and one that takes no byte, is `WriteFault`.
pub fn audit<R: Read, W: Write>(
    alloc: Global,
    reader: &mut R,
    writer: &mut W,
) -> Result<Verdict, Fault>
    ensures { Audited (R.remaining reader.old) (R.remaining reader.new) (W.contents writer.old) (W.contents writer.new) result }
{
    let Ok(mut held) = Vec::with_capacity(alloc, LINE) else {
        return Err(Fault::NoMemory);
    };
    let verdict = read_transcript(alloc, reader)?;
    put_verdict(&mut held, verdict);
    write_whole(writer, held.as_slice())?;
    Ok(verdict)
}

// Reads an input to its end as a transcript.
fn read_transcript<R: Read>(alloc: Global, reader: &mut R) -> Result<Verdict, Fault>
    ensures { ReadsInput most_read IsRight (R.remaining reader.old) (R.remaining reader.new) result }
{
    let Ok(mut auditor) = Auditor::new(alloc, false) else {
        return Err(Fault::NoMemory);
    };
    serve_lines(MOST_READ, alloc, &mut auditor, reader, &mut io::sink())?;
    auditor.verdict()
}

// Puts the line of a verdict after what is held.
fn put_verdict(held: &mut Vec<u8>, verdict: Verdict)
    requires { HasRoom held.old LINE }
    ensures { held.new.items ≡ held.old.items ++ verdict_text verdict }
{
    match verdict {
        Verdict::Yes => put(held, b"yes\n"),
        Verdict::No(line) => {
            put(held, b"no ");
            put_number(held, line.into());
            put(held, b"\n");
        }
        Verdict::Bad(line) => put_bad(held, line),
    }
}

/// What an audit expects next, or what it has found.
#[derive(Clone, Copy)]
pub(crate) enum Stage {
    /// The first line.
    Start,
    /// Edits, answers, or the last line.
    Edits,
    /// Answers, or the last line.
    AnswersFollow,
    /// Nothing: the last line was read.
    End,
    /// The line of this number is false.
    No(u32),
    /// The line of this number is not of a form that may come there.
    Bad(u32),
    /// There was no memory for the edits.
    NoMemory,
}

/// Reads the lines of a transcript, and keeps the first fault that it finds.
#[derive(Drop)]
pub(crate) struct Auditor {
    pub(crate) stage: Stage,
    pub(crate) lines: u32,
    // How many bytes the lines have that were taken, but for the last line of a transcript.
    pub(crate) whole: u64,
    // The heading in the first line, if the text is a log.
    pub(crate) heading: Option<LogHeading>,
    // All edits so far, and the list after those up to the last answer.
    pub(crate) edits: Edits,
    pub(crate) replay: Replay,
    // Whether updates may come after answers, as in a prefix (*front*).
    pub(crate) mixed: bool,
    // The text of the line that is read, or of its value.
    text: Vec<u8>,
    ghost limits: { edits.limits ≡ greatest },
    ghost replayed: { replay.list.items ≡ list_of (take replay.edit edits.journal) },
    ghost within: { replay.edit ≤ length edits.journal },
    // No list on the way was longer than a fold may be.
    ghost few: { (n : ℕ) → length (list_of (take n edits.journal)) ≤ 2 ^ 20 },
    ghost room: { LINE ≤ vec_capacity text },
    ghost kept: { AreKept replay.folds replay.list.items },
}

impl<W: Write> LineHandler<W> for Auditor {
    ghost State = { CountedState };

    ghost state = { λ a. counted_at a.mixed a.heading a.stage a.edits a.replay.edit a.lines a.whole };

    ghost step = { CountedStep };

    ghost may_send = { λ _. Unit {0} };

    fn handle(
        &mut self,
        number: u32,
        line: &[u8],
        _buffer: &mut ReplyBuffer<'_, W>,
    ) -> Result<(), Fault> {
        self.take_line(number, line);
        Ok(())
    }

    fn before_send(&self) -> Result<(), Fault> {
        Ok(())
    }
}

impl Auditor {
    // Before the first line.
    pub(crate) fn new(alloc: Global, mixed: bool) -> Result<Auditor, AllocError>
        ensures { IfOk result (λ a. counted_at a.mixed a.heading a.stage a.edits a.replay.edit a.lines a.whole ≡ counted_start mixed) }
    {
        Ok(Auditor {
            stage: Stage::Start,
            lines: 0,
            whole: 0,
            heading: None,
            edits: Edits::new(alloc, Limits::greatest()),
            replay: Replay::new(alloc),
            mixed,
            text: Vec::with_capacity(alloc, LINE)?,
        })
    }

    // The verdict, once all lines were read.
    fn verdict(&self) -> Result<Verdict, Fault>
        ensures { MatchResult result (IsVerdictAt self.now.stage self.now.lines) (λ fault. fault ≡ Fault.NoMemory) }
    {
        match self.stage {
            Stage::Start | Stage::Edits | Stage::AnswersFollow => {
                Ok(Verdict::Bad(self.lines.saturating_add(1)))
            }
            Stage::End => Ok(Verdict::Yes),
            Stage::No(line) => Ok(Verdict::No(line)),
            Stage::Bad(line) => Ok(Verdict::Bad(line)),
            Stage::NoMemory => Err(Fault::NoMemory),
        }
    }

    // Takes a line, or finds the first fault.
    pub(crate) fn take_line(&mut self, number: u32, line: &[u8])
        ensures line { Audits (state_of self.old.mixed self.old.heading self.old.stage self.old.edits self.old.replay.edit) number line.now (state_of self.old.mixed self.new.heading self.new.stage self.new.edits self.new.replay.edit) }
        ensures lines { self.new.lines ≡ number }
        ensures whole { CountsBytes self.new.stage self.old.whole line.now self.new.whole }
        ensures mixed { self.new.mixed ≡ self.old.mixed }
    {
        match self.stage {
            Stage::No(_) | Stage::Bad(_) | Stage::NoMemory => {}
            Stage::Start | Stage::Edits | Stage::AnswersFollow | Stage::End => {
                self.stage = self.next_stage(number, line);
                self.whole = bytes_behind(self.stage, self.whole, line);
            }
        }
        self.lines = number;
    }

    // The stage after a line.
    fn next_stage(&mut self, number: u32, line: &[u8]) -> Stage
        ensures stage { let old = state_of self.old.mixed self.old.heading self.old.stage self.old.edits self.old.replay.edit in
            Becomes number old (MayCome old line.now) (Takes old line.now) (state_of self.old.mixed self.new.heading result self.new.edits self.new.replay.edit) }
        ensures mixed { self.new.mixed ≡ self.old.mixed }
        ensures whole { self.new.whole ≡ self.old.whole }
    {
        if line.len() > 120 {
            return Stage::Bad(number);
        }
        match self.stage {
            Stage::Start => self.take_first(number, line),
            Stage::Edits => self.edit_or_later(number, line),
            Stage::AnswersFollow => self.behind_answer(number, line),
            Stage::End | Stage::No(_) | Stage::Bad(_) | Stage::NoMemory => Stage::Bad(number),
        }
    }

    // The stage after a line that should be the first.
    fn take_first(&mut self, number: u32, line: &[u8]) -> Stage
        requires stage { self.old.stage ≡ Stage.Start }
        requires short { length line.now ≤ 120 }
        ensures stage { let old = state_of self.old.mixed self.old.heading self.old.stage self.old.edits self.old.replay.edit in
            Becomes number old (MayCome old line.now) (Takes old line.now) (state_of self.old.mixed self.new.heading result self.new.edits self.new.replay.edit) }
        ensures mixed { self.new.mixed ≡ self.old.mixed }
        ensures whole { self.new.whole ≡ self.old.whole }
    {
        match read_first(self.mixed, line, &mut self.text) {
            Some(heading) => {
                self.heading = heading;
                Stage::Edits
            }
            None => Stage::Bad(number),
        }
    }

    // The stage after a line that comes after an answer.
    fn behind_answer(&mut self, number: u32, line: &[u8]) -> Stage
        requires stage { self.old.stage ≡ Stage.AnswersFollow }
        requires short { length line.now ≤ 120 }
        ensures stage { let old = state_of self.old.mixed self.old.heading self.old.stage self.old.edits self.old.replay.edit in
            Becomes number old (MayCome old line.now) (Takes old line.now) (state_of self.old.mixed self.new.heading result self.new.edits self.new.replay.edit) }
        ensures mixed { self.new.mixed ≡ self.old.mixed }
        ensures whole { self.new.whole ≡ self.old.whole }
    {
        if self.mixed {
            return self.edit_or_later(number, line);
        }
        self.answer_or_last(number, line)
    }

    // The stage after a line that may be that of an update.
    fn edit_or_later(&mut self, number: u32, line: &[u8]) -> Stage
        requires { MayEdit self.old.mixed self.old.stage }
        ensures stage { let old = state_of self.old.mixed self.old.heading self.old.stage self.old.edits self.old.replay.edit in
            Becomes number old (HasEditForm line.now ⊎ HasLaterForm old line.now) (λ new. TakesEdit old line.now new ⊎ TakesLater old line.now new)
            (state_of self.old.mixed self.new.heading result self.new.edits self.new.replay.edit) }
        ensures mixed { self.new.mixed ≡ self.old.mixed }
        ensures whole { self.new.whole ≡ self.old.whole }
    {
        match read_edit(line, &mut self.text) {
            Some(edit) => self.take_edit(number, edit),
            None => self.answer_or_last(number, line),
        }
    }

    // Makes an update, if that is possible.
    fn take_edit(&mut self, number: u32, edit: Edit) -> Stage
        ensures edit { EditBecomes number (elements_of self.old.heading) self.old.edits.journal edit result self.new.edits.journal }
        ensures replay { self.new.replay ≡ self.old.replay }
        ensures heading { self.new.heading ≡ self.old.heading }
        ensures mixed { self.new.mixed ≡ self.old.mixed }
        ensures whole { self.new.whole ≡ self.old.whole }
    {
        if self.edits.edit() < elements_of(self.heading) && !is_push(&edit) {
            return Stage::No(number);
        }
        if self.edits.verdict(&edit).is_some() {
            return Stage::No(number);
        }
        match self.edits.apply(edit) {
            Ok(_) => Stage::Edits,
            Err(_) => Stage::NoMemory,
        }
    }

    // The stage after a line that is not that of an update.
    fn answer_or_last(&mut self, number: u32, line: &[u8]) -> Stage
        requires { MayEnd self.old.stage }
        ensures stage { let old = state_of self.old.mixed self.old.heading self.old.stage self.old.edits self.old.replay.edit in
            Becomes number old (HasLaterForm old line.now) (TakesLater old line.now) (state_of self.old.mixed self.new.heading result self.new.edits self.new.replay.edit) }
        ensures mixed { self.new.mixed ≡ self.old.mixed }
        ensures whole { self.new.whole ≡ self.old.whole }
    {
        if is_last(self.heading, line) {
            return Stage::End;
        }
        match read_answer(line, &mut self.text) {
            Some((question, value)) => self.take_answer(number, question, value),
            None => Stage::Bad(number),
        }
    }

    // Asks an answer's question anew, and compares.
    fn take_answer(&mut self, number: u32, question: Question, value: &[u8]) -> Stage
        ensures answer { AnswerLineBecomes number (elements_of self.old.heading) self.old.edits.journal self.old.replay.edit question value.now result self.new.replay.edit }
        ensures edits { self.new.edits ≡ self.old.edits }
        ensures heading { self.new.heading ≡ self.old.heading }
        ensures mixed { self.new.mixed ≡ self.old.mixed }
        ensures whole { self.new.whole ≡ self.old.whole }
    {
        if question.edit < self.replay.edit {
            return Stage::Bad(number);
        }
        if self.edits.edit() < elements_of(self.heading) || self.edits.edit() < question.edit {
            return Stage::No(number);
        }
        if self
            .replay
            .bring_up(self.edits.journal(), question.edit)
            .is_err()
        {
            return Stage::NoMemory;
        }
        self.judge(number, question, value)
    }

    // The stage after an answer, given the list at its version.
    fn judge(&mut self, number: u32, question: Question, value: &[u8]) -> Stage
        ensures answer { AnswerBecomes number self.old.replay.list.items question value.now result }
        ensures edits { self.new.edits ≡ self.old.edits }
        ensures reached { self.new.replay.edit ≡ self.old.replay.edit }
        ensures heading { self.new.heading ≡ self.old.heading }
        ensures mixed { self.new.mixed ≡ self.old.mixed }
        ensures whole { self.new.whole ≡ self.old.whole }
    {
        let (lo, hi) = (question.lo as usize, question.hi as usize);
        if lo > hi || hi > self.replay.list.len() {
            return Stage::No(number);
        }
        let Ok(shown) = self.replay.value(question.kind, lo, hi) else {
            return Stage::NoMemory;
        };
        if is_text_of(shown, value, &mut self.text) {
            return Stage::AnswersFollow;
        }
        Stage::No(number)
    }
}

// The first line of a text, as it is read: its heading, if it is that of a log. A whole transcript is no log.
fn read_first(mixed: bool, line: &[u8], text: &mut Vec<u8>) -> Option<Option<LogHeading>>
    requires { LINE ≤ vec_capacity text.old }
    ensures first { MatchOption result (IsFirst mixed line.now → ⊥) (λ heading. MayBegin mixed heading × (line.now ≡ heading_line heading)) }
    ensures room { LINE ≤ vec_capacity text.new }
{
    if line == b"livevec 1".as_slice() {
        return Some(None);
    }
    if !mixed {
        return None;
    }
    let heading = read_heading(line, text)?;
    Some(Some(heading))
}

// How many bytes the lines have after one that led to a stage. That line and its LF count if others may follow.
fn bytes_behind(stage: Stage, whole: u64, line: &[u8]) -> u64
    ensures { CountsBytes stage whole line.now result }
{
    match stage {
        Stage::Edits | Stage::AnswersFollow => {
            whole.saturating_add(line.len() as u64).saturating_add(1)
        }
        _ => whole,
    }
}

/// How many of the first updates represent elements.
pub(crate) fn elements_of(heading: Option<LogHeading>) -> u32
    ensures { result ≡ elements_of heading }
{
    match heading {
        Some(heading) => heading.elements,
        None => 0,
    }
}

// Whether an edit is a push.
fn is_push(edit: &Edit) -> bool
    ensures { IsTrue result ↔ IsPush (inl edit.now) }
{
    matches!(edit, Edit::Push(_))
}

// Whether a line is the last one of a transcript. A log has none.
fn is_last(heading: Option<LogHeading>, line: &[u8]) -> bool
    ensures { IsTrue result ↔ IsLast heading line.now }
{
    heading.is_none() && line == b"end".as_slice()
}

// Whether bytes are the text of a value. It is put into `text`, in place of what is there.
fn is_text_of(shown: Shown, value: &[u8], text: &mut Vec<u8>) -> bool
    requires { LINE ≤ vec_capacity text.old }
    ensures answer { IsTrue result ↔ (value.now ≡ shown_text shown) }
    ensures room { LINE ≤ vec_capacity text.new }
{
    text.clear();
    put_shown(text, shown);
    text.as_slice() == value
}
