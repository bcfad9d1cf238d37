//! A writer of the lines of a transcript, entry by entry, as they come.
ghost use Rattle.std.specs.Prelude.{◌≡◌, ◌≤◌, ℕ, true, false, [], ◌∷◌, ◌++◌, All, IfErr, IfOk, List, None, OnOk, Option, Some, map, vec_capacity};
ghost use Rattle.std.proofs.Common.{inl, inr};
ghost use Rattle.lv_edits.specs.Kept.{CarriesElement};
ghost use Rattle.std.specs.Io.KnownBytes.{Appends};
ghost use Rattle.lv_lines.specs.declared.output.TheConstants.{HELD};
ghost use Rattle.lv_lines.specs.Output.{Puts, PutsFront, SamePlaces, Writes, WritesFront};
ghost use Rattle.lv_transcript.specs.Fronts.{Entry};
ghost use Rattle.lv_geometry.specs.Elements.{IsElement};
ghost use Rattle.lv_transcript.specs.Joined.{joined};
ghost use Rattle.lv_transcript.specs.Logs.{pushed, pushes_of_elements};
ghost use Rattle.lv_transcript.specs.Transcribing.{Adds, EndsWhole, GoesOn, IsUnused, IsUnusedOf, WasGiven, state_with};
ghost use Rattle.lv_transcript.specs.Transcript.{IsHeading, answer_line, edit_line, end_line};

use crate::claimed::Claimed;
use crate::log_heading::LogHeading;
use crate::queues::{Queue, take_least};
use crate::transcript_lines::{put_edit_line, put_heading, put_question};
use lv_edits::Edit;
use lv_lines::{Fault, HELD, LINE, ReplyBuffer, put, put_shown};
use std::alloc::{AllocError, Global};
use std::io::Write;
use std::marker::Model;

/// Writes a transcript, or a prefix of one. It is given updates and answers, and writes their lines, whole and in order, through a buffer of fixed
/// size. Each call is lent the writer, which must be the same each time. After a write that fails it writes nothing more.
#[derive(Drop)]
pub struct TranscriptWriter {
    held: Vec<u8>,
    failed: bool,
}

impl Model for TranscriptWriter {
    ghost use Rattle.std.specs.Prelude.{◌≤◌, vec_capacity};
    ghost use Rattle.lv_lines.specs.declared.output.TheConstants.{HELD};
    ghost use Rattle.lv_transcript.specs.Transcribing.{WriterState};

    ghost Value = { WriterState };

    ghost view = { λ s. record { held = s.held.items; failed = s.failed } };

    ghost invariant = { λ s. HELD ≤ vec_capacity s.held };
}

impl TranscriptWriter {
    /// One that was given nothing yet. All memory that it needs is taken here.
    pub fn new(alloc: Global) -> Result<TranscriptWriter, AllocError>
        ensures { IfOk result IsUnused }
    {
        let mut held = Vec::with_capacity(alloc, HELD)?;
        put(&mut held, b"livevec 1\n");
        Ok(TranscriptWriter {
            held,
            failed: false,
        })
    }

    /// One that begins a log with this heading, and was given nothing yet. All memory that it needs is taken here.
    pub fn of_log(alloc: Global, heading: LogHeading) -> Result<TranscriptWriter, AllocError>
        ensures unused { IfOk result (IsUnusedOf (Some heading) None) }
        ensures numbers { IfOk result (λ log. IsHeading heading) }
    {
        let mut held = Vec::with_capacity(alloc, HELD)?;
        put_heading(&mut held, heading);
        put(&mut held, b"\n");
        Ok(TranscriptWriter {
            held,
            failed: false,
        })
    }

    /// A writer that continues after the whole lines of a prefix that are there already. It holds nothing, and all memory that it needs is taken
    /// here.
    pub fn behind(alloc: Global) -> Result<TranscriptWriter, AllocError>
        ensures { IfOk result GoesOn }
    {
        Ok(TranscriptWriter {
            held: Vec::with_capacity(alloc, HELD)?,
            failed: false,
        })
    }

    /// Takes an edit. What is held is written first if there is no room for its line.
    pub fn edit<W: Write>(&mut self, edit: &Edit, writer: &mut W)
        ensures added { Adds (state_with (W.contents writer.old) self.old) (inl edit.now ∷ []) (state_with (W.contents writer.new) self.new) }
        ensures stays { self.old.failed ≡ true → (self.new ≡ self.old) × (W.contents writer.new ≡ W.contents writer.old) }
        ensures element { CarriesElement edit.now }
    {
        tell_element(*edit);
        if self.failed {
            return;
        }
        match edit_by(*edit, &mut self.held, writer) {
            Ok(()) => {}
            Err(_) => self.failed = true,
        }
    }

    /// Takes an answer, likewise.
    pub fn answer<W: Write>(&mut self, answer: &Claimed, writer: &mut W)
        ensures added { Adds (state_with (W.contents writer.old) self.old) (inr answer.now ∷ []) (state_with (W.contents writer.new) self.new) }
        ensures stays { self.old.failed ≡ true → (self.new ≡ self.old) × (W.contents writer.new ≡ W.contents writer.old) }
    {
        if self.failed {
            return;
        }
        match answer_by(*answer, &mut self.held, writer) {
            Ok(()) => {}
            Err(_) => self.failed = true,
        }
    }

    /// Takes edits, one after the other.
    pub fn edits<W: Write>(&mut self, edits: &[Edit], writer: &mut W)
        ensures added { Adds (state_with (W.contents writer.old) self.old) (map inl edits.now) (state_with (W.contents writer.new) self.new) }
        ensures elements { All CarriesElement edits.now }
    {
        for edit in edits {
            self.edit(edit, writer);
        }
    }

    /// Takes elements, each as the push of it.
    pub fn pushes<W: Write>(&mut self, elements: &[i64], writer: &mut W)
        ensures added { Adds (state_with (W.contents writer.old) self.old) (pushes_of_elements elements.now) (state_with (W.contents writer.new) self.new) }
        ensures elements { All IsElement elements.now }
    {
        for element in elements {
            self.push(*element, writer);
        }
    }

    // Takes an element.
    fn push<W: Write>(&mut self, element: i64, writer: &mut W)
        ensures added { Adds (state_with (W.contents writer.old) self.old) (pushed element ∷ []) (state_with (W.contents writer.new) self.new) }
        ensures element { IsElement element }
    {
        self.edit(&Edit::Push(element), writer);
    }

    /// Takes answers, one after the other.
    pub fn answers<W: Write>(&mut self, answers: &[Claimed], writer: &mut W)
        ensures { Adds (state_with (W.contents writer.old) self.old) (map inr answers.now) (state_with (W.contents writer.new) self.new) }
    {
        for answer in answers {
            self.answer(answer, writer);
        }
    }

    /// Takes the answers of several queues, in the order of their edits. Those at one edit come in the order of the queues.
    pub fn queues<W: Write>(&mut self, queues: &mut Vec<Queue>, writer: &mut W)
        ensures { Adds (state_with (W.contents writer.old) self.old) (map inr (joined queues.old.items)) (state_with (W.contents writer.new) self.new) }
    {
        while let Some(answer) = take_least(queues) {
            self.answer(&answer, writer);
        }
    }

    /// Writes all that is held, and flushes the writer.
    pub fn flush<W: Write>(&mut self, writer: &mut W)
        ensures rests { Adds (state_with (W.contents writer.old) self.old) [] (state_with (W.contents writer.new) self.new) }
        ensures stays { self.old.failed ≡ true → (self.new ≡ self.old) × (W.contents writer.new ≡ W.contents writer.old) }
        ensures sent { self.new.failed ≡ false → self.new.held ≡ [] }
    {
        if self.failed || self.held.is_empty() {
            return;
        }
        match send_by(&mut self.held, writer) {
            Ok(()) => {}
            Err(_) => self.failed = true,
        }
    }

    /// Whether a write has failed.
    pub fn has_failed(&self) -> bool
        ensures { result ≡ self.now.failed }
    {
        self.failed
    }

    /// Writes the last line after all that was given, and flushes the writer. The fault is `WriteFault`, if a write fails or has
    /// failed.
    pub fn end<W: Write>(self, writer: &mut W) -> Result<(), Fault>
        ensures ends { (start : Option (List ℕ)) (entries : List Entry) → WasGiven start entries (state_with (W.contents writer.old) self) → EndsWhole start (W.contents writer.new) entries result }
        ensures fault { IfErr result (λ fault. fault ≡ Fault.WriteFault) }
    {
        let mut transcript = self;
        transcript.write_last(writer)
    }

    // Writes the last line after all that was given.
    fn write_last<W: Write>(&mut self, writer: &mut W) -> Result<(), Fault>
        ensures ends { (start : Option (List ℕ)) (entries : List Entry) → WasGiven start entries (state_with (W.contents writer.old) self.old) → EndsWhole start (W.contents writer.new) entries result }
        ensures fault { IfErr result (λ fault. fault ≡ Fault.WriteFault) }
    {
        if self.failed {
            return Err(Fault::WriteFault);
        }
        end_by(&mut self.held, writer)
    }
}

// The element of an edit is a number of 64 bits.
fn tell_element(edit: Edit)
    ensures { CarriesElement edit }
{
    match edit {
        Edit::Push(_) => {}
        Edit::Pop => {}
        Edit::Write { .. } => {}
        Edit::Reserve(_) => {}
        Edit::Swap { .. } => {}
        Edit::Truncate(_) => {}
    }
}

// Writes the line of an update after what is held, with a buffer and a writer.
fn edit_by<W: Write>(edit: Edit, held: &mut Vec<u8>, writer: &mut W) -> Result<(), Fault>
    requires { HELD ≤ vec_capacity held.old }
    ensures room { HELD ≤ vec_capacity held.new }
    ensures ok { OnOk result (Writes (W.contents writer.old) held.old.items (W.contents writer.new) held.new.items (edit_line edit ++ 10 ∷ [])) }
    ensures fault { IfErr result (λ fault. (fault ≡ Fault.WriteFault)
        × WritesFront (W.contents writer.old) held.old.items (W.contents writer.new) ([])) }
{
    let mut buffer = ReplyBuffer { writer, held };
    write_edit(edit, &mut buffer)
}

// Writes the line of an answer after what is held, with a buffer and a writer.
fn answer_by<W: Write>(answer: Claimed, held: &mut Vec<u8>, writer: &mut W) -> Result<(), Fault>
    requires { HELD ≤ vec_capacity held.old }
    ensures room { HELD ≤ vec_capacity held.new }
    ensures ok { OnOk result (Writes (W.contents writer.old) held.old.items (W.contents writer.new) held.new.items (answer_line answer ++ 10 ∷ [])) }
    ensures fault { IfErr result (λ fault. (fault ≡ Fault.WriteFault)
        × WritesFront (W.contents writer.old) held.old.items (W.contents writer.new) ([])) }
{
    let mut buffer = ReplyBuffer { writer, held };
    write_answer(answer, &mut buffer)
}

// Writes the last line after what is held, and all that is held then, with a buffer and a writer.
fn end_by<W: Write>(held: &mut Vec<u8>, writer: &mut W) -> Result<(), Fault>
    requires { HELD ≤ vec_capacity held.old }
    ensures room { HELD ≤ vec_capacity held.new }
    ensures ok { OnOk result ((held.new.items ≡ []) × Writes (W.contents writer.old) held.old.items (W.contents writer.new) held.new.items (end_line ++ 10 ∷ [])) }
    ensures fault { IfErr result (λ fault. (fault ≡ Fault.WriteFault)
        × WritesFront (W.contents writer.old) held.old.items (W.contents writer.new) (end_line ++ 10 ∷ [])) }
{
    let mut buffer = ReplyBuffer { writer, held };
    write_end(&mut buffer)
}

// Writes all that is held, by a buffer and a writer.
fn send_by<W: Write>(held: &mut Vec<u8>, writer: &mut W) -> Result<(), Fault>
    requires { HELD ≤ vec_capacity held.old }
    ensures room { HELD ≤ vec_capacity held.new }
    ensures ok { OnOk result ((held.new.items ≡ [])
        × Appends (W.contents writer.old) (W.contents writer.new) held.old.items) }
    ensures fault { IfErr result (λ fault. (fault ≡ Fault.WriteFault)
        × WritesFront (W.contents writer.old) held.old.items (W.contents writer.new) []) }
{
    let mut buffer = ReplyBuffer { writer, held };
    buffer.send()
}

// Writes the line of an update after what is held.
fn write_edit<W: Write>(edit: Edit, buffer: &mut ReplyBuffer<'_, W>) -> Result<(), Fault>
    ensures places { SamePlaces buffer.old buffer.new }
    ensures ok { OnOk result (Puts W.contents buffer.old buffer.new (edit_line edit ++ 10 ∷ [])) }
    ensures fault { IfErr result (λ fault. (fault ≡ Fault.WriteFault)
        × PutsFront W.contents buffer.old buffer.new []) }
{
    buffer.make_room(LINE)?;
    put_edit_line(buffer.held, edit);
    put(buffer.held, b"\n");
    Ok(())
}

// Writes the line of an answer after what is held.
fn write_answer<W: Write>(answer: Claimed, buffer: &mut ReplyBuffer<'_, W>) -> Result<(), Fault>
    ensures places { SamePlaces buffer.old buffer.new }
    ensures ok { OnOk result (Puts W.contents buffer.old buffer.new (answer_line answer ++ 10 ∷ [])) }
    ensures fault { IfErr result (λ fault. (fault ≡ Fault.WriteFault)
        × PutsFront W.contents buffer.old buffer.new []) }
{
    buffer.make_room(LINE)?;
    put_question(buffer.held, answer.edit, answer.kind, answer.lo, answer.hi);
    put_shown(buffer.held, answer.value);
    put(buffer.held, b"\n");
    Ok(())
}

// Writes the last line after what is held, and all that is held then.
fn write_end<W: Write>(buffer: &mut ReplyBuffer<'_, W>) -> Result<(), Fault>
    ensures places { SamePlaces buffer.old buffer.new }
    ensures ok { OnOk result ((buffer.new.held.now.items ≡ [])
        × Puts W.contents buffer.old buffer.new (end_line ++ 10 ∷ [])) }
    ensures fault { IfErr result (λ fault. (fault ≡ Fault.WriteFault)
        × PutsFront W.contents buffer.old buffer.new (end_line ++ 10 ∷ [])) }
{
    buffer.make_room(LINE)?;
    put(buffer.held, b"end\n");
    buffer.send()
}
