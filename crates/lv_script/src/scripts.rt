//! Scripts: each line is a command to a vector with standing queries.
ghost use Rattle.std.specs.Prelude.{◌≡◌, ◌≤◌, [], List, ℕ, length, OnOk, IfErr};
ghost use Rattle.std.specs.Io.KnownBytes.{Appends, Consumes, IsAtEnd};
ghost use Rattle.lv_bodies.specs.Six.{six_operations};
ghost use Rattle.lv_edits.specs.Kept.{IsLegalInLimits};
ghost use Rattle.lv_live.specs.Kept.{IsWorld};
ghost use Rattle.lv_lines.specs.Output.{Puts, PutsFront, SamePlaces};
ghost use Rattle.lv_lines.specs.Replies.{LinesServed, FailsToReply, Replies};
ghost use Rattle.lv_script.specs.Interpreter.{IsPlainText, NeverWants, PlainStep};
ghost use Rattle.lv_script.specs.PlainScript.{Plain, start, vector_script};
ghost use Rattle.lv_script.specs.Script.{ScriptState, ScriptStep};
ghost use Rattle.lv_script.specs.Beginnings.{Begins};
ghost use Rattle.lv_script.specs.Scripted.{Bounded, BoundedStep, state_of};

use crate::answers::answer;
use crate::watch_replies::ROOM;
use lv_bodies::Six;
use lv_geometry::Limits;
use lv_lines::{Fault, LineHandler, MOST_READ, ReplyBuffer, command_of, read_line, serve_lines};
use lv_live::Issued;
use lv_standing::{Note, Standing};
use std::alloc::Global;
use std::io::{Read, Write};
use std::marker::Model;

/// Answers a script: reads its lines, and writes the reply to each, until the reader ends.
///
/// The fault is `NoMemory` if there was no memory to begin with; nothing is read or written then. It is `ReadFault` if a read fails, and
/// `TooLong` if the input has more than 2^30 bytes; then the replies to all whole lines that were read are written. It is `WriteFault` if a
/// write fails or takes no byte; then a prefix of the replies was written.
pub fn run_script<R: Read, W: Write>(
    alloc: Global,
    limits: Limits,
    reader: &mut R,
    writer: &mut W,
) -> Result<(), Fault>
    ensures seen { (first : ScriptState) × (last : ScriptState) × Begins limits first × LinesServed ScriptStep first last
        (R.remaining reader.old) (R.remaining reader.new) (W.contents writer.old) (W.contents writer.new) result }
    // Line by line the replies are those of the reference interpreter, which knows only updates and registered queries.
    ensures plain { (last : Plain) × LinesServed (PlainStep vector_script) (start limits) last
        (R.remaining reader.old) (R.remaining reader.new) (W.contents writer.old) (W.contents writer.new) result }
    // If the input was read to its end, all that was written is the reference interpreter's text, unless a line reports `NoMemory` (out of memory).
    ensures text { OnOk result ((input : List ℕ) × (text : List ℕ) × Consumes (R.remaining reader.old) (R.remaining reader.new) input × IsAtEnd (R.remaining reader.new)
        × Appends (W.contents writer.old) (W.contents writer.new) text × (NeverWants text → IsPlainText vector_script (start limits) input text)) }
{
    run_script_within(alloc, limits, usize::MAX, reader, writer)
}

/// Answers a script as `run_script` does, in which at most `jobs` tasks are claimed: a further claim fails with `NoMemory` and changes
/// nothing. Tasks that were claimed can be delivered at any time.
pub fn run_script_within<R: Read, W: Write>(
    alloc: Global,
    limits: Limits,
    jobs: usize,
    reader: &mut R,
    writer: &mut W,
) -> Result<(), Fault>
    ensures seen { (first : ScriptState) × (last : ScriptState) × Begins limits first × (length last.seen.issued ≤ jobs) × LinesServed ScriptStep first last
        (R.remaining reader.old) (R.remaining reader.new) (W.contents writer.old) (W.contents writer.new) result }
    ensures plain { (last : Plain) × LinesServed (PlainStep vector_script) (start limits) last
        (R.remaining reader.old) (R.remaining reader.new) (W.contents writer.old) (W.contents writer.new) result }
    ensures text { OnOk result ((input : List ℕ) × (text : List ℕ) × Consumes (R.remaining reader.old) (R.remaining reader.new) input × IsAtEnd (R.remaining reader.new)
        × Appends (W.contents writer.old) (W.contents writer.new) text × (NeverWants text → IsPlainText vector_script (start limits) input text)) }
{
    answer_script(alloc, Standing::new(alloc, limits), jobs, reader, writer)
}

// Answers a script on a vector with standing queries. None of its tasks has been claimed, and at most `jobs` may be.
pub(crate) fn answer_script<R: Read, W: Write>(
    alloc: Global,
    standing: Standing,
    jobs: usize,
    reader: &mut R,
    writer: &mut W,
) -> Result<(), Fault>
    requires { IsLegalInLimits standing.live.history }
    ensures { (last : ScriptState) × (length last.seen.issued ≤ jobs) × LinesServed ScriptStep (state_of standing []) last
        (R.remaining reader.old) (R.remaining reader.new) (W.contents writer.old) (W.contents writer.new) result }
{
    let mut script = Script {
        standing,
        issued: Issued::at_most(alloc, jobs),
        notes: Vec::new(alloc),
    };
    let ended = serve_lines(MOST_READ, alloc, &mut script, reader, writer);
    drop(script);
    ended
}

// The handler of a script's lines.
#[derive(Drop)]
struct Script {
    standing: Standing,
    issued: Issued<Six>,
    // room for the notes of an edit, which serves from one to the next
    notes: Vec<Note>,
}

impl Model for Script {
    ghost use Rattle.lv_bodies.specs.Six.{six_operations};
    ghost use Rattle.lv_live.specs.Kept.{IsWorld};
    ghost use Rattle.lv_script.specs.Scripted.{Scripted};

    ghost Value = { Scripted };

    ghost view = { λ a. record { standing = a.standing; jobs = a.issued.jobs; most = a.issued.most } };

    ghost invariant = { λ a. IsWorld six_operations a.standing.live a.issued.jobs };
}

impl<W: Write> LineHandler<W> for Script {
    ghost State = { Bounded };

    ghost state = { λ s. record { script = state_of s.standing s.jobs; most = s.most } };

    ghost step = { BoundedStep };

    ghost may_send = { λ _. Unit {0} };

    fn handle(
        &mut self,
        number: u32,
        line: &[u8],
        buffer: &mut ReplyBuffer<'_, W>,
    ) -> Result<(), Fault> {
        buffer.make_room(ROOM)?;
        match command_of(number, read_line(line), buffer.held) {
            Some(command) => {
                let Script {
                    standing,
                    issued,
                    notes,
                } = self;
                answer(standing, notes, issued, command, buffer)
            }
            None => Ok(()),
        }
    }

    fn before_send(&self) -> Result<(), Fault> {
        Ok(())
    }
}
