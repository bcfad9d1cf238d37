//! Scripts that continue from the updates of a prefix (*front*) of a transcript.
ghost use Rattle.std.specs.Prelude.{◌≡◌, ℕ, ◌++◌, List, Option, None, Ok, IfErr, OnOk};
ghost use Rattle.lv_edits.specs.Kept.{IsLegalInLimits};
ghost use Rattle.lv_edits.specs.History.{with_edit};
ghost use Rattle.lv_edits.specs.Verdict.{verdict_of};
ghost use Rattle.lv_live.specs.State.{SameRefresh};
ghost use Rattle.lv_transcript.specs.Audits.{ReadingEnds};
ghost use Rattle.lv_transcript.specs.Seals.{text_of};
ghost use Rattle.lv_transcript.specs.Transcript.{AreAccepted, AreAcceptedAfter, greatest};
ghost use Rattle.lv_script.specs.Restored.{AnswersAfter, RestoreEnds, Restored};

use crate::scripts::answer_script;
use lv_edits::{Edit, Edits};
use lv_geometry::{Limits, Refusal};
use lv_lines::{Fault, MOST_NUMBERED};
use lv_standing::Standing;
use lv_transcript::{FoundFront, FrontVerdict, read_front};
use std::alloc::Global;
use std::io::{Read, Write};

/// The reason that a script was not answered to its end after a prefix (*front*) of a transcript.
#[derive(Clone, Copy, PartialEq, Eq)]
pub enum Unrestored {
    /// The prefix could not be read, and nothing was answered.
    Front(Fault),
    /// The script ended with this fault.
    Script(Fault),
}

/// Makes the updates of a prefix (*front*) of a transcript, or of a log, again, and then answers a script as `run_script` does, starting from
/// these updates. If the bytes are not such a prefix, as the verdict says, nothing of the script is read, and nothing is answered.
pub fn restore_script<F: Read + Drop, R: Read, W: Write>(
    alloc: Global,
    front: F,
    reader: &mut R,
    writer: &mut W,
) -> Result<FrontVerdict, Unrestored>
    ensures { Restored (text_of (F.remaining front)) (R.remaining reader.old) (R.remaining reader.new) (W.contents writer.old) (W.contents writer.new) result }
{
    match read_front(alloc, MOST_NUMBERED, front) {
        Ok(found) => resume_found(alloc, found, reader, writer),
        Err(fault) => Err(Unrestored::Front(fault)),
    }
}

/// Answers a script as `run_script` does, on a vector that begins with these updates. They are made before anything is read. If there is no
/// memory for them, the fault is `NoMemory`.
pub fn resume_script<R: Read, W: Write>(
    alloc: Global,
    limits: Limits,
    edits: &[Edit],
    reader: &mut R,
    writer: &mut W,
) -> Result<(), Fault>
    requires { AreAccepted limits edits.now }
    ensures { AnswersAfter limits edits.now (R.remaining reader.old) (R.remaining reader.new) (W.contents writer.old) (W.contents writer.new) result }
{
    let mut standing = Standing::new(alloc, limits);
    match make_all(alloc, &mut standing, edits) {
        Ok(()) => answer_script(alloc, standing, usize::MAX, reader, writer),
        Err(_) => {
            drop(standing);
            Err(Fault::NoMemory)
        }
    }
}

// Makes updates that are accepted one after the other. The only error is `NoMemory`.
fn make_all(alloc: Global, standing: &mut Standing, edits: &[Edit]) -> Result<(), Refusal>
    requires accepted { AreAcceptedAfter standing.old.live.history.limits standing.old.live.history.journal edits.now }
    requires limits { IsLegalInLimits standing.old.live.history }
    ensures edits { OnOk result (standing.new.live.history ≡ record standing.old.live.history { journal = standing.old.live.history.journal ++ edits.now }) }
    ensures memory { IfErr result (λ refusal. refusal ≡ Refusal.NoMemory) }
    ensures refresh { SameRefresh standing.old.live standing.new.live }
    ensures queries { standing.new.queries ≡ standing.old.queries }
    ensures limits { IsLegalInLimits standing.new.live.history }
{
    for edit in edits {
        make(alloc, standing, *edit)?;
    }
    Ok(())
}

// Makes an update that is accepted. The only error is `NoMemory`. No query reports it.
fn make(alloc: Global, standing: &mut Standing, edit: Edit) -> Result<(), Refusal>
    requires accepted { verdict_of standing.old.live.history.limits standing.old.live.history.journal edit ≡ None }
    ensures edits { OnOk result (standing.new.live.history ≡ with_edit standing.old.live.history edit) }
    ensures memory { IfErr result (λ refusal. refusal ≡ Refusal.NoMemory) }
    ensures refresh { SameRefresh standing.old.live standing.new.live }
    ensures queries { standing.new.queries ≡ standing.old.queries }
    ensures limits { IsLegalInLimits standing.new.live.history }
{
    match standing.edit(alloc, edit) {
        Ok(_) => Ok(()),
        Err(refusal) => Err(refusal),
    }
}

// Answers a script, starting from the updates that were found, if they are those of a prefix.
fn resume_found<R: Read, W: Write>(
    alloc: Global,
    found: FoundFront,
    reader: &mut R,
    writer: &mut W,
) -> Result<FrontVerdict, Unrestored>
    requires { (rest : Option (List ℕ)) × (seen : List ℕ) × ReadingEnds MOST_NUMBERED rest seen (Ok found) }
    ensures { (rest : Option (List ℕ)) (seen : List ℕ) → ReadingEnds MOST_NUMBERED rest seen (Ok found)
        → RestoreEnds rest seen (R.remaining reader.old) (R.remaining reader.new) (W.contents writer.old) (W.contents writer.new) result }
{
    let FoundFront { verdict, edits, .. } = found;
    match verdict {
        FrontVerdict::Front { .. } => match resume_edits(alloc, edits, reader, writer) {
            Ok(()) => Ok(verdict),
            Err(fault) => Err(Unrestored::Script(fault)),
        },
        FrontVerdict::No(_) | FrontVerdict::Bad(_) => {
            drop(edits);
            Ok(verdict)
        }
    }
}

// Answers a script, starting from these updates.
fn resume_edits<R: Read, W: Write>(
    alloc: Global,
    edits: Edits,
    reader: &mut R,
    writer: &mut W,
) -> Result<(), Fault>
    requires { AreAccepted greatest edits.journal }
    ensures { AnswersAfter greatest edits.journal (R.remaining reader.old) (R.remaining reader.new) (W.contents writer.old) (W.contents writer.new) result }
{
    let ended = resume_script(alloc, Limits::greatest(), edits.journal(), reader, writer);
    drop(edits);
    ended
}
