//! How whole transcripts are written.
ghost use Rattle.std.specs.Prelude.{◌≡◌, All, OnOk, IfErr};
ghost use Rattle.lv_edits.specs.Kept.{CarriesElement};
ghost use Rattle.lv_transcript.specs.Joined.{in_a_row, joined};
ghost use Rattle.lv_transcript.specs.Transcribing.{IsUnused};
ghost use Rattle.lv_transcript.specs.Transcript.{transcript_text, greatest, AreAccepted, AreInOrder, IsTrueAnswer, IsSoundTranscript, Transcribes};

use crate::claimed::Claimed;
use crate::queues::Queue;
use crate::transcript_writer::TranscriptWriter;
use lv_edits::Edit;
use lv_lines::Fault;
use std::alloc::Global;
use std::io::Write;

/// Writes the transcript of an operation log and of answers of it, and flushes the writer. The answers are in the rising order of their
/// versions.
///
/// If a vector of the greatest limits accepts the updates, and each answer is true, the transcript is sound: an audit of it answers yes.
/// Memory is fixed, and is taken before anything is written; if there is none, the fault is `NoMemory`. A failed write, and one that takes
/// no byte, is `WriteFault`.
pub fn write_transcript<W: Write>(
    alloc: Global,
    edits: &[Edit],
    answers: &[Claimed],
    writer: &mut W,
) -> Result<(), Fault>
    requires { AreInOrder answers.now }
    ensures text { Transcribes (W.contents writer.old) (W.contents writer.new) (transcript_text edits.now answers.now) result }
    ensures sound { AreAccepted greatest edits.now → All (IsTrueAnswer edits.now) answers.now
        → OnOk result (IsSoundTranscript (transcript_text edits.now answers.now)) }
{
    match TranscriptWriter::new(alloc) {
        Ok(transcript) => write_by(transcript, edits, answers, writer),
        Err(_) => Err(Fault::NoMemory),
    }
}

// Writes a transcript by a writer that was given nothing yet.
fn write_by<W: Write>(
    transcript: TranscriptWriter,
    edits: &[Edit],
    answers: &[Claimed],
    writer: &mut W,
) -> Result<(), Fault>
    requires { IsUnused transcript }
    ensures text { Transcribes (W.contents writer.old) (W.contents writer.new) (transcript_text edits.now answers.now) result }
    ensures elements { OnOk result (All CarriesElement edits.now) }
{
    let mut transcript = transcript;
    transcript.edits(edits, writer);
    transcript.answers(answers, writer);
    transcript.end(writer)
}

/// Writes the transcript of an operation log and of answers of it in several queues, and flushes the writer. The answers are written in the
/// order of their versions, and those at one version in the order of the queues.
///
/// It is as sound as one that `write_transcript` writes. No memory is taken: lines are written by a transcript writer that was made for
/// it, and that was given nothing yet. The fault is `WriteFault`, if a write fails or takes no byte.
pub fn write_joined_transcript<W: Write>(
    transcript: TranscriptWriter,
    edits: &[Edit],
    queues: &mut Vec<Queue>,
    writer: &mut W,
) -> Result<(), Fault>
    requires { IsUnused transcript }
    ensures text { Transcribes (W.contents writer.old) (W.contents writer.new) (transcript_text edits.now (joined queues.old.items)) result }
    ensures sound { AreAccepted greatest edits.now → All (IsTrueAnswer edits.now) (in_a_row queues.old.items)
        → OnOk result (IsSoundTranscript (transcript_text edits.now (joined queues.old.items))) }
    ensures fault { IfErr result (λ fault. fault ≡ Fault.WriteFault) }
{
    let mut transcript = transcript;
    transcript.edits(edits, writer);
    transcript.queues(queues, writer);
    transcript.end(writer)
}
