//! How a log of elements is written.
ghost use Rattle.std.specs.Prelude.{◌≡◌, ◌≤◌, ◌<◌, ◌^◌, All, None, OnOk, Some, length};
ghost use Rattle.lv_geometry.specs.Elements.{IsElement};
ghost use Rattle.lv_transcript.specs.Fronts.{IsWholeFront};
ghost use Rattle.lv_transcript.specs.Logs.{log_text, pushes_of_elements};
ghost use Rattle.lv_transcript.specs.Transcribing.{IsUnusedOf};
ghost use Rattle.lv_transcript.specs.Transcript.{Transcribes};

use crate::log_heading::LogHeading;
use crate::transcript_writer::TranscriptWriter;
use lv_lines::Fault;
use std::alloc::Global;
use std::io::Write;

/// How many elements a vector has at most.
pub const MOST_ELEMENTS: usize = 1_048_568;

/// Writes a log of elements, without updates after them, and flushes the writer: its first line, and each element as its push. It is a
/// sound log, which an audit of prefixes accepts.
///
/// Memory is fixed, and is taken before anything is written; if there is none, the fault is `NoMemory`. A failed write, and one that
/// takes no byte, is `WriteFault`.
pub fn write_log<W: Write>(
    alloc: Global,
    heading: LogHeading,
    elements: &[i64],
    writer: &mut W,
) -> Result<(), Fault>
    requires count { heading.elements ≡ length elements.now }
    requires few { length elements.now ≤ MOST_ELEMENTS }
    ensures text { Transcribes (W.contents writer.old) (W.contents writer.new) (log_text heading elements.now) result }
    ensures sound { OnOk result (IsWholeFront (Some heading) (log_text heading elements.now) (pushes_of_elements elements.now)) }
{
    match TranscriptWriter::of_log(alloc, heading) {
        Ok(log) => write_elements(log, heading, elements, writer),
        Err(_) => Err(Fault::NoMemory),
    }
}

// Writes a log by a writer that was given nothing yet.
fn write_elements<W: Write>(
    log: TranscriptWriter,
    heading: LogHeading,
    elements: &[i64],
    writer: &mut W,
) -> Result<(), Fault>
    requires { IsUnusedOf (Some heading) None log }
    ensures text { Transcribes (W.contents writer.old) (W.contents writer.new) (log_text heading elements.now) result }
    ensures elements { OnOk result (All IsElement elements.now) }
{
    let mut log = log;
    log.pushes(elements, writer);
    log.flush(writer);
    if log.has_failed() {
        return Err(Fault::WriteFault);
    }
    Ok(())
}
