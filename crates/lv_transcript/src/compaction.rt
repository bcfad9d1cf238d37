//! How the elements that there are after a prefix's updates become a log of their own.
ghost use Rattle.std.specs.Prelude.{◌≡◌, ◌≤◌, ◌^◌, IfOk, OnOk, Some, length};
ghost use Rattle.lv_edits.specs.History.{list_of};
ghost use Rattle.lv_edits.specs.Kept.{IsLegalInLimits};
ghost use Rattle.lv_transcript.specs.Fronts.{IsWholeFront};
ghost use Rattle.lv_transcript.specs.Logs.{GoesOnFrom, base_of, compacted, log_text, number_of, pushes_of_elements};
ghost use Rattle.lv_transcript.specs.Transcript.{Transcribes};

use crate::fronts::FoundFront;
use crate::log_heading::LogHeading;
use crate::logs::write_log;
use crate::plain_ranges::Replay;
use lv_edits::Edits;
use lv_lines::Fault;
use std::alloc::{AllocError, Global};
use std::io::Write;

/// Writes a log of exactly the elements that there are after all updates that were found, and flushes the writer. Its heading is that of
/// `compacted_heading`. It is therefore a sound log, which continues like the old one: with the same list, and with the same number for the next
/// update.
///
/// O(n) for n updates, and memory for the elements. If there is none, the fault is `NoMemory`, and nothing was written. A failed write, and one that
/// takes no byte, is `WriteFault`.
pub fn compact_log<W: Write>(alloc: Global, found: &FoundFront, writer: &mut W) -> Result<(), Fault>
    requires numbers { base_of found.now.heading ≤ 2 ^ 62 }
    ensures text { Transcribes (W.contents writer.old) (W.contents writer.new) (log_text (compacted found.now.heading found.now.edits.journal) (list_of found.now.edits.journal)) result }
    ensures sound { OnOk result (IsWholeFront (Some (compacted found.now.heading found.now.edits.journal)) (log_text (compacted found.now.heading found.now.edits.journal) (list_of found.now.edits.journal)) (pushes_of_elements (list_of found.now.edits.journal))) }
    ensures goes_on { GoesOnFrom found.now.heading found.now.edits.journal (compacted found.now.heading found.now.edits.journal) (pushes_of_elements (list_of found.now.edits.journal)) }
{
    let heading = compacted_heading(found.heading, &found.edits);
    match copy_elements(alloc, &found.edits) {
        Ok(elements) => write_log(alloc, heading, elements.as_slice(), writer),
        Err(_) => Err(Fault::NoMemory),
    }
}

/// The heading of the log that comes after the updates of a prefix, or of a log with this heading. It has the elements that there are after them, and
/// its base is the number of the last of them.
pub fn compacted_heading(heading: Option<LogHeading>, edits: &Edits) -> LogHeading
    requires numbers { base_of heading ≤ 2 ^ 62 }
    ensures heading { result ≡ compacted heading edits.now.journal }
    ensures limits { IsLegalInLimits edits.now }
{
    LogHeading {
        base: next_base(heading, edits.edit()),
        elements: edits.size(),
    }
}

// How many updates come before a log that continues after so many updates. Those that represent elements do not count.
fn next_base(heading: Option<LogHeading>, edits: u32) -> u64
    requires numbers { base_of heading ≤ 2 ^ 62 }
    ensures { result ≡ number_of heading edits }
{
    match heading {
        Some(heading) => heading.base + u64::from(edits.saturating_sub(heading.elements)),
        None => edits.into(),
    }
}

// The elements that there are after all edits, in order.
fn copy_elements(alloc: Global, edits: &Edits) -> Result<Vec<i64>, AllocError>
    ensures { IfOk result (λ elements. elements.items ≡ list_of edits.now.journal) }
{
    let mut replay = Replay::new(alloc);
    replay.bring_up(edits.journal(), edits.edit())?;
    let Replay { list, .. } = replay;
    Ok(list)
}
