//! The transcript of a server: its file, which is written when updates come, and what is written at the close.

ghost use Rattle.std.specs.Prelude.{◌≡◌, ◌⊎◌, ◌<◌, ◌≤◌, All, Err, IfErr, IfOk, IfSome, MatchResult, None, Ok, [], is_some, map, true, vec_capacity, vec_len};
ghost use mathlib.Core.List.{IsPrefix};
ghost use Rattle.lv_transcript.specs.Joined.{in_a_row};
ghost use Rattle.lv_transcript.specs.Transcribing.{IsUnused};
ghost use Rattle.lv_transcript.specs.Transcript.{AreAccepted, IsTrueAnswer, greatest};
ghost use Rattle.lv_hub.specs.Counting.{having_seen};
ghost use Rattle.lv_transcript.specs.Logs.{MayGoOn, edits_there};
ghost use Rattle.lv_hub.specs.Logging.{AreLasting, EndsInFile};
ghost use Rattle.lv_hub.specs.Renewing.{IsOfOneVector};
ghost use Rattle.lv_hub.specs.Watchers.{ClosesTelling};
ghost use Rattle.lv_server.specs.Closing.{TellsOnceRecorded};
ghost use Rattle.lv_server.specs.Starting.{Records};
ghost use Rattle.lv_server.specs.Writing.{FailsToClose, Writes, WritesClosed};

use crate::opened_client::OpenedClient;
use lv_bodies::Six;
use lv_edits::Edit;
use lv_files::{ProgramError, Reason};
use lv_geometry::Limits;
use lv_hub::{
    Begun, HistoryPrefix, Hub, Leaving, LogHeading, OperationLog, SessionLog, Share, Watched,
    WithBody,
};
use lv_script::Fault;
use lv_transcript::{LogWriter, Queue, TranscriptWriter, write_joined_transcript};
use std::alloc::Global;
use std::io::Write;
use std::sync::{Mutex, Wait};

/// The log of a hub, if there is a file for it. It continues after the updates that were there, or begins a transcript.
pub fn begin_log<N: WithBody<Six>, K: Begun, V: LogWriter + Drop, R: Wait>(
    rt: &R,
    alloc: Global,
    file: Option<V>,
    is_log: bool,
    numbers: LogHeading,
    lasts: Option<Limits>,
    hub: &Hub<Six, N>,
    share: &Share<N>,
) -> Result<Option<Mutex<OperationLog<N, V, K>>>, ProgramError>
    requires start { IfSome file (λ file. K.start ≡ V.contents file) }
    requires log { is_log ≡ is_some K.there }
    requires goes_on { MayGoOn K.there }
    requires numbers { numbers ≡ N.numbers }
    requires lasts { IfSome lasts (AreLasting N.limits) }
    requires seen { IfSome file (λ _. share.now.seen ≡ edits_there K.there) }
    ensures { IfOk result (λ log. is_some log ≡ is_some file) }
{
    let Some(file) = file else {
        return Ok(None);
    };
    match OperationLog::begin(rt, alloc, file, is_log, numbers, lasts, hub, share) {
        Ok(log) => Ok(Some(Mutex::new(log))),
        Err(_) => Err(ProgramError::memory()),
    }
}

/// The log, once no session runs any more. What came last is recorded. If that fails, the log's end reports it.
pub fn unlocked<N: WithBody<Six>, K: Begun, V: LogWriter + Drop, R: Wait>(
    rt: &R,
    hub: &Hub<Six, N>,
    log: Option<Mutex<OperationLog<N, V, K>>>,
) -> Option<OperationLog<N, V, K>>
    ensures { is_some result ≡ is_some log }
{
    let _ = log.as_ref().make_place(rt, hub);
    match log {
        Some(log) => Some(log.into_inner()),
        None => None,
    }
}

/// Closes a hub, writes its transcript with the writer that was made for it, ends its log, and returns the log's file. Then subscribers that have
/// ended write their last notifications, unless the log's end failed. Allocates no memory. The transcript's fault takes precedence over that of
/// the log. A call drops the vector, as a call above drops the hub, since the proof of a function that drops it itself is long.
pub fn write_closed<N: WithBody<Six>, K: Begun, F: Write + Drop, V: LogWriter + Drop, W: Write>(
    hub: Hub<Six, N>,
    share: Share<N>,
    queues: &mut Vec<Queue>,
    log: Option<OperationLog<N, V, K>>,
    leaving: Leaving<F>,
    transcript: TranscriptWriter,
    writer: &mut W,
) -> (Option<V>, Result<(), ProgramError>, Vec<Watched<F>>)
    requires parts { share.parts ≡ N.parts }
    requires one { IsOfOneVector N.limits }
    requires all_true { All (IsTrueAnswer share.seen) (in_a_row queues.old.items) }
    requires unused { IsUnused transcript }
    requires none { leaving.watched.items ≡ [] }
    requires room { vec_len leaving.left ≤ vec_capacity leaving.watched }
    ensures written { IfOk result.1 (λ done. WritesClosed N.limits share (in_a_row queues.old.items) (W.contents writer.old) (W.contents writer.new) (Ok done)) }
    ensures failed { IfErr result.1 (λ failure. FailsToClose N.limits share (in_a_row queues.old.items) (W.contents writer.old) (W.contents writer.new) failure.fault) }
    ensures back { is_some result.0 ≡ is_some log }
    // The file has the updates of the transcript that was written.
    ensures recorded { K.there ≡ None → IfOk result.1 (λ done. IfSome result.0 (λ file. Records K.start (V.contents file) (W.contents writer.old) (W.contents writer.new))) }
    // The last notifications of subscribers are of those updates too.
    ensures told { IfOk result.1 (λ done. ClosesTelling share leaving.left.items (map (λ w. w.notices) result.2.items) (W.contents writer.old) (W.contents writer.new)) }
    // No last note is sent unless its updates are recorded.
    ensures waits { TellsOnceRecorded V.made V.contents K.there K.start N.limits N.numbers leaving.left.items (map (λ w. w.notices) result.2.items) result.0 }
{
    let share = shown(&log, share);
    let (mut live, edits) = hub.finish(share);
    let written = write_in_order(live.journal(), queues, transcript, writer);
    let (file, ended) = end_log(log, &edits);
    let watched = leaving.tell(&mut live, edits.count(), ended.is_ok());
    drop((live, edits));
    (file, first_failure(written, ended), watched)
}

/// The share, which has also seen what was recorded.
pub fn shown<N: WithBody<Six>, K: Begun, V: LogWriter + Drop>(
    log: &Option<OperationLog<N, V, K>>,
    share: Share<N>,
) -> Share<N>
    ensures same { result ≡ having_seen share result.seen }
    ensures more { IsPrefix share.seen result.seen }
    ensures recorded { IfSome log.now (λ log. IsPrefix log.seen result.seen) }
{
    let mut share = share;
    if let Some(log) = log {
        log.show(&mut share);
    }
    share
}

/// Ends a log, if there is one, given all updates of the hub, and returns its file.
pub fn end_log<N: WithBody<Six>, K: Begun, V: LogWriter + Drop>(
    log: Option<OperationLog<N, V, K>>,
    edits: &HistoryPrefix<N>,
) -> (Option<V>, Result<(), Fault>)
    requires { IfSome log (λ log. IsPrefix log.seen edits.now) }
    ensures late { IfErr result.1 (λ fault. fault ≡ Fault.WriteFault) }
    ensures back { is_some result.0 ≡ is_some log }
    // Its last file has all updates, answers that are each true of the updates before it, and the last line of a transcript, unless a write has
    // failed.
    ensures ends { IfSome result.0 (λ file. EndsInFile V.made N.limits N.numbers K.there K.start (V.contents file) edits.now result.1) }
{
    let Some(log) = log else {
        return (None, Ok(()));
    };
    let (file, ended) = log.end(edits);
    (Some(file), ended)
}

// Writes the transcript of a journal, with the reductions in the order of their versions.
fn write_in_order<W: Write>(
    journal: &[Edit],
    queues: &mut Vec<Queue>,
    transcript: TranscriptWriter,
    writer: &mut W,
) -> Result<(), Fault>
    requires accepted { AreAccepted greatest journal.now }
    requires all_true { All (IsTrueAnswer journal.now) (in_a_row queues.old.items) }
    requires unused { IsUnused transcript }
    ensures { Writes journal.now (in_a_row queues.old.items) (W.contents writer.old) (W.contents writer.new) result }
{
    write_joined_transcript(transcript, journal, queues, writer)
}

// The first failure: that of the transcript on standard output, or otherwise that of its file.
fn first_failure(written: Result<(), Fault>, ended: Result<(), Fault>) -> Result<(), ProgramError>
    requires late { IfErr ended (λ fault. fault ≡ Fault.WriteFault) }
    ensures well { IfOk result (λ done. written ≡ Ok done) }
    ensures both { IfOk result (λ done. ended ≡ Ok done) }
    ensures failed { IfErr result (λ failure. (written ≡ Err failure.fault) ⊎ ((written ≡ Ok tt) × (failure.fault ≡ Fault.WriteFault))) }
{
    match written {
        Ok(()) => match ended {
            Ok(()) => Ok(()),
            Err(fault) => Err(ProgramError::new(fault, Reason::Transcript, 0)),
        },
        Err(fault) => Err(ProgramError::standard(fault)),
    }
}

/// The streams, the file and the subscribers, if nothing failed.
pub fn all_or_failure<F: Write + Drop, V: Drop>(
    written: Result<(), ProgramError>,
    streams: Vec<OpenedClient<F>>,
    file: Option<V>,
    watched: Vec<Watched<F>>,
) -> Result<(Vec<OpenedClient<F>>, Option<V>, Vec<Watched<F>>), ProgramError>
    ensures { MatchResult written (λ done. result ≡ Ok (streams, file, watched)) (λ failure. result ≡ Err failure) }
{
    match written {
        Ok(()) => Ok((streams, file, watched)),
        Err(failure) => Err(failure),
    }
}
