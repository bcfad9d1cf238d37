//! The clients of a server: sessions and subscribers, from the opening of their files until each has left.

ghost use Rattle.std.specs.Prelude.{◌≡◌, ◌+◌, ◌<◌, ◌≤◌, ◌^◌, ℕ, All, HoldsAt, IfErr, IfOk, List, OnOk, [], false, length, map, take, true, vec_capacity, vec_len};
ghost use Rattle.lv_transcript.specs.Joined.{in_a_row};
ghost use Rattle.lv_hub.specs.Watched.{WatchState};
ghost use Rattle.lv_hub.specs.Watchers.{watcher_at};
ghost use Rattle.lv_server.specs.Served.{Sides};
ghost use Rattle.lv_server.specs.Tasks.{TakesBack, begun_at};
ghost use Rattle.lv_transcript.specs.Transcribing.{IsUnused};

use crate::opened_client::OpenedClient;
use lv_bodies::Six;
use lv_files::{ProgramError, Reason};
use lv_hub::{
    HistoryPrefix, Leaving, LogHeading, Share, Watch, Watched, Watcher, WithBody, subscribe_all,
};
use lv_lines::HELD;
use lv_script::Fault;
use lv_transcript::{Queue, TranscriptWriter};
use std::alloc::{AllocError, Global};
use std::io::{Read, Write};
use std::marker::Model;

/// The sessions that are to be run, and the subscribers that are to be notified at the same time.
#[derive(Drop)]
pub struct Clients<F: Drop> {
    pub streams: Vec<OpenedClient<F>>,
    pub watches: Vec<Watch<F>>,
}

impl<F: Drop> Clients<F> {
    /// No clients yet, and room for this many sessions and subscribers.
    pub fn with_room(
        alloc: Global,
        sessions: usize,
        watches: usize,
    ) -> Result<Clients<F>, AllocError> {
        Ok(Clients {
            streams: Vec::with_capacity(alloc, sessions)?,
            watches: Vec::with_capacity(alloc, watches)?,
        })
    }

    /// Adds a session, or otherwise a subscriber. Returns whether there was memory for it.
    pub fn add(&mut self, client: OpenedClient<F>, is_session: bool) -> bool {
        if is_session {
            return self.streams.push(client).is_ok();
        }
        let OpenedClient {
            number,
            replies,
            questions,
            ..
        } = client;
        let watch = Watch {
            number,
            questions,
            notes: replies,
        };
        self.watches.push(watch).is_ok()
    }
}

/// As much memory as a session begins with, reserved for it.
#[derive(Drop)]
pub struct Spare {
    read: Vec<u8>,
    held: Vec<u8>,
}

impl Spare {
    // Reserves the memory. A session reads into a buffer as large as that of its replies.
    fn new(alloc: Global) -> Result<Spare, AllocError> {
        Ok(Spare {
            read: Vec::with_capacity(alloc, HELD)?,
            held: Vec::with_capacity(alloc, HELD)?,
        })
    }
}

/// A session with its part of the hub and the memory that is reserved for it. It waits until it is run. Then it has either the reductions that it
/// was answered, which are true of what it has seen, or its fault.
#[derive(Drop)]
pub struct Task<N: WithBody<Six>, F: Read + Write + Drop> {
    pub share: Share<N>,
    pub streams: OpenedClient<F>,
    pub spare: Option<Spare>,
    pub ended: Option<Result<Queue, ProgramError>>,
}

impl<N: WithBody<Six>, F: Read + Write + Drop> Model for Task<N, F> {
    ghost use Rattle.std.specs.Prelude.{◌≡◌, All, IfOk, IfSome, is_none};
    ghost use Rattle.lv_transcript.specs.Transcript.{IsTrueAnswer};
    ghost use Rattle.lv_server.specs.Tasks.{Sitting, listed_in};

    ghost Value = { Sitting };

    ghost view = { λ t. record { share = t.share; sides = record { lines = F.remaining t.streams.lines; replies = F.contents t.streams.replies }; waits = is_none t.ended; answers = listed_in t.ended } };

    ghost invariant = { λ t. (t.share.parts ≡ 1) × IfSome t.ended (λ ended. IfOk ended (λ answers. All (IsTrueAnswer t.share.seen) answers)) };
}

/// What sessions that were run leave: the reductions that each was answered, in order, and their streams.
#[derive(Drop)]
pub struct Gathered<F: Drop> {
    pub answers: Vec<Queue>,
    pub streams: Vec<OpenedClient<F>>,
    /// The writer of their transcript.
    pub transcript: TranscriptWriter,
}

impl<F: Drop> Gathered<F> {
    /// Room for what this many sessions leave, so that their end allocates no memory.
    pub fn with_room(alloc: Global, sessions: usize) -> Result<Gathered<F>, ProgramError>
        ensures answers { IfOk result (λ all. all.answers.items ≡ []) }
        ensures streams { IfOk result (λ all. all.streams.items ≡ []) }
        ensures unused { IfOk result (λ all. IsUnused all.transcript) }
    {
        let (Ok(answers), Ok(streams), Ok(transcript)) = (
            Vec::with_capacity(alloc, sessions),
            Vec::with_capacity(alloc, sessions),
            TranscriptWriter::new(alloc),
        ) else {
            return Err(ProgramError::memory());
        };
        Ok(Gathered {
            answers,
            streams,
            transcript,
        })
    }
}

/// Gives each session a part of the hub, which has seen what the share has, and reserves memory for it.
pub fn share_out<N: WithBody<Six>, F: Read + Write + Drop>(
    alloc: Global,
    share: &mut Share<N>,
    streams: Vec<OpenedClient<F>>,
) -> Result<Vec<Task<N, F>>, ProgramError>
    requires { share.old.parts ≡ vec_len streams + 1 }
    ensures parts { IfOk result (λ tasks. share.new.parts ≡ 1) }
    ensures count { IfOk result (λ tasks. share.new.count ≡ share.old.count) }
    ensures seen { IfOk result (λ tasks. share.new.seen ≡ share.old.seen) }
    ensures begun { IfOk result (λ tasks. tasks.items ≡ map (λ s. begun_at share.old.seen (record { lines = F.remaining s.lines; replies = F.contents s.replies })) streams.items) }
{
    let mut tasks = Vec::new(alloc);
    for streams in streams {
        let Ok(spare) = Spare::new(alloc) else {
            return Err(ProgramError::memory());
        };
        let task = Task {
            share: share.split(),
            streams,
            spare: Some(spare),
            ended: None,
        };
        if tasks.push(task).is_err() {
            return Err(ProgramError::memory());
        }
    }
    Ok(tasks)
}

/// Takes the parts back, and collects the reductions in the order of the sessions in `room`, which is empty. The fault is that of the first
/// session that has one, and `NoMemory` for a session that still waits.
pub fn take_back<N: WithBody<Six>, F: Read + Write + Drop>(
    room: Gathered<F>,
    share: &mut Share<N>,
    done: Vec<Task<N, F>>,
) -> Result<Gathered<F>, ProgramError>
    requires answers { room.answers.items ≡ [] }
    requires streams { room.streams.items ≡ [] }
    ensures transcript { IfOk result (λ all. all.transcript ≡ room.transcript) }
    ensures back { IfOk result (λ all. TakesBack share.old share.new done.items (in_a_row all.answers.items) (map (λ s. record { lines = F.remaining s.lines; replies = F.contents s.replies }) all.streams.items)) }
{
    let Gathered {
        mut answers,
        mut streams,
        transcript,
    } = room;
    for session in done {
        let Task {
            share: part,
            streams: its,
            spare,
            ended,
        } = session;
        drop(spare);
        share.join(part);
        let Some(listed) = ended else {
            return Err(ProgramError::memory());
        };
        let listed = listed?;
        if answers.push(listed).is_err() {
            return Err(ProgramError::memory());
        }
        if streams.push(its).is_err() {
            return Err(ProgramError::memory());
        }
    }
    Ok(Gathered {
        answers,
        streams,
        transcript,
    })
}

/// Sessions and subscribers with their parts of the hub, and room for what subscribers leave.
#[derive(Drop)]
pub struct Present<N: WithBody<Six>, F: Read + Write + Drop> {
    pub tasks: Vec<Task<N, F>>,
    pub watchers: Vec<Watcher<N, F>>,
    pub leaving: Leaving<F>,
}

/// Gives each session a part of the hub that has seen what the share has. Gives each subscriber a part that has seen what the prefix has, which
/// is no updates, and the numbering of updates. The share keeps one part. If memory runs out, the fault is `NoMemory`. A question that `watch`
/// refuses is `ReadFault`, but no file brings one here.
pub fn begin_all<N: WithBody<Six>, F: Read + Write + Drop>(
    alloc: Global,
    numbers: LogHeading,
    share: &mut Share<N>,
    start: &HistoryPrefix<N>,
    clients: Clients<F>,
) -> Result<Present<N, F>, ProgramError>
    requires numbers { numbers ≡ N.numbers }
    requires base { numbers.base ≤ 2 ^ 62 }
    requires parts { share.old.parts ≡ vec_len clients.streams + vec_len clients.watches + 1 }
    requires unseen { start.now ≡ [] }
    ensures parts { IfOk result (λ present. share.new.parts ≡ 1) }
    ensures count { IfOk result (λ present. share.new.count ≡ share.old.count) }
    ensures seen { IfOk result (λ present. share.new.seen ≡ share.old.seen) }
    ensures sessions { IfOk result (λ present. present.tasks.items ≡ map (λ s. begun_at share.old.seen (record { lines = F.remaining s.lines; replies = F.contents s.replies })) clients.streams.items) }
    ensures watchers { IfOk result (λ present. present.watchers.items ≡ map (λ w. watcher_at (record { questions = w.questions.items; contents = F.contents w.notes })) clients.watches.items) }
    ensures none { IfOk result (λ present. (present.leaving.left.items ≡ []) × (present.leaving.watched.items ≡ [])) }
    ensures left_room { IfOk result (λ present. vec_len clients.watches ≤ vec_capacity present.leaving.left) }
    ensures room { IfOk result (λ present. vec_len clients.watches ≤ vec_capacity present.leaving.watched) }
{
    let Clients { streams, watches } = clients;
    let Ok(leaving) = Leaving::with_room(alloc, watches.len()) else {
        return Err(ProgramError::memory());
    };
    let watchers = subscribe(alloc, numbers, share, start, watches)?;
    let tasks = share_out(alloc, share, streams)?;
    Ok(Present {
        tasks,
        watchers,
        leaving,
    })
}

// Gives each subscriber a part of the hub that has seen what the prefix has, which is no updates.
fn subscribe<N: WithBody<Six>, F: Read + Write + Drop>(
    alloc: Global,
    numbers: LogHeading,
    share: &mut Share<N>,
    start: &HistoryPrefix<N>,
    watches: Vec<Watch<F>>,
) -> Result<Vec<Watcher<N, F>>, ProgramError>
    requires numbers { numbers ≡ N.numbers }
    requires base { numbers.base ≤ 2 ^ 62 }
    requires parts { vec_len watches + 1 ≤ share.old.parts }
    requires unseen { start.now ≡ [] }
    ensures parts { IfOk result (λ watchers. share.new.parts + vec_len watches ≡ share.old.parts) }
    ensures count { IfOk result (λ watchers. share.new.count ≡ share.old.count) }
    ensures seen { IfOk result (λ watchers. share.new.seen ≡ share.old.seen) }
    ensures begun { IfOk result (λ watchers. watchers.items ≡ map (λ w. watcher_at (record { questions = w.questions.items; contents = F.contents w.notes })) watches.items) }
{
    match subscribe_all(alloc, numbers, share, start, watches) {
        Ok(watchers) => Ok(watchers),
        Err(refusal) => Err(ProgramError::unwatched(refusal)),
    }
}

/// Succeeds if all notifications were written. Otherwise the fault names the first subscriber whose output failed.
pub fn first_unwritten<F: Write + Drop>(watched: &[Watched<F>]) -> Result<(), ProgramError>
    ensures written { OnOk result (All (λ w. w.notices.failed ≡ false) watched.now) }
    ensures fault { IfErr result (λ error. error.fault ≡ Fault.WriteFault) }
    // It names one whose output failed, and none before that one did.
    ensures first { IfErr result (λ error. (i : ℕ) × (i < length watched.now) × HoldsAt (λ w. (w.notices.failed ≡ true) × (error.reason ≡ Reason.Unwritten) × (error.file ≡ w.number)) watched.now i × All (λ w. w.notices.failed ≡ false) (take i watched.now)) }
{
    for one in watched {
        if one.notices.has_failed() {
            return Err(ProgramError::new(Fault::WriteFault, Reason::Unwritten, one.number));
        }
    }
    Ok(())
}
