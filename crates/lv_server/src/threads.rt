//! The threads of a server: one for each session, and those of workers and subscribers.

ghost use Rattle.lv_server.specs.Tasks.{AreHeldFrom, IsHeldOnce};
ghost use Rattle.lv_hub.specs.Watchers.{AreWatchedFrom};

use crate::clients::Task;
use crate::server::Plan;
use lv_bodies::Six;
use lv_files::{ProgramError, Reason};
use lv_hub::{
    Begun, Hub, OpenGate, OperationLog, SessionLog, SessionPlace, Watcher, WithBody, attend,
    run_session,
};
use lv_script::Fault;
use lv_transcript::{LogWriter, Queue};
use std::alloc::Global;
use std::io::{Read, Write};
use std::sync::{Mutex, Wait};
use std::thread;
use std::thread::Threads;

/// Runs all sessions, and at the same time workers and subscribers, which end when the last session has ended. If no thread can be made for the
/// workers, they run last, and end at once.
pub fn hold_all<
    N: WithBody<Six> + Send + Sync,
    K: Begun + Send + Sync,
    F: Read + Write + Send + Drop,
    V: LogWriter + Send + Drop,
    R: Threads + Wait + Sync,
>(
    place: &SessionPlace<'_, N, R>,
    plan: Plan,
    log: Option<&Mutex<OperationLog<N, V, K>>>,
    tasks: Vec<Task<N, F>>,
    watchers: Vec<Watcher<N, F>>,
) -> (Vec<Task<N, F>>, Vec<Watcher<N, F>>)
    ensures held { AreHeldFrom N.limits N.numbers N.lists tasks.items result.0.items }
    ensures watched { AreWatchedFrom N.limits N.numbers watchers.items result.1.items }
{
    let Plan { workers, turns, .. } = plan;
    let (rt, alloc, hub) = (place.rt, place.alloc, place.hub);
    let ((), ended) = thread::join(
        rt,
        move || refresh(rt, alloc, hub, workers, turns),
        move || -> (Vec<Task<N, F>>, Vec<Watcher<N, F>>)
            ensures { AreHeldFrom N.limits N.numbers N.lists tasks.items result.0.items
                × AreWatchedFrom N.limits N.numbers watchers.items result.1.items }
        { hold_beside(place, log, tasks, watchers) },
    );
    ended
}

// Precomputes the hub's aggregates with all workers. Their threads are made once there may be work for them. If there is no memory for so many,
// one worker does everything.
fn refresh<N: WithBody<Six> + Send + Sync, R: Threads + Wait + Sync>(
    rt: &R,
    alloc: Global,
    hub: &Hub<Six, N>,
    workers: u32,
    turns: u64,
) {
    if workers == 0 || !hub.wait_for_work(rt) {
        return;
    }
    let worker = |_: usize| attend(rt, hub, &OpenGate, turns);
    if thread::map_indices(rt, alloc, workers as usize, &worker).is_err() {
        attend(rt, hub, &OpenGate, turns);
    }
}

// Runs all sessions and, at the same time, the subscribers. Once the last session has ended it dismisses the subscribers and the workers. If no
// thread can be made for the subscribers, they run last, and each still reports what there is to report.
fn hold_beside<
    N: WithBody<Six> + Send + Sync,
    K: Begun + Send + Sync,
    F: Read + Write + Send + Drop,
    V: LogWriter + Send + Drop,
    R: Threads + Wait + Sync,
>(
    place: &SessionPlace<'_, N, R>,
    log: Option<&Mutex<OperationLog<N, V, K>>>,
    tasks: Vec<Task<N, F>>,
    watchers: Vec<Watcher<N, F>>,
) -> (Vec<Task<N, F>>, Vec<Watcher<N, F>>)
    ensures held { AreHeldFrom N.limits N.numbers N.lists tasks.items result.0.items }
    ensures watched { AreWatchedFrom N.limits N.numbers watchers.items result.1.items }
{
    if watchers.len() == 0 {
        let held = hold_each(place, log, tasks);
        return (held, watchers);
    }
    let (rt, alloc, hub) = (place.rt, place.alloc, place.hub);
    let (watchers, held) = thread::join(
        rt,
        move || -> Vec<Watcher<N, F>>
            ensures { AreWatchedFrom N.limits N.numbers watchers.items result.items }
        { watch_all(rt, alloc, hub, log, watchers) },
        move || -> Vec<Task<N, F>>
            ensures { AreHeldFrom N.limits N.numbers N.lists tasks.items result.items }
        { hold_each(place, log, tasks) },
    );
    (held, watchers)
}

// Runs each subscriber, and returns them. Allocates no memory.
fn watch_all<
    N: WithBody<Six> + Send + Sync,
    K: Begun + Send + Sync,
    F: Write + Send + Drop,
    V: LogWriter + Send + Drop,
    R: Threads + Wait + Sync,
>(
    rt: &R,
    alloc: Global,
    hub: &Hub<Six, N>,
    log: Option<&Mutex<OperationLog<N, V, K>>>,
    watchers: Vec<Watcher<N, F>>,
) -> Vec<Watcher<N, F>>
    ensures { AreWatchedFrom N.limits N.numbers watchers.items result.items }
{
    let mut watchers = watchers;
    watch_each(rt, alloc, hub, log, watchers.as_mut_slice());
    watchers
}

// Runs each subscriber, in a thread of its own if one can be made, until the hub's workers are dismissed.
fn watch_each<
    N: WithBody<Six> + Send + Sync,
    K: Begun + Send + Sync,
    F: Write + Send + Drop,
    V: LogWriter + Send + Drop,
    R: Threads + Wait + Sync,
>(
    rt: &R,
    alloc: Global,
    hub: &Hub<Six, N>,
    log: Option<&Mutex<OperationLog<N, V, K>>>,
    watchers: &mut [Watcher<N, F>],
)
    ensures { AreWatchedFrom N.limits N.numbers watchers.old watchers.new }
{
    let threads = watchers.len().max(1);
    thread::for_each_mut(
        rt,
        watchers,
        threads,
        &|_, watcher| watcher.run(rt, alloc, hub, &log),
    );
}

// Runs each session in a thread of its own, if one can be made. A session that can't begin there for lack of memory is run after the others, with
// the memory that was reserved for it. Afterwards it dismisses workers and subscribers.
fn hold_each<
    N: WithBody<Six> + Send + Sync,
    K: Begun + Send + Sync,
    F: Read + Write + Send + Drop,
    V: LogWriter + Send + Drop,
    R: Threads + Wait + Sync,
>(
    place: &SessionPlace<'_, N, R>,
    log: Option<&Mutex<OperationLog<N, V, K>>>,
    tasks: Vec<Task<N, F>>,
) -> Vec<Task<N, F>>
    ensures { AreHeldFrom N.limits N.numbers N.lists tasks.items result.items }
{
    let mut tasks = tasks;
    hold_in_place(place, log, tasks.as_mut_slice());
    place.hub.dismiss(place.rt);
    tasks
}

// Runs the sessions in place: in threads of their own first, and then those that still wait, one after the other in this thread. Allocates no
// memory except that of threads.
fn hold_in_place<
    N: WithBody<Six> + Send + Sync,
    K: Begun + Send + Sync,
    F: Read + Write + Send + Drop,
    V: LogWriter + Send + Drop,
    R: Threads + Wait + Sync,
>(
    place: &SessionPlace<'_, N, R>,
    log: Option<&Mutex<OperationLog<N, V, K>>>,
    tasks: &mut [Task<N, F>],
)
    ensures { AreHeldFrom N.limits N.numbers N.lists tasks.old tasks.new }
{
    let threads = tasks.len();
    hold_waiting(place, log, tasks, threads, false);
    hold_waiting(place, log, tasks, 1, true);
}

// Runs each session that waits, in this many threads, if they can be made. Threads take memory before they begin, and each session that has begun
// takes some too. A session that finds none still waits. If `frees` is set, the memory that was reserved for each session is released when it
// begins.
fn hold_waiting<
    N: WithBody<Six> + Send + Sync,
    K: Begun + Send + Sync,
    F: Read + Write + Send + Drop,
    V: LogWriter + Send + Drop,
    R: Threads + Wait + Sync,
>(
    place: &SessionPlace<'_, N, R>,
    log: Option<&Mutex<OperationLog<N, V, K>>>,
    tasks: &mut [Task<N, F>],
    threads: usize,
    frees: bool,
)
    ensures { AreHeldFrom N.limits N.numbers N.lists tasks.old tasks.new }
{
    let held = |_: usize, task: &mut Task<N, F>|
        ensures { IsHeldOnce N.limits N.numbers N.lists task.old task.new }
    {
        if frees {
            task.spare = None;
        }
        hold(place, log, task)
    };
    thread::for_each_mut(place.rt, tasks, threads.max(1), &held);
}

// Runs a session that waits. If it finds no memory to begin with, it still waits, and nothing has changed.
fn hold<N: WithBody<Six>, K: Begun, F: Read + Write + Drop, V: LogWriter + Drop, R: Wait>(
    place: &SessionPlace<'_, N, R>,
    log: Option<&Mutex<OperationLog<N, V, K>>>,
    task: &mut Task<N, F>,
)
    ensures { IsHeldOnce N.limits N.numbers N.lists task.old task.new }
{
    if task.ended.is_some() {
        return;
    }
    let (rt, hub) = (place.rt, place.hub);
    let here = SessionPlace {
        rt,
        hub,
        alloc: place.alloc,
        numbers: place.numbers,
        keeps: place.keeps,
    };
    let answers = run_session(
        here,
        &log,
        &mut task.share,
        &mut task.streams.lines,
        &mut task.streams.replies,
    );
    match answers {
        Ok(answers) => task.ended = Some(Ok(Queue::new(answers))),
        Err(Fault::NoMemory) => {}
        Err(fault) => {
            let error = if fault == Fault::WriteFault
                && log.record(rt, hub, &task.share, 0).is_err()
            {
                ProgramError::new(fault, Reason::Transcript, 0)
            } else {
                ProgramError::session(task.streams.number, fault)
            };
            task.ended = Some(Err(error));
        }
    }
}
