//! Subscribers that run together with sessions, and write their notifications to files.

ghost use Rattle.std.specs.Prelude.{◌≡◌, ◌⊎◌, ◌+◌, ◌≤◌, ◌^◌, IfErr, IfOk, None, OnOk, [], map, vec_len};
ghost use Rattle.lv_hub.specs.Asking.{IsRefusedFor, refusal_behind, refusal_of_all};
ghost use Rattle.lv_hub.specs.Noticing.{Watches, WritesMore, told_text};
ghost use Rattle.lv_standing.specs.Queries.{watch_answer};
ghost use Rattle.lv_hub.specs.Watchers.{left_by, watcher_at};

use crate::hubs::Hub;
use crate::leaving::Left;
use crate::notices::Notices;
use crate::session_logs::SessionLog;
use crate::shares::Share;
use crate::subscribers::Subscriber;
use crate::told::Told;
use lv_bodies::Six;
use lv_geometry::Refusal;
use lv_history::{HistoryPrefix, WithBody};
use lv_standing::Query;
use lv_transcript::LogHeading;
use std::alloc::Global;
use std::io::Write;
use std::marker::Model;
use std::sync::Wait;

/// A subscriber that is to be started.
#[derive(Drop)]
pub struct Watch<F: Drop> {
    /// A number by which the caller knows it.
    pub number: usize,
    /// Its questions.
    pub questions: Vec<Query>,
    /// Where its lines are written.
    pub notes: F,
}

/// A subscriber of a hub, with one part of the hub and the writer of its lines.
#[derive(Drop)]
pub struct Watcher<N: WithBody<Six>, F: Write + Drop> {
    number: usize,
    subscriber: Subscriber<N>,
    notices: Notices<F>,
    // The numbering of its lines.
    numbers: LogHeading,
}

impl<N: WithBody<Six>, F: Write + Drop> Model for Watcher<N, F> {
    ghost use Rattle.std.specs.Prelude.{◌≡◌, ◌≤◌, ◌^◌};
    ghost use Rattle.lv_hub.specs.Noticing.{WatcherState};

    ghost Value = { WatcherState };

    ghost view = { λ w. record { subscriber = w.subscriber; notices = w.notices } };

    ghost invariant = { λ w. (w.subscriber.share.parts ≡ 1) × (w.subscriber.share.count ≡ 0) × (w.numbers ≡ N.numbers) × (w.numbers.base ≤ 2 ^ 62) };
}

impl<N: WithBody<Six>, F: Write + Drop> Watcher<N, F> {
    /// Runs the subscriber until the hub's workers are dismissed or a write fails. Every update is recorded before it is reported. If memory runs
    /// out, it looks again after a pause. At the end it looks once more, without sleeping.
    pub fn run<L: SessionLog<N>, R: Wait>(
        &mut self,
        rt: &R,
        alloc: Global,
        hub: &Hub<Six, N>,
        log: &L,
    )
        ensures { Watches N.limits N.numbers self.old self.new }
    {
        self.turns(rt, alloc, hub, log);
        self.look(rt, alloc, hub, log);
    }

    // Runs the subscriber in turns.
    #[tactic(auto, using(crate::proofs::Noticed::watches_both))]
    fn turns<L: SessionLog<N>, R: Wait>(
        &mut self,
        rt: &R,
        alloc: Global,
        hub: &Hub<Six, N>,
        log: &L,
    )
        ensures { Watches N.limits N.numbers self.old self.new }
    {
        for _ in 0..u64::MAX {
            if !self.turn(rt, alloc, hub, log) {
                return;
            }
        }
    }

    // Sleeps until there is an update to look at, and reports it. Returns whether there is another turn.
    fn turn<L: SessionLog<N>, R: Wait>(
        &mut self,
        rt: &R,
        alloc: Global,
        hub: &Hub<Six, N>,
        log: &L,
    ) -> bool
        ensures { Watches N.limits N.numbers self.old self.new }
    {
        match self.subscriber.next(rt, alloc, hub) {
            Ok(Some(told)) => {
                self.tell(rt, hub, log, &told);
                !self.notices.has_failed()
            }
            Ok(None) => false,
            Err(_) => true,
        }
    }

    // Looks once and reports, unless a write has failed.
    fn look<L: SessionLog<N>, R: Wait>(&mut self, rt: &R, alloc: Global, hub: &Hub<Six, N>, log: &L)
        ensures { Watches N.limits N.numbers self.old self.new }
    {
        if self.notices.has_failed() {
            return;
        }
        match self.subscriber.look(rt, alloc, hub) {
            Ok(Some(told)) => self.tell(rt, hub, log, &told),
            Ok(None) | Err(_) => {}
        }
    }

    // Writes the lines of a notification, once all updates are recorded that the subscriber has seen. If recording fails, no line is written any
    // more.
    fn tell<L: SessionLog<N>, R: Wait>(&mut self, rt: &R, hub: &Hub<Six, N>, log: &L, told: &Told)
        requires few { told.now.edit ≤ 2 ^ 62 }
        ensures recorded { (self.new.notices.contents ≡ self.old.notices.contents) ⊎ L.has_recorded log.now self.old.subscriber.share.seen 0 }
        ensures written { WritesMore (told_text N.numbers told.now) self.old.notices self.new.notices }
        ensures subscriber { self.new.subscriber ≡ self.old.subscriber }
    {
        match log.record(rt, hub, self.subscriber.share(), 0) {
            Ok(()) => self.notices.tell(self.numbers, told, true),
            Err(_) => self.notices.tell(self.numbers, told, false),
        }
    }

    /// Its part of the hub, and what it leaves.
    pub fn end(self) -> (Share<N>, Left<F>)
        ensures share { result.0 ≡ self.subscriber.share }
        ensures part { result.0.parts ≡ 1 }
        ensures count { result.0.count ≡ 0 }
        ensures left { result.1 ≡ left_by N.numbers self }
    {
        let Watcher {
            number,
            subscriber,
            notices,
            numbers,
        } = self;
        let (share, ended) = subscriber.end();
        (share, Left::new(number, numbers, ended, notices))
    }
}

// A subscriber with a share, which asks its questions. Refused as the questions are, and with `NoMemory`.
#[tactic(auto, using(crate::proofs::Noticed::subscribed))]
fn subscribe<N: WithBody<Six>, F: Write + Drop>(
    alloc: Global,
    numbers: LogHeading,
    share: Share<N>,
    watch: Watch<F>,
) -> Result<Watcher<N, F>, Refusal>
    requires numbers { numbers ≡ N.numbers }
    requires base { numbers.base ≤ 2 ^ 62 }
    requires parts { share.parts ≡ 1 }
    requires count { share.count ≡ 0 }
    requires seen { share.seen ≡ [] }
    ensures begun { IfOk result (λ w. w ≡ watcher_at (record { questions = watch.questions.items; contents = F.contents watch.notes })) }
    ensures fit { OnOk result (refusal_behind [] watch.questions.items ≡ None) }
    ensures refused { IfErr result (λ refusal. IsRefusedFor (refusal_behind [] watch.questions.items) refusal) }
{
    let Watch {
        number,
        questions,
        notes,
    } = watch;
    let Ok(notices) = Notices::new(alloc, notes) else {
        return Err(Refusal::NoMemory);
    };
    let mut subscriber = Subscriber::new(alloc, share);
    ask_all(&mut subscriber, &questions)?;
    Ok(Watcher {
        number,
        subscriber,
        notices,
        numbers,
    })
}

// Has a subscriber without questions ask these. Refused as `Subscriber::watch` is.
fn ask_all<N: WithBody<Six>>(
    subscriber: &mut Subscriber<N>,
    questions: &[Query],
) -> Result<(), Refusal>
    requires none { subscriber.old.questions ≡ [] }
    requires untold { subscriber.old.told ≡ [] }
    ensures asked { IfOk result (λ done. subscriber.new ≡ record subscriber.old { questions = questions.now; told = map (watch_answer []) questions.now }) }
    ensures fit { OnOk result (refusal_behind [] questions.now ≡ None) }
    ensures refused { IfErr result (λ refusal. IsRefusedFor (refusal_behind [] questions.now) refusal) }
{
    for question in questions {
        subscriber.watch(question)?;
    }
    Ok(())
}

/// Gives each subscriber a part of the hub that has seen what the prefix has, which is no updates. Its lines have this numbering. The refusal is
/// that of the first question that `Subscriber::watch` refuses, or `NoMemory`.
pub fn subscribe_all<N: WithBody<Six>, F: Write + Drop>(
    alloc: Global,
    numbers: LogHeading,
    share: &mut Share<N>,
    start: &HistoryPrefix<N>,
    watches: Vec<Watch<F>>,
) -> Result<Vec<Watcher<N, F>>, Refusal>
    requires numbers { numbers ≡ N.numbers }
    requires base { numbers.base ≤ 2 ^ 62 }
    requires parts { vec_len watches + 1 ≤ share.old.parts }
    requires unseen { start.now ≡ [] }
    ensures parts { IfOk result (λ watchers. share.new.parts + vec_len watches ≡ share.old.parts) }
    ensures count { IfOk result (λ watchers. share.new.count ≡ share.old.count) }
    ensures seen { IfOk result (λ watchers. share.new.seen ≡ share.old.seen) }
    ensures begun { IfOk result (λ watchers. watchers.items ≡ map (λ w. watcher_at (record { questions = w.questions.items; contents = F.contents w.notes })) watches.items) }
    ensures fit { OnOk result (refusal_of_all (map (λ w. w.questions.items) watches.items) ≡ None) }
    // The reason is that of the first question that is refused, or `NoMemory`.
    ensures refused { IfErr result (λ refusal. IsRefusedFor (refusal_of_all (map (λ w. w.questions.items) watches.items)) refusal) }
{
    let mut watchers = Vec::new(alloc);
    for watch in watches {
        let watcher = subscribe(alloc, numbers, share.split_at(start), watch)?;
        if watchers.push(watcher).is_err() {
            return Err(Refusal::NoMemory);
        }
    }
    Ok(watchers)
}
