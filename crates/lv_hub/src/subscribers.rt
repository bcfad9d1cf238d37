//! Subscribers: threads that are notified of the updates that change the answers to their questions.
ghost use Rattle.std.specs.Prelude.{◌≡◌, ◌≤◌, ◌^◌, ◌++◌, ◌∷◌, [], None, IfErr, IfOk, IfSome, OnErr, OnOk};
ghost use Rattle.lv_edits.specs.Verdict.{IsRefusal};
ghost use Rattle.lv_standing.specs.Queries.{watch_answer};
ghost use Rattle.lv_hub.specs.Notes.{IsToldIf, question_refusal};
ghost use Rattle.lv_hub.specs.Renewing.{IsRun};

use crate::ended::Ended;
use crate::hubs::Hub;
use crate::shares::Share;
use crate::told::Told;
use lv_bodies::Six;
use lv_geometry::Refusal;
use lv_history::WithBody;
use lv_standing::{Note, Query, QuerySet};
use std::alloc::Global;
use std::marker::Model;
use std::sync::Wait;
use std::thread::Parker;
use std::time::Duration;

/// How many queries a subscriber has at most.
pub const MOST_QUERIES: usize = 64;

// How long a subscriber pauses between two looks by default.
const PAUSE_MICROSECONDS: u64 = 1000;

/// A thread's part of a hub that asks it named questions, again and again, and reports each one whose answer differs from the last reported one.
/// The answer on no elements counts as reported at first.
///
/// It may miss updates in between, never goes back to earlier ones, and reports everything at one version. Dropping it drops its share.
#[derive(Drop)]
pub struct Subscriber<N: WithBody<Six>> {
    share: Share<N>,
    queries: QuerySet<Query>,
    // Room for the last notes.
    notes: Vec<Note>,
    pause: Duration,
}

impl<N: WithBody<Six>> Model for Subscriber<N> {
    ghost use Rattle.std.specs.Prelude.{◌≡◌, ◌≤◌, length, vec_capacity};
    ghost use Rattle.lv_hub.specs.Notes.{SubscriberState};

    ghost Value = { SubscriberState };

    ghost view = { λ s. record { share = s.share; questions = s.queries.queries; told = s.queries.told } };

    ghost invariant = { λ s. (s.queries.most ≡ 64) × (length s.queries.queries ≤ vec_capacity s.notes) };
}

impl<N: WithBody<Six>> Subscriber<N> {
    /// A subscriber without questions, with this share. Allocates no memory.
    pub fn new(alloc: Global, share: Share<N>) -> Subscriber<N>
        ensures { result ≡ record { share = share; questions = []; told = [] } }
    {
        Subscriber {
            share,
            queries: QuerySet::new(alloc, MOST_QUERIES),
            notes: Vec::new(alloc),
            pause: Duration::from_micros(PAUSE_MICROSECONDS),
        }
    }

    /// Its share, which has seen the updates up to its last look.
    pub fn share(&self) -> &Share<N>
        ensures { result.now ≡ self.now.share }
    {
        &self.share
    }

    /// Sets the pause between two looks, which is a millisecond by default.
    pub fn set_pause(&mut self, pause: Duration)
        ensures { self.new ≡ self.old }
    {
        self.pause = pause;
    }

    /// Registers a question, which takes part from the next look that finds an update. Refused with `BadRange`, `NameTaken`, `TooMany`, then
    /// `NoMemory`.
    pub fn watch(&mut self, question: &Query) -> Result<(), Refusal>
        ensures ok { OnOk result ((question_refusal self.old.questions question.now ≡ None)
            × (self.new.questions ≡ self.old.questions ++ question.now ∷ [])
            × (self.new.told ≡ self.old.told ++ watch_answer [] question.now ∷ [])) }
        ensures err { IfErr result (λ refusal. IsRefusal (question_refusal self.old.questions question.now) refusal) }
        ensures unchanged { OnErr result (self.new ≡ self.old) }
        ensures share { self.new.share ≡ self.old.share }
    {
        match self.notes.reserve(self.queries.queries().len() + 1) {
            Ok(()) => self.queries.watch(question, question.untold()),
            Err(_) => Err(self.refusal_without_room(question)),
        }
    }

    // Why a question is refused if there is no room for its note.
    fn refusal_without_room(&self, question: &Query) -> Refusal
        ensures { IsRefusal (question_refusal self.now.questions question.now) result }
    {
        match self.queries.refusal(question) {
            Some(refusal) => refusal,
            None => Refusal::NoMemory,
        }
    }

    /// Looks at the hub, and returns a notification, or none if no update was made since the last look. Refused with `NoMemory`. If there is no
    /// notification, nothing has changed. It doesn't sleep.
    pub fn look<R: Wait>(
        &mut self,
        rt: &R,
        alloc: Global,
        hub: &Hub<Six, N>,
    ) -> Result<Option<Told>, Refusal>
        ensures told { IfOk result (IsToldIf N.limits self.old self.new) }
        ensures few { IfOk result (λ found. IfSome found (λ told. told.edit ≤ 2 ^ 62)) }
        ensures err { IfErr result (λ refusal. refusal ≡ Refusal.NoMemory) }
        // In both cases it has seen the updates of a vector within the limits. No clause says that these are all updates of the hub so far,
        // because a hub's contracts don't name its state.
        ensures current { IfOk result (λ told. IsRun N.limits self.new.share.seen) }
        ensures unchanged { OnErr result (self.new ≡ self.old) }
    {
        let Ok(mut notes) = Vec::with_capacity(alloc, self.queries.queries().len()) else {
            return Err(Refusal::NoMemory);
        };
        let seen = self.share.seen();
        let edit = hub.answer_all(rt, &mut self.share, &mut self.queries);
        if edit == seen {
            return Ok(None);
        }
        self.queries.put_due(&mut notes);
        self.queries.mark_told();
        Ok(Some(Told { edit, notes }))
    }

    /// Pauses, sleeps until there is an update to look at, and then does what `look` does. Returns none if the hub's workers are dismissed.
    pub fn next<R: Wait>(
        &mut self,
        rt: &R,
        alloc: Global,
        hub: &Hub<Six, N>,
    ) -> Result<Option<Told>, Refusal>
        ensures told { IfOk result (IsToldIf N.limits self.old self.new) }
        ensures few { IfOk result (λ found. IfSome found (λ told. told.edit ≤ 2 ^ 62)) }
        ensures err { IfErr result (λ refusal. refusal ≡ Refusal.NoMemory) }
        ensures unchanged { OnErr result (self.new ≡ self.old) }
    {
        Parker::new().park_timeout(rt, self.pause);
        if !hub.wait_for_news(rt, self.share.seen()) {
            return Ok(None);
        }
        self.look(rt, alloc, hub)
    }

    /// Its share, and its last reported answers, for the hub's end.
    pub fn end(self) -> (Share<N>, Ended)
        ensures share { result.0 ≡ self.share }
        ensures questions { result.1.questions ≡ self.questions }
        ensures told { result.1.told ≡ self.told }
    {
        let Subscriber {
            share,
            queries,
            notes,
            pause: _,
        } = self;
        (share, Ended::new(queries, notes))
    }
}
