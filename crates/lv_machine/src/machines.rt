//! The machine: its words and actors, and what each event makes of them.
ghost use Rattle.std.specs.Prelude.{◌≡◌, ◌+◌, ◌*◌, ◌<◌, ◌≤◌, [], length, replicate, slice_get, slice_set, Some, None, IfOk, IfErr, OnOk, OnErr, if◌then◌else◌};
ghost use Rattle.lv_edits.specs.Verdict.{IsRefusal};
ghost use Rattle.lv_machine.specs.Calls.{task_block, goal_block, goal_of, is_short, outcome_of, task_after};
ghost use Rattle.lv_machine.specs.Machine.{begins, block_refreshed, called, first_state, gone_on, idle, machine_run, machine_step, setting_refusal, stepped};
ghost use Rattle.lv_machine.specs.Progress.{IsGoal};

use crate::actors::Actor;
use crate::advances::advance;
use crate::events::{Call, Event};
use crate::outcomes::{Outcome, Said};
use crate::packing::fits_short;
use crate::start::{first_descriptor, first_words};
use crate::steps::take_step;
use crate::tasks::{Advance, Goal, Task};
use lv_bodies::Parted;
use lv_edits::Edit;
use lv_geometry::{Limits, Refusal};
use std::alloc::{AllocError, Global};
use std::marker::Model;

/// The lock-free form as a plain value: words, and calls under way. Its actors are numbered from 0.
#[derive(Drop)]
pub struct Machine<B: Parted> {
    alloc: Global,
    body: B,
    limits: Limits,
    words: Vec<u64>,
    actors: Vec<Actor<B::S>>,
}

impl<B: Parted> Model for Machine<B> {
    ghost use Rattle.lv_machine.specs.Machine.{MachineState};
    ghost use Rattle.lv_machine.specs.Progress.{IsReached};

    ghost Value = { MachineState B B.S };

    ghost view = { λ a. record { body = a.body; limits = a.limits; words = a.words.items; actors = a.actors.items } };

    ghost invariant = { λ a. IsReached (B.operations a.body) B.PARTS B.parts_of a.limits a.words.items a.actors.items };
}

impl<B: Parted> Machine<B> {
    /// An empty vector, and this many idle actors. Refused with `BadLimits` if there may be more than 9 buckets or the actors are not 1 to 8,
    /// then with `NoMemory`.
    pub fn new(alloc: Global, limits: Limits, actors: u32, body: B) -> Result<Machine<B>, Refusal>
        ensures ok { IfOk result (λ machine. machine ≡ first_state body limits actors) }
        ensures fits { IfOk result (λ machine. setting_refusal limits actors ≡ None) }
        ensures err { IfErr result (λ refusal. IsRefusal (setting_refusal limits actors) refusal) }
    {
        if limits.buckets() > 9 || actors == 0 || actors > 8 {
            return Err(Refusal::BadLimits);
        }
        let Ok(words) = first_words(alloc, limits.capacity()) else {
            return Err(Refusal::NoMemory);
        };
        let Ok(actors) = idle_actors(alloc, actors) else {
            return Err(Refusal::NoMemory);
        };
        Ok(Machine {
            alloc,
            body,
            limits,
            words,
            actors,
        })
    }

    /// Does one event.
    #[tactic(auto, unfolding(crate::specs::Machine::machine_step))]
    pub fn step(&mut self, event: Event) -> Outcome<B::S>
        ensures state { self.new ≡ (machine_step (B.operations self.old.body) B.PARTS B.parts_of B.whole_of self.old event).0 }
        ensures outcome { result ≡ (machine_step (B.operations self.old.body) B.PARTS B.parts_of B.whole_of self.old event).1 }
    {
        match event {
            Event::Call { actor, call } => self.start(actor, call),
            Event::Step { actor } => self.go_on(actor),
        }
    }

    /// The block that an actor's call refreshes, if it does.
    #[tactic(auto, unfolding(crate::specs::Machine::block_refreshed))]
    pub fn refreshing(&self, actor: u32) -> Option<u32>
        ensures { result ≡ block_refreshed self.now actor }
    {
        match actor_at(&self.actors, actor) {
            Some(
                Actor {
                    task: Some(task),
                    ..
                },
            ) => task_block(task),
            Some(Actor { task: None, .. }) => None,
            None => None,
        }
    }

    /// Does a list of events, and returns the outcome of each. Room for the outcomes is made first. Refused with `NoMemory` if there is none, and
    /// nothing has changed then.
    pub fn run(&mut self, events: &[Event]) -> Result<Vec<Outcome<B::S>>, Refusal>
        ensures state { OnOk result (self.new ≡ (machine_run (B.operations self.old.body) B.PARTS B.parts_of B.whole_of self.old events.now).0) }
        ensures outcomes { IfOk result (λ outcomes. outcomes.items ≡ (machine_run (B.operations self.old.body) B.PARTS B.parts_of B.whole_of self.old events.now).1) }
        ensures err { IfErr result (λ refusal. refusal ≡ Refusal.NoMemory) }
        ensures unchanged { OnErr result (self.new ≡ self.old) }
    {
        let Ok(mut outcomes) = Vec::with_capacity(self.alloc, events.len()) else {
            return Err(Refusal::NoMemory);
        };
        for event in events {
            let outcome = self.step(*event);
            outcomes.push_reserved(outcome);
        }
        Ok(outcomes)
    }

    // Starts a call of an idle actor.
    fn start(&mut self, actor: u32, call: Call) -> Outcome<B::S>
        ensures state { self.new ≡ (called (B.operations self.old.body) B.PARTS B.parts_of B.whole_of self.old actor call (slice_get self.old.actors actor)).0 }
        ensures outcome { result ≡ (called (B.operations self.old.body) B.PARTS B.parts_of B.whole_of self.old actor call (slice_get self.old.actors actor)).1 }
    {
        match actor_at(&self.actors, actor) {
            None => Outcome::Refused(Refusal::NotNow),
            Some(Actor { task: Some(_), .. }) => Outcome::Refused(Refusal::NotNow),
            Some(Actor { look, task: None }) => self.begin(actor, look, aim(call)),
        }
    }

    // Starts a call of an actor, or returns why it ends before its first step.
    fn begin(&mut self, actor: u32, look: u64, goal: Result<Goal, Refusal>) -> Outcome<B::S>
        requires idle { slice_get self.old.actors actor ≡ Some record { look = look; task = None } }
        requires goal { IfOk goal IsGoal }
        ensures state { self.new ≡ (begins (B.operations self.old.body) B.PARTS B.parts_of B.whole_of self.old actor look goal).0 }
        ensures outcome { result ≡ (begins (B.operations self.old.body) B.PARTS B.parts_of B.whole_of self.old actor look goal).1 }
    {
        match goal {
            Ok(goal) => {
                let task = Some(Task::Look(goal));
                set_actor(&mut self.actors, actor, Actor { look, task });
                Outcome::Started
            }
            Err(refusal) => Outcome::Done(Said::Refused(refusal)),
        }
    }

    // Does the next step of a busy actor's call.
    fn go_on(&mut self, actor: u32) -> Outcome<B::S>
        ensures state { self.new ≡ (gone_on (B.operations self.old.body) B.PARTS B.parts_of B.whole_of self.old actor (slice_get self.old.actors actor)).0 }
        ensures outcome { result ≡ (gone_on (B.operations self.old.body) B.PARTS B.parts_of B.whole_of self.old actor (slice_get self.old.actors actor)).1 }
    {
        match actor_at(&self.actors, actor) {
            None => Outcome::Refused(Refusal::NotNow),
            Some(Actor { task: None, .. }) => Outcome::Refused(Refusal::NotNow),
            Some(
                Actor {
                    look,
                    task: Some(task),
                },
            ) => self.take(actor, look, task),
        }
    }

    // Does the next step of a call of an actor.
    fn take(&mut self, actor: u32, before: u64, task: Task<B::S>) -> Outcome<B::S>
        requires { slice_get self.old.actors actor ≡ Some record { look = before; task = Some task } }
        ensures state { self.new ≡ (stepped (B.operations self.old.body) B.PARTS B.parts_of B.whole_of self.old actor before task).0 }
        ensures outcome { result ≡ (stepped (B.operations self.old.body) B.PARTS B.parts_of B.whole_of self.old actor before task).1 }
    {
        let mut look = before;
        let found = take_step(&mut self.words, &mut look, &task);
        let next = advance(&self.body, self.limits, &task, before, found);
        let left = task_left(next);
        set_actor(&mut self.actors, actor, Actor { look, task: left });
        outcome(next)
    }
}

// The block that a call refreshes, if it does.
fn task_block<S: Copy>(task: Task<S>) -> Option<u32>
    ensures { result ≡ task_block task }
{
    match task {
        Task::Look(goal) | Task::CompleteCell(goal) | Task::CompleteMark(goal) => goal_block(goal),
        Task::KeepMark(block) | Task::KeepPart { block, .. } => Some(block),
        Task::KeepCell(keep) => Some(keep.block),
        _ => None,
    }
}

// The block that is to be refreshed, if that is what a call is for.
fn goal_block(goal: Goal) -> Option<u32>
    ensures { result ≡ goal_block goal }
{
    match goal {
        Goal::Refresh(block) => Some(block),
        _ => None,
    }
}

// This many actors at the start.
fn idle_actors<S: Copy>(alloc: Global, count: u32) -> Result<Vec<Actor<S>>, AllocError>
    ensures { IfOk result (λ actors. actors.items ≡ replicate count idle) }
{
    let mut actors = Vec::with_capacity(alloc, count as usize)?;
    for _number in 0..count {
        actors.push_reserved(Actor {
            look: first_descriptor(),
            task: None,
        });
    }
    Ok(actors)
}

// The state of an actor, if there is one.
fn actor_at<S: Copy>(actors: &[Actor<S>], actor: u32) -> Option<Actor<S>>
    ensures { result ≡ slice_get actors.now actor }
{
    actors.get(actor as usize).copied()
}

// Sets the state of an actor.
fn set_actor<S: Copy>(actors: &mut [Actor<S>], actor: u32, to: Actor<S>)
    requires { actor < length actors.old }
    ensures { actors.new ≡ slice_set actors.old actor to }
{
    actors[actor as usize] = to;
}

// The goal of a call, or why it ends before its first step.
fn aim(call: Call) -> Result<Goal, Refusal>
    ensures value { result ≡ goal_of call }
    ensures goal { IfOk result IsGoal }
{
    match call {
        Call::Push(x) => aim_edit(x, Edit::Push(x)),
        Call::Pop => Ok(Goal::Edit(Edit::Pop)),
        Call::Write { index, value } => aim_edit(value, Edit::Write { index, value }),
        Call::Get(index) => Ok(Goal::Get(index)),
        Call::Size => Ok(Goal::Size),
        Call::Reduce { lo, hi } => {
            if lo > hi {
                return Err(Refusal::BadRange);
            }
            Ok(Goal::Reduce { lo, hi })
        }
        Call::Refresh(block) => Ok(Goal::Refresh(block)),
    }
}

// An update of an element, if that fits into 16 bits.
fn aim_edit(x: i64, edit: Edit) -> Result<Goal, Refusal>
    ensures { result ≡ (if is_short x then Ok (Goal.Edit edit) else Err Refusal.TooWide) }
{
    if fits_short(x) {
        Ok(Goal::Edit(edit))
    } else {
        Err(Refusal::TooWide)
    }
}

// What an actor has of a call after a step.
fn task_left<S: Copy>(next: Advance<S>) -> Option<Task<S>>
    ensures { result ≡ task_after next }
{
    match next {
        Advance::Goes(task) => Some(task),
        Advance::Ends(_) => None,
    }
}

// The outcome of a step.
fn outcome<S: Copy>(next: Advance<S>) -> Outcome<S>
    ensures { result ≡ outcome_of next }
{
    match next {
        Advance::Goes(_) => Outcome::Going,
        Advance::Ends(said) => Outcome::Done(said),
    }
}
