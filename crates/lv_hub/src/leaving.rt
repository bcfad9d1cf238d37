//! Subscribers that have ended, and their last notifications.

ghost use Rattle.std.specs.Prelude.{◌≡◌, ◌≤◌, ◌^◌, IfOk, List, [], false, length, map, vec_capacity, vec_len};
ghost use Rattle.lv_edits.specs.declared.edit.Edit.{Edit};
ghost use Rattle.lv_edits.specs.History.{list_of};
ghost use Rattle.lv_edits.specs.Kept.{IsLegalInLimits};
ghost use Rattle.lv_live.specs.State.{SameLive};
ghost use Rattle.lv_hub.specs.Watchers.{AllTellLast, TakesWatchers, TellsLast};

use crate::ended::Ended;
use crate::notices::Notices;
use crate::shares::Share;
use crate::watchers::Watcher;
use lv_bodies::Six;
use lv_history::WithBody;
use lv_live::Live;
use lv_transcript::LogHeading;
use std::alloc::{AllocError, Global};
use std::io::Write;
use std::marker::Model;

/// A subscriber that has ended, and the writer of its lines.
#[derive(Drop)]
pub struct Left<F: Write + Drop> {
    number: usize,
    // The numbering of its lines.
    numbers: LogHeading,
    ended: Ended,
    notices: Notices<F>,
}

impl<F: Write + Drop> Model for Left<F> {
    ghost use Rattle.std.specs.Prelude.{◌≤◌, ◌^◌};
    ghost use Rattle.lv_hub.specs.Watchers.{LeftState};

    ghost Value = { LeftState };

    ghost view = { λ l. record { numbers = l.numbers; ended = l.ended; notices = l.notices } };

    ghost invariant = { λ l. l.numbers.base ≤ 2 ^ 62 };
}

/// A subscriber whose last notification was written, as far as it could be.
#[derive(Drop)]
pub struct Watched<F: Write + Drop> {
    /// The number by which the caller knows it.
    pub number: usize,
    /// The writer of its lines.
    pub notices: Notices<F>,
}

impl<F: Write + Drop> Left<F> {
    /// What a subscriber leaves.
    pub fn new(number: usize, numbers: LogHeading, ended: Ended, notices: Notices<F>) -> Left<F>
        requires { numbers.base ≤ 2 ^ 62 }
        ensures { result ≡ record { numbers = numbers; ended = ended; notices = notices } }
    {
        Left {
            number,
            numbers,
            ended,
            notices,
        }
    }

    /// Writes the last notification, from the vector of the hub that was closed after this many updates, unless these aren't recorded. Allocates
    /// no memory.
    pub fn tell(self, live: &mut Live<Six>, edit: u64, is_recorded: bool) -> Watched<F>
        requires legal { IsLegalInLimits live.old.history }
        requires few { edit ≤ 2 ^ 62 }
        ensures last { (edits : List Edit) → length edits ≡ edit → list_of live.old.history.journal ≡ list_of edits → TellsLast edits self result.notices }
        ensures unrecorded { is_recorded ≡ false → result.notices.contents ≡ self.notices.contents }
        ensures same { SameLive live.old live.new }
    {
        let Left {
            number,
            numbers,
            ended,
            mut notices,
        } = self;
        notices.tell(numbers, &ended.tell(live, edit), is_recorded);
        Watched { number, notices }
    }
}

/// Subscribers that have ended, and room for what they become.
#[derive(Drop)]
pub struct Leaving<F: Write + Drop> {
    pub left: Vec<Left<F>>,
    pub watched: Vec<Watched<F>>,
}

impl<F: Write + Drop> Leaving<F> {
    /// No subscribers yet, and room for this many, so that their end allocates no memory.
    pub fn with_room(alloc: Global, watches: usize) -> Result<Leaving<F>, AllocError>
        ensures none { IfOk result (λ all. (all.left.items ≡ []) × (all.watched.items ≡ [])) }
        ensures left_room { IfOk result (λ all. watches ≤ vec_capacity all.left) }
        ensures room { IfOk result (λ all. watches ≤ vec_capacity all.watched) }
    {
        Ok(Leaving {
            left: Vec::with_capacity(alloc, watches)?,
            watched: Vec::with_capacity(alloc, watches)?,
        })
    }

    /// Has each of them write its last notification, in order, from the vector of the hub that was closed after this many updates, unless these
    /// aren't recorded. Allocates no memory.
    pub fn tell(self, live: &mut Live<Six>, edit: u64, is_recorded: bool) -> Vec<Watched<F>>
        requires legal { IsLegalInLimits live.old.history }
        requires few { edit ≤ 2 ^ 62 }
        requires none { self.watched.items ≡ [] }
        requires room { vec_len self.left ≤ vec_capacity self.watched }
        ensures last { (edits : List Edit) → length edits ≡ edit → list_of live.old.history.journal ≡ list_of edits → AllTellLast edits self.left.items (map (λ w. w.notices) result.items) }
        ensures unrecorded { is_recorded ≡ false → map (λ w. w.notices.contents) result.items ≡ map (λ l. l.notices.contents) self.left.items }
        ensures same { SameLive live.old live.new }
    {
        let Leaving { left, mut watched } = self;
        for one in left {
            watched.push_reserved(one.tell(live, edit, is_recorded));
        }
        watched
    }
}

/// Takes the parts of subscribers back, and collects what they leave in `room`, which is empty. Allocates no memory.
pub fn leave_all<N: WithBody<Six>, F: Write + Drop>(
    room: Leaving<F>,
    share: &mut Share<N>,
    watchers: Vec<Watcher<N, F>>,
) -> Leaving<F>
    requires none { room.left.items ≡ [] }
    requires room { vec_len watchers ≤ vec_capacity room.left }
    ensures left { TakesWatchers N.numbers share.old share.new watchers.items result.left.items }
    ensures room { result.watched ≡ room.watched }
{
    let Leaving { mut left, watched } = room;
    for watcher in watchers {
        let (part, one) = watcher.end();
        share.join(part);
        left.push_reserved(one);
    }
    Leaving { left, watched }
}
