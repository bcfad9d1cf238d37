//! The last notification of a subscriber.
ghost use Rattle.std.specs.Prelude.{◌≡◌, ◌≤◌, length, map, vec_capacity};
ghost use Rattle.lv_edits.specs.Kept.{IsLegalInLimits};
ghost use Rattle.lv_live.specs.State.{SameLive};
ghost use Rattle.lv_standing.specs.Queries.{AreNotesOf, watch_answer};

use crate::told::Told;
use lv_bodies::Six;
use lv_live::Live;
use lv_standing::{Note, Query, QuerySet};
use std::marker::Model;

/// A subscriber that has ended: its questions, and the last answer that was reported for each.
#[derive(Drop)]
pub struct Ended {
    queries: QuerySet<Query>,
    // Room for notes.
    notes: Vec<Note>,
}

impl Model for Ended {
    ghost use Rattle.std.specs.Prelude.{◌≡◌, ◌≤◌, length, vec_capacity};
    ghost use Rattle.lv_hub.specs.Notes.{EndedState};

    ghost Value = { EndedState };

    ghost view = { λ e. record { questions = e.queries.queries; told = e.queries.told } };

    ghost invariant = { λ e. length e.queries.queries ≤ vec_capacity e.notes };
}

impl Ended {
    // What a subscriber leaves, with room for as many notes as it has questions.
    pub(crate) fn new(queries: QuerySet<Query>, notes: Vec<Note>) -> Ended
        requires { length queries.queries ≤ vec_capacity notes }
        ensures { result ≡ record { questions = queries.queries; told = queries.told } }
    {
        Ended { queries, notes }
    }

    /// The last notification, from the vector of the hub that was closed after this many updates. Each question whose answer there differs from
    /// the last reported one, as far as it is due, has a note. Allocates no memory.
    pub fn tell(self, live: &mut Live<Six>, edit: u64) -> Told
        requires { IsLegalInLimits live.old.history }
        ensures edit { result.edit ≡ edit }
        ensures notes { AreNotesOf self.questions self.told (map (watch_answer live.old.history.journal) self.questions) result.notes.items }
        ensures same { SameLive live.old live.new }
    {
        let Ended {
            mut queries,
            mut notes,
        } = self;
        queries.ask(live);
        notes.clear();
        queries.put_due(&mut notes);
        Told { edit, notes }
    }
}
