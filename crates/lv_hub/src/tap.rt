//! The tap of a desk: what has come since its log was last written.
ghost use Rattle.std.specs.Prelude.{◌≡◌, ◌+◌, ◌<◌, ◌^◌, [], IsTrue, vec_capacity};
ghost use Rattle.lv_edits.specs.Kept.{CarriesElement};
ghost use Rattle.lv_hub.specs.declared.log_entry.LogEntry.TheVariants as logged;
ghost use Rattle.lv_hub.specs.Logging.{HasPlace, TapState, with_entry};

use crate::log_entry::LogEntry;
use lv_edits::Edit;
use std::marker::Model;
use std::mem;

/// Entries in the order of time, from some version on, in a list of fixed capacity. Whoever writes the log takes them out, and holds no lock
/// while writing them. All entries that ever came, updates and answers, are counted, so that the number of an entry says whether a log has it.
#[derive(Drop)]
pub(crate) struct Tap {
    from: u64,
    entries: Vec<LogEntry>,
    given: u64,
}

impl Model for Tap {
    ghost use Rattle.std.specs.Prelude.{◌≡◌, vec_capacity};
    ghost use Rattle.lv_hub.specs.Logging.{TapState};

    ghost Value = { TapState };

    ghost view = { λ t. record { from = t.from; entries = t.entries.items; room = vec_capacity t.entries; given = t.given } };
}

/// What was handed over for a log: the number of the vector's updates before the entries, after how many updates of the hub the vector was last
/// made anew, and how many entries came in all, including these.
#[derive(Clone, Copy)]
pub struct Came {
    pub from: u64,
    pub renewed: u64,
    pub given: u64,
}

impl Tap {
    // A tap that begins after `from` updates and `given` entries, and collects into this list.
    pub(crate) fn new(from: u64, given: u64, entries: Vec<LogEntry>) -> Tap
        requires { entries.items ≡ [] }
        ensures { result ≡ record { from = from; entries = []; room = vec_capacity entries; given = given } }
    {
        Tap {
            from,
            entries,
            given,
        }
    }

    // Whether there is room for one more entry, and a number for it.
    pub(crate) fn has_place(&self) -> bool
        ensures { IsTrue result → HasPlace self.now }
    {
        self.given < u64::MAX && self.entries.len() < self.entries.capacity()
    }

    // How many entries came in all.
    pub(crate) fn given(&self) -> u64
        ensures { result ≡ self.now.given }
    {
        self.given
    }

    // Adds an update.
    pub(crate) fn take_edit(&mut self, edit: Edit)
        requires { HasPlace self.old }
        ensures taken { self.new ≡ with_entry (logged.Edit edit) self.old }
        ensures element { CarriesElement edit }
    {
        tell_element(edit);
        self.take(LogEntry::Edit(edit));
    }

    // Adds an entry.
    pub(crate) fn take(&mut self, entry: LogEntry)
        requires { HasPlace self.old }
        ensures { self.new ≡ with_entry entry self.old }
    {
        self.given += 1;
        self.entries.push_reserved(entry);
    }

    // Hands its entries over, and takes an empty list in their place. What comes next begins after `edits` updates. Returns after how many
    // updates the entries that were handed over began.
    pub(crate) fn hand_over(&mut self, edits: u64, entries: &mut Vec<LogEntry>) -> u64
        requires { entries.old.items ≡ [] }
        ensures from { result ≡ self.old.from }
        ensures entries { entries.new.items ≡ self.old.entries }
        ensures rest { self.new ≡ record { from = edits; entries = []; room = self.new.room; given = self.old.given } }
    {
        mem::swap(&mut self.entries, entries);
        mem::replace(&mut self.from, edits)
    }
}

// The element of an update is a number of 64 bits.
fn tell_element(edit: Edit)
    ensures { CarriesElement edit }
{
    match edit {
        Edit::Push(_) => {}
        Edit::Pop => {}
        Edit::Write { .. } => {}
        Edit::Reserve(_) => {}
        Edit::Swap { .. } => {}
        Edit::Truncate(_) => {}
    }
}
