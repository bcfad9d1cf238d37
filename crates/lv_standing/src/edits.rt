//! Edits of a live vector with standing queries, and the notifications (*notes*) of each edit.
ghost use Rattle.std.specs.Prelude.{◌≡◌};
ghost use Rattle.lv_edits.specs.declared.edit.Edit.{Edit as AnEdit};
ghost use Rattle.lv_edits.specs.History.{History};
ghost use Rattle.lv_standing.specs.Inner.{AnswersNoted};
ghost use Rattle.lv_standing.specs.Standings.{IsStanding};

use crate::beside::{edit_beside, write_beside};
use crate::changes::changed_by;
use crate::notes::Note;
use crate::queries::Query;
use crate::query_set::QuerySet;
use crate::watches::{count_asked, tell};
use lv_bodies::Six;
use lv_edits::{Edit, Receipt};
use lv_geometry::Refusal;
use lv_live::Live;
use lv_tree::{KindSummary, Kinds};

/// Makes an edit, and appends the notes that are due to a list. Writes and pushes have functions of their own, so that the code for
/// other edits falls away there.
#[inline(always)]
pub fn edit_noted(
    live: &mut Live<Six>,
    kinds: &mut Kinds,
    set: &mut QuerySet<Query>,
    summaries: &mut Vec<KindSummary>,
    edit: Edit,
    notes: &mut Vec<Note>,
) -> Result<Receipt, Refusal>
    requires { IsStanding live.old set.old summaries.old.items kinds.old }
    ensures { AnswersNoted live.old live.new set.old set.new summaries.new.items kinds.old kinds.new notes.old.items notes.new.items edit result }
{
    match edit {
        Edit::Write { index, value } => {
            write_noted(live, kinds, set, summaries, index, value, notes)
        }
        Edit::Push(value) => push_noted(live, kinds, set, summaries, value, notes),
        _ => other_noted(live, kinds, set, summaries, edit, notes),
    }
}

// Overwrites an element. If no query has it, no note is due and no room for notes is made.
#[inline(always)]
fn write_noted(
    live: &mut Live<Six>,
    kinds: &mut Kinds,
    set: &mut QuerySet<Query>,
    summaries: &mut Vec<KindSummary>,
    index: u32,
    value: i64,
    notes: &mut Vec<Note>,
) -> Result<Receipt, Refusal>
    requires { IsStanding live.old set.old summaries.old.items kinds.old }
    ensures { AnswersNoted live.old live.new set.old set.new summaries.new.items kinds.old kinds.new notes.old.items notes.new.items (AnEdit.Write index value) result }
{
    let edit = Edit::Write { index, value };
    let changed = changed_by(&edit, live.size());
    if count_asked(set.queries(), changed) == 0 {
        return write_beside(live, kinds, index, value);
    }
    other_noted(live, kinds, set, summaries, edit, notes)
}

// Puts an element at the end.
#[inline(never)]
fn push_noted(
    live: &mut Live<Six>,
    kinds: &mut Kinds,
    set: &mut QuerySet<Query>,
    summaries: &mut Vec<KindSummary>,
    value: i64,
    notes: &mut Vec<Note>,
) -> Result<Receipt, Refusal>
    requires { IsStanding live.old set.old summaries.old.items kinds.old }
    ensures { AnswersNoted live.old live.new set.old set.new summaries.new.items kinds.old kinds.new notes.old.items notes.new.items (AnEdit.Push value) result }
{
    make_noted(live, kinds, set, summaries, Edit::Push(value), notes)
}

// Makes an edit that is neither a push nor a write, or a write of an element that a query has.
#[inline(never)]
fn other_noted(
    live: &mut Live<Six>,
    kinds: &mut Kinds,
    set: &mut QuerySet<Query>,
    summaries: &mut Vec<KindSummary>,
    edit: Edit,
    notes: &mut Vec<Note>,
) -> Result<Receipt, Refusal>
    requires { IsStanding live.old set.old summaries.old.items kinds.old }
    ensures { AnswersNoted live.old live.new set.old set.new summaries.new.items kinds.old kinds.new notes.old.items notes.new.items edit result }
{
    make_noted(live, kinds, set, summaries, edit, notes)
}

// Makes an edit of any sort, and appends its notes. The room for them is made before the edit.
// Inlined with all that it calls, so that only what the edit needs is left if the caller knows which sort of edit it is.
#[inline(always)]
fn make_noted(
    live: &mut Live<Six>,
    kinds: &mut Kinds,
    set: &mut QuerySet<Query>,
    summaries: &mut Vec<KindSummary>,
    edit: Edit,
    notes: &mut Vec<Note>,
) -> Result<Receipt, Refusal>
    ghost before: { History }
    requires history { live.old.history ≡ before }
    requires standing { IsStanding live.old set.old summaries.old.items kinds.old }
    ensures { AnswersNoted live.old live.new set.old set.new summaries.new.items kinds.old kinds.new notes.old.items notes.new.items edit result }
{
    if let Some(refusal) = live.verdict(&edit) {
        return Err(refusal);
    }
    let changed = changed_by(&edit, live.size());
    let Ok(()) = notes.reserve(count_asked(set.queries(), changed)) else {
        return Err(Refusal::NoMemory);
    };
    match edit_beside(live, kinds, edit) {
        Err(refusal) => Err(refusal),
        Ok(receipt) => {
            tell(live, kinds, set, summaries, changed, notes);
            Ok(receipt)
        }
    }
}
