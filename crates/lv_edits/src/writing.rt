//! Writes in bulk, and single writes that are completed at once.
ghost use Rattle.std.specs.Prelude.{◌≡◌, ◌+◌, ◌<◌, ◌≤◌, None, length};
ghost use Rattle.lv_edits.specs.declared.edit.Edit.{Edit as AnEdit};
ghost use Rattle.lv_edits.specs.Batches.{AnswersEdits, verdict_of_edits, with_edits, writes_at};
ghost use Rattle.lv_edits.specs.History.{with_edit};
ghost use Rattle.lv_edits.specs.Inner.{HoldsReplay, history_of, noted, room};
ghost use Rattle.lv_store.specs.Inner.{IsStore};
ghost use Rattle.lv_store.specs.State.{settled};
ghost use Rattle.lv_edits.specs.Verdict.{Answers, verdict_of};

use crate::edit::Edit;
use crate::journal::Journal;
use crate::making::make_room;
use crate::receipt::Receipt;
use lv_geometry::Refusal;
use lv_store::Store;

/// Makes writes that the verdict allows, so that the only error is `NoMemory`. The room in the journal is made before anything
/// changes.
pub fn make_writes(
    store: &mut Store,
    journal: &mut Journal,
    indices: &[u32],
    values: &[i64],
) -> Result<u32, Refusal>
    requires held { HoldsReplay store.old (noted journal.old) }
    requires paired { length indices.now ≡ length values.now }
    requires free { verdict_of_edits (history_of store.old (noted journal.old)) (writes_at indices.now values.now) ≡ None }
    ensures answer { AnswersEdits (history_of store.old (noted journal.old)) (writes_at indices.now values.now) result (history_of store.new (noted journal.new)) }
    ensures held { HoldsReplay store.new (noted journal.new) }
{
    make_room(store, journal, indices.len(), 0)?;
    write_each(store, journal, indices, values);
    Ok(store.edit())
}

// Makes writes that the verdict allows, one after another. The journal has room for them.
fn write_each(store: &mut Store, journal: &mut Journal, indices: &[u32], values: &[i64])
    requires held { HoldsReplay store.old (noted journal.old) }
    requires paired { length indices.now ≡ length values.now }
    requires free { verdict_of_edits (history_of store.old (noted journal.old)) (writes_at indices.now values.now) ≡ None }
    requires room { length indices.now ≤ room journal.old }
    ensures made { history_of store.new (noted journal.new) ≡ with_edits (history_of store.old (noted journal.old)) (writes_at indices.now values.now) }
    ensures held { HoldsReplay store.new (noted journal.new) }
{
    for place in 0..indices.len() {
        write_next(store, journal, indices[place], values[place]);
    }
}

// Makes a write that the verdict allows. The journal has room for it.
#[inline(always)]
fn write_next(store: &mut Store, journal: &mut Journal, index: u32, value: i64)
    requires held { HoldsReplay store.old (noted journal.old) }
    requires free { verdict_of store.old.limits (noted journal.old) (AnEdit.Write index value) ≡ None }
    requires room { 0 < room journal.old }
    ensures made { history_of store.new (noted journal.new) ≡ with_edit (history_of store.old (noted journal.old)) (AnEdit.Write index value) }
    ensures room { room journal.new + 1 ≡ room journal.old }
    ensures held { HoldsReplay store.new (noted journal.new) }
{
    store.settle();
    let size = store.size();
    store.announce(Some((index, value)), None, size);
    journal.note(Edit::Write { index, value });
}

/// Makes a write that the verdict allows, and completes it at once. Its only error is `NoMemory`. The room in the journal is made
/// before anything changes.
#[inline(always)]
pub fn make_write_through(
    store: &mut Store,
    journal: &mut Journal,
    index: u32,
    value: i64,
) -> Result<Receipt, Refusal>
    requires held { HoldsReplay store.old (noted journal.old) }
    requires free { verdict_of store.old.limits (noted journal.old) (AnEdit.Write index value) ≡ None }
    ensures answer { Answers (history_of store.old (noted journal.old)) (AnEdit.Write index value) result (history_of store.new (noted journal.new)) }
    ensures held { HoldsReplay store.new (noted journal.new) }
{
    if journal.reserve(1).is_err() {
        return Err(Refusal::NoMemory);
    }
    settle_first(store);
    let before = store.write_through(index, value);
    journal.note(Edit::Write { index, value });
    Ok(Receipt::Written {
        edit: store.edit(),
        before,
    })
}

// Completes a write that is pending, if one is.
#[inline(always)]
fn settle_first(store: &mut Store)
    requires { IsStore store.old }
    ensures state { store.new ≡ settled store.old }
    ensures sound { IsStore store.new }
{
    if store.is_pending() {
        settle_apart(store);
    }
}

// A function of its own, never inlined, since it is rarely called: if every write completes itself, none is ever pending.
#[inline(never)]
fn settle_apart(store: &mut Store)
    ensures state { store.new ≡ settled store.old }
    ensures sound { IsStore store.new }
{
    store.settle();
}
