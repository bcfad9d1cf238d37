//! How an edit that the verdict allows is made: the room for it first, then the change.
ghost use Rattle.std.specs.Prelude.{◌≡◌, ℕ, ◌+◌, ◌<◌, ◌≤◌, max, None, [], ◌∷◌, ◌++◌, OnOk, OnErr, IfErr};
ghost use Rattle.lv_geometry.specs.Cells.{AreFewest, capacity_of};
ghost use Rattle.lv_store.specs.Inner.{IsStore};
ghost use Rattle.lv_store.specs.State.{AreAlike};
ghost use Rattle.lv_edits.specs.Inner.{HoldsReplay, history_of, write_at_second, noted, room};
ghost use Rattle.lv_edits.specs.Verdict.{Answers, verdict_of};

use crate::edit::Edit;
use crate::journal::Journal;
use crate::receipt::Receipt;
use lv_geometry::{Refusal, capacity};
use lv_store::Store;

/// Makes an edit that the verdict allows, so that its only error is `NoMemory`. The room in the journal, then the bucket, is
/// made before anything changes.
// Inlined, so that only one arm is left if the caller knows the edit's kind, and pushes and writes make no call.
#[inline(always)]
pub fn make_edit(store: &mut Store, journal: &mut Journal, edit: Edit) -> Result<Receipt, Refusal>
    requires held { HoldsReplay store.old (noted journal.old) }
    requires free { verdict_of store.old.limits (noted journal.old) edit ≡ None }
    ensures answer { Answers (history_of store.old (noted journal.old)) edit result (history_of store.new (noted journal.new)) }
    ensures held { HoldsReplay store.new (noted journal.new) }
{
    match edit {
        Edit::Push(x) => make_push(store, journal, x),
        Edit::Pop => make_pop(store, journal),
        Edit::Write { index, value } => make_write(store, journal, index, value),
        Edit::Reserve(cells) => make_reserve(store, journal, cells),
        Edit::Swap { first, second } => make_swap(store, journal, first, second),
        Edit::Truncate(count) => make_truncate(store, journal, count),
    }
}

// Makes a push that the verdict allows.
#[inline(always)]
fn make_push(store: &mut Store, journal: &mut Journal, x: i64) -> Result<Receipt, Refusal>
    requires held { HoldsReplay store.old (noted journal.old) }
    requires free { verdict_of store.old.limits (noted journal.old) (Edit.Push x) ≡ None }
    ensures answer { Answers (history_of store.old (noted journal.old)) (Edit.Push x) result (history_of store.new (noted journal.new)) }
    ensures held { HoldsReplay store.new (noted journal.new) }
{
    let index = store.size();
    make_room(store, journal, 1, index + 1)?;
    store.announce(Some((index, x)), None, index + 1);
    journal.note(Edit::Push(x));
    Ok(Receipt::Pushed {
        edit: store.edit(),
        index,
    })
}

// Makes a pop that the verdict allows.
fn make_pop(store: &mut Store, journal: &mut Journal) -> Result<Receipt, Refusal>
    requires held { HoldsReplay store.old (noted journal.old) }
    requires free { verdict_of store.old.limits (noted journal.old) Edit.Pop ≡ None }
    ensures answer { Answers (history_of store.old (noted journal.old)) Edit.Pop result (history_of store.new (noted journal.new)) }
    ensures held { HoldsReplay store.new (noted journal.new) }
{
    let last = store.size() - 1;
    let value = store.read(last);
    make_room(store, journal, 1, 0)?;
    store.announce(None, None, last);
    journal.note(Edit::Pop);
    Ok(Receipt::Popped {
        edit: store.edit(),
        value,
    })
}

// Makes a write that the verdict allows.
#[inline(always)]
fn make_write(
    store: &mut Store,
    journal: &mut Journal,
    index: u32,
    value: i64,
) -> Result<Receipt, Refusal>
    requires held { HoldsReplay store.old (noted journal.old) }
    requires free { verdict_of store.old.limits (noted journal.old) (Edit.Write index value) ≡ None }
    ensures answer { Answers (history_of store.old (noted journal.old)) (Edit.Write index value) result (history_of store.new (noted journal.new)) }
    ensures held { HoldsReplay store.new (noted journal.new) }
{
    let before = store.read(index);
    make_room(store, journal, 1, 0)?;
    let size = store.size();
    store.announce(Some((index, value)), None, size);
    journal.note(Edit::Write { index, value });
    Ok(Receipt::Written {
        edit: store.edit(),
        before,
    })
}

// Makes a reserve that the verdict allows.
fn make_reserve(store: &mut Store, journal: &mut Journal, cells: u32) -> Result<Receipt, Refusal>
    requires held { HoldsReplay store.old (noted journal.old) }
    requires free { verdict_of store.old.limits (noted journal.old) (Edit.Reserve cells) ≡ None }
    ensures answer { Answers (history_of store.old (noted journal.old)) (Edit.Reserve cells) result (history_of store.new (noted journal.new)) }
    ensures held { HoldsReplay store.new (noted journal.new) }
{
    make_room(store, journal, 1, cells)?;
    let size = store.size();
    store.announce(None, None, size);
    journal.note(Edit::Reserve(cells));
    Ok(Receipt::Reserved {
        edit: store.edit(),
        capacity: capacity(store.buckets()),
    })
}

// Makes a swap that the verdict allows.
fn make_swap(
    store: &mut Store,
    journal: &mut Journal,
    first: u32,
    second: u32,
) -> Result<Receipt, Refusal>
    requires held { HoldsReplay store.old (noted journal.old) }
    requires free { verdict_of store.old.limits (noted journal.old) (Edit.Swap first second) ≡ None }
    ensures answer { Answers (history_of store.old (noted journal.old)) (Edit.Swap first second) result (history_of store.new (noted journal.new)) }
    ensures held { HoldsReplay store.new (noted journal.new) }
{
    let before = store.read(first);
    let after = store.read(second);
    make_room(store, journal, 1, 0)?;
    let other = write_at_second(first, second, before);
    let size = store.size();
    store.announce(Some((first, after)), other, size);
    journal.note(Edit::Swap { first, second });
    Ok(Receipt::Swapped {
        edit: store.edit(),
        first: after,
        second: before,
    })
}

// Makes a truncate that the verdict allows.
fn make_truncate(store: &mut Store, journal: &mut Journal, count: u32) -> Result<Receipt, Refusal>
    requires held { HoldsReplay store.old (noted journal.old) }
    requires free { verdict_of store.old.limits (noted journal.old) (Edit.Truncate count) ≡ None }
    ensures answer { Answers (history_of store.old (noted journal.old)) (Edit.Truncate count) result (history_of store.new (noted journal.new)) }
    ensures held { HoldsReplay store.new (noted journal.new) }
{
    let size = store.size();
    make_room(store, journal, 1, 0)?;
    store.announce(None, None, count);
    journal.note(Edit::Truncate(count));
    Ok(Receipt::Truncated {
        edit: store.edit(),
        dropped: size - count,
    })
}

/// Completes the pending write, then makes room in the journal for `edits` more edits, then opens buckets until there are `cells`
/// cells. Changes no element.
#[inline(always)]
pub fn make_room(
    store: &mut Store,
    journal: &mut Journal,
    edits: usize,
    cells: u32,
) -> Result<(), Refusal>
    requires few { cells ≤ capacity_of store.old.limits.buckets }
    requires sound { IsStore store.old }
    ensures alike { AreAlike store.old store.new }
    ensures settled { store.new.descriptor.pending ≡ None }
    ensures sound { IsStore store.new }
    ensures buckets { OnOk result ((k : ℕ) → AreFewest cells k → store.new.buckets ≡ max store.old.buckets k) }
    ensures enough { OnOk result (cells ≤ capacity_of store.new.buckets) }
    ensures closed { OnErr result (store.new.buckets ≡ store.old.buckets) }
    ensures journal { noted journal.new ≡ noted journal.old }
    ensures edits { OnOk result (edits ≤ room journal.new) }
    ensures err { IfErr result (λ refusal. refusal ≡ Refusal.NoMemory) }
{
    store.settle();
    if journal.reserve(edits).is_err() {
        return Err(Refusal::NoMemory);
    }
    if cells <= capacity(store.buckets()) {
        return Ok(());
    }
    store.open_to(cells)
}

// The write of a swap at its second index, if that differs from the first: it writes the element that was at the first.
fn write_at_second(first: u32, second: u32, before: i64) -> Option<(u32, i64)>
    ensures { result ≡ write_at_second first second before }
{
    if first == second {
        None
    } else {
        Some((second, before))
    }
}
