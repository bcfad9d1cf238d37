//! Edits of a live vector that also bring the data up to date that is stored for it by kind.
ghost use Rattle.std.specs.Prelude.{◌≡◌, ◌≤◌, ℕ, ℤ, None, List, [], ◌∷◌, ◌++◌, length, IfErr, OnOk};
ghost use Rattle.lv_edits.specs.declared.edit.Edit.{Edit as AnEdit};
ghost use Rattle.lv_edits.specs.declared.receipt.Receipt.TheVariants.{Written};
ghost use Rattle.lv_edits.specs.Batches.{AnswersEdits, writes_at};
ghost use Rattle.lv_edits.specs.History.{History};
ghost use Rattle.lv_edits.specs.Kept.{IsLegalInLimits};
ghost use Rattle.lv_edits.specs.Pushes.{AnswersAll};
ghost use Rattle.lv_edits.specs.Verdict.{Accepts, Answers, verdict_of};
ghost use Rattle.lv_live.specs.State.{SameRefresh};
ghost use Rattle.lv_tree.specs.Kinds.{AreKept, AreReady, HaveRoomFor, KeepsAlike, LeavesAll};

use crate::changes::size_after;
use lv_bodies::Body;
use lv_edits::{Edit, Edits, Receipt};
use lv_geometry::Refusal;
use lv_live::Live;
use lv_tree::Kinds;

/// Makes an edit, and reports it to the kinds. A write is completed at once. If many edits have waited, the kinds follow them now.
/// Refused with the error of the vector's verdict, else with `NoMemory`. After an error nothing has changed.
pub fn apply_beside<B: Body>(
    live: &mut Live<B>,
    kinds: &mut Kinds,
    edit: Edit,
) -> Result<Receipt, Refusal>
    requires kept { AreReady kinds.old.table live.old.history.journal kinds.old }
    ensures answer { Answers live.old.history edit result live.new.history }
    ensures limits { IsLegalInLimits live.new.history }
    ensures refresh { SameRefresh live.old live.new }
    ensures kept { AreReady kinds.old.table live.new.history.journal kinds.new }
{
    live.keeps();
    if let Some(refusal) = live.verdict(&edit) {
        return Err(refusal);
    }
    let receipt = edit_beside(live, kinds, edit)?;
    kinds.follow_waiting(live.view().cells);
    Ok(receipt)
}

/// Makes an edit that the vector's verdict allows, and reports it to the kinds. A write is completed at once. Refused as `make_beside`
/// is.
#[inline(always)]
pub fn edit_beside<B: Body>(
    live: &mut Live<B>,
    kinds: &mut Kinds,
    edit: Edit,
) -> Result<Receipt, Refusal>
    requires verdict { verdict_of live.old.history.limits live.old.history.journal edit ≡ None }
    requires kept { AreReady kinds.old.table live.old.history.journal kinds.old }
    ensures answer { Answers live.old.history edit result live.new.history }
    ensures limits { IsLegalInLimits live.new.history }
    ensures refresh { SameRefresh live.old live.new }
    ensures kept { AreReady kinds.old.table live.new.history.journal kinds.new }
    ensures leaves { LeavesAll kinds.old kinds.new }
{
    match edit {
        Edit::Write { index, value } => write_beside(live, kinds, index, value),
        _ => make_beside(live, kinds, edit),
    }
}

/// Makes an edit that a vector's verdict allows, and reports it to the kinds. Its only error is `NoMemory`, after which nothing has
/// changed: the room for what may be stored is made before the edit.
// Inlined with all that it calls, so that only what the edit needs is left if the caller knows which sort of edit it is.
#[inline(always)]
pub fn make_beside<B: Body>(
    live: &mut Live<B>,
    kinds: &mut Kinds,
    edit: Edit,
) -> Result<Receipt, Refusal>
    requires verdict { verdict_of live.old.history.limits live.old.history.journal edit ≡ None }
    requires kept { AreReady kinds.old.table live.old.history.journal kinds.old }
    ensures answer { Answers live.old.history edit result live.new.history }
    ensures limits { IsLegalInLimits live.new.history }
    ensures refresh { SameRefresh live.old live.new }
    ensures kept { AreReady kinds.old.table live.new.history.journal kinds.new }
    ensures leaves { LeavesAll kinds.old kinds.new }
{
    live.keeps();
    let size = live.size();
    let Ok(()) = make_room(kinds, size, size_after(&edit, size)) else {
        return Err(Refusal::NoMemory);
    };
    let receipt = live.make(edit)?;
    follow_last(live.view().cells, kinds, &edit, &receipt);
    Ok(receipt)
}

// Reports the last edit of a vector to the kinds. The cells are only needed by the proof: they name the vector that the kinds follow.
#[inline(always)]
fn follow_last(_cells: &Edits, kinds: &mut Kinds, edit: &Edit, receipt: &Receipt)
    ghost before: { History }
    requires legal { IsLegalInLimits before }
    requires made { Accepts before edit.now receipt.now _cells.now }
    ensures kept { (table : List (List ℕ)) → AreKept table before.journal kinds.old → AreKept table (before.journal ++ edit.now ∷ []) kinds.new }
    ensures leaves { LeavesAll kinds.old kinds.new }
{
    kinds.follow_made(edit, receipt);
}

// Makes room for all that can be asked of `after` elements, if there are more of them than before.
#[inline(always)]
fn make_room(kinds: &mut Kinds, size: u32, after: u32) -> Result<(), Refusal>
    requires room { HaveRoomFor kinds.old size }
    requires few { after ≤ 1048568 }
    ensures alike { KeepsAlike kinds.old kinds.new }
    ensures ok { OnOk result (HaveRoomFor kinds.new after) }
    ensures err { IfErr result (λ refusal. refusal ≡ Refusal.NoMemory) }
{
    if after <= size {
        return Ok(());
    }
    kinds.make_room(after)
}

/// Overwrites the element at an index, completes the write at once, and reports it to the kinds. Refused with the error of the vector's
/// verdict, else with `NoMemory`. After an error nothing has changed. Only the journal may need room.
#[inline(always)]
pub fn write_beside<B: Body>(
    live: &mut Live<B>,
    kinds: &mut Kinds,
    index: u32,
    value: i64,
) -> Result<Receipt, Refusal>
    requires kept { AreReady kinds.old.table live.old.history.journal kinds.old }
    ensures answer { Answers live.old.history (AnEdit.Write index value) result live.new.history }
    ensures limits { IsLegalInLimits live.new.history }
    ensures refresh { SameRefresh live.old live.new }
    ensures kept { AreReady kinds.old.table live.new.history.journal kinds.new }
    ensures leaves { LeavesAll kinds.old kinds.new }
{
    live.keeps();
    match live.write_through(index, value) {
        Err(refusal) => Err(refusal),
        Ok(receipt) => {
            let Overwritten { before, after } = change_of(&receipt, value);
            kinds.follow_write(index, before, after);
            Ok(receipt)
        }
    }
}

// The element at an index before a write, and the one after it.
struct Overwritten {
    before: i64,
    after: i64,
}

// The elements before and after a write of a value, by its receipt.
#[inline(always)]
fn change_of(receipt: &Receipt, value: i64) -> Overwritten
    ensures before { (edit : ℕ) (x : ℤ) → receipt.now ≡ Written edit x → result.before ≡ x }
    ensures after { result.after ≡ value }
{
    Overwritten {
        before: element_before(receipt),
        after: value,
    }
}

// The element that a write replaced, by its receipt.
#[inline(always)]
fn element_before(receipt: &Receipt) -> i64
    ensures { (edit : ℕ) (x : ℤ) → receipt.now ≡ Written edit x → result ≡ x }
{
    match receipt {
        Receipt::Written { before, .. } => *before,
        _ => 0,
    }
}

/// Pushes values, all of them or none; what is stored by kind stays right. Refused with the error of the first push that would be
/// rejected, else with `NoMemory`. After an error nothing has changed: the room for what the kinds may store is made before the pushes.
pub fn push_all_beside<B: Body>(
    live: &mut Live<B>,
    kinds: &mut Kinds,
    values: &[i64],
) -> Result<u32, Refusal>
    requires kept { AreReady kinds.old.table live.old.history.journal kinds.old }
    ensures answer { AnswersAll live.old.history values.now result live.new.history }
    ensures limits { IsLegalInLimits live.new.history }
    ensures refresh { SameRefresh live.old live.new }
    ensures kept { AreReady kinds.old.table live.new.history.journal kinds.new }
    ensures leaves { LeavesAll kinds.old kinds.new }
{
    live.keeps();
    if let Some(refusal) = live.verdict_of_pushes(values) {
        return Err(refusal);
    }
    let first = live.size();
    let count = values.len() as u32;
    match kinds.make_room(first + count) {
        Err(refusal) => Err(refusal),
        Ok(()) => match live.push_all(values) {
            Err(refusal) => Err(refusal),
            Ok(edit) => {
                kinds.forget_sum();
                Ok(edit)
            }
        },
    }
}

/// Writes values at indices, all of them or none; what is stored by kind stays right. Refused with the error of the first write that
/// would be rejected, else with `NoMemory`. After an error nothing has changed.
pub fn write_all_beside<B: Body>(
    live: &mut Live<B>,
    kinds: &mut Kinds,
    indices: &[u32],
    values: &[i64],
) -> Result<u32, Refusal>
    requires paired { length indices.now ≡ length values.now }
    requires kept { AreReady kinds.old.table live.old.history.journal kinds.old }
    ensures answer { AnswersEdits live.old.history (writes_at indices.now values.now) result live.new.history }
    ensures limits { IsLegalInLimits live.new.history }
    ensures refresh { SameRefresh live.old live.new }
    ensures kept { AreReady kinds.old.table live.new.history.journal kinds.new }
    ensures leaves { LeavesAll kinds.old kinds.new }
{
    live.keeps();
    match live.write_all(indices, values) {
        Err(refusal) => Err(refusal),
        Ok(edit) => {
            kinds.forget_sum();
            Ok(edit)
        }
    }
}
