//! Edits as plain numbers, for a caller who has no `Edit`.
ghost use Rattle.std.specs.Prelude.{◌≡◌, ◌++◌, ◌-◌, drop, length, map, min, take};
ghost use Rattle.lv_transcript.specs.FlatEdits.{flat_edit};

use lv_edits::Edit;

/// An edit as plain numbers, laid out as C does it. What it doesn't have is 0.
#[repr(C)]
#[derive(Clone, Copy, PartialEq, Eq)]
pub struct FlatEdit {
    /// 1 of a push, 2 of a pop, 3 of a write, 4 of a reserve, 5 of a swap, 6 of a truncate.
    pub what: u32,
    /// Of a write its index, of a swap the first index; of a reserve and of a truncate how many elements.
    pub index: u32,
    /// Of a swap the second index.
    pub second: u32,
    /// Of a push and of a write the element.
    pub value: i64,
}

/// An edit as plain numbers.
pub fn flat_edit(edit: Edit) -> FlatEdit
    ensures { result ≡ flat_edit edit }
{
    let (what, index, second, value) = match edit {
        Edit::Push(value) => (1, 0, 0, value),
        Edit::Pop => (2, 0, 0, 0),
        Edit::Write { index, value } => (3, index, 0, value),
        Edit::Reserve(elements) => (4, elements, 0, 0),
        Edit::Swap { first, second } => (5, first, second, 0),
        Edit::Truncate(elements) => (6, elements, 0, 0),
    };
    FlatEdit {
        what,
        index,
        second,
        value,
    }
}

/// Copies the updates of an operation log after the first `from` to the start of some places: as many as there are and fit. Returns how many
/// these are. The places after them keep what they have.
pub fn copy_edits(journal: &[Edit], from: usize, places: &mut [FlatEdit]) -> usize
    ensures count { result ≡ min (length places.old) (length journal.now - from) }
    ensures places { places.new ≡ map flat_edit (take result (drop from journal.now)) ++ drop result places.old }
{
    let (_, rest) = journal.split_at(from.min(journal.len()));
    let many = rest.len().min(places.len());
    lay_edits(&rest[..many], &mut places[..many]);
    many
}

// Puts edits into places, one into each.
fn lay_edits(edits: &[Edit], places: &mut [FlatEdit])
    requires { length places.old ≡ length edits.now }
    ensures { places.new ≡ map flat_edit edits.now }
{
    for k in 0..places.len() {
        places[k] = flat_edit(edits[k]);
    }
}
