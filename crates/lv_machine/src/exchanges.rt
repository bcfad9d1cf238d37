//! The steps of an update: what it loads before, its compare-and-swap, and its receipt.
ghost use Rattle.std.specs.Prelude.{◌≡◌, ◌+◌, ◌<◌};
ghost use Rattle.lv_machine.specs.Calls.{edit_begun, exchanged, receipt_at, unless_later};
ghost use Rattle.lv_machine.specs.Words.{cell_version, signed, value_of};

use crate::looks::overtaken;
use crate::outcomes::Said;
use crate::packing::{edit_in, element, size_in, value_in, version_in};
use crate::tasks::{Advance, Task};
use lv_edits::{Edit, Receipt};
use lv_geometry::Refusal;

/// What an update does next. A pop and a write load the cell that they drop or overwrite.
pub fn begin_edit<S>(edit: Edit, look: u64) -> Task<S>
    ensures { result ≡ edit_begun look edit }
{
    match edit {
        Edit::Pop => Task::ReadBefore {
            edit,
            index: size_in(look).saturating_sub(1),
        },
        Edit::Write { index, .. } => Task::ReadBefore { edit, index },
        _ => Task::Exchange { edit, before: 0 },
    }
}

/// How a pop or a write proceeds after it loaded the old element.
pub fn after_before<S>(edit: Edit, look: u64, found: u64) -> Advance<S>
    requires { cell_version found < 16777216 }
    ensures { result ≡ unless_later look (cell_version found) (Advance.Goes (Task.Exchange edit (signed (value_of found)))) }
{
    if version_in(found) > u64::from(edit_in(look)) {
        return overtaken(version_in(found));
    }
    Advance::Goes(Task::Exchange {
        edit,
        before: element(value_in(found)),
    })
}

/// How an update proceeds after its compare-and-swap.
pub fn after_exchange<S>(edit: Edit, before: i64, look: u64, found: u64) -> Advance<S>
    ensures { result ≡ exchanged look edit before found }
{
    if found == look {
        Advance::Ends(Said::Did(receipt(edit, before, look)))
    } else {
        Advance::Ends(Said::Refused(Refusal::Contended {
            edit: edit_in(found),
        }))
    }
}

// The receipt of an accepted update.
fn receipt(edit: Edit, before: i64, look: u64) -> Receipt
    ensures { result ≡ receipt_at look edit before }
{
    let number = edit_in(look) + 1;
    match edit {
        Edit::Push(_) => Receipt::Pushed {
            edit: number,
            index: size_in(look),
        },
        Edit::Pop => Receipt::Popped {
            edit: number,
            value: before,
        },
        Edit::Write { .. } => Receipt::Written {
            edit: number,
            before,
        },
        Edit::Reserve(_) => Receipt::Reserved {
            edit: number,
            capacity: 0,
        },
        Edit::Swap { .. } => Receipt::Swapped {
            edit: number,
            first: before,
            second: before,
        },
        Edit::Truncate(_) => Receipt::Truncated {
            edit: number,
            dropped: 0,
        },
    }
}
