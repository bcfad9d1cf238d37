//! The compare-and-swap of the descriptor, which is the only atomic step that makes an update. It needs only the table of a board.
ghost use Rattle.std.specs.Prelude.{◌≡◌, None};
ghost use Rattle.lv_machine.specs.History.{IsShortEdit};
ghost use Rattle.lv_machine.specs.Layout.{count_of};
ghost use Rattle.lv_machine.specs.Moves.{verdict_at};
ghost use Rattle.lv_machine.specs.Words.{descriptor_after};
ghost use Rattle.lv_board.specs.Rule.{limits_of};
ghost use Rattle.lv_board.specs.Stands.{IsReady};
ghost use Rattle.lv_board.specs.Tells.{actor_of};
ghost use Rattle.lv_board.specs.Steps.{IsExchanged};

use crate::actors::{Basis, View};
use crate::bodies::BoardBody;
use crate::plays::Exchange;
use crate::rules::Reached;
use crate::seats::Seat;
use atomic_table::Table;
use lv_edits::Edit;
use std::alloc::Global;

// The compare-and-swap of the descriptor from the look to the descriptor after an update, at the seat's own table. Returns whether it succeeded.
// In both cases the look becomes the descriptor that is there afterwards.
pub(crate) fn exchange<B: BoardBody>(
    table: &Table<(), View<B>, Basis<B>, Reached<B>, Global>,
    seat: &mut Seat<B>,
    edit: Edit,
    new: u64,
) -> bool
    requires here { seat.old.token.table_id ≡ table.now.shared.table_id }
    requires key { table.now.shared.key ≡ seat.old.terms }
    requires count { table.now.shared.table_id.words ≡ count_of (limits_of seat.old.terms) }
    requires ready { IsReady (actor_of seat.old) seat.old.look }
    requires short { IsShortEdit edit }
    requires free { verdict_at (limits_of seat.old.terms) seat.old.look edit ≡ None }
    requires after { new ≡ descriptor_after seat.old.look edit }
    ensures { IsExchanged B.folding edit result seat.old seat.new }
{
    let old = seat.look;
    let found = table
        .shared
        .compare_exchange::<Exchange<B>>(&mut seat.token, 0, old, new);
    if found == old {
        seat.look = new;
        return true;
    }
    seat.look = found;
    false
}
