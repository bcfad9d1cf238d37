//! The fetch-max that installs a part of a block's aggregate. It needs only the table of a board.
ghost use Rattle.std.specs.Prelude.{◌≡◌, ◌<◌, ◌*◌, true};
ghost use Rattle.lv_edits.specs.Touch.{elements_under, is_whole};
ghost use Rattle.lv_geometry.specs.Cells.{capacity_of};
ghost use Rattle.lv_machine.specs.History.{edits_of};
ghost use Rattle.lv_machine.specs.Layout.{count_of, part_place};
ghost use Rattle.lv_machine.specs.Shows.{block, mark_of};
ghost use Rattle.lv_machine.specs.Words.{part_word};
ghost use Rattle.lv_board.specs.Rule.{terms_of, limits_of};
ghost use Rattle.lv_board.specs.Tells.{actor_of};
ghost use Rattle.lv_board.specs.Steps.{HasMovedPart, IsInstalled};

use crate::actors::{Basis, View};
use crate::bodies::BoardBody;
use crate::plays::Install;
use crate::rules::Reached;
use crate::seats::Seat;
use crate::words::part_place_of;
use atomic_table::Table;
use std::alloc::Global;

// Installs a part of the aggregate of a block that is full as the seat sees it, at the seat's own table.
pub(crate) fn install<B: BoardBody>(
    table: &Table<(), View<B>, Basis<B>, Reached<B>, Global>,
    seat: &mut Seat<B>,
    b: u32,
    part: u32,
    word: u64,
)
    requires here { seat.old.token.table_id ≡ table.now.shared.table_id }
    requires key { table.now.shared.key ≡ seat.old.terms }
    requires count { table.now.shared.table_id.words ≡ count_of (limits_of seat.old.terms) }
    requires within { 8 * b < capacity_of seat.old.terms.buckets }
    requires part { part < B.PARTS }
    requires whole { is_whole (edits_of (actor_of seat.old).seen) (block b) ≡ true }
    requires word { word ≡ part_word (mark_of b (actor_of seat.old).seen) ((terms_of B.folding seat.old.terms).folding.part part (elements_under (edits_of (actor_of seat.old).seen) (block b))) }
    ensures installed { IsInstalled (part_place b part) word seat.old seat.new }
    ensures moves { HasMovedPart b part word seat.old seat.new }
{
    table
        .shared
        .fetch_max::<Install>(&mut seat.token, part_place_of(b, part), word);
}
