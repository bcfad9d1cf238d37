//! Loads of a word by a seat, each one atomic step. They need only the table of a board.
ghost use Rattle.std.specs.Prelude.{◌≡◌, ◌<◌, ◌≤◌, true, false};
ghost use Rattle.lv_geometry.specs.Cells.{capacity_of};
ghost use Rattle.lv_machine.specs.Layout.{count_of};
ghost use Rattle.lv_machine.specs.Words.{edit_of};
ghost use Rattle.lv_board.specs.Rule.{terms_of, limits_of};
ghost use Rattle.lv_board.specs.Stands.{IsReady};
ghost use Rattle.lv_board.specs.Tells.{actor_of};
ghost use Rattle.lv_board.specs.Steps.{IsCellTaken, IsLoaded, IsWordLoaded};

use crate::actors::{Basis, View};
use crate::bodies::BoardBody;
use crate::plays::{LoadDescriptor, LoadWord};
use crate::rules::Reached;
use crate::seats::Seat;
use crate::words::{cell_place_of, edit_in, element, value_in, version_in};
use atomic_table::Table;
use lv_geometry::Refusal;
use std::alloc::Global;

// Loads the descriptor of the seat's own table, which becomes the look.
pub(crate) fn load_descriptor<B: BoardBody>(
    table: &Table<(), View<B>, Basis<B>, Reached<B>, Global>,
    seat: &mut Seat<B>,
)
    requires here { seat.old.token.table_id ≡ table.now.shared.table_id }
    requires key { table.now.shared.key ≡ seat.old.terms }
    requires count { table.now.shared.table_id.words ≡ count_of (limits_of seat.old.terms) }
    ensures { IsLoaded B.folding seat.old seat.new }
{
    seat.look = table.shared.load::<LoadDescriptor<B>>(&mut seat.token, 0);
}

// Loads another word of that table.
pub(crate) fn load_word<B: BoardBody>(
    table: &Table<(), View<B>, Basis<B>, Reached<B>, Global>,
    seat: &mut Seat<B>,
    at: usize,
) -> u64
    requires here { seat.old.token.table_id ≡ table.now.shared.table_id }
    requires key { table.now.shared.key ≡ seat.old.terms }
    requires count { table.now.shared.table_id.words ≡ count_of (limits_of seat.old.terms) }
    requires within { at < count_of (limits_of seat.old.terms) }
    ensures { IsWordLoaded B.folding at result seat.old seat.new }
{
    table.shared.load::<LoadWord<B>>(&mut seat.token, at)
}

// Whether a version is that of a later update than a look.
pub(crate) fn is_later(version: u64, look: u64) -> bool
    ensures later { result ≡ true → edit_of look < version }
    ensures other { result ≡ false → version ≤ edit_of look }
{
    version > u64::from(edit_in(look))
}

// The element in a cell, as the seat sees it, or the later update that has since written there.
pub(crate) fn load_cell<B: BoardBody>(
    table: &Table<(), View<B>, Basis<B>, Reached<B>, Global>,
    seat: &mut Seat<B>,
    i: u32,
) -> Result<i64, Refusal>
    requires here { seat.old.token.table_id ≡ table.now.shared.table_id }
    requires key { table.now.shared.key ≡ seat.old.terms }
    requires count { table.now.shared.table_id.words ≡ count_of (limits_of seat.old.terms) }
    requires ready { IsReady (actor_of seat.old) seat.old.look }
    requires within { i < capacity_of seat.old.terms.buckets }
    ensures { IsCellTaken (terms_of B.folding seat.old.terms) i result seat.old seat.new }
{
    let cell = load_word(table, seat, cell_place_of(i));
    let version = version_in(cell);
    if is_later(version, seat.look) {
        return Err(Refusal::Overtaken {
            edit: version as u32,
        });
    }
    Ok(element(value_in(cell)))
}
