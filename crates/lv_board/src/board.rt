//! The board: the words of one vector, with their table.
ghost use Rattle.std.specs.Prelude.{◌≡◌};
ghost use Rattle.lv_machine.specs.Layout.{count_of};
ghost use Rattle.lv_board.specs.Stands.{IsBasis};
ghost use Rattle.lv_board.specs.Rule.{limits_of};

use crate::actors::{Basis, View};
use crate::bodies::BoardBody;
use crate::rules::Reached;
use atomic_table::Table;
use std::alloc::Global;

/// The words of one vector, which its seats share. No call on it waits.
#[derive(Drop)]
pub struct Board<B: BoardBody> {
    pub(crate) terms: Basis<B>,
    pub(crate) table: Table<(), View<B>, Basis<B>, Reached<B>, Global>,
    ghost basis: { IsBasis terms },
    ghost key: { table.shared.key ≡ terms },
    ghost count: { table.shared.table_id.words ≡ count_of (limits_of terms) },
    ghost slots: { table.shared.table_id.slots ≡ 0 },
}
