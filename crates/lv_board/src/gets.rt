//! Reads of an element.
ghost use Rattle.std.specs.Prelude.{◌≡◌, ◌<◌, length, IfOk, IfErr};
ghost use Rattle.lv_geometry.specs.Cells.{capacity_of};
ghost use Rattle.lv_machine.specs.Words.{signed, value_of};
ghost use Rattle.lv_machine.specs.History.{cell_of};
ghost use Rattle.lv_board.specs.Calls.{GetAnswers, HasLooked};
ghost use Rattle.lv_board.specs.Tells.{IsQuiet, actor_of, IsAt, Stays};
ghost use Rattle.lv_board.specs.Moved.{GetMoves};
ghost use Rattle.lv_board.specs.Rule.{terms_of};
ghost use Rattle.lv_board.specs.Stands.{IsReady};
ghost use Rattle.lv_board.specs.Steps.{IsCellTaken};

use crate::board::Board;
use crate::bodies::BoardBody;
use crate::loads::load_cell;
use crate::seats::Seat;
use crate::words::{edit_in, size_in};
use lv_geometry::Refusal;
use lv_machine::Read;

impl<B: BoardBody> Board<B> {
    // The element in a cell, as the seat sees it, or the later update that has since written there.
    pub(crate) fn load_cell(&self, seat: &mut Seat<B>, i: u32) -> Result<i64, Refusal>
        requires here { IsAt self.now.table.shared.table_id self.now.terms seat.old }
        requires ready { IsReady (actor_of seat.old) seat.old.look }
        requires within { i < capacity_of self.now.terms.buckets }
        ensures { IsCellTaken (terms_of B.folding self.now.terms) i result seat.old seat.new }
    {
        load_cell(&self.table, seat, i)
    }

    /// The element at index `i`. Refused with `OutOfRange`, or with `Overtaken` if a later update has written there since the look. The seat is
    /// one of this board's.
    pub fn get(&self, seat: &mut Seat<B>, i: u32) -> Result<Read, Refusal>
        requires { IsAt self.now.table.shared.table_id self.now.terms seat.old }
        ensures stays { Stays seat.old seat.new }
        ensures looked { HasLooked (terms_of B.folding self.now.terms) (actor_of seat.old) (actor_of seat.new) }
        ensures answer { GetAnswers i (actor_of seat.new) result }
        ensures moves { GetMoves seat.old seat.new result }
    {
        self.load_descriptor(seat);
        let size = size_in(seat.look);
        if i >= size {
            return Err(Refusal::OutOfRange { size });
        }
        self.help(seat);
        let value = match self.load_cell(seat, i) {
            Err(refusal) => return Err(refusal),
            Ok(value) => value,
        };
        Ok(Read {
            edit: edit_in(seat.look),
            value,
        })
    }
}
