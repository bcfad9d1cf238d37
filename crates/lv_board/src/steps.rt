//! The atomic steps of a seat, each on one word. `exchanges`, `installs` and `loads` have those that need only a table.
ghost use Rattle.std.specs.Prelude.{◌<◌};
ghost use Rattle.lv_machine.specs.Layout.{count_of};
ghost use Rattle.lv_machine.specs.Words.{HasPending};
ghost use Rattle.lv_board.specs.Rule.{limits_of};
ghost use Rattle.lv_board.specs.Tells.{IsAt};
ghost use Rattle.lv_board.specs.Steps.{IsCellHelped, IsHelped, IsLoaded, IsMarkHelped, IsWordLoaded};

use crate::board::Board;
use crate::bodies::BoardBody;
use crate::loads::{load_descriptor, load_word};
use crate::plays::{HelpCell, HelpMark};
use crate::seats::Seat;
use crate::words::{cell_place_of, edit_in, index_in, mark_place_of, pack_cell, value_in};

impl<B: BoardBody> Board<B> {
    // Loads the descriptor, which becomes the seat's look.
    pub(crate) fn load_descriptor(&self, seat: &mut Seat<B>)
        requires { IsAt self.now.table.shared.table_id self.now.terms seat.old }
        ensures { IsLoaded B.folding seat.old seat.new }
    {
        load_descriptor(&self.table, seat);
    }

    // Loads another word.
    pub(crate) fn load_word(&self, seat: &mut Seat<B>, at: usize) -> u64
        requires here { IsAt self.now.table.shared.table_id self.now.terms seat.old }
        requires within { at < count_of (limits_of self.now.terms) }
        ensures { IsWordLoaded B.folding at result seat.old seat.new }
    {
        load_word(&self.table, seat, at)
    }

    // Completes the cell of the look's pending write.
    fn help_cell(&self, seat: &mut Seat<B>)
        requires here { IsAt self.now.table.shared.table_id self.now.terms seat.old }
        requires pending { HasPending seat.old.look }
        ensures { IsCellHelped seat.old seat.new }
    {
        let word = pack_cell(edit_in(seat.look), value_in(seat.look));
        let at = cell_place_of(index_in(seat.look));
        self.table
            .shared
            .fetch_max::<HelpCell>(&mut seat.token, at, word);
    }

    // Completes the mark of the block of that cell.
    fn help_mark(&self, seat: &mut Seat<B>)
        requires here { IsAt self.now.table.shared.table_id self.now.terms seat.old }
        requires pending { HasPending seat.old.look }
        ensures { IsMarkHelped seat.old seat.new }
    {
        let word = u64::from(edit_in(seat.look));
        let at = mark_place_of(index_in(seat.look) / 8);
        self.table
            .shared
            .fetch_max::<HelpMark>(&mut seat.token, at, word);
    }

    // Completes the look's pending write, if there is one.
    pub(crate) fn help(&self, seat: &mut Seat<B>)
        requires { IsAt self.now.table.shared.table_id self.now.terms seat.old }
        ensures { IsHelped seat.old seat.new }
    {
        if index_in(seat.look) < 4088 {
            self.help_cell(seat);
            self.help_mark(seat);
        }
    }
}
