//! Calls that only load the descriptor.
ghost use Rattle.std.specs.Prelude.{◌≡◌, length};
ghost use Rattle.lv_machine.specs.declared.moves.Move.{Move};
ghost use Rattle.lv_machine.specs.History.{elements_of};
ghost use Rattle.lv_board.specs.Calls.{HasLooked};
ghost use Rattle.lv_board.specs.Rule.{terms_of};
ghost use Rattle.lv_board.specs.Tells.{actor_of, HasMoved, IsAt, Stays};

use crate::board::Board;
use crate::bodies::BoardBody;
use crate::seats::Seat;
use crate::words::{edit_in, size_in};
use lv_machine::Sized;

/// What a look shows: the number of the last update, and the size after it.
#[derive(Clone, Copy, PartialEq, Eq)]
pub struct Look {
    pub edit: u32,
    pub size: u32,
}

impl<B: BoardBody> Board<B> {
    /// Looks at the descriptor: one load. The seat is one of this board's.
    pub fn look(&self, seat: &mut Seat<B>) -> Look
        requires { IsAt self.now.table.shared.table_id self.now.terms seat.old }
        ensures stays { Stays seat.old seat.new }
        ensures looked { HasLooked (terms_of B.folding self.now.terms) (actor_of seat.old) (actor_of seat.new) }
        ensures edit { result.edit ≡ length (actor_of seat.new).seen }
        ensures size { result.size ≡ length (elements_of (actor_of seat.new).seen) }
        ensures moves { HasMoved Move.Look seat.old seat.new }
    {
        self.load_descriptor(seat);
        Look {
            edit: edit_in(seat.look),
            size: size_in(seat.look),
        }
    }

    /// How many elements there are, and after which update: one load. The seat is one of this board's.
    pub fn size(&self, seat: &mut Seat<B>) -> Sized
        requires { IsAt self.now.table.shared.table_id self.now.terms seat.old }
        ensures stays { Stays seat.old seat.new }
        ensures looked { HasLooked (terms_of B.folding self.now.terms) (actor_of seat.old) (actor_of seat.new) }
        ensures edit { result.edit ≡ length (actor_of seat.new).seen }
        ensures size { result.size ≡ length (elements_of (actor_of seat.new).seen) }
        ensures moves { HasMoved Move.Look seat.old seat.new }
    {
        let Look { edit, size } = self.look(seat);
        Sized { edit, size }
    }
}
