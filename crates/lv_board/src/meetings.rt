//! How one seat passes on to another what it knows.
ghost use Rattle.std.specs.Prelude.{◌≡◌, [], length};
ghost use Rattle.lv_machine.specs.declared.moves.Move.TheVariants.{Look};
ghost use Rattle.lv_machine.specs.History.{Ends};
ghost use Rattle.lv_board.specs.Calls.{HasLooked};
ghost use Rattle.lv_board.specs.Rule.{terms_of};
ghost use Rattle.lv_board.specs.TableRule.{note};
ghost use Rattle.lv_board.specs.Tells.{actor_of, HasMoved, IsAt, IsSame, Stays};

use crate::actors::View;
use crate::board::Board;
use crate::bodies::BoardBody;
use crate::plays::{Inform, LoadDescriptor, Note};
use crate::seats::Seat;
use crate::words::edit_in;
use atomic_table::Seat as Token;

/// The numbers of the last updates at the looks of the two seats.
#[derive(Clone, Copy, PartialEq, Eq)]
pub struct Met {
    pub first: u32,
    pub second: u32,
}

impl<B: BoardBody> Board<B> {
    // A note of what a seat knows.
    fn tell(&self, seat: &mut Seat<B>) -> Token<(), View<B>>
        requires { IsAt self.now.table.shared.table_id self.now.terms seat.old }
        ensures same { IsSame seat.old seat.new }
        ensures table { result.table_id ≡ self.now.table.shared.table_id }
        ensures note { result.me ≡ (note seat.old.token.me.0, []) }
    {
        self.table.shared.split_seat::<Note>(&mut seat.token)
    }

    // Reads a note, and looks.
    fn hear(&self, seat: &mut Seat<B>, note: Token<(), View<B>>)
        requires here { IsAt self.now.table.shared.table_id self.now.terms seat.old }
        requires table { note.table_id ≡ self.now.table.shared.table_id }
        requires slots { note.me.1 ≡ [] }
        ensures stays { Stays seat.old seat.new }
        ensures looked { HasLooked (terms_of B.folding self.now.terms) (actor_of seat.old) (actor_of seat.new) }
        ensures told { Ends note.me.0.actor.known (actor_of seat.new).seen }
        ensures moves { HasMoved Look seat.old seat.new }
    {
        self.table.shared.join_seat::<Inform>(&mut seat.token, note);
        seat.look = self
            .table
            .shared
            .load::<LoadDescriptor<B>>(&mut seat.token, 0);
    }

    /// Both seats look, the second after it got from the first what that one knows. So what the first sees is an earlier state of what the second
    /// sees. Both are seats of this board.
    pub fn meet(&self, first: &mut Seat<B>, second: &mut Seat<B>) -> Met
        requires first { IsAt self.now.table.shared.table_id self.now.terms first.old }
        requires second { IsAt self.now.table.shared.table_id self.now.terms second.old }
        ensures first_stays { Stays first.old first.new }
        ensures second_stays { Stays second.old second.new }
        ensures first_looked { HasLooked (terms_of B.folding self.now.terms) (actor_of first.old) (actor_of first.new) }
        ensures second_looked { HasLooked (terms_of B.folding self.now.terms) (actor_of second.old) (actor_of second.new) }
        ensures told { Ends (actor_of first.new).seen (actor_of second.new).seen }
        ensures first_edit { result.first ≡ length (actor_of first.new).seen }
        ensures second_edit { result.second ≡ length (actor_of second.new).seen }
        ensures first_moves { HasMoved Look first.old first.new }
        ensures second_moves { HasMoved Look second.old second.new }
    {
        self.load_descriptor(first);
        let note = self.tell(first);
        self.hear(second, note);
        Met {
            first: edit_in(first.look),
            second: edit_in(second.look),
        }
    }
}
