//! What the sessions of a board have in common.
ghost use Rattle.std.specs.Prelude.{List, map};
ghost use Rattle.lv_machine.specs.Terms.{Terms};
ghost use Rattle.lv_board.specs.declared.remains.Closed.{Closed};
ghost use Rattle.lv_board.specs.declared.seats.Seat.{Seat};
ghost use Rattle.lv_board.specs.Closing.{IsClosed};
ghost use Rattle.lv_board.specs.PlainBoard.{IsOneHistory, sat_of};
ghost use Rattle.lv_board.specs.Tells.{actor_of};

use crate::bodies::BoardBody;

/// A board that was closed had one history. Each session knows an earlier state of it, with all updates of its own, and each update is one
/// session's.
pub fn a_board_has_one_history<B: BoardBody>()
    ensures { (t : Terms) (seats : List (Seat B)) (closed : Closed) → (c : IsClosed t seats closed) → IsOneHistory c.history (map (λ seat. sat_of (actor_of seat)) seats) }
{}
