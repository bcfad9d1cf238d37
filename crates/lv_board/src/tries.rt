//! Tries of an update. Each makes at most one compare-and-swap.
ghost use Rattle.std.specs.Prelude.{◌≡◌, ◌∷◌, ◌<◌, ◌≤◌, ◌-◌, ℕ, length, None, Err, IfOk, IfErr};
ghost use Rattle.lv_geometry.specs.declared.refusals.Refusal.{Refusal};
ghost use Rattle.lv_bodies.specs.Parts.{IsShort};
ghost use Rattle.lv_machine.specs.declared.moves.Move.{Move};
ghost use Rattle.lv_machine.specs.History.{elements_of, IsShortEdit};
ghost use Rattle.lv_machine.specs.Moves.{verdict_at};
ghost use Rattle.lv_machine.specs.Ready.{IsIndexShort};
ghost use Rattle.lv_board.specs.Calls.{LookedAnswers, TryAnswers};
ghost use Rattle.lv_board.specs.Steps.{TakeAnswers, entry_of};
ghost use Rattle.lv_board.specs.Plays.{IsAccepted, IsContended};
ghost use Rattle.lv_board.specs.Rule.{terms_of, limits_of};
ghost use Rattle.lv_board.specs.Stands.{IsReady};
ghost use Rattle.lv_board.specs.Moved.{HasMovedBy, IsTry, edit_moves, exchanging, help_of, refusal_in};
ghost use Rattle.lv_board.specs.Tells.{actor_of, HasMoved, IsAt, IsSame, Stays};

use crate::board::Board;
use crate::bodies::BoardBody;
use crate::exchanges::exchange;
use crate::seats::Seat;
use crate::verdicts::verdict;
use crate::words::{edit_in, fits_short, look_after, size_in};
use lv_edits::{Edit, Receipt};
use lv_geometry::Refusal;

impl<B: BoardBody> Board<B> {
    // The compare-and-swap for an update that nothing refuses at the look, whose pending write is complete. Returns the update's number.
    fn exchange_for(&self, seat: &mut Seat<B>, edit: Edit) -> Result<u32, Refusal>
        requires here { IsAt self.now.table.shared.table_id self.now.terms seat.old }
        requires ready { IsReady (actor_of seat.old) seat.old.look }
        requires short { IsShortEdit edit }
        requires index { IsIndexShort edit }
        requires free { verdict_at (limits_of self.now.terms) seat.old.look edit ≡ None }
        ensures stays { Stays seat.old seat.new }
        ensures number { IfOk result (λ n. n ≡ length (actor_of seat.new).seen) }
        ensures accepted { IfOk result (λ n. IsAccepted (terms_of B.folding seat.old.terms) (actor_of seat.old) (actor_of seat.new) (entry_of seat.old edit)) }
        ensures refusal { IfErr result (λ e. e ≡ Refusal.Contended (length (actor_of seat.new).seen)) }
        ensures contended { IfErr result (λ e. IsContended (terms_of B.folding seat.old.terms) (actor_of seat.old) (actor_of seat.new) seat.new.look) }
        ensures moves { HasMoved (λ a. Move.Exchange a edit) seat.old seat.new }
    {
        let new = look_after(seat.look, edit);
        if exchange(&self.table, seat, edit, new) {
            Ok(edit_in(seat.look))
        } else {
            Err(Refusal::Contended {
                edit: edit_in(seat.look),
            })
        }
    }

    // Appends an element of 16 bits, from the look that the seat has.
    fn push_short(&self, seat: &mut Seat<B>, x: i64) -> Result<Receipt, Refusal>
        requires here { IsAt self.now.table.shared.table_id self.now.terms seat.old }
        requires short { IsShort x }
        ensures stays { Stays seat.old seat.new }
        ensures answer { LookedAnswers (terms_of B.folding self.now.terms) (actor_of seat.old) (actor_of seat.new) (Edit.Push x) result }
        ensures moves { HasMovedBy (edit_moves (terms_of B.folding self.now.terms) (actor_of seat.old) (Edit.Push x) result) seat.old seat.new }
    {
        let edit = Edit::Push(x);
        if let Some(refusal) = verdict(&self.terms, seat.look, edit) {
            return Err(refusal);
        }
        self.help(seat);
        let index = size_in(seat.look);
        match self.exchange_for(seat, edit) {
            Err(refusal) => Err(refusal),
            Ok(edit) => Ok(Receipt::Pushed { edit, index }),
        }
    }

    /// Appends `x`, if no update came since the seat looked. Refused with `TooWide`, `Worn`, `Full`, or with `Contended` if an update came first,
    /// in which case the seat has looked again. The seat is one of this board's.
    pub fn push_looked(&self, seat: &mut Seat<B>, x: i64) -> Result<Receipt, Refusal>
        requires { IsAt self.now.table.shared.table_id self.now.terms seat.old }
        ensures stays { Stays seat.old seat.new }
        ensures short { IsShort x → LookedAnswers (terms_of B.folding self.now.terms) (actor_of seat.old) (actor_of seat.new) (Edit.Push x) result }
        ensures moves { IsShort x → HasMovedBy (edit_moves (terms_of B.folding self.now.terms) (actor_of seat.old) (Edit.Push x) result) seat.old seat.new }
        ensures wide { ¬ IsShort x → (result ≡ Err Refusal.TooWide) × IsSame seat.old seat.new }
    {
        if !fits_short(x) {
            return Err(Refusal::TooWide);
        }
        self.push_short(seat, x)
    }

    /// Looks, and appends `x`. Refused with `TooWide`, `Worn`, `Full`, or with `Contended` if another update came in between. The seat is one of
    /// this board's.
    pub fn try_push(&self, seat: &mut Seat<B>, x: i64) -> Result<Receipt, Refusal>
        requires { IsAt self.now.table.shared.table_id self.now.terms seat.old }
        ensures stays { Stays seat.old seat.new }
        ensures short { IsShort x → TryAnswers (terms_of B.folding self.now.terms) (actor_of seat.old) (actor_of seat.new) (Edit.Push x) result }
        ensures moves { IsShort x → IsTry (terms_of B.folding self.now.terms) (Edit.Push x) result seat.old seat.new }
        ensures wide { ¬ IsShort x → (result ≡ Err Refusal.TooWide) × IsSame seat.old seat.new }
    {
        if !fits_short(x) {
            return Err(Refusal::TooWide);
        }
        self.look(seat);
        self.push_short(seat, x)
    }

    // Replaces or drops the element at an index that the update names, and returns it and the update's number.
    fn take_for(&self, seat: &mut Seat<B>, edit: Edit, i: u32) -> Result<(u32, i64), Refusal>
        requires here { IsAt self.now.table.shared.table_id self.now.terms seat.old }
        requires short { IsShortEdit edit }
        requires index { IsIndexShort edit }
        requires free { verdict_at (limits_of self.now.terms) seat.old.look edit ≡ None }
        requires within { i < length (elements_of (actor_of seat.old).seen) }
        ensures stays { Stays seat.old seat.new }
        ensures answer { TakeAnswers (terms_of B.folding self.now.terms) (actor_of seat.old) (actor_of seat.new) edit i result }
        ensures moves { HasMovedBy (exchanging (actor_of seat.old).number edit (Move.Read (actor_of seat.old).number ∷ help_of (actor_of seat.old).number (actor_of seat.old).seen) (refusal_in result)) seat.old seat.new }
    {
        self.help(seat);
        let value = match self.load_cell(seat, i) {
            Err(refusal) => return Err(refusal),
            Ok(value) => value,
        };
        match self.exchange_for(seat, edit) {
            Err(refusal) => Err(refusal),
            Ok(number) => Ok((number, value)),
        }
    }

    /// Drops the last element, if no update came since the seat looked. Refused with `Worn`, `Empty`, with `Overtaken` if its cell has a later
    /// update, or with `Contended` if an update came first, in which case the seat has looked again. The seat is one of this board's.
    pub fn pop_looked(&self, seat: &mut Seat<B>) -> Result<Receipt, Refusal>
        requires { IsAt self.now.table.shared.table_id self.now.terms seat.old }
        ensures stays { Stays seat.old seat.new }
        ensures answer { LookedAnswers (terms_of B.folding self.now.terms) (actor_of seat.old) (actor_of seat.new) Edit.Pop result }
        ensures moves { HasMovedBy (edit_moves (terms_of B.folding self.now.terms) (actor_of seat.old) Edit.Pop result) seat.old seat.new }
    {
        if let Some(refusal) = verdict(&self.terms, seat.look, Edit::Pop) {
            return Err(refusal);
        }
        let last = size_in(seat.look) - 1;
        match self.take_for(seat, Edit::Pop, last) {
            Err(refusal) => Err(refusal),
            Ok((edit, value)) => Ok(Receipt::Popped { edit, value }),
        }
    }

    /// Looks, and drops the last element. Refused with `Worn`, `Empty`, with `Overtaken` if its cell has a later update, or with `Contended` if
    /// another update came in between. The seat is one of this board's.
    pub fn try_pop(&self, seat: &mut Seat<B>) -> Result<Receipt, Refusal>
        requires { IsAt self.now.table.shared.table_id self.now.terms seat.old }
        ensures stays { Stays seat.old seat.new }
        ensures answer { TryAnswers (terms_of B.folding self.now.terms) (actor_of seat.old) (actor_of seat.new) Edit.Pop result }
        ensures moves { IsTry (terms_of B.folding self.now.terms) Edit.Pop result seat.old seat.new }
    {
        self.look(seat);
        self.pop_looked(seat)
    }

    // Overwrites the element at an index by one of 16 bits, from the look that the seat has.
    fn write_short(&self, seat: &mut Seat<B>, index: u32, value: i64) -> Result<Receipt, Refusal>
        requires here { IsAt self.now.table.shared.table_id self.now.terms seat.old }
        requires short { IsShort value }
        ensures stays { Stays seat.old seat.new }
        ensures answer { LookedAnswers (terms_of B.folding self.now.terms) (actor_of seat.old) (actor_of seat.new) (Edit.Write index value) result }
        ensures moves { HasMovedBy (edit_moves (terms_of B.folding self.now.terms) (actor_of seat.old) (Edit.Write index value) result) seat.old seat.new }
    {
        let edit = Edit::Write { index, value };
        if let Some(refusal) = verdict(&self.terms, seat.look, edit) {
            return Err(refusal);
        }
        match self.take_for(seat, edit, index) {
            Err(refusal) => Err(refusal),
            Ok((edit, before)) => Ok(Receipt::Written { edit, before }),
        }
    }

    /// Overwrites the element at `index`, if no update came since the seat looked. Refused with `TooWide`, `Worn`, `OutOfRange`, with `Overtaken`
    /// if its cell has a later update, or with `Contended` if an update came first, in which case the seat has looked again. The seat is one of
    /// this board's.
    pub fn write_looked(
        &self,
        seat: &mut Seat<B>,
        index: u32,
        value: i64,
    ) -> Result<Receipt, Refusal>
        requires { IsAt self.now.table.shared.table_id self.now.terms seat.old }
        ensures stays { Stays seat.old seat.new }
        ensures short { IsShort value → LookedAnswers (terms_of B.folding self.now.terms) (actor_of seat.old) (actor_of seat.new) (Edit.Write index value) result }
        ensures moves { IsShort value → HasMovedBy (edit_moves (terms_of B.folding self.now.terms) (actor_of seat.old) (Edit.Write index value) result) seat.old seat.new }
        ensures wide { ¬ IsShort value → (result ≡ Err Refusal.TooWide) × IsSame seat.old seat.new }
    {
        if !fits_short(value) {
            return Err(Refusal::TooWide);
        }
        self.write_short(seat, index, value)
    }

    /// Looks, and overwrites the element at `index`. Refused with `TooWide`, `Worn`, `OutOfRange`, with `Overtaken` if its cell has a later
    /// update, or with `Contended` if another update came in between. The seat is one of this board's.
    pub fn try_write(&self, seat: &mut Seat<B>, index: u32, value: i64) -> Result<Receipt, Refusal>
        requires { IsAt self.now.table.shared.table_id self.now.terms seat.old }
        ensures stays { Stays seat.old seat.new }
        ensures short { IsShort value → TryAnswers (terms_of B.folding self.now.terms) (actor_of seat.old) (actor_of seat.new) (Edit.Write index value) result }
        ensures moves { IsShort value → IsTry (terms_of B.folding self.now.terms) (Edit.Write index value) result seat.old seat.new }
        ensures wide { ¬ IsShort value → (result ≡ Err Refusal.TooWide) × IsSame seat.old seat.new }
    {
        if !fits_short(value) {
            return Err(Refusal::TooWide);
        }
        self.look(seat);
        self.write_short(seat, index, value)
    }
}
