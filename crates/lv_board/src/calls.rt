//! Calls of a board as values, as a session makes them.
ghost use Rattle.std.specs.Prelude.{◌≡◌, ◌<◌, ◌≤◌, Err};
ghost use Rattle.lv_geometry.specs.declared.refusals.Refusal.{Refusal};
ghost use Rattle.lv_bodies.specs.Body.{fold_of};
ghost use Rattle.lv_board.specs.Calls.{HasLooked, ReduceAnswers, TryAnswers};
ghost use Rattle.lv_board.specs.Closing.{IsStill};
ghost use Rattle.lv_board.specs.Sharing.{EndsWithin};
ghost use Rattle.lv_board.specs.Rule.{terms_of};
ghost use Rattle.lv_board.specs.Session.{CallEnds, asked_block, said_by};
ghost use Rattle.lv_board.specs.Tells.{actor_of, IsAt, IsSame, Stays};

use crate::board::Board;
use crate::bodies::BoardBody;
use crate::seats::Seat;
use lv_bodies::Shown;
use lv_edits::Receipt;
use lv_geometry::Refusal;
use lv_machine::{Call, Read, Refreshed, Said};
use lv_reduce::Answer;

impl<B: BoardBody> Board<B> {
    /// Does what `reduce` does, and returns the plain value of the range in place of its aggregate. The seat is one of this board's.
    pub fn reduce_plain(
        &self,
        seat: &mut Seat<B>,
        lo: u32,
        hi: u32,
    ) -> Result<Answer<Shown>, Refusal>
        requires { IsAt self.now.table.shared.table_id self.now.terms seat.old }
        ensures stays { Stays seat.old seat.new }
        ensures looked { lo ≤ hi → HasLooked (terms_of B.folding self.now.terms) (actor_of seat.old) (actor_of seat.new) }
        ensures answer { lo ≤ hi → ReduceAnswers (B.plain self.now.terms.body) lo hi (actor_of seat.new) result }
        ensures backwards { hi < lo → (result ≡ Err Refusal.BadRange) × IsSame seat.old seat.new }
    {
        match self.reduce(seat, lo, hi) {
            Err(refusal) => Err(refusal),
            Ok(answer) => Ok(Answer {
                edit: answer.edit,
                value: self.terms.body.shown(answer.value),
                cells_read: answer.cells_read,
                summaries_read: answer.summaries_read,
            }),
        }
    }

    // Makes a call, with at most this many tries of an update, and returns how it ends, with a fold as its plain value.
    pub(crate) fn make_within(&self, seat: &mut Seat<B>, call: Call, tries: u32) -> Said<Shown>
        requires here { IsAt self.now.table.shared.table_id self.now.terms seat.old }
        requires some { 1 ≤ tries }
        ensures still { IsStill seat.old seat.new }
        ensures ends { EndsWithin (terms_of B.folding self.now.terms) (B.plain self.now.terms.body) tries call (actor_of seat.old) result (actor_of seat.new) }
    {
        match call {
            Call::Push(x) => tried(self.push_within(seat, x, tries)),
            Call::Pop => tried(self.pop_within(seat, tries)),
            Call::Write { index, value } => tried(self.write_within(seat, index, value, tries)),
            Call::Get(i) => read(self.get(seat, i)),
            Call::Size => Said::Sized(self.size(seat)),
            Call::Reduce { lo, hi } => reduced(self.reduce_plain(seat, lo, hi)),
            Call::Refresh(block) => refreshed(self.refresh(seat, block)),
        }
    }

    // Makes a call, and returns how it ends.
    pub(crate) fn make(&self, seat: &mut Seat<B>, call: Call) -> Said<B::S>
        requires { IsAt self.now.table.shared.table_id self.now.terms seat.old }
        ensures stays { Stays seat.old seat.new }
        ensures ends { CallEnds (terms_of B.folding self.now.terms) (TryAnswers (terms_of B.folding self.now.terms)) (fold_of (B.operations self.now.terms.body)) call (actor_of seat.old) result (actor_of seat.new) }
    {
        match call {
            Call::Push(x) => tried(self.try_push(seat, x)),
            Call::Pop => tried(self.try_pop(seat)),
            Call::Write { index, value } => tried(self.try_write(seat, index, value)),
            Call::Get(i) => read(self.get(seat, i)),
            Call::Size => Said::Sized(self.size(seat)),
            Call::Reduce { lo, hi } => reduced(self.reduce(seat, lo, hi)),
            Call::Refresh(block) => refreshed(self.refresh(seat, block)),
        }
    }
}

// How a try ends.
fn tried<S: Copy>(answer: Result<Receipt, Refusal>) -> Said<S>
    ensures { result ≡ said_by Said.Did answer }
{
    match answer {
        Ok(receipt) => Said::Did(receipt),
        Err(refusal) => Said::Refused(refusal),
    }
}

// How a read of an element ends.
fn read<S: Copy>(answer: Result<Read, Refusal>) -> Said<S>
    ensures { result ≡ said_by Said.Read answer }
{
    match answer {
        Ok(read) => Said::Read(read),
        Err(refusal) => Said::Refused(refusal),
    }
}

// How a reduction ends.
fn reduced<S: Copy>(answer: Result<Answer<S>, Refusal>) -> Said<S>
    ensures { result ≡ said_by Said.Answered answer }
{
    match answer {
        Ok(answer) => Said::Answered(answer),
        Err(refusal) => Said::Refused(refusal),
    }
}

// How a refresh ends.
fn refreshed<S: Copy>(answer: Result<Refreshed, Refusal>) -> Said<S>
    ensures { result ≡ said_by Said.Refreshed answer }
{
    match answer {
        Ok(refreshed) => Said::Refreshed(refreshed),
        Err(refusal) => Said::Refused(refusal),
    }
}

// The block that a call refreshes, and 0 for other calls.
pub(crate) fn asked_block(call: Call) -> u32
    ensures { result ≡ asked_block call }
{
    match call {
        Call::Refresh(block) => block,
        _ => 0,
    }
}
