//! Tries that are repeated when another seat was faster. Their number is limited, so that no call waits.
ghost use Rattle.std.specs.Prelude.{◌≡◌, ◌≤◌, ◌↔◌, false, IsTrue, Err};
ghost use Rattle.lv_geometry.specs.declared.refusals.Refusal.{Refusal};
ghost use Rattle.lv_bodies.specs.Parts.{IsShort};
ghost use Rattle.lv_machine.specs.History.{IsShortEdit};
ghost use Rattle.lv_board.specs.Calls.{HasLooked, LookedAnswers, TryAnswers};
ghost use Rattle.lv_board.specs.Closing.{IsStill};
ghost use Rattle.lv_board.specs.Retrying.{AnswersWithin, IsOutrun};
ghost use Rattle.lv_board.specs.Steps.{HasFound};
ghost use Rattle.lv_board.specs.Rule.{terms_of};
ghost use Rattle.lv_board.specs.Tells.{actor_of, IsAt, IsSame, Stays};

use crate::board::Board;
use crate::bodies::BoardBody;
use crate::seats::Seat;
use crate::words::fits_short;
use lv_edits::{Edit, Receipt};
use lv_geometry::Refusal;
use std::hint;

// A pause is at most 2 to this many turns of a loop that only waits. With 6, four seats that only make updates fail about once an update. With 12
// that is rare, and an update takes a fifth of the time. With 13 little more is gained, and a seat waits longer.
const LONGEST_PAUSE: u32 = 12;

// Whether the try failed only because of another seat's update.
#[inline(always)]
fn is_outrun(answer: Result<Receipt, Refusal>) -> bool
    ensures { IsTrue result ↔ IsOutrun answer }
{
    let Err(refusal) = answer else {
        return false;
    };
    matches!(
        refusal,
        Refusal::Contended { .. } | Refusal::Overtaken { .. }
    )
}

// Whether a compare-and-swap found another descriptor, which is the look now.
#[inline(always)]
fn has_found(answer: Result<Receipt, Refusal>) -> bool
    ensures { IsTrue result ↔ HasFound answer }
{
    let Err(refusal) = answer else {
        return false;
    };
    matches!(refusal, Refusal::Contended { .. })
}

// A pause after each second try that failed, so that the seat that was faster can proceed. After a pause the descriptor that was found is old. So
// the next try mostly finds another descriptor, and the one after that is made from it at once. A pause has 4 turns at first, then 16 times as
// many each time, up to 16 microseconds if a turn takes 4 ns, and to 200 on processors whose turns are long.
fn pause(outrun: u32) {
    if outrun.is_multiple_of(2) {
        return;
    }
    for _ in 0..1u32 << (2 * outrun.min(LONGEST_PAUSE / 2)) {
        hint::spin_loop();
    }
}

impl<B: BoardBody> Board<B> {
    // An update from the look that the seat has. If the kind of the update is known, it is chosen when this is compiled.
    #[inline(always)]
    fn edit_looked(&self, seat: &mut Seat<B>, edit: Edit) -> Result<Receipt, Refusal>
        requires here { IsAt self.now.table.shared.table_id self.now.terms seat.old }
        requires short { IsShortEdit edit }
        ensures stays { Stays seat.old seat.new }
        ensures answer { LookedAnswers (terms_of B.folding self.now.terms) (actor_of seat.old) (actor_of seat.new) edit result }
    {
        match edit {
            Edit::Push(x) => self.push_looked(seat, x),
            Edit::Pop => self.pop_looked(seat),
            Edit::Write { index, value } => self.write_looked(seat, index, value),
            Edit::Reserve(_) | Edit::Swap { .. } | Edit::Truncate(_) => unreachable!(),
        }
    }

    // Loads the descriptor if `loads` is set. Otherwise the look that the seat has shows all that the seat knows.
    #[inline(always)]
    fn look_where(&self, seat: &mut Seat<B>, loads: bool)
        requires here { IsAt self.now.table.shared.table_id self.now.terms seat.old }
        requires found { loads ≡ false → HasLooked (terms_of B.folding self.now.terms) (actor_of seat.old) (actor_of seat.old) }
        ensures stays { Stays seat.old seat.new }
        ensures looked { HasLooked (terms_of B.folding self.now.terms) (actor_of seat.old) (actor_of seat.new) }
    {
        if loads {
            self.look(seat);
        }
    }

    // One try, from such a look.
    #[inline(always)]
    fn try_edit(&self, seat: &mut Seat<B>, edit: Edit, loads: bool) -> Result<Receipt, Refusal>
        requires here { IsAt self.now.table.shared.table_id self.now.terms seat.old }
        requires short { IsShortEdit edit }
        requires found { loads ≡ false → HasLooked (terms_of B.folding self.now.terms) (actor_of seat.old) (actor_of seat.old) }
        ensures still { IsStill seat.old seat.new }
        ensures answer { TryAnswers (terms_of B.folding self.now.terms) (actor_of seat.old) (actor_of seat.new) edit result }
    {
        self.look_where(seat, loads);
        self.edit_looked(seat, edit)
    }

    // One try, and further ones while they fail because of other seats. The descriptor is loaded by the first one, and by one after a word of a
    // later update.
    #[inline(always)]
    fn edit_within(&self, seat: &mut Seat<B>, edit: Edit, tries: u32) -> Result<Receipt, Refusal>
        requires here { IsAt self.now.table.shared.table_id self.now.terms seat.old }
        requires short { IsShortEdit edit }
        requires some { 1 ≤ tries }
        ensures still { IsStill seat.old seat.new }
        ensures answer { AnswersWithin (terms_of B.folding self.now.terms) tries (actor_of seat.old) (actor_of seat.new) edit result }
    {
        let mut answer = self.try_edit(seat, edit, true);
        for outrun in 0..tries - 1 {
            if !is_outrun(answer) {
                return answer;
            }
            pause(outrun);
            let loads = !has_found(answer);
            answer = self.try_edit(seat, edit, loads);
        }
        answer
    }

    /// Does what `try_push` does, and tries again while it is refused with `Contended`, from the descriptor that was found then. There are at
    /// most `tries` tries, and at least 1. The result is that of the last try. The seat is one of this board's.
    pub fn push_within(&self, seat: &mut Seat<B>, x: i64, tries: u32) -> Result<Receipt, Refusal>
        requires here { IsAt self.now.table.shared.table_id self.now.terms seat.old }
        requires some { 1 ≤ tries }
        ensures still { IsStill seat.old seat.new }
        ensures short { IsShort x → AnswersWithin (terms_of B.folding self.now.terms) tries (actor_of seat.old) (actor_of seat.new) (Edit.Push x) result }
        ensures wide { ¬ IsShort x → (result ≡ Err Refusal.TooWide) × IsSame seat.old seat.new }
    {
        if !fits_short(x) {
            return Err(Refusal::TooWide);
        }
        self.edit_within(seat, Edit::Push(x), tries)
    }

    /// Does what `try_pop` does, and tries again while it is refused with `Contended`, from the descriptor that was found then, or with
    /// `Overtaken`, after a new look. There are at most `tries` tries, and at least 1. The result is that of the last try. The seat is one of
    /// this board's.
    pub fn pop_within(&self, seat: &mut Seat<B>, tries: u32) -> Result<Receipt, Refusal>
        requires here { IsAt self.now.table.shared.table_id self.now.terms seat.old }
        requires some { 1 ≤ tries }
        ensures still { IsStill seat.old seat.new }
        ensures answer { AnswersWithin (terms_of B.folding self.now.terms) tries (actor_of seat.old) (actor_of seat.new) Edit.Pop result }
    {
        self.edit_within(seat, Edit::Pop, tries)
    }

    /// Does what `try_write` does, and tries again while it is refused with `Contended`, from the descriptor that was found then, or with
    /// `Overtaken`, after a new look. There are at most `tries` tries, and at least 1. The result is that of the last try. The seat is one of
    /// this board's.
    pub fn write_within(
        &self,
        seat: &mut Seat<B>,
        index: u32,
        value: i64,
        tries: u32,
    ) -> Result<Receipt, Refusal>
        requires here { IsAt self.now.table.shared.table_id self.now.terms seat.old }
        requires some { 1 ≤ tries }
        ensures still { IsStill seat.old seat.new }
        ensures short { IsShort value → AnswersWithin (terms_of B.folding self.now.terms) tries (actor_of seat.old) (actor_of seat.new) (Edit.Write index value) result }
        ensures wide { ¬ IsShort value → (result ≡ Err Refusal.TooWide) × IsSame seat.old seat.new }
    {
        if !fits_short(value) {
            return Err(Refusal::TooWide);
        }
        self.edit_within(seat, Edit::Write { index, value }, tries)
    }
}
