//! The steps on marks and parts: loads of both, and the fetch-max that installs a part.
ghost use Rattle.std.specs.Prelude.{◌≡◌, ◌<◌, ◌*◌, true, IfOk, IfErr, IfSome};
ghost use Rattle.lv_edits.specs.Touch.{elements_under, is_whole};
ghost use Rattle.lv_geometry.specs.Cells.{capacity_of};
ghost use Rattle.lv_machine.specs.History.{edits_of};
ghost use Rattle.lv_machine.specs.Layout.{part_place};
ghost use Rattle.lv_machine.specs.Shows.{block, mark_of};
ghost use Rattle.lv_machine.specs.Words.{part_word};
ghost use Rattle.lv_board.specs.Rule.{terms_of};
ghost use Rattle.lv_board.specs.Stands.{IsReady};
ghost use Rattle.lv_board.specs.Tells.{actor_of, IsAt};
ghost use Rattle.lv_board.specs.Steps.{HasMovedPart, IsInstalled, IsMarkTaken};

use crate::board::Board;
use crate::bodies::BoardBody;
use crate::installs::install;
use crate::loads::is_later;
use crate::seats::Seat;
use crate::words::mark_place_of;
use lv_geometry::Refusal;

impl<B: BoardBody> Board<B> {
    // The mark of a block, as the seat sees it, or the later update that has since touched the block.
    pub(crate) fn load_mark(&self, seat: &mut Seat<B>, b: u32) -> Result<u32, Refusal>
        requires here { IsAt self.now.table.shared.table_id self.now.terms seat.old }
        requires ready { IsReady (actor_of seat.old) seat.old.look }
        requires within { 8 * b < capacity_of self.now.terms.buckets }
        ensures { IsMarkTaken (terms_of B.folding self.now.terms) b result seat.old seat.new }
    {
        let mark = self.load_word(seat, mark_place_of(b));
        if is_later(mark, seat.look) {
            return Err(Refusal::Overtaken { edit: mark as u32 });
        }
        Ok(mark as u32)
    }

    // Installs a part of the aggregate of a block that is full as the seat sees it.
    pub(crate) fn install(&self, seat: &mut Seat<B>, b: u32, part: u32, word: u64)
        requires here { IsAt self.now.table.shared.table_id self.now.terms seat.old }
        requires within { 8 * b < capacity_of self.now.terms.buckets }
        requires part { part < B.PARTS }
        requires whole { is_whole (edits_of (actor_of seat.old).seen) (block b) ≡ true }
        requires word { word ≡ part_word (mark_of b (actor_of seat.old).seen) ((terms_of B.folding self.now.terms).folding.part part (elements_under (edits_of (actor_of seat.old).seen) (block b))) }
        ensures installed { IsInstalled (part_place b part) word seat.old seat.new }
        ensures moves { HasMovedPart b part word seat.old seat.new }
    {
        install(&self.table, seat, b, part, word);
    }
}
