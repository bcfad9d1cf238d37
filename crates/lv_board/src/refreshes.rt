//! Refreshes: the parts of a full block's aggregate, made from its cells.
ghost use Rattle.std.specs.Prelude.{◌≡◌, ◌+◌, ◌*◌, ◌<◌, ◌≤◌, length, true, IfOk};
ghost use Rattle.lv_edits.specs.Touch.{is_whole};
ghost use Rattle.lv_geometry.specs.Cells.{capacity_of};
ghost use Rattle.lv_machine.specs.History.{edits_of, elements_of};
ghost use Rattle.lv_machine.specs.Shows.{block, mark_of};
ghost use Rattle.lv_board.specs.Calls.{AreInstalled, HasLooked, RefreshAnswers};
ghost use Rattle.lv_board.specs.Moved.{HasMovedBy, RefreshMoves, installs_of};
ghost use Rattle.lv_board.specs.Rule.{terms_of};
ghost use Rattle.lv_board.specs.Tells.{actor_of, IsAt, Stays};
ghost use Rattle.lv_board.specs.Steps.{HasInstalled};
ghost use Rattle.lv_board.specs.Walks.{block_fold, block_installed, MayRead, SumsBlock};

use crate::board::Board;
use crate::bodies::BoardBody;
use crate::seats::Seat;
use crate::words::{edit_in, pack_part, size_in};
use lv_geometry::Refusal;
use lv_machine::Refreshed;

impl<B: BoardBody> Board<B> {
    // The fold of a full block's elements, from its cells.
    fn sum_block(&self, seat: &mut Seat<B>, b: u32) -> Result<B::S, Refusal>
        requires here { IsAt self.now.table.shared.table_id self.now.terms seat.old }
        requires may { MayRead (terms_of B.folding self.now.terms) seat.old }
        requires inside { 8 * b + 8 ≤ length (elements_of (actor_of seat.old).seen) }
        ensures { SumsBlock (B.operations self.now.terms.body) B.PARTS b result seat.old seat.new }
    {
        let first = 8 * b;
        let start = self.start_walk(first);
        match self.walk_cells(seat, start, first + 8) {
            Err(refusal) => Err(refusal),
            Ok(walk) => Ok(walk.sum),
        }
    }

    // Installs the parts of a full block's aggregate, with the block's mark as their version.
    fn keep_parts(&self, seat: &mut Seat<B>, b: u32, mark: u32, parts: [u32; 4])
        requires here { IsAt self.now.table.shared.table_id self.now.terms seat.old }
        requires within { 8 * b < capacity_of self.now.terms.buckets }
        requires whole { is_whole (edits_of (actor_of seat.old).seen) (block b) ≡ true }
        requires mark { mark ≡ mark_of b (actor_of seat.old).seen }
        requires parts { parts ≡ B.parts_of (block_fold (B.operations self.now.terms.body) b (actor_of seat.old).seen) }
        ensures installed { HasInstalled (block_installed (terms_of B.folding self.now.terms) b (actor_of seat.old).seen B.PARTS (actor_of seat.old).installed) seat.old seat.new }
        ensures moves { HasMovedBy (installs_of (terms_of B.folding self.now.terms) (actor_of seat.old).number b (actor_of seat.old).seen B.PARTS) seat.old seat.new }
    {
        for part in 0..B::PARTS {
            self.install(seat, b, part, pack_part(mark, parts[part as usize]));
        }
    }

    /// Makes the parts of the block of that number from its cells. Returns the update at which this call looked and the last update that touched
    /// the block, which is the version of the parts. Refused with `OutOfRange` if the block isn't full, or with `Overtaken` if a later update has
    /// written there since the look. The seat is one of this board's.
    pub fn refresh(&self, seat: &mut Seat<B>, block: u32) -> Result<Refreshed, Refusal>
        requires { IsAt self.now.table.shared.table_id self.now.terms seat.old }
        ensures stays { Stays seat.old seat.new }
        ensures looked { HasLooked (terms_of B.folding self.now.terms) (actor_of seat.old) (actor_of seat.new) }
        ensures answer { RefreshAnswers block (actor_of seat.new) result }
        ensures moves { RefreshMoves (terms_of B.folding self.now.terms) block seat.old seat.new result }
        ensures installed { IfOk result (λ refreshed. AreInstalled (terms_of B.folding self.now.terms) block (actor_of seat.new)) }
    {
        self.load_descriptor(seat);
        let size = size_in(seat.look);
        if block >= size / 8 {
            return Err(Refusal::OutOfRange { size });
        }
        self.help(seat);
        let version = match self.load_mark(seat, block) {
            Err(refusal) => return Err(refusal),
            Ok(mark) => mark,
        };
        let sum = match self.sum_block(seat, block) {
            Err(refusal) => return Err(refusal),
            Ok(sum) => sum,
        };
        self.keep_parts(seat, block, version, B::to_parts(sum));
        Ok(Refreshed {
            edit: edit_in(seat.look),
            version,
        })
    }
}
