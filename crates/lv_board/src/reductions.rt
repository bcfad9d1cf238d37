//! Reductions: the fold of a range, from the parts of full blocks if these are valid, and otherwise from cells.
ghost use Rattle.std.specs.Prelude.{◌≡◌, ◌+◌, ◌*◌, ◌/◌, ◌%◌, ◌<◌, ◌≤◌, length, true, slice_index, Err, IfOk, IfErr, IfSome};
ghost use Rattle.lv_bodies.specs.Body.{fold_of};
ghost use Rattle.lv_edits.specs.Touch.{is_whole};
ghost use Rattle.lv_geometry.specs.Cells.{capacity_of};
ghost use Rattle.lv_machine.specs.History.{edits_of, elements_of};
ghost use Rattle.lv_machine.specs.Shows.{block, mark_of};
ghost use Rattle.lv_board.specs.Calls.{HasLooked, ReduceAnswers};
ghost use Rattle.lv_board.specs.Moved.{ReduceMoves};
ghost use Rattle.lv_board.specs.Rule.{terms_of};
ghost use Rattle.lv_board.specs.Tells.{actor_of, IsAt, IsSame, Stays};
ghost use Rattle.lv_board.specs.Walks.{block_fold, Comes, ComesByCells, GoesOn, HasCome, HasRead, HasReadParts, MayRead, Sums, loads_in};

use crate::board::Board;
use crate::bodies::BoardBody;
use crate::seats::Seat;
use crate::underway::BoardWalk;
use crate::words::{edit_in, part_place_of, part_value_in, part_version_in, size_in};
use lv_bodies::fold_more;
use lv_geometry::Refusal;
use lv_reduce::Answer;

impl<B: BoardBody> Board<B> {
    // A part of a full block's aggregate, if it has the version of the block's mark.
    fn load_part(&self, seat: &mut Seat<B>, b: u32, part: u32, mark: u32) -> Option<u32>
        requires here { IsAt self.now.table.shared.table_id self.now.terms seat.old }
        requires may { MayRead (terms_of B.folding self.now.terms) seat.old }
        requires within { 8 * b < capacity_of self.now.terms.buckets }
        requires part { part < B.PARTS }
        requires whole { is_whole (edits_of (actor_of seat.old).seen) (block b) ≡ true }
        requires mark { mark ≡ mark_of b (actor_of seat.old).seen }
        ensures read { HasRead 1 seat.old seat.new }
        ensures value { IfSome result (λ v. v ≡ slice_index (B.parts_of (block_fold (B.operations self.now.terms.body) b (actor_of seat.old).seen)) part) }
    {
        let word = self.load_word(seat, part_place_of(b, part));
        if part_version_in(word) == u64::from(mark) {
            Some(part_value_in(word))
        } else {
            None
        }
    }

    // The parts of a full block's aggregate, if each has the version of the block's mark.
    fn load_parts(&self, seat: &mut Seat<B>, b: u32, mark: u32) -> Option<[u32; 4]>
        requires here { IsAt self.now.table.shared.table_id self.now.terms seat.old }
        requires may { MayRead (terms_of B.folding self.now.terms) seat.old }
        requires within { 8 * b < capacity_of self.now.terms.buckets }
        requires whole { is_whole (edits_of (actor_of seat.old).seen) (block b) ≡ true }
        requires mark { mark ≡ mark_of b (actor_of seat.old).seen }
        ensures read { HasReadParts B.PARTS result seat.old seat.new }
        ensures parts { IfSome result (λ parts. parts ≡ B.parts_of (block_fold (B.operations self.now.terms.body) b (actor_of seat.old).seen)) }
    {
        let mut values = [0; 4];
        for part in 0..B::PARTS {
            match self.load_part(seat, b, part, mark) {
                None => return None,
                Some(value) => values[part as usize] = value,
            }
        }
        Some(values)
    }

    // A walk that begins at an index.
    pub(crate) fn start_walk(&self, lo: u32) -> BoardWalk<B::S>
        ensures range { (result.lo ≡ lo) × (result.at ≡ lo) }
        ensures sum { result.sum ≡ (B.operations self.now.terms.body).identity }
        ensures reads { (result.cells ≡ 0) × (result.summaries ≡ 0) }
    {
        BoardWalk {
            lo,
            at: lo,
            sum: self.terms.body.identity(),
            cells: 0,
            summaries: 0,
        }
    }

    // Proceeds by cells to an index.
    pub(crate) fn walk_cells(
        &self,
        seat: &mut Seat<B>,
        walk: BoardWalk<B::S>,
        end: u32,
    ) -> Result<BoardWalk<B::S>, Refusal>
        requires here { IsAt self.now.table.shared.table_id self.now.terms seat.old }
        requires may { MayRead (terms_of B.folding self.now.terms) seat.old }
        requires sums { Sums (B.operations self.now.terms.body) (actor_of seat.old).seen walk }
        requires order { walk.at ≤ end }
        requires inside { end ≤ length (elements_of (actor_of seat.old).seen) }
        ensures { ComesByCells (B.operations self.now.terms.body) B.PARTS walk end result seat.old seat.new }
    {
        let mut walk = walk;
        while walk.at < end {
            let value = match self.load_cell(seat, walk.at) {
                Err(refusal) => return Err(refusal),
                Ok(value) => value,
            };
            walk = BoardWalk {
                lo: walk.lo,
                at: walk.at + 1,
                sum: fold_more(&self.terms.body, walk.sum, value),
                cells: walk.cells + 1,
                summaries: walk.summaries,
            };
        }
        Ok(walk)
    }

    // A walk with the block at its position. These are the parts of the block's aggregate.
    fn with_block(&self, seat: &Seat<B>, walk: BoardWalk<B::S>, parts: [u32; 4]) -> BoardWalk<B::S>
        requires may { MayRead (terms_of B.folding self.now.terms) seat.now }
        requires sums { Sums (B.operations self.now.terms.body) (actor_of seat.now).seen walk }
        requires begins { walk.at % 8 ≡ 0 }
        requires inside { walk.at + 8 ≤ length (elements_of (actor_of seat.now).seen) }
        requires parts { parts ≡ B.parts_of (block_fold (B.operations self.now.terms.body) (walk.at / 8) (actor_of seat.now).seen) }
        ensures come { HasCome (B.operations self.now.terms.body) (actor_of seat.now).seen walk.lo (walk.at + 8) result }
        ensures counted { loads_in B.PARTS result ≡ loads_in B.PARTS walk + (1 + B.PARTS) }
    {
        BoardWalk {
            lo: walk.lo,
            at: walk.at + 8,
            sum: self.terms.body.combine(walk.sum, B::of_parts(parts)),
            cells: walk.cells,
            summaries: walk.summaries + 1,
        }
    }

    // Proceeds by the block that begins at the walk's position: from its parts if these are valid, and otherwise from its cells.
    fn walk_block(
        &self,
        seat: &mut Seat<B>,
        walk: BoardWalk<B::S>,
    ) -> Result<BoardWalk<B::S>, Refusal>
        requires here { IsAt self.now.table.shared.table_id self.now.terms seat.old }
        requires may { MayRead (terms_of B.folding self.now.terms) seat.old }
        requires sums { Sums (B.operations self.now.terms.body) (actor_of seat.old).seen walk }
        requires begins { walk.at % 8 ≡ 0 }
        requires inside { walk.at + 8 ≤ length (elements_of (actor_of seat.old).seen) }
        ensures { Comes (B.operations self.now.terms.body) B.PARTS (loads_in B.PARTS walk) walk.lo (walk.at + 8) result seat.old seat.new }
    {
        let b = walk.at / 8;
        let mark = match self.load_mark(seat, b) {
            Err(refusal) => return Err(refusal),
            Ok(mark) => mark,
        };
        match self.load_parts(seat, b, mark) {
            None => self.walk_cells(seat, walk, walk.at + 8),
            Some(parts) => Ok(self.with_block(seat, walk, parts)),
        }
    }

    // Proceeds by a full block that begins at the walk's position, or otherwise by one cell.
    fn walk_on(
        &self,
        seat: &mut Seat<B>,
        walk: BoardWalk<B::S>,
        hi: u32,
    ) -> Result<BoardWalk<B::S>, Refusal>
        requires here { IsAt self.now.table.shared.table_id self.now.terms seat.old }
        requires may { MayRead (terms_of B.folding self.now.terms) seat.old }
        requires sums { Sums (B.operations self.now.terms.body) (actor_of seat.old).seen walk }
        requires order { walk.at < hi }
        requires inside { hi ≤ length (elements_of (actor_of seat.old).seen) }
        ensures { GoesOn (B.operations self.now.terms.body) B.PARTS hi walk result seat.old seat.new }
    {
        if walk.at % 8 == 0 && hi - walk.at >= 8 {
            self.walk_block(seat, walk)
        } else {
            self.walk_cells(seat, walk, walk.at + 1)
        }
    }

    // Walks through a range of the elements.
    fn walk_range(&self, seat: &mut Seat<B>, lo: u32, hi: u32) -> Result<BoardWalk<B::S>, Refusal>
        requires here { IsAt self.now.table.shared.table_id self.now.terms seat.old }
        requires may { MayRead (terms_of B.folding self.now.terms) seat.old }
        requires order { lo ≤ hi }
        requires inside { hi ≤ length (elements_of (actor_of seat.old).seen) }
        ensures { Comes (B.operations self.now.terms.body) B.PARTS 0 lo hi result seat.old seat.new }
    {
        let mut walk = self.start_walk(lo);
        while walk.at < hi {
            walk = match self.walk_on(seat, walk, hi) {
                Err(refusal) => return Err(refusal),
                Ok(next) => next,
            };
        }
        Ok(walk)
    }

    /// The fold of the elements from index `lo` up to `hi`, `hi` excluded, after the update at which this call looks. It is made from the parts
    /// of full blocks if these are valid, and otherwise from cells, and is returned with how many of each were read. Refused with `BadRange`
    /// before any step, then with `OutOfRange`, or with `Overtaken` if a later update has written there since the look. The seat is one of this
    /// board's.
    pub fn reduce(&self, seat: &mut Seat<B>, lo: u32, hi: u32) -> Result<Answer<B::S>, Refusal>
        requires { IsAt self.now.table.shared.table_id self.now.terms seat.old }
        ensures stays { Stays seat.old seat.new }
        ensures looked { lo ≤ hi → HasLooked (terms_of B.folding self.now.terms) (actor_of seat.old) (actor_of seat.new) }
        ensures answer { lo ≤ hi → ReduceAnswers (fold_of (B.operations self.now.terms.body)) lo hi (actor_of seat.new) result }
        ensures moves { lo ≤ hi → ReduceMoves B.PARTS seat.old seat.new result }
        ensures backwards { hi < lo → (result ≡ Err Refusal.BadRange) × IsSame seat.old seat.new }
    {
        if hi < lo {
            return Err(Refusal::BadRange);
        }
        self.load_descriptor(seat);
        let size = size_in(seat.look);
        if hi > size {
            return Err(Refusal::OutOfRange { size });
        }
        self.help(seat);
        let walk = match self.walk_range(seat, lo, hi) {
            Err(refusal) => return Err(refusal),
            Ok(walk) => walk,
        };
        Ok(Answer {
            edit: edit_in(seat.look),
            value: walk.sum,
            cells_read: walk.cells,
            summaries_read: walk.summaries,
        })
    }
}
