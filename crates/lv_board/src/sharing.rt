//! A board that threads share without a scope. Each thread has a seat with its share of the board, and gives it back when it ends.
ghost use Rattle.std.specs.Prelude.{◌≡◌, ◌≢◌, ◌≤◌, [], length, nat_eq, IfOk, IfErr, OnOk};
ghost use Rattle.std.specs.Arc.{arc_value};
ghost use Rattle.lv_board.specs.Opening.{IsOpeningRefusal, MayOpen};
ghost use Rattle.lv_board.specs.Ordered.{AreInOrder};
ghost use Rattle.lv_board.specs.Sharing.{IsBack, IsClosedShared, IsNewlyShared, IsOut, IsUnclosed, IsUnseated, Makes, sat_of, shared_of, Sits};

use crate::board::Board;
use crate::bodies::BoardBody;
use crate::opened::Opened;
use crate::remains::Closed;
use crate::seats::Seat;
use crate::seats_with_board::SeatWithBoard;
use lv_bodies::Shown;
use lv_geometry::{Limits, Refusal};
use lv_machine::{Call, Said};
use std::alloc::Global;
use std::sync::Arc;

/// Why no seat is given.
#[derive(Clone, Copy, PartialEq, Eq)]
pub enum Unseated {
    /// No seat is left.
    NoSeat,
    /// There was no memory for one more share of the board.
    NoMemory,
}

/// Why a shared board stays open.
#[derive(Clone, Copy, PartialEq, Eq)]
pub enum Unclosed {
    /// Some seats are missing.
    SeatsOut,
    /// There was no memory for the elements.
    NoMemory,
    /// All seats are there, and yet some thread has a share of the board. Each share belongs to a seat, so this never occurs.
    Shared,
}

// A board and its seats, to be shared.
fn share<B: BoardBody>(
    alloc: Global,
    board: Board<B>,
    seats: Vec<Seat<B>>,
    stamp: u64,
) -> Result<Opened<B>, Refusal>
    requires order { AreInOrder board.table.shared.table_id board.terms seats.items }
    ensures ok { IfOk result (λ o. (arc_value o.board ≡ board) × (o.seats.items ≡ seats.items) × (o.stamp ≡ stamp)) }
    ensures err { IfErr result (λ refusal. refusal ≡ Refusal.NoMemory) }
{
    match Arc::new(alloc, board) {
        Err(_) => Err(Refusal::NoMemory),
        Ok(board) => Ok(Opened {
            stamp,
            board,
            seats,
        }),
    }
}

impl<B: BoardBody> Opened<B> {
    /// A board with no updates, to be shared, with all its seats. Seat k is actor k. A caller that opens several boards gives each a stamp of its
    /// own. Refused as `Board::new` is.
    pub fn new(
        alloc: Global,
        limits: Limits,
        seats: u32,
        body: B,
        stamp: u64,
    ) -> Result<Opened<B>, Refusal>
        ensures ok { IfOk result (λ o. IsNewlyShared limits seats stamp (B.folding body) B.the_kind (B.plain body) (shared_of B.folding B.the_kind B.plain o)) }
        ensures err { IfErr result (λ refusal. IsOpeningRefusal limits seats refusal) }
    {
        match Board::new(alloc, limits, seats, body) {
            Err(refusal) => Err(refusal),
            Ok((board, seats)) => share(alloc, board, seats, stamp),
        }
    }

    /// Takes the seat that has been there for the longest time. At first the seats are in the order of their numbers.
    pub fn sit(&mut self) -> Result<SeatWithBoard<B>, Unseated>
        ensures ok { IfOk result (λ s. Sits (shared_of B.folding B.the_kind B.plain self.old) (sat_of B.folding B.the_kind B.plain s) (shared_of B.folding B.the_kind B.plain self.new)) }
        ensures out { IfOk result (λ s. IsOut self.new s) }
        ensures err { IfErr result (λ why. ((shared_of B.folding B.the_kind B.plain self.new) ≡ (shared_of B.folding B.the_kind B.plain self.old)) × IsUnseated (shared_of B.folding B.the_kind B.plain self.old) why) }
    {
        if self.seats.is_empty() {
            return Err(Unseated::NoSeat);
        }
        let Ok(board) = Arc::try_clone(&self.board) else {
            return Err(Unseated::NoMemory);
        };
        let seat = self.seats.remove(0);
        Ok(SeatWithBoard {
            stamp: self.stamp,
            board,
            seat,
        })
    }

    /// Takes a seat back, with all that it knows. It may be taken again, and when all seats are there, the board can be closed. A seat of a board
    /// with another stamp is returned unchanged. A seat with this stamp must be one of this board's.
    pub fn take_back(&mut self, seat_with_board: SeatWithBoard<B>) -> Result<(), SeatWithBoard<B>>
        requires own { seat_with_board.stamp ≡ self.old.stamp → IsOut self.old seat_with_board }
        ensures ok { OnOk result (IsBack (shared_of B.folding B.the_kind B.plain self.old) (sat_of B.folding B.the_kind B.plain seat_with_board) (shared_of B.folding B.the_kind B.plain self.new)) }
        ensures err { IfErr result (λ same. (same ≡ seat_with_board) × (seat_with_board.stamp ≢ self.old.stamp) × ((shared_of B.folding B.the_kind B.plain self.new) ≡ (shared_of B.folding B.the_kind B.plain self.old))) }
    {
        if seat_with_board.stamp != self.stamp {
            return Err(seat_with_board);
        }
        let SeatWithBoard {
            stamp: _,
            board,
            seat,
        } = seat_with_board;
        drop(board);
        self.seats.push_reserved(seat);
        Ok(())
    }

    // Whether all seats are there.
    fn is_whole(&self) -> bool
        ensures { result ≡ nat_eq (length self.now.seats.items) (arc_value self.now.board).terms.seats }
    {
        self.seats.len() == self.board.seats() as usize
    }

    /// Returns the vector when all seats are there: the number of its last update, and its elements. Refused with `SeatsOut` only if a seat is
    /// missing, and otherwise with `NoMemory` or `Shared`. The board is then returned unchanged.
    pub fn close(self, alloc: Global) -> Result<Closed, (Opened<B>, Unclosed)>
        ensures ok { IfOk result (λ closed. IsClosedShared (shared_of B.folding B.the_kind B.plain self) closed) }
        ensures err { IfErr result (λ r. ((shared_of B.folding B.the_kind B.plain r.0) ≡ (shared_of B.folding B.the_kind B.plain self)) × IsUnclosed (shared_of B.folding B.the_kind B.plain self) r.1) }
    {
        if !self.is_whole() {
            return Err((self, Unclosed::SeatsOut));
        }
        let Ok(elements) = Vec::with_capacity(alloc, self.board.capacity() as usize) else {
            return Err((self, Unclosed::NoMemory));
        };
        let Opened {
            stamp,
            board,
            seats,
        } = self;
        match Arc::try_unwrap(board) {
            Ok(alone) => Ok(alone.close_by(seats, elements)),
            Err(board) => Err((
                Opened {
                    stamp,
                    board,
                    seats,
                },
                Unclosed::Shared,
            )),
        }
    }
}

impl<B: BoardBody> SeatWithBoard<B> {
    /// Makes a call, and returns how it ends, with a fold as its plain value. An update is tried at most this many times, and at least once.
    pub fn make(&mut self, call: Call, tries: u32) -> Said<Shown>
        ensures makes { Makes tries call (sat_of B.folding B.the_kind B.plain self.old) result (sat_of B.folding B.the_kind B.plain self.new) }
        ensures board { arc_value self.new.board ≡ arc_value self.old.board }
    {
        self.board.make_within(&mut self.seat, call, tries.max(1))
    }
}
