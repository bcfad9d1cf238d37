//! Boards that threads share: how one is opened, and how a seat is taken.
ghost use Rattle.std.specs.Prelude.{◌≡◌, ◌⊎◌, Some, None, IfOk, IfErr};
ghost use Rattle.lv_bodies.specs.Plain.{plain_value};
ghost use Rattle.lv_board.specs.Opening.{IsOpeningRefusal};
ghost use Rattle.lv_board.specs.Sharing.{IsNewlyShared, IsUnseated, Sits};
ghost use Rattle.livevec_c.specs.declared.objects.Object.TheVariants as behind;
ghost use Rattle.livevec_c.specs.Kinds.{folding_of, IsOutOf, kind_at, sat_at, shared_at};
ghost use Rattle.livevec_c.specs.Lives.{OpensBoard, OpensBoardAt, seatless, SitsBoard, SitsDown, SitsObject};

use crate::jobs::refilled;
use crate::kind_boards::KindBoard;
use crate::kind_seats::KindSeat;
use crate::lifetimes::new_vector;
use crate::objects::Object;
use crate::results::{BAD_LIMITS, IN_USE, NO_HANDLE, NO_MEMORY, NO_SEAT};
use crate::slots::{Slot, is_full, put, take};
use lv_board::{Opened, Unseated};
use lv_bodies::{Affine, Automaton, Best, Greatest, Kind, Least, Sum};
use lv_geometry::{Limits, Refusal};
use std::alloc::{AllocError, Global};

/// The kind of a number.
pub fn kind_of(number: u32) -> Option<Kind>
    ensures { result ≡ kind_at number }
{
    match number {
        0 => Some(Kind::Sum),
        1 => Some(Kind::Least),
        2 => Some(Kind::Greatest),
        3 => Some(Kind::Best),
        4 => Some(Kind::Affine),
        5 => Some(Kind::Automaton),
        _ => None,
    }
}

// A new board of a kind.
fn open_kind(
    alloc: Global,
    kind: Kind,
    limits: Limits,
    seats: u32,
    stamp: u64,
) -> Result<KindBoard, Refusal>
    ensures ok { IfOk result (λ b. IsNewlyShared limits seats stamp (folding_of kind) kind (plain_value kind) (shared_at b)) }
    ensures err { IfErr result (λ refusal. IsOpeningRefusal limits seats refusal) }
{
    match kind {
        Kind::Sum => match Opened::new(alloc, limits, seats, Sum, stamp) {
            Ok(board) => Ok(KindBoard::Sum(board)),
            Err(refusal) => Err(refusal),
        },
        Kind::Least => match Opened::new(alloc, limits, seats, Least, stamp) {
            Ok(board) => Ok(KindBoard::Least(board)),
            Err(refusal) => Err(refusal),
        },
        Kind::Greatest => match Opened::new(alloc, limits, seats, Greatest, stamp) {
            Ok(board) => Ok(KindBoard::Greatest(board)),
            Err(refusal) => Err(refusal),
        },
        Kind::Best => match Opened::new(alloc, limits, seats, Best, stamp) {
            Ok(board) => Ok(KindBoard::Best(board)),
            Err(refusal) => Err(refusal),
        },
        Kind::Affine => match Opened::new(alloc, limits, seats, Affine, stamp) {
            Ok(board) => Ok(KindBoard::Affine(board)),
            Err(refusal) => Err(refusal),
        },
        Kind::Automaton => match Opened::new(alloc, limits, seats, Automaton::program(), stamp) {
            Ok(board) => Ok(KindBoard::Automaton(board)),
            Err(refusal) => Err(refusal),
        },
    }
}

// A board in a place of its own.
fn boxed_board(alloc: Global, board: KindBoard) -> Result<Box<Object>, AllocError>
    ensures { IfOk result (λ b. b.value ≡ behind.Board board) }
{
    Ok(Box::new(alloc, Object::Board(board))?)
}

// Puts a board into an empty slot.
fn house(alloc: Global, slot: &mut Slot, board: KindBoard) -> u32
    requires { slot.old.raw.inner ≡ None }
    ensures { ((result ≡ 6) × (slot.new.raw.inner ≡ None)) ⊎ ((result ≡ 0) × (slot.new.raw.inner ≡ Some (behind.Board board))) }
{
    match boxed_board(alloc, board) {
        Err(_) => NO_MEMORY,
        Ok(held) => {
            put(slot, held);
            0
        }
    }
}

// Puts a new board into an empty slot.
fn open_board(
    alloc: Global,
    slot: &mut Slot,
    kind: Kind,
    limits: Limits,
    seats: u32,
    stamp: u64,
) -> u32
    requires { slot.old.raw.inner ≡ None }
    ensures { OpensBoardAt kind limits seats stamp result slot.new.raw.inner }
{
    match open_kind(alloc, kind, limits, seats, stamp) {
        Err(refusal) => refusal.number(),
        Ok(board) => house(alloc, slot, board),
    }
}

/// Puts a new board with so many seats into an empty slot. Who calls owes each board a stamp of its own.
#[unsafe(no_mangle)]
pub extern "C" fn livevec_proved_board_new(
    alloc: Global,
    slot: &mut Slot,
    kind: u32,
    buckets: u32,
    edits: u32,
    seats: u32,
    stamp: u64,
) -> u32
    ensures { OpensBoard kind buckets edits seats stamp result slot.old.raw.inner slot.new.raw.inner }
{
    if is_full(slot) {
        return IN_USE;
    }
    let Some(kind) = kind_of(kind) else {
        return BAD_LIMITS;
    };
    match Limits::new(buckets, edits) {
        Err(refusal) => refusal.number(),
        Ok(limits) => open_board(alloc, slot, kind, limits, seats, stamp),
    }
}

// The first of the seats that are there.
fn sit_at(board: &mut KindBoard) -> Result<KindSeat, Unseated>
    ensures ok { IfOk result (λ s. Sits (shared_at board.old) (sat_at s) (shared_at board.new)) }
    ensures out { IfOk result (λ s. IsOutOf board.new s) }
    ensures err { IfErr result (λ why. (shared_at board.new ≡ shared_at board.old) × IsUnseated (shared_at board.old) why) }
{
    match board {
        KindBoard::Sum(board) => match board.sit() {
            Ok(taken) => Ok(KindSeat::Sum(taken)),
            Err(why) => Err(why),
        },
        KindBoard::Least(board) => match board.sit() {
            Ok(taken) => Ok(KindSeat::Least(taken)),
            Err(why) => Err(why),
        },
        KindBoard::Greatest(board) => match board.sit() {
            Ok(taken) => Ok(KindSeat::Greatest(taken)),
            Err(why) => Err(why),
        },
        KindBoard::Best(board) => match board.sit() {
            Ok(taken) => Ok(KindSeat::Best(taken)),
            Err(why) => Err(why),
        },
        KindBoard::Affine(board) => match board.sit() {
            Ok(taken) => Ok(KindSeat::Affine(taken)),
            Err(why) => Err(why),
        },
        KindBoard::Automaton(board) => match board.sit() {
            Ok(taken) => Ok(KindSeat::Automaton(taken)),
            Err(why) => Err(why),
        },
    }
}

// The number for why nobody got a seat.
fn unseated(why: Unseated) -> u32
    ensures { result ≡ seatless why }
{
    match why {
        Unseated::NoSeat => NO_SEAT,
        Unseated::NoMemory => NO_MEMORY,
    }
}

// Puts the first of the seats that are there into an empty slot. Room is made before anything changes.
fn sit_board(alloc: Global, board: &mut KindBoard, seat: &mut Slot) -> u32
    requires { seat.old.raw.inner ≡ None }
    ensures { SitsBoard result board.old board.new seat.new.raw.inner }
{
    let Ok(room) = new_vector(alloc, None, Limits::greatest(), Automaton::program()) else {
        return NO_MEMORY;
    };
    match sit_at(board) {
        Err(why) => unseated(why),
        Ok(taken) => {
            put(seat, refilled(room, Object::Seat(taken)));
            0
        }
    }
}

// Puts the first of the seats that are there into an empty slot, if the object is a board.
fn sit_of(alloc: Global, object: &mut Object, seat: &mut Slot) -> u32
    requires { seat.old.raw.inner ≡ None }
    ensures { SitsObject result object.old object.new seat.new.raw.inner }
{
    match object {
        Object::Board(board) => sit_board(alloc, board, seat),
        _ => NO_HANDLE,
    }
}

/// Puts the first of the seats that are there into an empty slot.
#[unsafe(no_mangle)]
pub extern "C" fn livevec_proved_board_sit(alloc: Global, board: &mut Slot, seat: &mut Slot) -> u32
    ensures { SitsDown result board.old.raw.inner seat.old.raw.inner board.new.raw.inner seat.new.raw.inner }
{
    if is_full(seat) {
        return IN_USE;
    }
    match take(alloc, board) {
        None => NO_HANDLE,
        Some(mut held) => {
            let answer = sit_of(alloc, &mut held, seat);
            put(board, held);
            answer
        }
    }
}
