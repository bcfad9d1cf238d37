//! The parameters of a board, what a seat knows, and the view of a seat at the table.
use lv_machine::{Entry, Move};
use std::alloc::AllocError;
use std::collections::LinkedList;

/// The parameters of a board: its limits, the number of its seats, and its monoid instance.
#[derive(Copy)]
pub struct Basis<B: Copy> {
    pub buckets: u32,
    pub edits: u32,
    pub seats: u32,
    pub body: B,
}

impl<B: Copy> Clone for Basis<B> {
    ghost use Rattle.std.specs.Prelude.{◌≡◌, ⊤};

    ghost is_clone = { λ x y. y ≡ x };

    ghost is_infallible = { λ _. ⊤ };

    fn clone(&self) -> Result<Basis<B>, AllocError> {
        Ok(*self)
    }
}

/// A part of a block's aggregate that a seat installed: its place among the words, and its word. No value of this type is made.
pub struct InstalledPart {
    pub place: usize,
    pub word: u64,
}

/// What a seat knows. No value of this type is made.
pub struct Actor {
    pub number: u32,
    /// The history up to its look.
    pub seen: LinkedList<Entry>,
    /// The longest history that one of its steps showed, or that it got from another seat.
    pub known: LinkedList<Entry>,
    /// Its own entries among them.
    pub own: LinkedList<Entry>,
    /// The history that a note had, which it has read since its last look.
    pub told: LinkedList<Entry>,
    /// Whether the cell, and the mark, of its look's pending write are complete.
    pub helped: bool,
    pub marked: bool,
    /// The parts that it installed, the last first. Each is still there, or a later one displaced it.
    pub installed: LinkedList<InstalledPart>,
}

/// The view of a token at the table. No value of this type is made.
pub struct View<B: Copy> {
    /// The actor of a seat. Of a note, what it says. Of the dealer, the number of the next seat.
    pub actor: Actor,
    pub sits: bool,
    pub deals: bool,
    /// The board's basis, or nothing once the view is spent.
    pub bases: LinkedList<Basis<B>>,
    /// The steps that the seat made on the words, the last first.
    pub moves: LinkedList<Move>,
    /// The actors of the seats that were gathered into this one.
    pub more: LinkedList<Actor>,
}
