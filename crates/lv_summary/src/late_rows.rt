//! Rows that cost only addresses until they are written.
ghost use Rattle.std.specs.Prelude.{◌≡◌, ℕ, ◌+◌, ◌*◌, ◌%◌, ◌<◌, ◌≤◌, ◌++◌, [], ◌∷◌, length, min, replicate, nat_eq, true, false, slice_get, slice_set, Some, IfSome, vec_capacity, if◌then◌else◌};
ghost use Rattle.std.specs.List.{slice_index_or};
ghost use Rattle.lv_summary.specs.Inner.{AreEight, AreLaterEight, HasPart, item_at, later_item, lengthened};

use crate::pieces::{PIECE, Piece};
use std::alloc::{AllocError, Global};
use std::marker::Model;
use std::mem;

/// A list that is written in part; the rest of it is blank, and costs only addresses until it is written. It is stored in pieces of 512 items, so
/// that little is written to reach one far behind.
#[derive(Drop)]
pub struct LateRows<S> {
    alloc: Global,
    front: Vec<S>,
    later: Vec<Piece<S>>,
    count: usize,
    blank: S,
}

impl<S> Model for LateRows<S> {
    ghost use Rattle.std.specs.Prelude.{◌≡◌, ℕ, ◌<◌, ◌≤◌, length, min, vec_capacity};
    ghost use Rattle.lv_summary.specs.Inner.{LateRowsState, in_pieces, item_at, room_in_pieces};

    ghost Value = { LateRowsState S };

    ghost view = { λ a. record { items = in_pieces a.front.items a.later.items a.blank a.count; capacity = room_in_pieces (vec_capacity a.front) (length a.later.items); blank = a.blank } };

    ghost invariant = { λ a. (a.count ≤ room_in_pieces (vec_capacity a.front) (length a.later.items))
        × (length a.front.items ≤ min a.count 512)
        × (a.count < 18446744073709551616)
        × ((k : ℕ) → a.count ≤ k → item_at a.front.items a.later.items a.blank k ≡ a.blank) };
}

impl<S: Copy> LateRows<S> {
    /// An empty list, whose blanks are `blank`. Takes no memory.
    pub fn new(alloc: Global, blank: S) -> LateRows<S>
        ensures items { result.items ≡ [] }
        ensures blank { result.blank ≡ blank }
    {
        LateRows {
            alloc,
            front: Vec::new(alloc),
            later: Vec::new(alloc),
            count: 0,
            blank,
        }
    }

    /// Makes memory for so many items in all, and says whether there is. The list stays as it is.
    pub fn reserve(&mut self, items: usize) -> bool
        ensures items { self.new.items ≡ self.old.items }
        ensures blank { self.new.blank ≡ self.old.blank }
        ensures room { result ≡ true → items ≤ self.new.capacity }
    {
        let more = items.min(PIECE).saturating_sub(self.front.len());
        reserve_front(&mut self.front, more) && reserve_later(self.alloc, &mut self.later, items)
    }

    /// Adds blanks, so that there are so many items in all, if there are fewer. Writes none of them.
    pub fn fill(&mut self, items: usize)
        requires { items ≤ self.old.capacity }
        ensures items { self.new.items ≡ lengthened self.old.items items self.old.blank }
        ensures blank { self.new.blank ≡ self.old.blank }
    {
        self.count = self.count.max(items);
    }

    /// How many items there are.
    pub fn len(&self) -> usize
        ensures { result ≡ length self.now.items }
    {
        self.count
    }

    /// Makes every item blank. Writes none of them.
    pub fn forget(&mut self)
        ensures items { self.new.items ≡ replicate (length self.old.items) self.old.blank }
        ensures blank { self.new.blank ≡ self.old.blank }
    {
        self.front.clear();
        forget_later(&mut self.later);
    }

    /// The item at a number.
    #[inline(always)]
    pub fn at(&self, number: usize) -> S
        requires { number < length self.now.items }
        ensures { slice_get self.now.items number ≡ Some result }
    {
        *self.get(number)
    }

    /// The item at a number, by reference, so that no more of it is copied than is read.
    #[inline(always)]
    pub fn get(&self, number: usize) -> &S
        requires { number < length self.now.items }
        ensures { slice_get self.now.items number ≡ Some result.now }
    {
        item_of(&self.front, &self.later, number, &self.blank)
    }

    /// Eight items, from one on, as a slice, if they are stored side by side; none if one of them was never written.
    #[inline(always)]
    pub fn eight(&self, first: usize) -> Option<&[S]>
        requires { first + 8 ≤ length self.now.items }
        ensures { IfSome result (λ eight. AreEight eight.now self.now.items first) }
    {
        match self.front.get(first..first + 8) {
            Some(eight) => Some(eight),
            None => later_eight(&self.later, first),
        }
    }

    /// Puts an item at a number; blanks before it in its piece that were never written are written first.
    #[inline(always)]
    pub fn set(&mut self, number: usize, s: S)
        requires { number < length self.old.items }
        ensures items { self.new.items ≡ slice_set self.old.items number s }
        ensures blank { self.new.blank ≡ self.old.blank }
    {
        if number < PIECE {
            set_front(&mut self.front, self.count, number, s, self.blank);
        } else {
            self.later[number / PIECE - 1].set(number % PIECE, s, self.blank);
        }
    }

    /// Puts a whole piece of items in the place of those from a number on, by taking their memory: none is copied. The memory of those
    /// goes to who gave them, with whatever lay there. Takes no memory.
    pub fn adopt(&mut self, first: usize, items: &mut Vec<S>)
        requires whole { length items.old.items ≡ 512 }
        requires aligned { first % 512 ≡ 0 }
        requires inside { first + 512 ≤ length self.old.items }
        ensures items { HasPart self.old.items self.new.items first items.old.items }
        ensures blank { self.new.blank ≡ self.old.blank }
    {
        if first < PIECE {
            mem::swap(&mut self.front, items);
        } else {
            self.later[first / PIECE - 1].swap(items);
        }
    }
}

// The item at a number, by reference, so that it is copied once.
#[inline(always)]
fn item_of<'a, S: Copy>(front: &'a [S], later: &'a [Piece<S>], number: usize, blank: &'a S) -> &'a S
    requires { length front.now ≤ 512 }
    ensures { result.now ≡ item_at front.now later.now blank.now number }
{
    match front.get(number) {
        Some(s) => s,
        None => later_at(later, number, blank),
    }
}

// The item at a number past what was written to the first piece.
#[inline(always)]
fn later_at<'a, S: Copy>(later: &'a [Piece<S>], number: usize, blank: &'a S) -> &'a S
    ensures { result.now ≡ later_item later.now number blank.now }
{
    if number < PIECE {
        return blank;
    }
    match later.get(number / PIECE - 1) {
        Some(piece) => piece.at(number % PIECE, blank),
        None => blank,
    }
}

// Eight items behind the first piece, if they were written and are in one piece.
#[inline(always)]
fn later_eight<S: Copy>(later: &[Piece<S>], first: usize) -> Option<&[S]>
    ensures { IfSome result (λ eight. AreLaterEight eight.now later.now first) }
{
    let place = first % PIECE;
    if first < PIECE || place > PIECE - 8 {
        return None;
    }
    match later.get(first / PIECE - 1) {
        Some(piece) => piece.eight(place),
        None => None,
    }
}

// Puts an item into the first piece, and blanks before it that were never written. The memory for them is there.
#[inline(always)]
fn set_front<S: Copy>(front: &mut Vec<S>, count: usize, number: usize, s: S, blank: S)
    requires inside { number < count }
    requires first { number < 512 }
    requires memory { min count 512 ≤ vec_capacity front.old }
    requires few { length front.old.items ≤ min count 512 }
    ensures items { (k : ℕ) → slice_index_or front.new.items k blank ≡ (if nat_eq k number then s else slice_index_or front.old.items k blank) }
    ensures few { length front.new.items ≤ min count 512 }
    ensures capacity { vec_capacity front.old ≤ vec_capacity front.new }
{
    if number >= front.len() {
        write_blanks(front, count.min(number + 64).min(PIECE), blank);
    }
    front[number] = s;
}

// Adds blanks to what was written, so that there are so many items in all. The memory for them is there.
#[inline(never)]
pub(crate) fn write_blanks<S: Copy>(front: &mut Vec<S>, items: usize, blank: S)
    requires longer { length front.old.items ≤ items }
    requires memory { items ≤ vec_capacity front.old }
    ensures items { front.new.items ≡ lengthened front.old.items items blank }
    ensures capacity { vec_capacity front.old ≤ vec_capacity front.new }
{
    let Ok(()) = front.resize(items, blank) else {
        unreachable!()
    };
}

// Makes memory for further items of the first piece, and says whether there is. The first time it is for no more than those, since most
// lists are short; later it grows in doublings.
fn reserve_front<S: Copy>(front: &mut Vec<S>, more: usize) -> bool
    ensures items { front.new.items ≡ front.old.items }
    ensures capacity { vec_capacity front.old ≤ vec_capacity front.new }
    ensures room { result ≡ true → length front.old.items + more ≤ vec_capacity front.new }
{
    if front.capacity() == 0 {
        front.reserve_exact(more).is_ok()
    } else {
        front.reserve(more).is_ok()
    }
}

// Makes memory for the pieces behind the first that so many items need, and says whether there is. Nothing is written to them.
fn reserve_later<S: Copy>(alloc: Global, later: &mut Vec<Piece<S>>, items: usize) -> bool
    ensures same { (number : ℕ) (blank : S) → later_item later.new.items number blank ≡ later_item later.old.items number blank }
    ensures more { length later.old.items ≤ length later.new.items }
    ensures room { result ≡ true → items ≤ 512 + 512 * length later.new.items }
{
    let more = (items.saturating_sub(1) / PIECE).saturating_sub(later.len());
    for _piece in 0..more {
        if !add_piece(alloc, later) {
            return false;
        }
    }
    true
}

// Adds a piece to which nothing was written, and says whether there is memory.
fn add_piece<S: Copy>(alloc: Global, later: &mut Vec<Piece<S>>) -> bool
    ensures piece { result ≡ true → later.new.items ≡ later.old.items ++ [] ∷ [] }
    ensures same { result ≡ false → later.new.items ≡ later.old.items }
{
    match Piece::new(alloc) {
        Ok(piece) => later.push(piece).is_ok(),
        Err(AllocError) => false,
    }
}

// Makes every item of some pieces blank.
fn forget_later<S: Copy>(later: &mut Vec<Piece<S>>)
    ensures blank { (number : ℕ) (blank : S) → later_item later.new.items number blank ≡ blank }
    ensures pieces { length later.new.items ≡ length later.old.items }
{
    for k in 0..later.len() {
        later[k].forget();
    }
}
