//! Closes a board.
ghost use Rattle.std.specs.Prelude.{◌≡◌, ℕ, ◌<◌, ◌≤◌, true, [], ◌∷◌, ◌++◌, map, slice_index, vec_capacity, All, IfOk, IfErr};
ghost use Rattle.std.specs.List.{range_with_len};
ghost use Rattle.std.specs.Mem.Slots.{slots_items, slots_len, IsFull};
ghost use Rattle.lv_geometry.specs.Cells.{capacity_of};
ghost use Rattle.lv_machine.specs.Layout.{cell_place, count_of};
ghost use Rattle.lv_machine.specs.Words.{edit_of, signed, size_of};
ghost use Rattle.lv_board.specs.Closing.{AreAll, AreAt, IsClosed};
ghost use Rattle.lv_board.specs.Ended.{IsEnded, IsSettled, shown_at};
ghost use Rattle.lv_board.specs.Rule.{terms_of, limits_of};
ghost use Rattle.lv_board.specs.Tells.{actor_of, IsAt};

use crate::actors::View;
use crate::board::Board;
use crate::bodies::BoardBody;
use crate::plays::Gather;
use crate::remains::{Closed, Elements};
use crate::seats::Seat;
use crate::words::{cell_place_of, edit_in, element, index_in, size_in, value_in};
use atomic_table::{Closed as Shut, Seat as Token};
use lv_geometry::capacity;
use std::alloc::Global;

// The 16 bits of the element at an index, as the last words show it. `look` is the first of these words.
#[tactic(auto, using(crate::proofs::Closes::shown_elsewhere))]
fn shown(words: &Shut<(), Global>, look: u64, i: u32) -> u16
    requires full { IsFull words.now.words }
    requires look { look ≡ slice_index (slots_items words.now.words) 0 }
    requires within { cell_place i < slots_len words.now.words }
    ensures { signed result ≡ shown_at (slots_items words.now.words) i }
{
    if index_in(look) == i {
        return value_in(look);
    }
    value_in(words.word(cell_place_of(i)))
}

// The closed vector, from its last descriptor and its elements.
fn closed_at(look: u64, elements: Vec<i64>) -> Closed
    ensures edit { result.edit ≡ edit_of look }
    ensures elements { result.elements ≡ elements.items }
{
    Closed {
        edit: edit_in(look),
        elements: Elements::from_vec(elements),
    }
}

// Puts the elements that the last words show into a vector that has room for them.
fn collect(words: &Shut<(), Global>, look: u64, elements: &mut Vec<i64>)
    requires full { IsFull words.now.words }
    requires look { look ≡ slice_index (slots_items words.now.words) 0 }
    requires within { (i : ℕ) → i < size_of look → cell_place i < slots_len words.now.words }
    requires none { elements.old.items ≡ [] }
    requires room { size_of look ≤ vec_capacity elements.old }
    ensures { elements.new.items ≡ map (shown_at (slots_items words.now.words)) (range_with_len 0 (size_of look)) }
{
    for i in 0..size_in(look) {
        elements.push_reserved(element(shown(words, look, i)));
    }
}

impl<B: BoardBody> Board<B> {
    // Merges seats into one token, whose view has their actors in the order of the seats.
    fn gather(&self, mut seats: Vec<Seat<B>>, last: Seat<B>) -> Token<(), View<B>>
        requires last { IsAt self.now.table.shared.table_id self.now.terms last }
        requires at { AreAt self.now.table.shared.table_id self.now.terms seats.items }
        ensures table { result.table_id ≡ self.now.table.shared.table_id }
        ensures sits { result.me.0.sits ≡ true }
        ensures actors { result.me.0.actor ∷ result.me.0.more ≡ map actor_of (seats.items ++ last ∷ []) }
    {
        let Seat {
            terms: _,
            look: _,
            token: mut gathered,
        } = last;
        while let Some(seat) = seats.pop() {
            let Seat {
                terms: _,
                look: _,
                mut token,
            } = seat;
            self.table.shared.join_seat::<Gather>(&mut token, gathered);
            gathered = token;
        }
        gathered
    }

    // The last words, which show what all seats know.
    fn settle(self, mut seats: Vec<Seat<B>>) -> Shut<(), Global>
        requires at { AreAt self.table.shared.table_id self.terms seats.items }
        ensures words { slots_len result.words ≡ count_of (limits_of self.terms) }
        ensures slots { slots_len result.slots ≡ 0 }
        ensures full { IsFull result.words }
        ensures settled { IsSettled (terms_of B.folding self.terms) (map actor_of seats.items) (slots_items result.words) }
    {
        let Some(last) = seats.pop() else {
            let Board { terms: _, table } = self;
            return table.close();
        };
        let token = self.gather(seats, last);
        let Board { terms: _, table } = self;
        table.close_with(token)
    }

    /// How many elements the board takes. The vector into which it is closed needs this much room.
    pub fn capacity(&self) -> u32
        ensures { result ≡ capacity_of self.now.terms.buckets }
    {
        capacity(self.terms.buckets)
    }

    /// How many seats the board has.
    pub fn seats(&self) -> u32
        ensures { result ≡ self.now.terms.seats }
    {
        self.terms.seats
    }

    // The closed vector, for the seats that are handed in, in a vector that has room for its elements.
    pub(crate) fn close_by(self, seats: Vec<Seat<B>>, mut elements: Vec<i64>) -> Closed
        requires at { AreAt self.table.shared.table_id self.terms seats.items }
        requires none { elements.items ≡ [] }
        requires room { capacity_of self.terms.buckets ≤ vec_capacity elements }
        ensures { IsEnded (terms_of B.folding self.terms) seats.items result }
    {
        let words = self.settle(seats);
        let look = words.word(0);
        collect(&words, look, &mut elements);
        words.free();
        closed_at(look, elements)
    }

    /// Returns the vector when its threads are done, in a vector that has room for its elements, so that this allocates no memory. All seats are
    /// handed in.
    pub fn close_into(self, seats: Vec<Seat<B>>, elements: Vec<i64>) -> Closed
        requires at { AreAt self.table.shared.table_id self.terms seats.items }
        requires all { AreAll self.terms.seats seats.items }
        requires none { elements.items ≡ [] }
        requires room { capacity_of self.terms.buckets ≤ vec_capacity elements }
        ensures { IsClosed (terms_of B.folding self.terms) seats.items result }
    {
        self.close_by(seats, elements)
    }

    /// Returns the vector when its threads are done: the number of its last update, and its elements. All seats are handed in. If memory runs
    /// out, board and seats are returned unchanged.
    pub fn close(
        self,
        alloc: Global,
        seats: Vec<Seat<B>>,
    ) -> Result<Closed, (Board<B>, Vec<Seat<B>>)>
        requires at { AreAt self.table.shared.table_id self.terms seats.items }
        requires all { AreAll self.terms.seats seats.items }
        ensures ok { IfOk result (λ closed. IsClosed (terms_of B.folding self.terms) seats.items closed) }
        ensures err { IfErr result (λ r. (r.0 ≡ self) × (r.1.items ≡ seats.items)) }
    {
        let Ok(elements) = Vec::with_capacity(alloc, self.capacity() as usize) else {
            return Err((self, seats));
        };
        Ok(self.close_into(seats, elements))
    }
}
