//! Makes a board and its seats.
ghost use Rattle.std.specs.Prelude.{◌≡◌, ◌<◌, ◌≤◌, ◌⊎◌, ℕ, [], ◌∷◌, ◌++◌, ◌+◌, ◌-◌, ◌*◌, replicate, map, length, IfOk, IfErr, OnOk, vec_len, vec_capacity};
ghost use Rattle.lv_machine.specs.Layout.{count_of};
ghost use Rattle.lv_board.specs.Opening.{AreDealt, IsBasisOf, IsOpeningRefusal, MayOpen};
ghost use Rattle.lv_board.specs.Ordered.{AreInOrder};
ghost use Rattle.lv_board.specs.TableRule.{dealer_from};
ghost use Rattle.lv_board.specs.Rule.{newcomer, limits_of};
ghost use Rattle.lv_board.specs.Stands.{IsBasis};
ghost use Rattle.lv_board.specs.Tells.{actor_of, IsAt};

use crate::actors::{Basis, View};
use crate::board::Board;
use crate::bodies::BoardBody;
use crate::plays::Deal;
use crate::seats::Seat;
use crate::words::{first_descriptor, first_words};
use atomic_table::{Seat as Token, Table};
use lv_geometry::{Limits, Refusal, capacity};
use std::alloc::{AllocError, Global};

// A board with no updates, and the token that deals its seats.
fn lay<B: BoardBody>(
    alloc: Global,
    terms: Basis<B>,
) -> Result<(Board<B>, Token<(), View<B>>), AllocError>
    requires { IsBasis terms }
    ensures { IfOk result (λ r. (r.0.terms ≡ terms) × (r.1.table_id ≡ r.0.table.shared.table_id) × (r.1.me ≡ (dealer_from terms 0, []))) }
{
    let words = first_words(alloc, capacity(terms.buckets))?;
    let (table, dealer) = Table::of_words(alloc, words.as_slice(), &terms)?;
    Ok((Board { terms, table }, dealer))
}

impl<B: BoardBody> Board<B> {
    // The next seat.
    fn deal(&self, dealer: &mut Token<(), View<B>>) -> Seat<B>
        requires here { dealer.old.table_id ≡ self.now.table.shared.table_id }
        requires deals { (number : ℕ) × (dealer.old.me ≡ (dealer_from self.now.terms number, [])) × (number < self.now.terms.seats) }
        ensures seat { IsAt self.now.table.shared.table_id self.now.terms result }
        ensures actor { actor_of result ≡ newcomer dealer.old.me.0.actor.number }
        ensures here { dealer.new.table_id ≡ dealer.old.table_id }
        ensures deals { dealer.new.me ≡ (dealer_from self.now.terms (dealer.old.me.0.actor.number + 1), []) }
    {
        let token = self.table.shared.split_seat::<Deal>(dealer);
        Seat {
            terms: self.terms,
            look: first_descriptor(),
            token,
        }
    }

    // All seats, in the order of their numbers.
    fn deal_all(&self, dealer: &mut Token<(), View<B>>, seats: &mut Vec<Seat<B>>)
        requires here { dealer.old.table_id ≡ self.now.table.shared.table_id }
        requires deals { dealer.old.me ≡ (dealer_from self.now.terms 0, []) }
        requires none { seats.old.items ≡ [] }
        requires room { self.now.terms.seats ≤ vec_capacity seats.old }
        ensures count { length seats.new.items ≡ self.now.terms.seats }
        ensures dealt { AreDealt self.now.table.shared.table_id self.now.terms seats.new.items }
    {
        for _number in 0..self.terms.seats {
            let seat = self.deal(dealer);
            seats.push_reserved(seat);
        }
    }

    /// A board with no updates, and its seats. Seat k is actor k. Refused with `BadLimits` for more than 9 buckets, or for a number of seats that
    /// isn't 1 to 8, then with `NoMemory`.
    pub fn new(
        alloc: Global,
        limits: Limits,
        seats: u32,
        body: B,
    ) -> Result<(Board<B>, Vec<Seat<B>>), Refusal>
        ensures allowed { IfOk result (λ r. MayOpen limits seats) }
        ensures basis { IfOk result (λ r. IsBasisOf limits seats body r.0.terms) }
        ensures count { IfOk result (λ r. length r.1.items ≡ seats) }
        ensures dealt { IfOk result (λ r. AreDealt r.0.table.shared.table_id r.0.terms r.1.items) }
        ensures order { IfOk result (λ r. AreInOrder r.0.table.shared.table_id r.0.terms r.1.items) }
        ensures err { IfErr result (λ refusal. IsOpeningRefusal limits seats refusal) }
    {
        if limits.buckets() > 9 || seats == 0 || seats > 8 {
            return Err(Refusal::BadLimits);
        }
        let terms = Basis {
            buckets: limits.buckets(),
            edits: limits.edits(),
            seats,
            body,
        };
        let Ok(mut places) = Vec::with_capacity(alloc, seats as usize) else {
            return Err(Refusal::NoMemory);
        };
        let Ok((board, mut dealer)) = lay(alloc, terms) else {
            return Err(Refusal::NoMemory);
        };
        board.deal_all(&mut dealer, &mut places);
        Ok((board, places))
    }
}
