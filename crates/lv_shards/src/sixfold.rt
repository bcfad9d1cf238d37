//! The six summaries side by side, as plain data that can be made of its parts, and what an automaton leads to.
ghost use Rattle.std.specs.Prelude.{◌≡◌, ℕ, List, Some, IfSome};
ghost use Rattle.lv_bodies.specs.Automata.{table_of};
ghost use Rattle.lv_bodies.specs.Long.{CanJoinLong};
ghost use Rattle.lv_bodies.specs.Six.{six_operations, six_within};
ghost use Rattle.lv_shards.specs.Bytes.{states_at};
ghost use Rattle.lv_shards.specs.Summaries.{AreLeads, leads_of};

use crate::filled::are_states;
use lv_bodies::{Affine, Automaton, Best, Body, Greatest, Least, LongBody, Six, SixPairs, Sum};

/// The summaries by each: the sum, the least, the greatest, the best run, the map, the states.
pub type Each = <SixPairs as Body>::S;

/// For each remainder by 4, the states that it leads to from each of the eight.
pub type Leads = [[u8; 8]; 4];

/// The states that an automaton leads to.
pub fn leads_by(automaton: Automaton) -> Leads
    ensures { result ≡ leads_of (table_of automaton) }
{
    [
        automaton.lift(0),
        automaton.lift(1),
        automaton.lift(2),
        automaton.lift(3),
    ]
}

/// The summaries of no elements.
pub fn identity() -> Each
    ensures { result ≡ six_operations.identity }
{
    Six.identity().each()
}

/// The summaries of the elements of `a`, then those of `b`: at most 2^62 together.
pub fn join_each(a: Each, b: Each) -> Each
    requires { CanJoinLong six_within a b }
    ensures { result ≡ six_operations.join a b }
{
    let (sum, (least, (greatest, (best, (affine, states))))) = a;
    let (next_sum, (next_least, (next_greatest, (next_best, (next_affine, next_states))))) = b;
    let last = (
        Affine.combine_long(affine, next_affine),
        Automaton::program().combine_long(states, next_states),
    );
    let later = (
        Greatest.combine_long(greatest, next_greatest),
        (Best.combine_long(best, next_best), last),
    );
    (
        Sum.combine_long(sum, next_sum),
        (Least.combine_long(least, next_least), later),
    )
}

/// The states to which an automaton leads, from the numbers in which four rows of states are written; none if they are no states.
pub fn leads_by_numbers(zero: u64, one: u64, two: u64, three: u64) -> Option<Leads>
    ensures kept { IfSome result AreLeads }
    ensures back { (leads : List (List ℕ)) → AreLeads leads → zero ≡ states_at leads 0 → one ≡ states_at leads 1 → two ≡ states_at leads 2 → three ≡ states_at leads 3 → result ≡ Some leads }
{
    let (zero, one) = (zero.to_le_bytes(), one.to_le_bytes());
    let (two, three) = (two.to_le_bytes(), three.to_le_bytes());
    if are_states(zero) && are_states(one) && are_states(two) && are_states(three) {
        Some([zero, one, two, three])
    } else {
        None
    }
}
