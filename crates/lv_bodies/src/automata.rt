//! The automaton: the states to which the elements in turn lead from each of eight states.
ghost use Rattle.std.specs.Prelude.{◌≡◌, ◌↔◌, ℕ, ◌+◌, ◌*◌, ◌%◌, ◌<◌, ◌≤◌, IsTrue, IsOk, IfOk, IsErrOf, nat_lt, List, length, map, slice_index, All, Any};
ghost use Rattle.std.specs.List.{list_all};
ghost use Rattle.lv_bodies.specs.Tables.{is_table, has_states, join_state_maps};
ghost use Rattle.lv_bodies.specs.Parts.{packed_states, states_in};

use crate::bodies::Body;
use crate::kinds::{Kind, Shown};
use crate::parts::Parted;
use crate::singles::Single;
use lv_geometry::Refusal;
use std::alloc::AllocError;

/// An automaton of eight states: from state `q`, an element `x` leads to `table[q][x mod 4]`.
#[derive(PartialEq, Eq)]
pub struct Automaton {
    table: [[u8; 4]; 8],
    ghost valid: { IsTrue (is_table table) },
}

impl Clone for Automaton {
    ghost use Rattle.std.specs.Prelude.{◌≡◌, ⊤};

    ghost is_clone = { λ x y. y ≡ x };

    ghost is_infallible = { λ _. ⊤ };

    fn clone(&self) -> Result<Automaton, AllocError> {
        Ok(*self)
    }
}

impl Copy for Automaton {}

impl Automaton {
    ghost use Rattle.lv_bodies.specs.Automata.{table_of};
    ghost use Rattle.lv_bodies.specs.Plain.{program_table};

    /// The automaton of a table.
    ///
    /// # Errors
    /// `BadTable` if an entry is above 7.
    pub fn new(table: [[u8; 4]; 8]) -> Result<Automaton, Refusal>
        ensures taken { IsOk result ↔ All (All (λ q. q ≤ 7)) table }
        ensures refused { IsErrOf result Refusal.BadTable ↔ Any (Any (λ q. 7 < q)) table }
        ensures table { IfOk result (λ a. table_of a ≡ table) }
    {
        if table_has_states(&table) {
            Ok(Automaton { table })
        } else {
            Err(Refusal::BadTable)
        }
    }

    /// The program's automaton: from state `q`, an element `x` leads to `(2 * q + x mod 4) mod 8`.
    #[inline(always)]
    pub fn program() -> Automaton
        ensures { table_of result ≡ program_table }
    {
        // States 4 to 7 go as 0 to 3 do, since 2 * 4 is 8.
        let [a, b, c, d] = [[0, 1, 2, 3], [2, 3, 4, 5], [4, 5, 6, 7], [6, 7, 0, 1]];
        Automaton {
            table: [a, b, c, d, a, b, c, d],
        }
    }
}

/// Whether each entry of a row is one of the eight states.
fn row_has_states(row: &[u8; 4]) -> bool
    ensures { result ≡ list_all (λ q. nat_lt q 8) row.now }
{
    row.iter().all(|q| *q < 8)
}

/// Whether each entry of a table is.
fn table_has_states(table: &[[u8; 4]; 8]) -> bool
    ensures states { result ≡ has_states table.now }
    ensures rows { length table.now ≡ 8 }
{
    table.iter().all(row_has_states)
}

/// The states that the table has for a remainder.
#[inline(always)]
fn column(table: &[[u8; 4]; 8], remainder: usize) -> [u8; 8]
    requires { remainder < 4 }
    ensures { result ≡ map (λ row. slice_index row remainder) table.now }
{
    let mut reached = [0; 8];
    for q in 0..8 {
        reached[q] = table[q][remainder];
    }
    reached
}

/// The states reached by the first row, and from there by the second.
#[inline(always)]
fn follow(first: [u8; 8], second: [u8; 8]) -> [u8; 8]
    requires { All (λ q. q < 8) first }
    ensures { result ≡ join_state_maps first second }
{
    let mut reached = [0; 8];
    for q in 0..8 {
        reached[q] = second[usize::from(first[q])];
    }
    reached
}

impl Automaton {
    ghost use Rattle.lv_bodies.specs.Tables.{automaton_operations};
    ghost use Rattle.lv_bodies.specs.Automata.{table_of};

    /// The states reached by a row, and from there by one element.
    #[inline(always)]
    pub(crate) fn step(&self, states: [u8; 8], x: i64) -> [u8; 8]
        requires { All (λ q. q < 8) states }
        ensures { let o = automaton_operations (table_of self.now) in result ≡ o.join states (o.lift x) }
    {
        follow_table(&self.table, states, (x.cast_unsigned() % 4) as usize)
    }
}

/// The states that the table has for those of a row, by a remainder.
#[inline(always)]
fn follow_table(table: &[[u8; 4]; 8], states: [u8; 8], remainder: usize) -> [u8; 8]
    requires states { All (λ q. q < 8) states }
    requires remainder { remainder < 4 }
    ensures { result ≡ join_state_maps states (map (λ row. slice_index row remainder) table.now) }
{
    let mut reached = [0; 8];
    for q in 0..8 {
        reached[q] = entry(table, states[q], remainder);
    }
    reached
}

/// The state that the table has for another one, by a remainder.
#[tactic(auto, using(crate::specs::TableLaws::column_at))]
#[inline(always)]
fn entry(table: &[[u8; 4]; 8], state: u8, remainder: usize) -> u8
    requires state { state < 8 }
    requires remainder { remainder < 4 }
    ensures { result ≡ slice_index (map (λ row. slice_index row remainder) table.now) state }
{
    table[usize::from(state)][remainder]
}

impl Body for Automaton {
    ghost use Rattle.std.proofs.Common.{ap};
    ghost use Rattle.lv_bodies.specs.Automata.{table_of};
    ghost use Rattle.lv_bodies.specs.Tables.{automaton_operations, IsStateMap};
    ghost use Rattle.lv_bodies.specs.TableLaws.{automaton_laws};
    ghost use Rattle.lv_bodies.specs.EqualLaws.{exact_numbers};

    type S = [u8; 8];

    ghost Meaning = { List (List ℕ) };

    ghost meaning = { table_of };

    ghost operations = { λ a. automaton_operations (table_of a) };

    ghost decided = { λ _ _. ap automaton_operations };

    ghost is_within = { λ _. IsStateMap };

    ghost laws = { λ a. automaton_laws a.table a.valid };

    #[inline(always)]
    fn identity(&self) -> [u8; 8] {
        [0, 1, 2, 3, 4, 5, 6, 7]
    }

    #[inline(always)]
    fn lift(&self, x: i64) -> [u8; 8] {
        column(&self.table, (x.cast_unsigned() % 4) as usize)
    }

    #[inline(always)]
    fn combine(&self, a: [u8; 8], b: [u8; 8]) -> [u8; 8] {
        follow(a, b)
    }

    fn same(&self, other: &Automaton) -> bool {
        self.table == other.table
    }

    ghost equal = { exact_numbers };
}

impl Single for Automaton {
    ghost use Rattle.std.proofs.Common.{ap};
    ghost use Rattle.lv_bodies.specs.declared.kinds.Kind.TheVariants as kind;
    ghost use Rattle.lv_bodies.specs.declared.kinds.Shown.TheVariants as shown;
    ghost use Rattle.lv_bodies.specs.Automata.{table_of};
    ghost use Rattle.lv_bodies.specs.Plain.{plain_automaton};
    ghost use Rattle.lv_bodies.specs.TableLaws.{fold_of-automaton};

    ghost the_kind = { kind.Automaton };

    ghost shown_as = { λ _ s. shown.Automaton s };

    ghost plain = { λ a xs. shown.Automaton (plain_automaton (table_of a) xs) };

    fn kind(&self) -> Kind {
        Kind::Automaton
    }

    fn shown(&self, s: [u8; 8]) -> Shown {
        Shown::Automaton(s)
    }

    ghost shows_plain = { λ a xs _. ap shown.Automaton (fold_of-automaton (table_of a) xs) };
}

/// Eight states in three bits each: bits `3 * q + 2` to `3 * q` have that of `q`.
fn pack(states: [u8; 8]) -> u32
    ensures { result ≡ packed_states states }
{
    let [a, b, c, d, e, f, g, h] = states;
    pack_four(a, b, c, d) + (pack_four(e, f, g, h) << 12)
}

// Four states in three bits each, the first of them lowest.
#[inline(always)]
fn pack_four(a: u8, b: u8, c: u8, d: u8) -> u32
    ensures { result ≡ a % 8 + b % 8 * 8 + c % 8 * 64 + d % 8 * 512 }
{
    u32::from(a % 8) + (u32::from(b % 8) << 3) + (u32::from(c % 8) << 6) + (u32::from(d % 8) << 9)
}

/// The eight states in these bits.
fn unpack(bits: u32) -> [u8; 8]
    ensures { result ≡ states_in bits }
{
    let mut states = [0; 8];
    for q in 0..8 {
        states[q] = ((bits >> (3 * q)) % 8) as u8;
    }
    states
}

impl Parted for Automaton {
    ghost use Rattle.lv_bodies.specs.Parts.{automaton_parts, automaton_of_parts};
    ghost use Rattle.lv_bodies.specs.PartsLaws.{automaton-are_parts, automaton-has_parts};
    ghost use Rattle.std.proofs.Common.{lit≤};

    ghost PARTS = { 1 };

    const PARTS: u32 = 1;

    ghost some = { (lit≤ tt, lit≤ tt) };

    ghost parts_of = { automaton_parts };

    ghost whole_of = { automaton_of_parts };

    ghost are_parts = { automaton-are_parts };

    fn to_parts(s: [u8; 8]) -> [u32; 4] {
        [pack(s), 0, 0, 0]
    }

    fn of_parts(parts: [u32; 4]) -> [u8; 8] {
        unpack(parts[0])
    }

    ghost has_parts = { λ a. automaton-has_parts a.table a.valid };
}
