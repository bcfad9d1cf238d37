//! The automaton of a summary, and a summary with more elements after its own.
ghost use Rattle.std.specs.Prelude.{◌≡◌, ◌++◌, ◌+◌, ◌^◌, ◌<◌, ◌≤◌, ◌↔◌, ℕ, ℤ, List, [], IfOk, IsErrOf, All, length, map, slice_index};
ghost use Rattle.lv_bodies.specs.Automata.{table_of};
ghost use Rattle.lv_shards.specs.Summaries.{AreLeads, IsSummaryOf, Summary, join_of, leads_of, rows_of};

use crate::refusals::JoinRefusal;
use crate::shard::ShardSummary;
use crate::sixfold::Leads;
use lv_bodies::Automaton;

// The states to which a state leads by each remainder.
fn row(leads: &Leads, q: usize) -> [u8; 4]
    requires { q < 8 }
    ensures { result ≡ map (λ states. slice_index states q) leads.now }
{
    [leads[0][q], leads[1][q], leads[2][q], leads[3][q]]
}

// The states to which each of the eight leads.
fn rows_by(leads: &Leads) -> [[u8; 4]; 8]
    ensures { result ≡ rows_of leads.now }
{
    let mut rows = [[0; 4]; 8];
    for q in 0..8 {
        rows[q] = row(leads, q);
    }
    rows
}

/// The automaton that leads to these states.
pub fn automaton_by(leads: &Leads) -> Automaton
    requires { AreLeads leads.now }
    ensures rows { table_of result ≡ rows_of leads.now }
    ensures leads { leads_of (table_of result) ≡ leads.now }
{
    match Automaton::new(rows_by(leads)) {
        Ok(automaton) => automaton,
        Err(_) => unreachable!(),
    }
}

impl ShardSummary {
    /// The table of its automaton: for each of the eight states, the states to which it leads by each remainder by 4.
    pub fn rows(&self) -> [[u8; 4]; 8]
        ensures { result ≡ rows_of self.now.leads }
    {
        rows_by(&self.leads())
    }

    /// The summary of its elements, followed by those of a slice.
    ///
    /// # Errors
    /// `TooLong` if they are more than 2^62 together.
    pub fn extend(&self, xs: &[i64]) -> Result<ShardSummary, JoinRefusal>
        requires { length xs.now ≤ 2 ^ 20 }
        ensures joined { (s : Summary) × IsSummaryOf (rows_of self.now.leads) xs.now s × (result ≡ join_of self.now s) }
        ensures end_to_end { (table : List (List ℕ)) (ys : List ℤ) → IsSummaryOf table ys self.now → IfOk result (IsSummaryOf table (ys ++ xs.now)) }
        ensures too_long { IsErrOf result JoinRefusal.TooLong ↔ 2 ^ 62 < self.now.count + length xs.now }
        ensures one_table { ¬ (IsErrOf result JoinRefusal.OtherTable) }
    {
        self.keeps();
        let automaton = automaton_by(&self.leads());
        self.join(&ShardSummary::of_slice(automaton, xs))
    }
}
