//! The summary of a shard.
ghost use Rattle.std.specs.Prelude.{◌≡◌, ◌++◌, ◌^◌, ◌<◌, ◌≤◌, ℤ, List, [], ℕ, IfOk, IfSome, IsSome, length, None, Option};
ghost use Rattle.lv_bodies.specs.Automata.{table_of};
ghost use Rattle.lv_shards.specs.Reading.{six_of};
ghost use Rattle.lv_shards.specs.Summaries.{AreLeads, IsFold, IsPossible, IsSummaryOf, empty_of, join_of, leads_of};

use crate::filled::{Filled, each_of, is_within};
use crate::refusals::JoinRefusal;
use crate::sixfold::{Each, Leads, identity, join_each, leads_by};
use lv_bodies::{Automaton, SixByTable, fold_slice};
use std::marker::Model;

/// The aggregate of a list of elements by each of the six kinds, how many elements there are, by which automaton, and at which version
/// (after which edit) one vector had them.
#[derive(Drop)]
pub struct ShardSummary {
    count: u64,
    edit: Option<u32>,
    six: Each,
    leads: Leads,
}

impl Model for ShardSummary {
    ghost use Rattle.lv_shards.specs.Summaries.{IsPossible, Summary};

    ghost Value = { Summary };

    ghost view = { λ a. record { count = a.count; edit = a.edit; six = a.six; leads = a.leads } };

    ghost inverse = { λ s. record { count = s.count; edit = s.edit; six = s.six; leads = s.leads } };

    ghost invariant = { λ a. IsPossible (record { count = a.count; edit = a.edit; six = a.six; leads = a.leads }) };
}

// That an edit's number is one of 32 bits. Computes nothing.
fn tell_range(edit: Option<u32>)
    ensures { IfSome edit (λ e. e < 2 ^ 32) }
{
    match edit {
        None => {}
        Some(_) => {}
    }
}

impl ShardSummary {
    /// The summary of no elements.
    pub fn empty(automaton: Automaton) -> ShardSummary
        ensures empty { result ≡ empty_of (leads_of (table_of automaton)) }
        ensures summary { IsSummaryOf (table_of automaton) [] result }
    {
        ShardSummary {
            count: 0,
            edit: None,
            six: identity(),
            leads: leads_by(automaton),
        }
    }

    /// The summary of what some elements come to by each, as a vector had them after an edit.
    pub fn of_fold(automaton: Automaton, count: u64, edit: Option<u32>, six: Each) -> ShardSummary
        requires { IsFold (table_of automaton) count six }
        ensures { result ≡ record { count = count; edit = edit; six = six; leads = leads_of (table_of automaton) } }
    {
        tell_range(edit);
        ShardSummary {
            count,
            edit,
            six,
            leads: leads_by(automaton),
        }
    }

    /// The summary of the elements of a slice. It has no version.
    pub fn of_slice(automaton: Automaton, xs: &[i64]) -> ShardSummary
        requires { length xs.now ≤ 2 ^ 20 }
        ensures summary { IsSummaryOf (table_of automaton) xs.now result }
        ensures edit { result.edit ≡ None }
    {
        let six = fold_slice(&SixByTable { automaton }, xs);
        ShardSummary {
            count: xs.len() as u64,
            edit: None,
            six: six.each(),
            leads: leads_by(automaton),
        }
    }

    /// The summary of no elements, by an automaton that leads to these states.
    pub(crate) fn of_none(edit: Option<u32>, leads: Leads) -> ShardSummary
        requires { AreLeads leads }
        ensures { result ≡ record (empty_of leads) { edit = edit } }
    {
        tell_range(edit);
        ShardSummary {
            count: 0,
            edit,
            six: identity(),
            leads,
        }
    }

    /// The summary of some elements that come to this, if so many can.
    pub(crate) fn of_some(
        count: u64,
        edit: Option<u32>,
        filled: Filled,
        leads: Leads,
    ) -> Option<ShardSummary>
        requires some { 0 < count }
        requires leads { AreLeads leads }
        ensures said { IfSome result (λ s. s ≡ record { count = count; edit = edit; six = six_of filled; leads = leads }) }
        ensures only { IsPossible (record { count = count; edit = edit; six = six_of filled; leads = leads }) → IsSome result }
    {
        tell_range(edit);
        if count > 1 << 62 || !is_within(filled, count) {
            return None;
        }
        Some(ShardSummary {
            count,
            edit,
            six: each_of(filled),
            leads,
        })
    }

    /// How many elements it is of.
    pub fn count(&self) -> u64
        ensures value { result ≡ self.now.count }
        ensures few { result ≤ 2 ^ 62 }
    {
        self.count
    }

    /// The version at which one vector had the elements, if one had them.
    pub fn edit(&self) -> Option<u32>
        ensures { result ≡ self.now.edit }
    {
        self.edit
    }

    /// The fold of the elements by each of the six.
    pub fn six(&self) -> Each
        ensures { result ≡ self.now.six }
    {
        self.six
    }

    /// For each remainder by 4, the states that the automaton leads to.
    pub fn leads(&self) -> Leads
        ensures { result ≡ self.now.leads }
    {
        self.leads
    }

    /// That it may be the summary of its count of elements. Computes nothing.
    pub fn keeps(&self)
        ensures { IsPossible self.now }
    {
        let _ = &self.count;
    }

    /// The summary of these elements, and then of those of another.
    ///
    /// # Errors
    /// `OtherTable` if their automata differ, else `TooLong` if they are more than 2^62 elements together.
    pub fn join(&self, right: &ShardSummary) -> Result<ShardSummary, JoinRefusal>
        ensures joined { result ≡ join_of self.now right.now }
        ensures end_to_end { (table : List (List ℕ)) (xs ys : List ℤ) → IsSummaryOf table xs self.now → IsSummaryOf table ys right.now
            → IfOk result (IsSummaryOf table (xs ++ ys)) }
    {
        if self.leads != right.leads {
            return Err(JoinRefusal::OtherTable);
        }
        if self.count + right.count > 1 << 62 {
            return Err(JoinRefusal::TooLong);
        }
        Ok(ShardSummary {
            count: self.count + right.count,
            edit: None,
            six: join_each(self.six, right.six),
            leads: self.leads,
        })
    }
}
