//! Many summaries joined in the order of their list.
ghost use Rattle.std.specs.Prelude.{◌≡◌, ◌^◌, ◌≤◌, ℕ, ℤ, List, IfOk, IsOk, Ok, All, fold, sum_by};
ghost use Rattle.lv_bodies.specs.Automata.{table_of};
ghost use Rattle.lv_shards.specs.Shards.{AreSummariesOf, end_to_end};
ghost use Rattle.lv_shards.specs.Summaries.{IsSummaryOf, join_all_of, join_next, leads_of};

use crate::refusals::JoinRefusal;
use crate::shard::ShardSummary;
use lv_bodies::Automaton;

// Combines one after the other, until one is rejected.
fn join_from(first: ShardSummary, parts: &[ShardSummary]) -> Result<ShardSummary, JoinRefusal>
    ensures { result ≡ fold join_next (Ok first) parts.now }
{
    let mut all = first;
    for part in parts {
        all = all.join(part)?;
    }
    Ok(all)
}

/// The summary of the elements of all parts, in the order of the parts. Without parts it is that of no elements.
///
/// # Errors
/// Those of the first combination that is rejected, from the left.
pub fn join_all(automaton: Automaton, parts: &[ShardSummary]) -> Result<ShardSummary, JoinRefusal>
    ensures joined { result ≡ join_all_of (leads_of (table_of automaton)) parts.now }
    // For the parts' lists end to end.
    ensures plain { (lists : List (List ℤ)) → AreSummariesOf (table_of automaton) lists parts.now
        → IfOk result (IsSummaryOf (table_of automaton) (end_to_end lists)) }
    // Parts with one automaton, and with few enough elements, are never rejected.
    ensures granted { All (λ s. s.leads ≡ leads_of (table_of automaton)) parts.now → sum_by (λ s. s.count) parts.now ≤ 2 ^ 62 → IsOk result }
{
    join_from(ShardSummary::empty(automaton), parts)
}
