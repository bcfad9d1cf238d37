//! What combining summaries preserves, as laws about the values of summaries.
ghost use Rattle.std.specs.Prelude.{◌≡◌, ℕ, Ok, None, List, IfOk, IsTrue};
ghost use Rattle.lv_bodies.specs.Tables.{is_table};
ghost use Rattle.std.specs.List.{flat_map};
ghost use Rattle.lv_shards.specs.Shards.{AreOfShards, Shard, elements_of};
ghost use Rattle.lv_shards.specs.Summaries.{IsPossible, IsSummaryOf, Summary, empty_of, join_all_of, join_of, leads_of};

/// An answer combined from shards, each at a version of its own, is that of the elements of all of them end to end, as they were at
/// those versions: their count, and their plain fold by each of the six. The order of the shards is that of the list.
pub fn shards_come_to_the_fold_of_all()
    ensures { (table : List (List ℕ)) (shards : List Shard) (parts : List Summary) → IsTrue (is_table table) → AreOfShards table shards parts
        → IfOk (join_all_of (leads_of table) parts) (IsSummaryOf table (flat_map elements_of shards)) }
{}

/// Three summaries combine to the same, whichever two are combined first.
pub fn joins_may_be_grouped()
    ensures { (s t u front back : Summary) → IsPossible s → IsPossible t → IsPossible u → join_of s t ≡ Ok front → join_of t u ≡ Ok back
        → join_of front u ≡ join_of s back }
{}

/// The summary of no elements, combined on either side, changes nothing, except that the result has no version.
pub fn the_empty_summary_changes_nothing()
    ensures left { (s : Summary) → IsPossible s → join_of (empty_of s.leads) s ≡ Ok (record s { edit = None }) }
    ensures right { (s : Summary) → IsPossible s → join_of s (empty_of s.leads) ≡ Ok (record s { edit = None }) }
{}
