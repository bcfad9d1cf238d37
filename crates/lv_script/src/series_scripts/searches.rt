//! Searches in a range of a series.
ghost use Rattle.lv_script.specs.Searched.{best_run, index_of};
ghost use Rattle.lv_script.specs.Values.{Seeks};

use crate::long_commands::Search;
use lv_series::{LongRefusal, Series};

/// The index that a search in a range finds, if there is one. The tree of the kind that the search needs is made first. The errors, in the order in
/// which they are checked, are `BadRange`, `OutOfRange` and `NoMemory`.
#[tactic(auto, using(crate::proofs::FoundLaws::first_sought, crate::proofs::FoundLaws::last_sought, crate::proofs::FoundLaws::end_sought))]
pub fn index_of(
    series: &mut Series,
    sought: Search,
    lo: u64,
    hi: u64,
) -> Result<Option<u64>, LongRefusal>
    ensures { Seeks (index_of sought) series.old lo hi result series.new }
{
    match sought {
        Search::First(bound) => series.first_index(bound, lo, hi),
        Search::Last(bound) => series.last_index(bound, lo, hi),
        Search::Reach(sum) => series.reaches(lo, hi, i128::from(sum)),
        Search::Least => match series.first_least(lo, hi) {
            Ok(placed) => Ok(placed.map(|placed| placed.index)),
            Err(refusal) => Err(refusal),
        },
        Search::Greatest => match series.first_greatest(lo, hi) {
            Ok(placed) => Ok(placed.map(|placed| placed.index)),
            Err(refusal) => Err(refusal),
        },
    }
}

/// The start and the end of the run of a range with the greatest sum, if there are elements. The errors are those of `index_of`.
pub fn run_of(series: &mut Series, lo: u64, hi: u64) -> Result<Option<(u64, u64)>, LongRefusal>
    ensures { Seeks best_run series.old lo hi result series.new }
{
    match series.best_run(lo, hi) {
        Ok(run) => Ok(run.map(|run| (run.from, run.to))),
        Err(refusal) => Err(refusal),
    }
}
