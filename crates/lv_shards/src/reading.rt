//! How the numbers of a summary are read.
ghost use Rattle.std.specs.Prelude.{◌≡◌, ◌<◌, ◌^◌, ℕ, Option, Some, IfSome, is_some, unwrap_or, if◌then◌else◌};
ghost use Rattle.lv_shards.specs.Bytes.{numbers_of};
ghost use Rattle.lv_shards.specs.Reading.{six_of};
ghost use Rattle.lv_shards.specs.Summaries.{AreLeads, IsPossible, Summary};

use crate::filled::Filled;
use crate::numbers::{Numbers, whole};
use crate::shard::ShardSummary;
use crate::sixfold::{Leads, leads_by_numbers};
use lv_bodies::{AffineMap, RunTotals};

// The version after its mark.
fn edit_in(mark: u64, number: u64) -> Option<u32>
    ensures { (edit : Option ℕ) → IfSome edit (λ e. e < 2 ^ 32) → mark ≡ (if is_some edit then 1 else 0) → number ≡ unwrap_or edit 0 → result ≡ edit }
{
    if mark == 0 {
        None
    } else {
        Some((number % (1 << 32)) as u32)
    }
}

// The best run of some elements.
fn run_in(numbers: &Numbers) -> RunTotals
    ensures { (s : Summary) → IsPossible s → 0 < s.count → numbers.now ≡ numbers_of s → Some result ≡ s.six.1.1.1.0 }
{
    RunTotals {
        total: whole(numbers[7], numbers[8]),
        prefix: whole(numbers[9], numbers[10]),
        suffix: whole(numbers[11], numbers[12]),
        best: whole(numbers[13], numbers[14]),
    }
}

// The fold of the elements by each of the six.
fn filled_in(numbers: &Numbers) -> Filled
    ensures { (s : Summary) → IsPossible s → 0 < s.count → numbers.now ≡ numbers_of s → six_of result ≡ s.six }
{
    Filled {
        sum: numbers[4],
        least: numbers[5].cast_signed(),
        greatest: numbers[6].cast_signed(),
        run: run_in(numbers),
        map: AffineMap {
            a: (numbers[15] % (1 << 32)) as u32,
            b: (numbers[16] % (1 << 32)) as u32,
        },
        states: numbers[17].to_le_bytes(),
    }
}

// The states to which the automaton leads, if the numbers are states.
fn leads_in(numbers: &Numbers) -> Option<Leads>
    ensures kept { IfSome result AreLeads }
    ensures back { (s : Summary) → AreLeads s.leads → numbers.now ≡ numbers_of s → result ≡ Some s.leads }
{
    leads_by_numbers(numbers[18], numbers[19], numbers[20], numbers[21])
}

/// The summary that the numbers say, if some elements may have it.
pub fn summary_in(numbers: &Numbers) -> Option<ShardSummary>
    ensures { (s : Summary) → IsPossible s → numbers.now ≡ numbers_of s → result ≡ Some s }
{
    let leads = match leads_in(numbers) {
        None => return None,
        Some(leads) => leads,
    };
    let edit = edit_in(numbers[2], numbers[3]);
    if numbers[1] == 0 {
        return Some(ShardSummary::of_none(edit, leads));
    }
    ShardSummary::of_some(numbers[1], edit, filled_in(numbers), leads)
}
