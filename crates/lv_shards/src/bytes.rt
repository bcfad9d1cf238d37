//! A summary as bytes, and bytes as a summary.
ghost use Rattle.std.specs.Prelude.{◌≡◌, ◌↔◌, Ok, IfOk, IsErrOf, is_some, if◌then◌else◌};
ghost use Rattle.lv_shards.specs.Bytes.{bytes_of, element_bits, numbers_of, run_or_zeros, version_of};
ghost use Rattle.lv_shards.specs.Summaries.{IsPossible, Summary};

use crate::numbers::{Numbers, SUMMARY_BYTES, halves, number_at, numbers_in, seal, spell};
use crate::reading::summary_in;
use crate::refusals::ReadRefusal;
use crate::shard::ShardSummary;
use lv_bodies::RunTotals;

// A best run, zeros if there is none.
fn run_of(best: Option<RunTotals>) -> RunTotals
    ensures { result ≡ run_or_zeros best }
{
    best.unwrap_or(RunTotals {
        total: 0,
        prefix: 0,
        suffix: 0,
        best: 0,
    })
}

// Whether there is an edit, as a number.
fn mark(edit: Option<u32>) -> u64
    ensures { result ≡ (if is_some edit then 1 else 0) }
{
    match edit {
        None => 0,
        Some(_) => 1,
    }
}

// An element in two's complement, 0 if there is none.
fn bits(x: Option<i64>) -> u64
    ensures { result ≡ element_bits x }
{
    match x {
        None => 0,
        Some(x) => x.cast_unsigned(),
    }
}

// The numbers that a summary is written by.
fn numbers(summary: &ShardSummary) -> Numbers
    ensures { result ≡ numbers_of summary.now }
{
    summary.keeps();
    let (sum, (least, (greatest, (best, (map, states))))) = summary.six();
    let [zero, one, two, three] = summary.leads();
    let edit = summary.edit();
    let run = run_of(best);
    let (total, prefix) = (halves(run.total), halves(run.prefix));
    let (suffix, most) = (halves(run.suffix), halves(run.best));
    [
        1,
        summary.count(),
        mark(edit),
        u64::from(edit.unwrap_or(0)),
        sum,
        bits(least),
        bits(greatest),
        total.0,
        total.1,
        prefix.0,
        prefix.1,
        suffix.0,
        suffix.1,
        most.0,
        most.1,
        u64::from(map.a),
        u64::from(map.b),
        u64::from_le_bytes(states),
        u64::from_le_bytes(zero),
        u64::from_le_bytes(one),
        u64::from_le_bytes(two),
        u64::from_le_bytes(three),
    ]
}

impl ShardSummary {
    /// Its bytes.
    pub fn to_bytes(&self) -> [u8; SUMMARY_BYTES]
        ensures { result ≡ bytes_of self.now }
    {
        seal(&spell(&numbers(self)))
    }

    /// The summary that has these bytes.
    ///
    /// # Errors
    /// `OtherVersion` if the first number is not this layout's version, else `Damaged` if no summary has these bytes.
    pub fn from_bytes(bytes: &[u8; SUMMARY_BYTES]) -> Result<ShardSummary, ReadRefusal>
        // What is read has these bytes, and may be the summary of its count of elements.
        ensures found { IfOk result (λ s. IsPossible s × (bytes.now ≡ bytes_of s)) }
        // Bytes that a summary has are read.
        ensures only { (s : Summary) → IsPossible s → bytes.now ≡ bytes_of s → result ≡ Ok s }
        ensures other_version { IsErrOf result ReadRefusal.OtherVersion ↔ ¬ (version_of bytes.now ≡ 1) }
    {
        if number_at(bytes, 0) != 1 {
            return Err(ReadRefusal::OtherVersion);
        }
        let Some(read) = summary_in(&numbers_in(bytes)) else {
            return Err(ReadRefusal::Damaged);
        };
        read.keeps();
        if read.to_bytes() == *bytes {
            Ok(read)
        } else {
            Err(ReadRefusal::Damaged)
        }
    }
}
