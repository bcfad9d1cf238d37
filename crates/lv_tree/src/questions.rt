//! What a vector is asked by one kind, from that kind's tree.
ghost use Rattle.std.specs.Prelude.{◌≡◌, ◌⊎◌, ℕ, ◌+◌, ◌≤◌, Some, List, length, IfErr, IfOk, OnErr};
ghost use Rattle.lv_bodies.specs.Sums.{sum_operations};
ghost use Rattle.lv_bodies.specs.declared.kinds.Kind.TheVariants as kind;
ghost use Rattle.lv_edits.specs.History.{list_of};
ghost use Rattle.lv_edits.specs.Ranges.{range_refusal};
ghost use Rattle.lv_tree.specs.Follows.{HasRoomFor, IsLate, IsUpTo, KeepsRoom};
ghost use Rattle.lv_tree.specs.LastSum.{IsSumOfRange, sum_of_range};
ghost use Rattle.lv_tree.specs.Asked.{IsKindAnswer};

use crate::kind_summaries::KindSummary;
use crate::kinds::KindAnswer;
use crate::last_sum::LastSum;
use crate::late::Late;
use crate::of_kind::OfKind;
use crate::prefixes::Prefixes;
use crate::trees::FoldTree;
use lv_bodies::Sum;
use lv_edits::{Edits, refusal_of};
use lv_geometry::Refusal;

/// The answer by one kind.
#[inline(always)]
pub fn ask_by<K: OfKind>(
    late: &mut Late<FoldTree<K>>,
    cells: &Edits,
    lo: u32,
    hi: u32,
) -> Result<KindAnswer, Refusal>
    requires late { IsLate (K.operations late.old.body) cells.now.journal late.old }
    requires room { HasRoomFor late.old (length (list_of cells.now.journal)) }
    ensures ok { IfOk result (λ answer. (table : List (List ℕ)) → K.fits late.old.body table → IsKindAnswer table cells.now.journal K.told_kind lo hi answer) }
    ensures err { IfErr result (λ refusal. range_refusal cells.now.journal lo hi ≡ Some refusal) }
    ensures unchanged { OnErr result (late.new ≡ late.old) }
    ensures late { IsLate (K.operations late.old.body) cells.now.journal late.new }
    ensures kept { KeepsRoom late.old late.new }
    ensures up_to { IfOk result (λ _. (hi ≤ lo + 64) ⊎ IsUpTo cells.now.journal hi late.new) }
{
    match refusal_of(cells, lo, hi) {
        Some(refusal) => Err(refusal),
        None => {
            let edit = cells.edit();
            let sum = late.ask(cells, lo, hi);
            Ok(KindAnswer {
                edit,
                summary: K::tell(lo < hi, sum),
            })
        }
    }
}

/// The answer by sums.
#[inline(always)]
pub fn ask_sum(
    late: &mut Late<Prefixes>,
    last: &mut LastSum,
    cells: &Edits,
    lo: u32,
    hi: u32,
) -> Result<KindAnswer, Refusal>
    requires late { IsLate sum_operations cells.now.journal late.old }
    requires last { IsSumOfRange cells.now.journal last.old }
    requires room { HasRoomFor late.old (length (list_of cells.now.journal)) }
    ensures ok { IfOk result (λ answer. (table : List (List ℕ)) → IsKindAnswer table cells.now.journal kind.Sum lo hi answer) }
    ensures err { IfErr result (λ refusal. range_refusal cells.now.journal lo hi ≡ Some refusal) }
    ensures unchanged { OnErr result ((late.new ≡ late.old) × (last.new ≡ last.old)) }
    ensures late { IsLate sum_operations cells.now.journal late.new }
    ensures last { IsSumOfRange cells.now.journal last.new }
    ensures kept { KeepsRoom late.old late.new }
    ensures up_to { IfOk result (λ _. ((hi ≤ lo + 64) ⊎ ((last.old.lo ≡ lo) × (last.old.hi ≡ hi))) ⊎ IsUpTo cells.now.journal hi late.new) }
{
    match refusal_of(cells, lo, hi) {
        Some(refusal) => Err(refusal),
        None => {
            let edit = cells.edit();
            let sum = sum_of(late, last, cells, lo, hi);
            Ok(KindAnswer {
                edit,
                summary: KindSummary::Sum(sum),
            })
        }
    }
}

// The sum of a range: the one that was returned last, or from the tree.
#[inline(always)]
fn sum_of(late: &mut Late<Prefixes>, last: &mut LastSum, cells: &Edits, lo: u32, hi: u32) -> u64
    requires order { lo ≤ hi }
    requires inside { hi ≤ length (list_of cells.now.journal) }
    requires late { IsLate sum_operations cells.now.journal late.old }
    requires last { IsSumOfRange cells.now.journal last.old }
    requires room { HasRoomFor late.old (length (list_of cells.now.journal)) }
    ensures value { result ≡ sum_of_range cells.now.journal lo hi }
    ensures late { IsLate sum_operations cells.now.journal late.new }
    ensures last { IsSumOfRange cells.now.journal last.new }
    ensures kept { KeepsRoom late.old late.new }
    ensures up_to { ((hi ≤ lo + 64) ⊎ ((last.old.lo ≡ lo) × (last.old.hi ≡ hi))) ⊎ IsUpTo cells.now.journal hi late.new }
{
    match last.of(lo, hi) {
        Some(sum) => sum,
        None => sum_by_tree(late, last, cells, lo, hi),
    }
}

// The sum of a range from the tree, which is then kept as the sum returned last. It is a function of its own, so that a call that returns the
// last sum again doesn't pay for its room on the stack.
#[inline(never)]
fn sum_by_tree(
    late: &mut Late<Prefixes>,
    last: &mut LastSum,
    cells: &Edits,
    lo: u32,
    hi: u32,
) -> u64
    requires order { lo ≤ hi }
    requires inside { hi ≤ length (list_of cells.now.journal) }
    requires late { IsLate sum_operations cells.now.journal late.old }
    requires room { HasRoomFor late.old (length (list_of cells.now.journal)) }
    ensures value { result ≡ sum_of_range cells.now.journal lo hi }
    ensures late { IsLate sum_operations cells.now.journal late.new }
    ensures last { IsSumOfRange cells.now.journal last.new }
    ensures kept { KeepsRoom late.old late.new }
    ensures up_to { (hi ≤ lo + 64) ⊎ IsUpTo cells.now.journal hi late.new }
{
    let sum = late.ask(cells, lo, hi);
    *last = LastSum::new(lo, hi, sum);
    sum
}
