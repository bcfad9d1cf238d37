//! The plain values of a list of elements, in the layout of the header, and what makes them.
ghost use Rattle.std.specs.Prelude.{◌≡◌, pos, option_map, unwrap_or};
ghost use Rattle.livevec_c.specs.Answers.{high_half, low_half, spread, valueless, with_part};

use lv_bodies::{RunTotals, SixSummary};
use lv_shards::Each;
use lv_tree::KindSummary;

/// The plain values of a list of elements, by each of the six kinds.
#[repr(C)]
#[derive(Clone, Copy)]
pub struct PlainValues {
    pub sum: u64,
    pub least: i64,
    pub greatest: i64,
    pub best_low: u64,
    pub best_high: i64,
    pub affine_a: u32,
    pub affine_b: u32,
    pub automaton: [u8; 8],
    /// 1 if there is an element, else 0: C's `bool` and the bytes after it as one word, which is copied whole.
    pub any: u64,
}

/// The low and the high 64 bits of a number of 128 bits.
pub fn halves(x: i128) -> (u64, i64)
    ensures low { result.0 ≡ low_half x }
    ensures high { result.1 ≡ high_half x }
{
    let wide = 1 << 64;
    (
        x.rem_euclid(wide).cast_unsigned() as u64,
        x.div_euclid(wide) as i64,
    )
}

/// The low and the high half of a total, 0 if there is none.
pub fn total_halves(totals: Option<RunTotals>) -> (u64, i64)
    ensures low { result.0 ≡ low_half (unwrap_or (option_map (λ r. r.best) totals) (pos 0)) }
    ensures high { result.1 ≡ high_half (unwrap_or (option_map (λ r. r.best) totals) (pos 0)) }
{
    match totals {
        None => (0, 0),
        Some(totals) => halves(totals.best),
    }
}

/// The six summaries of some elements, laid out for C.
pub fn plain_values(summary: SixSummary) -> PlainValues
    ensures { result ≡ spread summary }
{
    each_values(summary.each())
}

/// Six summaries of some elements that are separate values, laid out for C.
pub fn each_values(each: Each) -> PlainValues
    ensures { result ≡ spread each }
{
    let (sum, (least, (greatest, (best, (affine, automaton))))) = each;
    let (best_low, best_high) = total_halves(best);
    PlainValues {
        sum,
        least: least.unwrap_or(0),
        greatest: greatest.unwrap_or(0),
        best_low,
        best_high,
        affine_a: affine.a,
        affine_b: affine.b,
        automaton,
        any: least.is_some() as u64,
    }
}

/// Puts the value of a kind among the plain values. The minimum's also says whether there is an element.
pub fn put_part(values: &mut PlainValues, part: KindSummary)
    ensures { values.new ≡ with_part part values.old }
{
    match part {
        KindSummary::Sum(sum) => values.sum = sum,
        KindSummary::Least(least) => {
            values.least = least.unwrap_or(0);
            values.any = least.is_some() as u64;
        }
        KindSummary::Greatest(greatest) => values.greatest = greatest.unwrap_or(0),
        KindSummary::Best(best) => (values.best_low, values.best_high) = total_halves(best),
        KindSummary::Affine(map) => (values.affine_a, values.affine_b) = (map.a, map.b),
        KindSummary::Automaton(states) => values.automaton = states,
    }
}

/// The values if there are none.
pub fn no_values() -> PlainValues
    ensures { result ≡ valueless }
{
    PlainValues {
        sum: 0,
        least: 0,
        greatest: 0,
        best_low: 0,
        best_high: 0,
        affine_a: 0,
        affine_b: 0,
        automaton: [0; 8],
        any: 0,
    }
}
