//! Thresholds: when a note of an answer is due.
ghost use Rattle.std.specs.Prelude.{◌≡◌};
ghost use Rattle.lv_standing.specs.Thresholds.{crosses, holds, is_due, is_within, number_in};

use lv_bodies::Shown;
use lv_tree::Bound;

/// Whether a note is due. Without a bound one is due if the answer differs from the one before. With a bound one is due if the answer
/// begins or ceases to be within it.
pub fn is_due(bound: Option<Bound>, before: Shown, now: Shown) -> bool
    ensures { result ≡ is_due bound before now }
{
    match bound {
        None => now != before,
        Some(bound) => crosses(bound, before, now),
    }
}

// Whether an answer begins or ceases to be within a bound, by what it was before and is now.
fn crosses(bound: Bound, before: Shown, now: Shown) -> bool
    ensures { result ≡ crosses bound before now }
{
    holds(bound, before) != holds(bound, now)
}

// Whether an answer is within a bound. An answer that is no number isn't.
fn holds(bound: Bound, answer: Shown) -> bool
    ensures { result ≡ holds bound answer }
{
    match number_in(answer) {
        Some(x) => is_within(bound, x),
        None => false,
    }
}

// Whether a number is within a bound.
fn is_within(bound: Bound, x: i128) -> bool
    ensures { result ≡ is_within bound x }
{
    match bound {
        Bound::AtLeast(least) => i128::from(least) <= x,
        Bound::AtMost(most) => x <= i128::from(most),
    }
}

// The number that an answer is, if it is one number. A sum is read as signed, by its 64 bits.
fn number_in(answer: Shown) -> Option<i128>
    ensures { result ≡ number_in answer }
{
    match answer {
        Shown::Sum(sum) => Some(i128::from(sum.cast_signed())),
        Shown::Least(x) => x.map(i128::from),
        Shown::Greatest(x) => x.map(i128::from),
        Shown::Best(x) => x,
        Shown::Affine { .. } => None,
        Shown::Automaton(_) => None,
    }
}
