//! What lines of a series' script ask for.

use lv_bodies::{Kind, Name};
use lv_series::LongEdit;
use lv_standing::Span;
use lv_tree::Bound;

/// What to search for in a range. The answer is an index.
#[derive(Clone, Copy)]
pub enum Search {
    /// The first element within a bound.
    First(Bound),
    /// The last element within a bound.
    Last(Bound),
    /// The first end up to which the elements from the start of the range on add up to so much at least.
    Reach(i64),
    /// The first of the least elements.
    Least,
    /// The first of the greatest elements.
    Greatest,
}

/// What a line of a series' script asks for. Its numbers are at most 2^62.
#[derive(Clone, Copy)]
pub enum LongCommand {
    /// Change the series.
    Edit(LongEdit),
    /// Show the first index that is kept.
    First,
    /// Show the index after the last element.
    Size,
    /// Show the element under an index.
    Get(u64),
    /// Reduce the elements from `lo` on, below `hi`.
    Reduce {
        kind: Kind,
        lo: u64,
        hi: u64,
    },
    /// The reductions of the prefixes of the range: up to each element, and including it if the scan is inclusive.
    Scan {
        inclusive: bool,
        kind: Kind,
        lo: u64,
        hi: u64,
    },
    /// Show the index that a search of the elements from `lo` on, below `hi`, finds.
    Find {
        sought: Search,
        lo: u64,
        hi: u64,
    },
    /// Show the start and the end of the run with the greatest sum, from `lo` on, below `hi`.
    BestRun {
        lo: u64,
        hi: u64,
    },
    /// Register a reduction under a name. Its answer is reported when it changes; with a bound, only when it comes to be within it or ceases to be.
    Watch {
        name: Name,
        kind: Kind,
        span: Span,
        bound: Option<Bound>,
    },
    /// Forget the name.
    Unwatch(Name),
    /// Show the answer of the reduction that has the name.
    Answer(Name),
}
