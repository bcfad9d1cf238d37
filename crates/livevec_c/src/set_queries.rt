//! A query in a set of standing queries.
ghost use Rattle.std.specs.Prelude.{◌≡◌};
ghost use Rattle.livevec_c.specs.Queries.{untold};
ghost use Rattle.livevec_c.specs.Targets.{bound_at, is_asked, is_timed as is_timed_span, span_at};

use crate::only::may_ask;
use crate::targets::Target;
use lv_bodies::{Kind, Shown};
use lv_script::{SampleQuery, SampleSpan};
use lv_standing::{Asks, Query, Question, Span, Terms};
use lv_tree::Bound;

/// A query by a name, which can be asked of any target.
#[derive(Clone, Copy)]
pub struct SetQuery {
    pub query: SampleQuery,
}

impl Question for SetQuery {
    ghost use Rattle.livevec_c.specs.Queries.{terms_of};

    ghost terms_of = { terms_of };

    fn terms(&self) -> Terms {
        self.query.terms()
    }
}

impl<A: Target> Asks<A> for SetQuery {
    ghost use Rattle.lv_script.specs.SampleQueries.{sample_answer};

    ghost answer_of = { λ a q. sample_answer (A.seen a) q.query };

    fn answer_by(&self, asked: &mut A) -> Shown {
        asked.answer(&self.query)
    }
}

impl SetQuery {
    /// The answer that counts as reported before its first note: that of no elements.
    pub fn untold(&self) -> Shown
        ensures { result ≡ untold self.now }
    {
        Query::between(self.query.name, self.query.kind, 0, 0).untold()
    }

    /// Whether it may be asked of something that is of one kind or of all six, and has times or not.
    pub fn may_be_asked(&self, only: Option<Kind>, timed: bool) -> bool
        ensures { result ≡ is_asked only timed self.now.query }
    {
        may_ask(only, Some(self.query.kind)) && (timed || !is_timed(self.query.span))
    }
}

// Whether a span is a window of time.
fn is_timed(span: SampleSpan) -> bool
    ensures { result ≡ is_timed_span span }
{
    match span {
        SampleSpan::Among(_) => false,
        SampleSpan::Within(_) => true,
    }
}

/// The elements that a number names, if it does: a range, the last `lo` of them, or those of the last so much time.
pub fn span_of(number: u32, lo: u64, hi: u64) -> Option<SampleSpan>
    ensures { result ≡ span_at number lo hi }
{
    match number {
        0 => Some(SampleSpan::Among(Span::Between { lo, hi })),
        1 => Some(SampleSpan::Among(Span::Last(lo))),
        2 => Some(SampleSpan::Within(lo)),
        _ => None,
    }
}

/// The bound that a number names, if it does. A query is then reported at each change (0), or when its answer begins or ceases to be at least (1),
/// or at most (2), `x`.
pub fn bound_of(number: u32, x: i64) -> Option<Option<Bound>>
    ensures { result ≡ bound_at number x }
{
    match number {
        0 => Some(None),
        1 => Some(Some(Bound::AtLeast(x))),
        2 => Some(Some(Bound::AtMost(x))),
        _ => None,
    }
}
