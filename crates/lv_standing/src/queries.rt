//! Queries with a name, a kind, a span and an optional bound.
ghost use Rattle.std.specs.Prelude.{◌≡◌, []};
ghost use Rattle.lv_standing.specs.Queries.{between, untold, watch_answer};

use crate::askable::{Askable, value_in_span};
use crate::questions::{Asks, Question, Terms};
use crate::spans::Span;
use lv_bodies::{Body, Kind, Name, Shown, Six, face};
use lv_tree::Bound;

/// A named query: the value of a kind over the elements of a span. Without a bound its answer is reported each time it changes; with a
/// bound, each time it begins or ceases to be within the bound.
#[derive(Clone, Copy)]
pub struct Query {
    pub name: Name,
    pub kind: Kind,
    pub span: Span,
    pub bound: Option<Bound>,
}

impl Question for Query {
    ghost use Rattle.lv_standing.specs.Queries.{terms_of};

    ghost terms_of = { terms_of };

    fn terms(&self) -> Terms {
        Terms {
            name: self.name,
            bound: self.bound,
            is_backwards: self.span.is_backwards(),
        }
    }
}

impl<A: Askable> Asks<A> for Query {
    ghost use Rattle.lv_standing.specs.Queries.{answer_in};

    ghost answer_of = { λ a q. answer_in (A.state a) q };

    fn answer_by(&self, asked: &mut A) -> Shown {
        value_in_span(asked, self.kind, self.span)
    }
}

impl Query {
    /// The query of a range, from index `lo` up to `hi`, whose answer is reported each time it changes.
    pub fn between(name: Name, kind: Kind, lo: u32, hi: u32) -> Query
        ensures { result ≡ between name kind lo hi }
    {
        Query {
            name,
            kind,
            span: Span::Between {
                lo: u64::from(lo),
                hi: u64::from(hi),
            },
            bound: None,
        }
    }

    /// The answer that counts as reported before its first note: its answer for no elements.
    pub fn untold(&self) -> Shown
        ensures value { result ≡ untold self.now }
        ensures none { result ≡ watch_answer [] self.now }
    {
        face(self.kind, Six.identity())
    }
}
