//! Traits of named queries: what a set needs to know of one, and how it is answered.
ghost use Rattle.std.specs.Prelude.{◌≡◌, ◌<◌, None, false};
ghost use Rattle.lv_bodies.specs.declared.kinds.Shown.{Shown as Value};
ghost use Rattle.lv_standing.specs.declared.questions.Terms.{Terms as Seen};
ghost use Rattle.lv_standing.specs.QuerySets.{refusal_by};
ghost use Rattle.lv_standing.specs.Thresholds.{is_due};

use crate::thresholds::is_due;
use lv_bodies::{Name, Shown};
use lv_geometry::Refusal;
use lv_tree::Bound;

/// What a set needs to know of a query: its name, the bound that decides when it is reported, if it has one, and whether it is of a range
/// whose end is before its start.
#[derive(Clone, Copy)]
pub struct Terms {
    pub name: Name,
    pub bound: Option<Bound>,
    pub is_backwards: bool,
}

/// A named query.
pub trait Question: Copy {
    // What a set needs to know of it.
    ghost terms_of: { Self → Seen };

    /// What a set needs to know of the query: whether a set rejects it, finds it, or reports its answer depends on these terms only.
    fn terms(&self) -> Terms
        ensures { result ≡ terms_of self.now };

    /// Whether a note of the answer `now` is due if `before` was reported last.
    final fn is_due(&self, before: &Shown, now: &Shown) -> bool
        ensures { result ≡ is_due (terms_of self.now).bound before.now now.now }
    {
        is_due(self.terms().bound, *before, *now)
    }
}

/// A question that can be asked of values of one type.
pub trait Asks<A>: Question {
    // The answer to it.
    ghost answer_of: { A → Self → Value };

    /// The answer to it. Takes no memory.
    fn answer_by(&self, asked: &mut A) -> Shown
        ensures value { result ≡ answer_of asked.old self.now }
        ensures same { asked.new ≡ asked.old };
}

/// Why a query would be rejected if memory sufficed, or none: `BadRange`, then `NameTaken`, then `TooMany`.
pub fn refusal_by(is_backwards: bool, is_taken: bool, count: usize, most: usize) -> Option<Refusal>
    ensures why { result ≡ refusal_by is_backwards is_taken count most }
    ensures free { result ≡ None → is_taken ≡ false }
    ensures few { result ≡ None → count < most }
{
    if is_backwards {
        return Some(Refusal::BadRange);
    }
    if is_taken {
        return Some(Refusal::NameTaken);
    }
    if count >= most {
        return Some(Refusal::TooMany);
    }
    None
}
