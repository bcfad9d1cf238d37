//! The answer of a target to a standing query.
ghost use Rattle.std.specs.Prelude.{◌≡◌};
ghost use Rattle.livevec_c.specs.Targets.{is_asked};
ghost use Rattle.livevec_c.specs.Queried.{answered_if};

use crate::kind_vectors::KindVector;
use crate::said::shown_values;
use crate::series_kinds::no_kind;
use crate::series_results::{SeriesReduced, not_reduced, not_refused};
use crate::set_queries::SetQuery;
use crate::targets::Target;
use lv_bodies::{Kind, Shown};
use lv_standing::{Askable, Asks};

impl Askable for KindVector {
    ghost use Rattle.lv_bodies.specs.Automata.{table_of};
    ghost use Rattle.lv_standing.specs.Askable.{vector_after};

    ghost state = { λ v. vector_after (table_of v.body.automaton) v.history.journal };

    fn size(&self) -> u64 {
        u64::from(self.live().size())
    }

    fn edit(&self) -> u64 {
        u64::from(self.live().edit())
    }

    // It is cheap until an edit touches the range.
    fn value(&mut self, kind: Kind, lo: u64, hi: u64) -> Shown {
        self.live().keeps();
        match self.value(kind, lo as u32, hi as u32) {
            Ok(answer) => answer.summary.shown(),
            Err(_) => unreachable!(),
        }
    }
}

/// The answer to a question by something that is of one kind or of all six, and has times or not.
pub fn answer_asked<A: Target>(
    asked: &mut A,
    only: Option<Kind>,
    timed: bool,
    question: &SetQuery,
) -> SeriesReduced
    ensures answer { result ≡ answered_if (is_asked only timed question.now.query) question.now (A.seen asked.old) }
    ensures same { asked.new ≡ asked.old }
{
    if !question.may_be_asked(only, timed) {
        return not_reduced(no_kind());
    }
    let value = question.answer_by(asked);
    let edit = asked.edits();
    let any = asked.has_some(question.query.span);
    SeriesReduced {
        why: not_refused(),
        edit,
        values: shown_values(any, value),
    }
}
