//! Queries of samples by name: of a range, of the last so many, or of the last so much time.
ghost use Rattle.std.specs.Prelude.{◌≡◌, List, []};
ghost use Rattle.lv_bodies.specs.Plain.{program_table};
ghost use Rattle.lv_series.specs.Samples.{SampleCalled, SampleRun, SamplesState, accepted_samples, plain_samples};
ghost use Rattle.lv_script.specs.declared.sample_queries.SampleQuery.{SampleQuery as Asked};
ghost use Rattle.lv_script.specs.SampleQueries.{is_backwards, sample_answer, sample_answer_after};

use crate::asked_samples::AskedSamples;
use lv_bodies::{Kind, Name, Shown};
use lv_series::Window;
use lv_standing::{Askable, Asks, Question, Span, Terms, value_in_span};
use lv_tree::Bound;

/// Which samples a query is about.
#[derive(Clone, Copy, PartialEq, Eq)]
pub enum SampleSpan {
    /// Those in a span of indices.
    Among(Span),
    /// Those of the last so much time: those whose times are above that of the last sample less this, as `Samples::last` has them. Only an
    /// edit moves such a window, and no clock does.
    Within(u64),
}

impl SampleSpan {
    /// Whether it is a range of indices whose end is before its start.
    pub fn is_backwards(&self) -> bool
        ensures { result ≡ is_backwards self.now }
    {
        match self {
            SampleSpan::Among(span) => span.is_backwards(),
            SampleSpan::Within(_) => false,
        }
    }
}

/// A named query of samples: the value of a kind over the values in a span, and, if it has one, the bound that limits its notifications.
#[derive(Clone, Copy)]
pub struct SampleQuery {
    pub name: Name,
    pub kind: Kind,
    pub span: SampleSpan,
    pub bound: Option<Bound>,
}

impl Question for SampleQuery {
    ghost use Rattle.lv_script.specs.SampleQueries.{terms_of};

    ghost terms_of = { terms_of };

    fn terms(&self) -> Terms {
        Terms {
            name: self.name,
            bound: self.bound,
            is_backwards: self.span.is_backwards(),
        }
    }
}

impl Asks<AskedSamples<'_>> for SampleQuery {
    ghost use Rattle.lv_script.specs.SampleQueries.{sample_answer};

    ghost answer_of = { λ a q. sample_answer a.samples.now q };

    fn answer_by(&self, asked: &mut AskedSamples<'_>) -> Shown {
        match self.span {
            SampleSpan::Among(span) => value_in_span(asked, self.kind, span),
            SampleSpan::Within(time) => {
                let Window { lo, hi } = asked.samples.last(time);
                asked.value(self.kind, lo, hi)
            }
        }
    }
}

/// Whatever the calls on new samples, and whatever their results, the answer of a query follows from the accepted updates. In particular, a
/// window of time moves only at updates: if none was accepted, each query has the same answer as before.
#[tactic(auto, using(crate::proofs::SampleAnswerLaws::answered_by_edits, crate::proofs::SampleAnswerLaws::answered_as_before))]
pub fn samples_answer_by_their_edits()
    ensures answers { (calls : List SampleCalled) (s : SamplesState) (q : Asked) → SampleRun (plain_samples program_table []) calls s → sample_answer s q ≡ sample_answer_after (accepted_samples calls) q }
    ensures still { (calls : List SampleCalled) (s next : SamplesState) (q : Asked) → SampleRun s calls next → accepted_samples calls ≡ [] → sample_answer next q ≡ sample_answer s q }
{}
