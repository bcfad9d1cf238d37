//! Trees of the kinds that standing queries ask for. If there is no memory for one, its kind reads the elements instead.
ghost use Rattle.std.specs.Prelude.{◌≡◌};
ghost use Rattle.lv_script.specs.Values.{without_trees};
ghost use Rattle.livevec_c.specs.Targets.{seen_samples};

use crate::set_queries::SetQuery;
use lv_bodies::Kind;
use lv_series::{Samples, Series};

/// Makes the tree of a kind of a series, if there is memory for it.
pub fn prepare_series(series: &mut Series, kind: Kind)
    ensures { without_trees series.new ≡ without_trees series.old }
{
    let _ = series.prepare(kind);
}

/// Makes the trees of the kinds that some questions ask a series for, if there is memory for them.
pub fn prepare_series_each(series: &mut Series, questions: &[SetQuery])
    ensures { without_trees series.new ≡ without_trees series.old }
{
    for question in questions {
        prepare_series(series, question.query.kind);
    }
}

/// Makes the tree of a kind of samples, if there is memory for it.
pub fn prepare_samples(samples: &mut Samples, kind: Kind)
    ensures { seen_samples samples.new ≡ seen_samples samples.old }
{
    let _ = samples.prepare(kind);
}

/// Makes the trees of the kinds that some questions ask samples for, if there is memory for them.
pub fn prepare_samples_each(samples: &mut Samples, questions: &[SetQuery])
    ensures { seen_samples samples.new ≡ seen_samples samples.old }
{
    for question in questions {
        prepare_samples(samples, question.query.kind);
    }
}
