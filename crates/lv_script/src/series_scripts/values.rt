//! The value of a kind over a range of a series.
ghost use Rattle.std.specs.Prelude.{◌≡◌};
ghost use Rattle.lv_bodies.specs.Plain.{program_table};
ghost use Rattle.lv_script.specs.Values.{ShowsValue, without_trees};

use lv_bodies::{Kind, Shown};
use lv_series::{LongRefusal, Series};

/// The value of a kind over a range, or the error for the range. The kind's tree is made first, if there is memory for it; otherwise the range is
/// folded element by element.
pub fn show_value(series: &mut Series, kind: Kind, lo: u64, hi: u64) -> Result<Shown, LongRefusal>
    requires table { series.old.table ≡ program_table }
    ensures value { ShowsValue series.old.held kind lo hi result }
    ensures same { without_trees series.new ≡ without_trees series.old }
{
    prepare(series, kind);
    match series.value(kind, lo, hi) {
        Ok(answer) => Ok(answer.value.shown()),
        Err(refusal) => Err(refusal),
    }
}

/// Makes the tree of a kind, if there is memory for it.
pub fn prepare(series: &mut Series, kind: Kind)
    ensures { without_trees series.new ≡ without_trees series.old }
{
    let _ = series.prepare(kind);
}
