//! Many pushes in one call.
ghost use Rattle.std.specs.Prelude.{◌≡◌, ◌+◌, ◌≤◌, None, ◌++◌, length, map};
ghost use Rattle.lv_edits.specs.declared.edit.Edit.TheVariants as edit;
ghost use Rattle.lv_edits.specs.Inner.{HoldsReplay, history_of, noted, room};
ghost use Rattle.lv_edits.specs.Pushes.{AnswersAll, verdict_of_pushes};

use crate::edit::Edit;
use crate::journal::Journal;
use crate::making::make_room;
use lv_geometry::Refusal;
use lv_store::Store;

/// Makes pushes that the verdict allows, so that the only error is `NoMemory`. The room in the journal, then the buckets, is made
/// before anything changes.
pub fn make_pushes(store: &mut Store, journal: &mut Journal, values: &[i64]) -> Result<u32, Refusal>
    requires held { HoldsReplay store.old (noted journal.old) }
    requires free { verdict_of_pushes (history_of store.old (noted journal.old)) values.now ≡ None }
    ensures answer { AnswersAll (history_of store.old (noted journal.old)) values.now result (history_of store.new (noted journal.new)) }
    ensures held { HoldsReplay store.new (noted journal.new) }
{
    let size = store.size();
    make_room(store, journal, values.len(), size + values.len() as u32)?;
    store.push_all(values);
    append_pushes(journal, values);
    Ok(store.edit())
}

// Appends a push of each value to the journal, which has room for them.
fn append_pushes(journal: &mut Journal, values: &[i64])
    requires { length values.now ≤ room journal.old }
    ensures { noted journal.new ≡ noted journal.old ++ map edit.Push values.now }
{
    for value in values {
        journal.note(Edit::Push(*value));
    }
}
