//! The steps of a reduction, which walks over its range by cells and by blocks.
ghost use Rattle.std.specs.Prelude.{◌≡◌, ◌+◌, ◌<◌, replicate, slice_set};
ghost use Rattle.lv_machine.specs.Calls.{part_loaded, unless_later, walked, with_cell};
ghost use Rattle.lv_machine.specs.Ready.{CanTake, CanWalk};
ghost use Rattle.lv_machine.specs.Words.{cell_version};

use crate::looks::overtaken;
use crate::outcomes::Said;
use crate::packing::{edit_in, element, part_value_in, part_version_in, value_in, version_in};
use crate::tasks::{Advance, Parts, Task, Walk};
use lv_bodies::{Parted, fold_more};
use lv_reduce::Answer;

/// What a reduction does next. It loads the mark of a whole block that begins at its position, or otherwise the cell there, or it has ended.
pub fn go_on_walking<S>(walk: Walk<S>, look: u64) -> Advance<S>
    ensures { result ≡ walked look walk }
{
    if walk.at >= walk.hi {
        return Advance::Ends(Said::Answered(Answer {
            edit: edit_in(look),
            value: walk.sum,
            cells_read: walk.cells,
            summaries_read: walk.summaries,
        }));
    }
    if walk.at % 8 == 0 && walk.hi - walk.at >= 8 {
        Advance::Goes(Task::SumMark(walk))
    } else {
        Advance::Goes(Task::SumCell(walk))
    }
}

/// How a reduction proceeds after the cell at its position.
pub fn after_sum_cell<B: Parted>(body: &B, walk: Walk<B::S>, look: u64, found: u64) -> Advance<B::S>
    requires walk { CanWalk (B.is_within body.now) walk }
    requires version { cell_version found < 16777216 }
    ensures { result ≡ unless_later look (cell_version found) (walked look (with_cell (B.operations body.now) B.PARTS B.parts_of B.whole_of walk found)) }
{
    if version_in(found) > u64::from(edit_in(look)) {
        return overtaken(version_in(found));
    }
    let sum = fold_more(body, walk.sum, element(value_in(found)));
    let more = Walk {
        at: walk.at + 1,
        sum,
        cells: walk.cells + 1,
        ..walk
    };
    go_on_walking(more, look)
}

/// How a reduction proceeds after the mark of the block at its position.
pub fn after_sum_mark<S: Copy>(walk: Walk<S>, look: u64, found: u64) -> Advance<S>
    requires { found < 16777216 }
    ensures { result ≡ unless_later look found (Advance.Goes (Task.SumPart walk record { version = found; number = 0; values = replicate 4 0 })) }
{
    if found > u64::from(edit_in(look)) {
        return overtaken(found);
    }
    let parts = Parts {
        version: found as u32,
        number: 0,
        values: [0; 4],
    };
    Advance::Goes(Task::SumPart { walk, parts })
}

/// How a reduction proceeds after a part of the block at its position.
pub fn after_part<B: Parted>(
    body: &B,
    walk: Walk<B::S>,
    parts: Parts,
    look: u64,
    found: u64,
) -> Advance<B::S>
    requires { CanTake (B.is_within body.now) B.PARTS B.whole_of walk parts found }
    ensures { result ≡ part_loaded (B.operations body.now) B.PARTS B.parts_of B.whole_of look walk parts found }
{
    if part_version_in(found) != u64::from(parts.version) {
        return Advance::Goes(Task::SumCell(walk));
    }
    let more = with_value(parts, part_value_in(found));
    if more.number < B::PARTS {
        return Advance::Goes(Task::SumPart { walk, parts: more });
    }
    let sum = body.combine(walk.sum, B::of_parts(more.values));
    let further = Walk {
        at: walk.at + 8,
        sum,
        summaries: walk.summaries + 1,
        ..walk
    };
    go_on_walking(further, look)
}

// Parts with the next one.
fn with_value(parts: Parts, value: u32) -> Parts
    requires { parts.number < 4 }
    ensures { result ≡ record parts { number = parts.number + 1; values = slice_set parts.values parts.number value } }
{
    let mut values = parts.values;
    values[parts.number as usize] = value;
    Parts {
        version: parts.version,
        number: parts.number + 1,
        values,
    }
}
