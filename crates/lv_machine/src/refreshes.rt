//! The steps of a refresh: the mark of its block, the block's cells, and the parts that are made of them.
ghost use Rattle.std.specs.Prelude.{◌≡◌, ◌+◌, ◌*◌, ◌<◌};
ghost use Rattle.lv_machine.specs.Calls.{cell_kept, part_kept, unless_later, with_kept};
ghost use Rattle.lv_machine.specs.Ready.{CanKeep};
ghost use Rattle.lv_machine.specs.Words.{cell_version};

use crate::looks::overtaken;
use crate::outcomes::{Refreshed, Said};
use crate::packing::{edit_in, element, value_in, version_in};
use crate::tasks::{Advance, Keep, Parts, Task};
use lv_bodies::{Parted, fold_more};

/// How a refresh proceeds after the mark of its block.
pub fn after_keep_mark<B: Parted>(body: &B, block: u32, look: u64, found: u64) -> Advance<B::S>
    requires block { block < 511 }
    requires mark { found < 16777216 }
    ensures { result ≡ unless_later look found (Advance.Goes (Task.KeepCell record { block = block; version = found; at = 8 * block; sum = (B.operations body.now).identity })) }
{
    if found > u64::from(edit_in(look)) {
        return overtaken(found);
    }
    Advance::Goes(Task::KeepCell(Keep {
        block,
        version: found as u32,
        at: 8 * block,
        sum: body.identity(),
    }))
}

/// How a refresh proceeds after a cell of its block.
pub fn after_keep_cell<B: Parted>(
    body: &B,
    keep: Keep<B::S>,
    look: u64,
    found: u64,
) -> Advance<B::S>
    requires { CanKeep (B.is_within body.now) keep found }
    ensures { result ≡ unless_later look (cell_version found) (cell_kept (B.operations body.now) B.PARTS B.parts_of B.whole_of (with_kept (B.operations body.now) B.PARTS B.parts_of B.whole_of keep found)) }
{
    if version_in(found) > u64::from(edit_in(look)) {
        return overtaken(version_in(found));
    }
    let sum = fold_more(body, keep.sum, element(value_in(found)));
    let at = keep.at + 1;
    if at % 8 == 0 {
        let parts = Parts {
            version: keep.version,
            number: 0,
            values: B::to_parts(sum),
        };
        let block = keep.block;
        return Advance::Goes(Task::KeepPart { block, parts });
    }
    Advance::Goes(Task::KeepCell(Keep { at, sum, ..keep }))
}

/// How a refresh proceeds after a part of its block.
pub fn after_keep_part<B: Parted>(block: u32, parts: Parts, look: u64) -> Advance<B::S>
    requires { parts.number < 4 }
    ensures { result ≡ part_kept B.PARTS look block parts }
{
    let number = parts.number + 1;
    if number < B::PARTS {
        let parts = Parts { number, ..parts };
        return Advance::Goes(Task::KeepPart { block, parts });
    }
    Advance::Ends(Said::Refreshed(Refreshed {
        edit: edit_in(look),
        version: parts.version,
    }))
}
