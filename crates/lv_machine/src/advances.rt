//! How a call proceeds by a step: each kind of step, and what comes after it.
ghost use Rattle.std.specs.Prelude.{◌≡◌, ◌*◌, ◌<◌};
ghost use Rattle.lv_machine.specs.Calls.{advanced, begun, looked_at, refusal_at, unless_later};
ghost use Rattle.lv_machine.specs.Ready.{CanAdvance};
ghost use Rattle.lv_machine.specs.Words.{cell_version, edit_of, signed, value_of};

use crate::exchanges::{after_before, after_exchange, begin_edit};
use crate::looks::{overtaken, refused_at, wants_help};
use crate::outcomes::{Read, Said, Sized};
use crate::packing::{edit_in, element, size_in, value_in, version_in};
use crate::refreshes::{after_keep_cell, after_keep_mark, after_keep_part};
use crate::tasks::{Advance, Goal, Task, Walk};
use crate::walks::{after_part, after_sum_cell, after_sum_mark, go_on_walking};
use lv_bodies::Parted;
use lv_edits::Edit;
use lv_geometry::Limits;

/// How a call proceeds by a step that found a word. The look is the one before the step.
pub fn advance<B: Parted>(
    body: &B,
    limits: Limits,
    task: &Task<B::S>,
    look: u64,
    found: u64,
) -> Advance<B::S>
    requires { CanAdvance (B.is_within body.now) B.PARTS B.whole_of task.now found }
    ensures { result ≡ advanced (B.operations body.now) B.PARTS B.parts_of B.whole_of limits look task.now found }
{
    match *task {
        Task::Look(goal) => after_look(body, limits, goal, found),
        Task::CompleteCell(goal) => Advance::Goes(Task::CompleteMark(goal)),
        Task::CompleteMark(goal) => begin(body, goal, look),
        Task::ReadBefore { edit, .. } => after_before(edit, look, found),
        Task::Exchange { edit, before } => after_exchange(edit, before, look, found),
        Task::ReadCell(_) => after_cell(look, found),
        Task::SumCell(walk) => after_sum_cell(body, walk, look, found),
        Task::SumMark(walk) => after_sum_mark(walk, look, found),
        Task::SumPart { walk, parts } => after_part(body, walk, parts, look, found),
        Task::KeepMark(block) => after_keep_mark(body, block, look, found),
        Task::KeepCell(keep) => after_keep_cell(body, keep, look, found),
        Task::KeepPart { block, parts } => after_keep_part::<B>(block, parts, look),
    }
}

// How a call proceeds after its look.
fn after_look<B: Parted>(body: &B, limits: Limits, goal: Goal, look: u64) -> Advance<B::S>
    ensures { result ≡ looked_at (B.operations body.now) B.PARTS B.parts_of B.whole_of look goal (refusal_at limits look goal) }
{
    if let Some(refusal) = refused_at(limits, goal, look) {
        return Advance::Ends(Said::Refused(refusal));
    }
    if wants_help(goal, look) {
        Advance::Goes(Task::CompleteCell(goal))
    } else {
        begin(body, goal, look)
    }
}

// What a call does once its look's pending write is complete, or if there is none.
fn begin<B: Parted>(body: &B, goal: Goal, look: u64) -> Advance<B::S>
    ensures { result ≡ begun (B.operations body.now) B.PARTS B.parts_of B.whole_of look goal }
{
    match goal {
        Goal::Edit(edit) => Advance::Goes(begin_edit(edit, look)),
        Goal::Get(index) => Advance::Goes(Task::ReadCell(index)),
        Goal::Size => Advance::Ends(Said::Sized(Sized {
            edit: edit_in(look),
            size: size_in(look),
        })),
        Goal::Reduce { lo, hi } => {
            let sum = body.identity();
            let walk = Walk {
                lo,
                at: lo,
                hi,
                sum,
                cells: 0,
                summaries: 0,
            };
            go_on_walking(walk, look)
        }
        Goal::Refresh(block) => Advance::Goes(Task::KeepMark(block)),
    }
}

// How a get proceeds after its cell.
fn after_cell<S>(look: u64, found: u64) -> Advance<S>
    requires { cell_version found < 16777216 }
    ensures { result ≡ unless_later look (cell_version found) (Advance.Ends (Said.Read record { edit = edit_of look; value = signed (value_of found) })) }
{
    if version_in(found) > u64::from(edit_in(look)) {
        return overtaken(version_in(found));
    }
    Advance::Ends(Said::Read(Read {
        edit: edit_in(look),
        value: element(value_in(found)),
    }))
}
