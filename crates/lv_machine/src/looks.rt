//! What a look determines of a call: that it is refused, that a pending write comes first, or that a later update overtook it.
ghost use Rattle.std.specs.Prelude.{◌≡◌, ◌<◌};
ghost use Rattle.lv_machine.specs.Calls.{needs_help, refusal_at};
ghost use Rattle.lv_machine.specs.Moves.{verdict_at};

use crate::outcomes::Said;
use crate::packing::{edit_in, index_in, size_in};
use crate::tasks::{Advance, Goal};
use crate::verdicts::refused_by_size;
use lv_edits::Edit;
use lv_geometry::{Limits, Refusal};

/// Why a call is refused at its look, if it is.
pub fn refused_at(limits: Limits, goal: Goal, look: u64) -> Option<Refusal>
    ensures { result ≡ refusal_at limits look goal }
{
    let size = size_in(look);
    match goal {
        Goal::Edit(edit) => verdict_on(limits, edit, look),
        Goal::Get(index) => (index >= size).then_some(Refusal::OutOfRange { size }),
        Goal::Size => None,
        Goal::Reduce { hi, .. } => (hi > size).then_some(Refusal::OutOfRange { size }),
        Goal::Refresh(block) => (block >= size / 8).then_some(Refusal::OutOfRange { size }),
    }
}

// Why an update is refused at a look, if it is.
fn verdict_on(limits: Limits, edit: Edit, look: u64) -> Option<Refusal>
    ensures { result ≡ verdict_at limits look edit }
{
    if edit_in(look) == limits.edits() {
        return Some(Refusal::Worn);
    }
    refused_by_size(limits.capacity(), size_in(look), edit)
}

/// Whether a call completes its look's pending write. It does if there is one, unless it only asks for the size.
pub fn wants_help(goal: Goal, look: u64) -> bool
    ensures { result ≡ needs_help look goal }
{
    match goal {
        Goal::Size => false,
        _ => index_in(look) < 4088,
    }
}

/// The end of a call that loaded a word of a later version than its look.
pub fn overtaken<S>(version: u64) -> Advance<S>
    requires { version < 16777216 }
    ensures { result ≡ Advance.Ends (Said.Refused (Refusal.Overtaken version)) }
{
    Advance::Ends(Said::Refused(Refusal::Overtaken {
        edit: version as u32,
    }))
}
