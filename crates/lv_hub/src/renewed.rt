//! A new vector that is made of elements.
ghost use Rattle.std.specs.Prelude.{◌≡◌, IfOk, map};
ghost use Rattle.lv_bodies.specs.Plain.{program_table};
ghost use Rattle.lv_edits.specs.declared.edit.Edit.TheVariants.{Push};
ghost use Rattle.lv_transcript.specs.Transcript.{AreAccepted, greatest};
ghost use Rattle.lv_tree.specs.Kinds.{AreReady};
ghost use Rattle.lv_hub.specs.Told.{history_of};

use lv_bodies::{Automaton, Body};
use lv_geometry::{Limits, Refusal};
use lv_live::Live;
use lv_standing::push_all_beside;
use lv_tree::Kinds;
use std::alloc::Global;

/// A vector that has these elements, each as a push, and no tree yet for any kind. Refused with `NoMemory`, or as the first push is that the
/// limits don't allow.
pub fn renewed<B: Body>(
    alloc: Global,
    limits: Limits,
    body: B,
    elements: &[i64],
) -> Result<(Live<B>, Kinds), Refusal>
    ensures history { IfOk result (λ made. made.0.history ≡ history_of limits (map Push elements.now)) }
    ensures accepted { IfOk result (λ made. AreAccepted greatest made.0.history.journal) }
    ensures body { IfOk result (λ made. made.0.body ≡ body) }
    ensures kinds { IfOk result (λ made. AreReady program_table made.0.history.journal made.1) }
{
    let mut live = Live::new(alloc, limits, body);
    let mut kinds = Kinds::new(alloc, Automaton::program());
    match push_all_beside(&mut live, &mut kinds, elements) {
        Ok(_) => Ok((live, kinds)),
        Err(refusal) => Err(refusal),
    }
}
