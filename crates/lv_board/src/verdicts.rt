//! Why an update is refused at a descriptor.
ghost use Rattle.std.specs.Prelude.{◌≡◌};
ghost use Rattle.lv_machine.specs.Moves.{verdict_at};
ghost use Rattle.lv_board.specs.Stands.{IsBasis};
ghost use Rattle.lv_board.specs.Rule.{limits_of};

use crate::actors::Basis;
use crate::words::{edit_in, size_in};
use lv_edits::Edit;
use lv_geometry::{Refusal, capacity};
use lv_machine::refused_by_size;

/// The first refusal that applies to an update at a descriptor, or none.
pub(crate) fn verdict<B: Copy>(terms: &Basis<B>, look: u64, edit: Edit) -> Option<Refusal>
    requires { IsBasis terms.now }
    ensures { result ≡ verdict_at (limits_of terms.now) look edit }
{
    if edit_in(look) == terms.edits {
        return Some(Refusal::Worn);
    }
    refused_by_size(capacity(terms.buckets), size_in(look), edit)
}
