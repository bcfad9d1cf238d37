//! The fold of a range by any body, from the elements only.
ghost use Rattle.std.specs.Prelude.{◌≡◌, Some, IfOk, IfErr};
ghost use Rattle.lv_edits.specs.Ranges.{range_refusal};
ghost use Rattle.lv_reduce.specs.Answer.{IsAnswerPair};

use crate::rows::{Row, fold_range};
use lv_bodies::Body;
use lv_edits::{Edits, refusal_of};
use lv_geometry::Refusal;

/// The fold of the elements from index `lo` up to `hi` by any body, with the number of the last edit. It folds the elements one after another,
/// without copying them, and reads no summary: it is meant for a range so short that its summaries would cost more. Refused with `BadRange`, then
/// `OutOfRange`. Takes no memory.
pub fn fold_elements<B: Body>(
    history: &Edits,
    body: &B,
    lo: u32,
    hi: u32,
) -> Result<(u32, B::S), Refusal>
    ensures ok { IfOk result (λ answer. IsAnswerPair (B.operations body.now) history.now.journal lo hi answer) }
    ensures err { IfErr result (λ refusal. range_refusal history.now.journal lo hi ≡ Some refusal) }
{
    if let Some(refusal) = refusal_of(history, lo, hi) {
        return Err(refusal);
    }
    Ok((
        history.edit(),
        fold_range(Row::Cells(history), body, lo, hi),
    ))
}
