//! What holds of every series.
ghost use Rattle.std.specs.Prelude.{◌≡◌, ◌∷◌, [], Err, List, ℕ, Result, is_ok};
ghost use Rattle.lv_series.specs.Batches.{AnswersEdits};
ghost use Rattle.lv_series.specs.Plain.{Called, IsPlain, Run, SeriesState, Step, plain_series, edited};
ghost use Rattle.lv_series.specs.Series.{Answers};
ghost use Rattle.lv_series.specs.declared.edits.LongEdit.{LongEdit};
ghost use Rattle.lv_series.specs.declared.receipts.LongReceipt.{LongReceipt};
ghost use Rattle.lv_series.specs.declared.refusals.LongRefusal.{LongRefusal};

use lv_bodies::LongBody;

/// Whatever the calls on a new series, and whatever each was answered, out of memory included, each value, reduction and scan at the end
/// states how many edits were accepted, and is the plain left fold of its range after these. So it was after each of the first of the
/// calls too. Which kinds have a tree changes no answer. What each call on a series ensures is a step of such a run.
pub fn every_answer_is_plain<B: LongBody>()
    ensures plain { (by : B) (table : List (List ℕ)) (calls : List Called) (s : SeriesState) → Run (plain_series table []) calls s → IsPlain (B.operations by) table calls s }
    ensures steps { (old new : SeriesState) (edit : LongEdit) (answer : Result LongReceipt LongRefusal) → Answers old edit answer new → Step old (edited (edit ∷ []) (is_ok answer)) new }
    ensures batches { (old new : SeriesState) (edits : List LongEdit) (answer : Result ℕ LongRefusal) → AnswersEdits old edits answer new → Step old (edited edits (is_ok answer)) new }
{}

/// Whatever is refused changes nothing.
pub fn refusals_change_nothing()
    ensures { (old new : SeriesState) (edit : LongEdit) (refusal : LongRefusal) → Answers old edit (Err refusal) new → new ≡ old }
{}
