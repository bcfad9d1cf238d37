//! What holds of all samples.
ghost use Rattle.std.specs.Prelude.{[], List, ℕ, Result, is_ok};
ghost use Rattle.lv_series.specs.Samples.{AnswersSample, IsPlainSamples, SampleCalled, SampleRun, SampleStep, SamplesState, edited, plain_samples};
ghost use Rattle.lv_series.specs.declared.receipts.LongReceipt.{LongReceipt};
ghost use Rattle.lv_series.specs.declared.sample_edits.SampleEdit.{SampleEdit};
ghost use Rattle.lv_series.specs.declared.sample_edits.SampleRefusal.{SampleRefusal};

/// Whatever the calls on new samples, and whatever each was answered, out of memory included, the times, the values and each value over a window
/// of time at the end are what the accepted edits make without any other call. Which kinds have a tree changes no answer. What each edit of
/// samples ensures is a step of such a run.
#[tactic(auto, using(crate::proofs::SamplePlainLaws::run_is_plain))]
pub fn every_sample_answer_is_plain()
    ensures plain { (table : List (List ℕ)) (calls : List SampleCalled) (s : SamplesState) → SampleRun (plain_samples table []) calls s → IsPlainSamples table calls s }
    ensures steps { (old new : SamplesState) (edit : SampleEdit) (answer : Result LongReceipt SampleRefusal) → AnswersSample old edit answer new → SampleStep old (edited edit (is_ok answer)) new }
{}
