//! The live-fold theorem and its company, each as a function of no effect that promises it.
ghost use Rattle.std.specs.Prelude.{◌≡◌, ℕ, ℤ, true, List, ◌++◌, Result, length};
ghost use Rattle.lv_geometry.specs.Bounds.{Bounds};
ghost use Rattle.lv_geometry.specs.declared.nodes.Node.{Node};
ghost use Rattle.lv_geometry.specs.declared.refusals.Refusal.{Refusal};
ghost use Rattle.lv_edits.specs.declared.edit.Edit.{Edit};
ghost use Rattle.lv_edits.specs.Batches.{AnswersEdits};
ghost use Rattle.lv_edits.specs.History.{IsLegal};
ghost use Rattle.lv_edits.specs.Pushes.{AnswersAll};
ghost use Rattle.lv_edits.specs.Touch.{is_whole};
ghost use Rattle.lv_refresh.specs.Inner.{node_at};
ghost use Rattle.lv_refresh.specs.declared.contents.Contents.{Contents};
ghost use Rattle.lv_refresh.specs.Honesty.{IsHonest, Vouched};
ghost use Rattle.lv_refresh.specs.Record.{Record, SameRecord};
ghost use Rattle.lv_live.specs.EveryRun.{AreTrueOf, accepted_in};
ghost use Rattle.lv_live.specs.PlainAnswers.{AllHadRoom, answers_in, plain_answers, without_refresh};
ghost use Rattle.lv_live.specs.Batches.{DeliversFrom};
ghost use Rattle.lv_live.specs.State.{HonestyLasts, LiveState, SameRefresh};
ghost use Rattle.lv_live.specs.Step.{Run, Step};
ghost use Rattle.lv_live.specs.Subtrees.{HasSubtree};
ghost use Rattle.lv_live.specs.Turns.{TakesTurns};
ghost use Rattle.lv_live.specs.declared.batches.Batched.{Batched};
ghost use Rattle.lv_live.specs.declared.batches.BlockJob.{BlockJob};
ghost use Rattle.lv_live.specs.declared.events.Event.{Event};
ghost use Rattle.lv_live.specs.declared.replies.ReplyOf.{ReplyOf};
ghost use Rattle.lv_live.specs.declared.replies.ReplyOf.TheVariants.{Refused};

use lv_bodies::Body;

/// Every run, also one in which memory runs out, leaves the edits that there were and then those that it accepted, in order, and each of its
/// answers is true of these. Let e be the number of edits accepted before a query: a reduction is answered at edit e, and is the plain left fold
/// of its range after the first e edits; a scan has its running folds. An accepted edit is the next one behind the first e, and its receipt is
/// the one there.
pub fn every_run_is_true_of_its_edits<B: Body>()
    ensures edits { (body : B) (limits : Bounds) (r next : Record) (events : List Event) (replies : List (ReplyOf B.S)) →
        Run (B.operations body) limits r events replies next → next.edits ≡ r.edits ++ accepted_in events replies }
    ensures answers { (body : B) (limits : Bounds) (r next : Record) (events : List Event) (replies : List (ReplyOf B.S)) →
        Run (B.operations body) limits r events replies next → AreTrueOf (B.operations body) next.edits (length r.edits) events replies }
{}

/// In every run in which no reply is `NoMemory`, edits and queries are answered as the edits accepted before them decide: each reduction is the
/// plain left fold of its range, and each scan has its running folds. This says nothing of the counts of reads.
pub fn answers_are_plain<B: Body>()
    ensures { (body : B) (limits : Bounds) (r next : Record) (events : List Event) (replies : List (ReplyOf B.S)) →
        Run (B.operations body) limits r events replies next → AllHadRoom replies →
        answers_in events replies ≡ plain_answers (B.operations body) limits r.edits (without_refresh events) }
{}

/// Refresh changes no answer: two runs from the same edits, whose events differ only in claims, deliveries and forgetting, answer their edits and
/// queries alike, but for the counts of reads, if no reply in either is `NoMemory`.
pub fn refresh_changes_no_answer<B: Body>()
    ensures { (body : B) (limits : Bounds) (r next q after : Record) (events others : List Event) (replies answers : List (ReplyOf B.S)) →
        Run (B.operations body) limits r events replies next → AllHadRoom replies →
        Run (B.operations body) limits q others answers after → AllHadRoom answers →
        r.edits ≡ q.edits → without_refresh events ≡ without_refresh others →
        answers_in events replies ≡ answers_in others answers }
{}

/// If no reply is `NoMemory`, a run has one outcome: from records that say the same, the same events have the same replies, with every count and
/// every job, and leave records that say the same.
pub fn runs_have_one_outcome<B: Body>()
    ensures replies { (body : B) (limits : Bounds) (r next q after : Record) (events : List Event) (replies answers : List (ReplyOf B.S)) →
        SameRecord r q → Run (B.operations body) limits r events replies next → AllHadRoom replies →
        Run (B.operations body) limits q events answers after → AllHadRoom answers → replies ≡ answers }
    ensures record { (body : B) (limits : Bounds) (r next q after : Record) (events : List Event) (replies answers : List (ReplyOf B.S)) →
        SameRecord r q → Run (B.operations body) limits r events replies next → AllHadRoom replies →
        Run (B.operations body) limits q events answers after → AllHadRoom answers → SameRecord next after }
{}

/// Whatever is refused changes nothing: the record is the same after any refusal.
pub fn refusals_change_nothing<B: Body>()
    ensures { (body : B) (limits : Bounds) (r next : Record) (event : Event) (refusal : Refusal) →
        Step (B.operations body) limits r event (Refused refusal) next → SameRecord r next }
{}

/// Honesty lasts: contents that were taken honestly at a version stay so through every event, whatever is edited, claimed,
/// delivered or forgotten.
pub fn honesty_lasts<B: Body>()
    ensures { (body : B) (limits : Bounds) (r next : Record) (event : Event) (answered : ReplyOf B.S) (n : Node) (v : ℕ) (contents : Contents B.S) →
        IsLegal r.edits → Step (B.operations body) limits r event answered next →
        IsHonest (B.operations body) r n v contents → IsHonest (B.operations body) next n v contents }
{}

/// What is honest is vouched for, if its body is the vector's. So vetting says yes, for good, to each outcome of a job that the vector handed
/// out.
pub fn honest_outcomes_are_vouched_for<B: Body>()
    ensures { (body other : B) (r : Record) (n : Node) (v : ℕ) (contents : Contents B.S) →
        B.meaning body ≡ B.meaning other → IsLegal r.edits → IsHonest (B.operations body) r n v contents → Vouched (B.operations body) r (B.meaning body ≡ B.meaning other) n v contents }
{}

/// A job stays good: contents that were taken honestly at some moment of a run are vouched for at its end, whatever happened
/// between, and so at every later moment.
pub fn jobs_stay_vouched_for<B: Body>()
    ensures { (body other : B) (limits : Bounds) (r next : Record) (events : List Event) (replies : List (ReplyOf B.S)) (n : Node) (v : ℕ) (contents : Contents B.S) →
        B.meaning body ≡ B.meaning other → IsLegal r.edits → Run (B.operations body) limits r events replies next →
        IsHonest (B.operations body) r n v contents → Vouched (B.operations body) next (B.meaning body ≡ B.meaning other) n v contents }
{}

/// Honesty lasts through the calls that make many steps at once, as it does through every event: through many pushes and many writes, made or
/// refused; through the outcomes of a batch of blocks, whatever becomes of each; through the outcome of a subtree whose contents are current; and
/// through the turns of a vector that refreshes itself. So a job that was handed out before them is vouched for after them.
pub fn honesty_lasts_through_batches<B: Body>()
    ensures pushes { (body : B) (old new : LiveState B B.S) (xs : List ℤ) (answer : Result ℕ Refusal) →
        AnswersAll old.history xs answer new.history → SameRefresh old new → HonestyLasts (B.operations body) old new }
    ensures writes { (body : B) (old new : LiveState B B.S) (edits : List Edit) (answer : Result ℕ Refusal) →
        AnswersEdits old.history edits answer new.history → SameRefresh old new → HonestyLasts (B.operations body) old new }
    ensures batch { (body : B) (old new : LiveState B B.S) (jobs : List (BlockJob B)) (before after : Batched) →
        IsLegal old.history.journal → DeliversFrom (B.operations body) (λ other. B.meaning body ≡ B.meaning other) jobs old new before after → HonestyLasts (B.operations body) old new }
    ensures subtree { (body : B) (old new : LiveState B B.S) (number : ℕ) →
        IsLegal old.history.journal → is_whole old.history.journal (node_at 4 number) ≡ true → HasSubtree old new number → HonestyLasts (B.operations body) old new }
    ensures turns { (body : B) (old new : LiveState B B.S) (count : ℕ) →
        IsLegal old.history.journal → TakesTurns (B.operations body) old new count → HonestyLasts (B.operations body) old new }
{}
