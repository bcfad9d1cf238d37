//! What holds of all sessions together, and of all subscribers.
ghost use Rattle.std.specs.Prelude.{◌≡◌, ◌↔◌, ◌++◌, ℕ, List, Some, length, map};
ghost use mathlib.Core.List.{IsPrefix};
ghost use Rattle.lv_edits.specs.declared.edit.Edit.{Edit};
ghost use Rattle.lv_geometry.specs.Bounds.{Bounds};
ghost use Rattle.lv_lines.specs.Replies.{Answered};
ghost use Rattle.lv_transcript.specs.declared.log_heading.LogHeading.{LogHeading};
ghost use Rattle.lv_transcript.specs.Fronts.{AreTrueAfter, Entry, IsWholeFront, edits_in, entry_line};
ghost use Rattle.lv_transcript.specs.Transcribing.{front_bytes_of};
ghost use Rattle.lv_transcript.specs.Transcript.{ended};
ghost use Rattle.lv_hub.specs.AsScripts.{ScriptedStep};
ghost use Rattle.lv_hub.specs.Counting.{ShareState};
ghost use Rattle.lv_hub.specs.Noticing.{NoticesState, WatcherState};
ghost use Rattle.lv_history.specs.Numbering.{from_the_first};
ghost use Rattle.lv_hub.specs.PlainSession.{PlainSessionStep, Seen, TrueReply};
ghost use Rattle.lv_hub.specs.Watched.{AreWatched, WatchState};
ghost use Rattle.lv_hub.specs.Watchers.{AllTellLast, AreWatchedFrom, LeftState, TakesWatchers, watcher_at};

/// Sessions share one list of updates. What a session was answered is true of each list that extends what it has seen, and so of all updates that
/// the hub accepts. Each reply is the reference model's after some prefix of that list, or `NoMemory`. If each update has its own number, the
/// model is the reference interpreter of scripts, without continuous queries.
pub fn replies_are_true_of_one_list()
    ensures replies { (limits : Bounds) (numbers : LogHeading) (edits : List Edit) (old new : Seen) (lines : List (List ℕ)) (text : List ℕ) →
        Answered (PlainSessionStep limits numbers) old 1 lines text new → IsPrefix new.edits edits → Answered (TrueReply limits numbers edits) tt 1 lines text tt }
    // The updates that a session has seen never shrink.
    ensures forward { (limits : Bounds) (numbers : LogHeading) (old new : Seen) (lines : List (List ℕ)) (text : List ℕ) →
        Answered (PlainSessionStep limits numbers) old 1 lines text new → IsPrefix old.edits new.edits }
    // If each update has its own number, the reply to a line satisfies the model if and only if it satisfies the interpreter of scripts.
    ensures scripted { (limits : Bounds) (old : Seen) (n : ℕ) (line text : List ℕ) (new : Seen) →
        PlainSessionStep limits from_the_first old n line text new ↔ ScriptedStep limits old n line text new }
{}

/// The lines of subscribers are of one list of updates, if these began with `subscribe_all`, ran, were taken back by `leave_all`, and got their
/// last notification. Each line has the plain value of its question after some prefix of the list, and the versions do not decrease. At the end
/// the last reported answer of each question is that after all updates. All those lines were written, or a write has failed after no more than a
/// prefix of them.
pub fn lines_are_plain_answers_of_one_list()
    ensures { (limits : Bounds) (numbers : LogHeading) (old new : ShareState) (edits : List Edit) (watches : List WatchState) (watchers : List WatcherState) (left : List LeftState) (told : List NoticesState) →
        AreWatchedFrom limits numbers (map watcher_at watches) watchers → TakesWatchers numbers old new watchers left → IsPrefix new.seen edits → AllTellLast edits left told → AreWatched numbers edits watches told }
{}

/// A valid log, followed by the lines of entries that are true after its updates, is a valid log with all entries. This covers what a server adds
/// to its log, whatever answers the log already has.
pub fn what_goes_on_behind_a_log_is_a_log()
    ensures { (heading : LogHeading) (there entries : List Entry) (edits : List Edit) → IsWholeFront (Some heading) (front_bytes_of (Some heading) there) there → edits ≡ edits_in there → AreTrueAfter edits (length edits) entries
        → IsWholeFront (Some heading) (front_bytes_of (Some heading) there ++ ended (map entry_line entries)) (there ++ entries) }
{}
