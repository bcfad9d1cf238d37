//! Laws of all scripts, as functions that do nothing.
ghost use Rattle.std.specs.Prelude.{◌≡◌, ◌==◌, ℕ, List, [], ◌∷◌, ◌++◌, codes, if◌then◌else◌, map, take};
ghost use Rattle.std.specs.List.{flat_map};
ghost use Rattle.lv_geometry.specs.Bounds.{Bounds};
ghost use Rattle.lv_geometry.specs.declared.refusals.Refusal.{Refusal};
ghost use Rattle.lv_lines.specs.Input.{last_line, lines_of, unended_of, whole_lines_of};
ghost use Rattle.lv_lines.specs.Replies.{Answered, AnsweredInParts};
ghost use Rattle.lv_lines.specs.Texts.{refused_text, reply_line};
ghost use Rattle.lv_script.specs.OneText.{StepWithRoom};
ghost use Rattle.lv_script.specs.PlainRuns.{AnswerStep, TrueStep, asked_in, plain_answers};
ghost use Rattle.lv_script.specs.Interpreter.{IsOneLine, NeverWants, PlainStep, plain_text};
ghost use Rattle.lv_script.specs.PlainScript.{Plain, start, vector_script};
ghost use Rattle.lv_script.specs.Script.{ScriptState};
ghost use Rattle.lv_script.specs.Beginnings.{Begins};

use lv_lines::LineHandler;
use std::io::Write;

/// A prefix of some lines is answered with a prefix of their text, whatever answers them. The rest is answered from the state and the
/// line number to which the prefix leads.
pub fn a_front_of_the_lines_gives_a_front_of_the_text<A: LineHandler<W>, W: Write>()
    ensures { (old new : A.State) (n : ℕ) (xs ys : List (List ℕ)) (text : List ℕ) →
        Answered A.step old n (xs ++ ys) text new → AnsweredInParts A.step old n xs ys text new }
{}

/// The lines that a prefix of an input ends are the first lines of the input. After them come the lines of what the prefix has after
/// its last LF, together with the rest of the input.
pub fn a_front_of_the_input_has_its_first_lines()
    ensures all { (xs ys : List ℕ) → lines_of (xs ++ ys) ≡ whole_lines_of xs ++ lines_of (unended_of xs ++ ys) }
    ensures whole { (xs ys : List ℕ) → whole_lines_of (xs ++ ys) ≡ whole_lines_of xs ++ whole_lines_of (unended_of xs ++ ys) }
    // All lines are those that an LF ends, and the bytes after the last LF unless there are none.
    ensures last { (xs : List ℕ) → lines_of xs ≡ whole_lines_of xs ++ last_line (unended_of xs) }
    // If the input ends with an LF, all lines are ended.
    ensures ended { (xs : List ℕ) → lines_of (xs ++ 10 ∷ []) ≡ whole_lines_of (xs ++ 10 ∷ []) }
{}

/// The lines that a prefix of an input ends are answered with a prefix of the text that answers the whole input.
pub fn a_front_of_the_input_gives_a_front_of_the_text<A: LineHandler<W>, W: Write>()
    ensures { (old new : A.State) (xs ys text : List ℕ) → Answered A.step old 1 (map (take 121) (lines_of (xs ++ ys))) text new
        → AnsweredInParts A.step old 1 (map (take 121) (whole_lines_of xs)) (map (take 121) (lines_of (unended_of xs ++ ys))) text new }
{}

/// A script that never runs out of memory has one text: within the same limits, the same lines have the same bytes as replies.
pub fn a_script_has_one_text()
    ensures { (limits : Bounds) (first other last end : ScriptState) (lines : List (List ℕ)) (text told : List ℕ) →
        Begins limits first → Begins limits other → Answered StepWithRoom first 1 lines text last → Answered StepWithRoom other 1 lines told end → text ≡ told }
{}

/// If no line of a text reports `NoMemory` (out of memory), the text is the reference interpreter's, for some oracle of one line for each
/// line: which task a claim hands out, what becomes of a delivery, or how many reads a reduction takes.
pub fn a_script_is_answered_plainly()
    ensures text { (first last : Plain) (n : ℕ) (lines : List (List ℕ)) (text : List ℕ) → Answered (PlainStep vector_script) first n lines text last → NeverWants text →
        (told : ℕ → List ℕ) × ((k : ℕ) → IsOneLine (told k)) × (text ≡ plain_text vector_script told first n lines) }
    // Updates and queries are answered as if there were no other commands between them.
    ensures answers { (first last : Plain) (n : ℕ) (lines : List (List ℕ)) (text : List ℕ) → Answered (PlainStep vector_script) first n lines text last → NeverWants text →
        Answered AnswerStep (plain_answers first (asked_in lines)) n lines text [] }
{}

/// Commands that precompute aggregates, `settle` and `cost` change no answer. Two scripts with the same updates and queries in the same order
/// answer these alike, whatever else is between them, if neither reports `NoMemory` (out of memory).
pub fn refresh_lines_change_no_answer()
    ensures { (limits : Bounds) (last end : Plain) (lines others : List (List ℕ)) (text told : List ℕ) →
        Answered (PlainStep vector_script) (start limits) 1 lines text last → NeverWants text →
        Answered (PlainStep vector_script) (start limits) 1 others told end → NeverWants told →
        asked_in lines ≡ asked_in others →
        (answers : List (List ℕ)) × Answered AnswerStep answers 1 lines text [] × Answered AnswerStep answers 1 others told [] }
{}

/// Each line's reply is the reference interpreter's after a prefix of all accepted updates, or reports `NoMemory` (out of memory), even if
/// memory runs out. Whatever is rejected changes nothing.
pub fn answers_are_true_of_the_accepted_edits()
    ensures answers { (limits : Bounds) (last : Plain) (lines : List (List ℕ)) (text : List ℕ) → Answered (PlainStep vector_script) (start limits) 1 lines text last →
        Answered (TrueStep limits last.edits) tt 1 lines text tt }
    ensures refused { (old new : Plain) (n : ℕ) (line : List ℕ) (refusal : Refusal) → PlainStep vector_script old n line (refused_text refusal) new → new ≡ old }
{}

/// The tour in README.md: its lines, and the reference interpreter's replies to them. Whoever changes the one changes the other.
pub fn the_tour_in_the_readme()
    ensures edits { plain_text vector_script (λ n. []) (start record { buckets = 17; edits = 16777215 }) 1
        (codes "watch total sum 0 100" ∷ codes "push 4" ∷ codes "push 6" ∷ codes "reduce best 0 2" ∷ codes "inc sum 0 2"
        ∷ codes "write 0 4" ∷ codes "swap 0 1" ∷ codes "truncate 1" ∷ [])
        ≡ flat_map reply_line
        (codes "watching total" ∷ codes "edit 1 at 0" ∷ codes "note total 4" ∷ codes "edit 2 at 1" ∷ codes "note total 10"
        ∷ codes "at 2 best 10" ∷ codes "at 2 inc sum 2" ∷ codes "= 4" ∷ codes "= 10"
        ∷ codes "edit 3 was 4" ∷ codes "edit 4 now 6 4" ∷ codes "edit 5 dropped 1" ∷ codes "note total 6" ∷ []) }
    // After pushes of 1 to 8. The oracle has the replies to the claims, the deliveries and `cost`.
    ensures refresh { plain_text vector_script (λ n. if n == 9 then codes "job 1 node 1 0 version 8" else (if n == 11 then codes "stale 9" else (if n == 12 then codes "job 2 node 1 0 version 9"
        else (if n == 13 then codes "installed" else codes "cells 0 summaries 1")))) (start record { buckets = 17; edits = 16777215 }) 1
        (codes "push 1" ∷ codes "push 2" ∷ codes "push 3" ∷ codes "push 4" ∷ codes "push 5" ∷ codes "push 6" ∷ codes "push 7" ∷ codes "push 8"
        ∷ codes "claim" ∷ codes "write 3 9" ∷ codes "deliver 1" ∷ codes "claim" ∷ codes "deliver 2" ∷ codes "cost 0 8" ∷ [])
        ≡ flat_map reply_line
        (codes "edit 1 at 0" ∷ codes "edit 2 at 1" ∷ codes "edit 3 at 2" ∷ codes "edit 4 at 3" ∷ codes "edit 5 at 4" ∷ codes "edit 6 at 5"
        ∷ codes "edit 7 at 6" ∷ codes "edit 8 at 7" ∷ codes "job 1 node 1 0 version 8" ∷ codes "edit 9 was 4" ∷ codes "stale 9"
        ∷ codes "job 2 node 1 0 version 9" ∷ codes "installed" ∷ codes "cells 0 summaries 1" ∷ []) }
{}
