//! The lines of a transcript: how each is put, and how one is read.
ghost use Rattle.std.specs.Prelude.{◌≡◌, ◌≢◌, ◌+◌, ◌≤◌, ◌++◌, Some, List, ℕ, MatchOption, vec_len, vec_capacity};
ghost use Rattle.lv_lines.specs.Output.{HasRoom, KeepsRoom};
ghost use Rattle.lv_edits.specs.declared.edit.Edit.{Edit};
ghost use Rattle.lv_lines.specs.Words.{words_of};
ghost use Rattle.lv_transcript.specs.declared.log_heading.LogHeading.{LogHeading};
ghost use Rattle.lv_transcript.specs.Auditing.{bounds_before, heading_before, heading_in, question_before, question_in, range_before, text_of, IsQuestion};
ghost use Rattle.lv_transcript.specs.Transcript.{edit_line, log_line, question_text, IsEdit, IsHeading};

use crate::log_heading::LogHeading;
use lv_bodies::Kind;
use lv_edits::Edit;
use lv_lines::grammar::kind;
use lv_lines::{
    Command, Line, kind_name, next_word, number, number_up_to, put, put_command, put_number,
    read_line,
};

/// At most how many bytes the line of an edit has, and that of an answer before its value.
pub(crate) const HEAD: usize = 80;

/// The question that an answer belongs to: the value of a kind over a range, at a version.
#[derive(Clone, Copy)]
pub(crate) struct Question {
    pub(crate) edit: u32,
    pub(crate) kind: Kind,
    pub(crate) lo: u32,
    pub(crate) hi: u32,
}

/// Puts the line of an edit, without its LF, after what is held.
pub(crate) fn put_edit_line(held: &mut Vec<u8>, edit: Edit)
    requires { HasRoom held.old HEAD }
    ensures text { held.new.items ≡ held.old.items ++ edit_line edit }
    ensures len { vec_len held.new ≤ vec_len held.old + HEAD }
    ensures room { KeepsRoom held.old held.new }
    ensures fits { IsEdit edit }
{
    put(held, b"j ");
    put_command(held, &Command::Edit(edit));
}

/// Puts what the line of an answer begins with, up to its value, after what is held.
pub(crate) fn put_question(held: &mut Vec<u8>, edit: u32, kind: Kind, lo: u32, hi: u32)
    requires { HasRoom held.old HEAD }
    ensures text { held.new.items ≡ held.old.items ++ question_text edit kind lo hi }
    ensures len { vec_len held.new ≤ vec_len held.old + HEAD }
    ensures room { KeepsRoom held.old held.new }
{
    put(held, b"a ");
    put_number(held, edit.into());
    put(held, b" ");
    put(held, kind_name(kind).as_bytes());
    put(held, b" ");
    put_number(held, lo.into());
    put(held, b" ");
    put_number(held, hi.into());
    put(held, b" ");
}

/// Puts the line that a log begins with, without its LF, after what is held.
pub(crate) fn put_heading(held: &mut Vec<u8>, heading: LogHeading)
    requires { HasRoom held.old HEAD }
    ensures text { held.new.items ≡ held.old.items ++ log_line heading }
    ensures len { vec_len held.new ≤ vec_len held.old + HEAD }
    ensures room { KeepsRoom held.old held.new }
    ensures numbers { IsHeading heading }
{
    put(held, b"livevec 2 ");
    put_number(held, heading.base);
    put(held, b" ");
    put_number(held, heading.elements.into());
}

/// The heading in the line that a log begins with, letter for letter. Its text is put into `text`, in place of what is there.
pub(crate) fn read_heading(line: &[u8], text: &mut Vec<u8>) -> Option<LogHeading>
    requires { HEAD ≤ vec_capacity text.old }
    ensures heading { MatchOption result ((heading : LogHeading) → IsHeading heading → line.now ≢ log_line heading)
        (λ heading. IsHeading heading × (line.now ≡ log_line heading)) }
    ensures room { KeepsRoom text.old text.new }
{
    let heading = likely_heading(line)?;
    text.clear();
    put_heading(text, heading);
    if text.as_slice() == line {
        return Some(heading);
    }
    None
}

// The heading in a line, if it is that of any log: the letters are not compared.
fn likely_heading(line: &[u8]) -> Option<LogHeading>
    ensures { result ≡ heading_in (words_of line.now) }
{
    let (_, words) = next_word(line)?;
    let (_, words) = next_word(words)?;
    front_heading(words)
}

#[tactic(auto, unfolding(crate::specs::Auditing::heading_before))]
fn front_heading(words: &[u8]) -> Option<LogHeading>
    ensures { result ≡ heading_before (words_of words.now) }
{
    let (word, rest) = next_word(words)?;
    let base = number_up_to(word, u64::MAX)?;
    let (word, _) = next_word(rest)?;
    let elements = number(word)?;
    Some(LogHeading { base, elements })
}

/// The edit whose line this is, letter for letter. Its text is put into `text`, in place of what is there.
pub(crate) fn read_edit(line: &[u8], text: &mut Vec<u8>) -> Option<Edit>
    requires { HEAD ≤ vec_capacity text.old }
    ensures edit { MatchOption result ((edit : Edit) → IsEdit edit → line.now ≢ edit_line edit)
        (λ edit. IsEdit edit × (line.now ≡ edit_line edit)) }
    ensures room { KeepsRoom text.old text.new }
{
    let edit = likely_edit(line)?;
    text.clear();
    put_edit_line(text, edit);
    if text.as_slice() != line {
        return None;
    }
    Some(edit)
}

// The update that a line may be that of: the letters are not compared.
fn likely_edit(line: &[u8]) -> Option<Edit>
    ensures { (edit : Edit) → IsEdit edit → line.now ≡ edit_line edit → result ≡ Some edit }
{
    let command = line.strip_prefix(b"j ")?;
    match read_line(command) {
        Line::Do(command) => edit_of(command),
        Line::Nothing | Line::Bad => None,
    }
}

fn edit_of(command: Command) -> Option<Edit>
    ensures { (edit : Edit) → command ≡ Command.Edit edit → result ≡ Some edit }
{
    match command {
        Command::Edit(edit) => Some(edit),
        _ => None,
    }
}

/// The question that a line begins with, letter for letter, and the bytes after it. The question's text is put into
/// `text`, in place of what is there.
pub(crate) fn read_answer<'a>(line: &'a [u8], text: &mut Vec<u8>) -> Option<(Question, &'a [u8])>
    requires { HEAD ≤ vec_capacity text.old }
    ensures answer { MatchOption result ((question : Question) (value : List ℕ) → IsQuestion question → line.now ≢ text_of question ++ value)
        (λ read. IsQuestion read.0 × (line.now ≡ text_of read.0 ++ read.1.now)) }
    ensures room { KeepsRoom text.old text.new }
{
    let question = likely_question(line)?;
    text.clear();
    put_question(text, question.edit, question.kind, question.lo, question.hi);
    let value = line.strip_prefix(text.as_slice())?;
    Some((question, value))
}

// The question that a line begins with, if it is that of any answer: the letters are not compared.
fn likely_question(line: &[u8]) -> Option<Question>
    ensures { result ≡ question_in (words_of line.now) }
{
    let (_, words) = next_word(line)?;
    front_question(words)
}

#[tactic(auto, unfolding(crate::specs::Auditing::question_before))]
fn front_question(words: &[u8]) -> Option<Question>
    ensures { result ≡ question_before (words_of words.now) }
{
    let (word, rest) = next_word(words)?;
    let edit = number(word)?;
    let (kind, lo, hi) = front_range(rest)?;
    Some(Question { edit, kind, lo, hi })
}

#[tactic(auto, unfolding(crate::specs::Auditing::range_before))]
fn front_range(words: &[u8]) -> Option<(Kind, u32, u32)>
    ensures { result ≡ range_before (words_of words.now) }
{
    let (word, rest) = next_word(words)?;
    let kind = kind(word)?;
    let (lo, hi) = front_bounds(rest)?;
    Some((kind, lo, hi))
}

#[tactic(auto, unfolding(crate::specs::Auditing::bounds_before))]
fn front_bounds(words: &[u8]) -> Option<(u32, u32)>
    ensures { result ≡ bounds_before (words_of words.now) }
{
    let (word, rest) = next_word(words)?;
    let lo = number(word)?;
    let (word, _) = next_word(rest)?;
    let hi = number(word)?;
    Some((lo, hi))
}
