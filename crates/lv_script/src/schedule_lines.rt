//! What the lines of a schedule say.
ghost use Rattle.std.specs.Prelude.{◌≡◌, ◌∷◌};
ghost use Rattle.lv_lines.specs.Words.{words_of};
ghost use Rattle.lv_script.specs.Schedule.{call_in, called_in, event_in, schedule_line_of};

use crate::plain_calls::plain_call;
use lv_lines::grammar::{bounds, lone_number, spells};
use lv_lines::{Line, LineGrammar, next_word, number, read_line_by};
use lv_machine::{Call, Event};

/// What a line of a schedule says: a call of an actor, or its next step. The bytes are those of one line, without the LF at its end.
pub fn read_schedule_line(bytes: &[u8]) -> Line<Event>
    ensures { result ≡ schedule_line_of bytes.now }
{
    read_line_by(&ScheduleGrammar, bytes)
}

// How the words of a line of a schedule are read.
#[derive(Clone, Copy)]
struct ScheduleGrammar;

impl LineGrammar for ScheduleGrammar {
    type Command = Event;

    ghost use Rattle.lv_script.specs.Schedule.{event_in};

    ghost command_in = { λ _. event_in };

    fn command(&self, verb: &[u8], words: &[u8]) -> Option<Event> {
        event(verb, words)
    }
}

// The event that a first word and the words after it say.
#[tactic(auto, unfolding(crate::specs::Schedule::event_in))]
fn event(verb: &[u8], words: &[u8]) -> Option<Event>
    ensures { result ≡ event_in (verb.now ∷ words_of words.now) }
{
    if spells(verb, "call") {
        return called(words);
    }
    if spells(verb, "step") {
        return lone_number(words).map(|actor| Event::Step { actor });
    }
    None
}

// The call of an actor: the words `A`, and those of the call.
#[tactic(auto, unfolding(crate::specs::Schedule::called_in))]
fn called(words: &[u8]) -> Option<Event>
    ensures { result ≡ called_in (words_of words.now) }
{
    let (word, rest) = next_word(words)?;
    let actor = number(word)?;
    let call = call(rest)?;
    Some(Event::Call { actor, call })
}

// The call that words ask for.
#[tactic(auto, unfolding(crate::specs::Schedule::call_in))]
fn call(words: &[u8]) -> Option<Call>
    ensures { result ≡ call_in (words_of words.now) }
{
    let (verb, rest) = next_word(words)?;
    if spells(verb, "reduce") {
        return bounds(rest).map(|(lo, hi)| Call::Reduce { lo, hi });
    }
    plain_call(verb, rest)
}
