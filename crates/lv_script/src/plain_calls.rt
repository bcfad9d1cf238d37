//! The calls of the lock-free form that schedules and sessions spell alike.
ghost use Rattle.std.specs.Prelude.{◌≡◌, ◌∷◌};
ghost use Rattle.lv_lines.specs.Words.{words_of};
ghost use Rattle.lv_script.specs.Schedule.{call_of, plain_call_in};

use lv_edits::Edit;
use lv_lines::grammar::{lone_number, spells};
use lv_lines::{Command, LineGrammar, ScriptGrammar};
use lv_machine::Call;

/// The call that a first word and the words after it ask for, except for reductions.
#[tactic(auto, unfolding(crate::specs::Schedule::plain_call_in))]
pub(crate) fn plain_call(verb: &[u8], words: &[u8]) -> Option<Call>
    ensures { result ≡ plain_call_in (verb.now ∷ words_of words.now) }
{
    if spells(verb, "refresh") {
        return lone_number(words).map(Call::Refresh);
    }
    call_of(ScriptGrammar.command(verb, words)?)
}

// The call that a command of scripts asks for, if the lock-free form has it.
fn call_of(command: Command) -> Option<Call>
    ensures { result ≡ call_of command }
{
    match command {
        Command::Edit(Edit::Push(x)) => Some(Call::Push(x)),
        Command::Edit(Edit::Pop) => Some(Call::Pop),
        Command::Edit(Edit::Write { index, value }) => Some(Call::Write { index, value }),
        Command::Get(index) => Some(Call::Get(index)),
        Command::Size => Some(Call::Size),
        _ => None,
    }
}
