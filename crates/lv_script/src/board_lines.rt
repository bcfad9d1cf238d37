//! What the lines of a board's session say.
ghost use Rattle.std.specs.Prelude.{◌≡◌, ◌∷◌};
ghost use Rattle.lv_lines.specs.Words.{words_of};
ghost use Rattle.lv_script.specs.BoardLine.{board_call_in, board_line_of, own_range_in};

use crate::plain_calls::plain_call;
use lv_bodies::Kind;
use lv_lines::grammar::{bounds, spells};
use lv_lines::{Line, LineGrammar, kind_name, next_word, read_line_by};
use lv_machine::Call;

/// What a line of a session says, on a board that reduces by one kind: a reduction of another kind is bad. The bytes are those of
/// one line, without the LF at its end.
pub fn read_board_line(kind: Kind, bytes: &[u8]) -> Line<Call>
    ensures { result ≡ board_line_of kind bytes.now }
{
    read_line_by(&BoardGrammar { kind }, bytes)
}

// How the words of a line are read on a board that reduces by one kind.
#[derive(Clone, Copy)]
struct BoardGrammar {
    kind: Kind,
}

impl LineGrammar for BoardGrammar {
    type Command = Call;

    ghost use Rattle.lv_script.specs.BoardLine.{board_call_in};

    ghost command_in = { λ g. board_call_in g.kind };

    fn command(&self, verb: &[u8], words: &[u8]) -> Option<Call> {
        board_call(self.kind, verb, words)
    }
}

// The call that a first word and the words after it ask for.
#[tactic(auto, unfolding(crate::specs::BoardLine::board_call_in))]
fn board_call(kind: Kind, verb: &[u8], words: &[u8]) -> Option<Call>
    ensures { result ≡ board_call_in kind (verb.now ∷ words_of words.now) }
{
    if spells(verb, "reduce") {
        return own_range(kind, words);
    }
    plain_call(verb, words)
}

// The reduction that the words `kind lo hi` ask for, if the kind is the board's.
#[tactic(auto, unfolding(crate::specs::BoardLine::own_range_in))]
fn own_range(kind: Kind, words: &[u8]) -> Option<Call>
    ensures { result ≡ own_range_in kind (words_of words.now) }
{
    let (word, rest) = next_word(words)?;
    if !spells(word, kind_name(kind)) {
        return None;
    }
    bounds(rest).map(|(lo, hi)| Call::Reduce { lo, hi })
}
