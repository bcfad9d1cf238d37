//! Lines, and how they are read by the grammar of their commands.
ghost use Rattle.std.specs.Prelude.{◌≡◌, ℕ, ◌∷◌, List, Option};
ghost use Rattle.lv_lines.specs.Grammar.{line_by, line_of, without_cr, is_comment};
ghost use Rattle.lv_lines.specs.Words.{words_of};

use crate::command::Command;
use crate::script_grammar::ScriptGrammar;
use crate::words::next_word;

/// A line, as a grammar reads it.
#[derive(Clone, Copy)]
pub enum Line<C> {
    /// Blank, or a comment. It has no reply.
    Nothing,
    /// No line of the grammar, or too long.
    Bad,
    /// A command.
    Do(C),
}

/// How the words of a line are read as a command.
pub trait LineGrammar {
    /// The commands of lines.
    type Command;

    // The command that the words of a line are.
    ghost command_in: { Self → List (List ℕ) → Option Self.Command };

    /// The command that a first word and the words after it are.
    fn command(&self, verb: &[u8], words: &[u8]) -> Option<Self::Command>
        ensures { result ≡ command_in self.now (verb.now ∷ words_of words.now) };
}

/// What a line says, according to a grammar. The bytes are those of one line, without the LF at its end.
#[tactic(auto, unfolding(crate::specs::Grammar::line_by))]
pub fn read_line_by<G: LineGrammar>(grammar: &G, bytes: &[u8]) -> Line<G::Command>
    ensures { result ≡ line_by (G.command_in grammar.now) bytes.now }
{
    if bytes.len() > 120 {
        return Line::Bad;
    }
    let Some((verb, rest)) = next_word(without_cr(bytes)) else {
        return Line::Nothing;
    };
    if is_comment(verb) {
        return Line::Nothing;
    }
    match grammar.command(verb, rest) {
        Some(command) => Line::Do(command),
        None => Line::Bad,
    }
}

/// What a line of a vector's script says.
pub fn read_line(bytes: &[u8]) -> Line<Command>
    ensures { result ≡ line_of bytes.now }
{
    read_line_by(&ScriptGrammar, bytes)
}

// A line without the CR at its end, if there is one.
fn without_cr(bytes: &[u8]) -> &[u8]
    ensures { result.now ≡ without_cr bytes.now }
{
    if bytes.ends_with(b"\r") {
        return &bytes[..bytes.len() - 1];
    }
    bytes
}

// Whether a line whose first word this is, is a comment.
fn is_comment(word: &[u8]) -> bool
    ensures { result ≡ is_comment word.now }
{
    word.starts_with(b"#")
}
