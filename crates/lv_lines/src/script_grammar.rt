//! The grammar of a vector's script: which command each first word begins.
ghost use Rattle.std.specs.Prelude.{◌≡◌, ◌∷◌, drop};
ghost use Rattle.lv_lines.specs.Words.{words_of};
ghost use Rattle.lv_lines.specs.Grammar.{bounds_in, command_in, first_and, forms, lone, made_of, name_in, range_in, read_by};
ghost use Rattle.lv_lines.specs.Numbers.{element_in, number_in};

use crate::command::Command;
use crate::grammar::{alone, bounds, lone_element, lone_name, lone_number, range_up_to, spells};
use crate::lines::LineGrammar;
use crate::numbers::{MOST_32, first_up_to, narrow};
use crate::words::next_word;
use lv_bodies::{Kind, Name};
use lv_edits::Edit;

/// How the words of a line of a vector's script are read.
#[derive(Clone, Copy)]
pub struct ScriptGrammar;

impl LineGrammar for ScriptGrammar {
    type Command = Command;

    ghost use Rattle.lv_lines.specs.Grammar.{command_in};

    ghost command_in = { λ _. command_in };

    fn command(&self, verb: &[u8], words: &[u8]) -> Option<Command> {
        command(verb, words)
    }
}

fn range(words: &[u8]) -> Option<(Kind, u32, u32)>
    ensures { result ≡ range_in (words_of words.now) }
{
    let (kind, lo, hi) = range_up_to(words, MOST_32)?;
    Some((kind, narrow(lo), narrow(hi)))
}

fn write(words: &[u8]) -> Option<Command>
    ensures { result ≡ made_of (first_and number_in (lone element_in)) (λ w. Command.Edit (Edit.Write w.0 w.1)) (words_of words.now) }
{
    let (index, rest) = first_up_to(words, MOST_32)?;
    let value = lone_element(rest)?;
    Some(Command::Edit(Edit::Write {
        index: narrow(index),
        value,
    }))
}

fn swap(words: &[u8]) -> Option<Command>
    ensures { result ≡ made_of bounds_in (λ w. Command.Edit (Edit.Swap w.0 w.1)) (words_of words.now) }
{
    bounds(words).map(|(first, second)| Command::Edit(Edit::Swap { first, second }))
}

fn watch(words: &[u8]) -> Option<Command>
    ensures { result ≡ made_of (first_and name_in range_in) (λ w. Command.Watch w.0 w.1.0 w.1.1 w.1.2) (words_of words.now) }
{
    let (word, rest) = next_word(words)?;
    let name = Name::new(word)?;
    let (kind, lo, hi) = range(rest)?;
    Some(Command::Watch { name, kind, lo, hi })
}

fn scan(inclusive: bool, words: &[u8]) -> Option<Command>
    ensures { result ≡ made_of range_in (λ w. Command.Scan inclusive w.0 w.1 w.2) (words_of words.now) }
{
    range(words).map(|(kind, lo, hi)| Command::Scan {
        inclusive,
        kind,
        lo,
        hi,
    })
}

fn other_command(verb: &[u8], words: &[u8]) -> Option<Command>
    ensures { result ≡ read_by (drop 14 forms) verb.now (words_of words.now) }
{
    if spells(verb, "claim") {
        return alone(Command::Claim, words);
    }
    if spells(verb, "deliver") {
        return lone_number(words).map(Command::Deliver);
    }
    if spells(verb, "forget") {
        return alone(Command::Forget, words);
    }
    if spells(verb, "watch") {
        return watch(words);
    }
    if spells(verb, "unwatch") {
        return lone_name(words).map(Command::Unwatch);
    }
    if spells(verb, "answer") {
        return lone_name(words).map(Command::Answer);
    }
    None
}

fn range_command(verb: &[u8], words: &[u8]) -> Option<Command>
    ensures { result ≡ read_by (drop 10 forms) verb.now (words_of words.now) }
{
    if spells(verb, "reduce") {
        return range(words).map(|(kind, lo, hi)| Command::Reduce { kind, lo, hi });
    }
    if spells(verb, "cost") {
        return bounds(words).map(|(lo, hi)| Command::Cost { lo, hi });
    }
    if spells(verb, "inc") {
        return scan(true, words);
    }
    if spells(verb, "exc") {
        return scan(false, words);
    }
    other_command(verb, words)
}

// The command that a first word and the words after it are.
#[tactic(auto, unfolding(crate::specs::Grammar::command_in))]
fn command(verb: &[u8], words: &[u8]) -> Option<Command>
    ensures { result ≡ command_in (verb.now ∷ words_of words.now) }
{
    if spells(verb, "push") {
        return lone_element(words).map(|value| Command::Edit(Edit::Push(value)));
    }
    if spells(verb, "pop") {
        return alone(Command::Edit(Edit::Pop), words);
    }
    if spells(verb, "write") {
        return write(words);
    }
    if spells(verb, "reserve") {
        return lone_number(words).map(|cells| Command::Edit(Edit::Reserve(cells)));
    }
    if spells(verb, "swap") {
        return swap(words);
    }
    if spells(verb, "truncate") {
        return lone_number(words).map(|kept| Command::Edit(Edit::Truncate(kept)));
    }
    if spells(verb, "settle") {
        return alone(Command::Settle, words);
    }
    if spells(verb, "get") {
        return lone_number(words).map(Command::Get);
    }
    if spells(verb, "size") {
        return alone(Command::Size, words);
    }
    if spells(verb, "capacity") {
        return alone(Command::Capacity, words);
    }
    range_command(verb, words)
}
