//! The grammar of a series' script: what the words of a line say.
ghost use Rattle.std.specs.Prelude.{◌≡◌, ◌∷◌, drop};
ghost use Rattle.lv_lines.specs.Grammar.{first_and, lone, made_of, read_by};
ghost use Rattle.lv_lines.specs.Numbers.{element_in};
ghost use Rattle.lv_lines.specs.Words.{words_of};
ghost use Rattle.lv_script.specs.LongGrammar.{first_in, long_bounds_in, long_command_in, long_forms, long_line_of, long_number_in, long_range_in, most_long, watch_of, where_in, within_in};
ghost use Rattle.lv_script.specs.QueryGrammar.{query_in};

use crate::long_commands::{LongCommand, Search};
use crate::query_grammar::{bound, read_query};
use lv_lines::grammar::{
    alone, bounds_up_to, lone_element, lone_name, lone_up_to, range_up_to, spells,
};
use lv_lines::{Line, LineGrammar, element, next_word, number_up_to, read_line_by};
use lv_series::LongEdit;
use lv_standing::Query;
use lv_tree::Bound;

/// The most that a number of a series' line may be, 2^62.
const MOST: u64 = 1 << 62;

/// What a line of a series' script says. The bytes are those of one line, without the LF at its end.
pub fn read_long_line(bytes: &[u8]) -> Line<LongCommand>
    ensures { result ≡ long_line_of bytes.now }
{
    read_line_by(&SeriesGrammar, bytes)
}

// How the words of a line of a series' script are read.
#[derive(Clone, Copy)]
struct SeriesGrammar;

impl LineGrammar for SeriesGrammar {
    type Command = LongCommand;

    ghost use Rattle.lv_script.specs.LongGrammar.{long_command_in};

    ghost command_in = { λ _. long_command_in };

    fn command(&self, verb: &[u8], words: &[u8]) -> Option<LongCommand> {
        long_command(verb, words)
    }
}

fn write(words: &[u8]) -> Option<LongCommand>
    ensures { result ≡ made_of (first_and long_number_in (lone element_in)) (λ w. LongCommand.Edit (LongEdit.Write w.0 w.1)) (words_of words.now) }
{
    let (word, rest) = next_word(words)?;
    let index = number_up_to(word, MOST)?;
    let value = lone_element(rest)?;
    Some(LongCommand::Edit(LongEdit::Write { index, value }))
}

fn watch(words: &[u8]) -> Option<LongCommand>
    ensures { result ≡ made_of (query_in most_long) watch_of (words_of words.now) }
{
    let Query {
        name,
        kind,
        span,
        bound,
    } = read_query(words, MOST)?;
    Some(LongCommand::Watch {
        name,
        kind,
        span,
        bound,
    })
}

// An element within a bound in a range: the words `at-least` or `at-most`, an element, and `lo hi`.
#[tactic(auto, unfolding(crate::specs::LongGrammar::within_in))]
fn within(words: &[u8]) -> Option<(Bound, u64, u64)>
    ensures { result ≡ within_in (words_of words.now) }
{
    let (word, rest) = next_word(words)?;
    let (second, rest) = next_word(rest)?;
    let bound = bound(word, second)?;
    let (lo, hi) = bounds_up_to(rest, MOST)?;
    Some((bound, lo, hi))
}

#[tactic(auto, unfolding(crate::specs::LongGrammar::first_in))]
fn first(words: &[u8]) -> Option<LongCommand>
    ensures { result ≡ first_in (words_of words.now) }
{
    if next_word(words).is_none() {
        return Some(LongCommand::First);
    }
    within(words).map(|(bound, lo, hi)| LongCommand::Find {
        sought: Search::First(bound),
        lo,
        hi,
    })
}

fn reach(words: &[u8]) -> Option<LongCommand>
    ensures { result ≡ made_of (first_and element_in long_bounds_in) (λ w. LongCommand.Find (Search.Reach w.0) w.1.0 w.1.1) (words_of words.now) }
{
    let (word, rest) = next_word(words)?;
    let sum = element(word)?;
    let (lo, hi) = bounds_up_to(rest, MOST)?;
    Some(LongCommand::Find {
        sought: Search::Reach(sum),
        lo,
        hi,
    })
}

#[tactic(auto, unfolding(crate::specs::LongGrammar::where_in))]
fn place(words: &[u8]) -> Option<LongCommand>
    ensures { result ≡ where_in (words_of words.now) }
{
    let (word, rest) = next_word(words)?;
    if spells(word, "least") {
        return found(Search::Least, rest);
    }
    if spells(word, "greatest") {
        return found(Search::Greatest, rest);
    }
    if spells(word, "best") {
        return bounds_up_to(rest, MOST).map(|(lo, hi)| LongCommand::BestRun { lo, hi });
    }
    None
}

fn found(sought: Search, words: &[u8]) -> Option<LongCommand>
    ensures { result ≡ made_of long_bounds_in (λ w. LongCommand.Find sought w.0 w.1) (words_of words.now) }
{
    bounds_up_to(words, MOST).map(|(lo, hi)| LongCommand::Find { sought, lo, hi })
}

fn scan(inclusive: bool, words: &[u8]) -> Option<LongCommand>
    ensures { result ≡ made_of long_range_in (λ w. LongCommand.Scan inclusive w.0 w.1 w.2) (words_of words.now) }
{
    range_up_to(words, MOST).map(|(kind, lo, hi)| LongCommand::Scan {
        inclusive,
        kind,
        lo,
        hi,
    })
}

fn other_command(verb: &[u8], words: &[u8]) -> Option<LongCommand>
    ensures { result ≡ read_by (drop 9 long_forms) verb.now (words_of words.now) }
{
    if spells(verb, "reduce") {
        return range_up_to(words, MOST).map(|(kind, lo, hi)| LongCommand::Reduce { kind, lo, hi });
    }
    if spells(verb, "inc") {
        return scan(true, words);
    }
    if spells(verb, "exc") {
        return scan(false, words);
    }
    if spells(verb, "watch") {
        return watch(words);
    }
    if spells(verb, "unwatch") {
        return lone_name(words).map(LongCommand::Unwatch);
    }
    if spells(verb, "answer") {
        return lone_name(words).map(LongCommand::Answer);
    }
    search_command(verb, words)
}

fn search_command(verb: &[u8], words: &[u8]) -> Option<LongCommand>
    ensures { result ≡ read_by (drop 15 long_forms) verb.now (words_of words.now) }
{
    if spells(verb, "last") {
        return within(words).map(|(bound, lo, hi)| LongCommand::Find {
            sought: Search::Last(bound),
            lo,
            hi,
        });
    }
    if spells(verb, "reach") {
        return reach(words);
    }
    if spells(verb, "where") {
        return place(words);
    }
    None
}

#[tactic(auto, unfolding(crate::specs::LongGrammar::long_command_in))]
fn long_command(verb: &[u8], words: &[u8]) -> Option<LongCommand>
    ensures { result ≡ long_command_in (verb.now ∷ words_of words.now) }
{
    if spells(verb, "push") {
        return lone_element(words).map(|value| LongCommand::Edit(LongEdit::Push(value)));
    }
    if spells(verb, "pop") {
        return alone(LongCommand::Edit(LongEdit::Pop), words);
    }
    if spells(verb, "write") {
        return write(words);
    }
    if spells(verb, "swap") {
        return bounds_up_to(words, MOST).map(|(first, second)| LongCommand::Edit(LongEdit::Swap {
            first,
            second,
        }));
    }
    if spells(verb, "truncate") {
        return lone_up_to(words, MOST).map(|size| LongCommand::Edit(LongEdit::Truncate(size)));
    }
    if spells(verb, "expire") {
        return lone_up_to(words, MOST).map(|first| LongCommand::Edit(LongEdit::Expire(first)));
    }
    if spells(verb, "get") {
        return lone_up_to(words, MOST).map(LongCommand::Get);
    }
    if spells(verb, "size") {
        return alone(LongCommand::Size, words);
    }
    if spells(verb, "first") {
        return first(words);
    }
    other_command(verb, words)
}
