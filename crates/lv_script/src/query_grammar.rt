//! The grammar of standing queries: the words after `watch`, in a script or in a subscriber's file.
ghost use Rattle.std.specs.Prelude.{◌≡◌};
ghost use Rattle.lv_lines.specs.Grammar.{lone};
ghost use Rattle.lv_lines.specs.Words.{words_of};
ghost use Rattle.lv_script.specs.QueryGrammar.{bound_in, is_one_number, query_in, span_in, threshold_in};

use lv_bodies::{Kind, Name};
use lv_lines::grammar::{kind, spells};
use lv_lines::{element, next_word, number_up_to, only_word};
use lv_standing::{Query, Span};
use lv_tree::Bound;

/// The query that words are: a name, a kind, a span, and maybe a bound. Its numbers are at most `most`.
#[tactic(auto, unfolding(crate::specs::QueryGrammar::query_in))]
pub fn read_query(words: &[u8], most: u64) -> Option<Query>
    ensures { result ≡ query_in most (words_of words.now) }
{
    let (word, rest) = next_word(words)?;
    let (second, rest) = next_word(rest)?;
    let (third, rest) = next_word(rest)?;
    let (fourth, rest) = next_word(rest)?;
    let name = Name::new(word)?;
    let kind = kind(second)?;
    let span = span(third, fourth, most)?;
    let bound = threshold(kind, rest)?;
    Some(Query {
        name,
        kind,
        span,
        bound,
    })
}

#[tactic(auto, unfolding(crate::specs::QueryGrammar::span_in))]
fn span(word: &[u8], second: &[u8], most: u64) -> Option<Span>
    ensures { result ≡ span_in most word.now second.now }
{
    if spells(word, "last") {
        return number_up_to(second, most).map(Span::Last);
    }
    let lo = number_up_to(word, most)?;
    let hi = number_up_to(second, most)?;
    Some(Span::Between { lo, hi })
}

/// The bound that two words are.
#[tactic(auto, unfolding(crate::specs::QueryGrammar::bound_in))]
pub fn bound(word: &[u8], second: &[u8]) -> Option<Bound>
    ensures { result ≡ bound_in word.now second.now }
{
    if spells(word, "at-least") {
        return element(second).map(Bound::AtLeast);
    }
    if spells(word, "at-most") {
        return element(second).map(Bound::AtMost);
    }
    None
}

fn lone_bound(word: &[u8], words: &[u8]) -> Option<Bound>
    ensures { result ≡ lone (bound_in word.now) (words_of words.now) }
{
    bound(word, only_word(words)?)
}

// Whether the value of a kind is one number.
fn is_one_number(kind: Kind) -> bool
    ensures { result ≡ is_one_number kind }
{
    match kind {
        Kind::Affine | Kind::Automaton => false,
        _ => true,
    }
}

#[tactic(auto, unfolding(crate::specs::QueryGrammar::threshold_in))]
fn threshold(kind: Kind, words: &[u8]) -> Option<Option<Bound>>
    ensures { result ≡ threshold_in kind (words_of words.now) }
{
    let Some((word, rest)) = next_word(words) else {
        return Some(None);
    };
    if !is_one_number(kind) {
        return None;
    }
    lone_bound(word, rest).map(Some)
}
