//! How words are read: as kinds, numbers up to a bound, elements and names, and several words in a row.
ghost use Rattle.std.specs.Prelude.{◌≡◌, ◌≤◌, IfSome};
ghost use Rattle.std.specs.Str.{bytes_eq};
ghost use Rattle.lv_lines.specs.Words.{words_of};
ghost use Rattle.lv_lines.specs.Grammar.{alone, bounds_in, bounds_up_to, kind_in, lone, lone_number, name_in, range_up_to};
ghost use Rattle.lv_lines.specs.Numbers.{element_in, number_up_to};

use crate::numbers::{MOST_32, first_element, first_up_to, narrow};
use crate::words::{next_word, only_word};
use lv_bodies::{Kind, Name};

/// Whether a word is this text.
#[inline(always)]
pub fn spells(word: &[u8], text: &str) -> bool
    ensures { result ≡ bytes_eq word.now text.now }
{
    word.len() == text.len() && word.starts_with(text.as_bytes())
}

/// The kind that goes by a word.
#[tactic(auto, unfolding(crate::specs::Grammar::kind_in))]
pub fn kind(word: &[u8]) -> Option<Kind>
    ensures { result ≡ kind_in word.now }
{
    if spells(word, "sum") {
        return Some(Kind::Sum);
    }
    if spells(word, "least") {
        return Some(Kind::Least);
    }
    if spells(word, "greatest") {
        return Some(Kind::Greatest);
    }
    if spells(word, "best") {
        return Some(Kind::Best);
    }
    if spells(word, "affine") {
        return Some(Kind::Affine);
    }
    if spells(word, "automaton") {
        return Some(Kind::Automaton);
    }
    None
}

/// The number up to a bound that the only word is. None if there are no words, or more than one.
#[inline(always)]
pub fn lone_up_to(words: &[u8], most: u64) -> Option<u64>
    ensures number { result ≡ lone (number_up_to most) (words_of words.now) }
    ensures small { IfSome result (λ n. n ≤ most) }
{
    let (number, rest) = first_up_to(words, most)?;
    match next_word(rest) {
        Some(_) => None,
        None => Some(number),
    }
}

/// The 32-bit number that the only word is. None if there are no words, or more than one.
pub fn lone_number(words: &[u8]) -> Option<u32>
    ensures { result ≡ lone_number (words_of words.now) }
{
    let number = lone_up_to(words, MOST_32)?;
    Some(narrow(number))
}

/// The element that the only word is.
#[inline(always)]
pub fn lone_element(words: &[u8]) -> Option<i64>
    ensures { result ≡ lone element_in (words_of words.now) }
{
    let (value, rest) = first_element(words)?;
    match next_word(rest) {
        Some(_) => None,
        None => Some(value),
    }
}

/// The name that the only word is.
pub fn lone_name(words: &[u8]) -> Option<Name>
    ensures { result ≡ lone name_in (words_of words.now) }
{
    Name::new(only_word(words)?)
}

/// The two numbers up to a bound that two words are.
#[tactic(auto, unfolding(crate::specs::Grammar::bounds_up_to))]
pub fn bounds_up_to(words: &[u8], most: u64) -> Option<(u64, u64)>
    ensures bounds { result ≡ bounds_up_to most (words_of words.now) }
    ensures first { IfSome result (λ bounds. bounds.0 ≤ most) }
    ensures second { IfSome result (λ bounds. bounds.1 ≤ most) }
{
    let (lo, rest) = first_up_to(words, most)?;
    let hi = lone_up_to(rest, most)?;
    Some((lo, hi))
}

/// The two 32-bit numbers that two words are.
pub fn bounds(words: &[u8]) -> Option<(u32, u32)>
    ensures { result ≡ bounds_in (words_of words.now) }
{
    let (lo, hi) = bounds_up_to(words, MOST_32)?;
    Some((narrow(lo), narrow(hi)))
}

/// The kind that the first word is, and the two numbers up to a bound that the others are.
#[tactic(auto, unfolding(crate::specs::Grammar::range_up_to))]
pub fn range_up_to(words: &[u8], most: u64) -> Option<(Kind, u64, u64)>
    ensures range { result ≡ range_up_to most (words_of words.now) }
    ensures first { IfSome result (λ range. range.1 ≤ most) }
    ensures second { IfSome result (λ range. range.2 ≤ most) }
{
    let (word, rest) = next_word(words)?;
    let kind = kind(word)?;
    let (lo, hi) = bounds_up_to(rest, most)?;
    Some((kind, lo, hi))
}

/// A command that no words follow.
pub fn alone<C: Copy>(command: C, words: &[u8]) -> Option<C>
    ensures { result ≡ alone command (words_of words.now) }
{
    if next_word(words).is_some() {
        return None;
    }
    Some(command)
}
