//! How words are read as numbers and as elements.
ghost use Rattle.std.specs.Prelude.{◌≡◌, ℕ, nat_le, ◌<◌, ◌≤◌, false, None, Some, IfSome, MatchOption, drop, length, neg_ℤ, pos, slice_index, take};
ghost use Rattle.lv_lines.specs.Words.{first_read, is_space, words_of};
ghost use Rattle.lv_lines.specs.Numbers.{allowed, element_in, fits_64, is_element, most_32, number_in, number_up_to, numeral_in};

use crate::words::{ends_word, from_word, next_word};

/// The most that fits into 32 bits.
pub(crate) const MOST_32: u64 = u32::MAX as u64;

/// The number that one or more digits denote, if it fits into 64 bits.
fn numeral(digits: &[u8]) -> Option<u64>
    ensures { result ≡ allowed fits_64 (numeral_in digits.now) }
{
    if digits.is_empty() {
        return None;
    }
    let mut value = 0u64;
    for digit in digits {
        if !digit.is_ascii_digit() {
            return None;
        }
        value = value
            .checked_mul(10)?
            .checked_add(u64::from(*digit - b'0'))?;
    }
    Some(value)
}

/// The number that the digits at the start of a text denote, and how many digits they are. Of more than 18 only the first 18 are read.
#[inline(always)]
fn front_digits(text: &[u8]) -> (u64, usize)
    ensures few { result.1 ≤ length text.now }
    ensures value { 0 < result.1 → numeral_in (take result.1 text.now) ≡ Some result.0 }
    ensures digits { (k : ℕ) → k < result.1 → is_space (slice_index text.now k) ≡ false }
{
    let most = text.len().min(18);
    let mut value = 0u64;
    let mut count = 0;
    while count < most && text[count].is_ascii_digit() {
        value = value * 10 + u64::from(text[count] - b'0');
        count += 1;
    }
    (value, count)
}

/// The number up to a bound that the first word is, and the bytes after it.
#[inline(always)]
pub(crate) fn first_up_to(bytes: &[u8], most: u64) -> Option<(u64, &[u8])>
    ensures read { MatchOption result (first_read (number_up_to most) (words_of bytes.now) ≡ None)
        (λ read. (first_read (number_up_to most) (words_of bytes.now) ≡ Some read.0) × (drop 1 (words_of bytes.now) ≡ words_of read.1.now)) }
    ensures small { IfSome result (λ read. read.0 ≤ most) }
{
    let text = from_word(bytes)?;
    let (value, count) = front_digits(text);
    let (_, rest) = text.split_at(count);
    if 0 < count && ends_word(rest) {
        return Some((fit(value, most)?, rest));
    }
    let (word, rest) = next_word(text)?;
    Some((number_up_to(word, most)?, rest))
}

/// The element that the first word is, and the bytes after it.
#[inline(always)]
pub(crate) fn first_element(bytes: &[u8]) -> Option<(i64, &[u8])>
    ensures { MatchOption result (first_read element_in (words_of bytes.now) ≡ None)
        (λ read. (first_read element_in (words_of bytes.now) ≡ Some read.0) × (drop 1 (words_of bytes.now) ≡ words_of read.1.now)) }
{
    let text = from_word(bytes)?;
    if text[0] == b'-' {
        return negative_at(text);
    }
    positive_at(text)
}

// The element that the first word is, and the bytes after it, in a text that begins with the word.
#[inline(always)]
fn positive_at(text: &[u8]) -> Option<(i64, &[u8])>
    ensures { MatchOption result (first_read element_in (words_of text.now) ≡ None)
        (λ read. (first_read element_in (words_of text.now) ≡ Some read.0) × (drop 1 (words_of text.now) ≡ words_of read.1.now)) }
{
    let (value, count) = front_digits(text);
    let (_, rest) = text.split_at(count);
    if 0 < count && ends_word(rest) {
        return Some((fit_positive(value)?, rest));
    }
    element_at(text)
}

// The element that the first word is, and the bytes after it, in a text that begins with the word and its `-`.
#[inline(always)]
fn negative_at(text: &[u8]) -> Option<(i64, &[u8])>
    requires some { 0 < length text.now }
    requires minus { slice_index text.now 0 ≡ 45 }
    ensures { MatchOption result (first_read element_in (words_of text.now) ≡ None)
        (λ read. (first_read element_in (words_of text.now) ≡ Some read.0) × (drop 1 (words_of text.now) ≡ words_of read.1.now)) }
{
    let (_, digits) = text.split_at(1);
    let (value, count) = front_digits(digits);
    let (_, rest) = digits.split_at(count);
    if 0 < count && ends_word(rest) {
        return Some((fit_negative(value)?, rest));
    }
    element_at(text)
}

// The element that the first word of any text is, and the bytes after it. The word is cut out first.
fn element_at(text: &[u8]) -> Option<(i64, &[u8])>
    ensures { MatchOption result (first_read element_in (words_of text.now) ≡ None)
        (λ read. (first_read element_in (words_of text.now) ≡ Some read.0) × (drop 1 (words_of text.now) ≡ words_of read.1.now)) }
{
    let (word, rest) = next_word(text)?;
    Some((element(word)?, rest))
}

// A value as a number up to a bound.
#[inline(always)]
fn fit(value: u64, most: u64) -> Option<u64>
    ensures number { result ≡ allowed (λ n. nat_le n most) (Some value) }
    ensures small { IfSome result (λ n. n ≤ most) }
{
    if most < value {
        return None;
    }
    Some(value)
}

// A value as an element, if it has at most 63 bits.
#[inline(always)]
fn fit_positive(value: u64) -> Option<i64>
    ensures { result ≡ allowed is_element (Some (pos value)) }
{
    i64::try_from(value).ok()
}

// The negated value as an element, if it is one.
#[inline(always)]
fn fit_negative(value: u64) -> Option<i64>
    ensures { result ≡ allowed is_element (Some (neg_ℤ (pos value))) }
{
    0i64.checked_sub_unsigned(value)
}

/// The number up to a bound that a word is.
pub fn number_up_to(word: &[u8], most: u64) -> Option<u64>
    ensures number { result ≡ number_up_to most word.now }
    ensures small { IfSome result (λ n. n ≤ most) }
{
    fit(numeral(word)?, most)
}

/// The number that a word is, if it fits into 32 bits.
pub fn number(word: &[u8]) -> Option<u32>
    ensures { result ≡ number_in word.now }
{
    let number = number_up_to(word, MOST_32)?;
    Some(narrow(number))
}

/// A number that fits into 32 bits, in 32 bits.
#[inline(always)]
pub(crate) fn narrow(number: u64) -> u32
    requires { number ≤ most_32 }
    ensures { result ≡ number }
{
    number as u32
}

/// The element that a word is.
pub fn element(word: &[u8]) -> Option<i64>
    ensures { result ≡ element_in word.now }
{
    if word.starts_with(b"-") {
        return 0i64.checked_sub_unsigned(numeral(&word[1..])?);
    }
    i64::try_from(numeral(word)?).ok()
}
