//! The words of a line, and those that kinds and scans go by.
ghost use Rattle.std.specs.Prelude.{◌≡◌, ◌<◌, false, true, [], ◌∷◌, length, slice_index, IsTrue, MatchOption, option_copied};
ghost use Rattle.lv_lines.specs.Grammar.{kind_name};
ghost use Rattle.lv_lines.specs.Texts.{scan_name};
ghost use Rattle.lv_lines.specs.Words.{is_space, words_of, only_word};

use lv_bodies::Kind;

/// The first word and the bytes after it, or nothing if there are no words.
pub fn next_word(bytes: &[u8]) -> Option<(&[u8], &[u8])>
    ensures { MatchOption result (words_of bytes.now ≡ [])
        (λ found. words_of bytes.now ≡ found.0.now ∷ words_of found.1.now) }
{
    let start = bytes.iter().position(|b| *b != b' ')?;
    let (_, bytes) = bytes.split_at(start);
    let end = bytes.iter().position(|b| *b == b' ').unwrap_or(bytes.len());
    Some(bytes.split_at(end))
}

/// The bytes from the first word on, or nothing if there are no words.
#[inline(always)]
pub(crate) fn from_word(bytes: &[u8]) -> Option<&[u8]>
    ensures { MatchOption result (words_of bytes.now ≡ [])
        (λ text. (words_of bytes.now ≡ words_of text.now) × (0 < length text.now) × (is_space (slice_index text.now 0) ≡ false)) }
{
    let start = bytes.iter().position(|b| *b != b' ')?;
    let (_, text) = bytes.split_at(start);
    Some(text)
}

/// Whether bytes that follow a word end it: there are none, or the first is a space.
#[inline(always)]
pub(crate) fn ends_word(bytes: &[u8]) -> bool
    ensures { IsTrue result → 0 < length bytes.now → is_space (slice_index bytes.now 0) ≡ true }
{
    match bytes.first() {
        Some(byte) => *byte == b' ',
        None => true,
    }
}

/// The only word, if there is exactly one.
pub fn only_word(bytes: &[u8]) -> Option<&[u8]>
    ensures { option_copied result ≡ only_word (words_of bytes.now) }
{
    let (word, rest) = next_word(bytes)?;
    if next_word(rest).is_some() {
        return None;
    }
    Some(word)
}

/// The word that a kind goes by.
pub fn kind_name(kind: Kind) -> &'static str
    ensures { result.now ≡ kind_name kind }
{
    match kind {
        Kind::Sum => "sum",
        Kind::Least => "least",
        Kind::Greatest => "greatest",
        Kind::Best => "best",
        Kind::Affine => "affine",
        Kind::Automaton => "automaton",
    }
}

/// The word of a scan.
pub fn scan_name(inclusive: bool) -> &'static str
    ensures { result.now ≡ scan_name inclusive }
{
    if inclusive { "inc" } else { "exc" }
}
