//! Names as messages show them.

use std::fmt;

// Letters that have a place of their own and show nothing: fillers of Hangul, a pattern of Braille without a dot, a note without a head, and blanks
// of hieroglyphs.
const BLANKS: [char; 8] = [
    '\u{115f}',
    '\u{1160}',
    '\u{2800}',
    '\u{3164}',
    '\u{ffa0}',
    '\u{1d159}',
    '\u{13441}',
    '\u{13442}',
];

/// A name from the command line. A character that would end a line, speak to a terminal, or turn the order of the text next to it is shown by its
/// code, so that no name forges a message.
#[derive(Clone, Copy)]
pub struct Escaped<'a>(pub &'a str);

impl fmt::Display for Escaped<'_> {
    fn fmt<W: fmt::Write>(&self, f: &mut fmt::Formatter<W>) -> fmt::Result {
        for letter in self.0.chars() {
            put(f, letter)?;
        }
        Ok(())
    }
}

// One letter of a name.
fn put<W: fmt::Write>(f: &mut fmt::Formatter<W>, letter: char) -> fmt::Result {
    if is_shown(letter) {
        return f.write_char(letter);
    }
    if BLANKS.contains(&letter) {
        return write!(f, "\\u{{{:x}}}", u32::from(letter));
    }
    for shown in letter.escape_debug() {
        f.write_char(shown)?;
    }
    Ok(())
}

/// Whether a letter is shown as it is. Of ASCII these are the space and all that can be seen, with quotes and backslashes. Of the others they are
/// those that have a place of their own, can be seen, and don't turn the order of others.
pub fn is_shown(letter: char) -> bool {
    if letter.is_ascii() {
        return letter == ' ' || letter.is_ascii_graphic();
    }
    letter.escape_debug().count() == 1 && !BLANKS.contains(&letter)
}

/// Bytes from the command line that are not text. A space and ASCII that can be seen are shown as they are, and any other byte by its code.
#[derive(Clone, Copy)]
pub struct EscapedBytes<'a>(pub &'a [u8]);

impl fmt::Display for EscapedBytes<'_> {
    fn fmt<W: fmt::Write>(&self, f: &mut fmt::Formatter<W>) -> fmt::Result {
        for byte in self.0 {
            if *byte == b' ' || byte.is_ascii_graphic() {
                f.write_char(char::from(*byte))?;
            } else {
                write!(f, "\\x{byte:02x}")?;
            }
        }
        Ok(())
    }
}
