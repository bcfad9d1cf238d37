//! In which lines of a log its updates are, and how many these are.

use crate::program_error::{ProgramError, Reason};
use lv_lines::{Fault, MOST_NUMBERED};
use lv_transcript::read_front;
use std::alloc::Global;
use std::fs::File;
use std::io;
use std::io::{BufRead, BufReader, Error, ErrorKind, Read, Seek, SeekFrom};

/// The line of an update, by its number in the log that is open as the file of a number. Lines and updates are counted from 1, and the file is read
/// again up to that line. If that fails, the fault is `ReadFault`.
pub fn line_of(
    alloc: Global,
    file: &mut File,
    number: usize,
    update: u32,
) -> Result<u32, ProgramError> {
    let unread = ProgramError::new(Fault::ReadFault, Reason::Unread, number);
    if file.seek(SeekFrom::Start(0)).is_err() {
        return Err(unread);
    }
    let Ok(mut lines) = BufReader::new(alloc, &*file) else {
        return Err(ProgramError::memory());
    };
    match count_to(&mut lines, update) {
        Ok(line) => Ok(line),
        Err(_) => Err(unread),
    }
}

// Counts lines up to that of an update, which begins with its letter, as answers and the first line don't.
fn count_to<R: BufRead>(lines: &mut R, update: u32) -> io::Result<u32> {
    let mut updates = 0u32;
    for line in 1..u32::MAX {
        if lines.fill_buf()?.first() == Some(&b'j') {
            updates = updates.saturating_add(1);
        }
        if updates == update {
            return Ok(line);
        }
        if lines.skip_until(b'\n')? == 0 {
            break;
        }
    }
    Err(Error::from(ErrorKind::UnexpectedEof))
}

/// The number of the last update of a log, or of a prefix (*front*) of a transcript, that is open at its start: how many updates came before it,
/// plus how many of its whole lines are updates that don't represent elements. Only the first letter of a line is looked at. None if its first line
/// isn't that of a log or of a transcript, if it has fewer updates than elements, or if it can't be read.
pub fn last_number(alloc: Global, file: &File) -> Result<Option<u64>, ProgramError> {
    let Ok(mut lines) = BufReader::new(alloc, file) else {
        return Err(ProgramError::memory());
    };
    let Some((base, elements)) = numbers_before(alloc, &mut lines)? else {
        return Ok(None);
    };
    let Ok((updates, is_last)) = count_updates(&mut lines) else {
        return Ok(None);
    };
    let torn = u64::from(is_last && !is_ended(file));
    match updates.saturating_sub(torn).checked_sub(elements.into()) {
        Some(behind) => Ok(base.checked_add(behind)),
        None => Ok(None),
    }
}

// The numbers in the first line: how many updates came before the file, and how many of its updates represent elements. None if it isn't that of a
// log or of a transcript.
fn numbers_before<R: BufRead>(
    alloc: Global,
    lines: &mut R,
) -> Result<Option<(u64, u32)>, ProgramError> {
    let Ok(first) = lines.fill_buf() else {
        return Ok(None);
    };
    let found = match read_front(alloc, MOST_NUMBERED, first) {
        Ok(found) => found,
        Err(Fault::NoMemory) => return Err(ProgramError::memory()),
        Err(_) => return Ok(None),
    };
    match found.heading {
        Some(heading) => Ok(Some((heading.base, heading.elements))),
        // it counts the first line of a transcript, and no line that is wrong
        None if found.whole > 0 => Ok(Some((0, 0))),
        None => Ok(None),
    }
}

// How many lines are updates, and whether the last line is one.
fn count_updates<R: BufRead>(lines: &mut R) -> io::Result<(u64, bool)> {
    let mut updates = 0u64;
    let mut is_last = false;
    for _ in 0..u64::MAX {
        let Some(letter) = lines.fill_buf()?.first().copied() else {
            break;
        };
        is_last = letter == b'j';
        updates = updates.saturating_add(is_last.into());
        lines.skip_until(b'\n')?;
    }
    Ok((updates, is_last))
}

// Whether a file's last line is whole.
fn is_ended(file: &File) -> bool {
    let mut file = file;
    let mut last = [0u8; 1];
    file.seek(SeekFrom::End(-1)).is_ok() && file.read_exact(&mut last).is_ok() && last == *b"\n"
}
