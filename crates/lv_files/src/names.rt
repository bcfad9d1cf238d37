//! The names of files, and which of them clash.

use crate::program_error::{ProgramError, Reason};
use lv_lines::Fault;

/// The ending of the name of a file of replies.
pub const REPLIES: &str = ".out";

/// The files that are served, by their names.
#[derive(Clone, Copy)]
pub struct Names<'a> {
    /// Those of sessions, then those of subscribers, and last that of the transcript or of the log, if there is one.
    pub all: &'a [&'a str],
    /// How many sessions there are.
    pub sessions: usize,
    /// How many sessions and subscribers there are.
    pub clients: usize,
    /// Whether what is written to the transcript's file, or to the log, goes to the disk at once.
    pub syncs: bool,
    /// Whether the session of a pipe continues after the end of its writer.
    pub goes_on: bool,
}

impl<'a> Names<'a> {
    /// The names of sessions and subscribers.
    pub fn of_clients(&self) -> &'a [&'a str] {
        self.all.get(..self.clients).unwrap_or(self.all)
    }

    /// Whether a number is that of a session whose pipe is opened only when it is read. That holds if there is a transcript or a log.
    pub fn may_be_absent(&self, number: usize) -> bool {
        number < self.sessions && self.of_record().is_some()
    }

    /// The name of the file of the transcript or of the log, if there is one.
    pub fn of_record(&self) -> Option<&'a str> {
        self.all.get(self.clients).copied()
    }
}

/// The first clash among the names of files, if there is one.
pub fn first_clash(files: &[&str]) -> Option<ProgramError> {
    for (number, file) in files.iter().enumerate() {
        if let Some(error) = clash_between(&files[..number], number, file) {
            return Some(error);
        }
    }
    None
}

// How the file of a number clashes with one before it, if it does.
fn clash_between(before: &[&str], number: usize, file: &str) -> Option<ProgramError> {
    for (other, name) in before.iter().enumerate() {
        if *name == file {
            return Some(clash(Reason::Twice, number));
        }
        if is_reply_of(file, name) {
            return Some(clash(Reason::Replies, number));
        }
        if is_reply_of(name, file) {
            return Some(clash(Reason::Replies, other));
        }
    }
    None
}

// That the file of a number clashes with another.
fn clash(reason: Reason, number: usize) -> ProgramError {
    ProgramError::new(Fault::WriteFault, reason, number)
}

// Whether a name is that of the replies to another.
fn is_reply_of(name: &str, file: &str) -> bool {
    name.strip_suffix(REPLIES) == Some(file)
}
