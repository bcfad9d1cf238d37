//! Files that are read.

use crate::identity::Identity;
use crate::program_error::{ProgramError, Reason};
use lv_lines::Fault;
use std::fs::{File, Files, OpenFile};
use std::io::Error;

// The system's error if a process has as many open files as it may have (EMFILE).
const NO_DESCRIPTOR: i32 = 24;

/// Opens the file of a number, which is read. A directory is none.
pub fn open_input<R: Files>(
    rt: &R,
    number: usize,
    name: &str,
) -> Result<(R::File, Identity), ProgramError> {
    let reason = match File::open(rt, name) {
        Ok(lines) => match lines.metadata() {
            Ok(found) if !found.is_dir() => return Ok((lines, Identity::of(&found))),
            _ => Reason::Unopened,
        },
        Err(error) => reason_for(&error, Reason::Unopened),
    };
    Err(ProgramError::new(Fault::ReadFault, reason, number))
}

/// The reason why a file can't be opened: a given one, unless the process may have no more open files.
pub fn reason_for(error: &Error, reason: Reason) -> Reason {
    match error.raw_os_error() {
        Some(NO_DESCRIPTOR) => Reason::Descriptors,
        _ => reason,
    }
}
