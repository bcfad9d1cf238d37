//! The folder of a file, and the files next to it.

use crate::identity::Identity;
use crate::program_error::{ProgramError, Reason};
use lv_lines::Fault;
use std::alloc::Global;
use std::fs::{File, Files, OpenFile, symlink_metadata};
use std::io::ErrorKind;

/// The ending of the name that the old file has once a log was compacted.
pub const KEPT: &str = ".1";

/// The ending of the name of a log that is being compacted.
pub const COMPACTING: &str = ".compacting";

/// What is found under a name.
#[derive(Clone, Copy, PartialEq)]
pub enum Found {
    Nothing,
    /// A regular file.
    Regular(Identity),
    /// Something else.
    Else,
    /// Nothing can be there, since the name is too long.
    TooLong,
    /// Nobody knows what.
    Unknown,
}

/// Finds out what is under a name. No link is followed.
pub fn found_at<R: Files>(rt: &R, name: &str) -> Found {
    match symlink_metadata(rt, name) {
        Ok(found) if found.is_file() => Found::Regular(Identity::of(&found)),
        Ok(_) => Found::Else,
        Err(error) => match error.kind() {
            ErrorKind::NotFound => Found::Nothing,
            ErrorKind::InvalidFilename => Found::TooLong,
            _ => Found::Unknown,
        },
    }
}

/// The name of a file next to another: the other's name with an ending.
pub fn beside(alloc: Global, name: &str, ending: &str) -> Result<String, ProgramError> {
    match format!(in alloc; "{name}{ending}") {
        Ok(name) => Ok(name),
        Err(_) => Err(ProgramError::memory()),
    }
}

/// Flushes the folder of a file to the disk, so that the file has its name there too.
pub fn sync_folder<R: Files>(rt: &R, name: &str, number: usize) -> Result<(), ProgramError> {
    let unsynced = ProgramError::new(Fault::WriteFault, Reason::Unsynced, number);
    let Ok(folder) = File::open(rt, folder_of(name)) else {
        return Err(unsynced);
    };
    match folder.sync_all() {
        Ok(()) => Ok(()),
        Err(_) => Err(unsynced),
    }
}

// The folder of a file.
fn folder_of(name: &str) -> &str {
    match name.rsplit_once('/') {
        Some(("", _)) => "/",
        Some((folder, _)) => folder,
        None => ".",
    }
}
