//! Files that are written: how one is opened, emptied, and taken away.

use crate::folders::{Found, found_at};
use crate::identity::Identity;
use crate::input_file::reason_for;
use crate::program_error::{Left, ProgramError, Reason};
use std::fs::{Files, Metadata, OpenFile, OpenOptions, remove_file, symlink_metadata};
use std::io::ErrorKind;
use std::os::unix::fs::OpenOptionsExt;

// How often a file is looked at anew because another came under its name.
const TRIES: u32 = 100;

// The mode of a file that only its owner may read and write.
const PRIVATE: u32 = 0o600;

/// The purpose for which a file is opened.
#[derive(Clone, Copy)]
pub enum Use {
    /// It is written.
    Written,
    /// It is read, and written at its end only. If it is made, nobody but its owner may open it.
    Store,
    /// Nothing is read or written there: it is locked, and taken away.
    Locked,
}

/// How a file is opened.
#[derive(Clone, Copy)]
pub struct Access {
    pub purpose: Use,
    /// Whether it is made if it isn't there.
    pub makes: bool,
}

impl Access {
    // The options with which such a file is opened.
    fn options(self) -> OpenOptions {
        let mut how = OpenOptions::new();
        match self.purpose {
            Use::Written => {
                how.write(true);
            }
            Use::Store => {
                how.read(true).append(true).mode(PRIVATE);
            }
            Use::Locked => {
                how.read(true);
            }
        }
        how
    }
}

/// A file that is written: which it is, and whether it was made here.
#[derive(Clone, Copy)]
pub struct OutputFile {
    pub identity: Identity,
    is_new: bool,
}

impl OutputFile {
    /// Opens the file of this name to be written, without changing it, or makes it. No link is followed, and only a regular file is opened. The
    /// reason of a failure is `Link` or `Unmade`.
    pub fn open<R: Files>(rt: &R, name: &str) -> Result<(R::File, OutputFile), Reason> {
        let how = Access {
            purpose: Use::Written,
            makes: true,
        };
        OutputFile::open_by(rt, how, name)
    }

    /// Opens a file like `open`, but as `how` says. One that isn't there and isn't to be made is `Unopened`. If another file comes under its name
    /// meanwhile, that one is opened.
    pub fn open_by<R: Files>(
        rt: &R,
        how: Access,
        name: &str,
    ) -> Result<(R::File, OutputFile), Reason> {
        for _ in 0..TRIES {
            if let Some(opened) = open_once(rt, how, name) {
                return opened;
            }
        }
        Err(Reason::Unmade)
    }

    /// Makes a file of this name as `how` says; no file may be there. If it can't be found out which file it is, it stays, and is empty.
    pub fn make<R: Files>(
        rt: &R,
        how: Access,
        name: &str,
    ) -> Result<(R::File, OutputFile), Reason> {
        let file = match how.options().create_new(true).open(rt, name) {
            Ok(file) => file,
            Err(error) => return Err(reason_for(&error, Reason::Unmade)),
        };
        match file.metadata() {
            Ok(made) => {
                let output = OutputFile {
                    identity: Identity::of(&made),
                    is_new: true,
                };
                Ok((file, output))
            }
            Err(_) => Err(Reason::Unmade),
        }
    }

    /// Whether its name leads to it, and not by a link.
    pub fn is_named<R: Files>(self, rt: &R, name: &str) -> bool {
        found_at(rt, name) == Found::Regular(self.identity)
    }

    /// Empties it, if it was there before. Returns whether it could.
    pub fn is_emptied<F: OpenFile>(self, file: &F) -> bool {
        self.is_new || file.set_len(0).is_ok()
    }

    /// Whether nobody has written to it since it was made here, if it was.
    pub fn is_untouched<F: OpenFile>(self, file: &F) -> bool {
        match file.metadata() {
            Ok(found) => !self.is_new || found.len() == 0,
            Err(_) => false,
        }
    }

    /// This file, but as one that was there before if another has written to it since it was made here.
    pub fn as_found<F: OpenFile>(self, file: &F) -> OutputFile {
        OutputFile {
            identity: self.identity,
            is_new: self.is_new && self.is_untouched(file),
        }
    }

    /// Removes the file if its name still leads to it. Returns whether it could.
    pub fn is_taken_away<R: Files>(self, rt: &R, name: &str) -> bool {
        self.is_named(rt, name) && remove_file(rt, name).is_ok()
    }

    /// Removes the file if it was made here and its name still leads to it. Returns whether no file that was made here is left by this name. If the
    /// name leads elsewhere by now, or nobody knows where, nothing is removed.
    pub fn is_removed<R: Files>(self, rt: &R, name: &str) -> bool {
        !self.is_new || self.is_taken_away(rt, name) || found_at(rt, name) == Found::Nothing
    }

    /// An error, after the file was removed as by `is_removed`. If the file is left, the error names it, unless it names another already.
    pub fn without<R: Files>(
        self,
        rt: &R,
        name: &str,
        left: Left,
        error: ProgramError,
    ) -> ProgramError {
        let mut error = error;
        if !self.is_removed(rt, name) && error.left.is_none() {
            error.left = Some(left);
        }
        error
    }
}

// Opens a file like `open_by`, or says why it can't be opened; neither if another file came under its name meanwhile.
fn open_once<R: Files>(
    rt: &R,
    how: Access,
    name: &str,
) -> Option<Result<(R::File, OutputFile), Reason>> {
    match symlink_metadata(rt, name) {
        Ok(found) => open_found(rt, how, name, &found),
        Err(error) if error.kind() == ErrorKind::NotFound => {
            if !how.makes {
                return Some(Err(Reason::Unopened));
            }
            match OutputFile::make(rt, how, name) {
                Err(_) if found_at(rt, name) != Found::Nothing => None,
                made => Some(made),
            }
        }
        Err(_) => Some(Err(Reason::Unmade)),
    }
}

// Opens a file to write that was found. What is opened must be that one.
fn open_found<R: Files>(
    rt: &R,
    how: Access,
    name: &str,
    found: &Metadata,
) -> Option<Result<(R::File, OutputFile), Reason>> {
    if found.is_symlink() {
        return Some(Err(Reason::Link));
    }
    if !found.is_file() {
        return Some(Err(Reason::Unmade));
    }
    let output = OutputFile {
        identity: Identity::of(found),
        is_new: false,
    };
    let file = match how.options().open(rt, name) {
        Ok(file) => file,
        Err(error) if output.is_named(rt, name) => {
            return Some(Err(reason_for(&error, Reason::Unmade)));
        }
        Err(_) => return None,
    };
    match file.metadata() {
        Ok(opened) if Identity::of(&opened) == output.identity => Some(Ok((file, output))),
        Ok(_) => None,
        Err(_) => Some(Err(Reason::Unmade)),
    }
}
