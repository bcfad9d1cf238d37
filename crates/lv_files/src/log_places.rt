//! The names that are used when a new log takes the place of another: where the new one is made, and where the old one is kept.

use crate::folders::{COMPACTING, Found, KEPT, beside, found_at, sync_folder};
use crate::identity::{Identity, SeenFile, standard_files};
use crate::log_file::open_locked;
use crate::log_lines::last_number;
use crate::output_file::{Access, OutputFile, Use};
use crate::program_error::{ProgramError, Reason};
use lv_lines::Fault;
use std::alloc::Global;
use std::fs::{File, Files, OpenFile, Permissions, TryLockError, hard_link, rename};
use std::os::unix::fs::{MetadataExt, PermissionsExt, fchown};

/// The name of a log, and the names next to it that are used when another log takes its place.
#[derive(Drop)]
pub struct LogPlaces<'a> {
    pub name: &'a str,
    // FILE.1, which the old file is kept as.
    kept: String,
    // FILE.compacting, which the new one is until it is whole.
    made: String,
    drops_old: bool,
    // Which file under FILE.1 is an older log, which the old file may take the place of.
    older: Option<SeenFile>,
    // Which of the files it is.
    number: usize,
}

impl<'a> LogPlaces<'a> {
    /// Those of the log of this name and number, whose old file is kept unless it is dropped.
    pub fn of(
        alloc: Global,
        name: &'a str,
        number: usize,
        drops_old: bool,
    ) -> Result<LogPlaces<'a>, ProgramError> {
        Ok(LogPlaces {
            name,
            kept: beside(alloc, name, KEPT)?,
            made: beside(alloc, name, COMPACTING)?,
            drops_old,
            older: None,
            number,
        })
    }

    /// Looks whether an older log is at the place where the old file is to be kept: one whose updates come before those of the log, which has so many
    /// before it. That file is remembered, since only it may be removed.
    pub fn look<R: Files<File = File>>(
        &mut self,
        rt: &R,
        alloc: Global,
        log: Identity,
        base: u64,
    ) -> Result<(), ProgramError> {
        self.older = None;
        let [kept, _] = self.found(rt);
        if kept == Found::Nothing || kept == Found::Regular(log) {
            return Ok(());
        }
        let Ok((file, _)) = open_beside(rt, self.kept.as_str()) else {
            return Ok(());
        };
        if let Some(last) = last_number(alloc, &file)? {
            if last <= base {
                self.older = SeenFile::of(&file);
            }
        }
        Ok(())
    }

    /// Whether the old file is not kept.
    pub fn drops_old(&self) -> bool {
        self.drops_old
    }

    /// Remembers that the old file, which is open, is now at the place where it is to be kept.
    pub fn remember(&mut self, old: &File) {
        self.older = SeenFile::of(old);
    }

    /// Finds out what is at the place where the old file is to be kept, if it is to be, and at the place where the new one is made.
    pub fn found<R: Files>(&self, rt: &R) -> [Found; 2] {
        let kept = if self.drops_old {
            Found::Nothing
        } else {
            found_at(rt, self.kept.as_str())
        };
        [kept, found_at(rt, self.made.as_str())]
    }

    /// Checks that only regular files are there, which nobody has locked and no standard stream reads or writes. None of them may be the log
    /// itself, except FILE.1: a replacement that was killed may have left the log that name. Otherwise FILE.1 must be the older log that was found
    /// there.
    pub fn see<R: Files<File = File>>(&self, rt: &R, log: Identity) -> Result<(), ProgramError> {
        let [kept, made] = self.found(rt);
        if let Some(reason) = self.kept_clash(rt, kept, log) {
            return Err(self.fault(reason));
        }
        match self.made_clash(rt, made, log) {
            Some(reason) => Err(self.fault(reason)),
            None => Ok(()),
        }
    }

    // The reason that the old file can't be kept where this was found, if there is one.
    fn kept_clash<R: Files<File = File>>(
        &self,
        rt: &R,
        found: Found,
        log: Identity,
    ) -> Option<Reason> {
        match found {
            Found::Nothing => None,
            Found::Regular(identity) if identity == log => None,
            Found::Regular(identity) => {
                if standard_files(rt).contains(&Some(identity)) {
                    return Some(Reason::KeptUsed);
                }
                match self.open_older(rt) {
                    Ok(_) | Err(Reason::Unopened) => None,
                    Err(Reason::RecordLocked) => Some(Reason::KeptLocked),
                    Err(Reason::KeptOther) => Some(Reason::KeptOther),
                    Err(_) => Some(Reason::KeptUnseen),
                }
            }
            Found::Else => Some(Reason::KeptTaken),
            Found::TooLong => Some(Reason::KeptLong),
            Found::Unknown => Some(Reason::KeptUnseen),
        }
    }

    // The reason that the new file can't be made where this was found, if there is one.
    fn made_clash<R: Files<File = File>>(
        &self,
        rt: &R,
        found: Found,
        log: Identity,
    ) -> Option<Reason> {
        match found {
            Found::Nothing => None,
            Found::Regular(identity) => {
                if identity == log {
                    return Some(Reason::CompactingSame);
                }
                if standard_files(rt).contains(&Some(identity)) {
                    return Some(Reason::CompactingUsed);
                }
                if is_locked(rt, self.made.as_str()) {
                    return Some(Reason::CompactingLocked);
                }
                None
            }
            Found::Else => Some(Reason::CompactingTaken),
            Found::TooLong => Some(Reason::CompactingLong),
            Found::Unknown => Some(Reason::CompactingUnseen),
        }
    }

    /// Makes the new file and locks it, in place of one that a killed replacement has left. If the log's name no longer leads to it, nothing is
    /// made and nothing is removed. Until the new file is in its place, only its owner may open it.
    pub fn make<R: Files<File = File>>(
        &self,
        rt: &R,
        log: OutputFile,
    ) -> Result<(File, OutputFile), ProgramError> {
        if !log.is_named(rt, self.name) {
            return Err(self.fault(Reason::Moved));
        }
        let made = self.made.as_str();
        let there = open_beside(rt, made);
        self.clear(
            rt,
            made,
            there,
            Reason::CompactingLocked,
            Reason::Uncompacted,
        )?;
        let how = Access {
            purpose: Use::Store,
            makes: true,
        };
        let Ok((file, output)) = OutputFile::make(rt, how, made) else {
            return Err(self.fault(Reason::Uncompacted));
        };
        match lock_made(rt, made, &file, output) {
            Ok(()) => Ok((file, output)),
            Err(reason) => Err(self.fault(reason)),
        }
    }

    // Opens and locks the file at the place where the old file is to be kept. It must be the older log that was found there, as long as it was then.
    fn open_older<R: Files<File = File>>(&self, rt: &R) -> Result<(File, OutputFile), Reason> {
        let (file, output) = open_beside(rt, self.kept.as_str())?;
        let seen = SeenFile::of(&file);
        if seen.is_some() && seen == self.older {
            return Ok((file, output));
        }
        Err(Reason::KeptOther)
    }

    // Removes what is in the way under a name next to the log. Nothing needs to be there; otherwise it is removed while it is locked. The error has
    // one of two reasons: `locked` if another has locked it, and `stays` if it couldn't be removed.
    fn clear<R: Files<File = File>>(
        &self,
        rt: &R,
        name: &str,
        there: Result<(File, OutputFile), Reason>,
        locked: Reason,
        stays: Reason,
    ) -> Result<(), ProgramError> {
        match there {
            Ok((file, output)) => {
                let is_gone = output.is_taken_away(rt, name);
                drop(file);
                if is_gone {
                    return Ok(());
                }
                Err(self.fault(stays))
            }
            Err(Reason::Unopened) => Ok(()),
            Err(Reason::RecordLocked) => Err(self.fault(locked)),
            Err(_) => Err(self.fault(stays)),
        }
    }

    /// Takes the new file away again. It is locked until then.
    pub fn unmake<R: Files>(&self, rt: &R, output: OutputFile) {
        let _ = output.is_removed(rt, self.made.as_str());
    }

    /// Puts the new file, which is whole, in place of the old one, which is kept if that is wanted. All bytes of the new one are on the disk then,
    /// but its name may not be there yet. If a name leads to another file than the one that was opened, nothing is replaced; this is checked last
    /// of all.
    pub fn replace<R: Files<File = File>>(
        &self,
        rt: &R,
        old: &File,
        log: OutputFile,
        new: &File,
        made: OutputFile,
    ) -> Result<(), ProgramError> {
        if !is_allowed(old, new) {
            return Err(self.fault(Reason::Uncompacted));
        }
        self.see_names(rt, log, made)?;
        let has_second = !self.drops_old && self.keep(rt, log)?;
        match self.rename(rt, log, made) {
            Ok(()) => Ok(()),
            Err(error) => {
                if has_second && log.is_named(rt, self.name) {
                    let _ = log.is_taken_away(rt, self.kept.as_str());
                }
                Err(error)
            }
        }
    }

    // Gives the new file the log's name, if both names still lead to these two.
    fn rename<R: Files>(
        &self,
        rt: &R,
        log: OutputFile,
        made: OutputFile,
    ) -> Result<(), ProgramError> {
        self.see_names(rt, log, made)?;
        match rename(rt, self.made.as_str(), self.name) {
            Ok(()) => Ok(()),
            Err(_) => Err(self.fault(Reason::Unreplaced)),
        }
    }

    // Checks that the log's name leads to it, and that of the new file to the new file.
    fn see_names<R: Files>(
        &self,
        rt: &R,
        log: OutputFile,
        made: OutputFile,
    ) -> Result<(), ProgramError> {
        if !log.is_named(rt, self.name) {
            return Err(self.fault(Reason::Moved));
        }
        if !made.is_named(rt, self.made.as_str()) {
            return Err(self.fault(Reason::MadeMoved));
        }
        Ok(())
    }

    // Gives the old file a second name, in place of another file that nobody has locked, unless it has that already. Says whether it gave it.
    fn keep<R: Files<File = File>>(&self, rt: &R, log: OutputFile) -> Result<bool, ProgramError> {
        let kept = self.kept.as_str();
        if log.is_named(rt, kept) {
            return Ok(false);
        }
        let unkept = match found_at(rt, kept) {
            Found::Nothing => Reason::Unkept,
            _ => Reason::UnkeptAndGone,
        };
        self.clear(
            rt,
            kept,
            self.open_older(rt),
            Reason::KeptLocked,
            Reason::Unkept,
        )?;
        if hard_link(rt, self.name, kept).is_err() {
            return Err(self.fault(unkept));
        }
        // what has the log's name may have changed in between
        if log.is_named(rt, kept) {
            Ok(true)
        } else {
            Err(self.fault(Reason::Moved))
        }
    }

    /// Flushes the folder to the disk, so that the new file has its name there too.
    pub fn sync<R: Files>(&self, rt: &R) -> Result<(), ProgramError> {
        match sync_folder(rt, self.name, self.number) {
            Ok(()) => Ok(()),
            Err(_) => Err(self.fault(Reason::Unflushed)),
        }
    }

    /// The error that the new file can't be made, or can't be put in the old one's place.
    pub fn fault(&self, reason: Reason) -> ProgramError {
        ProgramError::new(Fault::WriteFault, reason, self.number)
    }
}

/// The operations in the folder of a log when another takes its place. The trait has no types of its own, unlike `Files`, so that a log that is
/// sent to a thread may use it.
pub trait LogFolder {
    /// Whether the log's name leads to this file, and not by a link.
    fn is_named(&self, places: &LogPlaces<'_>, log: OutputFile) -> bool;

    /// Checks that nothing is in the way, and makes the new file.
    fn make(
        &self,
        places: &LogPlaces<'_>,
        log: OutputFile,
    ) -> Result<(File, OutputFile), ProgramError>;

    /// Removes the new file again.
    fn unmake(&self, places: &LogPlaces<'_>, output: OutputFile);

    /// Puts the new file in place of the old one, if the names lead to these two.
    fn replace(
        &self,
        places: &LogPlaces<'_>,
        old: &File,
        log: OutputFile,
        new: &File,
        made: OutputFile,
    ) -> Result<(), ProgramError>;

    /// Flushes the folder to the disk, so that the new file has its name there too.
    fn sync_name(&self, places: &LogPlaces<'_>) -> Result<(), ProgramError>;
}

impl<R: Files<File = File>> LogFolder for R {
    fn is_named(&self, places: &LogPlaces<'_>, log: OutputFile) -> bool {
        log.is_named(self, places.name)
    }

    fn make(
        &self,
        places: &LogPlaces<'_>,
        log: OutputFile,
    ) -> Result<(File, OutputFile), ProgramError> {
        places.see(self, log.identity)?;
        places.make(self, log)
    }

    fn unmake(&self, places: &LogPlaces<'_>, output: OutputFile) {
        places.unmake(self, output);
    }

    fn replace(
        &self,
        places: &LogPlaces<'_>,
        old: &File,
        log: OutputFile,
        new: &File,
        made: OutputFile,
    ) -> Result<(), ProgramError> {
        places.replace(self, old, log, new, made)
    }

    fn sync_name(&self, places: &LogPlaces<'_>) -> Result<(), ProgramError> {
        places.sync(self)
    }
}

// Opens a file next to a log and locks it, in the way a log is opened, or only for reading if no more is allowed.
fn open_beside<R: Files<File = File>>(rt: &R, name: &str) -> Result<(File, OutputFile), Reason> {
    let how = Access {
        purpose: Use::Store,
        makes: false,
    };
    match open_locked(rt, how, name) {
        Err(Reason::Transcript) => {
            let how = Access {
                purpose: Use::Locked,
                makes: false,
            };
            open_locked(rt, how, name)
        }
        opened => opened,
    }
}

// Whether another has locked a file next to a log.
fn is_locked<R: Files<File = File>>(rt: &R, name: &str) -> bool {
    match open_beside(rt, name) {
        Ok(opened) => {
            drop(opened);
            false
        }
        Err(Reason::RecordLocked) => true,
        Err(_) => false,
    }
}

// Locks a file that was made here. If another has locked it first or has written to it meanwhile, that one keeps it.
fn lock_made<R: Files>(rt: &R, name: &str, file: &File, output: OutputFile) -> Result<(), Reason> {
    match file.try_lock() {
        Ok(()) => {}
        Err(TryLockError::WouldBlock) => return Err(Reason::CompactingLocked),
        Err(TryLockError::Error(_)) => {
            let _ = output.is_removed(rt, name);
            return Err(Reason::Uncompacted);
        }
    }
    if output.is_untouched(file) && output.is_named(rt, name) {
        return Ok(());
    }
    Err(Reason::Uncompacted)
}

// Gives the new file the permissions of the old one, and flushes it to the disk. Returns whether it could. The new one gets the old one's owner and
// group, if the user of the program may give them; otherwise it belongs to that user, and its group may do what others may.
fn is_allowed(old: &File, new: &File) -> bool {
    let Ok(found) = old.metadata() else {
        return false;
    };
    let group = Some(found.gid());
    let has_group = fchown(new, Some(found.uid()), group).is_ok()
        || fchown(new, None, group).is_ok();
    let mode = found.permissions().mode();
    let allowed = if has_group {
        mode
    } else {
        with_group_like_others(mode)
    };
    new.set_permissions(Permissions::from_mode(allowed)).is_ok() && new.sync_all().is_ok()
}

// The permissions of a file whose group may do what others may.
fn with_group_like_others(mode: u32) -> u32 {
    (mode & !0o070) | ((mode & 0o007) << 3)
}
