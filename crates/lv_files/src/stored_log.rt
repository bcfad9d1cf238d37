//! The log of a server, whose file is made anew when it is long.

ghost use Rattle.std.specs.Prelude.{◌≡◌, ◌≤◌, length};

use crate::log_file::LogFile;
use crate::log_places::{LogFolder, LogPlaces};
use crate::output_file::OutputFile;
use crate::program_error::{ProgramError, Reason};
use crate::seal_buffer::SealBuffer;
use crate::waited::Waited;
use lv_lines::Fault;
use lv_transcript::{LogHeading, LogWriter, write_log};
use std::alloc::Global;
use std::fs::File;
use std::io::{Error, ErrorKind, Write};
use std::time::Clock;
use std::{io, mem};

const MOVED: &str = "this name no longer leads to the log";

/// The plan for the log of a server.
#[derive(Clone, Copy)]
pub struct LogPlan {
    /// Whether answers are written there too.
    pub logs_answers: bool,
    /// From how many bytes on it is made anew.
    pub compact_at: u64,
    /// Whether the old file needn't be kept then.
    pub drops_old: bool,
    /// Whether it must be there already.
    pub must_exist: bool,
    /// Whether a log of an older version stays one.
    pub keeps_version: bool,
}

/// The log of a server. It is made anew, in another file that takes its place, once it has so many bytes and is twice as long as when it was made
/// last.
#[derive(Drop)]
pub struct StoredLog<'a, C: Copy, E: Copy> {
    clock: C,
    rt: E,
    places: LogPlaces<'a>,
    // Whether what is flushed is to be on the disk.
    syncs: bool,
    plan: LogPlan,
    file: Waited<C, LogFile<File>>,
    output: OutputFile,
    // From how many bytes on it is made anew next.
    due: u64,
    // Whether it was reported that it can't be made anew.
    is_told: bool,
    // Whether the file may be lost, since its name may not be on the disk, or leads elsewhere.
    is_lost: bool,
    // The last second, by the clock, in which it was seen that its name leads to it.
    seen_at: Option<u64>,
}

impl<'a, C: Clock + Copy, R: Eprint + LogFolder> StoredLog<'a, C, &'a R> {
    /// A log that is open and locked, at its end.
    pub fn new(
        clock: C,
        rt: &'a R,
        places: LogPlaces<'a>,
        syncs: bool,
        plan: LogPlan,
        file: Waited<C, LogFile<File>>,
        output: OutputFile,
    ) -> StoredLog<'a, C, &'a R> {
        StoredLog {
            clock,
            rt,
            places,
            syncs,
            plan,
            file,
            output,
            due: plan.compact_at,
            is_told: false,
            is_lost: false,
            seen_at: None,
        }
    }

    /// Checks that the log's name leads to the file that is written. If not, what is written may be lost, and nothing more is written.
    pub fn see_name(&mut self) -> io::Result<()> {
        if self.rt.is_named(&self.places, self.output) {
            return Ok(());
        }
        self.is_lost = true;
        Err(Error::new(ErrorKind::NotFound, MOVED))
    }

    // Checks it as `see_name` does, once a second at most.
    fn see_name_again(&mut self) -> io::Result<()> {
        let second = match self.clock.monotonic() {
            Ok(time) => Some(time.as_secs()),
            Err(_) => None,
        };
        if second.is_some() && second == self.seen_at {
            return Ok(());
        }
        self.seen_at = second;
        self.see_name()
    }

    // Makes another file of these elements, and puts it in place of the one that there is. If that fails, this one stays.
    fn renew(
        &mut self,
        alloc: Global,
        heading: LogHeading,
        elements: &[i64],
    ) -> Result<(), ProgramError>
        requires count { heading.elements ≡ length elements.now }
        requires few { length elements.now ≤ 1048568 }
    {
        let seals = self.seals(alloc)?;
        let (file, output) = self.rt.make(&self.places, self.output)?;
        let mut log = Waited::new(self.clock, LogFile::new(file, self.syncs, 0, seals));
        match self.fill_and_replace(alloc, heading, elements, &mut log, output) {
            Ok(()) => {
                let old = mem::replace(&mut self.file, log);
                self.places.remember(&old.stream().file);
                drop(old);
                self.output = output;
                self.sync_name();
                Ok(())
            }
            Err(error) => {
                self.rt.unmake(&self.places, output);
                drop(log);
                Err(error)
            }
        }
    }

    // The buffer of the new file's bytes: its lines end in checksums, unless those of the old one don't and that is to stay so.
    fn seals(&self, alloc: Global) -> Result<Option<SealBuffer>, ProgramError> {
        if self.plan.keeps_version && !self.file.stream().is_sealed() {
            return Ok(None);
        }
        Ok(Some(SealBuffer::of_new(alloc)?))
    }

    // Fills the new file, and puts it in place of the old one.
    fn fill_and_replace(
        &self,
        alloc: Global,
        heading: LogHeading,
        elements: &[i64],
        log: &mut Waited<C, LogFile<File>>,
        made: OutputFile,
    ) -> Result<(), ProgramError>
        requires count { heading.elements ≡ length elements.now }
        requires few { length elements.now ≤ 1048568 }
    {
        match write_log(alloc, heading, elements, log) {
            Ok(()) => {}
            Err(Fault::NoMemory) => return Err(ProgramError::memory()),
            Err(_) => return Err(self.places.fault(Reason::Uncompacted)),
        }
        let old = &self.file.stream().file;
        let new = &log.stream().file;
        self.rt.replace(&self.places, old, self.output, new, made)
    }

    // Flushes the new file's name to the disk. If that fails and is wanted, nothing more is written: after a crash the name might lead to the old
    // file.
    fn sync_name(&mut self) {
        if let Err(error) = self.rt.sync_name(&self.places) {
            self.is_lost = self.syncs;
            if self.syncs {
                self.tell(error);
            }
        }
    }

    // Reports why it can't be made anew, or that it was, and that its name may not be on the disk.
    fn tell(&self, error: ProgramError) {
        let files = [self.places.name];
        let error = ProgramError::new(error.fault, error.reason, 0);
        let before = match error.reason {
            Reason::Unflushed => "",
            _ => "the log isn't made anew: ",
        };
        let _ = eprintln!(self.rt; "livevec: {before}{}", error.in_words(&files));
    }
}

/// Before a flush is done, it is checked, once a second at most, that the log's name leads to the file. So no reply says what was written to another.
impl<'a, C: Clock + Copy, R: Eprint + LogFolder> Write for StoredLog<'a, C, &'a R> {
    fn write(&mut self, buf: &[u8]) -> io::Result<usize> {
        if self.is_lost {
            return Err(Error::from(ErrorKind::Other));
        }
        self.file.write(buf)
    }

    fn flush(&mut self) -> io::Result<()> {
        if self.is_lost {
            return Err(Error::from(ErrorKind::Other));
        }
        self.file.flush()?;
        self.see_name_again()
    }
}

impl<'a, C: Clock + Copy, R: Eprint + LogFolder> LogWriter for StoredLog<'a, C, &'a R> {
    fn is_due(&self) -> bool {
        self.file.stream().length() >= self.due
    }

    fn begin_anew(
        &mut self,
        alloc: Global,
        heading: LogHeading,
        elements: &[i64],
    ) -> Result<(), Fault> {
        let renewed = self.renew(alloc, heading, elements);
        let length = self.file.stream().length();
        self.due = length.saturating_mul(2).max(self.plan.compact_at);
        match renewed {
            Ok(()) => {
                self.is_told = false;
                Ok(())
            }
            Err(error) => {
                if !self.is_told {
                    self.tell(error);
                }
                self.is_told = true;
                Err(error.fault)
            }
        }
    }
}
