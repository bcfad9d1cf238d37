//! The log that a server continues: how it is opened and checked, and how it begins.

ghost use Rattle.std.specs.Prelude.{◌≡◌, ◌<◌, ◌≤◌, ◌^◌, IfOk, OnOk, nat_eq, true};
ghost use Rattle.lv_files.specs.Stores.{IsFit, IsRightStore, MayStart};
ghost use Rattle.lv_transcript.specs.Logs.{base_of};

use crate::escaped::Escaped;
use crate::folders::{Found, KEPT, beside, found_at, sync_folder};
use crate::identity::Identity;
use crate::log_file::{LogFile, names_of, open_locked};
use crate::log_lines::line_of;
use crate::output_file::{Access, OutputFile, Use};
use crate::program_error::{Left, ProgramError, Reason};
use crate::seal_buffer::SealBuffer;
use crate::waited::Waited;
use lv_edits::{Edit, Edits};
use lv_geometry::{Limits, Refusal};
use lv_lines::{Fault, MOST_NUMBERED};
use lv_transcript::{
    FoundFront, FrontVerdict, LogHeading, SEAL_BYTES, compacted_heading, read_front, write_log,
};
use std::alloc::Global;
use std::fs::{File, Files, OpenFile};
use std::io::{Read, Seek, SeekFrom, Write};
use std::time::Clock;

// Fewer updates than these come before a log that is continued; otherwise none could be numbered after it.
const MOST_NUMBERS: u64 = 4_611_686_018_427_387_904;

// How many bytes a line has at most, without its checksum and its LF.
const LONGEST_LINE: u64 = 120;

// How a log begins before which nothing came.
const NEW: LogHeading = LogHeading {
    base: 0,
    elements: 0,
};

// The first line of a log before which nothing came, without its LF; and that of a log of version 2.
const FIRST_LINE: [u8; 30] = *b"livevec 3 0 0 3048bf0ec06edf22";

const OLD_FIRST_LINE: [u8; 13] = *b"livevec 2 0 0";

// The last line of a whole transcript.
const LAST_LINE: [u8; 4] = *b"end\n";

// How many updates a vector has at most that is to be made anew.
const MOST_SERVED: u32 = 16_777_214;

/// A log, or a prefix (*front*) of a transcript, that is open and locked, and what was found in it. Nothing of it has changed.
#[derive(Drop)]
pub struct StoreFile {
    /// The file, at its end.
    pub file: File,
    /// Which it is.
    pub output: OutputFile,
    /// What was found in it.
    pub found: FoundFront,
    /// How many bytes it has.
    pub length: u64,
    /// Whether a killed compaction has left it the second name, under which the old file was to be kept.
    pub is_kept: bool,
    // Which of the files it is.
    number: usize,
}

// The findings about a file that is open and locked, how many bytes it has, and whether a compaction has left it a second name.
#[derive(Drop)]
struct ReadStore {
    found: FoundFront,
    length: u64,
    is_kept: bool,
}

/// A log that a server continues: its file is at its end and has whole lines, those of its heading and of these updates, and answers.
#[derive(Drop)]
pub struct StartedLog<F: Drop> {
    pub file: F,
    /// Which file it is.
    pub output: OutputFile,
    pub heading: LogHeading,
    pub edits: Edits,
}

impl StoreFile {
    /// Opens the file of this name and number, and locks it before it is read. If it isn't there, it is made, if that is wanted; only its owner may
    /// open a file that is made. Nothing of the file changes.
    ///
    /// The error is a clash if the file is a link, has a second name that no killed compaction has left, or is locked, and `WriteFault` if it can't
    /// be opened for another reason. A file that can't be read is `ReadFault`. Whether it is a log or a prefix is for the caller to judge
    /// (`check_front`, `check_log`). After an error, a file that was made here is removed before it is unlocked.
    pub fn open<C: Clock + Copy, R: Files<File = File>>(
        clock: C,
        rt: &R,
        alloc: Global,
        name: &str,
        number: usize,
        makes: bool,
    ) -> Result<StoreFile, ProgramError>
        ensures { IfOk result (λ store. IsRightStore store.found) }
    {
        let how = Access {
            purpose: Use::Store,
            makes,
        };
        let (file, output) = match open_locked(rt, how, name) {
            Ok(opened) => opened,
            Err(reason) => return Err(unopened(reason, number)),
        };
        match read_store(clock, rt, alloc, name, number, &file, output.identity) {
            Ok(read) => {
                let ReadStore {
                    found,
                    length,
                    is_kept,
                } = read;
                Ok(StoreFile {
                    file,
                    output,
                    found,
                    length,
                    is_kept,
                    number,
                })
            }
            Err(error) => {
                let error = output.without(rt, name, Left::Record(number), error);
                drop(file);
                Err(error)
            }
        }
    }

    /// The log of this name, in another file that has the name now. It is read anew.
    pub fn replaced<C: Clock + Copy, R: Files<File = File>>(
        self,
        clock: C,
        rt: &R,
        alloc: Global,
        name: &str,
        file: File,
        output: OutputFile,
    ) -> Result<StoreFile, ProgramError>
        ensures { IfOk result (λ store. IsRightStore store.found) }
    {
        let number = self.number;
        drop(self);
        let mut file = file;
        if file.seek(SeekFrom::Start(0)).is_err() {
            return Err(ProgramError::new(Fault::ReadFault, Reason::Unread, number));
        }
        let ReadStore {
            found,
            length,
            is_kept,
        } = read_store(clock, rt, alloc, name, number, &file, output.identity)?;
        let output = output.as_found(&file);
        Ok(StoreFile {
            file,
            output,
            found,
            length,
            is_kept,
            number,
        })
    }

    /// Whether it is a log whose lines have no checksums.
    pub fn is_unsealed(&self) -> bool {
        self.found.heading.is_some() && self.found.hash.is_none()
    }

    /// An error, after the file was removed if it was made here. It is locked until then.
    pub fn without<R: Files>(self, rt: &R, name: &str, error: ProgramError) -> ProgramError {
        let left = Left::Record(self.number);
        self.output.without(rt, name, left, error)
    }

    /// How many updates came before it.
    pub fn base(&self) -> u64 {
        match self.found.heading {
            Some(heading) => heading.base,
            None => 0,
        }
    }

    /// Checks that it has a whole line, for a caller that doesn't make one.
    pub fn check_there(&self) -> Result<(), ProgramError> {
        if self.is_blank() {
            return Err(ProgramError::new(Fault::ReadFault, Reason::Blank, self.number));
        }
        Ok(())
    }

    /// Whether nothing but a part of a first line is there.
    fn is_blank(&self) -> bool {
        self.found.whole == 0 && self.found.heading.is_none()
    }

    // Checks that a prefix was found there, and that its next updates can be numbered. The first wrong line is the fault, `ReadFault`.
    fn check_lines(&self) -> Result<(), ProgramError>
        ensures { OnOk result (IsFit self.now.found) }
    {
        let reason = match self.found.verdict {
            FrontVerdict::No(line) => Reason::FalseLog(line),
            FrontVerdict::Bad(line) => Reason::MisspeltLog(line),
            FrontVerdict::Front { .. } => {
                if has_low_base(self.found.heading) {
                    return Ok(());
                }
                Reason::HighBase
            }
        };
        Err(ProgramError::new(Fault::ReadFault, reason, self.number))
    }

    /// Checks as `check_lines` does, and that the file has a whole line, or only a part of the first line of a new log. Any other file without a
    /// whole line was not made here, and its first line is the wrong one. The bytes after the last whole line may be a line that was cut off, so
    /// they must be no longer than one.
    pub fn check_front(&mut self) -> Result<(), ProgramError>
        ensures same { self.new.found ≡ self.old.found }
        ensures fit { OnOk result (IsFit self.old.found) }
    {
        self.check_lines()?;
        if self.is_blank() && !self.is_first_line_torn() {
            return Err(ProgramError::new(Fault::ReadFault, Reason::MisspeltLog(1), self.number));
        }
        let torn = self.length.saturating_sub(self.found.whole);
        if torn > self.longest_line() {
            return Err(ProgramError::new(Fault::ReadFault, Reason::LongEnd(torn), self.number));
        }
        Ok(())
    }

    /// Checks that it is a log, or only a part of the first line of a new one, and that its updates keep to these limits. What is wrong with it is
    /// the fault, `ReadFault`.
    pub fn check_log(&mut self, alloc: Global, limits: Limits) -> Result<(), ProgramError>
        ensures same { self.new.found ≡ self.old.found }
        ensures fit { OnOk result (IsFit self.old.found) }
    {
        self.check_front()?;
        if self.found.heading.is_none() && !self.is_blank() {
            return Err(ProgramError::new(Fault::ReadFault, Reason::NoLog, self.number));
        }
        if lasts(limits) && self.found.edits.edit() > MOST_SERVED {
            return Err(ProgramError::new(Fault::ReadFault, Reason::FullLog, self.number));
        }
        self.check_limits(alloc, limits)
    }

    // How many bytes a line has at most, without its LF.
    fn longest_line(&self) -> u64 {
        match self.found.hash {
            Some(_) => LONGEST_LINE + SEAL_BYTES as u64,
            None => LONGEST_LINE,
        }
    }

    // Whether a file without a whole line has a prefix of a new log's first line.
    fn is_first_line_torn(&mut self) -> bool
        ensures { self.new.found ≡ self.old.found }
    {
        self.begins(&FIRST_LINE) || self.begins(&OLD_FIRST_LINE)
    }

    // Whether all that the file has is a prefix of a line.
    fn begins(&mut self, line: &[u8]) -> bool
        ensures { self.new.found ≡ self.old.found }
    {
        let Ok(length) = usize::try_from(self.length) else {
            return false;
        };
        let Some(first) = line.get(..length) else {
            return false;
        };
        let mut bytes = [0u8; 30];
        let Some(there) = bytes.get_mut(..length) else {
            return false;
        };
        self.file.seek(SeekFrom::Start(0)).is_ok()
            && self.file.read_exact(there).is_ok()
            && &*there == first
    }

    // Checks that its updates keep to these limits. To the greatest limits they do.
    fn check_limits(&mut self, alloc: Global, limits: Limits) -> Result<(), ProgramError>
        ensures { self.new.found ≡ self.old.found }
    {
        if limits == Limits::greatest() {
            return Ok(());
        }
        let Some((update, refusal)) = first_refused(alloc, self.found.edits.journal(), limits)
        else {
            return Ok(());
        };
        if refusal == Refusal::NoMemory {
            return Err(ProgramError::memory());
        }
        let line = line_of(alloc, &mut self.file, self.number, update)?;
        let reason = Reason::OverLimits(update, line, refusal);
        Err(ProgramError::new(Fault::ReadFault, reason, self.number))
    }

    /// Writes the first line of the log if there is none, cuts off a torn line, which is reported, and removes the second name that a compaction
    /// has left. With `syncs`, what is flushed is on the disk, and the name of the file is too. If something can't be written, the fault is
    /// `WriteFault`, and a file that was made here is removed before it is unlocked.
    pub fn start<C: Clock + Copy, R: Eprint + Files<File = File>>(
        self,
        clock: C,
        rt: &R,
        alloc: Global,
        name: &str,
        syncs: bool,
    ) -> Result<StartedLog<Waited<C, LogFile<File>>>, ProgramError>
        requires right { IsRightStore self.found }
        requires fit { IsFit self.found }
        ensures { IfOk result (λ log. MayStart log.heading log.edits.journal) }
    {
        if let Err(error) = self.cut(rt, alloc, name) {
            return Err(self.without(rt, name, error));
        }
        let number = self.number;
        let is_new = self.found.heading.is_none();
        let started = self.with_heading(clock, rt, alloc, name, syncs)?;
        if syncs {
            if let Err(error) = sync_folder(rt, name, number) {
                let left = Left::Record(number);
                let error = started.output.without(rt, name, left, error);
                drop(started);
                return Err(error);
            }
        }
        tell_of_start(rt, name, &started, is_new);
        Ok(started)
    }

    // Removes the second name that a compaction has left, and cuts off a torn line.
    fn cut<R: Eprint + Files>(
        &self,
        rt: &R,
        alloc: Global,
        name: &str,
    ) -> Result<(), ProgramError> {
        let unwritten = ProgramError::new(Fault::WriteFault, Reason::Log, self.number);
        if self.is_kept && !is_single(rt, alloc, name, self.output)? {
            return Err(unwritten);
        }
        if self.length > self.found.whole && self.file.set_len(self.found.whole).is_err() {
            return Err(unwritten);
        }
        tell_of_cut(rt, name, self.length, self.found.whole);
        Ok(())
    }

    /// Says on standard error how many bytes there are after the last whole line, if there are any: they are left out of what is made of the file.
    pub fn tell_of_torn_end<R: Eprint>(&mut self, rt: &R, name: &str) {
        let ended = if self.is_ended() { 4 } else { 0 };
        tell_of_cut(
            rt,
            name,
            self.length,
            self.found.whole.saturating_add(ended),
        );
    }

    // Whether the last line of a whole transcript comes after its updates and answers.
    fn is_ended(&mut self) -> bool {
        let mut bytes = [0u8; 4];
        self.file.seek(SeekFrom::Start(self.found.whole)).is_ok()
            && self.file.read_exact(&mut bytes).is_ok()
            && bytes == LAST_LINE
    }

    // Writes the first line if there is none. If that fails, a file that was made here is removed.
    fn with_heading<C: Clock + Copy, R: Files>(
        self,
        clock: C,
        rt: &R,
        alloc: Global,
        name: &str,
        syncs: bool,
    ) -> Result<StartedLog<Waited<C, LogFile<File>>>, ProgramError>
        requires right { IsRightStore self.found }
        requires fit { IsFit self.found }
        ensures { IfOk result (λ log. MayStart log.heading log.edits.journal) }
    {
        let StoreFile {
            file,
            output,
            found,
            number,
            ..
        } = self;
        let FoundFront {
            edits,
            heading,
            whole,
            hash,
            ..
        } = found;
        let seals = match seals_behind(alloc, heading, hash) {
            Ok(seals) => seals,
            Err(error) => return Err(output.without(rt, name, Left::Record(number), error)),
        };
        let mut file = Waited::new(clock, LogFile::new(file, syncs, whole, seals));
        let Some(heading) = heading else {
            drop(edits);
            write_new(rt, alloc, name, number, output, &mut file)?;
            return Ok(StartedLog {
                file,
                output,
                heading: NEW,
                edits: Edits::new(alloc, Limits::greatest()),
            });
        };
        Ok(StartedLog {
            file,
            output,
            heading,
            edits,
        })
    }
}

// The buffer of bytes that come after a log with this heading, or begin one: lines have no checksums if those of the log have none.
fn seals_behind(
    alloc: Global,
    heading: Option<LogHeading>,
    hash: Option<u64>,
) -> Result<Option<SealBuffer>, ProgramError> {
    match (heading, hash) {
        (None, _) => Ok(Some(SealBuffer::of_new(alloc)?)),
        (Some(_), Some(hash)) => Ok(Some(SealBuffer::new(alloc, hash)?)),
        (Some(_), None) => Ok(None),
    }
}

// The first of these updates that is rejected within these limits, by its number, and the reason.
fn first_refused(alloc: Global, updates: &[Edit], limits: Limits) -> Option<(u32, Refusal)> {
    let mut edits = Edits::new(alloc, limits);
    for update in updates {
        if let Err(refusal) = edits.apply(*update) {
            return Some((edits.edit().saturating_add(1), refusal));
        }
    }
    None
}

// Whether the updates after a heading like this can be numbered.
fn has_low_base(heading: Option<LogHeading>) -> bool
    ensures { result ≡ true → base_of heading < 2 ^ 62 }
{
    match heading {
        Some(heading) => heading.base < MOST_NUMBERS,
        None => true,
    }
}

// Writes the first line of a log before which nothing came. If that fails, a file that was made here is removed while it is locked.
fn write_new<R: Files, W: Write>(
    rt: &R,
    alloc: Global,
    name: &str,
    number: usize,
    output: OutputFile,
    file: &mut W,
) -> Result<(), ProgramError> {
    let error = match write_log(alloc, NEW, &[], file) {
        Ok(()) => return Ok(()),
        Err(Fault::NoMemory) => ProgramError::memory(),
        Err(fault) => ProgramError::new(fault, Reason::Log, number),
    };
    Err(output.without(rt, name, Left::Record(number), error))
}

// Why a log can't be opened.
fn unopened(reason: Reason, number: usize) -> ProgramError {
    match reason {
        Reason::Transcript => ProgramError::new(Fault::WriteFault, Reason::Log, number),
        Reason::Unopened => ProgramError::new(Fault::ReadFault, Reason::Unopened, number),
        reason => ProgramError::new(Fault::WriteFault, reason, number),
    }
}

/// Whether a hub continues when the updates of its vector are used up, given the vector's limits: it does if the limit of updates is the greatest.
pub fn lasts(limits: Limits) -> bool
    ensures lasts { result ≡ nat_eq limits.edits 16777215 }
    ensures few { limits.edits ≤ 16777215 }
{
    limits.edits() == 16_777_215
}

// Reads a log that is open and locked.
fn read_store<C: Clock + Copy, R: Files>(
    clock: C,
    rt: &R,
    alloc: Global,
    name: &str,
    number: usize,
    file: &File,
    identity: Identity,
) -> Result<ReadStore, ProgramError>
    ensures { IfOk result (λ read. IsRightStore read.found) }
{
    let is_kept = has_kept_name(rt, alloc, name, number, file, identity)?;
    let found = match read_front(alloc, MOST_NUMBERED, Waited::new(clock, file)) {
        Ok(found) => found,
        Err(fault) => return Err(ProgramError::front(number, fault)),
    };
    let length = match file.metadata() {
        Ok(metadata) => metadata.len(),
        Err(_) => return Err(ProgramError::new(Fault::ReadFault, Reason::Unread, number)),
    };
    Ok(ReadStore {
        found,
        length,
        is_kept,
    })
}

// Whether the file has a second name, which a compaction that was killed has left for what it was. Any other name is a clash.
fn has_kept_name<R: Files>(
    rt: &R,
    alloc: Global,
    name: &str,
    number: usize,
    file: &File,
    identity: Identity,
) -> Result<bool, ProgramError> {
    match names_of(file) {
        Ok(names) if names <= 1 => Ok(false),
        Ok(2) if found_at(rt, beside(alloc, name, KEPT)?.as_str()) == Found::Regular(identity) => {
            Ok(true)
        }
        Ok(_) => Err(ProgramError::new(Fault::WriteFault, Reason::RecordNames, number)),
        Err(_) => Err(ProgramError::new(Fault::WriteFault, Reason::Log, number)),
    }
}

// Takes the second name away that a compaction has left a file, while it leads there. Says whether it could.
fn is_single<R: Files>(
    rt: &R,
    alloc: Global,
    name: &str,
    output: OutputFile,
) -> Result<bool, ProgramError> {
    Ok(output.is_taken_away(rt, beside(alloc, name, KEPT)?.as_str()))
}

// Reports a line that was cut off.
fn tell_of_cut<R: Eprint>(rt: &R, name: &str, length: u64, whole: u64) {
    if length > whole {
        let _ = eprintln!(rt;
            "livevec: the last line of '{}' isn't whole: {} bytes are cut off",
            Escaped(name),
            length - whole
        );
    }
}

// Reports with what a server begins: a log that it makes, or one that has so many updates in all, by their numbers, and so many elements at its end.
fn tell_of_start<R: Eprint, F: Drop>(rt: &R, name: &str, log: &StartedLog<F>, is_new: bool)
    requires { log.now.heading.base ≤ 2 ^ 62 }
{
    let name = Escaped(name);
    if is_new {
        let _ = eprintln!(rt; "livevec: makes '{name}'");
        return;
    }
    let LogHeading { base, elements } = compacted_heading(Some(log.heading), &log.edits);
    let _ = eprintln!(rt;
        "livevec: goes on with '{name}': {base} updates in all, {elements} elements"
    );
}
