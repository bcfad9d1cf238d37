//! The file of a transcript or of a log as it is written.

ghost use Rattle.std.specs.Prelude.{◌≡◌, ◌<◌, ◌^◌, true};

use crate::output_file::{Access, OutputFile};
use crate::program_error::Reason;
use crate::seal_buffer::SealBuffer;
use lv_lines::MOST_NUMBERED;
use lv_transcript::{SEAL_BYTES, sealed_length};
use std::fs::{File, Files, OpenFile, TryLockError};
use std::io;
use std::io::{Error, ErrorKind, Write};
use std::os::unix::fs::MetadataExt;

// How often a file is opened anew because another came in its place.
const TRIES: u32 = 100;

// At most how many bytes the file has: no more are read by what reads it.
const MOST: u64 = MOST_NUMBERED as u64;

const TOO_LONG: &str = "it would have more than 4294967293 bytes";

/// The file of a transcript or of a log while it is written. The lines of a log end in checksums there, unless it is of an older version. If that is
/// wanted, what is flushed is on the disk. A write is rejected if it would make the file longer than its readers allow, so that it stays readable.
#[derive(Drop)]
pub struct LogFile<F: Drop> {
    /// The file.
    pub file: F,
    // Whether what is flushed is to be on the disk.
    syncs: bool,
    // How many bytes it has, with those that are held.
    length: u64,
    // The buffer of its bytes, if lines end in checksums.
    seals: Option<SealBuffer>,
}

impl<F: Drop> LogFile<F> {
    /// A file with so many bytes, at its end. Lines end in checksums if there is a buffer for them, which was made for these bytes.
    pub fn new(file: F, syncs: bool, length: u64, seals: Option<SealBuffer>) -> LogFile<F> {
        LogFile {
            file,
            syncs,
            length,
            seals,
        }
    }

    /// How many bytes it has, once all that was taken is written.
    pub fn length(&self) -> u64 {
        self.length
    }

    /// Whether each line that is written ends in a checksum.
    pub fn is_sealed(&self) -> bool {
        self.seals.is_some()
    }

    // Whether the file with these bytes is still as short as its readers want it. Lines are counted only close to the limit: no byte becomes more
    // than a line's end.
    fn has_room(&self, bytes: &[u8]) -> bool
        ensures { result ≡ true → self.now.length < 2 ^ 63 }
    {
        if self.length > MOST {
            return false;
        }
        let room = MOST - self.length;
        let count = bytes.len() as u64;
        match self.seals {
            Some(_) => count <= room / (SEAL_BYTES as u64 + 1) || sealed_length(bytes) <= room,
            None => count <= room,
        }
    }

    /// The underlying file, once all is written.
    pub fn into_file(self) -> F {
        let LogFile { file, seals, .. } = self;
        drop(seals);
        file
    }
}

/// Opens the file of a transcript or of a log, like those of replies, and locks it before anything else, so that no second server writes it as long
/// as it is open. If another file has taken the place of the one that was opened before it was locked, as after a compaction, that other file is
/// opened. A file that was made here, and that another has written to until then, counts as one that was there before. The reason of a failure
/// names what is wrong with the file, and is `Unopened` if it isn't there and isn't to be made.
pub fn open_locked<R: Files<File = File>>(
    rt: &R,
    how: Access,
    name: &str,
) -> Result<(File, OutputFile), Reason> {
    for _ in 0..TRIES {
        let (file, output) = open_record(rt, how, name)?;
        match lock(&file) {
            Ok(()) => {}
            Err(reason) => return Err(without(rt, name, output, reason)),
        }
        if output.is_named(rt, name) {
            let found = output.as_found(&file);
            return Ok((file, found));
        }
    }
    Err(Reason::RecordLocked)
}

// Opens it.
fn open_record<R: Files>(rt: &R, how: Access, name: &str) -> Result<(R::File, OutputFile), Reason> {
    match OutputFile::open_by(rt, how, name) {
        Ok(opened) => Ok(opened),
        Err(Reason::Link) => Err(Reason::RecordLink),
        Err(Reason::Unopened) => Err(Reason::Unopened),
        Err(_) => Err(Reason::Transcript),
    }
}

// Locks it.
fn lock(file: &File) -> Result<(), Reason> {
    match file.try_lock() {
        Ok(()) => Ok(()),
        Err(TryLockError::WouldBlock) => Err(Reason::RecordLocked),
        Err(TryLockError::Error(_)) => Err(Reason::Transcript),
    }
}

// The reason, once a file that was made here and that nobody has locked is taken away.
fn without<R: Files>(rt: &R, name: &str, output: OutputFile, reason: Reason) -> Reason {
    match reason {
        Reason::RecordLocked => {}
        _ => {
            let _ = output.is_removed(rt, name);
        }
    }
    reason
}

/// How many names a file has.
pub fn names_of<F: OpenFile>(file: &F) -> Result<u64, Reason> {
    match file.metadata() {
        Ok(found) => Ok(found.nlink()),
        Err(_) => Err(Reason::Transcript),
    }
}

impl<F: Write + OpenFile + Drop> Write for LogFile<F> {
    ghost use Rattle.lv_files.specs.Sealing.{got};

    ghost contents = { λ log. got log.seals (F.contents log.file) };

    fn write(&mut self, buf: &[u8]) -> io::Result<usize> {
        if !self.has_room(buf) {
            return Err(Error::new(ErrorKind::FileTooLarge, TOO_LONG));
        }
        let Some(seals) = &mut self.seals else {
            let count = self.file.write(buf)?;
            self.length = self.length.saturating_add(count as u64);
            return Ok(count);
        };
        let count = seals.take(self.length, buf, &mut self.file)?;
        let (taken, _) = buf.split_at(count);
        self.length = self.length.saturating_add(sealed_length(taken));
        Ok(count)
    }

    fn flush(&mut self) -> io::Result<()> {
        if let Some(seals) = &mut self.seals {
            seals.send(&mut self.file)?;
        }
        self.file.flush()?;
        if self.syncs {
            self.file.sync_data()?;
        }
        Ok(())
    }
}
