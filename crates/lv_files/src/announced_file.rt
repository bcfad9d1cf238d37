//! A file whose failure is reported at once, and also that it becomes long.

ghost use Rattle.std.specs.Prelude.{◌≡◌};

use crate::escaped::Escaped;
use crate::log_places::LogFolder;
use crate::stored_log::StoredLog;
use lv_lines::{Fault, MOST_NUMBERED, MOST_READ};
use lv_transcript::{LogHeading, LogWriter};
use std::alloc::Global;
use std::io;
use std::io::{Error, Write};
use std::time::Clock;

// How many bytes `livevec audit` reads at most.
const MOST_AUDITED: u64 = MOST_READ as u64;

/// A file that is written. Its first failure is reported on standard error when it happens, since the server reports its fault only at its end.
/// It is also reported, once, that the file becomes longer than what `livevec audit` reads.
#[derive(Drop)]
pub struct AnnouncedFile<'a, E: Copy, F: Drop> {
    errors: E,
    // None for standard output.
    name: Option<&'a str>,
    file: F,
    is_told: bool,
    // How many bytes it takes until it is too long for `livevec audit`.
    room: u64,
}

impl<'a, E: Eprint + Copy, F: Write + Drop> AnnouncedFile<'a, E, F> {
    /// The file of a transcript of this name, which is empty.
    pub fn of_transcript(errors: E, name: &'a str, file: F) -> AnnouncedFile<'a, E, F>
        ensures { result.file ≡ file }
    {
        AnnouncedFile {
            errors,
            name: Some(name),
            file,
            is_told: false,
            room: MOST_AUDITED,
        }
    }

    /// The file of a log of this name, which `livevec audit` doesn't read.
    pub fn of_log(errors: E, name: &'a str, file: F) -> AnnouncedFile<'a, E, F>
        ensures { result.file ≡ file }
    {
        AnnouncedFile {
            errors,
            name: Some(name),
            file,
            is_told: false,
            room: u64::MAX,
        }
    }

    /// Standard output, when a transcript is written to it. A failure is reported at the end, and not here. That it becomes long is reported if it
    /// is a file.
    pub fn of_output(errors: E, is_file: bool, file: F) -> AnnouncedFile<'a, E, F>
        ensures { result.file ≡ file }
    {
        AnnouncedFile {
            errors,
            name: None,
            file,
            is_told: true,
            room: if is_file { MOST_AUDITED } else { u64::MAX },
        }
    }

    // Reports a failure, if it is the first.
    fn tell(&mut self, error: &Error)
        ensures { self.new.file ≡ self.old.file }
    {
        if self.is_told {
            return;
        }
        self.is_told = true;
        let name = Escaped(self.name.unwrap_or(""));
        let _ = eprintln!(self.errors;
            "livevec: '{name}' can't be written, and no session goes on: {error}"
        );
    }

    // Reports that the file becomes too long for `livevec audit`, if so many more bytes make it so.
    fn tell_if_long(&mut self, more: u64)
        ensures { self.new.file ≡ self.old.file }
    {
        if more <= self.room {
            return;
        }
        self.room = u64::MAX;
        let (before, name, behind) = match self.name {
            Some(name) => ("'", name, "'"),
            None => ("", "standard output", ""),
        };
        let name = Escaped(name);
        let _ = eprintln!(self.errors;
            "livevec: {before}{name}{behind} becomes longer than {MOST_AUDITED} bytes: `livevec audit` reads no more, but `livevec audit --front` reads up to {MOST_NUMBERED}"
        );
    }
}

impl<'a, E: Eprint + Copy, C: Clock + Copy, R: Eprint + LogFolder> AnnouncedFile<
    'a,
    E,
    StoredLog<'a, C, &'a R>,
> {
    /// Checks that the log's name leads to the file that was written. If it doesn't, that is reported, unless a failure was reported before.
    pub fn see_name(&mut self) -> io::Result<()> {
        let seen = self.file.see_name();
        if let Err(error) = &seen {
            self.tell(error);
        }
        seen
    }
}

impl<'a, E: Eprint + Copy, F: Write + Drop> Write for AnnouncedFile<'a, E, F> {
    ghost contents = { λ told. F.contents told.file };

    fn write(&mut self, buf: &[u8]) -> io::Result<usize> {
        self.tell_if_long(buf.len() as u64);
        let written = self.file.write(buf);
        match &written {
            Ok(count) => self.room = self.room.saturating_sub(*count as u64),
            Err(error) => self.tell(error),
        }
        written
    }

    fn flush(&mut self) -> io::Result<()> {
        let flushed = self.file.flush();
        if let Err(error) = &flushed {
            self.tell(error);
        }
        flushed
    }
}

/// It is begun anew like the underlying file, which itself reports why it can't be.
impl<'a, E: Eprint + Copy, F: LogWriter + Drop> LogWriter for AnnouncedFile<'a, E, F> {
    ghost made = { F.made };

    fn is_due(&self) -> bool {
        self.file.is_due()
    }

    fn begin_anew(
        &mut self,
        alloc: Global,
        heading: LogHeading,
        elements: &[i64],
    ) -> Result<(), Fault> {
        self.file.begin_anew(alloc, heading, elements)
    }
}
