//! Why the program fails: a fault, its reason, and the file that it is about.

ghost use Rattle.std.specs.Prelude.{◌≡◌, ◌≢◌};

use crate::escaped::Escaped;
use lv_geometry::Refusal;
use lv_lines::Fault;
use std::fmt;
use thiserror::Error;

/// What failed, as a text. If it is about a file, the text continues after the quoted name of that file.
#[derive(Clone, Copy, Debug, Error)]
pub enum Reason {
    #[error("out of memory")]
    Memory,
    #[error("standard input can't be read")]
    Input,
    #[error("standard input is too long: at most 1073741824 bytes are read, and 4294967293 by `livevec audit --front`")]
    LongInput,
    #[error("standard output can't be written")]
    Output,
    #[error("the file of --transcript can't be created or written")]
    Transcript,
    /// A query that `watch` rejects. Files of subscribers are checked before, so none is expected.
    #[error("a query of --watch is rejected: {0}")]
    Watching(Refusal),
    /// An update that the vector begins with is rejected.
    #[error("an update of the log is rejected: {0}")]
    Beginning(Refusal),
    #[error("' can't be opened: check that it exists, is not a directory, and may be read by this user")]
    Unopened,
    #[error("' or its replies can't be opened: the limit of open files is reached. Each client takes two: raise the limit (`ulimit -n`), or serve fewer clients")]
    Descriptors,
    #[error("' can't be read")]
    Unread,
    #[error("' is too long: at most 1073741824 bytes of it are read")]
    Long,
    #[error("' is too long: at most 4294967293 bytes of it are read")]
    LongFront,
    #[error(".out' can't be created or opened for writing: check the permissions, and that it is a regular file")]
    Unmade,
    #[error(".out' can't be written")]
    Unwritten,
    /// The number of a line of a transcript.
    #[error("' is not a valid transcript or log: line {0} is well formed, but false. The lines before it are valid")]
    False(u32),
    #[error("' is not a valid transcript or log: line {0} is malformed or missing, or its checksum is wrong. Any lines before it are valid")]
    Misspelt(u32),
    #[error("' can't be opened, created or written")]
    Log,
    /// The number of a line of a log.
    #[error("' is not a valid log: line {0} is well formed, but false. The lines before it are valid")]
    FalseLog(u32),
    #[error("' is not a valid log: line {0} is malformed or missing, or its checksum is wrong. Any lines before it are valid")]
    MisspeltLog(u32),
    #[error("' is a transcript, not a log: turn it into a log with `livevec compact`")]
    NoLog,
    #[error("' is a log that begins after 2^62 updates or more, so no further update can be numbered")]
    HighBase,
    /// The number of bytes after the last complete line.
    #[error("' is not a valid log: {0} bytes follow its last line end, more than a line may have")]
    LongEnd(u64),
    #[error("' doesn't exist, and with --must-exist it isn't created: put the log back, or begin a new one without --must-exist")]
    Missing,
    #[error("' has no complete line, and with --must-exist no log is begun: put the log back, or begin a new one without --must-exist")]
    Blank,
    /// The number of an update in the file of a log, its line, and the error.
    #[error("' is a log whose update {0}, in line {1}, exceeds the limits of --buckets and --edits: {2}")]
    OverLimits(u32, u32, Refusal),
    #[error("' is a log with 16777215 updates, and can't take more: shorten it with `livevec compact`")]
    FullLog,
    #[error("' can't be replaced by the new log: it can't be renamed")]
    Unreplaced,
    #[error("' can't be served: its folder can't be flushed to the disk")]
    Unsynced,
    /// The new log already has the name.
    #[error("' was replaced by a new log, but its folder can't be flushed to the disk: after a crash of the machine the old file may have this name again")]
    Unflushed,
    #[error("' is no longer the file that livevec opened, so it was not replaced: another program has moved, removed or replaced it")]
    Moved,
    #[error(".1' can't become a name of the old file: give --drop-old if the old file needn't be kept")]
    Unkept,
    #[error(".1' can't become a name of the old file, and the older log of this name was removed: give --drop-old if the old file needn't be kept")]
    UnkeptAndGone,
    #[error(".compacting' can't be created or written: check the permissions of its folder, and the free space")]
    Uncompacted,
    #[error(".compacting' is no longer the file that livevec created, so the log was not replaced: another program has moved, removed or replaced it")]
    MadeMoved,
    /// The number of a line of a subscriber's file whose query is rejected, and the error.
    #[error("' is rejected: {1}")]
    Refused(u32, Refusal),
    #[error("' is not a query: write `watch NAME KIND LO HI` or `watch NAME KIND last N`, with an optional `at-least X` or `at-most X` behind it (not for affine and automaton)")]
    NoQuery(u32),
    /// From here on: the files can't be used together, which is a usage fault. No file has changed.
    #[error("' is given twice: give each file once")]
    Twice,
    #[error("' would be overwritten by another file's replies: rename one of the two")]
    Replies,
    #[error(".out' is another name of a file that this command reads or writes: remove it, or rename one of the two")]
    Shared,
    #[error("', which this command reads: redirect it elsewhere")]
    Standard,
    #[error(".out' is a symbolic link, and replies are not written through links: remove it")]
    Link,
    #[error(".out' has a second name (a hard link), and the file of replies must have only one: remove it, or rename it")]
    RepliesNames,
    #[error(".out' is locked by another program, such as a server that writes it: rename one of the two")]
    Locked,
    #[error(".out' was created by this command, and another program has written to it since: rename one of the two")]
    Written,
    #[error(".out' is no longer the file that this command opened, and another file may have its name: rename one of the two")]
    Exchanged,
    #[error("' is also read or written otherwise by this command, perhaps under another name: give another file")]
    RecordTaken,
    #[error("' is a symbolic link, and transcripts and logs are not written through links: give the file itself, or remove the link")]
    RecordLink,
    #[error("' has a second name (a hard link), and a transcript or log must have only one: remove one of the names, or give another file")]
    RecordNames,
    #[error("' is locked by another program, such as a server that writes it: stop that program, or give another file")]
    RecordLocked,
    #[error(".1' is not a regular file, and the old log is to be kept under this name: remove it, or give --drop-old")]
    KeptTaken,
    #[error(".1' is too long a name, and the old log is to be kept under it: give a shorter name, or --drop-old")]
    KeptLong,
    #[error(".1' can't be examined, and the old log is to be kept under this name: give another file, or --drop-old")]
    KeptUnseen,
    #[error(".1' is not an older log (one whose updates all come before those of this log), and the old log is to be kept under this name: remove it, rename it, or give --drop-old")]
    KeptOther,
    #[error(".1' is locked by another program, such as a server that writes it, and the old log is to be kept under this name: give another file, or --drop-old")]
    KeptLocked,
    #[error(".compacting' is not a regular file, and the new log is to be created under this name: remove it")]
    CompactingTaken,
    #[error(".compacting' is the log itself, and the new log is to be created under this name: give the log its own name again, or remove this name if it has both")]
    CompactingSame,
    #[error(".compacting' is too long a name, and the new log is to be created under it: give a shorter name")]
    CompactingLong,
    #[error(".compacting' can't be examined, and the new log is to be created under this name: give another file")]
    CompactingUnseen,
    #[error(".compacting' is locked by another program, such as a server that writes it, and the new log is to be created under this name: give another file")]
    CompactingLocked,
    #[error(".1' is read or written by this command, and the old log is to be kept under this name: give another file, or --drop-old")]
    KeptUsed,
    #[error(".compacting' is read or written by this command, and the new log is to be created under this name: give another file")]
    CompactingUsed,
}

impl Reason {
    /// Whether the files on the command line can't be used together, which is a usage fault.
    pub fn is_clash(self) -> bool {
        match self {
            Reason::Twice | Reason::Replies | Reason::Shared | Reason::Standard => true,
            Reason::Link | Reason::RepliesNames | Reason::Locked => true,
            Reason::Written | Reason::Exchanged => true,
            Reason::RecordTaken | Reason::RecordLink => true,
            Reason::RecordNames | Reason::RecordLocked => true,
            Reason::KeptTaken | Reason::KeptLong | Reason::KeptUnseen => true,
            Reason::KeptOther | Reason::KeptLocked | Reason::KeptUsed => true,
            Reason::CompactingTaken | Reason::CompactingSame => true,
            Reason::CompactingLong | Reason::CompactingUnseen => true,
            Reason::CompactingLocked | Reason::CompactingUsed => true,
            _ => false,
        }
    }
}

/// A file that this command created and couldn't remove.
#[derive(Clone, Copy, Debug)]
pub enum Left {
    /// The file of replies to the file with this number.
    Replies(usize),
    /// The file of the transcript or of the log, which has this number.
    Record(usize),
}

/// Why the program fails. Files are numbered from 0: first the files of sessions, then those of subscribers, then the file of the transcript or of the log.
#[derive(Clone, Copy, Debug, Error)]
#[error("livevec: {fault}")]
pub struct ProgramError {
    pub fault: Fault,
    pub reason: Reason,
    /// The number of the file that the reason is about, if it is about one.
    pub file: usize,
    /// A file that was created in vain and couldn't be removed.
    pub left: Option<Left>,
}

impl ProgramError {
    /// An error with this fault and this reason, about the file with this number.
    pub fn new(fault: Fault, reason: Reason, file: usize) -> ProgramError
        ensures fault { result.fault ≡ fault }
        ensures reason { result.reason ≡ reason }
        ensures file { result.file ≡ file }
    {
        ProgramError {
            fault,
            reason,
            file,
            left: None,
        }
    }

    /// Out of memory.
    pub fn memory() -> ProgramError
        ensures { result.fault ≡ Fault.NoMemory }
    {
        ProgramError::new(Fault::NoMemory, Reason::Memory, 0)
    }

    /// A fault of standard input or of standard output.
    pub fn standard(fault: Fault) -> ProgramError
        ensures { result.fault ≡ fault }
    {
        let reason = match fault {
            Fault::NoMemory => Reason::Memory,
            Fault::ReadFault => Reason::Input,
            Fault::TooLong => Reason::LongInput,
            Fault::WriteFault => Reason::Output,
        };
        ProgramError::new(fault, reason, 0)
    }

    /// A fault in the session of the file with this number.
    pub fn session(file: usize, fault: Fault) -> ProgramError
        ensures { result.fault ≡ fault }
    {
        let reason = match fault {
            Fault::NoMemory => Reason::Memory,
            Fault::ReadFault => Reason::Unread,
            Fault::TooLong => Reason::Long,
            Fault::WriteFault => Reason::Unwritten,
        };
        ProgramError::new(fault, reason, file)
    }

    /// A fault while the file with this number was read, which is a prefix of a transcript or a log.
    pub fn front(file: usize, fault: Fault) -> ProgramError
        ensures { result.fault ≡ fault }
    {
        match fault {
            Fault::TooLong => ProgramError::new(fault, Reason::LongFront, file),
            _ => ProgramError::session(file, fault),
        }
    }

    /// A line of a subscriber's file is wrong, or there was no memory for its query. Without an error the line is no query.
    pub fn damaged(file: usize, line: u32, refusal: Option<Refusal>) -> ProgramError {
        let reason = match refusal {
            Some(Refusal::NoMemory) => return ProgramError::memory(),
            Some(refusal) => Reason::Refused(line, refusal),
            None => Reason::NoQuery(line),
        };
        ProgramError::new(Fault::ReadFault, reason, file)
    }

    /// A subscriber's query is rejected, or there was no memory for it.
    pub fn unwatched(refusal: Refusal) -> ProgramError
        ensures memory { refusal ≡ Refusal.NoMemory → result.fault ≡ Fault.NoMemory }
        ensures refused { refusal ≢ Refusal.NoMemory → (result.fault ≡ Fault.ReadFault) × (result.reason ≡ Reason.Watching refusal) }
    {
        match refusal {
            Refusal::NoMemory => ProgramError::memory(),
            _ => ProgramError::new(Fault::ReadFault, Reason::Watching(refusal), 0),
        }
    }

    /// The error as a text, given the names of the files.
    pub fn in_words<'a>(self, files: &'a [&'a str]) -> ErrorText<'a> {
        ErrorText { error: self, files }
    }
}

/// The text of an error, in which files are named.
#[derive(Clone, Copy)]
pub struct ErrorText<'a> {
    error: ProgramError,
    files: &'a [&'a str],
}

impl<'a> ErrorText<'a> {
    // The name of the file with this number.
    fn name(&self, number: usize) -> Escaped<'a> {
        match self.files.get(number) {
            Some(file) => Escaped(file),
            None => Escaped("a file"),
        }
    }
}

impl fmt::Display for ErrorText<'_> {
    fn fmt<W: fmt::Write>(&self, f: &mut fmt::Formatter<W>) -> fmt::Result {
        let ProgramError {
            reason,
            file,
            left,
            ..
        } = self.error;
        let name = self.name(file);
        match reason {
            Reason::Memory | Reason::Input | Reason::LongInput | Reason::Output => {}
            Reason::Transcript | Reason::Watching(_) | Reason::Beginning(_) => {}
            Reason::Refused(line, _) => write!(f, "line {line} of '{name}")?,
            Reason::NoQuery(line) => write!(f, "line {line} of '{name}")?,
            Reason::Standard => {
                write!(f, "standard output or standard error goes into '{name}")?
            }
            _ => write!(f, "'{name}")?,
        }
        write!(f, "{reason}")?;
        let (number, ending) = match left {
            Some(Left::Replies(number)) => (number, ".out"),
            Some(Left::Record(number)) => (number, ""),
            None => return Ok(()),
        };
        write!(
            f,
            "\n'{}{ending}' was created by this command, and isn't removed: another file may have its name by now",
            self.name(number)
        )
    }
}
