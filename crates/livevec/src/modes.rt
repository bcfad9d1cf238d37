//! The commands of the program, and the arguments of each.

use crate::help;

/// An option whose value is a number: its name, its help, the least and the greatest number, and the default.
#[derive(Clone, Copy)]
pub struct Number {
    pub name: &'static str,
    pub says: &'static str,
    pub least: i64,
    pub most: i64,
    pub usual: &'static str,
}

const BUCKETS: Number = Number {
    name: "buckets",
    says: "The limit of buckets, 1 to 17; N buckets hold 8 * (2^N - 1) elements",
    least: 1,
    most: 17,
    usual: "17",
};

const FEW_BUCKETS: Number = Number {
    name: "buckets",
    says: "The limit of buckets, 1 to 9; N buckets hold 8 * (2^N - 1) elements",
    least: 1,
    most: 9,
    usual: "9",
};

const EDITS: Number = Number {
    name: "edits",
    says: "The limit of updates, 1 to 16777215",
    least: 1,
    most: 16_777_215,
    usual: "16777215",
};

const JOBS: Number = Number {
    name: "jobs",
    says: "The limit of tasks that a script may claim, 0 to 4294967295",
    least: 0,
    most: 4_294_967_295,
    usual: "4294967295",
};

const ACTORS: Number = Number {
    name: "actors",
    says: "The number of threads (actors), 1 to 8; they are numbered from 0",
    least: 1,
    most: 8,
    usual: "2",
};

const WORKERS: Number = Number {
    name: "workers",
    says: "The number of threads that precompute for the sessions, 0 to 8",
    least: 0,
    most: 8,
    usual: "1",
};

const TURNS: Number = Number {
    name: "turns",
    says: "How often each worker looks for a task before it ends, 0 to 1000000",
    least: 0,
    most: 1_000_000,
    usual: "1000",
};

const ANSWERS: Number = Number {
    name: "answers",
    says: "The limit of answers that each session keeps for the transcript, 0 to 100000000",
    least: 0,
    most: 100_000_000,
    usual: "100000000",
};

/// The default size, in bytes, from which a log is replaced by a new one.
pub const COMPACT_AT: u32 = 1_073_741_824;

const COMPACT_AT_BYTES: Range = Range {
    name: "compact-at",
    value: "BYTES",
    says: "Replaces the log by a new, short one when it reaches this size, 1 to 4000000000 [default: 1073741824]",
    least: 1,
    most: 4_000_000_000,
};

/// How many files of sessions `serve` takes without --clients.
pub const FEW_CLIENTS: usize = 16;

const MOST_CLIENTS: usize = 1000;

const CLIENTS: Range = Range {
    name: "clients",
    value: "N",
    says: "Takes up to N files of sessions, 1 to 1000 [default: 16]",
    least: 1,
    most: MOST_CLIENTS as i64,
};

// The option of each command that writes to standard output.
const QUIET_PIPE: Argument = Argument::Flag(
    "quiet-pipe",
    "Ends without a message, by exit code 3, if the reader of standard output has ended, as `head` does",
);

/// An option whose value is a number, and which has no default: its name, the placeholder of its value, its help, the least and the greatest number.
#[derive(Clone, Copy)]
pub struct Range {
    pub name: &'static str,
    pub value: &'static str,
    pub says: &'static str,
    pub least: i64,
    pub most: i64,
}

/// The names of the kinds.
pub const KINDS: [&str; 6] = ["sum", "least", "greatest", "best", "affine", "automaton"];

/// An argument of a command.
#[derive(Clone, Copy)]
pub enum Argument {
    /// An option whose value is a number.
    Number(Number),
    /// An option whose value is a number, without a default.
    Range(Range),
    /// The option for the aggregate of a board.
    Body,
    /// The files of sessions, and how many there may be.
    Files(usize),
    /// An option without a value: its name and its help.
    Flag(&'static str, &'static str),
    /// An option without a value: its name, its help, and the options that it excludes.
    FlagWithout(&'static str, &'static str, &'static [&'static str]),
    /// An option whose value is a file: its name and its help.
    File(&'static str, &'static str),
    /// An option whose value is a file: its name, its help, and the options that it excludes.
    FileWithout(&'static str, &'static str, &'static [&'static str]),
    /// An option whose value is a file, and which may be given several times: its name and its help.
    Several(&'static str, &'static str),
    /// A file that is a log or a prefix of a transcript: its help.
    Front(&'static str),
}

/// A command: its name, its name with that of the program, its summary, the end of its help, and its arguments, in order.
#[derive(Clone, Copy)]
pub struct Mode {
    pub name: &'static str,
    pub whole_name: &'static str,
    pub about: &'static str,
    pub after_help: &'static str,
    pub arguments: &'static [Argument],
}

/// `run`.
pub const RUN: Mode = Mode {
    name: "run",
    whole_name: "livevec run",
    about: help::RUN,
    after_help: help::LINES,
    arguments: &[
        Argument::Number(BUCKETS),
        Argument::Number(EDITS),
        Argument::Number(JOBS),
        Argument::FlagWithout(
            "series",
            "Answers a script on a series, which is an unbounded vector: see below",
            &["buckets", "edits", "jobs"],
        ),
        QUIET_PIPE,
    ],
};

/// `serve`.
pub const SERVE: Mode = Mode {
    name: "serve",
    whole_name: "livevec serve",
    about: help::SERVE,
    after_help: help::SESSIONS,
    arguments: &[
        Argument::Number(WORKERS),
        Argument::Number(TURNS),
        Argument::Number(ANSWERS),
        Argument::Number(BUCKETS),
        Argument::Number(EDITS),
        Argument::File(
            "transcript",
            "Writes updates and answers to FILE as they happen, in real order; overwrites FILE",
        ),
        Argument::FileWithout(
            "log",
            "Continues from the log FILE, and appends updates to it as they happen; `livevec audit --front` checks a log",
            &["transcript", "answers"],
        ),
        Argument::Flag(
            "must-exist",
            "With --log: fails if FILE doesn't exist, and doesn't create it",
        ),
        Argument::Flag("log-answers", "With --log: appends answers too"),
        Argument::Flag(
            "once",
            "With --log: ends the session of a pipe when its first client closes it, and waits for no other client",
        ),
        Argument::Range(CLIENTS),
        Argument::Range(COMPACT_AT_BYTES),
        Argument::Flag(
            "drop-old",
            "With --log: doesn't keep the old log as FILE.1 when it is replaced",
        ),
        Argument::Flag(
            "keep-version",
            "With --log: leaves a log of version 2 in that version, without checksums",
        ),
        Argument::Flag(
            "sync",
            "With --log or --transcript: flushes each write to the disk before the reply",
        ),
        Argument::Several(
            "watch",
            "Reads queries from FILE, and writes their answers to FILE.out as they change; up to 4 times",
        ),
        QUIET_PIPE,
        Argument::Files(MOST_CLIENTS),
    ],
};

/// `restore`.
pub const RESTORE: Mode = Mode {
    name: "restore",
    whole_name: "livevec restore",
    about: help::RESTORE,
    after_help: help::RESTORED,
    arguments: &[
        QUIET_PIPE,
        Argument::Front("A log, a transcript, or a prefix of one"),
    ],
};

/// `compact`.
pub const COMPACT: Mode = Mode {
    name: "compact",
    whole_name: "livevec compact",
    about: help::COMPACT,
    after_help: help::COMPACTED,
    arguments: &[
        Argument::Flag("drop-old", "Doesn't keep the old file as FILE.1"),
        QUIET_PIPE,
        Argument::Front("A log that no server has open, a transcript, or a prefix of one"),
    ],
};

/// `board`.
pub const BOARD: Mode = Mode {
    name: "board",
    whole_name: "livevec board",
    about: help::BOARD,
    after_help: help::TRIES,
    arguments: &[
        Argument::Body,
        Argument::Number(FEW_BUCKETS),
        Argument::Number(EDITS),
        Argument::Files(8),
    ],
};

/// `schedule`.
pub const SCHEDULE: Mode = Mode {
    name: "schedule",
    whole_name: "livevec schedule",
    about: help::SCHEDULE,
    after_help: help::EVENTS,
    arguments: &[
        Argument::Number(ACTORS),
        Argument::Number(FEW_BUCKETS),
        Argument::Number(EDITS),
        QUIET_PIPE,
    ],
};

/// `audit`.
pub const AUDIT: Mode = Mode {
    name: "audit",
    whole_name: "livevec audit",
    about: help::AUDIT,
    after_help: help::VERDICTS,
    arguments: &[
        Argument::Flag("front", "Checks a log, or a prefix of a transcript"),
        QUIET_PIPE,
    ],
};
