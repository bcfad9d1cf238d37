//! Errors of the command line that `clap` doesn't detect.

ghost use Rattle.std.specs.Prelude.{◌≤◌, length};

use crate::modes::FEW_CLIENTS;
use clap::ArgMatches;
use lv_files::{Escaped, EscapedBytes, is_shown};
use std::env::{Env, FillError};
use std::{fmt, str};

/// How many bytes of a word that isn't UTF-8 are shown at most.
pub const NAME_BYTES: usize = 4096;

/// How often --watch may be given.
pub const WATCHES: usize = 4;

// The options whose values are numbers.
const NUMBERS: [&str; 9] = [
    "buckets",
    "edits",
    "jobs",
    "actors",
    "workers",
    "turns",
    "answers",
    "compact-at",
    "clients",
];

// The flags that need --log.
const OF_LOGS: [&str; 4] = ["log-answers", "must-exist", "keep-version", "once"];

// The options for the replacement of a log while it is served.
const OF_LOGS_MADE_ANEW: [&str; 2] = ["compact-at", "drop-old"];

// The limit of updates with which a log may be replaced while it is served.
const MOST_EDITS: u32 = 16_777_215;

/// Why a command line is rejected.
#[derive(Clone, Copy)]
pub enum Misuse<'a> {
    /// A word isn't UTF-8. The bytes are empty if the word is too long to be shown.
    NotText(&'a [u8]),
    /// A number has a plus sign.
    Plus(&'a str),
    /// `clap` rejects the command line, and a word has characters that can't be shown as they are.
    Unshown(&'a str),
    /// An option is given more often than this number of times.
    TooOften(&'static str, usize),
    /// More files of sessions are given than this number.
    ManyFiles(usize),
    /// An option is given without another one that it needs.
    Without(&'static str, &'static str),
    /// An option is given with another one that excludes it.
    Beside(&'static str, &'static str),
}

impl fmt::Display for Misuse<'_> {
    fn fmt<W: fmt::Write>(&self, f: &mut fmt::Formatter<W>) -> fmt::Result {
        match self {
            Misuse::NotText(word) => write!(
                f,
                "error: '{}' is not valid UTF-8: rename the file, or make a link to it with another name",
                EscapedBytes(word)
            )?,
            Misuse::Plus(word) => write!(
                f,
                "error: invalid value '{}': write the number without a plus sign",
                Escaped(word)
            )?,
            Misuse::Unshown(word) => write!(
                f,
                "error: unexpected or invalid argument '{}'",
                Escaped(word)
            )?,
            Misuse::TooOften(name, most) => {
                write!(f, "error: --{name} may be given at most {most} times")?
            }
            Misuse::ManyFiles(most) => write!(
                f,
                "error: at most {most} files of sessions may be given: raise this limit with --clients N, up to 1000"
            )?,
            Misuse::Without(name, other) => write!(
                f,
                "error: --{name} has no effect without {other}: give both or neither"
            )?,
            Misuse::Beside(name, other) => write!(
                f,
                "error: --{name} has no effect with {other}: omit one of the two"
            )?,
        }
        f.write_str("\n\nFor more information, try '--help'.")
    }
}

/// Why the options of the command with this name are rejected, if they are.
pub fn misuse_in<'a>(mode: &str, matches: &ArgMatches<'a>) -> Option<Misuse<'a>> {
    let watches = matches.get_strs("watch").unwrap_or(&[]);
    if watches.len() > WATCHES {
        return Some(Misuse::TooOften("watch", WATCHES));
    }
    if mode == "serve" {
        let most = matches
            .get_one::<u32>("clients")
            .map_or(FEW_CLIENTS, |most| most as usize);
        if matches.get_strs("files").unwrap_or(&[]).len() > most {
            return Some(Misuse::ManyFiles(most));
        }
        if let Some(misuse) = idle_in(matches) {
            return Some(misuse);
        }
    }
    plus_in(matches)
}

// The first option of `serve` that is given without another one that it needs, or with one that excludes it, if there is one.
fn idle_in<'a>(matches: &ArgMatches<'a>) -> Option<Misuse<'a>> {
    let is_logged = matches.get_str("log").is_some();
    let is_recorded = is_logged || matches.get_str("transcript").is_some();
    if matches.get_flag("sync") && !is_recorded {
        return Some(Misuse::Without("sync", "--transcript or --log"));
    }
    for name in &OF_LOGS {
        if matches.get_flag(name) && !is_logged {
            return Some(Misuse::Without(name, "--log"));
        }
    }
    for name in &OF_LOGS_MADE_ANEW {
        if is_given(matches, name) {
            if !is_logged {
                return Some(Misuse::Without(name, "--log"));
            }
            if matches.get_one::<u32>("edits").unwrap_or(MOST_EDITS) < MOST_EDITS {
                return Some(Misuse::Beside(name, "--edits below 16777215"));
            }
        }
    }
    None
}

// Whether an option is given, with a value or as a flag.
fn is_given(matches: &ArgMatches<'_>, name: &str) -> bool {
    matches.get_one::<u32>(name).is_some() || matches.get_flag(name)
}

// The first number among a command's options that has a plus sign, if there is one.
fn plus_in<'a>(matches: &ArgMatches<'a>) -> Option<Misuse<'a>> {
    for name in &NUMBERS {
        if let Some(word) = matches.get_str(name) {
            if word.starts_with('+') {
                return Some(Misuse::Plus(word));
            }
        }
    }
    None
}

/// Copies the first word of the command line that isn't UTF-8 to the start of `name`, and returns its length: 0 if it is too
/// long for `name`.
pub fn unreadable_in<R: Env>(rt: &R, name: &mut [u8; NAME_BYTES]) -> usize
    ensures { result ≤ 4096 }
{
    for number in 0..usize::MAX {
        match rt.arg(number, name) {
            Ok(length) if is_text(name, length) => {}
            Ok(length) => return length,
            Err(FillError::TooLong) => {}
            Err(FillError::NotPresent) => break,
        }
    }
    0
}

// Whether the first `count` bytes are UTF-8.
fn is_text(name: &[u8], count: usize) -> bool
    requires { count ≤ length name.now }
{
    let (word, _) = name.split_at(count);
    str::from_utf8(word).is_ok()
}

/// The first word that can't be shown as it is, if there is one.
pub fn unshown_in(words: &[String]) -> Option<Misuse<'_>> {
    for word in words {
        if !word.as_str().chars().all(is_shown) {
            return Some(Misuse::Unshown(word.as_str()));
        }
    }
    None
}
