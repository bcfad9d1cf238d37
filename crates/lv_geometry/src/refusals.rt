//! Errors (*refusals*): why a call is rejected, with a number and a text for each.
ghost use Rattle.std.specs.Prelude.{◌≡◌};

use std::error::Error;
use std::fmt;

/// Why a call was rejected. A rejected call changes nothing except what its own documentation names.
#[derive(Clone, Copy, Debug, PartialEq, Eq)]
pub enum Refusal {
    /// The limit of edits is exhausted: the vector has accepted as many as its limits allow.
    Worn,
    /// The vector has no element to pop.
    Empty,
    /// An index, or the end of a range, is past the end of the vector.
    OutOfRange { size: u32 },
    /// More cells were to be reserved than the limits allow.
    TooLarge { limit: u32 },
    /// The vector has as many elements as the limits allow.
    Full,
    /// Out of memory. Nothing has changed.
    NoMemory,
    /// A range whose start is past its end.
    BadRange,
    /// Limits outside their ranges.
    BadLimits,
    /// An automaton's table with an entry above 7.
    BadTable,
    /// A query already has the name.
    NameTaken,
    /// No query has the name.
    NoSuchName,
    /// There are as many queries as are allowed: 64 at a vector.
    TooMany,
    /// The input ended in an error.
    ReadFault,
    /// The output could not be written.
    WriteFault,
    /// A result that was not computed from a job of this vector.
    Stranger,
    /// An element that does not fit 16 bits.
    TooWide,
    /// Another edit came first: this one, or a later one.
    Contended { edit: u32 },
    /// The snapshot of the descriptor (*look*) is too old to answer from: a word of this later edit was found.
    Overtaken { edit: u32 },
    /// No task (*job*) has the number.
    NoJob,
    /// The event does not fit what the actor is doing.
    NotNow,
}

impl Refusal {
    ghost use Rattle.lv_geometry.specs.Numbers.{number_of};

    /// The number that scripts and transcripts show, from 1 to 20.
    pub fn number(self) -> u32
        ensures { result ≡ number_of self }
    {
        match self {
            Refusal::Worn => 1,
            Refusal::Empty => 2,
            Refusal::OutOfRange { .. } => 3,
            Refusal::TooLarge { .. } => 4,
            Refusal::Full => 5,
            Refusal::NoMemory => 6,
            Refusal::BadRange => 7,
            Refusal::BadLimits => 8,
            Refusal::BadTable => 9,
            Refusal::NameTaken => 10,
            Refusal::NoSuchName => 11,
            Refusal::TooMany => 12,
            Refusal::ReadFault => 13,
            Refusal::WriteFault => 14,
            Refusal::Stranger => 15,
            Refusal::TooWide => 16,
            Refusal::Contended { .. } => 17,
            Refusal::Overtaken { .. } => 18,
            Refusal::NoJob => 19,
            Refusal::NotNow => 20,
        }
    }
}

// The texts in the order of the numbers. If a text shows a number, it ends before that number.
const WORDS: [&str; 20] = [
    "the limit of edits is reached",
    "there is nothing to pop",
    "out of range: the size is ",
    "too large: the limit is ",
    "full: the size is the limit's capacity",
    "no memory",
    "a range whose start is past its end",
    "limits outside their ranges",
    "a table with an entry above 7",
    "the name is taken",
    "no such name",
    "too many names",
    "a read failed",
    "a write failed",
    "a result that is not this vector's",
    "an element that does not fit 16 bits",
    "contended: edit ",
    "overtaken by edit ",
    "no job of that number",
    "not now",
];

impl fmt::Display for Refusal {
    fn fmt<W: fmt::Write>(&self, f: &mut fmt::Formatter<W>) -> fmt::Result {
        let words = WORDS[self.number() as usize - 1];
        let (shown, end) = match *self {
            Refusal::OutOfRange { size } => (size, ""),
            Refusal::TooLarge { limit } => (limit, " elements"),
            Refusal::Contended { edit } => (edit, " came first"),
            Refusal::Overtaken { edit } => (edit, ""),
            _ => return f.write_str(words),
        };
        write!(f, "{words}{shown}{end}")
    }
}

impl Error for Refusal {}
