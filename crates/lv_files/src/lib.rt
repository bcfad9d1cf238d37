//! Files of a program that are read, written and locked, and logs among them, which take one another's place.
//!
//! A `StoreFile` is a log that is open and has been checked. A `StoredLog` is one that is written, and that is replaced by a new one when it is
//! long. `compact_file` makes a log of the elements that there are at the end of another. The error of each of these is a `ProgramError`. Nothing
//! here needs a hub.
#![tactic(auto)]

mod announced_file;
mod client_file;
mod escaped;
mod folders;
mod identity;
mod input_file;
mod log_file;
mod log_lines;
mod log_places;
mod names;
mod output_file;
mod piped;
mod program_error;
mod seal_buffer;
mod store_compaction;
mod store_file;
mod stored_log;
mod stream_end;
mod waited;

pub use announced_file::AnnouncedFile;
pub use client_file::{ClientFile, PipeFolder};
pub use escaped::{Escaped, EscapedBytes, is_shown};
pub use folders::{Found, sync_folder};
pub use identity::{Identity, NULL, is_written, null_files, pipe_at, standard_files};
pub use input_file::open_input;
pub use log_file::{LogFile, names_of, open_locked};
pub use log_places::{LogFolder, LogPlaces};
pub use names::{Names, REPLIES, first_clash};
pub use output_file::{Access, OutputFile, Use};
pub use piped::Piped;
pub use program_error::{ErrorText, Left, ProgramError, Reason};
pub use store_compaction::{Compacted, compact_file, renew_store};
pub use store_file::{StartedLog, StoreFile, lasts};
pub use stored_log::{LogPlan, StoredLog};
pub use stream_end::StreamEnd;
pub use waited::Waited;
