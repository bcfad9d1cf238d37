//! Scripts and schedules, and the replies to their lines.
//!
//! The model is bytes: `run_script` answers the lines that it reads one after the other, and writes the replies joined end to end. After a
//! fault, a prefix of the replies was written. Memory is fixed, however long the input or a line of it is. This crate decides nothing about
//! the vector: the layers below do.
//!
//! `run_series_script` does so for a series, whose indices go up to 2^62 and whose first elements may expire. One reference interpreter
//! (`specs/Interpreter.antt`) defines the replies of both.
//!
//! Queries may be about a series and about samples: `AskedSeries`, `AskedSamples`. A `SampleQuery` may be about the last so much time.
//!
//! A schedule plays the lock-free machine, one event a line: `run_schedule` answers it in the same loop.
//!
//! The grammar of lines and the loop are from `lv_lines`, and transcripts and their auditor from `lv_transcript`. Their names are exported
//! here too, so that whoever runs scripts has one crate to name.
#![tactic(auto)]

mod answers;
mod asked_samples;
mod asked_series;
mod board_lines;
pub mod devices;
mod job_answers;
mod laws;
mod long_commands;
mod long_grammar;
mod plain_calls;
mod query_answers;
mod query_grammar;
mod refresh_replies;
mod restored;
mod running_scans;
mod sample_queries;
mod scan_replies;
mod scans;
mod schedule_lines;
mod schedule_replies;
mod schedules;
mod scripts;
mod series_scripts;
mod watch_replies;

pub use asked_samples::AskedSamples;
pub use asked_series::AskedSeries;
pub use board_lines::read_board_line;
pub use laws::{
    a_front_of_the_input_gives_a_front_of_the_text, a_front_of_the_input_has_its_first_lines,
    a_front_of_the_lines_gives_a_front_of_the_text, a_script_has_one_text,
    a_script_is_answered_plainly, answers_are_true_of_the_accepted_edits,
    refresh_lines_change_no_answer, the_tour_in_the_readme,
};
pub use long_commands::{LongCommand, Search};
pub use long_grammar::read_long_line;
pub use lv_lines::{
    Command, Fault, HELD, LINE, Line, LineHandler, MOST_NUMBERED, MOST_READ, ReplyBuffer,
    print_command, put, put_answer, put_bad, put_element, put_number, put_receipt, put_receipt_at,
    put_refusal, put_wide, read_line, serve_lines,
};
pub use lv_transcript::{
    Claimed, FrontVerdict, Verdict, audit, audit_front, read_front, write_transcript,
};
pub use query_grammar::read_query;
pub use restored::{Unrestored, restore_script, resume_script};
pub use running_scans::{Elements, Slice, put_running_scan};
pub use sample_queries::{SampleQuery, SampleSpan, samples_answer_by_their_edits};
pub use scans::Asked;
pub use schedule_replies::{put_said, said_shown};
pub use schedules::run_schedule;
pub use scripts::{run_script, run_script_within};
pub use series_scripts::run_series_script;
pub use watch_replies::{ROOM, put_notes};
