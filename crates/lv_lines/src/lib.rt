//! Lines: what a line says, the texts of replies, and the loop that reads lines from any reader and writes the replies
//! to any writer.
//!
//! The model is bytes: a line is its words, `read_line` gives exactly what the grammar says of it, and the output of `print_command` is
//! read as the same command. `serve_lines` has a `LineHandler` answer the lines that it reads one after the other, and writes the replies
//! joined end to end. After a fault, a prefix of the replies was written. Memory is fixed, however long the input or a line of it is.
//! The crates above define the reply to a line.
#![tactic(auto)]

mod backward_line;
mod command;
mod fault;
pub mod grammar;
mod line_handler;
mod line_loop;
mod line_reader;
mod lines;
mod named_replies;
mod numbers;
mod output;
mod printing;
mod replies;
mod reply_buffer;
mod script_grammar;
mod words;

pub use command::Command;
pub use fault::Fault;
pub use line_handler::LineHandler;
pub use line_loop::{MOST_NUMBERED, MOST_READ, serve_lines};
pub use lines::{Line, LineGrammar, read_line, read_line_by};
pub use named_replies::{put_named, put_note, put_unwatched, put_watching};
pub use numbers::{element, number, number_up_to};
pub use output::{HELD, put, put_element, put_name, put_number, put_wide, write_whole};
pub use printing::{COMMAND, print_command, put_command};
pub use replies::{
    LINE, command_of, put_answer, put_bad, put_capacity, put_counted, put_found, put_receipt,
    put_receipt_at, put_refusal, put_refused, put_scan_head, put_settled, put_shown, put_size,
    put_swapped, put_value, put_valued,
};
pub use reply_buffer::ReplyBuffer;
pub use script_grammar::ScriptGrammar;
pub use words::{kind_name, next_word, only_word, scan_name};
