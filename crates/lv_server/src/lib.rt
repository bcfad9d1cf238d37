//! A server of sessions, and how it opens its clients' files.
//!
//! `serve` serves sessions and subscribers on streams of any kind, and its clauses say what these received. `serve_files`, `serve_logged_files`,
//! `hold_files` and `restore_file` open the named files and pass them on. How a file is opened, locked and written, and why that fails, is in
//! `lv_files`.
#![tactic(auto)]

mod board_sessions;
mod clients;
mod commands;
mod log_server;
mod opened_client;
mod server;
mod threads;
mod transcript;

pub use board_sessions::hold_sessions;
pub use commands::{hold_files, restore_file, serve_files, serve_logged_files};
pub use log_server::serve_log;
pub use opened_client::OpenedClient;
pub use server::{Plan, serve};
