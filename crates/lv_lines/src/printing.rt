//! The text of a command.
ghost use Rattle.std.specs.Prelude.{◌≡◌, ◌+◌, ◌≤◌, ◌∷◌, [], ◌++◌, decimal, length, IfOk, vec_len};
ghost use Rattle.lv_lines.specs.Output.{HasRoom, KeepsRoom};
ghost use Rattle.std.specs.Fmt.{signed_decimal};
ghost use Rattle.lv_bodies.specs.Names.{IsName};
ghost use Rattle.lv_lines.specs.Words.{behind_spaces};
ghost use Rattle.lv_lines.specs.Grammar.{line_of};
ghost use Rattle.lv_lines.specs.Printed.{verb_of, arguments_of, range_words, printed, IsCommand};

use crate::command::Command;
use crate::lines::Line;
use crate::output::{put, put_element, put_name, put_number};
use crate::words::{kind_name, scan_name};
use lv_bodies::{Kind, Name};
use lv_edits::Edit;
use std::alloc::{AllocError, Global};

/// At most how many bytes the text of a command has.
pub const COMMAND: usize = 78;

/// The text of a command: its words with one space between, and no zeros before a number. It fails only if there is no memory.
pub fn print_command(alloc: Global, command: &Command) -> Result<Vec<u8>, AllocError>
    ensures printed { IfOk result (λ text. text.items ≡ printed command.now) }
    // Read as a line, it is the same command.
    ensures again { IfOk result (λ text. line_of text.items ≡ Line.Do command.now) }
{
    let mut text = Vec::with_capacity(alloc, COMMAND)?;
    put_command(&mut text, command);
    Ok(text)
}

/// Puts the text of a command after what is held.
pub fn put_command(held: &mut Vec<u8>, command: &Command)
    requires { HasRoom held.old COMMAND }
    ensures text { held.new.items ≡ held.old.items ++ printed command.now }
    ensures len { vec_len held.new ≤ vec_len held.old + COMMAND }
    ensures room { KeepsRoom held.old held.new }
    ensures fits { IsCommand command.now }
{
    put(held, verb(command).as_bytes());
    put_arguments(held, command);
}

/// The first word of a command.
fn verb(command: &Command) -> &'static str
    ensures value { result.now ≡ verb_of command.now }
    ensures short { length result.now ≤ 9 }
{
    match command {
        Command::Edit(Edit::Push(_)) => "push",
        Command::Edit(Edit::Pop) => "pop",
        Command::Edit(Edit::Write { .. }) => "write",
        Command::Edit(Edit::Reserve(_)) => "reserve",
        Command::Edit(Edit::Swap { .. }) => "swap",
        Command::Edit(Edit::Truncate(_)) => "truncate",
        Command::Settle => "settle",
        Command::Get(_) => "get",
        Command::Size => "size",
        Command::Capacity => "capacity",
        Command::Reduce { .. } => "reduce",
        Command::Cost { .. } => "cost",
        Command::Scan { inclusive, .. } => scan_name(*inclusive),
        Command::Claim => "claim",
        Command::Deliver(_) => "deliver",
        Command::Forget => "forget",
        Command::Watch { .. } => "watch",
        Command::Unwatch(_) => "unwatch",
        Command::Answer(_) => "answer",
    }
}

// Puts a word after a space.
fn put_word(held: &mut Vec<u8>, word: &[u8])
    requires { HasRoom held.old (1 + length word.now) }
    ensures text { held.new.items ≡ held.old.items ++ (32 ∷ word.now) }
    ensures len { vec_len held.new ≡ vec_len held.old + 1 + length word.now }
    ensures room { KeepsRoom held.old held.new }
{
    put(held, b" ");
    put(held, word);
}

fn put_name_word(held: &mut Vec<u8>, name: Name)
    requires { HasRoom held.old 17 }
    ensures text { held.new.items ≡ held.old.items ++ (32 ∷ name) }
    ensures named { IsName name }
    ensures len { vec_len held.new ≤ vec_len held.old + 17 }
    ensures room { KeepsRoom held.old held.new }
{
    put(held, b" ");
    put_name(held, name);
}

fn put_number_word(held: &mut Vec<u8>, n: u32)
    requires { HasRoom held.old 21 }
    ensures text { held.new.items ≡ held.old.items ++ (32 ∷ decimal n) }
    ensures len { vec_len held.new ≤ vec_len held.old + 21 }
    ensures room { KeepsRoom held.old held.new }
{
    put(held, b" ");
    put_number(held, n.into());
}

fn put_element_word(held: &mut Vec<u8>, value: i64)
    requires { HasRoom held.old 21 }
    ensures text { held.new.items ≡ held.old.items ++ (32 ∷ signed_decimal value) }
    ensures len { vec_len held.new ≤ vec_len held.old + 21 }
    ensures room { KeepsRoom held.old held.new }
{
    put(held, b" ");
    put_element(held, value);
}

// Puts two numbers, each after a space.
fn put_numbers(held: &mut Vec<u8>, first: u32, second: u32)
    requires { HasRoom held.old 42 }
    ensures text { held.new.items ≡ held.old.items ++ behind_spaces (decimal first ∷ decimal second ∷ []) }
    ensures len { vec_len held.new ≤ vec_len held.old + 42 }
    ensures room { KeepsRoom held.old held.new }
{
    put_number_word(held, first);
    put_number_word(held, second);
}

fn put_range(held: &mut Vec<u8>, kind: Kind, lo: u32, hi: u32)
    requires { HasRoom held.old 52 }
    ensures text { held.new.items ≡ held.old.items ++ behind_spaces (range_words kind lo hi) }
    ensures len { vec_len held.new ≤ vec_len held.old + 52 }
    ensures room { KeepsRoom held.old held.new }
{
    put_word(held, kind_name(kind).as_bytes());
    put_numbers(held, lo, hi);
}

// Puts the words of a command after its first, each after a space.
fn put_arguments(held: &mut Vec<u8>, command: &Command)
    requires { HasRoom held.old 69 }
    ensures words { held.new.items ≡ held.old.items ++ behind_spaces (arguments_of command.now) }
    ensures len { vec_len held.new ≤ vec_len held.old + 69 }
    ensures room { KeepsRoom held.old held.new }
    ensures fits { IsCommand command.now }
{
    match *command {
        Command::Edit(Edit::Push(value)) => put_element_word(held, value),
        Command::Edit(Edit::Write { index, value }) => {
            put_number_word(held, index);
            put_element_word(held, value);
        }
        Command::Edit(Edit::Reserve(cells)) => put_number_word(held, cells),
        Command::Edit(Edit::Swap { first, second }) => put_numbers(held, first, second),
        Command::Edit(Edit::Truncate(kept)) => put_number_word(held, kept),
        Command::Get(index) => put_number_word(held, index),
        Command::Cost { lo, hi } => put_numbers(held, lo, hi),
        Command::Reduce { kind, lo, hi } => put_range(held, kind, lo, hi),
        Command::Scan { kind, lo, hi, .. } => put_range(held, kind, lo, hi),
        Command::Deliver(job) => put_number_word(held, job),
        Command::Watch { name, kind, lo, hi } => {
            put_name_word(held, name);
            put_range(held, kind, lo, hi);
        }
        Command::Unwatch(name) => put_name_word(held, name),
        Command::Answer(name) => put_name_word(held, name),
        Command::Edit(Edit::Pop)
        | Command::Settle
        | Command::Size
        | Command::Capacity
        | Command::Claim
        | Command::Forget => {}
    }
}
