//! The file of a subscriber: what its lines ask.

ghost use Rattle.std.specs.Prelude.{◌≡◌, ◌∷◌, None, Some};
ghost use Rattle.lv_lines.specs.Words.{words_of};
ghost use Rattle.lv_hub.specs.Asking.{Asks, Finds, ReadsQuestions, TakesUnless, asked_in};

use crate::subscribers::MOST_QUERIES;
use lv_geometry::Refusal;
use lv_lines::grammar::spells;
use lv_lines::{
    Fault, Line, LineGrammar, LineHandler, MOST_READ, ReplyBuffer, read_line_by, serve_lines,
};
use lv_script::read_query;
use lv_standing::{Query, QuerySet};
use std::alloc::Global;
use std::io;
use std::io::{Read, Write};
use std::marker::Model;

/// The error of a line of such a file.
#[derive(Clone, Copy, PartialEq, Eq)]
pub struct Damage {
    /// The line's number, from 1.
    pub line: u32,
    /// Why its question is refused, or none if the line asks no question.
    pub refusal: Option<Refusal>,
}

/// Why the questions of a file can't be had.
#[derive(Clone, Copy)]
pub enum Unasked {
    /// The file can't be read, or memory ran out.
    Fault(Fault),
    /// A line is bad.
    Damage(Damage),
}

/// Reads a file to its end. Its lines are `watch NAME KIND LO HI`, or with `last N` for the range, and optionally with `at-least X` or `at-most
/// X` behind it. Empty lines and comments are skipped. Keeps only the questions. A fault of reading takes precedence over a bad line, and only
/// the first bad line is reported. A question is refused with `BadRange`, `NameTaken`, `TooMany`, then `NoMemory`.
pub fn read_questions<R: Read>(alloc: Global, reader: &mut R) -> Result<Vec<Query>, Unasked>
    ensures { ReadsQuestions (R.remaining reader.old) (R.remaining reader.new) result }
{
    let mut asker = Asker {
        queries: QuerySet::new(alloc, MOST_QUERIES),
        damage: None,
    };
    match serve_lines(MOST_READ, alloc, &mut asker, reader, &mut io::sink()) {
        Ok(()) => found(asker),
        Err(fault) => Err(Unasked::Fault(fault)),
    }
}

// How the words of a line of such a file are read.
#[derive(Clone, Copy)]
struct WatchGrammar;

impl LineGrammar for WatchGrammar {
    type Command = Query;

    ghost use Rattle.lv_hub.specs.Asking.{asked_in};

    ghost command_in = { λ _. asked_in };

    fn command(&self, verb: &[u8], words: &[u8]) -> Option<Query> {
        asked(verb, words)
    }
}

// The query that a first word and the words after it ask.
#[tactic(auto, unfolding(crate::specs::Asking::asked_in))]
fn asked(verb: &[u8], words: &[u8]) -> Option<Query>
    ensures { result ≡ asked_in (verb.now ∷ words_of words.now) }
{
    if !spells(verb, "watch") {
        return None;
    }
    read_query(words, u64::from(u32::MAX))
}

// What was read so far.
#[derive(Drop)]
struct Asker {
    queries: QuerySet<Query>,
    damage: Option<Damage>,
}

impl Model for Asker {
    ghost use Rattle.std.specs.Prelude.{◌≡◌};
    ghost use Rattle.lv_hub.specs.Asking.{Asked};

    ghost Value = { Asked };

    ghost view = { λ a. record { questions = a.queries.queries; damage = a.damage } };

    ghost invariant = { λ a. a.queries.most ≡ 64 };
}

impl<W: Write> LineHandler<W> for Asker {
    ghost use Rattle.lv_hub.specs.Asking.{AskStep, Asked};

    ghost State = { Asked };

    ghost state = { λ a. a };

    ghost step = { AskStep };

    ghost may_send = { λ _. Unit {0} };

    fn handle(
        &mut self,
        number: u32,
        line: &[u8],
        _buffer: &mut ReplyBuffer<'_, W>,
    ) -> Result<(), Fault> {
        self.take(number, read_line_by(&WatchGrammar, line));
        Ok(())
    }

    fn before_send(&self) -> Result<(), Fault> {
        Ok(())
    }
}

impl Asker {
    // Takes a line, unless a line before it was bad.
    fn take(&mut self, number: u32, line: Line<Query>)
        ensures { TakesUnless self.old.damage self.old number line self.new }
    {
        if self.damage.is_some() {
            return;
        }
        match line {
            Line::Nothing => {}
            Line::Bad => self.damage = damage_at(number, None),
            Line::Do(query) => self.ask(number, &query),
        }
    }

    // Takes a question.
    fn ask(&mut self, number: u32, question: &Query)
        requires { self.old.damage ≡ None }
        ensures { Asks self.old.questions number question.now self.new }
    {
        match self.queries.watch(question, question.untold()) {
            Ok(()) => {}
            Err(refusal) => self.damage = damage_at(number, Some(refusal)),
        }
    }
}

// The questions, or the error.
fn found(asker: Asker) -> Result<Vec<Query>, Unasked>
    ensures { Finds asker result }
{
    let Asker { queries, damage } = asker;
    match damage {
        Some(damage) => Err(Unasked::Damage(damage)),
        None => Ok(queries.into_queries()),
    }
}

// The error of a line.
fn damage_at(line: u32, refusal: Option<Refusal>) -> Option<Damage>
    ensures { result ≡ Some (record { line = line; refusal = refusal }) }
{
    Some(Damage { line, refusal })
}
